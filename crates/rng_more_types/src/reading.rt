//! Literals of dates and times, read from left to right.

ghost use Rattle.std.specs.Prelude.{◌≡◌, ◌≤◌, ◌<◌, ◌^◌, true, length, IfSome};
ghost use Rattle.std.specs.List.{prefix_len, list_all};
ghost use Rattle.std.specs.Char.{is_ascii_digit};
ghost use Rattle.std.specs.Str.Parse.{digits_value};
ghost use Rattle.rng_more_types.specs.Calendar.{is_month as is_month_number, is_day as is_day_of};
ghost use Rattle.rng_more_types.specs.Literals.{is_zone, is_year_number as is_year_digits, starts_right as begins_right, is_time as is_time_of_day, is_shift as is_shift_of, is_zero_digit};
ghost use Rattle.rng_more_types.specs.Told.{Finds, told};
ghost use Rattle.rng_more_types.specs.Reading.{two_at, two_behind as two_at_mark, unsigned_year_at, year_at, month_at, day_at, minutes_at, fraction_at};
ghost use Rattle.rng_more_types.specs.Reading.{clock_at, clock_behind as clock_at_mark, shift_of, zone_of, moment_in as moment_left, date_of, time_of, date_time_of, year_of, month_of};

use crate::calendar::{ERA, day_number, is_day, is_month};
use crate::moment::{Instant, Zone, moment_at, seconds_of};

/// A number of two digits, and what follows it.
#[tactic(auto, unfolding(crate::specs::Reading::two_at))]
fn two(text: &[u8]) -> Option<(u64, &[u8])>
    ensures found { Finds (λ x. (x.0, x.1.now)) result (two_at text.now) }
    ensures small { IfSome result (λ x. x.0 < 100) }
{
    match text {
        [tens, ones, rest @ ..] => {
            if tens.is_ascii_digit() && ones.is_ascii_digit() {
                let number = u64::from(*tens - b'0') * 10 + u64::from(*ones - b'0');
                Some((number, rest))
            } else {
                None
            }
        }
        _ => None,
    }
}

/// The same behind a character.
#[tactic(auto, unfolding(crate::specs::Reading::two_behind))]
fn two_behind(mark: u8, text: &[u8]) -> Option<(u64, &[u8])>
    ensures found { Finds (λ x. (x.0, x.1.now)) result (two_at_mark mark text.now) }
    ensures small { IfSome result (λ x. x.0 < 100) }
{
    match text {
        [first, rest @ ..] => { if *first == mark { two(rest) } else { None } }
        [] => None,
    }
}

/// How many digits there are at the start.
fn leading_digits(text: &[u8]) -> usize
    ensures count { result ≡ prefix_len is_ascii_digit text.now }
    ensures within { result ≤ length text.now }
{
    text.iter().take_while(|byte| byte.is_ascii_digit()).count()
}

/// Whether all bytes are digits.
fn all_digits(text: &[u8]) -> bool
    ensures { result ≡ list_all is_ascii_digit text.now }
{
    text.iter().all(|byte| byte.is_ascii_digit())
}

/// Whether no zero is first, or only before three more.
fn starts_right(digits: &[u8]) -> bool
    ensures { result ≡ begins_right digits.now }
{
    match digits {
        [first, more @ ..] => *first != b'0' || more.len() == 3,
        [] => false,
    }
}

/// The number that up to nine digits write.
fn value_of(digits: &[u8]) -> u64
    requires digits { list_all is_ascii_digit digits.now ≡ true }
    requires few { length digits.now ≤ 9 }
    ensures number { result ≡ digits_value 10 digits.now }
    ensures small { result < 10 ^ 9 }
{
    let mut number: u64 = 0;
    for digit in digits {
        number = number * 10 + u64::from(*digit - b'0');
    }
    number
}

/// Whether digits are those of a year.
#[tactic(auto, unfolding(crate::specs::Literals::is_year_number))]
fn is_year_number(digits: &[u8]) -> bool
    ensures { result ≡ is_year_digits digits.now }
{
    all_digits(digits)
        && 4 <= digits.len()
        && digits.len() <= 9
        && starts_right(digits)
        && value_of(digits) != 0
}

/// A year in the count, and what follows it.
#[tactic(auto, unfolding(crate::specs::Reading::unsigned_year_at, crate::specs::Literals::is_year_number))]
fn unsigned_year(negative: bool, text: &[u8]) -> Option<(u64, &[u8])>
    ensures found { Finds (λ x. (x.0, x.1.now)) result (unsigned_year_at negative text.now) }
    ensures small { IfSome result (λ x. x.0 < 2 ^ 31) }
{
    let (digits, rest) = text.split_at(leading_digits(text));
    if !is_year_number(digits) {
        return None;
    }
    let number = value_of(digits);
    let year = if negative {
        ERA + 1 - number
    } else {
        ERA + number
    };
    Some((year, rest))
}

/// A year with its sign, in the count, and what follows it.
#[tactic(auto, unfolding(crate::specs::Reading::year_at))]
fn year(text: &[u8]) -> Option<(u64, &[u8])>
    ensures found { Finds (λ x. (x.0, x.1.now)) result (year_at text.now) }
    ensures small { IfSome result (λ x. x.0 < 2 ^ 31) }
{
    match text {
        [b'-', rest @ ..] => unsigned_year(true, rest),
        [] => None,
        [_, ..] => unsigned_year(false, text),
    }
}

/// A year, a month, and what follows them.
#[tactic(auto, unfolding(crate::specs::Reading::month_at))]
fn month(text: &[u8]) -> Option<(u64, u64, &[u8])>
    ensures found { Finds (λ x. (x.0, x.1, x.2.now)) result (month_at text.now) }
    ensures year { IfSome result (λ x. x.0 < 2 ^ 31) }
    ensures month { IfSome result (λ x. is_month_number x.1 ≡ true) }
{
    let (year, rest) = year(text)?;
    let (month, rest) = two_behind(b'-', rest)?;
    if is_month(month) {
        Some((year, month, rest))
    } else {
        None
    }
}

/// The number of a day, and what follows it.
#[tactic(auto, unfolding(crate::specs::Reading::day_at))]
fn day(text: &[u8]) -> Option<(u64, &[u8])>
    ensures found { Finds (λ x. (x.0, x.1.now)) result (day_at text.now) }
    ensures small { IfSome result (λ x. x.0 < 2 ^ 40) }
{
    let (year, month, rest) = month(text)?;
    let (day, rest) = two_behind(b'-', rest)?;
    if is_day(year, month, day) {
        Some((day_number(year, month, day), rest))
    } else {
        None
    }
}

/// Hours and minutes, and what follows them.
#[tactic(auto, unfolding(crate::specs::Reading::minutes_at))]
fn minutes(text: &[u8]) -> Option<(u64, u64, &[u8])>
    ensures found { Finds (λ x. (x.0, x.1, x.2.now)) result (minutes_at text.now) }
    ensures hours { IfSome result (λ x. x.0 < 100) }
    ensures minutes { IfSome result (λ x. x.1 < 100) }
{
    let (hours, rest) = two(text)?;
    let (minutes, rest) = two_behind(b':', rest)?;
    Some((hours, minutes, rest))
}

/// The digits of a fraction, where a point is at the front, and what follows them.
#[tactic(auto, unfolding(crate::specs::Reading::fraction_at))]
fn fraction(text: &[u8]) -> Option<(&[u8], &[u8])>
    ensures { Finds (λ x. (x.0.now, x.1.now)) result (fraction_at text.now) }
{
    match text {
        [b'.', rest @ ..] => {
            let count = leading_digits(rest);
            if count == 0 {
                None
            } else {
                Some(rest.split_at(count))
            }
        }
        [] => Some((&[], text)),
        [_, ..] => Some((&[], text)),
    }
}

/// Whether all bytes are zeros.
fn all_zeros(digits: &[u8]) -> bool
    ensures { result ≡ list_all is_zero_digit digits.now }
{
    digits.iter().all(|byte| *byte == b'0')
}

/// Whether hours, minutes, seconds and their fraction are those of a time of day.
fn is_time(hour: u64, minute: u64, second: u64, fraction: &[u8]) -> bool
    ensures { result ≡ is_time_of_day hour minute second fraction.now }
{
    (hour <= 23 || (hour == 24 && minute == 0 && second == 0 && all_zeros(fraction)))
        && minute <= 59
        && second <= 59
}

/// The seconds of a day, the digits of their fraction, and what follows them.
#[tactic(auto, unfolding(crate::specs::Reading::clock_at))]
fn clock(text: &[u8]) -> Option<(u64, &[u8], &[u8])>
    ensures found { Finds (λ x. (x.0, x.1.now, x.2.now)) result (clock_at text.now) }
    ensures small { IfSome result (λ x. x.0 < 2 ^ 20) }
{
    let (hour, minute, rest) = minutes(text)?;
    let (second, rest) = two_behind(b':', rest)?;
    let (fraction, rest) = fraction(rest)?;
    if is_time(hour, minute, second, fraction) {
        Some((seconds_of(hour, minute) + second, fraction, rest))
    } else {
        None
    }
}

/// The same behind a `T`.
#[tactic(auto, unfolding(crate::specs::Reading::clock_behind))]
fn clock_behind(text: &[u8]) -> Option<(u64, &[u8], &[u8])>
    ensures found { Finds (λ x. (x.0, x.1.now, x.2.now)) result (clock_at_mark text.now) }
    ensures small { IfSome result (λ x. x.0 < 2 ^ 20) }
{
    match text {
        [b'T', rest @ ..] => clock(rest),
        _ => None,
    }
}

/// Whether hours and minutes are those of a zone.
fn is_shift(hours: u64, minutes: u64) -> bool
    ensures { result ≡ is_shift_of hours minutes }
{
    (hours <= 13 && minutes <= 59) || (hours == 14 && minutes == 0)
}

/// Hours and minutes of a zone, with nothing behind them.
#[tactic(auto, unfolding(crate::specs::Reading::shift_of))]
fn shift(text: &[u8]) -> Option<(u64, u64)>
    ensures found { result ≡ shift_of text.now }
    ensures right { IfSome result (λ x. is_shift_of x.0 x.1 ≡ true) }
{
    let (hours, minutes, rest) = minutes(text)?;
    if is_shift(hours, minutes) && rest.is_empty() {
        Some((hours, minutes))
    } else {
        None
    }
}

/// A zone, with nothing behind it.
#[tactic(auto, unfolding(crate::specs::Reading::zone_of))]
fn zone(text: &[u8]) -> Option<Zone>
    ensures found { result ≡ zone_of text.now }
    ensures right { IfSome result (λ zone. is_zone zone ≡ true) }
{
    match text {
        [] => Some(Zone::Unzoned),
        [b'Z', rest @ ..] => {
            if rest.is_empty() {
                Some(Zone::Utc)
            } else {
                None
            }
        }
        [b'+', rest @ ..] => {
            let (hours, minutes) = shift(rest)?;
            Some(Zone::Ahead(hours, minutes))
        }
        [b'-', rest @ ..] => {
            let (hours, minutes) = shift(rest)?;
            Some(Zone::Behind(hours, minutes))
        }
        [_, ..] => None,
    }
}

/// The moment at these seconds of a day, in the zone that is left.
#[tactic(auto, unfolding(crate::specs::Reading::moment_in))]
fn moment_in<'a>(day: u64, seconds: u64, fraction: &'a [u8], rest: &[u8]) -> Option<Instant<'a>>
    requires day { day < 2 ^ 40 }
    requires seconds { seconds < 2 ^ 20 }
    ensures { Finds (λ x. told x) result (moment_left day seconds fraction.now rest.now) }
{
    let zone = zone(rest)?;
    Some(moment_at(day, seconds, fraction, zone))
}

/// Any day, from which a zone can be taken back.
const SOME_DAY: u64 = 2;

/// The moment of a date.
#[tactic(auto, unfolding(crate::specs::Reading::date_of))]
pub(crate) fn date(text: &[u8]) -> Option<Instant<'_>>
    ensures { Finds (λ x. told x) result (date_of text.now) }
{
    let (day, rest) = day(text)?;
    moment_in(day, 0, &[], rest)
}

/// The moment of a time of day, in a day.
#[tactic(auto, unfolding(crate::specs::Reading::time_of))]
pub(crate) fn time(text: &[u8]) -> Option<Instant<'_>>
    ensures { Finds (λ x. told x) result (time_of text.now) }
{
    let (seconds, fraction, rest) = clock(text)?;
    let moment = moment_in(SOME_DAY, seconds, fraction, rest)?;
    Some(moment.within_a_day())
}

/// The moment of a date with a time of day.
#[tactic(auto, unfolding(crate::specs::Reading::date_time_of))]
pub(crate) fn date_time(text: &[u8]) -> Option<Instant<'_>>
    ensures { Finds (λ x. told x) result (date_time_of text.now) }
{
    let (day, rest) = day(text)?;
    let (seconds, fraction, rest) = clock_behind(rest)?;
    moment_in(day, seconds, fraction, rest)
}

/// The moment at which a year starts.
#[tactic(auto, unfolding(crate::specs::Reading::year_of))]
pub(crate) fn whole_year(text: &[u8]) -> Option<Instant<'_>>
    ensures { Finds (λ x. told x) result (year_of text.now) }
{
    let (year, rest) = year(text)?;
    moment_in(day_number(year, 1, 1), 0, &[], rest)
}

/// The moment at which a month of a year starts.
#[tactic(auto, unfolding(crate::specs::Reading::month_of))]
pub(crate) fn whole_month(text: &[u8]) -> Option<Instant<'_>>
    ensures { Finds (λ x. told x) result (month_of text.now) }
{
    let (year, month, rest) = month(text)?;
    moment_in(day_number(year, month, 1), 0, &[], rest)
}
