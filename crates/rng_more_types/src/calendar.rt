//! The Gregorian calendar, over years counted from one long ago.

ghost use Rattle.std.specs.Prelude.{◌≡◌, ◌≤◌, ◌<◌, ◌-◌, ◌^◌, ◌+◌, ◌*◌, true, take, sum, length};
ghost use Rattle.rng_more_types.specs.Calendar.{is_leap as is_leap_year, month_lengths as lengths_of_months, is_month as is_month_number};
ghost use Rattle.rng_more_types.specs.Calendar.{is_day as is_day_of, leap_years_before as leap_years, day_number as number_of_day};

/// The year before the first of the common era in the count of years: a multiple of 400, beyond any year that can be written.
pub(crate) const ERA: u64 = 1_000_000_000;

/// Whether a year is a leap year.
fn is_leap(year: u64) -> bool
    ensures { result ≡ is_leap_year year }
{
    year % 4 == 0 && (year % 100 != 0 || year % 400 == 0)
}

/// The days of each month.
fn month_lengths(leap: bool) -> [u64; 12]
    ensures { result ≡ lengths_of_months leap }
{
    let february = if leap { 29 } else { 28 };
    [31, february, 31, 30, 31, 30, 31, 31, 30, 31, 30, 31]
}

/// Whether a number is that of a month.
pub(crate) fn is_month(month: u64) -> bool
    ensures { result ≡ is_month_number month }
{
    1 <= month && month <= 12
}

/// Whether a month of a year has a day.
pub(crate) fn is_day(year: u64, month: u64, day: u64) -> bool
    requires { is_month_number month ≡ true }
    ensures { result ≡ is_day_of year month day }
{
    let lengths = month_lengths(is_leap(year));
    1 <= day && day <= lengths[(month - 1) as usize]
}

/// How many leap years there are before a year.
fn leap_years_before(year: u64) -> u64
    requires { year < 2 ^ 40 }
    ensures number { result ≡ leap_years year }
    ensures fewer { result ≤ year }
{
    (year + 3) / 4 + (year + 399) / 400 - (year + 99) / 100
}

/// What numbers are together.
fn sum_of(numbers: &[u64]) -> u64
    requires { sum numbers.now < 2 ^ 64 }
    ensures { result ≡ sum numbers.now }
{
    numbers.iter().sum()
}

/// How many days of a year there are before a month.
fn days_before_month(year: u64, month: u64) -> u64
    requires { is_month_number month ≡ true }
    ensures number { result ≡ sum (take (month - 1) (lengths_of_months (is_leap_year year))) }
    ensures fewer { result ≤ 366 }
{
    let lengths = month_lengths(is_leap(year));
    sum_of(&lengths[..(month - 1) as usize])
}

/// The number of a day.
#[tactic(auto, unfolding(crate::specs::Calendar::day_number))]
pub(crate) fn day_number(year: u64, month: u64, day: u64) -> u64
    requires year { year < 2 ^ 31 }
    requires month { is_month_number month ≡ true }
    requires day { day < 100 }
    ensures number { result ≡ number_of_day year month day }
    ensures small { result < 2 ^ 40 }
{
    365 * year + leap_years_before(year) + days_before_month(year, month) + day
}
