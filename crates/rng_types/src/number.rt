//! Decimal literals. They are compared by their digits, so that they may have any length.

ghost use Rattle.std.specs.Prelude.{◌≡◌, ◌≤◌, ◌*◌, ◌^◌, ◌++◌, ◌&&◌, ◌==◌, not, length, IsTrue};
ghost use Rattle.std.specs.List.{list_all, prefix_len, position_or_len};
ghost use Rattle.std.specs.Char.{is_ascii_digit};
ghost use Rattle.std.specs.Ordering.{nat_cmp};
ghost use Rattle.rng_types.specs.Numbers.{is_negative as is_negative_text, unsigned as unsigned_text, is_point};
ghost use Rattle.rng_types.specs.Numbers.{is_zero, whole_part as whole_of, fraction_part as fraction_of};
ghost use Rattle.rng_types.specs.Numbers.{is_digits as are_digits, is_decimal as is_decimal_text};
ghost use Rattle.rng_types.specs.Numbers.{is_integer as is_integer_text, number_of, compared};
ghost use Rattle.rng_types.specs.Numbers.{without_leading_zeros as without_zeros_before};
ghost use Rattle.rng_types.specs.Numbers.{without_trailing_zeros as without_zeros_behind};
ghost use Rattle.rng_types.specs.Numbers.{significant as significant_digits, has_few_digits as has_few};

use std::cmp::Ordering;

/// Whether the sign is `-`.
pub(crate) fn is_negative(text: &[u8]) -> bool
    ensures { result ≡ is_negative_text text.now }
{
    match text.first() {
        Some(first) => *first == b'-',
        None => false,
    }
}

/// What stands behind the sign, if there is one.
pub(crate) fn unsigned(text: &[u8]) -> &[u8]
    ensures { result.now ≡ unsigned_text text.now }
{
    match text.split_first() {
        Some((first, rest)) => {
            if *first == b'+' || *first == b'-' {
                rest
            } else {
                text
            }
        }
        None => text,
    }
}

/// How many bytes stand before the point, or in all where there is none.
fn point_place(digits: &[u8]) -> usize
    ensures { result ≡ position_or_len is_point digits.now }
{
    digits.iter().take_while(|byte| **byte != b'.').count()
}

/// What stands before the point.
fn whole_part(text: &[u8]) -> &[u8]
    ensures { result.now ≡ whole_of text.now }
{
    let digits = unsigned(text);
    let point = point_place(digits);
    &digits[..point]
}

/// What stands behind the point.
fn fraction_part(text: &[u8]) -> &[u8]
    ensures { result.now ≡ fraction_of text.now }
{
    let digits = unsigned(text);
    let point = point_place(digits);
    if point < digits.len() {
        &digits[point + 1..]
    } else {
        &[]
    }
}

/// Whether all bytes are digits.
fn all_digits(text: &[u8]) -> bool
    ensures { result ≡ list_all is_ascii_digit text.now }
{
    text.iter().all(|byte| byte.is_ascii_digit())
}

/// Whether a text is one digit or more, and nothing else.
pub(crate) fn is_digits(text: &[u8]) -> bool
    ensures { result ≡ are_digits text.now }
{
    !text.is_empty() && all_digits(text)
}

/// Whether all bytes are zeros.
fn all_zeros(text: &[u8]) -> bool
    ensures { result ≡ list_all is_zero text.now }
{
    text.iter().all(|byte| *byte == b'0')
}

/// Whether a text is a sign or none, and digits with at most one point among or beside them.
pub(crate) fn is_decimal(text: &[u8]) -> bool
    ensures { result ≡ is_decimal_text text.now }
{
    let whole = whole_part(text);
    let fraction = fraction_part(text);
    !(whole.is_empty() && fraction.is_empty()) && all_digits(whole) && all_digits(fraction)
}

/// Whether a text is a sign or none, and digits.
pub(crate) fn is_integer(text: &[u8]) -> bool
    ensures { result ≡ is_integer_text text.now }
{
    is_digits(unsigned(text))
}

/// How many zeros digits begin with.
fn leading_zeros(digits: &[u8]) -> usize
    ensures count { result ≡ prefix_len is_zero digits.now }
    ensures within { result ≤ length digits.now }
{
    digits.iter().take_while(|byte| **byte == b'0').count()
}

/// Digits without the zeros at their start.
pub(crate) fn without_leading_zeros(digits: &[u8]) -> &[u8]
    ensures { result.now ≡ without_zeros_before digits.now }
{
    let zeros = leading_zeros(digits);
    &digits[zeros..]
}

/// Digits without the zeros at their end.
fn without_trailing_zeros(digits: &[u8]) -> &[u8]
    ensures { result.now ≡ without_zeros_behind digits.now }
{
    let mut left = digits;
    while let Some((last, front)) = left.split_last() {
        if *last != b'0' {
            return left;
        }
        left = front;
    }
    left
}

/// How many digits a literal needs.
fn significant(text: &[u8]) -> usize
    ensures { result ≡ significant_digits text.now }
{
    let whole = without_leading_zeros(whole_part(text));
    let fraction = without_trailing_zeros(fraction_part(text));
    whole.len() + fraction.len()
}

/// How many digits a number in a schema may have.
const MOST_DIGITS: usize = 30;

/// Whether a literal needs no more digits than a number in a schema may have.
pub(crate) fn has_few_digits(text: &[u8]) -> bool
    ensures { result ≡ has_few text.now }
{
    significant(text) <= MOST_DIGITS
}

/// Whether a literal's number is zero.
fn is_zero_number(text: &[u8]) -> bool
    requires { IsTrue (is_decimal_text text.now) }
    ensures { result ≡ ((number_of text.now).digits == 0) }
{
    all_zeros(whole_part(text)) && all_zeros(fraction_part(text))
}

/// Whether a literal's number is below zero.
pub(crate) fn is_below_zero(text: &[u8]) -> bool
    requires { IsTrue (is_decimal_text text.now) }
    ensures { result ≡ (is_negative_text text.now && not ((number_of text.now).digits == 0)) }
{
    is_negative(text) && !is_zero_number(text)
}

/// How two literals' numbers compare without their signs.
fn compare_magnitudes(a: &[u8], b: &[u8]) -> Ordering
    requires first { IsTrue (is_decimal_text a.now) }
    requires second { IsTrue (is_decimal_text b.now) }
    ensures { let x = number_of a.now in let y = number_of b.now in result ≡ nat_cmp (x.digits * 10 ^ y.places) (y.digits * 10 ^ x.places) }
{
    let first = without_leading_zeros(whole_part(a));
    let second = without_leading_zeros(whole_part(b));
    let wholes = first.len().cmp(&second.len()).then(first.cmp(second));
    let fractions = without_trailing_zeros(fraction_part(a)).cmp(without_trailing_zeros(
        fraction_part(b),
    ));
    wholes.then(fractions)
}

/// How two literals' numbers compare.
pub(crate) fn compare(a: &[u8], b: &[u8]) -> Ordering
    requires first { IsTrue (is_decimal_text a.now) }
    requires second { IsTrue (is_decimal_text b.now) }
    ensures { result ≡ compared (number_of a.now) (number_of b.now) }
{
    let magnitudes = compare_magnitudes(a, b);
    match (is_below_zero(a), is_below_zero(b)) {
        (false, false) => magnitudes,
        (true, true) => magnitudes.reverse(),
        (true, false) => Ordering::Less,
        (false, true) => Ordering::Greater,
    }
}
