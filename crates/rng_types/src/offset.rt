//! How far whole numbers lie apart, by their literals, as long as that is not far.

ghost use Rattle.std.specs.Prelude.{◌≡◌, ◌≤◌, ◌+◌, ◌-◌, ◌*◌, ◌-ℤ◌, min, length, take, IsTrue};
ghost use Rattle.std.specs.Str.Parse.{digits_value};
ghost use Rattle.rng_types.specs.Numbers.{is_digits, is_integer, unsigned as unsigned_text};
ghost use Rattle.rng_types.specs.Offsets.{offset_digits, offset_of, whole_number};

use crate::number::{is_negative, unsigned};

/// The digit with that many others behind it and itself, or 0 in front of all.
fn digit(digits: &[u8], left: usize) -> u32
    requires digits { IsTrue (is_digits digits.now) }
    requires some { 1 ≤ left }
    ensures value { digits_value 10 (take (length digits.now - (left - 1)) digits.now)
        ≡ digits_value 10 (take (length digits.now - left) digits.now) * 10 + result }
    ensures small { result ≤ 9 }
{
    if left > digits.len() {
        return 0;
    }
    u32::from(digits[digits.len() - left] - b'0')
}

/// One more digit of each side, where the sides so far lie so far apart. From 1000 apart on they stay so.
fn step(offset: u32, plus: u32, minus: u32) -> u32
    requires offset_small { offset ≤ 2000 }
    requires plus_small { plus ≤ 9 }
    requires minus_small { minus ≤ 9 }
    ensures { result ≡ min 2000 ((10 * offset + plus) - (9000 + minus)) }
{
    (10 * offset + plus).saturating_sub(9000 + minus).min(2000)
}

/// How far the digits `plus` lie above `minus`, and 1000.
fn offset_between(plus: &[u8], minus: &[u8]) -> u32
    requires first { IsTrue (is_digits plus.now) }
    requires second { IsTrue (is_digits minus.now) }
    ensures { result ≡ offset_digits (digits_value 10 plus.now) (digits_value 10 minus.now) }
{
    let mut left = plus.len().max(minus.len());
    let mut offset: u32 = 1000;
    while left > 0 {
        offset = step(offset, digit(plus, left), digit(minus, left));
        left -= 1;
    }
    offset
}

/// The size of a literal's number, cut at 1000.
fn size(literal: &[u8]) -> u32
    requires { IsTrue (is_integer literal.now) }
    ensures { result ≡ min 1000 (digits_value 10 (unsigned_text literal.now)) }
{
    offset_between(unsigned(literal), b"0") - 1000
}

/// How far a literal's number lies above another's, cut at 1000 on both sides, and 1000.
pub(crate) fn offset(a: &[u8], b: &[u8]) -> u32
    requires first { IsTrue (is_integer a.now) }
    requires second { IsTrue (is_integer b.now) }
    ensures { result ≡ offset_of (whole_number a.now -ℤ whole_number b.now) }
{
    match (is_negative(a), is_negative(b)) {
        (false, false) => offset_between(unsigned(a), unsigned(b)),
        (true, true) => offset_between(unsigned(b), unsigned(a)),
        (false, true) => 1000 + (size(a) + size(b)).min(1000),
        (true, false) => 1000 - (size(a) + size(b)).min(1000),
    }
}
