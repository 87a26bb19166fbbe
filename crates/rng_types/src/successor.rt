//! Whole numbers a few steps above another, by their literals, which may have any length.

ghost use Rattle.std.specs.Prelude.{◌≡◌, ◌≢◌, ◌≤◌, ◌+◌, ◌-◌, ◌+ℤ◌, ◌++◌, ◌∷◌, ℕ, List, [], pos, length, replicate, IfOk, IsTrue};
ghost use Rattle.std.specs.Str.Parse.{digits_value};
ghost use Rattle.rng_types.specs.Numbers.{is_digits, is_integer};
ghost use Rattle.rng_types.specs.Offsets.{whole_number};

use crate::naming::bytes_of;
use crate::number::{is_below_zero, unsigned, without_leading_zeros};
use crate::pushing::{push_all, push_many};
use nx_base::memory::NoMemory;
use nx_base::sequence::Bytes;
use std::alloc::Global;

/// Digits without this one at their end.
fn without_last(digits: &[u8], gone: u8) -> &[u8]
    ensures cut { digits.now ≡ result.now ++ replicate (length digits.now - length result.now) gone }
    ensures other { (front : List ℕ) (last : ℕ) → result.now ≡ front ++ last ∷ [] → last ≢ gone }
{
    let mut left = digits;
    while let Some((last, front)) = left.split_last() {
        if *last != gone {
            return left;
        }
        left = front;
    }
    left
}

/// Digits, one more, and behind it that many times another.
fn joined(
    alloc: Global,
    front: &[u8],
    last: u8,
    filler: u8,
    count: usize,
) -> Result<Bytes, NoMemory>
    ensures { IfOk result (λ text. text ≡ front.now ++ last ∷ replicate count filler) }
{
    let mut text = bytes_of(alloc, front)?;
    text.push(last)?;
    push_many(&mut text, filler, count as u64)?;
    Ok(text)
}

/// The digits of the next number.
fn raised(alloc: Global, digits: &[u8]) -> Result<Bytes, NoMemory>
    requires { IsTrue (is_digits digits.now) }
    ensures { IfOk result (λ text. IsTrue (is_digits text) × (digits_value 10 text ≡ digits_value 10 digits.now + 1)) }
{
    let left = without_last(digits, b'9');
    let count = digits.len() - left.len();
    match left.split_last() {
        Some((last, front)) => Ok(joined(alloc, front, *last + 1, b'0', count)?),
        None => Ok(joined(alloc, &[], b'1', b'0', count)?),
    }
}

/// The digits of the number before.
fn lowered(alloc: Global, digits: &[u8]) -> Result<Bytes, NoMemory>
    requires digits { IsTrue (is_digits digits.now) }
    requires some { 1 ≤ digits_value 10 digits.now }
    ensures { IfOk result (λ text. IsTrue (is_digits text) × (digits_value 10 digits.now ≡ digits_value 10 text + 1)) }
{
    let left = without_last(digits, b'0');
    let count = digits.len() - left.len();
    match left.split_last() {
        Some((last, front)) => Ok(joined(alloc, front, *last - 1, b'9', count)?),
        None => unreachable!(),
    }
}

/// Digits without the zeros at their start, if others are left.
fn tight(alloc: Global, digits: Bytes) -> Result<Bytes, NoMemory>
    requires { IsTrue (is_digits digits) }
    ensures { IfOk result (λ text. IsTrue (is_digits text) × (digits_value 10 text ≡ digits_value 10 digits)) }
{
    let short = without_leading_zeros(digits.as_slice());
    if short.is_empty() {
        return Ok(digits);
    }
    let text = bytes_of(alloc, short)?;
    Ok(text)
}

/// The literal of the next whole number, of one below zero by its digits.
fn lowered_negative(alloc: Global, digits: &[u8]) -> Result<Bytes, NoMemory>
    requires digits { IsTrue (is_digits digits.now) }
    requires some { 1 ≤ digits_value 10 digits.now }
    ensures { IfOk result (λ text. IsTrue (is_integer text) × (whole_number text ≡ whole_number (45 ∷ digits.now) +ℤ pos 1)) }
{
    let less = lowered(alloc, digits)?;
    let less = tight(alloc, less)?;
    let mut text = Bytes::new(alloc);
    text.push(b'-')?;
    text.append(less)?;
    Ok(text)
}

/// The literal of the next whole number.
fn successor(alloc: Global, literal: &[u8]) -> Result<Bytes, NoMemory>
    requires { IsTrue (is_integer literal.now) }
    ensures { IfOk result (λ text. IsTrue (is_integer text) × (whole_number text ≡ whole_number literal.now +ℤ pos 1)) }
{
    if is_below_zero(literal) {
        let text = lowered_negative(alloc, unsigned(literal))?;
        return Ok(text);
    }
    let text = raised(alloc, unsigned(literal))?;
    Ok(text)
}

/// The literal of the whole number so far above.
pub(crate) fn plus(alloc: Global, literal: &[u8], above: u32) -> Result<Bytes, NoMemory>
    requires { IsTrue (is_integer literal.now) }
    ensures { IfOk result (λ text. IsTrue (is_integer text) × (whole_number text ≡ whole_number literal.now +ℤ pos above)) }
{
    let mut text = bytes_of(alloc, literal)?;
    for step in 0..above {
        text = successor(alloc, text.as_slice())?;
    }
    Ok(text)
}
