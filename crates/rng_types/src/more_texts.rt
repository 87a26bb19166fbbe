//! Texts of dates, times and octets: of each type as many as are ever tried, no two of the same value.

ghost use Rattle.std.specs.Prelude.{◌≡◌, ◌<◌, ◌≤◌, ◌+◌, ◌*◌, ◌/◌, ◌%◌, ◌++◌, ◌∷◌, codes, IfOk, OnOk};
ghost use Rattle.rng_more_types.specs.Literals.{two_digits};
ghost use Rattle.rng_more_types.specs.Laws.{candidate, year_from, hex_octet, hex_zeros};
ghost use Rattle.rng_more_types.specs.Laws.{base64_digit, base64_zeros, base64_more};

use crate::pushing::{push_all, push_many, push_two_digits};
use nx_base::memory::NoMemory;
use nx_base::sequence::Bytes;
use rng_more_types::MoreType;
use std::alloc::Global;

/// That year from 2000 on, and what stands behind it.
fn year_text(alloc: Global, number: u32, behind: &[u8]) -> Result<Bytes, NoMemory>
    requires { number < 130 }
    ensures { IfOk result (λ text. text ≡ year_from number ++ behind.now) }
{
    let mut text = Bytes::new(alloc);
    push_two_digits(&mut text, 20 + number / 100)?;
    push_two_digits(&mut text, number % 100)?;
    push_all(&mut text, alloc, behind)?;
    Ok(text)
}

/// The time that many minutes after midnight.
fn time_text(alloc: Global, number: u32) -> Result<Bytes, NoMemory>
    requires { number < 130 }
    ensures { IfOk result (λ text. text ≡ two_digits (number / 60) ++ (58 ∷ two_digits (number % 60)) ++ codes ":00") }
{
    let mut text = Bytes::new(alloc);
    push_two_digits(&mut text, number / 60)?;
    text.push(b':')?;
    push_two_digits(&mut text, number % 60)?;
    push_all(&mut text, alloc, ":00".as_bytes())?;
    Ok(text)
}

/// A hexadecimal digit.
fn hex_digit(number: u32) -> u8
    requires { number < 16 }
    ensures { result ≡ hex_octet number }
{
    if number <= 9 {
        b'0' + number as u8
    } else {
        55 + number as u8
    }
}

/// Octets in hexadecimal digits: one of that number, and that many zeros.
fn hex_text(alloc: Global, zeros: u64, number: u32) -> Result<Bytes, NoMemory>
    requires small { number < 130 }
    requires few { zeros ≤ 16000000 }
    ensures { IfOk result (λ text. text ≡ hex_octet (number / 16) ∷ hex_octet (number % 16) ∷ hex_zeros zeros) }
{
    let mut text = Bytes::new(alloc);
    text.push(hex_digit(number / 16))?;
    text.push(hex_digit(number % 16))?;
    push_many(&mut text, b'0', 2 * zeros)?;
    Ok(text)
}

/// A digit of base64 that is a letter.
fn base64_letter(number: u32) -> u8
    requires { number < 52 }
    ensures { result ≡ base64_digit number }
{
    if number <= 25 {
        b'A' + number as u8
    } else {
        71 + number as u8
    }
}

/// Less than three octets of 0 in base64.
fn last_zeros(count: u64) -> &'static str
    requires { count < 3 }
    ensures { result.now ≡ base64_zeros count }
{
    match count {
        0 => "",
        1 => "AA==",
        _ => "AAA=",
    }
}

/// Puts that many octets of 0 in base64 behind others.
fn push_base64_zeros(text: &mut Bytes, alloc: Global, count: u64) -> Result<(), NoMemory>
    requires { count ≤ 16000000 }
    ensures { OnOk result (text.new ≡ text.old ++ base64_zeros count) }
{
    push_many(text, b'A', 4 * (count / 3))?;
    push_all(text, alloc, last_zeros(count % 3).as_bytes())?;
    Ok(())
}

/// Puts what follows the first two digits of base64 behind them, for that many further octets of 0.
fn push_base64_more(text: &mut Bytes, alloc: Global, count: u64) -> Result<(), NoMemory>
    requires { count ≤ 16000000 }
    ensures { OnOk result (text.new ≡ text.old ++ base64_more count) }
{
    match count {
        0 => push_all(text, alloc, "==".as_bytes())?,
        1 => push_all(text, alloc, "A=".as_bytes())?,
        _ => {
            push_all(text, alloc, "AA".as_bytes())?;
            push_base64_zeros(text, alloc, count - 2)?;
        }
    }
    Ok(())
}

/// Octets in base64: one of that number, and that many zeros.
fn base64_text(alloc: Global, zeros: u64, number: u32) -> Result<Bytes, NoMemory>
    requires small { number < 130 }
    requires few { zeros ≤ 16000000 }
    ensures { IfOk result (λ text. text ≡ base64_digit (number / 4) ∷ base64_digit (16 * (number % 4)) ∷ base64_more zeros) }
{
    let mut text = Bytes::new(alloc);
    text.push(base64_letter(number / 4))?;
    text.push(base64_letter(16 * (number % 4)))?;
    push_base64_more(&mut text, alloc, zeros)?;
    Ok(text)
}

/// The text of a type with this number: a date from 2000 on, a time from midnight on, or octets of which the first is that
/// number, and so many others are 0.
pub(crate) fn more_text(
    alloc: Global,
    more: MoreType,
    zeros: u64,
    number: u32,
) -> Result<Bytes, NoMemory>
    requires small { number < 130 }
    requires few { zeros ≤ 16000000 }
    ensures { IfOk result (λ text. text ≡ candidate more zeros number) }
{
    match more {
        MoreType::Date => Ok(year_text(alloc, number, "-01-01".as_bytes())?),
        MoreType::Time => Ok(time_text(alloc, number)?),
        MoreType::DateTime => Ok(year_text(alloc, number, "-01-01T00:00:00".as_bytes())?),
        MoreType::GYear => Ok(year_text(alloc, number, "".as_bytes())?),
        MoreType::GYearMonth => Ok(year_text(alloc, number, "-01".as_bytes())?),
        MoreType::HexBinary => Ok(hex_text(alloc, zeros, number)?),
        MoreType::Base64Binary => Ok(base64_text(alloc, zeros, number)?),
    }
}
