//! Bytes that are put behind others.

ghost use Rattle.std.specs.Prelude.{◌≡◌, ◌<◌, ◌+◌, ◌++◌, OnOk, replicate};
ghost use Rattle.rng_more_types.specs.Literals.{two_digits};
ghost use Rattle.rng_types.specs.Giving.{three_digits};

use crate::naming::bytes_of;
use nx_base::memory::NoMemory;
use nx_base::sequence::Bytes;
use std::alloc::Global;

/// Puts a copy of bytes behind others.
pub(crate) fn push_all(text: &mut Bytes, alloc: Global, more: &[u8]) -> Result<(), NoMemory>
    ensures { OnOk result (text.new ≡ text.old ++ more.now) }
{
    let copied = bytes_of(alloc, more)?;
    text.append(copied)?;
    Ok(())
}

/// Puts that many times a byte behind others.
pub(crate) fn push_many(text: &mut Bytes, byte: u8, count: u64) -> Result<(), NoMemory>
    ensures { OnOk result (text.new ≡ text.old ++ replicate count byte) }
{
    for made in 0..count {
        text.push(byte)?;
    }
    Ok(())
}

/// The digit of a number below ten.
fn digit_of(number: u32) -> u8
    requires { number < 10 }
    ensures { result ≡ 48 + number }
{
    b'0' + number as u8
}

/// Puts a number below 100 in two digits behind others.
pub(crate) fn push_two_digits(text: &mut Bytes, number: u32) -> Result<(), NoMemory>
    requires { number < 100 }
    ensures { OnOk result (text.new ≡ text.old ++ two_digits number) }
{
    text.push(digit_of(number / 10))?;
    text.push(digit_of(number % 10))?;
    Ok(())
}

/// Puts a number below 1000 in three digits behind others.
pub(crate) fn push_three_digits(text: &mut Bytes, number: u32) -> Result<(), NoMemory>
    requires { number < 1000 }
    ensures { OnOk result (text.new ≡ text.old ++ three_digits number) }
{
    text.push(digit_of(number / 100))?;
    text.push(digit_of(number / 10 % 10))?;
    text.push(digit_of(number % 10))?;
    Ok(())
}
