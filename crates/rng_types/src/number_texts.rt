//! Literals of numbers, made of others: with zeros at their start, and with digits at their end.

ghost use Rattle.std.specs.Prelude.{◌≡◌, ◌<◌, ◌++◌, IfOk, IsTrue};
ghost use Rattle.std.specs.List.{list_all, list_any};
ghost use Rattle.rng_types.specs.Numbers.{is_point};
ghost use Rattle.rng_types.specs.Giving.{zeroed as with_zeros, pointed as with_point, extended as with_digits, is_limit_within};

use crate::facet::Facet;
use crate::naming::bytes_of;
use crate::number::unsigned;
use crate::pushing::{push_all, push_many, push_three_digits};
use nx_base::memory::NoMemory;
use nx_base::sequence::Bytes;
use std::alloc::Global;

/// A literal with that many zeros behind its sign.
pub(crate) fn zeroed(alloc: Global, literal: &[u8], zeros: u32) -> Result<Bytes, NoMemory>
    ensures { IfOk result (λ text. text ≡ with_zeros zeros literal.now) }
{
    let digits = unsigned(literal);
    let sign = literal.len() - digits.len();
    let mut text = bytes_of(alloc, &literal[..sign])?;
    push_many(&mut text, b'0', u64::from(zeros))?;
    push_all(&mut text, alloc, digits)?;
    Ok(text)
}

/// Whether a literal has a point.
fn has_point(literal: &[u8]) -> bool
    ensures { result ≡ list_any is_point literal.now }
{
    literal.iter().any(|byte| *byte == b'.')
}

/// A literal with a point at its end, if it has none yet.
pub(crate) fn pointed(alloc: Global, literal: &[u8]) -> Result<Bytes, NoMemory>
    ensures { IfOk result (λ text. text ≡ with_point literal.now) }
{
    let mut text = bytes_of(alloc, literal)?;
    if !has_point(literal) {
        text.push(b'.')?;
    }
    Ok(text)
}

/// A literal, behind it that many zeros, and behind them a number below 1000 in three digits.
pub(crate) fn extended(
    alloc: Global,
    literal: &[u8],
    zeros: u64,
    number: u32,
) -> Result<Bytes, NoMemory>
    requires { number < 1000 }
    ensures { IfOk result (λ text. text ≡ with_digits literal.now zeros number) }
{
    let mut text = bytes_of(alloc, literal)?;
    push_many(&mut text, b'0', zeros)?;
    push_three_digits(&mut text, number)?;
    Ok(text)
}

impl Facet {
    /// How long the limit of a bound is.
    fn limit_length(&self) -> u64
        ensures { IsTrue (is_limit_within result self.now) }
    {
        match self {
            Facet::Length(_, _) => 0,
            Facet::Bound(_, limit) => limit.len() as u64,
        }
    }
}

/// A length that no limit of a bound exceeds.
pub(crate) fn longest_limit(facets: &[Facet]) -> u64
    ensures { IsTrue (list_all (is_limit_within result) facets.now) }
{
    let mut longest: u64 = 0;
    for facet in facets {
        longest = longest.max(facet.limit_length());
    }
    longest
}
