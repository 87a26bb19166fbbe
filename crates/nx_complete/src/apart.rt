//! A name that differs from others: it is longer.

ghost use Rattle.std.specs.Prelude.{◌≡◌, suc, max, IfOk};
ghost use Rattle.nx_complete.specs.Asking.{letters, longest_space, longest_local, apart_from};

use nx_base::memory::NoMemory;
use nx_base::name::Name;
use nx_base::sequence::{Bytes, Sequence};
use std::alloc::Global;

// The greater number.
fn greater(a: usize, b: usize) -> usize
    ensures { result ≡ max a b }
{
    if a < b { b } else { a }
}

// The length of the longest namespace.
fn longest_space(names: &[Name]) -> usize
    ensures { result ≡ longest_space 0 names.now }
{
    let mut longest = 0;
    let mut left = names;
    while let Some((name, rest)) = left.split_first() {
        longest = greater(longest, name.ns.len());
        left = rest;
    }
    longest
}

// The length of the longest local part, or this number where all are shorter.
fn longest_local(least: usize, names: &[Name]) -> usize
    ensures { result ≡ longest_local least names.now }
{
    let mut longest = least;
    let mut left = names;
    while let Some((name, rest)) = left.split_first() {
        longest = greater(longest, name.local.len());
        left = rest;
    }
    longest
}

// One letter more than so many.
fn letters(alloc: Global, len: usize) -> Result<Bytes, NoMemory>
    ensures { IfOk result (λ text. text ≡ letters (suc len)) }
{
    let mut text = vec![in alloc; b'a'; len]?;
    text.push(b'a')?;
    Ok(Sequence::from_vec(text))
}

/// A local part that none of these names and none of the others has, and a namespace that none of the spaces has.
pub fn apart_from(
    alloc: Global,
    names: &[Name],
    others: &[Name],
    spaces: &[Name],
) -> Result<Name, NoMemory>
    ensures { IfOk result (λ name. name ≡ apart_from names.now others.now spaces.now) }
{
    let ns = letters(alloc, longest_space(spaces))?;
    let local = letters(alloc, longest_local(longest_local(0, names), others))?;
    Ok(Name { ns, local })
}
