//! Words put in the places of others.

ghost use Rattle.std.specs.Prelude.{◌≡◌, ◌++◌, IfOk, OnOk, length, map, take, drop};
ghost use Rattle.rng_widen.specs.Widened.{blanked, put_in, before_place, place_size, put_front, put_behind, put_all};

use crate::widening::Widening;
use nx_base::memory::NoMemory;
use nx_base::sequence::Bytes;
use std::alloc::Global;

/// A space in place of a byte. The ends of lines stay.
fn blanked(byte: u8) -> u8
    ensures { result ≡ blanked byte }
{
    if byte == b'\n' || byte == b'\r' {
        byte
    } else {
        b' '
    }
}

/// The first so many bytes, or all of them.
#[tactic(auto, using(std::proofs::lemmas::List::take_min))]
pub(crate) fn front(bytes: &[u8], count: usize) -> &[u8]
    ensures { result.now ≡ take count bytes.now }
{
    &bytes[..count.min(bytes.len())]
}

/// The bytes behind the first so many.
#[tactic(auto, using(std::proofs::lemmas::List::drop_min))]
pub(crate) fn behind(bytes: &[u8], count: usize) -> &[u8]
    ensures { result.now ≡ drop count bytes.now }
{
    &bytes[count.min(bytes.len())..]
}

/// Adds blanks in place of these bytes.
fn add_blanked(out: &mut Vec<u8>, bytes: &[u8]) -> Result<(), NoMemory>
    ensures { OnOk result (out.new.items ≡ out.old.items ++ map blanked bytes.now) }
{
    for byte in bytes {
        out.push(blanked(*byte))?;
    }
    Ok(())
}

/// Adds a word in place of these bytes, and blanks behind it.
#[tactic(auto, unfolding(crate::specs::Widened::put_in))]
fn add_put(out: &mut Vec<u8>, word: &[u8], bytes: &[u8]) -> Result<(), NoMemory>
    ensures { OnOk result (out.new.items ≡ out.old.items ++ put_in word.now bytes.now) }
{
    if word.len() <= bytes.len() {
        out.extend_from_slice(word)?;
        add_blanked(out, behind(bytes, word.len()))?;
    } else {
        out.extend_from_slice(bytes)?;
    }
    Ok(())
}

/// Where the place of a word begins in the last bytes of a text of `len` bytes.
fn before_place(len: usize, rest: &[u8], one: &Widening) -> usize
    ensures { result ≡ before_place len rest.now one.now }
{
    one.from.saturating_sub(len.saturating_sub(rest.len()))
}

/// How many bytes the place of a word has.
fn place_size(one: &Widening) -> usize
    ensures { result ≡ place_size one.now }
{
    one.to.saturating_sub(one.from)
}

/// Adds the last bytes of a text of `len` bytes through the place of a word, which is put there.
#[tactic(auto, using(crate::proofs::Putting::regrouped), unfolding(crate::specs::Widened::put_front))]
fn add_front(out: &mut Vec<u8>, len: usize, rest: &[u8], one: &Widening) -> Result<(), NoMemory>
    ensures { OnOk result (out.new.items ≡ out.old.items ++ put_front len rest.now one.now) }
{
    let before = before_place(len, rest, one);
    out.extend_from_slice(front(rest, before))?;
    add_put(
        out,
        one.word.as_slice(),
        front(behind(rest, before), place_size(one)),
    )?;
    Ok(())
}

/// What is behind the place of a word.
#[tactic(auto, unfolding(crate::specs::Widened::put_behind))]
fn put_behind<'a>(len: usize, rest: &'a [u8], one: &Widening) -> &'a [u8]
    ensures { result.now ≡ put_behind len rest.now one.now }
{
    behind(behind(rest, before_place(len, rest, one)), place_size(one))
}

/// The text with the words put in their places.
pub(crate) fn put_all(alloc: Global, text: &[u8], widenings: &[Widening]) -> Result<Bytes, NoMemory>
    ensures { IfOk result (λ whole. whole ≡ put_all text.now widenings.now) }
{
    let len = text.len();
    let mut out = Vec::with_capacity(alloc, len)?;
    let mut rest = text;
    let mut left = widenings;
    'widenings: while let Some((one, more)) = left.split_first() {
        add_front(&mut out, len, rest, one)?;
        rest = put_behind(len, rest, one);
        left = more;
    }
    out.extend_from_slice(rest)?;
    Ok(Bytes::from_vec(out))
}
