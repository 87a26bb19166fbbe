//! The first place of a byte, and what stands from an offset on in a text that lies in two pieces, one behind the other.

ghost use Rattle.std.specs.Prelude.{◌≡◌, ◌+◌, ◌<◌, ◌≤◌, ◌^◌, ◌++◌, length, take, drop};
ghost use Rattle.memchr.specs.Find.{IsFirstByte, is_byte};
ghost use Rattle.nx_base.specs.Tokens.{bytes_up_to};
ghost use Rattle.nx_text.specs.Reading.{StandFrom};

use memchr::memchr;
use std::simd::prelude::*;

/// How many bytes are looked at together.
const LANES: usize = 16;

/// How many bytes are looked at so, before the others by `memchr`.
const BY_LANES: usize = 128;

/// How many of the first sixteen bytes stand before the first such byte.
#[inline(always)]
fn lanes_up_to(bytes: &[u8], byte: u8) -> usize
    requires { 16 ≤ length bytes.now }
    ensures { result ≡ bytes_up_to byte (take 16 bytes.now) }
{
    let found = u8x16::from_slice(bytes)
        .simd_eq(u8x16::splat(byte))
        .to_bitmask();
    if found == 0 {
        LANES
    } else {
        found.trailing_zeros() as usize
    }
}

/// How many bytes stand before the first such byte, or in all where there is none, by `memchr`, whose call pays in many bytes.
#[inline(never)]
fn up_to_by_memchr(bytes: &[u8], byte: u8) -> usize
    ensures first { result ≡ bytes_up_to byte bytes.now }
    ensures within { result ≤ length bytes.now }
{
    match memchr(byte, bytes) {
        Some(before) => before,
        None => bytes.len(),
    }
}

/// How many bytes stand before the first such byte, or in all where there is none. Most texts and lines are short: the first bytes are
/// looked at by sixteen, in line.
#[inline(always)]
pub fn up_to_byte(bytes: &[u8], byte: u8) -> usize
    ensures first { result ≡ bytes_up_to byte bytes.now }
    ensures within { result ≤ length bytes.now }
{
    let mut passed = 0;
    while passed < BY_LANES && bytes.len() - passed >= LANES {
        let near = lanes_up_to(&bytes[passed..], byte);
        if near < LANES {
            return passed + near;
        }
        passed += LANES;
    }
    passed + up_to_by_memchr(&bytes[passed..], byte)
}

/// The index of the first such byte.
#[inline(always)]
pub(crate) fn first_byte(bytes: &[u8], byte: u8) -> Option<usize>
    ensures { IsFirstByte (is_byte byte) bytes.now result }
{
    let before = up_to_byte(bytes, byte);
    if before < bytes.len() {
        Some(before)
    } else {
        None
    }
}

/// The bytes from an offset on, as far as they lie in one piece.
pub(crate) fn piece_of_both<'a>(front: &'a [u8], back: &'a [u8], from: usize) -> &'a [u8]
    requires fits { length front.now + length back.now < 2 ^ 64 }
    requires inside { from ≤ length (front.now ++ back.now) }
    ensures piece { StandFrom (front.now ++ back.now) from result.now }
    ensures some { from < length (front.now ++ back.now) → 0 < length result.now }
    ensures fits { from + length result.now < 2 ^ 64 }
{
    let gap = front.len();
    if from >= gap {
        &back[from - gap..]
    } else {
        &front[from..]
    }
}

/// The first offset from `from` on at which the byte stands, or the length.
pub(crate) fn find_in_both(front: &[u8], back: &[u8], from: usize, byte: u8) -> usize
    requires fits { length front.now + length back.now < 2 ^ 64 }
    requires inside { from ≤ length (front.now ++ back.now) }
    ensures { result ≡ from + bytes_up_to byte (drop from (front.now ++ back.now)) }
{
    let gap = front.len();
    if from >= gap {
        return from + up_to_byte(&back[from - gap..], byte);
    }
    let near = from + up_to_byte(&front[from..], byte);
    if near < gap {
        return near;
    }
    gap + up_to_byte(back, byte)
}
