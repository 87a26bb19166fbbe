//! Whether bytes are of a class or those of another text, and where the first of a class stands, told by one load of N bytes. Two loads
//! that overlap cover what is no longer than both.

ghost use Rattle.std.specs.Prelude.{◌≡◌, ◌+◌, ◌≤◌, ◌==◌, if◌then◌else◌, length, take};
ghost use Rattle.std.specs.Bool.{OnTrue};
ghost use Rattle.std.specs.Char.{is_ascii_alphabetic};
ghost use Rattle.std.specs.Int.{w64, trailing_zeros};
ghost use Rattle.std.specs.List.{position_or_len};
ghost use Rattle.nx_base.specs.Characters.{is_quote};
ghost use Rattle.nx_events.specs.ByteClasses.{AllBetween, SameBetween, is_plain_or, is_high, is_low};

use std::simd::prelude::*;

/// Whether the bytes stand for themselves wherever they are read, or are this one.
#[inline(always)]
pub(crate) fn are_plain_or<const N: usize>(also: u8, bytes: &[u8], at: usize) -> bool
    requires lanes { N ≤ 64 }
    requires inside { at + N ≤ length bytes.now }
    ensures { OnTrue result (AllBetween (is_plain_or also) bytes.now at (at + N)) }
{
    let lanes = Simd::<u8, N>::from_slice(&bytes[at..]);
    let strange = (lanes - Simd::splat(32)).simd_ge(Simd::splat(96))
        | lanes.simd_eq(Simd::splat(b'&'))
        | lanes.simd_eq(Simd::splat(b']'));
    (strange & lanes.simd_ne(Simd::splat(also))).to_bitmask() == 0
}

/// Whether the bytes are letters of ASCII.
#[inline(always)]
pub(crate) fn are_letters<const N: usize>(bytes: &[u8], at: usize) -> bool
    requires lanes { N ≤ 64 }
    requires inside { at + N ≤ length bytes.now }
    ensures { OnTrue result (AllBetween is_ascii_alphabetic bytes.now at (at + N)) }
{
    let lanes = Simd::<u8, N>::from_slice(&bytes[at..]);
    // a capital letter and its small one differ by this bit
    let no_letter = ((lanes | Simd::splat(0x20)) - Simd::splat(b'a')).simd_ge(Simd::splat(26));
    no_letter.to_bitmask() == 0
}

/// Whether the bytes stand behind `>` in ASCII, as letters do, or are no ASCII.
#[inline(always)]
pub(crate) fn are_high<const N: usize>(bytes: &[u8], at: usize) -> bool
    requires lanes { N ≤ 64 }
    requires inside { at + N ≤ length bytes.now }
    ensures { OnTrue result (AllBetween is_high bytes.now at (at + N)) }
{
    let lanes = Simd::<u8, N>::from_slice(&bytes[at..]);
    lanes.simd_lt(Simd::splat(b'?')).to_bitmask() == 0
}

/// Whether the two have the same bytes.
#[inline(always)]
pub(crate) fn are_same<const N: usize>(a: &[u8], b: &[u8], at: usize) -> bool
    requires lanes { N ≤ 64 }
    requires inside { at + N ≤ length a.now }
    requires inside_other { at + N ≤ length b.now }
    ensures { OnTrue result (SameBetween a.now b.now at (at + N)) }
{
    let lanes = Simd::<u8, N>::from_slice(&a[at..]);
    let others = Simd::<u8, N>::from_slice(&b[at..]);
    lanes.simd_ne(others).to_bitmask() == 0
}

/// The lowest bit that is set, or how many lanes there are where none is.
#[inline(always)]
fn first_set<const N: usize>(found: u64) -> usize
    ensures { result ≡ (if found == 0 then N else trailing_zeros w64 found) }
{
    if found == 0 {
        N
    } else {
        found.trailing_zeros() as usize
    }
}

/// Where the first quote stands among the first N bytes, or N.
#[inline(always)]
pub(crate) fn first_quote<const N: usize>(bytes: &[u8]) -> usize
    requires lanes { N ≤ 64 }
    requires enough { N ≤ length bytes.now }
    ensures { result ≡ position_or_len is_quote (take N bytes.now) }
{
    let lanes = Simd::<u8, N>::from_slice(bytes);
    let found = lanes.simd_eq(Simd::splat(b'"')) | lanes.simd_eq(Simd::splat(b'\''));
    first_set::<N>(found.to_bitmask())
}

/// Where the first such byte stands among the first N, or N.
#[inline(always)]
pub(crate) fn first_byte<const N: usize>(bytes: &[u8], byte: u8) -> usize
    requires lanes { N ≤ 64 }
    requires enough { N ≤ length bytes.now }
    ensures { result ≡ position_or_len (λ b. b == byte) (take N bytes.now) }
{
    let lanes = Simd::<u8, N>::from_slice(bytes);
    first_set::<N>(lanes.simd_eq(Simd::splat(byte)).to_bitmask())
}

/// Where the first byte that isn't high stands among the first N, or N.
#[inline(always)]
pub(crate) fn first_low<const N: usize>(bytes: &[u8]) -> usize
    requires lanes { N ≤ 64 }
    requires enough { N ≤ length bytes.now }
    ensures { result ≡ position_or_len is_low (take N bytes.now) }
{
    let lanes = Simd::<u8, N>::from_slice(bytes);
    first_set::<N>(lanes.simd_lt(Simd::splat(b'?')).to_bitmask())
}
