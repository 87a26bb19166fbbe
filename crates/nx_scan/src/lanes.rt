//! Runs of bytes of a class, found in sixteen bytes at once.

ghost use Rattle.std.specs.Prelude.{◌≡◌, ◌≤◌, ◌==◌, if◌then◌else◌, length, take};
ghost use Rattle.std.specs.List.{prefix_len};
ghost use Rattle.std.specs.Int.{w64, trailing_zeros};
ghost use Rattle.std.specs.Char.{is_ascii_alphabetic};
ghost use Rattle.nx_scan.specs.Tag.{is_name_byte, is_value_byte};

use std::simd::prelude::*;

/// How many bytes are looked at together.
pub(crate) const LANES: usize = 16;

/// The lowest bit that is set, or how many bytes there are where none is.
#[inline(always)]
fn first_set(stops: u64) -> usize
    ensures { result ≡ (if stops == 0 then 16 else trailing_zeros w64 stops) }
{
    if stops == 0 {
        LANES
    } else {
        stops.trailing_zeros() as usize
    }
}

/// How many of the first sixteen bytes stand before one that is in no name.
#[inline(always)]
pub(crate) fn name_run(bytes: &[u8]) -> usize
    requires { 16 ≤ length bytes.now }
    ensures { result ≡ prefix_len is_name_byte (take 16 bytes.now) }
{
    let lanes = u8x16::from_slice(bytes);
    // a capital letter and its small one differ by this bit, and between the dash and the colon only the slash is in no name
    let no_letter = ((lanes | u8x16::splat(0x20)) - u8x16::splat(b'a')).simd_ge(u8x16::splat(26));
    let no_digit = (lanes - u8x16::splat(b'-')).simd_ge(u8x16::splat(14));
    let stops = no_letter
        & (no_digit | lanes.simd_eq(u8x16::splat(b'/')))
        & lanes.simd_ne(u8x16::splat(b'_'));
    first_set(stops.to_bitmask())
}

/// How many of the first sixteen bytes stand before one that is no letter of one byte. That is told in fewer steps than where a name ends,
/// and most names are such.
#[inline(always)]
pub(crate) fn letter_run(bytes: &[u8]) -> usize
    requires { 16 ≤ length bytes.now }
    ensures { result ≡ prefix_len is_ascii_alphabetic (take 16 bytes.now) }
{
    let lanes = u8x16::from_slice(bytes);
    let stops = ((lanes | u8x16::splat(0x20)) - u8x16::splat(b'a')).simd_ge(u8x16::splat(26));
    first_set(stops.to_bitmask())
}

/// How many of the first sixteen bytes stand before one with which a value in such quotes doesn't go on.
#[inline(always)]
pub(crate) fn value_run(bytes: &[u8], quote: u8) -> usize
    requires { 16 ≤ length bytes.now }
    ensures { result ≡ prefix_len (is_value_byte quote) (take 16 bytes.now) }
{
    let lanes = u8x16::from_slice(bytes);
    let stops = lanes.simd_ge(u8x16::splat(128))
        | lanes.simd_eq(u8x16::splat(quote))
        | lanes.simd_eq(u8x16::splat(b'<'));
    first_set(stops.to_bitmask())
}
