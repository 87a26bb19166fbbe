//! Whether two texts are equal, told by few loads: names are short, and the end of a loop over their bytes would be a branch that
//! no processor foresees.

ghost use Rattle.std.specs.Prelude.{◌≡◌, ◌↔◌, ◌+◌, ◌≤◌, IsTrue, length, take, drop};

use nx_base::equal::{EqualAll, same_each};
use std::simd::prelude::*;

/// How many bytes the wider load takes.
const WIDE: usize = 8;

/// How many bytes the narrower load takes.
const NARROW: usize = 4;

// Whether N bytes from this place on are the same.
#[inline(always)]
fn same_lanes<const N: usize>(a: &[u8], b: &[u8], at: usize) -> bool
    requires lanes { N ≤ 64 }
    requires inside { at + N ≤ length a.now }
    requires inside_other { at + N ≤ length b.now }
    ensures { IsTrue result ↔ (take N (drop at a.now) ≡ take N (drop at b.now)) }
{
    let lanes = Simd::<u8, N>::from_slice(&a[at..]);
    let others = Simd::<u8, N>::from_slice(&b[at..]);
    lanes.simd_ne(others).to_bitmask() == 0
}

// Whether two texts of one length are equal, of N bytes at least and twice as many at most: so the first N bytes and the last N,
// which may share some, are all of them.
#[inline(always)]
fn same_ends<const N: usize>(a: &[u8], b: &[u8]) -> bool
    requires lanes { N ≤ 64 }
    requires same_len { length a.now ≡ length b.now }
    requires enough { N ≤ length a.now }
    requires covered { length a.now ≤ N + N }
    ensures { IsTrue result ↔ (a.now ≡ b.now) }
{
    same_lanes::<N>(a, b, 0) & same_lanes::<N>(a, b, a.len() - N)
}

/// Whether two texts are equal.
#[inline(always)]
pub(crate) fn same_text(a: &[u8], b: &[u8]) -> bool
    ensures { IsTrue result ↔ (a.now ≡ b.now) }
{
    let len = a.len();
    if len != b.len() {
        false
    } else if len > 2 * WIDE {
        u8::all_equal(a, b)
    } else if len >= WIDE {
        same_ends::<WIDE>(a, b)
    } else if len >= NARROW {
        same_ends::<NARROW>(a, b)
    } else {
        same_each(a, b)
    }
}
