//! Lists of bytes that are filled anew in the room that they have.

ghost use Rattle.std.specs.Prelude.{◌≡◌, ◌+◌, ◌≤◌, ◌++◌, length, take, vec_len, vec_capacity, OnOk};

use nx_base::sequence::Bytes;
use std::alloc::AllocError;
use std::mem;

/// How many bytes are written at once.
const LANES: usize = 16;

/// How many bytes are written where no more are wanted.
const FEW: usize = 2 * LANES;

/// Puts sixteen bytes behind those of a buffer that has room for them, by a loop that compiles to one store.
#[inline(always)]
fn push_lanes(buffer: &mut Vec<u8>, lanes: [u8; LANES])
    requires { vec_len buffer.old + 16 ≤ vec_capacity buffer.old }
    ensures items { buffer.new.items ≡ buffer.old.items ++ lanes }
    ensures capacity { vec_capacity buffer.new ≡ vec_capacity buffer.old }
{
    let mut pushed = 0;
    while pushed < LANES {
        buffer.push_reserved(lanes[pushed]);
        pushed += 1;
    }
}

/// The first so many of these bytes, in a buffer that has room for all of them. All are written, as that takes fewer steps than to ask
/// how many are wanted.
#[inline(always)]
fn filled_with_few(buffer: Vec<u8>, first: [u8; LANES], second: [u8; LANES], len: usize) -> Vec<u8>
    requires { 32 ≤ vec_capacity buffer }
    ensures { result.items ≡ take len (first ++ second) }
{
    let mut buffer = buffer;
    buffer.clear();
    push_lanes(&mut buffer, first);
    push_lanes(&mut buffer, second);
    buffer.truncate(len);
    buffer
}

/// Puts these bytes in the place of what a list held. The buffer is what it held them in, and may have to get more room: at the least
/// that for few bytes, so that the next few are written at once.
#[inline(never)]
fn fill_with_all(list: &mut Bytes, buffer: Vec<u8>, bytes: &[u8]) -> Result<(), AllocError>
    ensures { OnOk result (list.new ≡ bytes.now) }
{
    let mut buffer = buffer;
    buffer.clear();
    buffer.reserve(bytes.len().max(FEW))?;
    buffer.extend_from_slice(bytes)?;
    *list = Bytes::from_vec(buffer);
    Ok(())
}

/// Puts the first so many bytes of a piece in the place of what a list held, in its room. An empty list stands there meanwhile.
#[inline(always)]
pub(crate) fn fill(
    list: &mut Bytes,
    empty: Bytes,
    piece: &[u8],
    len: usize,
) -> Result<(), AllocError>
    requires { len ≤ length piece.now }
    ensures { OnOk result (list.new ≡ take len piece.now) }
{
    let buffer = mem::replace(list, empty).into_vec();
    if len <= FEW && FEW <= buffer.capacity() {
        if let Some((first, rest)) = piece.split_first_chunk::<LANES>() {
            if let Some(second) = rest.first_chunk::<LANES>() {
                *list = Bytes::from_vec(filled_with_few(buffer, *first, *second, len));
                return Ok(());
            }
        }
    }
    fill_with_all(list, buffer, &piece[..len])
}
