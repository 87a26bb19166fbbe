//! Copies of few bytes, as names and most texts are: by moves of a fixed size, of which two overlap. They take fewer steps than a call.

ghost use Rattle.std.specs.Prelude.{◌≡◌, ◌+◌, ◌<◌, ◌≤◌, ◌++◌, length, take, vec_len, vec_capacity, OnOk};

use nx_base::memory::NoMemory;
use std::simd::Simd;

// Puts the first N bytes at this place, by one load and one store.
#[inline(always)]
fn put_first<const N: usize>(memory: &mut [u8], at: usize, bytes: &[u8])
    requires enough { N ≤ length bytes.now }
    requires room { at + N ≤ length memory.old }
    ensures copied { take (at + N) memory.new ≡ take at memory.old ++ take N bytes.now }
    ensures len { length memory.new ≡ length memory.old }
{
    Simd::<u8, N>::from_slice(bytes).copy_to_slice(&mut memory[at..]);
}

// Puts the first N bytes and the last N at the front: together they are all.
#[inline(always)]
fn put_both_ends<const N: usize>(memory: &mut [u8], bytes: &[u8])
    requires enough { N ≤ length bytes.now }
    requires all { length bytes.now ≤ N + N }
    requires room { length bytes.now ≤ length memory.old }
    ensures copied { take (length bytes.now) memory.new ≡ bytes.now }
    ensures len { length memory.new ≡ length memory.old }
{
    let rest = bytes.len() - N;
    put_first::<N>(memory, 0, bytes);
    put_first::<N>(memory, rest, &bytes[rest..]);
}

// Puts one byte, two or three at the front: the first, the one in the middle and the last. So no branch asks how many there are.
#[inline(always)]
fn put_three_at_most(memory: &mut [u8], bytes: &[u8])
    requires some { 0 < length bytes.now }
    requires few { length bytes.now ≤ 3 }
    requires room { length bytes.now ≤ length memory.old }
    ensures copied { take (length bytes.now) memory.new ≡ bytes.now }
    ensures len { length memory.new ≡ length memory.old }
{
    let last = bytes.len() - 1;
    let middle = bytes.len() / 2;
    memory[0] = bytes[0];
    memory[middle] = bytes[middle];
    memory[last] = bytes[last];
}

// Puts many bytes at the front, by a call.
#[inline(never)]
fn put_many(memory: &mut [u8], bytes: &[u8])
    requires { length bytes.now ≤ length memory.old }
    ensures copied { take (length bytes.now) memory.new ≡ bytes.now }
    ensures len { length memory.new ≡ length memory.old }
{
    memory[0..bytes.len()].copy_from_slice(bytes);
}

/// Copies these bytes to the front of memory that is as long at the least. Nothing is promised of what stands behind them.
#[inline(always)]
pub(crate) fn copy_to_front(memory: &mut [u8], bytes: &[u8])
    requires { length bytes.now ≤ length memory.old }
    ensures copied { take (length bytes.now) memory.new ≡ bytes.now }
    ensures len { length memory.new ≡ length memory.old }
{
    let len = bytes.len();
    if len < 4 {
        if len > 0 {
            put_three_at_most(memory, bytes);
        }
    } else if len < 8 {
        put_both_ends::<4>(memory, bytes);
    } else if len < 16 {
        put_both_ends::<8>(memory, bytes);
    } else if len <= 32 {
        put_both_ends::<16>(memory, bytes);
    } else {
        put_many(memory, bytes);
    }
}

// Adds the first N bytes to a list that has room for them, by a loop that compiles to one load and one store.
#[inline(always)]
fn push_first<const N: usize>(list: &mut Vec<u8>, bytes: &[u8])
    requires enough { N ≤ length bytes.now }
    requires room { vec_len list.old + N ≤ vec_capacity list.old }
    ensures items { list.new.items ≡ list.old.items ++ take N bytes.now }
    ensures capacity { vec_capacity list.new ≡ vec_capacity list.old }
{
    let lanes = Simd::<u8, N>::from_slice(bytes).to_array();
    let mut pushed = 0;
    while pushed < N {
        list.push_reserved(lanes[pushed]);
        pushed += 1;
    }
}

// Puts the first N bytes and the last N, which together are all, in the place of what a list held.
#[inline(always)]
fn fill_both_ends<const N: usize>(list: &mut Vec<u8>, bytes: &[u8])
    requires enough { N ≤ length bytes.now }
    requires all { length bytes.now ≤ N + N }
    requires room { length bytes.now ≤ vec_capacity list.old }
    ensures { list.new.items ≡ bytes.now }
{
    let rest = bytes.len() - N;
    list.clear();
    push_first::<N>(list, bytes);
    list.truncate(rest);
    push_first::<N>(list, &bytes[rest..]);
}

// Puts these bytes in the place of what a list held, by a call.
#[inline(never)]
fn fill_by_call(list: &mut Vec<u8>, bytes: &[u8]) -> Result<(), NoMemory>
    ensures { OnOk result (list.new.items ≡ bytes.now) }
{
    list.clear();
    list.extend_from_slice(bytes)?;
    Ok(())
}

/// Puts these bytes in the place of what a list held. Where it is refused, anything may be there.
#[inline(always)]
pub(crate) fn fill(list: &mut Vec<u8>, bytes: &[u8]) -> Result<(), NoMemory>
    ensures { OnOk result (list.new.items ≡ bytes.now) }
{
    let len = bytes.len();
    if len < 2 || len > 64 || list.capacity() < len {
        return fill_by_call(list, bytes);
    }
    if len < 4 {
        fill_both_ends::<2>(list, bytes);
    } else if len < 8 {
        fill_both_ends::<4>(list, bytes);
    } else if len < 16 {
        fill_both_ends::<8>(list, bytes);
    } else if len <= 32 {
        fill_both_ends::<16>(list, bytes);
    } else {
        fill_both_ends::<32>(list, bytes);
    }
    Ok(())
}
