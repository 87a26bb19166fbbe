//! A list with a gap in it, where items are put in and taken out without moving the others.

ghost use Rattle.std.specs.Prelude.{◌≡◌, ◌+◌, ◌<◌, ◌≤◌, ◌^◌, [], ◌∷◌, ◌++◌, length, take, drop, slice_get, slice_range};
ghost use Rattle.std.specs.Prelude.{IfOk, OnOk, OnSome};
ghost use Rattle.nx_text.specs.Gap.{Parted};

use std::alloc::{AllocError, Global};
use std::marker::Model;
use std::mem;

/// A gap that is widened gets one item of room for so many that the list has.
const SPARE_PART: usize = 16;

/// A list with a gap in it, in one block of memory. To a contract it is the part in front of the gap, the part behind
/// it, and how many items the gap has room for.
#[derive(Drop)]
pub(crate) struct GapBuffer<T> {
    items: Vec<T>,
    // what stands from here on up to `end` is the gap
    start: usize,
    end: usize,
}

impl<T> Model for GapBuffer<T> {
    ghost use Rattle.std.specs.Prelude.{◌-◌, ◌≤◌, take, drop, vec_len};
    ghost use Rattle.nx_text.specs.Gap.{Parted, parted_code};

    ghost Value = { Parted T };

    ghost coded = { parted_code T.code };

    ghost view = { λ b. record {
      front = take b.start b.items.items;
      back = drop b.end b.items.items;
      room = b.end - b.start;
    } };

    ghost invariant = { λ b. (b.start ≤ b.end) × (b.end ≤ vec_len b.items) };
}

impl<T: Copy> GapBuffer<T> {
    /// The empty list.
    pub(crate) fn new(alloc: Global) -> GapBuffer<T>
        ensures front { result.front ≡ [] }
        ensures back { result.back ≡ [] }
    {
        GapBuffer {
            items: Vec::new(alloc),
            start: 0,
            end: 0,
        }
    }

    /// These items alone, and behind them as much room as a gap that is widened for them has left: in the memory that they have, where
    /// that is enough.
    pub(crate) fn from_vec(items: Vec<T>, filler: T) -> Result<GapBuffer<T>, AllocError>
        ensures front { IfOk result (λ list. list.front ≡ items.items) }
        ensures back { IfOk result (λ list. list.back ≡ []) }
    {
        let len = items.len();
        let full = len.checked_add(len / SPARE_PART).ok_or(AllocError)?;
        let mut items = items;
        items.resize(full, filler)?;
        Ok(GapBuffer {
            items,
            start: len,
            end: full,
        })
    }

    /// These items alone, in memory of the same allocator, and behind them as much room as a gap that is widened for them has left. So a
    /// list that is put in whole is written once.
    pub(crate) fn with_items(&self, added: &[T], filler: T) -> Result<GapBuffer<T>, AllocError>
        ensures front { IfOk result (λ list. list.front ≡ added.now) }
        ensures back { IfOk result (λ list. list.back ≡ []) }
    {
        let len = added.len();
        let full = len.checked_add(len / SPARE_PART).ok_or(AllocError)?;
        let mut items = Vec::with_capacity(*self.items.allocator(), full)?;
        items.extend_from_slice(added)?;
        GapBuffer::from_vec(items, filler)
    }

    /// The part in front of the gap.
    pub(crate) fn front(&self) -> &[T]
        ensures { result.now ≡ self.now.front }
    {
        &self.items[..self.start]
    }

    /// The part behind the gap.
    pub(crate) fn back(&self) -> &[T]
        ensures { result.now ≡ self.now.back }
    {
        &self.items[self.end..]
    }

    /// How many items there are.
    pub(crate) fn len(&self) -> usize
        ensures { result ≡ length self.now.front + length self.now.back }
    {
        self.items.len() - (self.end - self.start)
    }

    /// How many items the gap has room for.
    pub(crate) fn room(&self) -> usize
        ensures { result ≡ self.now.room }
    {
        self.end - self.start
    }

    /// How many items there are in front of the gap.
    pub(crate) fn front_len(&self) -> usize
        ensures { result ≡ length self.now.front }
    {
        self.start
    }

    /// The item at an index.
    pub(crate) fn get(&self, at: usize) -> Option<T>
        ensures item { result ≡ slice_get (self.now.front ++ self.now.back) at }
        ensures next_fits { OnSome result (at + 1 < 2 ^ 64) }
    {
        if at < self.start {
            Some(self.items[at])
        } else {
            self.back().get(at - self.start).copied()
        }
    }

    /// No items, in memory of the same allocator.
    pub(crate) fn no_items(&self) -> Vec<T>
        ensures { result.items ≡ [] }
    {
        Vec::new(*self.items.allocator())
    }

    /// The items from one index to another, in the place of what the buffer held, in its room.
    pub(crate) fn copy_range(
        &self,
        from: usize,
        to: usize,
        buffer: &mut Vec<T>,
    ) -> Result<(), AllocError>
        requires ordered { from ≤ to }
        requires inside { to ≤ length self.now.front + length self.now.back }
        ensures { OnOk result (buffer.new.items ≡ slice_range (self.now.front ++ self.now.back) from to) }
    {
        buffer.clear();
        let gap = self.start;
        if to <= gap {
            buffer.extend_from_slice(&self.front()[from..to])?;
            return Ok(());
        }
        if from >= gap {
            buffer.extend_from_slice(&self.back()[from - gap..to - gap])?;
            return Ok(());
        }
        self.copy_over_gap(from, to, buffer)
    }

    /// The items from an index in front of the gap to one behind it, into a buffer that is empty.
    #[inline(never)]
    fn copy_over_gap(&self, from: usize, to: usize, buffer: &mut Vec<T>) -> Result<(), AllocError>
        requires front { from ≤ length self.now.front }
        requires back { length self.now.front ≤ to }
        requires inside { to ≤ length self.now.front + length self.now.back }
        requires empty { buffer.old.items ≡ [] }
        ensures { OnOk result (buffer.new.items ≡ slice_range (self.now.front ++ self.now.back) from to) }
    {
        buffer.extend_from_slice(&self.front()[from..])?;
        buffer.extend_from_slice(&self.back()[..to - self.start])?;
        Ok(())
    }

    /// Makes the gap so wide that it has room for so many items more. Where it must be widened it takes a part of what
    /// the list has then beyond that, so that putting in one item after another takes time as their number, and so that
    /// a list that was put in whole has room for the first items after it.
    pub(crate) fn make_room(&mut self, more: usize, filler: T) -> Result<(), AllocError>
        ensures front { self.new.front ≡ self.old.front }
        ensures back { self.new.back ≡ self.old.back }
        ensures room { OnOk result (more ≤ self.new.room) }
    {
        if more <= self.end - self.start {
            return Ok(());
        }
        let len = self.items.len();
        let full = len.checked_add(more).ok_or(AllocError)?;
        let new_len = full.checked_add(full / SPARE_PART).ok_or(AllocError)?;
        let wider = new_len - len;
        self.items.resize(new_len, filler)?;
        self.items.copy_within(self.end..len, self.end + wider);
        self.end += wider;
        Ok(())
    }

    /// Moves the gap to an index.
    pub(crate) fn move_gap(&mut self, at: usize)
        requires { at ≤ length self.old.front + length self.old.back }
        ensures front { self.new.front ≡ take at (self.old.front ++ self.old.back) }
        ensures back { self.new.back ≡ drop at (self.old.front ++ self.old.back) }
        ensures room { self.new.room ≡ self.old.room }
    {
        if at < self.start {
            let moved = self.start - at;
            self.items.copy_within(at..self.start, self.end - moved);
            self.start = at;
            self.end -= moved;
        } else {
            let moved = at - self.start;
            self.items
                .copy_within(self.end..self.end + moved, self.start);
            self.start = at;
            self.end += moved;
        }
    }

    /// The list itself, which leaves an empty one. A loop over one of its own need not write the gap's ends to memory for each item.
    pub(crate) fn take(&mut self) -> GapBuffer<T>
        ensures list { result ≡ self.old }
        ensures front { self.new.front ≡ [] }
        ensures back { self.new.back ≡ [] }
    {
        let empty = GapBuffer::new(*self.items.allocator());
        mem::replace(self, empty)
    }

    /// Puts an item in at the start of the gap.
    pub(crate) fn push(&mut self, item: T)
        requires { 0 < self.old.room }
        ensures front { self.new.front ≡ self.old.front ++ item ∷ [] }
        ensures back { self.new.back ≡ self.old.back }
        ensures room { self.new.room + 1 ≡ self.old.room }
    {
        self.items[self.start] = item;
        self.start += 1;
    }

    /// Puts an item in at the end of the gap.
    pub(crate) fn push_back(&mut self, item: T)
        requires { 0 < self.old.room }
        ensures front { self.new.front ≡ self.old.front }
        ensures back { self.new.back ≡ item ∷ self.old.back }
        ensures room { self.new.room + 1 ≡ self.old.room }
    {
        self.end -= 1;
        self.items[self.end] = item;
    }

    /// Takes out the last item in front of the gap.
    pub(crate) fn pop(&mut self) -> T
        requires { 0 < length self.old.front }
        ensures front { self.old.front ≡ self.new.front ++ result ∷ [] }
        ensures back { self.new.back ≡ self.old.back }
        ensures room { self.new.room ≡ self.old.room + 1 }
    {
        self.start -= 1;
        self.items[self.start]
    }

    /// Takes out the first item behind the gap.
    pub(crate) fn pop_back(&mut self) -> T
        requires { 0 < length self.old.back }
        ensures front { self.new.front ≡ self.old.front }
        ensures back { self.old.back ≡ result ∷ self.new.back }
        ensures room { self.new.room ≡ self.old.room + 1 }
    {
        self.end += 1;
        self.items[self.end - 1]
    }

    /// Puts items in at the start of the gap.
    pub(crate) fn push_all(&mut self, added: &[T])
        requires { length added.now ≤ self.old.room }
        ensures front { self.new.front ≡ self.old.front ++ added.now }
        ensures back { self.new.back ≡ self.old.back }
        ensures room { self.new.room + length added.now ≡ self.old.room }
        ensures fits { length self.new.front < 2 ^ 64 }
    {
        let start = self.start + added.len();
        self.items[self.start..start].copy_from_slice(added);
        self.start = start;
    }

    /// Leaves so many items in front of the gap.
    pub(crate) fn keep_front(&mut self, count: usize)
        requires { count ≤ length self.old.front }
        ensures front { self.new.front ≡ take count self.old.front }
        ensures back { self.new.back ≡ self.old.back }
        ensures room { self.old.room ≤ self.new.room }
    {
        self.start = count;
    }

    /// Drops so many items behind the gap.
    pub(crate) fn drop_back(&mut self, count: usize)
        requires { count ≤ length self.old.back }
        ensures front { self.new.front ≡ self.old.front }
        ensures back { self.new.back ≡ drop count self.old.back }
        ensures room { self.old.room ≤ self.new.room }
    {
        self.end += count;
    }
}
