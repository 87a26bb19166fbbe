//! Lists that keep what is taken off at their end, so that the next thing is written over it.

ghost use Rattle.std.specs.Prelude.{◌≡◌, ◌-◌, ◌++◌, ◌∷◌, [], length, take, IfOk, OnOk, OnErr};

use crate::state::OpenElement;
use crate::written_name::WrittenName;
use nx_base::memory::NoMemory;
use nx_base::sequence::{TryCopy, copy_each};
use std::alloc::Global;
use std::marker::Model;

/// A list, and behind it what was taken off. To a contract it is the list.
#[derive(Drop)]
pub struct Reusable<T> {
    items: Vec<T>,
    len: usize,
}

impl<T> Model for Reusable<T> {
    ghost use Rattle.std.specs.Prelude.{◌≤◌, List, length, take};

    ghost Value = { List T };

    ghost view = { λ r. take r.len r.items.items };

    ghost invariant = { λ r. r.len ≤ length r.items.items };
}

impl<T: Drop> Reusable<T> {
    /// The empty list.
    pub(crate) fn new(alloc: Global) -> Self
        ensures { result ≡ [] }
    {
        Reusable {
            items: Vec::new(alloc),
            len: 0,
        }
    }

    /// The empty list, with room for so many items and no more.
    pub(crate) fn with_room(alloc: Global, len: usize) -> Result<Self, NoMemory>
        ensures { IfOk result (λ list. list ≡ []) }
    {
        Ok(Reusable {
            items: Vec::with_capacity(alloc, len)?,
            len: 0,
        })
    }

    /// The items, in order.
    pub(crate) fn as_slice(&self) -> &[T]
        ensures { result.now ≡ self.now }
    {
        &self.items[..self.len]
    }

    /// How many items there are.
    pub(crate) fn len(&self) -> usize
        ensures { result ≡ length self.now }
    {
        self.len
    }

    /// Adds an item at the end.
    pub(crate) fn push(&mut self, item: T) -> Result<(), NoMemory>
        ensures ok { OnOk result (self.new ≡ self.old ++ item ∷ []) }
        ensures err { OnErr result (self.new ≡ self.old) }
    {
        if self.len < self.items.len() {
            self.items[self.len] = item;
        } else {
            self.items.push(item)?;
        }
        self.len += 1;
        Ok(())
    }

    /// Takes the last item off, if there is one.
    pub(crate) fn pop(&mut self)
        ensures { self.new ≡ take (length self.old - 1) self.old }
    {
        if self.len > 0 {
            self.len -= 1;
        }
    }
}

// What was taken off stays behind.
impl<T: TryCopy + Drop> TryCopy for Reusable<T> {
    fn copy(&self) -> Result<Self, NoMemory> {
        let items = copy_each(*self.items.allocator(), self.as_slice())?;
        Ok(Reusable {
            items,
            len: self.len,
        })
    }
}

impl Reusable<OpenElement> {
    /// Adds an open element at the end, in the place of one that was taken off, if one was.
    pub(crate) fn open_element(
        &mut self,
        alloc: Global,
        written: &[u8],
        outer: usize,
    ) -> Result<(), NoMemory>
        ensures ok { OnOk result (self.new ≡ self.old ++ (record { written = written.now; outer = outer }) ∷ []) }
        ensures err { OnErr result (self.new ≡ self.old) }
    {
        if self.len < self.items.len() {
            self.items[self.len].renew(written, outer)?;
            self.len += 1;
            return Ok(());
        }
        self.push(OpenElement {
            written: WrittenName::of(alloc, written)?,
            outer,
        })
    }
}
