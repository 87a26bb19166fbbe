//! The list that holds bytes, names, faults and every other list of the workspace.

ghost use Rattle.std.specs.Prelude.{◌≡◌, ◌+◌, ◌<◌, ◌≤◌, [], ◌∷◌, ◌++◌, length, take, drop, insert, ◌==◌, slice_get, option_copied, IfOk};
ghost use Rattle.std.specs.Prelude.{OnOk, OnErr, MatchOption};

use crate::memory::NoMemory;
use std::alloc::Global;
use std::marker::Model;

/// A value that can be copied where there is memory for it.
pub trait TryCopy {
    /// An equal value.
    fn copy(&self) -> Result<Self, NoMemory>
        ensures { IfOk result (λ copied. copied ≡ self.now) };
}

/// A value of which lists can be copied.
pub trait TryCopyAll {
    /// Equal values, in order.
    fn copy_all(alloc: Global, items: &[Self]) -> Result<Vec<Self>, NoMemory>
        ensures { IfOk result (λ copied. copied.items ≡ items.now) };
}

impl TryCopy for u8 {
    fn copy(&self) -> Result<u8, NoMemory> {
        Ok(*self)
    }
}

// Bytes are copied at once.
impl TryCopyAll for u8 {
    fn copy_all(alloc: Global, items: &[u8]) -> Result<Vec<u8>, NoMemory> {
        Ok(Vec::from_slice(alloc, items)?)
    }
}

/// Copies of the items, one by one.
pub fn copy_each<T: TryCopy + Drop>(alloc: Global, items: &[T]) -> Result<Vec<T>, NoMemory>
    ensures { IfOk result (λ copied. copied.items ≡ items.now) }
{
    let mut copied = Vec::with_capacity(alloc, items.len())?;
    for item in items {
        copied.push(item.copy()?)?;
    }
    Ok(copied)
}

/// A list. To a contract it is the list of its items.
#[derive(Drop)]
pub struct Sequence<T> {
    pub(crate) items: Vec<T>,
}

impl<T> Model for Sequence<T> {
    ghost use Rattle.std.specs.Prelude.{List};

    ghost Value = { List T };

    ghost view = { λ s. s.items.items };
}

/// Bytes of a text, of a file, or of a part of one.
pub type Bytes = Sequence<u8>;

impl<T: Drop> Sequence<T> {
    /// The empty list.
    pub fn new(alloc: Global) -> Self
        ensures { result ≡ [] }
    {
        Sequence {
            items: Vec::new(alloc),
        }
    }

    /// The list of these items.
    pub fn from_vec(items: Vec<T>) -> Self
        ensures { result ≡ items.items }
    {
        Sequence { items }
    }

    /// The items with their room, which may be filled anew.
    pub fn into_vec(self) -> Vec<T>
        ensures { result.items ≡ self }
    {
        self.items
    }

    /// The items, in order.
    pub fn as_slice(&self) -> &[T]
        ensures { result.now ≡ self.now }
    {
        self.items.as_slice()
    }

    /// How many items there are.
    pub fn len(&self) -> usize
        ensures { result ≡ length self.now }
    {
        self.items.len()
    }

    /// Whether there is no item.
    pub fn is_empty(&self) -> bool
        ensures { result ≡ (length self.now == 0) }
    {
        self.items.is_empty()
    }

    /// The item at `i`; none exactly where `i` is at least the length.
    pub fn get(&self, i: usize) -> Option<&T>
        ensures { option_copied result ≡ slice_get self.now i }
    {
        self.items.as_slice().get(i)
    }

    /// Adds an item at the end.
    pub fn push(&mut self, item: T) -> Result<(), NoMemory>
        ensures ok { OnOk result (self.new ≡ self.old ++ item ∷ []) }
        ensures err { OnErr result (self.new ≡ self.old) }
    {
        self.items.push(item)?;
        Ok(())
    }

    /// Moves all items of another list to the end, or none of them.
    pub fn append(&mut self, more: Self) -> Result<(), NoMemory>
        ensures ok { OnOk result (self.new ≡ self.old ++ more) }
        ensures err { OnErr result (self.new ≡ self.old) }
    {
        let mut more = more;
        self.items.append(&mut more.items)?;
        Ok(())
    }

    /// Takes the last item off; none exactly where there is none.
    pub fn pop(&mut self) -> Option<T>
        ensures { MatchOption result ((self.old ≡ []) × (self.new ≡ [])) (λ item. self.old ≡ self.new ++ item ∷ []) }
    {
        self.items.pop()
    }

    /// Takes room for so many more items at once. How much room a list has is no part of its value, so
    /// that the next pushes need no memory is promised by no clause.
    pub fn reserve(&mut self, additional: usize) -> Result<(), NoMemory>
        ensures { self.new ≡ self.old }
    {
        self.items.reserve(additional)?;
        Ok(())
    }

    /// Drops all items. The list keeps its room.
    pub fn clear(&mut self)
        ensures { self.new ≡ [] }
    {
        self.items.clear();
    }

    /// Puts an item in front of the one at `i`, or at the end.
    pub fn insert(&mut self, i: usize, item: T) -> Result<(), NoMemory>
        requires { i ≤ length self.old }
        ensures ok { OnOk result (self.new ≡ insert self.old i item) }
        ensures err { OnErr result (self.new ≡ self.old) }
    {
        self.items.insert(i, item)?;
        Ok(())
    }

    /// Removes the items from `from` to `to`.
    pub fn cut(&mut self, from: usize, to: usize)
        requires ordered { from ≤ to }
        requires within { to ≤ length self.old }
        ensures { self.new ≡ take from self.old ++ drop to self.old }
    {
        self.items.drain(from..to);
    }
}

impl<T: TryCopyAll + Drop> TryCopy for Sequence<T> {
    fn copy(&self) -> Result<Self, NoMemory> {
        let alloc = *self.items.allocator();
        Ok(Sequence {
            items: T::copy_all(alloc, self.items.as_slice())?,
        })
    }
}

impl<T: TryCopyAll + Drop> TryCopyAll for Sequence<T> {
    fn copy_all(alloc: Global, items: &[Self]) -> Result<Vec<Self>, NoMemory> {
        copy_each(alloc, items)
    }
}
