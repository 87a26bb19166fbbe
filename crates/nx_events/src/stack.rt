//! Lists of things with names, in which the last one of a name is found without looking through the whole list.

ghost use Rattle.std.specs.Prelude.{◌≡◌, ◌-◌, ◌<◌, ◌≤◌, ◌++◌, ◌∷◌, [], ℕ, List, length, take, map, option_copied, IfSome, IfOk, OnOk};
ghost use Rattle.std.specs.Prelude.{OnErr};
ghost use Rattle.nx_events.specs.Places.{last_place, last_named, one_name_more, one_name_less};

use crate::inner_names::InnerNames;
use crate::reusable::Reusable;
use crate::state::OpenElement;
use nx_base::equal::same_each;
use nx_base::memory::NoMemory;
use nx_base::sequence::TryCopy;
use std::alloc::Global;
use std::marker::Model;

/// A thing with a name.
pub trait Named {
    ghost name_of: { Self → List ℕ };

    /// The name, in bytes.
    fn name(&self) -> &[u8]
        ensures { result.now ≡ name_of self.now };
}

/// How many things at the front of a list are looked through for a name. Few documents nest deeper, or have more
/// declarations in force; for what lies behind them a map is kept.
const LOOKED_THROUGH: usize = 32;

/// A list of things with names. To a contract it is the list.
#[derive(Drop)]
pub struct Stack<T: Named> {
    alloc: Global,
    items: Reusable<T>,
    /// The names of those behind the first ones.
    inner: InnerNames,
}

impl<T: Named> Model for Stack<T> {
    ghost use Rattle.std.specs.Prelude.{◌≡◌, List};
    ghost use Rattle.nx_events.specs.Places.{behind_those};

    ghost Value = { List T };

    ghost view = { λ s. s.items };

    ghost invariant = { λ s. s.inner ≡ behind_those T.name_of s.items };
}

// Adds the name of a thing that is pushed onto a list of this length.
fn push_name(inner: &mut InnerNames, alloc: Global, name: &[u8], len: usize) -> Result<(), NoMemory>
    ensures ok { OnOk result (inner.new ≡ one_name_more len inner.old name.now) }
    ensures err { OnErr result (inner.new ≡ inner.old) }
{
    if LOOKED_THROUGH <= len {
        inner.push(alloc, name)?;
    }
    Ok(())
}

// Takes the name of a thing off that was the last one behind a list of this length.
fn pop_name(inner: &mut InnerNames, len: usize)
    ensures { inner.new ≡ one_name_less len inner.old }
{
    if LOOKED_THROUGH <= len {
        inner.pop();
    }
}

/// The place of the last thing with the name, found by looking through all.
pub(crate) fn last_place_in<T: Named>(items: &[T], name: &[u8]) -> Option<usize>
    ensures value { result ≡ last_place name.now (map T.name_of items.now) }
    ensures bound { IfSome result (λ n. n < length items.now) }
{
    let mut n = items.len();
    while n > 0 {
        n -= 1;
        let item = &items[n];
        // Names are short: byte by byte they are compared sooner than by words.
        if same_each(item.name(), name) {
            return Some(n);
        }
    }
    None
}

// Those that are looked through.
fn front_of<T>(items: &[T]) -> &[T]
    ensures { result.now ≡ take 32 items.now }
{
    if LOOKED_THROUGH < items.len() {
        &items[..LOOKED_THROUGH]
    } else {
        items
    }
}

impl<T: Named + Drop> Stack<T> {
    /// The empty list.
    pub(crate) fn new(alloc: Global) -> Self
        ensures { result ≡ [] }
    {
        Stack {
            alloc,
            items: Reusable::new(alloc),
            inner: InnerNames::new(),
        }
    }

    // The empty list, with room for so many things and no more.
    fn with_room(alloc: Global, len: usize) -> Result<Self, NoMemory>
        ensures { IfOk result (λ stack. stack ≡ []) }
    {
        Ok(Stack {
            alloc,
            items: Reusable::with_room(alloc, len)?,
            inner: InnerNames::new(),
        })
    }

    /// The things, in order.
    pub(crate) fn as_slice(&self) -> &[T]
        ensures { result.now ≡ self.now }
    {
        self.items.as_slice()
    }

    /// How many things there are.
    pub(crate) fn len(&self) -> usize
        ensures { result ≡ length self.now }
    {
        self.items.len()
    }

    /// Adds a thing at the end.
    pub(crate) fn push(&mut self, item: T) -> Result<(), NoMemory>
        ensures ok { OnOk result (self.new ≡ self.old ++ item ∷ []) }
        ensures err { OnErr result (self.new ≡ self.old) }
    {
        let len = self.items.len();
        push_name(&mut self.inner, self.alloc, item.name(), len)?;
        match self.items.push(item) {
            Ok(()) => Ok(()),
            Err(error) => {
                pop_name(&mut self.inner, len);
                Err(error)
            }
        }
    }

    /// Takes the last thing off, if there is one.
    pub(crate) fn pop(&mut self)
        ensures { self.new ≡ take (length self.old - 1) self.old }
    {
        let len = self.items.len();
        if len > 0 {
            self.items.pop();
            pop_name(&mut self.inner, len - 1);
        }
    }

    /// Leaves so many things at the front.
    pub(crate) fn shorten(&mut self, n: usize)
        ensures { self.new ≡ take n self.old }
    {
        while self.len() > n {
            self.pop();
        }
    }

    /// The place of the last thing with the name.
    // Few documents declare a namespace without a prefix: callers that seldom call this stay small.
    #[inline(never)]
    pub(crate) fn last_place(&self, name: &[u8]) -> Option<usize>
        ensures value { result ≡ last_place name.now (map T.name_of self.now) }
        ensures bound { IfSome result (λ n. n < length self.now) }
    {
        match self.inner.last_place(name) {
            Some(n) => Some(LOOKED_THROUGH + n),
            None => last_place_in(front_of(self.items.as_slice()), name),
        }
    }

    /// The last thing with the name.
    pub(crate) fn last_named(&self, name: &[u8]) -> Option<&T>
        ensures { option_copied result ≡ last_named T.name_of name.now self.now }
    {
        self.items.as_slice().get(self.last_place(name)?)
    }
}

impl Stack<OpenElement> {
    /// Adds an open element at the end, in the place of one that was taken off, if one was.
    #[inline(always)]
    pub(crate) fn open_element(&mut self, written: &[u8], outer: usize) -> Result<(), NoMemory>
        ensures ok { OnOk result (self.new ≡ self.old ++ (record { written = written.now; outer = outer }) ∷ []) }
        ensures err { OnErr result (self.new ≡ self.old) }
    {
        let len = self.items.len();
        push_name(&mut self.inner, self.alloc, written, len)?;
        match self.items.open_element(self.alloc, written, outer) {
            Ok(()) => Ok(()),
            Err(error) => {
                pop_name(&mut self.inner, len);
                Err(error)
            }
        }
    }
}

// Adds a copy of a thing.
fn push_copy<T: Named + TryCopy + Drop>(to: &mut Stack<T>, item: &T) -> Result<(), NoMemory>
    ensures ok { OnOk result (to.new ≡ to.old ++ item.now ∷ []) }
    ensures err { OnErr result (to.new ≡ to.old) }
{
    to.push(item.copy()?)?;
    Ok(())
}

impl<T: Named + TryCopy + Drop> Stack<T> {
    /// Adds copies of all things, or leaves the list as it is.
    pub(crate) fn append(&mut self, more: &[T]) -> Result<(), NoMemory>
        ensures ok { OnOk result (self.new ≡ self.old ++ more.now) }
        ensures err { OnErr result (self.new ≡ self.old) }
    {
        let len = self.len();
        for item in more {
            if push_copy(self, item).is_err() {
                self.shorten(len);
                return Err(NoMemory);
            }
        }
        Ok(())
    }
}

impl<T: Named + TryCopy + Drop> Stack<T> {
    /// Copies of so many things at the front.
    pub(crate) fn front(&self, len: usize) -> Result<Self, NoMemory>
        requires { len ≤ length self.now }
        ensures { IfOk result (λ front. front ≡ take len self.now) }
    {
        let mut front = Stack::with_room(self.alloc, len)?;
        front.append(&self.items.as_slice()[..len])?;
        Ok(front)
    }
}

impl<T: Named + TryCopy + Drop> TryCopy for Stack<T> {
    // States are kept by the ten thousand, so a copy takes no more room than it needs.
    fn copy(&self) -> Result<Self, NoMemory> {
        // Where all are looked through, as in most lists, no name is kept beside them.
        if self.len() <= LOOKED_THROUGH {
            return Ok(Stack {
                alloc: self.alloc,
                items: self.items.copy()?,
                inner: InnerNames::new(),
            });
        }
        let mut copied = Stack::with_room(self.alloc, self.len())?;
        copied.append(self.items.as_slice())?;
        Ok(copied)
    }
}
