//! Events and faults, in the order in which they arise.

ghost use Rattle.std.specs.Prelude.{◌≡◌, ◌<◌, ◌≤◌, [], ◌∷◌, ◌++◌, ◌==◌, true, length, take, drop, insert, slice_get, option_copied};
ghost use Rattle.std.specs.Prelude.{vec_len, vec_capacity, IfOk, OnOk, OnErr};

use crate::tag::copy_in;
use nx_base::fault::{Fault, Span};
use nx_base::memory::NoMemory;
use nx_base::name::Name;
use nx_base::sequence::{Bytes, TryCopy, TryCopyAll, copy_each};
use std::alloc::Global;
use std::marker::Model;
use std::mem;

/// What a tag, a text run or the end of a text does to the elements.
#[derive(Drop)]
pub enum Event {
    /// An element begins.
    Enter(Name),
    /// An element begins that has no name, because of a fault.
    EnterLost,
    /// An attribute of the element that began last, and its value.
    Att(Name, Bytes),
    /// The attributes of the element that began last are over.
    TagEnd,
    /// Character data.
    Chars(Bytes),
    /// The innermost open element ends.
    Leave,
}

/// An event with the span that it comes from, or a fault.
#[derive(Drop)]
pub enum Item {
    Event(Event, Span),
    Fault(Fault),
}

/// The memory of so many names and values is kept at most.
const MOST_SPARE: usize = 64;

/// How long a name or a value may be, in bytes, whose memory is kept.
pub(crate) const LONGEST_SPARE: usize = 4096;

/// A list of items, and memory of what was among them, in which the next ones are put. To a contract it is the list.
#[derive(Drop)]
pub struct Items {
    items: Vec<Item>,
    /// The memory of a run's string that is over.
    spare_string: Vec<u8>,
    /// The memory of names, and of the values of attributes, that are over.
    spare: Vec<Vec<u8>>,
}

impl Model for Items {
    ghost use Rattle.std.specs.Prelude.{List};
    ghost use Rattle.nx_events.specs.declared.item.Item.{Item};

    ghost Value = { List Item };

    ghost view = { λ i. i.items.items };
}

// More room for memory that is kept, and whether there is some. It is seldom called: who keeps memory stays small.
#[inline(never)]
fn grow_spare(spare: &mut Vec<Vec<u8>>) -> bool
    ensures { result ≡ true → vec_len spare.new < vec_capacity spare.new }
{
    spare.reserve(1).is_ok()
}

// Whether there is room for the memory of one more name or value.
fn makes_room(spare: &mut Vec<Vec<u8>>) -> bool
    ensures { result ≡ true → vec_len spare.new < vec_capacity spare.new }
{
    let len = spare.len();
    if MOST_SPARE <= len {
        return false;
    }
    if len < spare.capacity() {
        return true;
    }
    grow_spare(spare)
}

impl Items {
    /// The empty list.
    pub fn new(alloc: Global) -> Items
        ensures { result ≡ [] }
    {
        Items {
            items: Vec::new(alloc),
            spare_string: Vec::new(alloc),
            spare: Vec::new(alloc),
        }
    }

    /// The items, in order.
    pub fn as_slice(&self) -> &[Item]
        ensures { result.now ≡ self.now }
    {
        self.items.as_slice()
    }

    /// How many items there are.
    pub fn len(&self) -> usize
        ensures { result ≡ length self.now }
    {
        self.items.len()
    }

    /// The item at `i`; none exactly where `i` is at least the length.
    pub fn get(&self, i: usize) -> Option<&Item>
        ensures { option_copied result ≡ slice_get self.now i }
    {
        self.items.as_slice().get(i)
    }

    /// Whether there is no item.
    pub fn is_empty(&self) -> bool
        ensures { result ≡ (length self.now == 0) }
    {
        self.items.is_empty()
    }

    /// Adds an item at the end.
    pub fn push(&mut self, item: Item) -> Result<(), NoMemory>
        ensures ok { OnOk result (self.new ≡ self.old ++ item ∷ []) }
        ensures err { OnErr result (self.new ≡ self.old) }
    {
        // With room for it, the item is moved once.
        self.items.reserve(1)?;
        self.items.push_reserved(item);
        Ok(())
    }

    /// Moves all items of another list to the end, or none of them.
    pub fn append(&mut self, more: Items) -> Result<(), NoMemory>
        ensures ok { OnOk result (self.new ≡ self.old ++ more) }
        ensures err { OnErr result (self.new ≡ self.old) }
    {
        let mut more = more;
        self.items.append(&mut more.items)?;
        Ok(())
    }

    /// Puts an item in front of the one at `i`, or at the end.
    pub fn insert(&mut self, i: usize, item: Item) -> Result<(), NoMemory>
        requires { i ≤ length self.old }
        ensures ok { OnOk result (self.new ≡ insert self.old i item) }
        ensures err { OnErr result (self.new ≡ self.old) }
    {
        self.items.insert(i, item)?;
        Ok(())
    }

    /// Removes the items from `from` to `to`.
    pub fn cut(&mut self, from: usize, to: usize)
        requires ordered { from ≤ to }
        requires within { to ≤ length self.old }
        ensures { self.new ≡ take from self.old ++ drop to self.old }
    {
        self.items.drain(from..to);
    }

    /// Drops all items. The list keeps its room, and memory of what was among them.
    pub fn clear(&mut self)
        ensures { self.new ≡ [] }
    {
        while let Some(item) = self.items.pop() {
            self.let_go(item);
        }
    }

    // Drops an item, but for the memory of strings and of names.
    fn let_go(&mut self, item: Item)
        ensures { self.new ≡ self.old }
    {
        match item {
            Item::Event(event, _) => match event {
                Event::Chars(string) => self.keep_string(string),
                Event::Enter(name) => self.keep_name(name),
                // The next attribute asks for the name's memory first.
                Event::Att(name, value) => {
                    self.keep_bytes(value);
                    self.keep_name(name);
                }
                Event::EnterLost => {}
                Event::TagEnd => {}
                Event::Leave => {}
            },
            Item::Fault(fault) => drop(fault),
        }
    }

    /// The items, in order, with the list's room.
    pub fn into_vec(self) -> Vec<Item>
        ensures { result.items ≡ self }
    {
        self.items
    }

    /// Takes all items out, with the list's room.
    pub fn take_out(&mut self) -> Vec<Item>
        ensures items { result.items ≡ self.old }
        ensures left { self.new ≡ [] }
    {
        let alloc = *self.items.allocator();
        mem::replace(&mut self.items, Vec::new(alloc))
    }

    /// Puts items in the place of those that the list holds.
    pub fn put_back(&mut self, items: Vec<Item>)
        ensures { self.new ≡ items.items }
    {
        self.items = items;
    }

    // Keeps the memory of a name's local part; the name is over.
    fn keep_name(&mut self, name: Name)
        ensures { self.new ≡ self.old }
    {
        self.keep_bytes(name.local);
    }

    /// Keeps the memory of both parts of a name that is over, whose namespace was put in such memory, too.
    pub fn keep_both_parts(&mut self, name: Name)
        ensures { self.new ≡ self.old }
    {
        let Name { ns, local } = name;
        self.keep_bytes(local);
        self.keep_bytes(ns);
    }

    // Keeps the memory of a name or a value that is over.
    fn keep_bytes(&mut self, bytes: Bytes)
        ensures { self.new ≡ self.old }
    {
        // More end than begin where parts of a text are read again and again; and long values are rare.
        let is_worth_it = 0 < bytes.len() && bytes.len() <= LONGEST_SPARE;
        // Where it can't be kept it is let go.
        if is_worth_it && makes_room(&mut self.spare) {
            self.spare.push_reserved(bytes.into_vec());
        }
    }

    /// Keeps the memory of a run's string that is over.
    pub fn keep_string(&mut self, string: Bytes)
        ensures { self.new ≡ self.old }
    {
        self.spare_string = string.into_vec();
    }

    /// Memory for a name or a value: that of one that is over, where there is any.
    pub(crate) fn spare_memory(&mut self) -> Vec<u8>
        ensures { self.new ≡ self.old }
    {
        match self.spare.pop() {
            Some(memory) => memory,
            None => Vec::new(*self.items.allocator()),
        }
    }

    /// A copy of an attribute's value, in the memory that is kept of names and values.
    pub(crate) fn copied_value(&mut self, value: &[u8]) -> Result<Bytes, NoMemory>
        ensures copied { IfOk result (λ copied. copied ≡ value.now) }
        ensures same { self.new ≡ self.old }
    {
        let memory = self.spare_memory();
        let copied = copy_in(memory, value)?;
        Ok(copied)
    }

    /// A copy of a run's string, in the memory that is kept of one.
    pub(crate) fn copied(&mut self, string: &[u8]) -> Result<Bytes, NoMemory>
        ensures copied { IfOk result (λ copied. copied ≡ string.now) }
        ensures same { self.new ≡ self.old }
    {
        let alloc = *self.spare_string.allocator();
        let memory = mem::replace(&mut self.spare_string, Vec::new(alloc));
        let copied = copy_in(memory, string)?;
        Ok(copied)
    }
}

impl TryCopy for Event {
    fn copy(&self) -> Result<Event, NoMemory> {
        match self {
            Event::Enter(name) => Ok(Event::Enter(name.copy()?)),
            Event::EnterLost => Ok(Event::EnterLost),
            Event::Att(name, value) => Ok(Event::Att(name.copy()?, value.copy()?)),
            Event::TagEnd => Ok(Event::TagEnd),
            Event::Chars(string) => Ok(Event::Chars(string.copy()?)),
            Event::Leave => Ok(Event::Leave),
        }
    }
}

impl TryCopy for Item {
    fn copy(&self) -> Result<Item, NoMemory> {
        match self {
            Item::Event(event, span) => Ok(Item::Event(event.copy()?, *span)),
            Item::Fault(fault) => Ok(Item::Fault(fault.copy()?)),
        }
    }
}

impl TryCopyAll for Item {
    fn copy_all(alloc: Global, items: &[Item]) -> Result<Vec<Item>, NoMemory> {
        copy_each(alloc, items)
    }
}

// The memory that is kept stays behind.
impl TryCopy for Items {
    fn copy(&self) -> Result<Items, NoMemory> {
        let alloc = *self.items.allocator();
        Ok(Items {
            items: Item::copy_all(alloc, self.items.as_slice())?,
            spare_string: Vec::new(alloc),
            spare: Vec::new(alloc),
        })
    }
}
