//! Answers that are found without a hash.
//!
//! States are numbers from 0, so a list by states has the answers of calls without a name: all that were noted, so that no other look is
//! needed. Of the starts of elements many in a row are asked of one state, and their names are mostly of one namespace: so a state in
//! which an element starts has a block, where answers stand by the numbers of local parts. Other calls with names share one table: a
//! call and its answer stand where its state and name lead, unless another call came first, and one that is in neither is looked for by
//! its hash. The memory's invariant says what rows, blocks and slots tell.
//!
//! Where a state's block stands is a guess, as a text's number is: whoever takes a block asks whose it is.

ghost use Rattle.std.specs.Prelude.{◌≡◌, ◌<◌, ◌≤◌, ℕ, [], length, Option, Some, true, false, IfSome, IfNone, OnOk, slice_index_or};
ghost use Rattle.deriv_memory.specs.declared.asked.Asked.{Asked as TheAsked};
ghost use Rattle.deriv_memory.specs.declared.asked.Asked.TheVariants as calls;
ghost use Rattle.deriv_memory.specs.AtHand.{said, BlockHolds, HoldNoMore, HoldOneMore, HoldThisMore, ReadAlike, SayOneMore, SlotHolds};
ghost use Rattle.deriv_memory.specs.AtHand.{free_owner, free_row, free_slot, is_named, is_owner, is_slot, row_says, row_with, slot_of};
ghost use Rattle.deriv_memory.specs.Calls.{form_of, state_of, ns_of, local_of};

use crate::asked::{Asked, BLANK_VALUE, ENTER, SOLID_VALUE};
use crate::block::{Block, Owner};
use nx_base::memory::NoMemory;
use std::alloc::Global;

/// How many calls with names have a slot.
const SLOTS: usize = 16_384;

/// How many states have a block. All blocks take 1 MiB at the most.
const BLOCKS: usize = 2_048;

/// How far the slots of one state are from those of the next. It is odd, so that for one name as many states in a row as there are
/// slots have a slot each.
const STRIDE: usize = 10_007;

/// Where nothing is at hand.
const NOTHING: u32 = 0;

/// That there is no state behind a call.
const NO_STATE: u32 = 1;

/// How state 0 is written. Each next state is written as the next number.
const FIRST_STATE: u32 = 2;

/// How many states can be written.
const STATES: usize = (u32::MAX - FIRST_STATE) as usize + 1;

/// The answers of one state's calls that have no name.
#[derive(Clone, Copy)]
struct Row {
    tag_end: u32,
    leave: u32,
    blank: u32,
    solid: u32,
}

/// A call with a name, and its answer. Sixteen bytes, so four in a cache line. For that a namespace's number has 16 bits; calls with a
/// higher one are looked up by hash.
#[derive(Clone, Copy)]
struct Slot {
    state: u32,
    local: u32,
    answer: u32,
    ns: u16,
    form: u8,
}

/// Answers by states, and those of calls with names by state and name.
#[derive(Drop)]
pub struct AtHand {
    rows: Vec<Row>,
    /// Whose each block is.
    owners: Vec<Owner>,
    blocks: Vec<Block>,
    /// Where the block of each state may stand.
    places: Vec<u16>,
    slots: Vec<Slot>,
}

const FREE_ROW: Row = Row {
    tag_end: NOTHING,
    leave: NOTHING,
    blank: NOTHING,
    solid: NOTHING,
};

const FREE_SLOT: Slot = Slot {
    state: 0,
    local: 0,
    answer: NOTHING,
    ns: 0,
    form: 0,
};

// Another number for a name, so that its blank values and its other ones have a slot each.
#[inline(always)]
fn beside(local: usize) -> usize {
    local ^ (SLOTS / 2)
}

// Where the answer of a call with a name stands. Two may have one place.
#[inline(always)]
fn place(form: u8, state: usize, local: usize) -> usize {
    let name = match form {
        BLANK_VALUE => beside(local),
        _ => local,
    };
    (state.wrapping_mul(STRIDE) ^ name) % SLOTS
}

// What a number says of a call's answer.
#[inline(always)]
pub(crate) fn read(number: u32) -> Option<Option<usize>>
    ensures { result ≡ said number }
{
    match number {
        NOTHING => None,
        NO_STATE => Some(None),
        _ => Some(Some((number - FIRST_STATE) as usize)),
    }
}

/// The number that says this answer; none where the state's number is 2^32 - 2 or more.
pub fn written(answer: Option<usize>) -> Option<u32>
    ensures some { IfSome result (λ number. said number ≡ Some answer) }
    ensures none { IfNone result ((n : ℕ) × (answer ≡ Some n) × (4294967294 ≤ n)) }
{
    match answer {
        Some(state) => {
            if state < STATES {
                Some(state as u32 + FIRST_STATE)
            } else {
                None
            }
        }
        None => Some(NO_STATE),
    }
}

// Makes a list longer than this by free places.
fn lengthen<T: Copy>(list: &mut Vec<T>, last: usize, free: T) -> Result<(), NoMemory>
    ensures alike { ReadAlike free list.old.items list.new.items }
    ensures longer { OnOk result (last < length list.new.items) }
{
    while list.len() <= last {
        list.push(free)?;
    }
    Ok(())
}

impl Row {
    // The row with another number of this call.
    fn with(self, call: &Asked, number: u32) -> Row
        ensures { result ≡ row_with self call.now number }
    {
        let mut row = self;
        match call {
            Asked::TagEnd(_) => row.tag_end = number,
            Asked::Leave(_) => row.leave = number,
            Asked::Blank(_) => row.blank = number,
            Asked::Solid(_) => row.solid = number,
            _ => {}
        }
        row
    }
}

impl Slot {
    // A slot of this call; none where a number of it is too large.
    fn of(call: &Asked, answer: u32) -> Option<Slot>
        ensures { IfSome result (λ slot. slot ≡ slot_of call.now answer) }
    {
        let state = u32::try_from(call.state()).ok()?;
        let local = u32::try_from(call.local()).ok()?;
        let ns = u16::try_from(call.ns()).ok()?;
        let form = call.form();
        Some(Slot {
            state,
            local,
            answer,
            ns,
            form,
        })
    }

    // Whether this is the slot of the call with these numbers.
    #[inline(always)]
    fn is_of(&self, form: u8, state: usize, ns: usize, local: usize) -> bool
        ensures { result ≡ is_slot self.now form state ns local }
    {
        self.state as usize == state
            && self.local as usize == local
            && self.ns as usize == ns
            && self.form == form
    }
}

impl AtHand {
    /// Nothing at hand.
    pub fn new(alloc: Global) -> AtHand
        ensures rows { result.rows.items ≡ [] }
        ensures slots { result.slots.items ≡ [] }
        ensures owners { result.owners.items ≡ [] }
        ensures blocks { result.blocks.items ≡ [] }
    {
        AtHand {
            rows: Vec::new(alloc),
            owners: Vec::new(alloc),
            blocks: Vec::new(alloc),
            places: Vec::new(alloc),
            slots: Vec::new(alloc),
        }
    }

    // The answers of a state's calls that have no name.
    #[inline(always)]
    fn row(&self, state: usize) -> Row
        ensures { result ≡ slice_index_or self.now.rows.items state free_row }
    {
        match self.rows.as_slice().get(state) {
            Some(row) => *row,
            None => FREE_ROW,
        }
    }

    // The slot at a place.
    #[inline(always)]
    fn slot(&self, place: usize) -> Slot
        ensures { result ≡ slice_index_or self.now.slots.items place free_slot }
    {
        match self.slots.as_slice().get(place) {
            Some(slot) => *slot,
            None => FREE_SLOT,
        }
    }

    // Where the block of a state stands, if it has one.
    #[inline(always)]
    fn block_place(&self, state: usize) -> usize {
        match self.places.as_slice().get(state) {
            Some(place) => *place as usize,
            None => 0,
        }
    }

    // Whether a state has a block.
    fn has_block(&self, state: usize) -> bool {
        match self.owners.as_slice().get(self.block_place(state)) {
            Some(owner) => owner.is_state(state),
            None => false,
        }
    }

    // Whether the block at a place is the state's, for this namespace.
    #[inline(always)]
    fn is_owned(&self, place: usize, state: usize, ns: usize) -> bool
        ensures { result ≡ true → is_owner (slice_index_or self.now.owners.items place free_owner) state ns ≡ true }
    {
        match self.owners.as_slice().get(place) {
            Some(owner) => owner.is(state, ns),
            None => false,
        }
    }

    // The answer of the call with these numbers, if it is in its slot.
    #[inline(always)]
    fn at(&self, form: u8, state: usize, ns: usize, local: usize) -> Option<Option<usize>>
        ensures { (call : TheAsked) → form_of call ≡ form → state_of call ≡ state → ns_of call ≡ ns → local_of call ≡ local
            → IfSome result (SlotHolds self.now.slots.items call) }
    {
        let slot = self.slot(place(form, state, local));
        if slot.is_of(form, state, ns, local) {
            read(slot.answer)
        } else {
            None
        }
    }

    /// The answer of the end of a start tag, if it is at hand.
    #[inline(always)]
    pub fn tag_end(&self, state: usize) -> Option<Option<usize>>
        ensures { result ≡ row_says self.now.rows.items (calls.TagEnd state) }
    {
        read(self.row(state).tag_end)
    }

    /// The answer of the end of an element.
    #[inline(always)]
    pub fn leave(&self, state: usize) -> Option<Option<usize>>
        ensures { result ≡ row_says self.now.rows.items (calls.Leave state) }
    {
        read(self.row(state).leave)
    }

    /// The answer of blank strings.
    #[inline(always)]
    pub fn blank(&self, state: usize) -> Option<Option<usize>>
        ensures { result ≡ row_says self.now.rows.items (calls.Blank state) }
    {
        read(self.row(state).blank)
    }

    /// The answer of other strings.
    #[inline(always)]
    pub fn solid(&self, state: usize) -> Option<Option<usize>>
        ensures { result ≡ row_says self.now.rows.items (calls.Solid state) }
    {
        read(self.row(state).solid)
    }

    /// The answer of the start of an element, if it is in the state's block, as most are.
    #[inline(always)]
    pub fn entered_in_block(&self, state: usize, ns: usize, local: usize) -> Option<Option<usize>>
        ensures { IfSome result (BlockHolds self.now (calls.Enter state ns local)) }
    {
        let place = self.block_place(state);
        if !self.is_owned(place, state, ns) {
            return None;
        }
        match self.blocks.as_slice().get(place) {
            Some(block) => block.answer(local),
            None => None,
        }
    }

    /// The answer of the start of an element, if it is in its slot.
    pub fn entered_in_slot(&self, state: usize, ns: usize, local: usize) -> Option<Option<usize>>
        ensures { IfSome result (SlotHolds self.now.slots.items (calls.Enter state ns local)) }
    {
        self.at(ENTER, state, ns, local)
    }

    /// The answer of an attribute's blank values.
    #[inline(always)]
    pub fn blank_value(&self, state: usize, ns: usize, local: usize) -> Option<Option<usize>>
        ensures { IfSome result (SlotHolds self.now.slots.items (calls.BlankValue state ns local)) }
    {
        self.at(BLANK_VALUE, state, ns, local)
    }

    /// The answer of an attribute's other values.
    #[inline(always)]
    pub fn solid_value(&self, state: usize, ns: usize, local: usize) -> Option<Option<usize>>
        ensures { IfSome result (SlotHolds self.now.slots.items (calls.SolidValue state ns local)) }
    {
        self.at(SOLID_VALUE, state, ns, local)
    }

    /// A row for the state.
    pub fn make_row(&mut self, state: usize) -> Result<(), NoMemory>
        ensures rows { ReadAlike free_row self.old.rows.items self.new.rows.items }
        ensures slots { ReadAlike free_slot self.old.slots.items self.new.slots.items }
        ensures blocks { HoldNoMore self.old self.new }
        ensures room { OnOk result (state < length self.new.rows.items) }
    {
        lengthen(&mut self.rows, state, FREE_ROW)
    }

    /// The places of a call with a name: slots, and a block where an element starts in a state that has none.
    pub fn make_places(&mut self, call: &Asked) -> Result<(), NoMemory>
        ensures rows { ReadAlike free_row self.old.rows.items self.new.rows.items }
        ensures slots { ReadAlike free_slot self.old.slots.items self.new.slots.items }
        ensures blocks { HoldNoMore self.old self.new }
    {
        self.make_slots()?;
        if call.form() == ENTER && !self.has_block(call.state()) {
            self.make_block(call.state(), call.ns())?;
        }
        Ok(())
    }

    // The slots of calls with names.
    fn make_slots(&mut self) -> Result<(), NoMemory>
        ensures rows { ReadAlike free_row self.old.rows.items self.new.rows.items }
        ensures slots { ReadAlike free_slot self.old.slots.items self.new.slots.items }
        ensures blocks { HoldNoMore self.old self.new }
    {
        if self.slots.is_empty() {
            self.slots.reserve(SLOTS)?;
        }
        lengthen(&mut self.slots, SLOTS - 1, FREE_SLOT)
    }

    // A block of the state for this namespace, while there is room for one more.
    fn make_block(&mut self, state: usize, ns: usize) -> Result<(), NoMemory>
        ensures rows { ReadAlike free_row self.old.rows.items self.new.rows.items }
        ensures slots { ReadAlike free_slot self.old.slots.items self.new.slots.items }
        ensures blocks { HoldNoMore self.old self.new }
    {
        let place = self.owners.len();
        // owners never are fewer than blocks, since both grow here alone
        if place >= BLOCKS || place < self.blocks.len() {
            return Ok(());
        }
        let Some(owner) = Owner::of(state, ns) else {
            return Ok(());
        };
        lengthen(&mut self.places, state, 0)?;
        // so that no owner is without a block
        self.blocks.reserve(1)?;
        self.owners.push(owner)?;
        self.blocks.push_reserved(Block::new());
        if let Some(own) = self.places.get_mut(state) {
            // there are fewer blocks than 16 bits count
            *own = place as u16;
        }
        Ok(())
    }

    /// From now on nothing is in a slot or in a block.
    pub fn clear_named(&mut self)
        ensures rows { ReadAlike free_row self.old.rows.items self.new.rows.items }
        ensures slots { self.new.slots.items ≡ [] }
        ensures blocks { self.new.blocks.items ≡ [] }
    {
        self.slots.clear();
        self.owners.clear();
        self.blocks.clear();
    }

    /// From now on this number is in the row of the call's state.
    pub fn put_plain(&mut self, call: &Asked, number: u32)
        requires room { state_of call.now < length self.old.rows.items }
        requires plain { is_named call.now ≡ false }
        ensures rows { SayOneMore self.old.rows.items self.new.rows.items call.now number }
        ensures slots { ReadAlike free_slot self.old.slots.items self.new.slots.items }
        ensures blocks { HoldNoMore self.old self.new }
    {
        let state = call.state();
        let row = self.row(state).with(call, number);
        self.rows[state] = row;
    }

    /// From now on this number is in the block of the call's state, or in the call's slot.
    pub fn put_named(&mut self, call: &Asked, number: u32)
        ensures rows { ReadAlike free_row self.old.rows.items self.new.rows.items }
        ensures slots { (answer : Option ℕ) → said number ≡ Some answer
            → HoldOneMore self.old.slots.items self.new.slots.items call.now answer }
        ensures blocks { (answer : Option ℕ) → said number ≡ Some answer
            → HoldThisMore self.old self.new call.now answer }
    {
        if !self.put_in_block(call, number) {
            self.put_in_slot(call, number);
        }
    }

    // Puts a number in the block of the call's state, if it has a place there. Says whether it has.
    fn put_in_block(&mut self, call: &Asked, number: u32) -> bool
        ensures rows { ReadAlike free_row self.old.rows.items self.new.rows.items }
        ensures slots { ReadAlike free_slot self.old.slots.items self.new.slots.items }
        ensures blocks { (answer : Option ℕ) → said number ≡ Some answer
            → HoldThisMore self.old self.new call.now answer }
    {
        let place = self.block_place(call.state());
        if call.form() != ENTER || !self.is_owned(place, call.state(), call.ns()) {
            return false;
        }
        match self.blocks.get_mut(place) {
            Some(block) => block.put(call.local(), number),
            None => false,
        }
    }

    // Puts a number in the call's slot, if that is free: names that come often mostly come early.
    fn put_in_slot(&mut self, call: &Asked, number: u32)
        ensures rows { ReadAlike free_row self.old.rows.items self.new.rows.items }
        ensures slots { (answer : Option ℕ) → said number ≡ Some answer
            → HoldOneMore self.old.slots.items self.new.slots.items call.now answer }
        ensures blocks { HoldNoMore self.old self.new }
    {
        if let Some(slot) = Slot::of(call, number) {
            let place = place(call.form(), call.state(), call.local());
            if let Some(kept) = self.slots.get_mut(place) {
                if kept.answer == NOTHING {
                    *kept = slot;
                }
            }
        }
    }
}
