//! The items of a text gone over, one after another: where its first fault is, how many elements are open, and the elements that are
//! put together.
//!
//! Of most tokens one look tells what they give (`plain`). The items of one of the others are held at a time. Each name among them holds
//! its namespace, which may be long, and most may be passed over.

ghost use Rattle.std.specs.Prelude.{◌≡◌, ◌<◌, ◌≤◌, ◌+◌, ◌^◌, nat_lt, length, option_copied, OnOk};
ghost use Rattle.nx_base.specs.Tokens.{AreTokensOf};
ghost use Rattle.nx_events.specs.Items.{items_of, items_of_token, state_behind};
ghost use Rattle.nx_events.specs.Runs.{run_back};
ghost use Rattle.rngx_read.specs.PlainWalking.{begun, attributed, run_ended, ended};
ghost use Rattle.rngx_read.specs.Marking.{begin_of, fault_place};
ghost use Rattle.rngx_read.specs.Reads.{open_with};
ghost use Rattle.rngx_read.specs.Walking.{walked_of, at_start, behind_one, behind_all, IsSteady, Yields};

use crate::build::Builder;
use crate::element::Element;
use crate::plain::{Memory, pass_plain};
use crate::read::XReadFault;
use nx_base::memory::NoMemory;
use nx_base::name::{Name, Names};
use nx_base::token::Token;
use nx_events::item::{Event, Item};
use nx_events::plain_opening::PlainAttribute;
use nx_events::reader::{begin, finish, pass_token, read};
use nx_events::state::EventState;
use std::alloc::Global;

/// How many elements may be open at once.
const MOST_ELEMENTS: usize = 200;

/// How far the items of a text are gone over.
#[derive(Drop)]
pub(crate) struct Walk {
    /// Where the first fault begins.
    fault: Option<usize>,
    /// The place of the tag that opens the 201st of the elements that are open at once. Behind it nothing is put together.
    too_deep: Option<usize>,
    /// How many elements are open.
    depth: usize,
    builder: Builder,
}

/// Where the fault begins that an item is.
fn fault_at(item: &Item) -> Option<usize>
    ensures { result ≡ fault_place item.now }
{
    match item {
        Item::Event(_, _) => None,
        Item::Fault(fault) => Some(fault.span.from),
    }
}

/// Where an item begins.
fn begins_at(item: &Item) -> usize
    ensures { result ≡ begin_of item.now }
{
    match item {
        Item::Event(_, span) => span.from,
        Item::Fault(fault) => fault.span.from,
    }
}

/// How many elements are open behind an item, where so many are open before it.
fn open_behind(before: usize, item: &Item) -> usize
    requires { before < 201 }
    ensures { result ≡ open_with before item.now }
{
    match item {
        Item::Event(Event::Enter(_), _) | Item::Event(Event::EnterLost, _) => before + 1,
        Item::Event(Event::Leave, _) => before.saturating_sub(1),
        Item::Event(Event::Att(_, _), _)
        | Item::Event(Event::TagEnd, _)
        | Item::Event(Event::Chars(_), _)
        | Item::Fault(_) => before,
    }
}

/// Whether so many elements are more than may be open at once.
fn is_too_many(depth: usize) -> bool
    ensures { result ≡ nat_lt 200 depth }
{
    depth > MOST_ELEMENTS
}

impl Walk {
    /// Nothing is gone over, and these are the own declarations of the tags that come.
    fn new(alloc: Global, declared: Vec<Names>) -> Walk
        ensures { walked_of result ≡ at_start declared.items }
    {
        Walk {
            fault: None,
            too_deep: None,
            depth: 0,
            builder: Builder::new(alloc, declared),
        }
    }

    /// One more item.
    fn add(&mut self, item: &Item) -> Result<(), NoMemory>
        requires { IsSteady (walked_of self.old) }
        ensures { OnOk result (walked_of self.new ≡ behind_one item.now (walked_of self.old)) }
    {
        self.fault = self.fault.or(fault_at(item));
        if self.too_deep.is_some() {
            return Ok(());
        }
        let depth = open_behind(self.depth, item);
        if is_too_many(depth) {
            self.too_deep = Some(begins_at(item));
            return Ok(());
        }
        self.depth = depth;
        self.builder.add(item)
    }

    /// An element of this name begins, whose tag stands at the place.
    pub(crate) fn begin(&mut self, name: &Name, at: usize) -> Result<(), NoMemory>
        requires { IsSteady (walked_of self.old) }
        ensures { OnOk result (walked_of self.new ≡ begun name.now at (walked_of self.old)) }
    {
        if self.too_deep.is_some() {
            return Ok(());
        }
        let depth = self.depth + 1;
        if is_too_many(depth) {
            self.too_deep = Some(at);
            return Ok(());
        }
        self.depth = depth;
        self.builder.enter(name, at)
    }

    /// The innermost element has this attribute.
    pub(crate) fn attribute(&mut self, attribute: &PlainAttribute<'_>) -> Result<(), NoMemory>
        ensures { OnOk result (walked_of self.new ≡ attributed attribute.now (walked_of self.old)) }
    {
        if self.too_deep.is_some() {
            return Ok(());
        }
        self.builder.plain_attribute(attribute)
    }

    /// A string stands in the innermost element, or none does.
    pub(crate) fn end_run(&mut self, string: Option<&[u8]>) -> Result<(), NoMemory>
        ensures { OnOk result (walked_of self.new ≡ run_ended (option_copied string.entry) (walked_of self.old)) }
    {
        let Some(text) = string else {
            return Ok(());
        };
        if self.too_deep.is_some() {
            return Ok(());
        }
        self.builder.string(text)
    }

    /// The innermost element ends.
    pub(crate) fn end(&mut self) -> Result<(), NoMemory>
        ensures { OnOk result (walked_of self.new ≡ ended (walked_of self.old)) }
    {
        if self.too_deep.is_some() {
            return Ok(());
        }
        self.depth = self.depth.saturating_sub(1);
        self.builder.leave()
    }

    /// The elements of the schema that stand outside of all others, or why the text has none.
    fn elements(self) -> Result<Vec<Element>, XReadFault>
        ensures { Yields (walked_of self) result }
    {
        let Walk {
            fault,
            too_deep,
            builder,
            ..
        } = self;
        if let Some(at) = fault {
            return Err(XReadFault::BadMarkup(at));
        }
        if let Some(at) = too_deep {
            return Err(XReadFault::TooDeep(at));
        }
        Ok(builder.into_elements())
    }
}

/// Goes over these items, in order.
fn add_all(walk: &mut Walk, items: &[Item]) -> Result<(), NoMemory>
    requires { IsSteady (walked_of walk.old) }
    ensures { OnOk result (walked_of walk.new ≡ behind_all items.now (walked_of walk.old)) }
{
    let mut rest = items;
    'items: while let Some((item, behind)) = rest.split_first() {
        walk.add(item)?;
        rest = behind;
    }
    Ok(())
}

/// Goes over the items of one more token, and brings the state behind it.
fn take(
    alloc: Global,
    walk: &mut Walk,
    memory: &mut Memory,
    state: &mut EventState,
    token: &Token,
) -> Result<(), NoMemory>
    requires place { run_back state.old.run ≤ token.now.from }
    requires room { token.now.from + length token.now.bytes < 2 ^ 64 }
    requires steady { IsSteady (walked_of walk.old) }
    ensures walk { OnOk result (walked_of walk.new ≡ behind_all (items_of_token state.old token.now) (walked_of walk.old)) }
    ensures state { OnOk result (state.new ≡ state_behind state.old token.now) }
{
    if pass_plain(alloc, walk, memory, state, token)? {
        return Ok(());
    }
    memory.items.clear();
    let declared = read(alloc, &mut memory.items, state, token)?;
    pass_token(alloc, state, token, &declared)?;
    add_all(walk, memory.items.as_slice())
}

/// Goes over the items of a text of `len` bytes that is cut into these tokens.
fn go_over(alloc: Global, walk: &mut Walk, tokens: &[Token], len: usize) -> Result<(), NoMemory>
    requires tokens { AreTokensOf len tokens.now }
    requires steady { IsSteady (walked_of walk.old) }
    ensures { OnOk result (walked_of walk.new ≡ behind_all (items_of tokens.now len) (walked_of walk.old)) }
{
    let mut state = begin(alloc)?;
    let mut memory = Memory::new(alloc);
    for token in tokens {
        take(alloc, walk, &mut memory, &mut state, token)?;
    }
    let last = finish(alloc, &state, len)?;
    add_all(walk, last.as_slice())
}

/// The elements of the schema that stand outside of all others, in a text of `len` bytes that is cut into these tokens. The own
/// declarations of its tags stand in order. There are none where the text has a fault, or nests too deep.
pub(crate) fn elements_of(
    alloc: Global,
    tokens: &[Token],
    declared: Vec<Names>,
    len: usize,
) -> Result<Vec<Element>, XReadFault>
    requires { AreTokensOf len tokens.now }
    ensures { Yields (behind_all (items_of tokens.now len) (at_start declared.items)) result }
{
    let mut walk = Walk::new(alloc, declared);
    go_over(alloc, &mut walk, tokens, len)?;
    walk.elements()
}
