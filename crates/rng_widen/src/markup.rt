//! What is put to something wider in a schema file in the XML syntax.

ghost use Rattle.std.specs.Prelude.{◌≡◌, ◌+◌, IfOk, OnOk};
ghost use Rattle.nx_base.specs.Tokens.{AreTokensOf};
ghost use Rattle.nx_events.specs.Items.{items_of};
ghost use Rattle.rng_widen.specs.MarkupViews.{walked_of};
ghost use Rattle.rng_widen.specs.MarkupWidenings.{at_start, entered_by, opened, attribute_by, attribute_if, tag_ended_by, kept, left_by};
ghost use Rattle.rng_widen.specs.MarkupWidenings.{behind_item, behind_items, found_in, widenings_in};

use crate::compact::add;
use crate::open_element::{
    OpenElement, around_all, counted, entered, facet_widening, type_widening, with_attribute,
    with_child, with_foreign_child, with_param,
};
use crate::widening::Widening;
use nx_base::fault::Span;
use nx_base::memory::NoMemory;
use nx_base::name::Name;
use nx_base::sequence::Bytes;
use nx_base::token::Token;
use nx_events::item::{Event, Item};
use nx_events::reader::{begin, finish, take};
use std::alloc::Global;

/// The namespace of schemas.
const SCHEMA_NAMESPACE: &[u8] = b"http://relaxng.org/ns/structure/1.0";

/// How far the events of a text are gone over.
#[derive(Drop)]
struct Walk {
    alloc: Global,
    /// The innermost open element of the schema.
    inner: OpenElement,
    /// Those around it, the innermost last.
    outer: Vec<OpenElement>,
    /// How many elements are open that are passed over.
    passed: usize,
    found: Vec<Widening>,
    /// Whether there was a fault.
    faulty: bool,
}

impl Walk {
    /// Nothing is gone over.
    fn new(alloc: Global) -> Walk
        ensures { walked_of result ≡ at_start }
    {
        Walk {
            alloc,
            inner: around_all(),
            outer: Vec::new(alloc),
            passed: 0,
            found: Vec::new(alloc),
            faulty: false,
        }
    }

    /// An element begins at a place.
    fn enter(&mut self, name: &Name, from: usize) -> Result<(), NoMemory>
        ensures { OnOk result (walked_of self.new ≡ entered_by self.old.passed name.now from (walked_of self.old)) }
    {
        if self.passed > 0 {
            return self.enter_passed();
        }
        if name.ns.as_slice() == SCHEMA_NAMESPACE {
            return self.open(name, from);
        }
        self.inner = with_foreign_child(self.inner);
        self.passed = 1;
        Ok(())
    }

    /// An element begins in what is passed over.
    fn enter_passed(&mut self) -> Result<(), NoMemory>
        ensures { OnOk result (walked_of self.new ≡ record (walked_of self.old) { passed = self.old.passed + 1 }) }
    {
        match self.passed.checked_add(1) {
            Some(more) => {
                self.passed = more;
                Ok(())
            }
            None => Err(NoMemory),
        }
    }

    /// An element of the schema begins at a place.
    #[tactic(auto, using(crate::proofs::MarkupLoops::reversed_more))]
    fn open(&mut self, name: &Name, from: usize) -> Result<(), NoMemory>
        ensures { OnOk result (walked_of self.new ≡ opened name.now from (walked_of self.old)) }
    {
        let local = name.local.as_slice();
        self.outer.push(with_child(self.inner, local))?;
        self.inner = entered(self.inner, local, from);
        Ok(())
    }

    /// The innermost element has this attribute, whose value stands at a place.
    fn attribute(&mut self, name: &Name, value: &Bytes, at: Span)
        ensures { walked_of self.new ≡ attribute_by self.old.passed name.now value.now at (walked_of self.old) }
    {
        if self.passed > 0 || !name.ns.is_empty() {
            return;
        }
        self.inner = with_attribute(self.inner, name.local.as_slice(), value.as_slice(), at);
    }

    /// A start tag ends.
    fn end_tag(&mut self) -> Result<(), NoMemory>
        ensures { OnOk result (walked_of self.new ≡ tag_ended_by self.old.passed (walked_of self.old)) }
    {
        if self.passed > 0 {
            return Ok(());
        }
        let found = type_widening(self.alloc, self.inner)?;
        self.inner = counted(self.inner, self.found.len());
        add(&mut self.found, found)
    }

    /// The innermost element ends at a place.
    fn leave(&mut self, to: usize) -> Result<(), NoMemory>
        ensures { OnOk result (walked_of self.new ≡ left_by self.old.passed to (walked_of self.old)) }
    {
        if self.passed > 0 {
            self.passed -= 1;
            return Ok(());
        }
        let Some(around) = self.outer.pop() else {
            return Ok(());
        };
        let found = facet_widening(self.alloc, around, self.inner, to);
        self.keep();
        self.inner = with_param(around, self.inner);
        add(&mut self.found, found)
    }

    /// What was found in the innermost element is forgotten, if a facet is alien to its type.
    fn keep(&mut self)
        ensures { walked_of self.new ≡ record (walked_of self.old) { found = kept self.old.inner self.old.found.items } }
    {
        if self.inner.alien {
            self.found.truncate(self.inner.before);
        }
    }

    /// One more event or fault.
    fn add(&mut self, item: &Item) -> Result<(), NoMemory>
        ensures { OnOk result (walked_of self.new ≡ behind_item item.now (walked_of self.old)) }
    {
        match item {
            Item::Event(Event::Enter(name), span) => self.enter(name, span.from),
            Item::Event(Event::Att(name, value), span) => {
                self.attribute(name, value, *span);
                Ok(())
            }
            Item::Event(Event::TagEnd, _) => self.end_tag(),
            Item::Event(Event::Leave, span) => self.leave(span.to),
            Item::Event(Event::EnterLost, _) | Item::Event(Event::Chars(_), _) => Ok(()),
            Item::Fault(_) => {
                self.faulty = true;
                Ok(())
            }
        }
    }

    /// What is put to something wider.
    fn into_found(self) -> Vec<Widening>
        ensures { result.items ≡ found_in (walked_of self) }
    {
        let Walk {
            alloc,
            found,
            faulty,
            ..
        } = self;
        if faulty { Vec::new(alloc) } else { found }
    }
}

/// Goes over these items, in order.
fn add_all(walk: &mut Walk, items: &[Item]) -> Result<(), NoMemory>
    ensures { OnOk result (walked_of walk.new ≡ behind_items items.now (walked_of walk.old)) }
{
    let mut rest = items;
    'items: while let Some((item, behind)) = rest.split_first() {
        walk.add(item)?;
        rest = behind;
    }
    Ok(())
}

/// Goes over the items of a text of `len` bytes that is cut into these tokens.
fn go_over(alloc: Global, walk: &mut Walk, tokens: &[Token], len: usize) -> Result<(), NoMemory>
    requires { AreTokensOf len tokens.now }
    ensures { OnOk result (walked_of walk.new ≡ behind_items (items_of tokens.now len) (walked_of walk.old)) }
{
    let mut state = begin(alloc)?;
    for token in tokens {
        let items = take(alloc, &mut state, token)?;
        add_all(walk, items.as_slice())?;
    }
    let items = finish(alloc, &state, len)?;
    add_all(walk, items.as_slice())
}

/// What is put to something wider in a text of `len` bytes that is cut into these tokens.
#[tactic(auto, unfolding(crate::specs::MarkupWidenings::widenings_in))]
pub(crate) fn widenings_in(
    alloc: Global,
    tokens: &[Token],
    len: usize,
) -> Result<Vec<Widening>, NoMemory>
    requires { AreTokensOf len tokens.now }
    ensures { IfOk result (λ all. all.items ≡ widenings_in (items_of tokens.now len)) }
{
    let mut walk = Walk::new(alloc);
    go_over(alloc, &mut walk, tokens, len)?;
    Ok(walk.into_found())
}
