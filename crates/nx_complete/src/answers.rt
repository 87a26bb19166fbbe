//! The answer to what is being written.

ghost use Rattle.std.specs.Prelude.{◌≡◌, ◌-◌, ◌<◌, ◌≤◌, length, take, IfOk, IsUtf8};
ghost use Rattle.nx_base.specs.Tokens.{end_of};
ghost use Rattle.nx_events.specs.Texts.{ItemsAreText, StateIsText, EventIsText};
ghost use Rattle.nx_events.specs.Prefixes.{run_string};
ghost use Rattle.nx_recover.specs.Items.{form_along};
ghost use Rattle.nx_recover.specs.Offered.{attributes_among};
ghost use Rattle.nx_recover.specs.States.{AreStates, view_of, form};
ghost use Rattle.nx_complete.specs.Answering.{ElementAnswer, EndAnswer, AttributeAnswer, ValueAnswer, PrefixAnswer, PrefixIsText, run_event, IsAnswer};

use crate::names::offer_names;
use crate::naming::Naming;
use crate::values::{offer_end, offer_values};
use nx_base::fault::Span;
use nx_base::memory::NoMemory;
use nx_base::name::{Name, Names};
use nx_base::offer::Offers;
use nx_base::sequence::{Bytes, Sequence, TryCopy};
use nx_base::token::Token;
use nx_events::item::{Event, Item, Items};
use nx_events::prefix::{TagPrefix, run_of, tag_prefix};
use nx_events::state::EventState;
use nx_recover::ahead::take_items;
use nx_recover::levels::Levels;
use nx_recover::state::RecoverState;
use rng_live::matcher::Matcher;
use std::alloc::Global;

// Where an element's name is being written.
fn element_answer<M: Matcher>(
    alloc: Global,
    matcher: &mut M,
    levels: &Levels<M::State>,
) -> Result<Offers, NoMemory>
    requires { AreStates (M.is_state matcher.old) (view_of levels.now) }
    ensures later { M.later matcher.old matcher.new }
    ensures answer { IfOk result (ElementAnswer (M.language matcher.old) (form (M.means matcher.old) (view_of levels.now))) }
{
    match &levels.here {
        None => Ok(Offers::Nowhere),
        Some(here) => {
            let offers = offer_names(alloc, matcher, here, &Naming::Element)?;
            Ok(Offers::List(offers))
        }
    }
}

// Where the name of an end tag is being written.
fn end_answer<M: Matcher>(
    alloc: Global,
    matcher: &mut M,
    levels: &Levels<M::State>,
    written: Bytes,
) -> Result<Offers, NoMemory>
    requires { AreStates (M.is_state matcher.old) (view_of levels.now) }
    ensures later { M.later matcher.old matcher.new }
    ensures answer { IfOk result (EndAnswer written (form (M.means matcher.old) (view_of levels.now))) }
{
    match &levels.here {
        None => Ok(Offers::Nowhere),
        Some(here) => {
            if levels.elements.as_slice().is_empty() {
                return Ok(Offers::List(Sequence::new(alloc)));
            }
            let offers = offer_end(alloc, matcher, here, written)?;
            Ok(Offers::List(offers))
        }
    }
}

/// The names of the attributes among items.
pub fn attributes_among(alloc: Global, items: &[Item]) -> Result<Names, NoMemory>
    ensures { IfOk result (λ names. names ≡ attributes_among items.now) }
{
    let mut names = Vec::new(alloc);
    let mut left = items;
    while let Some((item, rest)) = left.split_first() {
        if let Item::Event(Event::Att(name, _), _) = item {
            names.push(name.copy()?)?;
        }
        left = rest;
    }
    Ok(Sequence::from_vec(names))
}

// Where an attribute's name is being written, behind these items of its tag.
fn attribute_answer<M: Matcher>(
    alloc: Global,
    matcher: &mut M,
    state: &mut RecoverState<M::State>,
    own: Items,
) -> Result<Offers, NoMemory>
    requires states { AreStates (M.is_state matcher.old) (view_of state.old.levels) }
    requires text { ItemsAreText own }
    ensures later { M.later matcher.old matcher.new }
    ensures answer { IfOk result (AttributeAnswer (M.language matcher.old) own (form (M.means matcher.old) (view_of state.old.levels))) }
{
    if state.levels.here.is_none() {
        return Ok(Offers::Nowhere);
    }
    let others = attributes_among(alloc, own.as_slice())?;
    take_items(alloc, matcher, state, &own)?;
    match &state.levels.here {
        None => Ok(Offers::Nowhere),
        Some(here) => {
            let offers = offer_names(alloc, matcher, here, &Naming::Attribute(others))?;
            Ok(Offers::List(offers))
        }
    }
}

// Where the value of an attribute is being written, behind these items of its tag.
fn value_answer<M: Matcher>(
    alloc: Global,
    matcher: &mut M,
    state: &mut RecoverState<M::State>,
    own: Items,
    name: Option<Name>,
) -> Result<Offers, NoMemory>
    requires states { AreStates (M.is_state matcher.old) (view_of state.old.levels) }
    requires text { ItemsAreText own }
    ensures later { M.later matcher.old matcher.new }
    ensures answer { IfOk result (ValueAnswer (M.language matcher.old) own name (form (M.means matcher.old) (view_of state.old.levels))) }
{
    if state.levels.here.is_none() {
        return Ok(Offers::Nowhere);
    }
    take_items(alloc, matcher, state, &own)?;
    match &state.levels.here {
        None => Ok(Offers::Nowhere),
        Some(here) => {
            let offers = offer_values(alloc, matcher, here, &name)?;
            Ok(Offers::List(offers))
        }
    }
}

// By what is being written.
fn prefix_answer<M: Matcher>(
    alloc: Global,
    matcher: &mut M,
    state: &mut RecoverState<M::State>,
    prefix: TagPrefix,
) -> Result<Offers, NoMemory>
    requires states { AreStates (M.is_state matcher.old) (view_of state.old.levels) }
    requires text { PrefixIsText prefix }
    ensures later { M.later matcher.old matcher.new }
    ensures answer { IfOk result (PrefixAnswer (M.language matcher.old) (form (M.means matcher.old) (view_of state.old.levels)) prefix) }
{
    match prefix {
        TagPrefix::ElementName => element_answer(alloc, matcher, &state.levels),
        TagPrefix::EndName(written) => end_answer(alloc, matcher, &state.levels, written),
        TagPrefix::AttributeName(own) => attribute_answer(alloc, matcher, state, own),
        TagPrefix::AttributeValue(own, name) => value_answer(alloc, matcher, state, own, name),
        TagPrefix::Elsewhere => Ok(Offers::Nowhere),
    }
}

/// The pending run as an event, if there is one.
pub fn run_event(alloc: Global, events: &EventState) -> Result<Items, NoMemory>
    requires { StateIsText events.now }
    ensures event { IfOk result (λ items. items ≡ run_event events.now.run) }
    ensures text { IfOk result ItemsAreText }
{
    let mut items = Items::new(alloc);
    if let Some(string) = run_of(events)? {
        items.push(Item::Event(Event::Chars(string), Span { from: 0, to: 0 }))?;
    }
    Ok(items)
}

// The bytes of a token in front of a place.
fn bytes_before(alloc: Global, token: &Token, at: usize) -> Result<Bytes, NoMemory>
    requires begun { token.now.from < at }
    requires inside { at ≤ end_of token.now }
    ensures { IfOk result (λ bytes. bytes ≡ take (at - token.now.from) token.now.bytes) }
{
    let bytes = Vec::from_slice(alloc, &token.bytes.as_slice()[..at - token.from])?;
    Ok(Sequence::from_vec(bytes))
}

/// The answer at a place that this token holds the byte in front of.
pub(crate) fn answer<M: Matcher>(
    alloc: Global,
    matcher: &mut M,
    state: &mut RecoverState<M::State>,
    token: &Token,
    at: usize,
) -> Result<Offers, NoMemory>
    requires states { AreStates (M.is_state matcher.old) (view_of state.old.levels) }
    requires text { StateIsText state.old.events }
    requires begun { token.now.from < at }
    requires inside { at ≤ end_of token.now }
    requires utf8 { IsUtf8 (take (at - token.now.from) token.now.bytes) }
    ensures later { M.later matcher.old matcher.new }
    ensures answer { IfOk result (IsAnswer (M.language matcher.old) (form (M.means matcher.old) (view_of state.old.levels))
        state.old.events (take (at - token.now.from) token.now.bytes)) }
{
    let bytes = bytes_before(alloc, token, at)?;
    if bytes.as_slice()[0] != b'<' {
        return Ok(Offers::Nowhere);
    }
    let prefix = tag_prefix(alloc, &state.events, &bytes)?;
    let run = run_event(alloc, &state.events)?;
    take_items(alloc, matcher, state, &run)?;
    prefix_answer(alloc, matcher, state, prefix)
}
