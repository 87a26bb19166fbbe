//! Start tags and empty-element tags.

ghost use Rattle.std.specs.Prelude.{◌≡◌, ◌+◌, ◌<◌, ◌≤◌, ◌^◌, ◌++◌, [], length, IfOk, OnOk, OnErr};
ghost use Rattle.nx_events.specs.Elements.{element_items, element_resolved};
ghost use Rattle.nx_events.specs.OpenItems.{open_items, kept_names};
ghost use Rattle.nx_events.specs.Tags.{start_name, tag_attributes};
ghost use Rattle.nx_events.specs.Runs.{run_back};
ghost use Rattle.nx_events.specs.SeenNames.{AreKept};
ghost use Rattle.nx_events.specs.Items.{token_span, is_behind, own_bindings, start_items, empty_items, opened, emptied};

use crate::character_fault::push_character_faults;
use crate::element::{element_resolved, push_attributes, push_element};
use crate::item::{Event, Item, Items};
use crate::namespace::declarations;
use crate::reading::Reading;
use crate::scope::{Bindings, SharedBinding};
use crate::stage::is_behind;
use crate::state::{EventState, push_run};
use crate::tag::{is_name_alone, start_name, tag_attributes};
use crate::tag_names::TagNames;
use crate::token_fault::token_span;
use nx_base::memory::NoMemory;
use nx_base::token::Token;
use std::alloc::Global;

// Adds the element of a tag that declares these pairs.
fn push_tag_element(
    alloc: Global,
    items: &mut Items,
    state: &EventState,
    token: &Token,
    own: &Bindings,
) -> Result<(), NoMemory>
    requires { token.now.from + length token.now.bytes < 2 ^ 64 }
    ensures { OnOk result (items.new ≡ items.old ++ element_items (token_span token.now)
        (element_resolved (is_behind state.now) (state.now.scope ++ own.now) (start_name token.now.bytes))) }
{
    let written = start_name(token.bytes.as_slice());
    let memory = items.spare_memory();
    let resolved = element_resolved(alloc, memory, is_behind(state), &state.scope, own, written)?;
    push_element(items, token_span(token), resolved)?;
    Ok(())
}

/// What a start tag declares, and the names that its attributes keep.
#[derive(Drop)]
pub(crate) struct Opening {
    pub(crate) own: Bindings,
    pub(crate) kept: TagNames,
}

/// Adds the items of a start tag as far as it is written, but for the run before it.
pub(crate) fn push_open(
    alloc: Global,
    items: &mut Items,
    state: &EventState,
    token: &Token,
) -> Result<Opening, NoMemory>
    requires { token.now.from + length token.now.bytes < 2 ^ 64 }
    ensures items { OnOk result (items.new ≡ open_items items.old state.now token.now) }
    ensures own { IfOk result (λ opening. opening.own ≡ own_bindings token.now) }
    ensures kept { IfOk result (λ opening. AreKept opening.kept.names.keys
        (kept_names (state.now.scope ++ own_bindings token.now) [] (tag_attributes token.now.from token.now.bytes))) }
{
    let bytes = token.bytes.as_slice();
    push_character_faults(items, Reading::Value, token.from, bytes)?;
    let attributes = tag_attributes(alloc, token.from, bytes)?;
    let own = declarations(alloc, items, attributes.as_slice())?;
    push_tag_element(alloc, items, state, token, &own)?;
    let kept = push_attributes(alloc, items, &state.scope, &own, attributes.as_slice())?;
    Ok(Opening { own, kept })
}

// Adds the items of a start tag as far as `push_open` does, and answers the pairs that it declares. Most tags have no attributes: they
// need none of the lists that those are gathered in.
fn push_declaring(
    alloc: Global,
    items: &mut Items,
    state: &EventState,
    token: &Token,
) -> Result<Bindings, NoMemory>
    requires { token.now.from + length token.now.bytes < 2 ^ 64 }
    ensures items { OnOk result (items.new ≡ open_items items.old state.now token.now) }
    ensures own { IfOk result (λ own. own ≡ own_bindings token.now) }
{
    let bytes = token.bytes.as_slice();
    if !is_name_alone(bytes) {
        let opening = push_open(alloc, items, state, token)?;
        return Ok(opening.own);
    }
    let own = Bindings::new(alloc);
    push_character_faults(items, Reading::Value, token.from, bytes)?;
    push_tag_element(alloc, items, state, token, &own)?;
    Ok(own)
}

// Adds the items of a start tag, and answers the pairs that it declares.
#[tactic(auto, unfolding(crate::specs::Items::start_items))]
pub(crate) fn push_start(
    alloc: Global,
    items: &mut Items,
    state: &EventState,
    token: &Token,
) -> Result<Bindings, NoMemory>
    requires place { run_back state.now.run ≤ token.now.from }
    requires room { token.now.from + length token.now.bytes < 2 ^ 64 }
    ensures items { OnOk result (items.new ≡ items.old ++ start_items state.now token.now) }
    ensures pairs { IfOk result (λ own. own ≡ own_bindings token.now) }
{
    push_run(items, token.from, &state.run)?;
    let own = push_declaring(alloc, items, state, token)?;
    items.push(Item::Event(Event::TagEnd, token_span(token)))?;
    Ok(own)
}

// The state inside of an element that declares these pairs.
pub(crate) fn open(
    state: &mut EventState,
    token: &Token,
    own: &[SharedBinding],
) -> Result<(), NoMemory>
    requires { own.now ≡ own_bindings token.now }
    ensures ok { OnOk result (state.new ≡ opened state.old token.now) }
    ensures err { OnErr result (state.new ≡ state.old) }
{
    let depth = state.elements.len();
    let outer = state.scope.len();
    state
        .elements
        .open_element(start_name(token.bytes.as_slice()), outer)?;
    if state.scope.append(own).is_err() {
        state.elements.shorten(depth);
        return Err(NoMemory);
    }
    state.came = true;
    state.started = true;
    state.run.end();
    Ok(())
}

/// Adds the items of an empty-element tag.
#[tactic(auto, unfolding(crate::specs::Items::empty_items))]
pub(crate) fn push_empty(
    alloc: Global,
    items: &mut Items,
    state: &EventState,
    token: &Token,
) -> Result<(), NoMemory>
    requires place { run_back state.now.run ≤ token.now.from }
    requires room { token.now.from + length token.now.bytes < 2 ^ 64 }
    ensures { OnOk result (items.new ≡ items.old ++ empty_items state.now token.now) }
{
    push_start(alloc, items, state, token)?;
    items.push(Item::Event(Event::Leave, token_span(token)))?;
    Ok(())
}

/// The state behind an empty-element tag.
pub(crate) fn empty(state: &mut EventState)
    ensures { state.new ≡ emptied state.old }
{
    state.came = true;
    state.started = true;
    state.run.end();
}
