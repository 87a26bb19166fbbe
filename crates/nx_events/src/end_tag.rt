//! End tags.

ghost use Rattle.std.specs.Prelude.{◌≡◌, ◌+◌, ◌<◌, ◌≤◌, ◌^◌, ◌++◌, length, take, Some, OnOk, OnErr};
ghost use Rattle.nx_events.specs.Tags.{end_name};
ghost use Rattle.nx_events.specs.Runs.{run_back};
ghost use Rattle.nx_events.specs.Items.{extra_end_items, closing_items, end_items, around_innermost, closed, element_ended, outer_of_first};

use crate::flaw::Flaw;
use crate::item::{Event, Item, Items};
use crate::namespace::push_flaw;
use crate::nesting::{around_innermost, push_all_left_out};
use crate::stage::pass;
use crate::state::{EventState, OpenElement, push_run};
use crate::tag::{copy_of, end_name};
use crate::token_fault::token_span;
use nx_base::detail::Detail;
use nx_base::fault::Kind;
use nx_base::memory::NoMemory;
use nx_base::token::Token;
use std::alloc::Global;

// Adds the item of an end tag that names no open element.
fn push_extra(alloc: Global, items: &mut Items, token: &Token) -> Result<(), NoMemory>
    requires { token.now.from + length token.now.bytes < 2 ^ 64 }
    ensures { OnOk result (items.new ≡ items.old ++ extra_end_items token.now) }
{
    let detail = Detail::of(copy_of(alloc, end_name(token.bytes.as_slice()))?)?;
    let flaw = Flaw {
        kind: Kind::ExtraEnd,
        detail,
    };
    push_flaw(items, token_span(token), flaw)?;
    Ok(())
}

// Adds the items of an end tag for the element behind n others.
fn push_closing(
    items: &mut Items,
    state: &EventState,
    token: &Token,
    n: usize,
) -> Result<(), NoMemory>
    requires inside { n < length state.now.elements }
    requires place { run_back state.now.run ≤ token.now.from }
    requires room { token.now.from + length token.now.bytes < 2 ^ 64 }
    ensures { OnOk result (items.new ≡ items.old ++ closing_items state.now token.now (Some n)) }
{
    push_run(items, token.from, &state.run)?;
    let span = token_span(token);
    let inside = &state.elements.as_slice()[n + 1..];
    push_all_left_out(items, Kind::MissingEnd, span, inside)?;
    items.push(Item::Event(Event::Leave, span))?;
    Ok(())
}

// How many pairs are declared around the first of these elements.
fn outer_of_first(elements: &[OpenElement]) -> usize
    ensures { result ≡ outer_of_first elements.now }
{
    match elements {
        [] => 0,
        [first, ..] => first.outer,
    }
}

/// The state behind the end of the element behind n others, whichever token ends it.
pub(crate) fn close(state: &mut EventState, n: usize)
    requires { n < length state.old.elements }
    ensures { state.new ≡ element_ended state.old n }
{
    let outer = outer_of_first(&state.elements.as_slice()[n..]);
    state.elements.shorten(n);
    state.scope.shorten(outer);
    state.came = true;
    state.run.end();
}

/// Adds the items of an end tag.
#[tactic(auto, unfolding(crate::specs::Items::end_items))]
pub(crate) fn push_end(
    alloc: Global,
    items: &mut Items,
    state: &EventState,
    token: &Token,
) -> Result<(), NoMemory>
    requires place { run_back state.now.run ≤ token.now.from }
    requires room { token.now.from + length token.now.bytes < 2 ^ 64 }
    ensures { OnOk result (items.new ≡ items.old ++ end_items state.now token.now) }
{
    let name = end_name(token.bytes.as_slice());
    match around_innermost(name, &state.elements) {
        None => push_extra(alloc, items, token)?,
        Some(n) => push_closing(items, state, token, n)?,
    }
    Ok(())
}

/// The state behind an end tag.
pub(crate) fn end(state: &mut EventState, token: &Token)
    requires { run_back state.old.run + length token.now.bytes < 2 ^ 64 }
    ensures { state.new ≡ closed state.old token.now (around_innermost (end_name token.now.bytes) state.old.elements) }
{
    let name = end_name(token.bytes.as_slice());
    match around_innermost(name, &state.elements) {
        None => pass(state, token),
        Some(n) => close(state, n),
    }
}
