//! The text of events behind a state of the reading of a text.

ghost use Rattle.std.specs.Prelude.{◌≡◌, [], ◌∷◌, ◌++◌, length, IfOk, OnOk};
ghost use Rattle.nx_base.specs.Trees.{AreWritable};
ghost use Rattle.rng_fill.specs.Moves.{events_of};
ghost use Rattle.nx_events.specs.Items.{own_bindings};
ghost use Rattle.nx_events.specs.Prefixes.{as_token};
ghost use Rattle.nx_events.specs.Tags.{start_name};
ghost use Rattle.nx_written.specs.Written.{IsRestText, IsBegunText};

use crate::declaration::Declaration;
use crate::open_tag::OpenTag;
use crate::writer::{write_attributes, write_rest};
use nx_base::memory::NoMemory;
use nx_base::sequence::{Bytes, TryCopy};
use nx_events::in_force::{bindings, open_elements};
use nx_events::prefix::declared_so_far;
use nx_events::scope::SharedBinding;
use nx_events::start_name;
use nx_events::state::{EventState, OpenElement};
use rng_fill::moves::Move;
use std::alloc::Global;

/// An open element, with a copy of its name.
fn tag_of(alloc: Global, element: &OpenElement) -> Result<OpenTag, NoMemory>
    ensures { IfOk result (λ tag. tag ≡ element.now) }
{
    let written = Vec::from_slice(alloc, element.written.as_slice())?;
    Ok(OpenTag::new(Bytes::from_vec(written), element.outer))
}

/// The open elements, each with a copy of its name.
fn tags_of(alloc: Global, elements: &[OpenElement]) -> Result<Vec<OpenTag>, NoMemory>
    ensures { IfOk result (λ tags. tags.items ≡ elements.now) }
{
    let mut tags = Vec::new(alloc);
    let mut rest = elements;
    'elements: while let Some((first, behind)) = rest.split_first() {
        tags.push(tag_of(alloc, first)?)?;
        rest = behind;
    }
    Ok(tags)
}

/// Adds copies of pairs.
fn push_pairs(scope: &mut Vec<Declaration>, pairs: &[SharedBinding]) -> Result<(), NoMemory>
    ensures { OnOk result (scope.new.items ≡ scope.old.items ++ pairs.now) }
{
    let mut rest = pairs;
    'pairs: while let Some((first, behind)) = rest.split_first() {
        let pair = first.get();
        scope.push(Declaration::new(pair.prefix.copy()?, pair.uri.copy()?))?;
        rest = behind;
    }
    Ok(())
}

/// The text of events inside of the elements that are open in a state, as `write_rest` gives it.
pub fn write_inside(alloc: Global, state: &EventState, events: &[Move]) -> Result<Bytes, NoMemory>
    requires { AreWritable (events_of events.now) }
    ensures { IfOk result (IsRestText state.now.elements state.now.scope (events_of events.now)) }
{
    let tags = tags_of(alloc, open_elements(state))?;
    let mut scope = Vec::new(alloc);
    push_pairs(&mut scope, bindings(state))?;
    let text = write_rest(alloc, tags, scope, events)?;
    Ok(text)
}

/// The text of events that go on behind the white space of a start tag that is begun inside of those elements, as `write_attributes` gives
/// it.
pub fn write_in_tag(
    alloc: Global,
    state: &EventState,
    tag: &[u8],
    events: &[Move],
) -> Result<Bytes, NoMemory>
    requires { AreWritable (events_of events.now) }
    ensures { IfOk result (IsBegunText
        (state.now.elements ++ (record { written = start_name tag.now; outer = length state.now.scope }) ∷ [])
        (state.now.scope ++ own_bindings (as_token tag.now)) (events_of events.now)) }
{
    let mut tags = tags_of(alloc, open_elements(state))?;
    let outer = bindings(state).len();
    let written = Vec::from_slice(alloc, start_name(tag))?;
    tags.push(OpenTag::new(Bytes::from_vec(written), outer))?;
    let mut scope = Vec::new(alloc);
    push_pairs(&mut scope, bindings(state))?;
    let own = declared_so_far(alloc, tag)?;
    push_pairs(&mut scope, own.as_slice())?;
    let text = write_attributes(alloc, tags, scope, events)?;
    Ok(text)
}
