//! States of the matcher, and their steps.

ghost use Rattle.std.specs.Prelude.{◌≡◌, ◌<◌, ◌^◌, length, map, [], IfOk, None, Some, if◌then◌else◌};
ghost use Rattle.rng_core.specs.Meaning.{definition_of};
ghost use Rattle.rng_kept.specs.Content as content;
ghost use Rattle.rng_kept.specs.Merging as merging;
ghost use Rattle.rng_kept.specs.SmallPatterns as small;
ghost use Rattle.rng_kept.specs.Standing.{first_residual, known_from};
ghost use Rattle.rng_kept.specs.Tags as tags;
ghost use Rattle.rng_live.specs.Calls.{Answers, Gives};
ghost use Rattle.deriv_nodes.specs.Numbers.{at};
ghost use Rattle.deriv_states.specs.Places.{LaterPlaces};
ghost use Rattle.deriv_pattern.specs.Steps.{way_step};
ghost use Rattle.deriv_states.specs.Steps.{HasContents};
ghost use Rattle.deriv_pool.specs.Meaning.{IsState, means_in};

use crate::known::known;
use deriv_pattern::step::Step;
use deriv_states::branch::{Branch, Row};
use deriv_states::states::States;
use nx_base::memory::NoMemory;
use nx_base::name::Name;
use rng_core::grammar::Def;
use std::alloc::Global;

/// A state of the matcher, by its number.
#[derive(Clone, Copy, Debug, PartialEq, Eq)]
pub struct PoolState {
    pub(crate) number: usize,
}

/// The state as an answer: none where there is no way to go on.
fn as_answer(states: &States, state: PoolState) -> Option<PoolState>
    requires { IsState states.now state }
    ensures { Answers (IsState states.now) (means_in states.now) (merging.answered (means_in states.now state)) result }
{
    match states.row(state.number) {
        Row::End => None,
        Row::Way(_, _) => Some(state),
    }
}

/// Before any event, where a node is what may come.
pub(crate) fn begun(states: &mut States, start: usize) -> Result<PoolState, NoMemory>
    requires { start < length states.old.patterns }
    ensures later { LaterPlaces states.old states.new }
    ensures gives { IfOk result (Gives (IsState states.new) (means_in states.new) (first_residual (at states.old.patterns start))) }
{
    let around = states.document(start)?;
    let number = states.just(Branch::Among(around))?;
    Ok(PoolState { number })
}

/// Before an element that one of the definitions with the name allows; none where no definition has it.
pub(crate) fn begun_known(
    states: &mut States,
    defs: &[Def],
    name: &Name,
) -> Result<Option<PoolState>, NoMemory>
    requires { length defs.now < 2 ^ 32 }
    ensures later { LaterPlaces states.old states.new }
    ensures gives { IfOk result (Answers (IsState states.new) (means_in states.new)
        (if small.is_not_allowed (known_from (map definition_of defs.now) name.now 0) then None
        else Some (first_residual (known_from (map definition_of defs.now) name.now 0)))) }
{
    let start = known(states, defs, name)?;
    if states.is_not_allowed(start) {
        return Ok(None);
    }
    let state = begun(states, start)?;
    Ok(Some(state))
}

/// The state behind a step.
pub(crate) fn given(
    alloc: Global,
    states: &mut States,
    step: &Step,
    state: PoolState,
) -> Result<PoolState, NoMemory>
    requires state { IsState states.old state }
    requires contents { HasContents states.old step.now }
    ensures later { LaterPlaces states.old states.new }
    ensures gives { IfOk result (Gives (IsState states.new) (means_in states.new)
        (merging.stepped (way_step step.now) [] (means_in states.old state))) }
{
    let number = states.stepped(alloc, step, state.number)?;
    Ok(PoolState { number })
}

/// The state behind a step, and none where there is no way to go on.
pub(crate) fn answer(
    alloc: Global,
    states: &mut States,
    step: &Step,
    state: PoolState,
) -> Result<Option<PoolState>, NoMemory>
    requires state { IsState states.old state }
    requires contents { HasContents states.old step.now }
    ensures later { LaterPlaces states.old states.new }
    ensures gives { IfOk result (Answers (IsState states.new) (means_in states.new)
        (merging.answered (merging.stepped (way_step step.now) [] (means_in states.old state)))) }
{
    let behind = given(alloc, states, step, state)?;
    Ok(as_answer(states, behind))
}

/// Behind an attribute. A value that isn't UTF-8, which no caller gives, is answered as want of memory.
pub(crate) fn behind_attribute(
    alloc: Global,
    states: &mut States,
    state: PoolState,
    name: &Name,
    value: &[u8],
) -> Result<Option<PoolState>, NoMemory>
    requires { IsState states.old state }
    ensures later { LaterPlaces states.old states.new }
    ensures gives { IfOk result (Answers (IsState states.new) (means_in states.new)
        (merging.answered (tags.attribute_of name.now value.now (means_in states.old state)))) }
{
    match str::from_utf8(value) {
        Ok(value) => answer(alloc, states, &Step::Attribute(name, value), state),
        Err(_) => Err(NoMemory),
    }
}

/// Behind a string. One that isn't UTF-8, which no caller gives, is answered as want of memory.
pub(crate) fn behind_chars(
    alloc: Global,
    states: &mut States,
    state: PoolState,
    text: &[u8],
) -> Result<Option<PoolState>, NoMemory>
    requires { IsState states.old state }
    ensures later { LaterPlaces states.old states.new }
    ensures gives { IfOk result (Answers (IsState states.new) (means_in states.new)
        (merging.answered (content.chars text.now (means_in states.old state)))) }
{
    match str::from_utf8(text) {
        Ok(text) => answer(alloc, states, &Step::Chars(text), state),
        Err(_) => Err(NoMemory),
    }
}
