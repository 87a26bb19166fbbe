//! Attributes that every way to go on requires.

ghost use Rattle.std.specs.Prelude.{◌≡◌, ◌<◌, length, IfOk};
ghost use Rattle.std.specs.List.{filter};
ghost use Rattle.rng_kept.specs.Required as required;
ghost use Rattle.rng_live.specs.Calls.{AreRequired};
ghost use Rattle.rng_live.specs.Possible.{ArePossible};
ghost use Rattle.deriv_states.specs.Places.{IsThere, state_in, way_in};

use deriv_states::branch::{Branch, Row};
use deriv_states::states::States;
use nx_base::memory::NoMemory;
use nx_base::name::{Name, Names};
use nx_base::sequence::TryCopy;
use rng_live::sorting::sort_names;
use std::alloc::Global;

/// Names among which are all that are required: those that the content of the first way in a start tag needs; none where no way
/// is in a start tag.
fn possible_names(alloc: Global, states: &States, state: usize) -> Result<Names, NoMemory>
    requires { state < length states.now.states }
    ensures { IfOk result (ArePossible (state_in states.now.states state)) }
{
    match states.row(state) {
        Row::End => Ok(Names::new(alloc)),
        Row::Way(Branch::Among(_), more) => possible_names(alloc, states, more),
        Row::Way(Branch::InTag(content, _), _) => {
            let names = states.candidates(alloc, content)?;
            Ok(names)
        }
    }
}

/// Whether a way needs an attribute of the name. A way among children speaks against none.
fn way_needs(alloc: Global, states: &States, name: &Name, way: Branch) -> Result<bool, NoMemory>
    requires { IsThere states.now way }
    ensures { IfOk result (λ found. found ≡ required.way_needs name.now (way_in states.now way)) }
{
    match way {
        Branch::Among(_) => Ok(true),
        Branch::InTag(content, _) => states.needs(alloc, name, content),
    }
}

/// Whether each way of a state needs an attribute of the name.
fn all_need(alloc: Global, states: &States, name: &Name, state: usize) -> Result<bool, NoMemory>
    requires { state < length states.now.states }
    ensures { IfOk result (λ found. found ≡ required.is_required name.now (state_in states.now.states state)) }
{
    match states.row(state) {
        Row::End => Ok(true),
        Row::Way(one, more) => {
            if !way_needs(alloc, states, name, one)? {
                return Ok(false);
            }
            all_need(alloc, states, name, more)
        }
    }
}

/// Those of the names that each way of a state needs.
fn required_among(
    alloc: Global,
    states: &States,
    state: usize,
    names: &[Name],
) -> Result<Vec<Name>, NoMemory>
    requires { state < length states.now.states }
    ensures { IfOk result (λ found. found.items
        ≡ filter (λ name. required.is_required name (state_in states.now.states state)) names.now) }
{
    let mut found = Vec::new(alloc);
    let mut left = names;
    while let Some((name, rest)) = left.split_first() {
        if all_need(alloc, states, name, state)? {
            found.push(name.copy()?)?;
        }
        left = rest;
    }
    Ok(found)
}

/// The names that are required, in order and each once; none where no start tag is open.
pub(crate) fn required_names(
    alloc: Global,
    states: &States,
    state: usize,
) -> Result<Names, NoMemory>
    requires { state < length states.now.states }
    ensures { IfOk result (AreRequired (state_in states.now.states state)) }
{
    let possible = possible_names(alloc, states, state)?;
    let mut found = required_among(alloc, states, state, possible.as_slice())?;
    sort_names(&mut found);
    Ok(Names::from_vec(found))
}
