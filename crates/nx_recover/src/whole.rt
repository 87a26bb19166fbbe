//! The begin and the end of a text over a matcher, equal states and copies.

ghost use Rattle.std.specs.Prelude.{◌≡◌, ◌↔◌, ◌-◌, ◌≤◌, ◌++◌, IsTrue, take, map, Some, IfOk, IfSome, OnOk, OnErr, option_map};
ghost use Rattle.std.specs.List.{AllByRecursion};
ghost use Rattle.nx_base.specs.Shifting.{placed};
ghost use Rattle.nx_events.specs.Runs.{run_back};
ghost use Rattle.nx_events.specs.Texts.{StateIsText};
ghost use Rattle.nx_recover.specs.RecoverRules.{recover_rules};
ghost use Rattle.nx_recover.specs.States.{AreStates, IsOpen, open_form, view_of};
ghost use Rattle.nx_recover.specs.Machine.{over};

use crate::along::take_items;
use crate::levels::{Change, Levels};
use crate::packed::{Held, Packed};
use crate::row::{copy_here, copy_open};
use crate::state::RecoverState;
use nx_base::equal::Equal;
use nx_base::fault::Faults;
use nx_base::memory::NoMemory;
use nx_base::sequence::Sequence;
use nx_events::{equal, reader};
use rng_live::matcher::Matcher;
use std::alloc::Global;

/// Nothing read.
pub fn begin_over<M: Matcher>(
    alloc: Global,
    matcher: &mut M,
) -> Result<RecoverState<M::State>, NoMemory>
    ensures later { M.later matcher.old matcher.new }
    ensures states { IfOk result (λ s. AreStates (M.is_state matcher.new) (view_of s.levels)) }
    ensures text { IfOk result (λ s. StateIsText s.events) }
    ensures first { IfOk result (λ s. over (M.means matcher.new) s ≡ (recover_rules (Some (M.language matcher.old))).first) }
{
    let events = reader::begin(alloc)?;
    let here = matcher.begin(alloc)?;
    Ok(RecoverState {
        events,
        levels: Levels {
            here: Some(here),
            elements: Vec::new(alloc),
        },
    })
}

/// The end of a text. For want of memory the faults are as before.
pub fn end_over<M: Matcher>(
    alloc: Global,
    matcher: &mut M,
    state: &RecoverState<M::State>,
    len: usize,
    faults: &mut Faults,
) -> Result<(), NoMemory>
    requires states { AreStates (M.is_state matcher.old) (view_of state.now.levels) }
    requires text { StateIsText state.now.events }
    requires place { run_back state.now.events.run ≤ len }
    ensures later { M.later matcher.old matcher.new }
    ensures faults { OnOk result (faults.new ≡ faults.old
        ++ placed (len - run_back state.now.events.run)
        ((recover_rules (Some (M.language matcher.old))).ends (over (M.means matcher.old) state.now))) }
    ensures no_faults { OnErr result (faults.new ≡ faults.old) }
{
    let mut items = reader::finish(alloc, &state.events, len)?.into_vec();
    let mut change = Change::new(alloc);
    let mut more = Sequence::new(alloc);
    take_items(
        alloc,
        matcher,
        &state.levels,
        &mut change,
        &mut items,
        &mut more,
    )?;
    faults.append(more)?;
    Ok(())
}

// Whether two states mean the same; nothing is the same as nothing alone.
fn same_here<M: Matcher>(matcher: &M, a: &Option<M::State>, b: &Option<M::State>) -> bool
    requires a { IfSome a.now (M.is_state matcher.now) }
    requires b { IfSome b.now (M.is_state matcher.now) }
    ensures { IsTrue result ↔ (option_map (M.means matcher.now) a.now ≡ option_map (M.means matcher.now) b.now) }
{
    match (a, b) {
        (Some(a), Some(b)) => matcher.same(a, b),
        (None, None) => true,
        (Some(_), None) => false,
        (None, Some(_)) => false,
    }
}

// Whether two open elements mean the same.
fn same_open<M: Matcher>(matcher: &M, a: &Packed<M::State>, b: &Packed<M::State>) -> bool
    requires a { IsOpen (M.is_state matcher.now) a.now }
    requires b { IsOpen (M.is_state matcher.now) b.now }
    ensures { IsTrue result ↔ (open_form (M.means matcher.now) a.now ≡ open_form (M.means matcher.now) b.now) }
{
    match (&a.held, &b.held) {
        (Held::In(a), Held::In(b)) => a.equals(b),
        (Held::Begins(a), Held::Begins(b)) => {
            a.name.equals(&b.name) && same_here(matcher, &a.around, &b.around)
        }
        (Held::Lost(x), Held::Lost(y)) => same_here(matcher, x, y),
        _ => false,
    }
}

// Whether they do one by one.
fn same_each<M: Matcher>(matcher: &M, a: &[Packed<M::State>], b: &[Packed<M::State>]) -> bool
    requires a { AllByRecursion (IsOpen (M.is_state matcher.now)) a.now }
    requires b { AllByRecursion (IsOpen (M.is_state matcher.now)) b.now }
    ensures { IsTrue result ↔ (map (open_form (M.means matcher.now)) a.now ≡ map (open_form (M.means matcher.now)) b.now) }
{
    if a.len() != b.len() {
        return false;
    }
    for (i, element) in a.iter().enumerate() {
        if !same_open(matcher, element, &b[i]) {
            return false;
        }
    }
    true
}

/// Whether two states mean the same.
pub fn same_over<M: Matcher>(
    matcher: &M,
    a: &RecoverState<M::State>,
    b: &RecoverState<M::State>,
) -> bool
    requires a { AreStates (M.is_state matcher.now) (view_of a.now.levels) }
    requires b { AreStates (M.is_state matcher.now) (view_of b.now.levels) }
    ensures { IsTrue result ↔ (over (M.means matcher.now) a.now ≡ over (M.means matcher.now) b.now) }
{
    if !equal::same(&a.events, &b.events) {
        return false;
    }
    if !same_here(matcher, &a.levels.here, &b.levels.here) {
        return false;
    }
    same_each(
        matcher,
        a.levels.elements.as_slice(),
        b.levels.elements.as_slice(),
    )
}

// Copies of open elements.
fn copy_each<M: Matcher>(
    alloc: Global,
    matcher: &M,
    elements: &[Packed<M::State>],
) -> Result<Vec<Packed<M::State>>, NoMemory>
    requires { AllByRecursion (IsOpen (M.is_state matcher.now)) elements.now }
    ensures states { IfOk result (λ v. AllByRecursion (IsOpen (M.is_state matcher.now)) v.items) }
    ensures meaning { IfOk result (λ v. map (open_form (M.means matcher.now)) v.items
        ≡ map (open_form (M.means matcher.now)) elements.now) }
{
    let mut copied = Vec::with_capacity(alloc, elements.len())?;
    for element in elements {
        let element = copy_open(alloc, matcher, element)?;
        // There is room from the start; `reserve` tells the checker so, and `push_reserved` moves the element once, where `push` hands it back
        // on a refusal.
        copied.reserve(1)?;
        copied.push_reserved(element);
    }
    Ok(copied)
}

/// A state that means the same.
pub fn copy_over<M: Matcher>(
    alloc: Global,
    matcher: &M,
    state: &RecoverState<M::State>,
) -> Result<RecoverState<M::State>, NoMemory>
    requires states { AreStates (M.is_state matcher.now) (view_of state.now.levels) }
    requires text { StateIsText state.now.events }
    ensures states { IfOk result (λ s. AreStates (M.is_state matcher.now) (view_of s.levels)) }
    ensures text { IfOk result (λ s. StateIsText s.events) }
    ensures meaning { IfOk result (λ s. over (M.means matcher.now) s ≡ over (M.means matcher.now) state.now) }
{
    let events = reader::copy(alloc, &state.events)?;
    let here = copy_here(alloc, matcher, &state.levels.here)?;
    let elements = copy_each(alloc, matcher, state.levels.elements.as_slice())?;
    Ok(RecoverState {
        events,
        levels: Levels { here, elements },
    })
}
