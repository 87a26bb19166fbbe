//! One event: the levels behind it are kept aside.

ghost use Rattle.std.specs.Prelude.{◌≡◌, ◌<◌, ◌≤◌, IfOk, option_copied, length};
ghost use Rattle.nx_events.specs.Texts.{EventIsText};
ghost use Rattle.nx_recover.specs.States.{IsChange, changed, form};
ghost use Rattle.nx_recover.specs.Admitting.{refused_in};
ghost use Rattle.nx_recover.specs.Aside.{IsInnermost, IsOneLess, Pushed, Takes};
ghost use Rattle.nx_recover.specs.Table as t;

use crate::levels::{Begun, Change, Ended, Levels, Open, Turn};
use crate::packed::{Packed, name_inside};
use crate::row;
use nx_base::memory::NoMemory;
use nx_base::name::Name;
use nx_events::flaw::Flaw;
use nx_events::item::Event;
use rng_live::matcher::Matcher;
use std::alloc::Global;

// The state here.
fn here<'a, S: Drop>(levels: &'a Levels<S>, change: &'a Change<S>) -> &'a Option<S>
    ensures { result.now ≡ (changed levels.now change.now).here }
{
    match &change.here {
        Some(here) => here,
        None => &levels.here,
    }
}

// Puts an element on top.
fn push<S: Drop>(
    alloc: Global,
    change: &mut Change<S>,
    begun: Begun<S>,
) -> Result<Option<Flaw>, NoMemory>
    ensures { IfOk result (Pushed begun change.old change.new) }
{
    let Begun {
        here,
        element,
        flaw,
    } = begun;
    let packed = Packed::of(alloc, element)?;
    change.above.push(packed)?;
    change.here = Some(here);
    Ok(flaw)
}

// The innermost open element: one that is aside, or an old one.
fn innermost<'a, S: Drop>(levels: &'a Levels<S>, change: &'a Change<S>) -> Option<&'a Packed<S>>
    requires { change.now.kept ≤ length levels.now.elements.items }
    ensures { IsInnermost (changed levels.now change.now).elements (option_copied result) }
{
    let above = change.above.len();
    if above > 0 {
        return Some(&change.above[above - 1]);
    }
    if change.kept > 0 {
        return Some(&levels.elements[change.kept - 1]);
    }
    None
}

// Takes the innermost open element off; an old one stays where it is. The levels are asked nothing: they tell which element that is.
fn take_off<S: Drop>(_levels: &Levels<S>, change: &mut Change<S>)
    requires kept { change.old.kept ≤ length _levels.now.elements.items }
    requires some { 0 < length (changed _levels.now change.old).elements }
    ensures { IsOneLess _levels.now change.old change.new }
{
    if change.above.is_empty() {
        change.kept -= 1;
    } else {
        change.above.pop();
    }
}

// An element begins that isn't admitted.
fn take_refused<M: Matcher>(
    alloc: Global,
    matcher: &mut M,
    levels: &Levels<M::State>,
    change: &mut Change<M::State>,
    name: &Name,
) -> Result<Option<Flaw>, NoMemory>
    requires { IsChange (M.is_state matcher.old) levels.now change.old }
    ensures later { M.later matcher.old matcher.new }
    ensures gives { IfOk result (Takes (M.is_state matcher.new) (M.means matcher.new) levels.now change.new
        (refused_in (M.language matcher.old) (form (M.means matcher.old) (changed levels.now change.old)) name.now)) }
{
    let outer = innermost(levels, change);
    let begun = row::enter_refused(alloc, matcher, here(levels, change), name, outer)?;
    let flaw = push(alloc, change, begun)?;
    Ok(flaw)
}

// An element begins.
fn take_enter<M: Matcher>(
    alloc: Global,
    matcher: &mut M,
    levels: &Levels<M::State>,
    change: &mut Change<M::State>,
    name: &Name,
) -> Result<Option<Flaw>, NoMemory>
    requires { IsChange (M.is_state matcher.old) levels.now change.old }
    ensures later { M.later matcher.old matcher.new }
    ensures gives { IfOk result (Takes (M.is_state matcher.new) (M.means matcher.new) levels.now change.new
        (t.done_in (M.language matcher.old) (form (M.means matcher.old) (changed levels.now change.old)) (Event.Enter name.now))) }
{
    // Most are admitted. What begins is large, so for these it isn't handed through the rows.
    match row::enter_admitted(alloc, matcher, here(levels, change), name)? {
        Some(state) => {
            let kept = name_inside(alloc, name, innermost(levels, change))?;
            change.above.push(Packed::inside(kept))?;
            change.here = Some(Some(state));
            Ok(None)
        }
        None => take_refused(alloc, matcher, levels, change, name),
    }
}

// An element begins that has no name.
fn take_lost<M: Matcher>(
    alloc: Global,
    matcher: &M,
    levels: &Levels<M::State>,
    change: &mut Change<M::State>,
) -> Result<Option<Flaw>, NoMemory>
    requires { IsChange (M.is_state matcher.now) levels.now change.old }
    ensures gives { IfOk result (Takes (M.is_state matcher.now) (M.means matcher.now) levels.now change.new
        (t.done_in (M.language matcher.now) (form (M.means matcher.now) (changed levels.now change.old)) Event.EnterLost)) }
{
    let around = row::copy_here(alloc, matcher, here(levels, change))?;
    let begun = Begun {
        here: None,
        element: Open::Lost(around),
        flaw: None,
    };
    let flaw = push(alloc, change, begun)?;
    Ok(flaw)
}

// The innermost element ends.
fn take_leave<M: Matcher>(
    alloc: Global,
    matcher: &mut M,
    levels: &Levels<M::State>,
    change: &mut Change<M::State>,
) -> Result<Option<Flaw>, NoMemory>
    requires { IsChange (M.is_state matcher.old) levels.now change.old }
    ensures later { M.later matcher.old matcher.new }
    ensures gives { IfOk result (Takes (M.is_state matcher.new) (M.means matcher.new) levels.now change.new
        (t.done_in (M.language matcher.old) (form (M.means matcher.old) (changed levels.now change.old)) Event.Leave)) }
{
    let Some(element) = innermost(levels, change) else {
        return Ok(None);
    };
    let ended = row::end_element(alloc, matcher, here(levels, change), element)?;
    let Ended { here: behind, flaw } = ended;
    take_off(levels, change);
    change.here = Some(behind);
    Ok(flaw)
}

// Another event: where the frame stays, so does what is aside.
fn take_other<M: Matcher>(
    alloc: Global,
    matcher: &mut M,
    levels: &Levels<M::State>,
    change: &mut Change<M::State>,
    event: &Event,
) -> Result<Option<Flaw>, NoMemory>
    requires change { IsChange (M.is_state matcher.old) levels.now change.old }
    requires text { EventIsText event.now }
    ensures later { M.later matcher.old matcher.new }
    ensures gives { IfOk result (Takes (M.is_state matcher.new) (M.means matcher.new) levels.now change.new
        (t.passed_on (form (M.means matcher.old) (changed levels.now change.old)) event.now)) }
{
    let turn = row::pass(alloc, matcher, here(levels, change), event)?;
    let Turn { next, flaw } = turn;
    match next {
        Some(state) => {
            change.here = Some(Some(state));
            Ok(flaw)
        }
        None => Ok(flaw),
    }
}

/// An event: what is wrong with it is the answer.
#[tactic(auto, unfolding(crate::specs::Table::done_by))]
pub fn take_event<M: Matcher>(
    alloc: Global,
    matcher: &mut M,
    levels: &Levels<M::State>,
    change: &mut Change<M::State>,
    event: &Event,
) -> Result<Option<Flaw>, NoMemory>
    requires change { IsChange (M.is_state matcher.old) levels.now change.old }
    requires text { EventIsText event.now }
    ensures later { M.later matcher.old matcher.new }
    ensures gives { IfOk result (Takes (M.is_state matcher.new) (M.means matcher.new) levels.now change.new
        (t.done_by (M.language matcher.old) (form (M.means matcher.old) (changed levels.now change.old)) event.now)) }
{
    match event {
        Event::Enter(name) => take_enter(alloc, matcher, levels, change, name),
        Event::EnterLost => take_lost(alloc, matcher, levels, change),
        Event::Leave => take_leave(alloc, matcher, levels, change),
        _ => take_other(alloc, matcher, levels, change, event),
    }
}
