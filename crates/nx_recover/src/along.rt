//! Recovery along the items of a token.

ghost use Rattle.std.specs.Prelude.{◌≡◌, ◌++◌, [], OnOk};
ghost use Rattle.nx_events.specs.Texts.{ItemIsText, ItemsAreText};
ghost use Rattle.nx_recover.specs.Faults.{flaw_at};
ghost use Rattle.nx_recover.specs.States.{IsChange, AreStates, view_of, changed, form};
ghost use Rattle.nx_recover.specs.Items.{form_behind, faults_found, form_along, found_along};

use crate::event::take_event;
use crate::levels::{Change, Levels};
use crate::packed::Packed;
use nx_base::detail::Detail;
use nx_base::fault::{Fault, Faults, Span};
use nx_base::memory::NoMemory;
use nx_events::flaw::Flaw;
use nx_events::item::Item;
use rng_live::matcher::Matcher;
use std::alloc::Global;
use std::mem;

// Adds what is wrong, if anything is, as a fault.
fn push_flaw(faults: &mut Faults, span: Span, flaw: Option<Flaw>) -> Result<(), NoMemory>
    ensures { OnOk result (faults.new ≡ faults.old ++ flaw_at span flaw) }
{
    if let Some(flaw) = flaw {
        let Flaw { kind, detail } = flaw;
        faults.push(Fault { span, kind, detail })?;
    }
    Ok(())
}

// Takes a fault out of its place: its detail moves.
fn take_fault(fault: &mut Fault) -> Fault
    ensures { result ≡ fault.old }
{
    let detail = mem::replace(&mut fault.detail, Detail::new());
    Fault {
        span: fault.span,
        kind: fault.kind,
        detail,
    }
}

// One item, out of which the detail of a fault is taken.
fn take_item<M: Matcher>(
    alloc: Global,
    matcher: &mut M,
    levels: &Levels<M::State>,
    change: &mut Change<M::State>,
    item: &mut Item,
    faults: &mut Faults,
) -> Result<(), NoMemory>
    requires change { IsChange (M.is_state matcher.old) levels.now change.old }
    requires text { ItemIsText item.old }
    ensures later { M.later matcher.old matcher.new }
    ensures change { OnOk result (IsChange (M.is_state matcher.new) levels.now change.new) }
    ensures form { OnOk result (form (M.means matcher.new) (changed levels.now change.new)
        ≡ form_behind (M.language matcher.old) (form (M.means matcher.old) (changed levels.now change.old)) item.old) }
    ensures faults { OnOk result (faults.new ≡ faults.old
        ++ faults_found (M.language matcher.old) (form (M.means matcher.old) (changed levels.now change.old)) item.old) }
{
    match item {
        Item::Event(event, span) => {
            let flaw = take_event(alloc, matcher, levels, change, event)?;
            push_flaw(faults, *span, flaw)?;
        }
        Item::Fault(fault) => faults.push(take_fault(fault))?,
    }
    Ok(())
}

// Drops what a list holds.
fn drop_all<S: Drop>(elements: &mut Vec<Packed<S>>)
    ensures { elements.new.items ≡ [] }
{
    // It holds nothing mostly, and then no call is made.
    if !elements.is_empty() {
        elements.clear();
    }
}

/// All items, whose details are taken out, so that they pass to the faults as they are: the levels behind them as a change, and the
/// faults in the order in which they arise. What the change was before is dropped.
pub fn take_items<M: Matcher>(
    alloc: Global,
    matcher: &mut M,
    levels: &Levels<M::State>,
    change: &mut Change<M::State>,
    items: &mut Vec<Item>,
    faults: &mut Faults,
) -> Result<(), NoMemory>
    requires states { AreStates (M.is_state matcher.old) (view_of levels.now) }
    requires text { ItemsAreText items.old.items }
    ensures later { M.later matcher.old matcher.new }
    ensures change { OnOk result (IsChange (M.is_state matcher.new) levels.now change.new) }
    ensures form { OnOk result (form (M.means matcher.new) (changed levels.now change.new)
        ≡ form_along (M.language matcher.old) (form (M.means matcher.old) (view_of levels.now)) items.old.items) }
    ensures faults { OnOk result (faults.new ≡ faults.old
        ++ found_along (M.language matcher.old) (form (M.means matcher.old) (view_of levels.now)) items.old.items) }
{
    change.here = None;
    change.kept = levels.elements.len();
    drop_all(&mut change.above);
    let mut i = 0;
    while i < items.len() {
        let item = &mut items[i];
        i += 1;
        take_item(alloc, matcher, levels, change, item, faults)?;
    }
    Ok(())
}
