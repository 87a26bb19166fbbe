//! Recovery along items that are no token's: those of a tag that isn't whole yet.

ghost use Rattle.std.specs.Prelude.{◌≡◌, ◌++◌, OnOk};
ghost use Rattle.nx_events.specs.Texts.{ItemsAreText};
ghost use Rattle.nx_recover.specs.Items.{form_along, found_along};
ghost use Rattle.nx_recover.specs.States.{AreStates, view_of, form};

use crate::along;
use crate::levels::Change;
use crate::state::RecoverState;
use crate::step::{make_room, put};
use nx_base::fault::Faults;
use nx_base::memory::NoMemory;
use nx_base::sequence::TryCopy;
use nx_events::item::Items;
use rng_live::matcher::Matcher;
use std::alloc::Global;

/// Puts the levels behind these items in the place of a state's, and adds what is wrong at them. The state of the items in front of them
/// stays.
pub fn find_along<M: Matcher>(
    alloc: Global,
    matcher: &mut M,
    state: &mut RecoverState<M::State>,
    items: &Items,
    faults: &mut Faults,
) -> Result<(), NoMemory>
    requires states { AreStates (M.is_state matcher.old) (view_of state.old.levels) }
    requires text { ItemsAreText items.now }
    ensures later { M.later matcher.old matcher.new }
    ensures states { AreStates (M.is_state matcher.new) (view_of state.new.levels) }
    ensures events { state.new.events ≡ state.old.events }
    ensures levels { OnOk result (form (M.means matcher.new) (view_of state.new.levels)
        ≡ form_along (M.language matcher.old) (form (M.means matcher.old) (view_of state.old.levels)) items.now) }
    ensures faults { OnOk result (faults.new ≡ faults.old
        ++ found_along (M.language matcher.old) (form (M.means matcher.old) (view_of state.old.levels)) items.now) }
{
    let mut own = items.copy()?.into_vec();
    let mut change = Change::new(alloc);
    along::take_items(alloc, matcher, &state.levels, &mut change, &mut own, faults)?;
    make_room(&mut state.levels, &change)?;
    put(&mut state.levels, &mut change);
    Ok(())
}

/// Puts the levels behind these items in the place of a state's. The state of the items in front of them stays, and what is wrong at
/// them isn't told.
pub fn take_items<M: Matcher>(
    alloc: Global,
    matcher: &mut M,
    state: &mut RecoverState<M::State>,
    items: &Items,
) -> Result<(), NoMemory>
    requires states { AreStates (M.is_state matcher.old) (view_of state.old.levels) }
    requires text { ItemsAreText items.now }
    ensures later { M.later matcher.old matcher.new }
    ensures states { AreStates (M.is_state matcher.new) (view_of state.new.levels) }
    ensures events { state.new.events ≡ state.old.events }
    ensures levels { OnOk result (form (M.means matcher.new) (view_of state.new.levels)
        ≡ form_along (M.language matcher.old) (form (M.means matcher.old) (view_of state.old.levels)) items.now) }
{
    let mut faults = Faults::new(alloc);
    find_along(alloc, matcher, state, items, &mut faults)
}
