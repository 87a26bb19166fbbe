//! A step over a matcher, all or nothing. The levels behind a token that is taken item by item are kept aside, and put in place last; those
//! behind a token that one look tells change where they stand (`plain_step`).

ghost use Rattle.std.specs.Prelude.{◌≡◌, ◌+◌, ◌-◌, ◌<◌, ◌≤◌, ◌^◌, [], ◌++◌, length, take};
ghost use Rattle.std.specs.Prelude.{IsUtf8, IfOk, OnOk, OnErr, Some, vec_len, vec_capacity};
ghost use Rattle.nx_base.specs.Rules.{lexeme_of, IsLexeme};
ghost use Rattle.nx_base.specs.Shifting.{placed};
ghost use Rattle.nx_events.specs.Items.{declared_in, state_behind};
ghost use Rattle.nx_events.specs.Runs.{run_back};
ghost use Rattle.nx_events.specs.Texts.{StateIsText, TokenIsText};
ghost use Rattle.nx_recover.specs.RecoverRules.{recover_rules};
ghost use Rattle.nx_recover.specs.States.{HasRoom, AreStates, changed, view_of};
ghost use Rattle.nx_recover.specs.Machine.{over};

use crate::along::take_items;
use crate::levels::{Change, Levels};
use crate::packed::Packed;
use crate::plain_step::step_plain;
use crate::state::RecoverState;
use nx_base::fault::Faults;
use nx_base::memory::NoMemory;
use nx_base::name::Name;
use nx_base::sequence::Sequence;
use nx_base::token::Token;
use nx_events::item::Items;
use nx_events::law::tokens_give_text;
use nx_events::reader::{Declared, pass_token, read};
use nx_events::state::EventState;
use rng_live::matcher::Matcher;
use std::alloc::Global;
use std::mem;

/// Memory that a token is read in. Whoever takes many tokens keeps it; what it holds before is dropped.
#[derive(Drop)]
pub struct Scratch<S> {
    /// The items of the last token that was taken item by item.
    pub items: Items,
    /// The name of an element that began, so that the next one's is put in its memory.
    pub name: Name,
    /// The levels behind it.
    pub change: Change<S>,
    /// The faults among its items, and those of recovery.
    pub found: Faults,
}

impl<S: Drop> Scratch<S> {
    /// No memory yet.
    pub fn new(alloc: Global) -> Scratch<S> {
        Scratch {
            items: Items::new(alloc),
            name: Name {
                ns: Sequence::new(alloc),
                local: Sequence::new(alloc),
            },
            change: Change::new(alloc),
            found: Faults::new(alloc),
        }
    }
}

// Adds faults and passes a token, both or neither. The faults are taken out of their list.
fn pass_with(
    alloc: Global,
    events: &mut EventState,
    token: &Token,
    declared: &Declared,
    faults: &mut Faults,
    more: &mut Faults,
) -> Result<(), NoMemory>
    requires place { run_back events.old.run ≤ token.now.from }
    requires room { token.now.from + length token.now.bytes < 2 ^ 64 }
    requires declared { declared.now.own ≡ declared_in token.now }
    ensures events { OnOk result (events.new ≡ state_behind events.old token.now) }
    ensures faults { OnOk result (faults.new ≡ faults.old ++ more.old) }
    ensures unchanged { OnErr result (events.new ≡ events.old) }
    ensures no_faults { OnErr result (faults.new ≡ faults.old) }
    ensures text { TokenIsText token.now → StateIsText events.old → StateIsText events.new }
{
    // Most tokens are without a fault.
    if more.is_empty() {
        return pass_token(alloc, events, token, declared);
    }
    let len = faults.len();
    faults.append(mem::replace(more, Faults::new(alloc)))?;
    match pass_token(alloc, events, token, declared) {
        Ok(()) => Ok(()),
        Err(error) => {
            let grown = faults.len();
            faults.cut(len, grown);
            Err(error)
        }
    }
}

/// Room for what is new.
pub fn make_room<S: Drop>(levels: &mut Levels<S>, change: &Change<S>) -> Result<(), NoMemory>
    ensures view { view_of levels.new ≡ view_of levels.old }
    ensures room { OnOk result (HasRoom levels.new change.now) }
{
    levels.elements.reserve(change.above.len())?;
    Ok(())
}

// Moves elements on top of others, in room that there is.
fn move_onto<S: Drop>(elements: &mut Vec<Packed<S>>, above: &mut Vec<Packed<S>>)
    requires { vec_len elements.old + vec_len above.old ≤ vec_capacity elements.old }
    ensures { elements.new.items ≡ elements.old.items ++ above.old.items }
{
    // Most tokens open nothing.
    if above.is_empty() {
        return;
    }
    // There is room, so this takes no memory.
    let _ = elements.append(above);
}

/// The changed levels, in room that there is. What is new is taken out of the change.
pub fn put<S: Drop>(levels: &mut Levels<S>, change: &mut Change<S>)
    requires { HasRoom levels.old change.old }
    ensures view { view_of levels.new ≡ changed levels.old change.old }
{
    levels.elements.truncate(change.kept);
    move_onto(&mut levels.elements, &mut change.above);
    if let Some(here) = change.here.take() {
        levels.here = here;
    }
}

// Puts a change in place with the faults of its token, all or nothing.
fn install<S: Drop>(
    alloc: Global,
    state: &mut RecoverState<S>,
    token: &Token,
    declared: &Declared,
    change: &mut Change<S>,
    faults: &mut Faults,
    more: &mut Faults,
) -> Result<(), NoMemory>
    requires place { run_back state.old.events.run ≤ token.now.from }
    requires room { token.now.from + length token.now.bytes < 2 ^ 64 }
    requires declared { declared.now.own ≡ declared_in token.now }
    ensures events { OnOk result (state.new.events ≡ state_behind state.old.events token.now) }
    ensures levels { OnOk result (view_of state.new.levels ≡ changed state.old.levels change.old) }
    ensures faults { OnOk result (faults.new ≡ faults.old ++ more.old) }
    ensures same_events { OnErr result (state.new.events ≡ state.old.events) }
    ensures same_levels { OnErr result (view_of state.new.levels ≡ view_of state.old.levels) }
    ensures no_faults { OnErr result (faults.new ≡ faults.old) }
    ensures text { TokenIsText token.now → StateIsText state.old.events → StateIsText state.new.events }
{
    make_room(&mut state.levels, change)?;
    pass_with(alloc, &mut state.events, token, declared, faults, more)?;
    put(&mut state.levels, change);
    Ok(())
}

// Drops what a refused token left.
fn drop_left(found: &mut Faults)
    ensures { found.new ≡ [] }
{
    // There is nothing mostly, and then no call is made.
    if !found.is_empty() {
        found.clear();
    }
}

// A step item by item. For want of memory the state means what it meant, and the faults are as before. Few tokens are taken so, and it is
// large.
#[inline(never)]
fn step_by_items<M: Matcher>(
    alloc: Global,
    matcher: &mut M,
    scratch: &mut Scratch<M::State>,
    state: &mut RecoverState<M::State>,
    token: &Token,
    faults: &mut Faults,
) -> Result<(), NoMemory>
    requires states { AreStates (M.is_state matcher.old) (view_of state.old.levels) }
    requires text { StateIsText state.old.events }
    requires utf8 { IsUtf8 token.now.bytes }
    requires kind { IsLexeme (lexeme_of token.now) }
    requires place { run_back state.old.events.run ≤ token.now.from }
    requires room { token.now.from + length token.now.bytes < 2 ^ 64 }
    ensures later { M.later matcher.old matcher.new }
    ensures states { AreStates (M.is_state matcher.new) (view_of state.new.levels) }
    ensures text { StateIsText state.new.events }
    ensures after { OnOk result (over (M.means matcher.new) state.new
        ≡ (recover_rules (Some (M.language matcher.old))).after (over (M.means matcher.old) state.old) (lexeme_of token.now)) }
    ensures faults { OnOk result (faults.new ≡ faults.old
        ++ placed (token.now.from - run_back state.old.events.run)
        ((recover_rules (Some (M.language matcher.old))).gives (over (M.means matcher.old) state.old) (lexeme_of token.now))) }
    ensures unchanged { OnErr result (over (M.means matcher.new) state.new ≡ over (M.means matcher.old) state.old) }
    ensures no_faults { OnErr result (faults.new ≡ faults.old) }
{
    let Scratch {
        items,
        name: _,
        change,
        found,
    } = scratch;
    items.clear();
    let declared = read(alloc, items, &state.events, token)?;
    // A text that goes on with its run, or a comment: the levels stay.
    if items.is_empty() {
        return pass_token(alloc, &mut state.events, token, &declared);
    }
    let mut taken = items.take_out();
    drop_left(found);
    take_items(alloc, matcher, &state.levels, change, &mut taken, found)?;
    items.put_back(taken);
    install(alloc, state, token, &declared, change, faults, found)?;
    Ok(())
}

/// A step over a matcher. For want of memory the state means what it meant, and the faults are as before.
pub fn step_over<M: Matcher>(
    alloc: Global,
    matcher: &mut M,
    scratch: &mut Scratch<M::State>,
    state: &mut RecoverState<M::State>,
    token: &Token,
    faults: &mut Faults,
) -> Result<(), NoMemory>
    requires states { AreStates (M.is_state matcher.old) (view_of state.old.levels) }
    requires text { StateIsText state.old.events }
    requires utf8 { IsUtf8 token.now.bytes }
    requires kind { IsLexeme (lexeme_of token.now) }
    requires place { run_back state.old.events.run ≤ token.now.from }
    requires room { token.now.from + length token.now.bytes < 2 ^ 64 }
    ensures later { M.later matcher.old matcher.new }
    ensures states { AreStates (M.is_state matcher.new) (view_of state.new.levels) }
    ensures text { StateIsText state.new.events }
    ensures after { OnOk result (over (M.means matcher.new) state.new
        ≡ (recover_rules (Some (M.language matcher.old))).after (over (M.means matcher.old) state.old) (lexeme_of token.now)) }
    ensures faults { OnOk result (faults.new ≡ faults.old
        ++ placed (token.now.from - run_back state.old.events.run)
        ((recover_rules (Some (M.language matcher.old))).gives (over (M.means matcher.old) state.old) (lexeme_of token.now))) }
    ensures unchanged { OnErr result (over (M.means matcher.new) state.new ≡ over (M.means matcher.old) state.old) }
    ensures no_faults { OnErr result (faults.new ≡ faults.old) }
{
    // What an earlier token left is let go here, so that its memory serves for this one.
    // There is nothing mostly, and then no call is made.
    if !scratch.items.is_empty() {
        scratch.items.clear();
    }
    let Scratch { items, name, .. } = &mut *scratch;
    if step_plain(alloc, matcher, items, name, state, token)? {
        tokens_give_text();
        return Ok(());
    }
    step_by_items(alloc, matcher, scratch, state, token, faults)
}
