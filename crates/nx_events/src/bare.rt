//! The machine without a schema: the state of events alone, whose faults are those of markup, nesting and namespaces.

ghost use Rattle.std.specs.Prelude.{◌≡◌, ◌+◌, ◌-◌, ◌<◌, ◌≤◌, ◌^◌, ◌++◌, length, OnOk, OnErr};
ghost use Rattle.nx_base.specs.Rules.{lexeme_of};
ghost use Rattle.nx_base.specs.Shifting.{placed};
ghost use Rattle.nx_events.specs.Among.{fault_in, faults_among};
ghost use Rattle.nx_events.specs.BareRules.{bare_rules};
ghost use Rattle.nx_events.specs.Runs.{run_back};

use crate::item::{Item, Items};
use crate::plain_token::pass_plain;
use crate::state::EventState;
use crate::{equal, reader};
use nx_base::fault::Faults;
use nx_base::machine::Machine;
use nx_base::memory::NoMemory;
use nx_base::sequence::TryCopy;
use nx_base::token::Token;
use std::alloc::Global;

/// No schema. A state is one of events, and means itself.
#[derive(Drop)]
pub struct Bare;

// Adds the item where it is a fault.
fn push_fault(faults: &mut Faults, item: &Item) -> Result<(), NoMemory>
    ensures ok { OnOk result (faults.new ≡ faults.old ++ fault_in item.now) }
    ensures err { OnErr result (faults.new ≡ faults.old) }
{
    match item {
        Item::Event(_, _) => Ok(()),
        Item::Fault(fault) => faults.push(fault.copy()?),
    }
}

/// Adds those of the items that are faults, all or none.
pub fn push_faults(faults: &mut Faults, items: &[Item]) -> Result<(), NoMemory>
    ensures ok { OnOk result (faults.new ≡ faults.old ++ faults_among items.now) }
    ensures err { OnErr result (faults.new ≡ faults.old) }
{
    let len = faults.len();
    for item in items {
        if push_fault(faults, item).is_err() {
            let grown = faults.len();
            faults.cut(len, grown);
            return Err(NoMemory);
        }
    }
    Ok(())
}

/// Takes one more token, as the machine does. The list of items is memory that whoever takes many tokens keeps: what it holds before is
/// dropped when a token is next read into it.
pub fn step_bare(
    alloc: Global,
    items: &mut Items,
    state: &mut EventState,
    token: &Token,
    faults: &mut Faults,
) -> Result<(), NoMemory>
    requires place { run_back state.old.run ≤ token.now.from }
    requires room { token.now.from + length token.now.bytes < 2 ^ 64 }
    ensures after { OnOk result (state.new ≡ bare_rules.after state.old (lexeme_of token.now)) }
    ensures faults { OnOk result (faults.new ≡ faults.old
        ++ placed (token.now.from - run_back state.old.run) (bare_rules.gives state.old (lexeme_of token.now))) }
    ensures unchanged { OnErr result (state.new ≡ state.old) }
    ensures no_faults { OnErr result (faults.new ≡ faults.old) }
{
    // Of most tokens nothing is asked but the state behind them.
    if pass_plain(state, token)? {
        return Ok(());
    }
    items.clear();
    let declared = reader::read(alloc, items, state, token)?;
    let len = faults.len();
    push_faults(faults, items.as_slice())?;
    match reader::pass_token(alloc, state, token, &declared) {
        Ok(()) => Ok(()),
        Err(error) => {
            let grown = faults.len();
            faults.cut(len, grown);
            Err(error)
        }
    }
}

impl Machine for Bare {
    type State = EventState;

    ghost use Rattle.nx_events.specs.declared.state.EventState as state;
    ghost use Rattle.nx_events.specs.BareRules.{bare_rules};
    ghost use Rattle.nx_events.specs.BareLaws.{bare_later_laws, bare_rule_laws};

    ghost Meaning = { state.EventState };

    ghost later = { λ _ _. Unit {0} };

    ghost is_state = { λ _ _. Unit {0} };

    ghost means = { λ _ s. s };

    ghost rules = { λ _. bare_rules };

    ghost laws = { bare_later_laws };

    ghost rule_laws = { λ _. bare_rule_laws };

    fn start(&mut self, alloc: Global) -> Result<EventState, NoMemory> {
        Ok(reader::begin(alloc)?)
    }

    fn step(
        &mut self,
        alloc: Global,
        state: &mut EventState,
        token: &Token,
        faults: &mut Faults,
    ) -> Result<(), NoMemory> {
        step_bare(alloc, &mut Items::new(alloc), state, token, faults)
    }

    fn at_end(
        &mut self,
        alloc: Global,
        state: &EventState,
        len: usize,
        faults: &mut Faults,
    ) -> Result<(), NoMemory> {
        let items = reader::finish(alloc, state, len)?;
        push_faults(faults, items.as_slice())?;
        Ok(())
    }

    fn may_mark(&self, state: &EventState) -> bool {
        !reader::pending(state)
    }

    fn depth(&self, state: &EventState) -> usize {
        reader::depth(state)
    }

    fn same(&self, a: &EventState, b: &EventState) -> bool {
        equal::same(a, b)
    }

    fn copy(&self, alloc: Global, state: &EventState) -> Result<EventState, NoMemory> {
        Ok(reader::copy(alloc, state)?)
    }
}
