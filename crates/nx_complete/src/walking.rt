//! The way of a machine through a text, up to the token in front of a place.

ghost use Rattle.std.specs.Prelude.{◌≡◌, ◌+◌, ◌<◌, ◌≤◌, length, IfOk};
ghost use Rattle.nx_base.specs.Tokens.{cut};
ghost use Rattle.nx_complete.specs.Walking.{IsBehind, IsBefore};

use nx_base::fault::Faults;
use nx_base::machine::Machine;
use nx_base::memory::NoMemory;
use nx_base::steps::Steps;
use nx_base::token::Token;
use nx_scan::scan::scan_token;
use nx_text::text::Text;
use std::alloc::Global;
use std::sync::ledger::Ledger;

// Takes the token at a border, and answers the border behind it. What is wrong with the token isn't told.
fn pass<A: Machine>(
    alloc: Global,
    machine: &mut A,
    state: &mut A::State,
    text: &Text,
    here: usize,
    token: &Token,
) -> Result<usize, NoMemory>
    requires behind { IsBehind (A.is_state machine.old) (A.means machine.old) (A.rules machine.old) text.now here state.old }
    requires rest { here < length text.now }
    requires token { token.now ≡ cut text.now here }
    ensures later { A.later machine.old machine.new }
    ensures behind { IfOk result (λ next. IsBehind (A.is_state machine.new) (A.means machine.new) (A.rules machine.new) text.now next state.new) }
    ensures on { IfOk result (λ next. here < next) }
    ensures next { IfOk result (λ next. next ≡ here + length token.now.bytes) }
{
    let _len = text.len();
    let mut faults = Faults::new(alloc);
    machine.step(alloc, state, token, &mut faults)?;
    Ok(here + token.bytes.len())
}

/// Takes the tokens from a border on, up to the one that holds the byte in front of a place, and answers that one.
pub(crate) fn token_before<A: Machine, L: Ledger>(
    alloc: Global,
    machine: &mut A,
    state: &mut A::State,
    from: usize,
    text: &Text,
    at: usize,
    steps: &mut Steps<L>,
) -> Result<Token, NoMemory>
    requires behind { IsBehind (A.is_state machine.old) (A.means machine.old) (A.rules machine.old) text.now from state.old }
    requires before { from < at }
    requires within { at ≤ length text.now }
    ensures later { A.later machine.old machine.new }
    ensures token { IfOk result (IsBefore (A.is_state machine.new) (A.means machine.new) (A.rules machine.new) text.now at state.new) }
{
    let _len = text.len();
    let mut here = from;
    loop {
        let Some(token) = scan_token(alloc, text, here, steps)? else {
            unreachable!()
        };
        if at - here <= token.bytes.len() {
            return Ok(token);
        }
        here = pass(alloc, machine, state, text, here, &token)?;
    }
}
