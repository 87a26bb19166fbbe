//! The offers of a place.

ghost use Rattle.std.specs.Prelude.{◌≡◌, ◌⊎◌, ◌<◌, IfOk, IfSome, option_map};
ghost use Rattle.nx_base.specs.Text.{IsPlace};
ghost use Rattle.rng_kept.specs.Live.{IsLive};
ghost use Rattle.nx_recover.specs.Machine.{later_by, state_by, means_by, rules_by};
ghost use Rattle.nx_recover.specs.Offers.{OffersOf};
ghost use Rattle.nx_complete.specs.Walking.{IsBehind};

use crate::answers::answer;
use crate::walking::token_before;
use nx_base::machine::Machine;
use nx_base::memory::NoMemory;
use nx_base::offer::Offers;
use nx_base::steps::Steps;
use nx_recover::recover::Recover;
use nx_recover::state::RecoverState;
use nx_text::text::Text;
use rng_live::matcher::Matcher;
use std::alloc::Global;
use std::sync::ledger::Ledger;

/// What may stand at a place: a byte offset at a character's border. `from` is a border of the text's tokens in front of it, and the state
/// one behind the tokens up to there; the tokens from there on are read, each once.
pub fn offers<M: Matcher, L: Ledger>(
    alloc: Global,
    machine: &mut Recover<M>,
    from: usize,
    state: &RecoverState<M::State>,
    text: &Text,
    at: usize,
    steps: &mut Steps<L>,
) -> Result<Offers, NoMemory>
    requires place { IsPlace text.now at }
    requires before { (from < at) ⊎ (at ≡ 0) }
    requires behind { IsBehind (state_by M.is_state machine.old.matcher) (means_by M.means machine.old.matcher)
        (rules_by M.language machine.old.matcher) text.now from state.now }
    ensures later { later_by M.later machine.old.matcher machine.new.matcher }
    ensures offers { IfSome (option_map M.language machine.old.matcher) IsLive
        → IfOk result (OffersOf (option_map M.language machine.old.matcher) text.now at) }
{
    if at == 0 {
        return Ok(Offers::Nowhere);
    }
    let _len = text.len();
    let mut behind = machine.copy(alloc, state)?;
    let token = token_before(alloc, machine, &mut behind, from, text, at, steps)?;
    match &mut machine.matcher {
        Some(matcher) => answer(alloc, matcher, &mut behind, &token, at),
        None => Ok(Offers::Nowhere),
    }
}

/// The same where nothing is known of the text: it is read from its first byte on.
pub fn offers_from_start<M: Matcher, L: Ledger>(
    alloc: Global,
    machine: &mut Recover<M>,
    text: &Text,
    at: usize,
    steps: &mut Steps<L>,
) -> Result<Offers, NoMemory>
    requires { IsPlace text.now at }
    ensures later { later_by M.later machine.old.matcher machine.new.matcher }
    ensures offers { IfSome (option_map M.language machine.old.matcher) IsLive
        → IfOk result (OffersOf (option_map M.language machine.old.matcher) text.now at) }
{
    let _len = text.len();
    let first = machine.start(alloc)?;
    offers(alloc, machine, 0, &first, text, at, steps)
}
