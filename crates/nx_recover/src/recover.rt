//! Recovery, as a machine.

ghost use Rattle.std.specs.Prelude.{◌≡◌, option_copied};
ghost use Rattle.nx_recover.specs.Machine.{frame_in};

use crate::levels::Levels;
use crate::state::RecoverState;
use crate::step::{Scratch, step_over};
use crate::whole::{begin_over, copy_over, end_over, same_over};
use nx_base::fault::Faults;
use nx_base::machine::Machine;
use nx_base::memory::NoMemory;
use nx_base::token::Token;
use nx_events::bare::{Bare, step_bare};
use nx_events::reader;
use nx_events::state::EventState;
use rng_live::matcher::Matcher;
use std::alloc::Global;

/// Recovery over a matcher, or over none where no schema is held: then only faults of characters, markup, nesting and namespaces
/// arise.
#[derive(Drop)]
pub struct Recover<M: Matcher> {
    pub matcher: Option<M>,
    // the memory that one token after another is read in, once there is some
    scratch: Option<Scratch<M::State>>,
}

// A state without levels.
fn without_levels<S: Drop>(alloc: Global, events: EventState) -> RecoverState<S>
    ensures { result.events ≡ events }
{
    RecoverState {
        events,
        levels: Levels {
            here: None,
            elements: Vec::new(alloc),
        },
    }
}

impl<M: Matcher> Recover<M> {
    /// Recovery over this matcher.
    pub fn new(matcher: Option<M>) -> Recover<M>
        ensures { result.matcher ≡ matcher }
    {
        Recover {
            matcher,
            scratch: None,
        }
    }

    /// The state of the frame that goes on here; none exactly where there is no schema, or the innermost open element is lost.
    pub fn frame<'a>(&self, state: &'a RecoverState<M::State>) -> Option<&'a M::State>
        ensures { option_copied result ≡ frame_in self.now.matcher state.now.levels.here }
    {
        match &self.matcher {
            Some(_) => state.levels.here.as_ref(),
            None => None,
        }
    }

    /// The state of events.
    pub fn events<'a>(&self, state: &'a RecoverState<M::State>) -> &'a EventState
        ensures { result.now ≡ state.now.events }
    {
        &state.events
    }
}

impl<M: Matcher> Machine for Recover<M> {
    type State = RecoverState<M::State>;

    ghost use Rattle.nx_recover.specs.RecoverRules.{Recovered};
    ghost use Rattle.nx_recover.specs.Machine.{later_by, state_by, means_by, rules_by};
    ghost use Rattle.nx_recover.specs.MachineLaws.{laws_by, rule_laws_by};

    ghost Meaning = { Recovered };

    ghost later = { λ a b. later_by M.later a.matcher b.matcher };

    ghost is_state = { λ a s. state_by M.is_state a.matcher s };

    ghost means = { λ a s. means_by M.means a.matcher s };

    ghost rules = { λ a. rules_by M.language a.matcher };

    ghost laws = { laws_by M.laws };

    ghost rule_laws = { λ a. rule_laws_by M.language a.matcher };

    fn start(&mut self, alloc: Global) -> Result<Self::State, NoMemory> {
        match &mut self.matcher {
            Some(matcher) => begin_over(alloc, matcher),
            None => {
                let events = reader::begin(alloc)?;
                Ok(without_levels(alloc, events))
            }
        }
    }

    fn step(
        &mut self,
        alloc: Global,
        state: &mut Self::State,
        token: &Token,
        faults: &mut Faults,
    ) -> Result<(), NoMemory> {
        let scratch = self.scratch.get_or_insert_with(|| Scratch::new(alloc));
        match &mut self.matcher {
            Some(matcher) => step_over(alloc, matcher, scratch, state, token, faults),
            None => step_bare(alloc, &mut scratch.items, &mut state.events, token, faults),
        }
    }

    fn at_end(
        &mut self,
        alloc: Global,
        state: &Self::State,
        len: usize,
        faults: &mut Faults,
    ) -> Result<(), NoMemory> {
        match &mut self.matcher {
            Some(matcher) => end_over(alloc, matcher, state, len, faults),
            None => Bare.at_end(alloc, &state.events, len, faults),
        }
    }

    fn may_mark(&self, state: &Self::State) -> bool {
        !reader::pending(&state.events)
    }

    fn depth(&self, state: &Self::State) -> usize {
        reader::depth(&state.events)
    }

    fn same(&self, a: &Self::State, b: &Self::State) -> bool {
        match &self.matcher {
            Some(matcher) => same_over(matcher, a, b),
            None => Bare.same(&a.events, &b.events),
        }
    }

    fn copy(&self, alloc: Global, state: &Self::State) -> Result<Self::State, NoMemory> {
        match &self.matcher {
            Some(matcher) => copy_over(alloc, matcher, state),
            None => {
                let events = Bare.copy(alloc, &state.events)?;
                Ok(without_levels(alloc, events))
            }
        }
    }
}
