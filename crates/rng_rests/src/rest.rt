//! The contract of matchers that tell rests.

ghost use Rattle.std.specs.Prelude.{List, IfOk};
ghost use Rattle.nx_base.specs.declared.name.Name.{Name};
ghost use Rattle.rng_core.specs.Soundness.{IsSoundGrammar};
ghost use Rattle.rng_rests.specs.Rests.{CanBegin, CanBeginSomehow, RestOf};

use crate::first::First;
use nx_base::memory::NoMemory;
use rng_fill::moves::Moves;
use rng_live::matcher::Matcher;
use std::alloc::Global;

/// What is answered where a rest is asked for.
#[derive(Drop)]
pub enum Rest {
    /// A rest.
    Found(Moves),
    /// There is one, but the content of some definition takes more than 10,000 events.
    TooMany,
    /// There is none.
    Nothing,
}

/// Tells rests.
pub trait Rests: Matcher {
    /// A rest of a state that begins so.
    ///
    /// What is asked of the state is so of each that stands for moves (`Stands` of rng_kept): each of its ways can be gone to the end, and
    /// asks for no attribute that its tag has. An attribute's name is to be none of these.
    ///
    /// Of a schema one of whose contents has a string beside a string or an element, which the restrictions forbid, it may answer want of
    /// memory.
    fn rest(&mut self, alloc: Global, s: &Self::State, first: &First) -> Result<Rest, NoMemory>
        requires state { Self.is_state self.old s.now }
        requires begins { CanBeginSomehow (Self.language self.old).definitions (Self.means self.old s.now) first.now }
        ensures later { Self.later self.old self.new }
        ensures rest { (l : List Name) → CanBegin (Self.language self.old).definitions l (Self.means self.old s.now) first.now
            → IfOk result (RestOf (Self.language self.old).definitions l (Self.means self.old s.now) first.now) };

    // As liveness, told by witnesses, of which no struct can hold one.
    ghost sound: { (m : Self) → ∥ IsSoundGrammar (Self.language m).start (Self.language m).definitions ∥₁ };
}
