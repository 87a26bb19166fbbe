//! Machines that read the tokens of a text, one by one, and give faults.
//!
//! A state holds no place of the text, so it serves wherever its tokens lie. What a machine does is one
//! record of rules over what its states mean; each call says an equation with these rules, and `same`
//! compares what states mean. So whoever keeps states can go on from one of them as if it had read the
//! text from the first byte.

ghost use Rattle.std.specs.Prelude.{◌≡◌, ◌+◌, ◌-◌, ◌<◌, ◌≤◌, ◌^◌, ◌++◌, length, IsTrue, ◌↔◌, IfOk, OnOk, OnErr, IsUtf8};
ghost use Rattle.nx_base.specs.Shifting.{placed};
ghost use Rattle.nx_base.specs.Rules.{Rules, RulesLaws, LaterLaws, lexeme_of, IsLexeme};
ghost use Rattle.nx_base.specs.Sameness.{SameStatesGoOn};

use crate::fault::Faults;
use crate::memory::NoMemory;
use crate::token::Token;
use std::alloc::Global;

/// A machine that reads tokens and gives faults. Places are byte offsets.
///
/// One machine is `later` than another where calls made it of the other, and then each state of the
/// earlier one is a state of the later one and means the same.
pub trait Machine: Drop {
    /// A state between two tokens.
    type State: Drop;

    /// What states mean: values without places.
    ghost Meaning: { Type 0 };

    ghost later: { Self → Self → Type 0 };

    ghost is_state: { Self → Self.State → Type 0 };

    ghost means: { Self → Self.State → Meaning };

    ghost rules: { Self → Rules Meaning };

    /// The state before the first token.
    fn start(&mut self, alloc: Global) -> Result<Self::State, NoMemory>
        ensures later { later self.old self.new }
        ensures state { IfOk result (λ s. is_state self.new s) }
        ensures first { IfOk result (λ s. means self.new s ≡ (rules self.new).first) };

    /// Takes one more token, and adds its faults in the order in which they arise. For want of memory the
    /// state means what it meant, and the faults are as before.
    fn step(
        &mut self,
        alloc: Global,
        state: &mut Self::State,
        token: &Token,
        faults: &mut Faults,
    ) -> Result<(), NoMemory>
        requires state { is_state self.old state.old }
        requires place { (rules self.old).back (means self.old state.old) ≤ token.now.from }
        requires room { token.now.from + length token.now.bytes < 2 ^ 64 }
        requires text { IsUtf8 token.now.bytes }
        requires kind { IsLexeme (lexeme_of token.now) }
        ensures later { later self.old self.new }
        ensures state { is_state self.new state.new }
        ensures after { OnOk result (means self.new state.new
            ≡ (rules self.old).after (means self.old state.old) (lexeme_of token.now)) }
        ensures faults { OnOk result (faults.new ≡ faults.old
            ++ placed (token.now.from - (rules self.old).back (means self.old state.old))
            ((rules self.old).gives (means self.old state.old) (lexeme_of token.now))) }
        ensures unchanged { OnErr result (means self.new state.new ≡ means self.old state.old) }
        ensures no_faults { OnErr result (faults.new ≡ faults.old) };

    /// Adds the faults of the end of the text, which is `len` bytes long. For want of memory the faults
    /// are as before.
    fn at_end(
        &mut self,
        alloc: Global,
        state: &Self::State,
        len: usize,
        faults: &mut Faults,
    ) -> Result<(), NoMemory>
        requires state { is_state self.old state.now }
        requires place { (rules self.old).back (means self.old state.now) ≤ len }
        ensures later { later self.old self.new }
        ensures faults { OnOk result (faults.new ≡ faults.old
            ++ placed (len - (rules self.old).back (means self.old state.now))
            ((rules self.old).ends (means self.old state.now))) }
        ensures no_faults { OnErr result (faults.new ≡ faults.old) };

    /// Whether the state may be saved as a mark: no text run is pending in it.
    fn may_mark(&self, state: &Self::State) -> bool
        requires { is_state self.now state.now }
        ensures { result ≡ (rules self.now).may_mark (means self.now state.now) };

    /// How many elements are open.
    fn depth(&self, state: &Self::State) -> usize
        requires { is_state self.now state.now }
        ensures { result ≡ (rules self.now).depth (means self.now state.now) };

    /// Whether the two mean the same, so that equal tokens lead on from both alike.
    fn same(&self, a: &Self::State, b: &Self::State) -> bool
        requires a { is_state self.now a.now }
        requires b { is_state self.now b.now }
        ensures { IsTrue result ↔ (means self.now a.now ≡ means self.now b.now) };

    /// A state that means the same.
    fn copy(&self, alloc: Global, state: &Self::State) -> Result<Self::State, NoMemory>
        requires { is_state self.now state.now }
        ensures state { IfOk result (λ s. is_state self.now s) }
        ensures meaning { IfOk result (λ s. means self.now s ≡ means self.now state.now) };

    ghost laws: { LaterLaws later is_state means rules };

    ghost rule_laws: { (s : Self) → RulesLaws (rules s) };
}

/// What `same` says of two states: it is true of a state with itself, of its copy and of two first states,
/// symmetric and transitive, whichever later machine is asked; and from two states of which it is true equal
/// tokens, and the end, give the same faults but for the distance of their places, and states of which it is
/// true again.
pub fn same_states_go_on<A: Machine>()
    ensures { SameStatesGoOn A.later A.is_state A.means A.rules }
{}
