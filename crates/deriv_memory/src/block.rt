//! The starts of elements in one state: which state each name of one namespace leads to.

ghost use Rattle.std.specs.Prelude.{◌≡◌, ℕ, IfSome, Option, Some, true};
ghost use Rattle.deriv_memory.specs.AtHand.{said, IsFree, IsPut, is_owner, number_for};

use crate::at_hand::read;

/// How many numbers of local parts have a place: with these a block has 512 bytes.
const NAMES: usize = 256;

/// Whose a block is: which state's, and for which namespace. Owners stand apart from their blocks, so that many share a cache line.
#[derive(Clone, Copy)]
pub(crate) struct Owner {
    state: u32,
    ns: u32,
}

/// Answers of one state for names of one namespace, by the local part's number. Names that come often mostly come early, so they stand
/// in the first cache lines. For that an answer has 16 bits; one that needs more stands elsewhere.
#[derive(Clone, Copy)]
pub(crate) struct Block {
    answers: [u16; NAMES],
}

impl Owner {
    /// An owner with these numbers; none where one is too large.
    pub(crate) fn of(state: usize, ns: usize) -> Option<Owner>
        ensures { IfSome result (λ owner. is_owner owner state ns ≡ true) }
    {
        let state = u32::try_from(state).ok()?;
        let ns = u32::try_from(ns).ok()?;
        Some(Owner { state, ns })
    }

    /// Whether this is the state, for any namespace.
    pub(crate) fn is_state(&self, state: usize) -> bool {
        self.state as usize == state
    }

    /// Whether this is the state, for this namespace.
    #[inline(always)]
    pub(crate) fn is(&self, state: usize, ns: usize) -> bool
        ensures { result ≡ is_owner self.now state ns }
    {
        self.state as usize == state && self.ns as usize == ns
    }
}

impl Block {
    /// A block in which nothing stands.
    pub(crate) fn new() -> Block
        ensures { IsFree result }
    {
        // 0 is the number where nothing is at hand
        let answers = [0; NAMES];
        Block { answers }
    }

    /// The answer for a name, if it stands here.
    #[inline(always)]
    pub(crate) fn answer(&self, local: usize) -> Option<Option<usize>>
        ensures { result ≡ said (number_for self.now local) }
    {
        match self.answers.get(local) {
            Some(number) => read(*number as u32),
            None => None,
        }
    }

    /// From now on this number is the answer for a name, if both have room here. Says whether they have.
    pub(crate) fn put(&mut self, local: usize, number: u32) -> bool
        ensures put { IsPut self.old self.new local number }
        ensures there { result ≡ true → number_for self.new local ≡ number }
    {
        let Ok(narrow) = u16::try_from(number) else {
            return false;
        };
        if local >= NAMES {
            return false;
        }
        self.answers[local] = narrow;
        true
    }
}
