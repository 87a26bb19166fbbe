//! Calls of which some are to fail.

ghost use Rattle.std.specs.Prelude.{◌≡◌, ◌↔◌, IsTrue, IfOk};
ghost use Rattle.nx_host.specs.Count.{Rose};
ghost use Rattle.nx_host.specs.Calls.{no_calls, next_number, FailsNext, with_call, with_fault};

use crate::count::one_more;
use nx_base::memory::NoMemory;
use nx_base::sequence::Sequence;
use std::alloc::Global;

/// Counts an object's calls from 1 on, and says which of them are to fail. Both counts stay at
/// 2^64 - 1.
#[derive(Drop)]
pub(crate) struct Calls {
    failing: Sequence<u64>,
    made: u64,
    faults: u64,
}

impl Calls {
    /// No call made yet. Those with these numbers are to fail.
    pub(crate) fn new(alloc: Global, failing: &[u64]) -> Result<Calls, NoMemory>
        ensures { IfOk result (λ calls. calls ≡ no_calls failing.now) }
    {
        Ok(Calls {
            failing: Sequence::from_vec(Vec::from_slice(alloc, failing)?),
            made: 0,
            faults: 0,
        })
    }

    /// The number of the next call.
    fn next_number(&self) -> u64
        ensures { result ≡ next_number self.now }
    {
        one_more(self.made)
    }

    /// Whether the next call is to fail.
    pub(crate) fn fails_next(&self) -> bool
        ensures { IsTrue result ↔ FailsNext self.now }
    {
        self.failing.as_slice().contains(&self.next_number())
    }

    /// Counts a call that did not fail.
    pub(crate) fn count(&mut self)
        ensures { self.new ≡ with_call self.old }
    {
        self.made = self.next_number();
    }

    /// Counts a call that failed.
    pub(crate) fn count_fault(&mut self)
        ensures counted { self.new ≡ with_fault self.old }
        ensures rose { Rose self.old.faults self.new.faults }
    {
        self.made = self.next_number();
        self.faults = one_more(self.faults);
    }
}
