//! Refusals.

ghost use Rattle.std.specs.Prelude.{◌≡◌};
ghost use Rattle.rng_live.specs.declared.fault.LiveFault.TheVariants.{NoMemory as OutOfMemory};

use nx_base::memory::NoMemory;

/// Why a grammar has no schema.
#[derive(Clone, Copy, Debug, PartialEq, Eq)]
pub enum LiveFault {
    /// No document is valid.
    NothingValid,
    /// There was no memory.
    NoMemory,
}

impl From<NoMemory> for LiveFault {
    ghost from_gives = { λ _ fault. fault ≡ OutOfMemory };

    fn from(_error: NoMemory) -> LiveFault {
        LiveFault::NoMemory
    }
}
