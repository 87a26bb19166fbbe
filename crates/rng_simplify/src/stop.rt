//! Why files were not composed.

ghost use Rattle.std.specs.Prelude.{◌≡◌};
ghost use Rattle.rng_simplify.specs.declared.stop.Stop.TheVariants.{NoMemory as OutOfMemory};

use nx_base::cause::Cause;
use nx_base::memory::NoMemory;
use std::alloc::{AllocError, AllocFailed};

/// Why nothing was composed.
#[derive(Clone, Copy, Debug, PartialEq, Eq)]
pub(crate) enum Stop {
    /// The files make no schema.
    Unreadable(Cause),
    /// No piece is left for a file that is mentioned. That never happens where each mentioned file was read.
    NoPiece,
    NoMemory,
}

impl From<NoMemory> for Stop {
    ghost from_gives = { λ _ stop. stop ≡ OutOfMemory };

    fn from(_error: NoMemory) -> Stop {
        Stop::NoMemory
    }
}

impl From<AllocError> for Stop {
    ghost from_gives = { λ _ stop. stop ≡ OutOfMemory };

    fn from(_error: AllocError) -> Stop {
        Stop::NoMemory
    }
}

impl<T: Drop> From<AllocFailed<T>> for Stop {
    ghost from_gives = { λ _ stop. stop ≡ OutOfMemory };

    fn from(_error: AllocFailed<T>) -> Stop {
        Stop::NoMemory
    }
}
