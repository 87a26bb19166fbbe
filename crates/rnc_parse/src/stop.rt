//! Why reading stops.

ghost use Rattle.std.specs.Prelude.{◌≡◌};
ghost use Rattle.rnc_parse.specs.declared.stop.Stop.TheVariants.{NoMemory as no_memory};

use nx_base::memory::NoMemory;
use nx_base::sequence::Bytes;
use std::alloc::{AllocError, AllocFailed};

/// Why reading stops.
#[derive(Drop)]
pub(crate) enum Stop {
    /// No reading goes on from here.
    Syntax,
    /// A prefix of names that stands for nothing.
    NamePrefix(Bytes),
    /// A prefix of types that stands for nothing.
    TypePrefix(Bytes),
    NoMemory,
}

impl From<NoMemory> for Stop {
    ghost from_gives = { λ _ stop. stop ≡ no_memory };

    fn from(_error: NoMemory) -> Stop {
        Stop::NoMemory
    }
}

impl From<AllocError> for Stop {
    ghost from_gives = { λ _ stop. stop ≡ no_memory };

    fn from(_error: AllocError) -> Stop {
        Stop::NoMemory
    }
}

impl<T: Drop> From<AllocFailed<T>> for Stop {
    ghost from_gives = { λ _ stop. stop ≡ no_memory };

    fn from(_error: AllocFailed<T>) -> Stop {
        Stop::NoMemory
    }
}
