//! Refusals.

ghost use Rattle.std.specs.Prelude.{◌≡◌};
ghost use Rattle.rng_types.specs.declared.fault.TypeFault.TheVariants.{NoMemory as OutOfMemory};

use nx_base::memory::NoMemory;
use thiserror::Error;

/// Why a type is refused.
#[derive(Clone, Copy, Debug, PartialEq, Eq, Error)]
pub enum TypeFault {
    /// The library has no type of that name.
    #[error("no such type")]
    UnknownType,
    /// The type doesn't take a param of that name.
    #[error("the type takes no such param")]
    UnknownParam,
    /// A param's value is no literal of its form.
    #[error("a param's value has the wrong form")]
    BadParam,
    /// There are too many excepts to say whether a member is left.
    #[error("too many excepts")]
    TooManyExcepts,
    /// There was no memory.
    #[error("out of memory")]
    NoMemory,
}

impl From<NoMemory> for TypeFault {
    ghost from_gives = { λ _ fault. fault ≡ OutOfMemory };

    fn from(_error: NoMemory) -> TypeFault {
        TypeFault::NoMemory
    }
}
