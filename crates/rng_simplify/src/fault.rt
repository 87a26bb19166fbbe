//! Refusals.

ghost use Rattle.std.specs.Prelude.{◌≡◌};
ghost use Rattle.rng_simplify.specs.declared.fault.SchemaFault.TheVariants.{NoMemory as OutOfMemory};

use nx_base::cause::Cause;
use nx_base::memory::NoMemory;
use nx_base::sequence::Bytes;
use std::alloc::{AllocError, AllocFailed};

/// Why files give no grammar.
#[derive(Drop)]
pub enum SchemaFault {
    /// Nothing is under this URI, to which a file of the schema refers, or with which it begins.
    Absent(Bytes),
    /// The file of this URI isn't UTF-8. Its bytes stop being text at this offset.
    NotUtf8(Bytes, usize),
    /// A file refers to another by this text, which is no URI.
    BadUri(Bytes),
    /// The files could not be had. Their count of faults rose.
    Failed,
    /// There was no memory.
    NoMemory,
    /// The files make no grammar.
    Unreadable(Cause),
}

impl From<NoMemory> for SchemaFault {
    ghost from_gives = { λ _ fault. fault ≡ OutOfMemory };

    fn from(_error: NoMemory) -> SchemaFault {
        SchemaFault::NoMemory
    }
}

impl From<AllocError> for SchemaFault {
    ghost from_gives = { λ _ fault. fault ≡ OutOfMemory };

    fn from(_error: AllocError) -> SchemaFault {
        SchemaFault::NoMemory
    }
}

impl<T: Drop> From<AllocFailed<T>> for SchemaFault {
    ghost from_gives = { λ _ fault. fault ≡ OutOfMemory };

    fn from(_error: AllocFailed<T>) -> SchemaFault {
        SchemaFault::NoMemory
    }
}
