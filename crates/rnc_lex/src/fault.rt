//! Refusals.

ghost use Rattle.std.specs.Prelude.{◌≡◌};
ghost use Rattle.rnc_lex.specs.declared.fault.LexFault.TheVariants.{NoMemory as OutOfMemory};

use nx_base::memory::NoMemory;
use std::alloc::{AllocError, AllocFailed};
use thiserror::Error;

/// Why a text isn't tokens, with the byte offset of the text at which it isn't.
#[derive(Clone, Copy, Debug, PartialEq, Eq, Error)]
pub enum LexFault {
    /// An escape `\x{..}` begins that denotes no Char, or has no digits or no `}`.
    #[error("bad escape at {0}")]
    BadEscape(usize),
    /// A literal that isn't closed.
    #[error("literal not closed at {0}")]
    BadLiteral(usize),
    /// A character that isn't a Char, or with which no token begins.
    #[error("bad character at {0}")]
    BadCharacter(usize),
    /// There was no memory.
    #[error("out of memory")]
    NoMemory,
}

impl From<NoMemory> for LexFault {
    ghost from_gives = { λ _ fault. fault ≡ OutOfMemory };

    fn from(_error: NoMemory) -> LexFault {
        LexFault::NoMemory
    }
}

impl From<AllocError> for LexFault {
    ghost from_gives = { λ _ fault. fault ≡ OutOfMemory };

    fn from(_error: AllocError) -> LexFault {
        LexFault::NoMemory
    }
}

impl<T: Drop> From<AllocFailed<T>> for LexFault {
    ghost from_gives = { λ _ fault. fault ≡ OutOfMemory };

    fn from(_error: AllocFailed<T>) -> LexFault {
        LexFault::NoMemory
    }
}
