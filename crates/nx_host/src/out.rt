//! The output.

ghost use Rattle.std.specs.Prelude.{ℕ, List, Option};
ghost use Rattle.nx_host.specs.Out.{Writes, CountsOutFault};

use std::alloc::{AllocError, Global};

/// Why an output refused a write.
#[derive(Clone, Copy, Debug, PartialEq, Eq)]
pub enum OutFault {
    /// The output could not do it. Its count of faults rose.
    Failed,
    NoMemory,
}

impl From<AllocError> for OutFault {
    ghost use Rattle.std.specs.Prelude.{◌≡◌};
    ghost use Rattle.nx_host.specs.declared.out.OutFault.TheVariants.{NoMemory};

    ghost from_gives = { λ _ fault. fault ≡ NoMemory };

    fn from(_error: AllocError) -> OutFault {
        OutFault::NoMemory
    }
}

/// Takes bytes, in order.
pub trait Out {
    /// The bytes written so far, where the output tells them.
    ghost told: { Self → Option (List ℕ) };

    /// How many writes were answered `Failed`. It stays at 2^64 - 1.
    ghost faults: { Self → ℕ };

    /// Writes the bytes whole; after `Failed` a part of them, from the first on; after `NoMemory` nothing.
    fn write(&mut self, alloc: Global, bytes: &[u8]) -> Result<(), OutFault>
        ensures written { Writes result (told self.old) bytes.now (told self.new) }
        ensures faults { CountsOutFault result (faults self.old) (faults self.new) };
}
