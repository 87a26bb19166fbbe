//! Files, by their URIs.

ghost use Rattle.std.specs.Prelude.{◌≡◌, ℕ, Option, IfOk};
ghost use Rattle.nx_host.specs.Files.{FileMap, Holds, HasFile, Stores, CountsFault};

use nx_base::memory::NoMemory;
use nx_base::sequence::Bytes;
use std::alloc::{AllocError, Global};
use std::io::{self, ErrorKind};

/// Why files refused a call.
#[derive(Clone, Copy, Debug, PartialEq, Eq)]
pub enum FileFault {
    /// The files could not do it. Their count of faults rose.
    Failed,
    NoMemory,
}

impl From<NoMemory> for FileFault {
    ghost use Rattle.std.specs.Prelude.{◌≡◌};
    ghost use Rattle.nx_host.specs.declared.files.FileFault.TheVariants as fault_of_files;

    ghost from_gives = { λ _ fault. fault ≡ fault_of_files.NoMemory };

    fn from(_error: NoMemory) -> FileFault {
        FileFault::NoMemory
    }
}

impl From<AllocError> for FileFault {
    ghost use Rattle.std.specs.Prelude.{◌≡◌};
    ghost use Rattle.nx_host.specs.declared.files.FileFault.TheVariants as fault_of_files;

    ghost from_gives = { λ _ fault. fault ≡ fault_of_files.NoMemory };

    fn from(_error: AllocError) -> FileFault {
        FileFault::NoMemory
    }
}

impl From<io::Error> for FileFault {
    ghost use Rattle.nx_host.specs.Files.{IsFaultOf};

    ghost from_gives = { IsFaultOf };

    /// Want of memory is what it is, and any other error of the system is a failure.
    fn from(error: io::Error) -> FileFault {
        match error.kind() {
            ErrorKind::OutOfMemory => FileFault::NoMemory,
            _ => FileFault::Failed,
        }
    }
}

/// Files that are fetched and stored by URI texts, as `url` prints them.
pub trait Files {
    /// The bytes under each URI, where the files tell them.
    ghost told: { Self → Option FileMap };

    /// How many calls were answered `Failed`. It stays at 2^64 - 1.
    ghost faults: { Self → ℕ };

    /// The bytes under the URI, or none. They may be any bytes.
    fn fetch(&mut self, alloc: Global, uri: &str) -> Result<Option<Bytes>, FileFault>
        ensures found { IfOk result (Holds (told self.old) uri.now) }
        ensures map { told self.new ≡ told self.old }
        ensures faults { CountsFault result (faults self.old) (faults self.new) };

    /// Whether something is under the URI.
    fn has(&mut self, alloc: Global, uri: &str) -> Result<bool, FileFault>
        ensures found { IfOk result (HasFile (told self.old) uri.now) }
        ensures map { told self.new ≡ told self.old }
        ensures faults { CountsFault result (faults self.old) (faults self.new) };

    /// Puts the bytes under the URI. Where that is refused, what is under it is open.
    fn store(&mut self, alloc: Global, uri: &str, bytes: &Bytes) -> Result<(), FileFault>
        ensures stored { Stores result (told self.old) uri.now bytes.now (told self.new) }
        ensures faults { CountsFault result (faults self.old) (faults self.new) };
}
