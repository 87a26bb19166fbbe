//! Why no schema can be located.

use crate::memory::NoMemory;
use crate::sequence::Bytes;

/// Why the rules for locating schemas can't be followed. A rules file is named by its URI.
#[derive(Drop)]
pub enum LocateFault {
    /// No file is under the URI of a rules file.
    RulesAbsent(Bytes),
    /// A rules file is no text from this byte offset on.
    RulesNotUtf8(Bytes, usize),
    /// A rules file is no well-formed document, or none with rules as its root.
    BadRules(Bytes),
    /// A rules file includes itself, perhaps through others.
    RulesLoop(Bytes),
    /// The text of a reference in a rules file, joined to that file's URI, is no URI.
    BadUri(Bytes),
    /// The files could not do it.
    Failed,
    NoMemory,
}

impl From<NoMemory> for LocateFault {
    ghost use Rattle.std.specs.Prelude.{◌≡◌};
    ghost use Rattle.nx_base.specs.declared.locate_fault.LocateFault.TheVariants as faults;

    ghost from_gives = { λ _ fault. fault ≡ faults.NoMemory };

    fn from(_error: NoMemory) -> LocateFault {
        LocateFault::NoMemory
    }
}
