//! Refusals.

ghost use Rattle.std.specs.Prelude.{◌≡◌, ◌||◌};
ghost use Rattle.rng_restrict.specs.declared.fault.RestrictFault.TheVariants.{NoMemory as OutOfMemory};

use nx_base::memory::NoMemory;

/// The restriction that a grammar breaks (ISO/IEC 19757-2, section 10).
#[derive(Clone, Copy, Debug, PartialEq, Eq)]
pub enum RestrictFault {
    /// A prohibited path (10.2).
    Path,
    /// An element's content mixes data with elements or text (10.3).
    Mixture,
    /// Both sides of a group or an interleave have an attribute with a name in common (10.4).
    AttributeOverlap,
    /// An attribute with anyName or nsName isn't repeated (10.4).
    WildcardOnce,
    /// Both sides of an interleave refer to an element with a name in common (10.5).
    InterleaveOverlap,
    /// Text occurs in both sides of an interleave (10.5).
    TextTwice,
    /// There was no memory.
    NoMemory,
}

impl From<NoMemory> for RestrictFault {
    ghost from_gives = { λ _ fault. fault ≡ OutOfMemory };

    fn from(_error: NoMemory) -> RestrictFault {
        RestrictFault::NoMemory
    }
}

/// Whether one of two has a fault.
pub(crate) fn either(first: bool, second: bool) -> bool
    ensures { result ≡ (first || second) }
{
    first || second
}

/// Whether one of three has a fault.
pub(crate) fn any_fault(first: bool, second: bool, third: bool) -> bool
    ensures { result ≡ (first || (second || third)) }
{
    first || second || third
}
