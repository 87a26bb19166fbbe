//! Classes that have a name.

ghost use Rattle.std.specs.Prelude.{◌≡◌};
ghost use Rattle.rng_core.specs.Meaning.{class_of};
ghost use Rattle.rng_live.specs.Living.{has_name_for};

use rng_core::name_class::{Bearer, NameClass};
use std::alloc::Global;

/// Whether some name that an element, or an attribute, can have is in the class.
#[inline(never)]
pub(crate) fn has_some_name(alloc: Global, class: &NameClass, bearer: Bearer) -> bool
    ensures { result ≡ has_name_for bearer (class_of class.now) }
{
    class.overlaps(alloc, class, bearer)
}
