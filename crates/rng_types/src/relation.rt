//! Comparing with a limit.

ghost use Rattle.std.specs.Prelude.{◌≡◌};
ghost use Rattle.rng_types.specs.Facets.{holds};

use crate::facet::Relation;
use std::cmp::Ordering;

impl Relation {
    /// Whether something that compares so with its limit is in the relation to it.
    pub(crate) fn holds(self, ordering: Ordering) -> bool
        ensures { result ≡ holds self ordering }
    {
        match self {
            Relation::Exactly => ordering == Ordering::Equal,
            Relation::AtLeast => ordering != Ordering::Less,
            Relation::AtMost => ordering != Ordering::Greater,
            Relation::Above => ordering == Ordering::Greater,
            Relation::Below => ordering == Ordering::Less,
        }
    }
}
