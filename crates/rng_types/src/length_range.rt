//! Lengths that facets allow.

ghost use Rattle.std.specs.Prelude.{◌≡◌, ◌≤◌, ◌^◌, max};
ghost use Rattle.rng_types.specs.TextMembers.{is_length_met as is_met, allows as allows_length, least_from};
ghost use Rattle.rng_types.specs.TextMembers.{least_length as least_of_all, has_length as has_some_length};

use crate::facet::{Facet, Relation};

impl Relation {
    /// The least length in the relation to this limit.
    fn least(self, limit: u32) -> u64
        ensures value { result ≡ least_from self limit }
        ensures small { result ≤ 2 ^ 32 }
    {
        match self {
            Relation::Exactly => u64::from(limit),
            Relation::AtLeast => u64::from(limit),
            Relation::AtMost => 0,
            Relation::Above => u64::from(limit) + 1,
            Relation::Below => 0,
        }
    }
}

impl Facet {
    /// Whether a length meets the facet.
    fn allows(&self, length: u64) -> bool
        ensures { result ≡ is_met length self.now }
    {
        match self {
            Facet::Length(relation, limit) => relation.holds(length.cmp(&u64::from(*limit))),
            Facet::Bound(_, _) => false,
        }
    }
}

/// Whether facets allow a length.
pub(crate) fn allows(facets: &[Facet], length: u64) -> bool
    ensures { result ≡ allows_length facets.now length }
{
    facets.iter().all(|facet| facet.allows(length))
}

/// The least length from 1 on that no lower end rules out.
pub(crate) fn least_length(facets: &[Facet]) -> u64
    ensures { result ≡ least_of_all facets.now }
{
    let mut least: u64 = 1;
    let mut left = facets;
    while let Some((facet, rest)) = left.split_first() {
        match facet {
            Facet::Length(relation, limit) => least = least.max(relation.least(*limit)),
            Facet::Bound(_, _) => {}
        }
        left = rest;
    }
    least
}

/// Whether some length from 1 on is allowed.
pub(crate) fn has_length(facets: &[Facet]) -> bool
    ensures { result ≡ has_some_length facets.now }
{
    allows(facets, least_length(facets))
}
