//! Facets, by which a schema narrows a type (XML Schema Part 2, section 4.3).

use nx_base::equal::{Equal, EqualAll, same_each};
use nx_base::memory::NoMemory;
use nx_base::sequence::{Bytes, Sequence, TryCopy, TryCopyAll, copy_each};
use std::alloc::Global;

/// How a length or a number is to compare with its limit.
#[derive(Clone, Copy, Debug, PartialEq, Eq)]
pub enum Relation {
    Exactly,
    AtLeast,
    AtMost,
    Above,
    Below,
}

/// One facet of a type.
#[derive(Drop)]
pub enum Facet {
    /// A length, in characters, or in words where the form is several words.
    Length(Relation, u32),
    /// A number, by its literal.
    Bound(Relation, Bytes),
}

/// A list of facets.
pub type Facets = Sequence<Facet>;

impl Equal for Facet {
    fn equals(&self, other: &Facet) -> bool {
        match (self, other) {
            (Facet::Length(relation, limit), Facet::Length(other, end)) => {
                relation == other && limit == end
            }
            (Facet::Bound(relation, literal), Facet::Bound(other, end)) => {
                relation == other && literal.equals(end)
            }
            _ => false,
        }
    }
}

impl EqualAll for Facet {
    fn all_equal(a: &[Facet], b: &[Facet]) -> bool {
        same_each(a, b)
    }
}

impl TryCopy for Facet {
    fn copy(&self) -> Result<Facet, NoMemory> {
        match self {
            Facet::Length(relation, limit) => Ok(Facet::Length(*relation, *limit)),
            Facet::Bound(relation, literal) => Ok(Facet::Bound(*relation, literal.copy()?)),
        }
    }
}

impl TryCopyAll for Facet {
    fn copy_all(alloc: Global, items: &[Facet]) -> Result<Vec<Facet>, NoMemory> {
        copy_each(alloc, items)
    }
}
