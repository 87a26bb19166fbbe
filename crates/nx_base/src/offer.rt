//! What may stand at a place of a text.

use crate::memory::NoMemory;
use crate::name::Name;
use crate::sequence::{Bytes, Sequence, TryCopy, TryCopyAll, copy_each};
use std::alloc::Global;

/// What may stand at a place.
#[derive(Drop)]
pub enum Offer {
    /// A name that the schema mentions.
    Name(Name),
    /// Each name of this namespace that the schema doesn't mention.
    AnyIn(Bytes),
    /// Each name of the namespaces that the schema doesn't mention.
    AnyElse,
    /// A literal of the schema, as an attribute's value.
    Value(Bytes),
    /// The end tag with this written name.
    End(Bytes),
}

/// A list of offers.
pub type OfferList = Sequence<Offer>;

/// What a place is offered.
#[derive(Drop)]
pub enum Offers {
    /// It is a place of which no schema says anything.
    Nowhere,
    /// These, in the order of their kinds and each kind sorted by bytes; perhaps none.
    List(OfferList),
}

impl TryCopy for Offer {
    fn copy(&self) -> Result<Offer, NoMemory> {
        Ok(match self {
            Offer::Name(name) => Offer::Name(name.copy()?),
            Offer::AnyIn(ns) => Offer::AnyIn(ns.copy()?),
            Offer::AnyElse => Offer::AnyElse,
            Offer::Value(literal) => Offer::Value(literal.copy()?),
            Offer::End(name) => Offer::End(name.copy()?),
        })
    }
}

impl TryCopyAll for Offer {
    fn copy_all(alloc: Global, items: &[Offer]) -> Result<Vec<Offer>, NoMemory> {
        copy_each(alloc, items)
    }
}
