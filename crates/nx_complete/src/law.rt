//! Laws of offers, each a function that does nothing.

ghost use Rattle.nx_complete.specs.Exact.{OffersAreExact};
ghost use Rattle.nx_complete.specs.Existence.{EveryPlaceHasOffers};
ghost use Rattle.nx_complete.specs.Uniqueness.{OffersAreOne};

/// At a place in front of which nothing has a fault, against a live schema: the names that are offered denote exactly those with which an
/// element, or an attribute with some value, can be completed to a valid document by further events; and an end tag is offered exactly where
/// it can.
pub fn offers_are_exact()
    ensures { OffersAreExact }
{}

/// A place of a text has one answer at most, against any schema or none.
pub fn offers_are_one()
    ensures { OffersAreOne }
{}

/// Against a live schema or none, each place of a text has an answer.
pub fn every_place_has_offers()
    ensures { EveryPlaceHasOffers }
{}
