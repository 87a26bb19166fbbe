//! What may stand at a place of a text, against a schema.
//!
//! Responsible for the offers of a place: the names with which an element or an attribute may go on there, the values of an attribute, the
//! end of the innermost element. What stands in front of the place is read by recovery (nx_recover), from a border that the caller knows on;
//! what is being written there is told by nx_events; whether something may stand there is asked of a matcher (rng_live).
//!
//! The idea: a schema mentions few names, so each of them is asked for. All others of a namespace are alike to it, so one of them is asked
//! for, which is longer than any name there; and so are those of all namespaces that it doesn't mention.
//!
//! Where a schema wants `doc` with an attribute `id`, and in it a `title` before any `para`, behind `<doc id='a'><` a `title` is offered,
//! behind `<doc id='a'><title/></` the end of `doc`, and behind `<doc ` the attribute `id`.
//!
//! `OffersOf` of nx_recover (specs/Offers.antt) is the definition, in words of lists of events that are kept. That in a text without faults
//! the names and the end are exactly those that can be completed to a valid document is the law `offers_are_exact`; that each place has one
//! answer, the laws `offers_are_one` and `every_place_has_offers`.
#![tactic(auto)]

pub mod answers;
pub mod apart;
pub mod law;
mod names;
pub mod naming;
pub mod place;
mod values;
mod walking;

pub use nx_base::offer::{Offer, OfferList, Offers};
pub use place::offers;
