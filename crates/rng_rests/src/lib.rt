//! Rests: events with which a document that has come to a state of a matcher can be completed.
//!
//! A client asks for a rest that begins with the start of an element, an attribute, or the end of the innermost element (`first`), and
//! is answered events that begin so and that the state takes (`rest`), written as moves of rng_fill. There is none exactly where no
//! such events are taken; and of a schema that is large, as rng_cost says it, no events are made.
//!
//! The trait stands above rng_live, so that matchers which nobody asks for rests don't know of it.
#![tactic(auto)]

mod first;
pub mod rest;

pub use first::First;
pub use rest::{Rest, Rests};
