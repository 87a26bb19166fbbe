//! Dates, times and octets of XML Schema: which texts their types accept, and which two have the same value.
//!
//! A literal is read from left to right, and what it stands for is compared: a moment by its whole seconds and the digits of
//! their fraction, octets digit by digit. No call takes memory, and each takes time in proportion to its texts. Nothing here
//! knows of facets or of other types: `rng_types` stands above. Definitions in `specs/`: `Calendar`, `Literals`, `Octets` and
//! `MoreTypes` say what is meant; `Reading` is what is read, which laws (`laws`) tie to it.
#![tactic(auto)]

mod calendar;
pub mod laws;
mod moment;
pub mod more_type;
mod octets;
mod reading;
mod spaces;

pub use more_type::MoreType;
