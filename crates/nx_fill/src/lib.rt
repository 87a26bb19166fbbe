//! Texts that complete a document from a place on, one for each offer of the place.
#![tactic(auto)]

pub mod filled;
pub mod law;

pub use filled::Filled;
