//! The text of a document: UTF-8 that is edited at its places, and read at them.
//!
//! The layers above see the list of its bytes alone, and tell one another of its edits by `Edit`.
#![tactic(auto)]

mod apart;
mod change;
mod fill;
mod gap_buffer;
pub mod law;
mod line_feeds;
mod places;
pub mod search;
pub mod text;

pub use text::{Text, TextFault};
