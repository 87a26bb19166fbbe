//! Places of a text by the lines and columns that a client tells.
//!
//! The text lies in two pieces, and lines end with a line feed, a carriage return, or both. A place is looked for from the text's start on,
//! so it takes as long as what stands in front of it.
#![tactic(auto)]

pub mod place;
