//! Lines and columns of many places of a text, in one walk over it.
//!
//! A list of faults is nearly in order of its places. A `Cursor` stands at a place whose line and column it knows, and goes on from there:
//! forth to the next place, or back by the bytes between. So the places of a list take as long as the text, however long its lines are.
#![tactic(auto)]

pub mod cursor;
mod mark;
#[cfg(test)]
mod tests;

pub use cursor::Cursor;
