//! What a matcher by numbers remembers: the parts of names, each by its number, and what calls on numbered states answered.
//!
//! Nothing is known here of patterns and of what states mean. To a contract a memory is the list of the texts that it keeps, a
//! text's number being its place, and a look-up from calls to answers. A text's number stays, no text has two, and an answer that
//! was noted is told until another one is noted of the same call.
#![tactic(auto)]

pub mod asked;
mod at_hand;
mod block;
mod guesses;
pub mod memory;
mod numbered_texts;
mod text;
