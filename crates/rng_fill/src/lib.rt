//! Fillings: elements that the definitions of a schema allow, with the least that their contents ask for.
//!
//! Of each content the leaves of its least cost are filled (rng_cost); they are found once for each definition (`contents`), and so is
//! what its elements begin with, where one is written (`heads`): their name, their attributes and their string. An element is
//! written along a stack of what is still to be done (`element`), so that elements may nest as deep as they need: first what it begins
//! with is written, then its elements are put on the stack. Each element costs three more
//! than its content, so the stack empties. What a leaf is filled with is told by `names`, a name of its class, and by `strings`, a
//! value or a string; `words` makes those of lists.
//!
//! `filled_where_not_large` says of which schemas all definitions can be filled: of those that pruning leaves, where no content takes more
//! than 10,000 events.
#![tactic(auto)]

mod attributes;
pub mod contents;
pub mod element;
pub mod heads;
pub mod law;
mod leaf;
pub mod moves;
pub mod names;
mod start;
pub mod strings;
mod words;

pub use contents::Contents;
pub use heads::Heads;
pub use moves::{Move, Moves};
