//! What is left of a way, filled from the inside outwards: a rest, as moves.
//!
//! What is left of the content of an open tag, of the children of each open element, and outside of the root is told as patterns
//! (`left`). Each is filled by the leaves of its least cost: attributes first, where a tag is open, then the children and the element's
//! end (`filling`). What the leaves of a pattern are filled with, the pattern matches, whatever it costs; so a pattern that is left of a
//! content may take more events than any content does, and is filled all the same.
#![tactic(auto)]

mod attributes;
mod children;
pub mod filling;
pub mod law;
pub mod left;

pub use filling::finish;
pub use left::{Left, Level};
