//! Moves over the elements of a text, by its tags alone.
//!
//! Tags are the Start, Empty and End tokens of a text; names aren't compared, so a text needs no schema and may be broken. An End
//! closes the Start in front of it between which all others are balanced. Each way from a place is a definition over the list of tags
//! that start at the place or later (`ahead`), or of those that end there or before (`behind`); a tag around the place is in neither.
//!
//! What is ahead is found by counting how deep the tags lie, what is behind by keeping the starts that are open. Both go over the
//! tokens once, from the start of the text, since only there a token's border is known. In `<a><b/>t<c>u</c></a>` forward from 3 leads
//! over `<b/>` to 7, then over `<c>u</c>` to 16, and stays there; up from 16 leads to 20, backward from 20 to 0.
#![tactic(auto)]

pub mod ahead;
pub mod behind;
pub mod moving;
pub mod tag;

pub use moving::go;
pub use nx_base::way::Way;
