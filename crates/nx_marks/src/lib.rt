//! Keeps how far a machine has read a text, so that reading goes on from there.
//!
//! Cutting a text into tokens is the scanner's, what a state is the machine's. Here stands which states are kept where, and that
//! they are right for the present text after every list of edits and slices, whatever was refused: the place up to which tokens were
//! taken, called the frontier; saved states, called marks, with the faults of the tokens between them; and marks aside, which an edit
//! left behind the frontier. At the end of the text that gives the faults which the machine finds in the whole of it, whatever came
//! before.
//!
//! Everything is one list of marks from the start on, each with how many bytes on the next one is, so an edit moves no place but the
//! one in front of it. A mark is whole where the tokens from it lead to the next one's state. An edit makes the mark whose segment it
//! touches no longer whole, and the frontier goes back there; the marks behind stay as they are. Where the frontier reaches one of
//! them in a state that means the same, its row, which is the run of whole marks from there on, is joined without a token.
//!
//! Of `<a>`, 40 times `<b/>` and `</a>` marks stand at 63 and 127, behind the 16th and the 32nd tag. A comment of 8 bytes put in at 71
//! takes the frontier back to 63; 17 tokens lead to 135, where the mark that was at 127 is, and the rest is joined.
#![tactic(auto)]

mod balance;
mod front;
pub mod kept;
pub mod law;
mod line;
mod listing;
pub mod mark;
pub mod marks;
mod parts;
mod rows;
mod single;
mod sums;
mod tree;

pub use marks::Marks;
