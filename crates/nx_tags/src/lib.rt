//! Commands on the tags of a text: an element is finished, split or put in at a place, and one is renamed.
//!
//! A command is answered by changes of the text, or by none where it may not be carried out. The changes leave every token of the text as it
//! is, but that a place inside of a Text token cuts it, and a name is replaced in its tags. So what tags give that are put in is known by them
//! and by what is known of the text in front of them, and what another name gives by what the old one gave.
//!
//! Tags can be put in where an element is open, and where the token that ends there, or that the place cuts, goes on as it did. In
//! `<a>x&lt;y</a>` these are the places 3, 4, 8 and 9: at 6 the reference would be lost, and at 2 and 11 a tag.
//!
//! The text is read from a border of its tokens at which the events' state is known, as its start or a mark, up to the place; a new name asks
//! for its end tag, and reads on to that.
#![tactic(auto)]

pub mod command;
mod element;
mod free;
mod front;
pub mod law;
pub mod tags;
mod written;

pub use command::TagCommand;
pub use tags::{changes, changes_from};
