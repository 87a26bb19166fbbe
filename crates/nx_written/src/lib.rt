//! Events written as text.
//!
//! Responsible for what a text of events is, inside of elements that are open, in front of the root, and behind a start tag that is begun
//! (`Writes`, `WritesRoot` and `WritesBegun` of specs/Documents.antt and specs/Begun.antt), for the laws that it is read back as these
//! events without a fault, by itself and behind what stands in front, and for writing it.
//!
//! The idea: which prefix is taken for a namespace is left to the one who writes. The definitions ask only that the written name expands to
//! the name, and that a prefix which is declared is new.
//!
//! Declarations in force are found in maps, by prefix and by URI (`scope`), and a new prefix has the least number that none in force has. So a name
//! takes a few look-ups, however many declarations there are.
//!
//! Inside of `<doc>`, an element `b` of the namespace `u` with the text `x<y`, and the end of `doc`, may be written
//! `<n0:b xmlns:n0='u'>x&lt;y</n0:b></doc>`.
#![tactic(auto)]

pub mod declaration;
mod escape;
pub mod law;
pub mod open_tag;
mod prefix;
mod scope;
mod serving;
mod spelling;
pub mod state;
mod tag;
pub mod writer;

pub use declaration::Declaration;
pub use open_tag::OpenTag;
pub use state::{write_in_tag, write_inside};
pub use writer::{write_attributes, write_rest};
