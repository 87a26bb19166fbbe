//! What every crate of the workspace speaks of: lists of bytes, names and faults, tokens, edits, the
//! machines that read tokens, and the want of memory.
//!
//! Nothing here reads a text. The crates above do, and hand these values to one another.
#![tactic(auto)]

pub mod cause;
pub mod change;
pub mod character;
pub mod character_code;
pub mod detail;
pub mod edit;
pub mod equal;
pub mod fault;
pub mod form;
pub mod locate_fault;
pub mod machine;
pub mod memory;
pub mod name;
pub mod offer;
pub mod printed_name;
pub mod sequence;
pub mod shared_bytes;
pub mod steps;
pub mod token;
pub mod way;

pub use change::{Change, Changes};
pub use character::{is_char, is_name_char, is_name_start, is_space};
pub use detail::Detail;
pub use edit::{Edit, moved};
pub use fault::{Fault, Faults, Kind, Span};
pub use locate_fault::LocateFault;
pub use machine::Machine;
pub use memory::NoMemory;
pub use name::{Name, Names};
pub use offer::{Offer, OfferList, Offers};
pub use sequence::{Bytes, Sequence};
pub use token::{Token, TokenKind};
pub use way::Way;
