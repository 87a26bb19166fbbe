//! The messages of the Language Server Protocol 3.17: where one ends among bytes, what its JSON says, and what is sent back.
//!
//! A message is a head, `Content-Length: 17` and an empty line, and so many bytes of JSON (`frame`). Its value is serde_json's; each shape
//! of the protocol is a small function over values, which equals a definition over what they mean (specs/). Nothing else of a message is
//! looked at: what the protocol adds to a shape is passed over.
#![tactic(auto)]

pub mod answer;
pub mod capabilities;
pub mod change;
pub mod diagnostic;
pub mod document;
pub mod encoding;
pub mod envelope;
pub mod frame;
pub mod law;
pub mod place;
pub mod read;
pub mod send;
pub mod value;
