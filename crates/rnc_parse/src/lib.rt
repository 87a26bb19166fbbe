//! The compact syntax of RELAX NG (ISO/IEC 19757-2, Annex C) read into the surface of a schema file.
//!
//! Tokens come from rnc_lex. What a text says, and why a text says nothing, stands in specs/Reads.antt, over the grammar of
//! specs/Files.antt and those below it. `read` answers that (specs/Answering.antt), by a surface that is seen without its memory
//! (specs/Views.antt); the laws are those of specs/Laws.antt. Other files that a schema refers to are for the crate above.
//!
//! Tokens are read from left to right, once. Where that stops at a prefix that stands for nothing, the body is read once more
//! with every prefix declared, and where declarations clash it is read in that way alone: tokens that are in no reading are told
//! first.
//!
//! A worked example: `element p:a { \x{74}ext }` is the tokens `element` at 0, `p:a` at 8, `{` at 12, `text` at 14 and `}` at 24.
//! Behind `namespace p = "u"` it says the pattern of an element with the name `a` in the namespace `u` and with text in it; alone it
//! leaves `p` out, and without its last brace it is in no reading, whatever `p` stands for.
#![tactic(auto)]

mod annotation;
mod cursor;
pub mod declaration;
pub mod law;
mod leaf;
mod name_class;
mod part;
mod pattern;
pub mod read;
mod reader;
mod scope;
mod sign;
mod stop;
pub mod surface;

pub use read::ReadFault;
pub use surface::Surface;
