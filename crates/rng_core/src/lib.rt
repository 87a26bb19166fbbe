//! Patterns in the simple form of RELAX NG (ISO/IEC 19757-2), name classes, and grammars.
//!
//! What a pattern matches is defined here, in `specs/`, on finished trees: that is what every crate above
//! is measured against. Nothing here reads a schema or matches a document.
#![tactic(auto)]

pub mod building;
mod copying;
pub mod equality;
pub mod grammar;
pub mod law;
pub mod name_class;
pub mod overlap;
mod sorted_class;

pub use grammar::{Def, Defs, Grammar, Pat};
pub use name_class::NameClass;
