//! Schemas of which only what lives is left, and the contract of the matchers that follow a document through one.
//!
//! A pattern is dead where it matches nothing that can be written. `prune` replaces each choice that has one dead side with
//! its other side, drops the definitions that the start then doesn't reach, and refuses a grammar that no document is valid
//! for. So each pattern of a schema matches something, which is what lets a matcher tell at each event whether the document
//! can still become valid.
//!
//! How what is dead is found:
//!
//! - Each node of a pattern is a condition on those of its parts (`life`); of a definition, on its content.
//! - Conditions hold from below: each that is found to hold wakes those that rest on it (`waiting`, `holding`).
//! - What is left of a pattern is found by a walk along the numbers of its conditions (`left`), and definitions get their
//!   new numbers as the walk first meets them (`kept`).
//!
//! The walks call themselves once for each node of a path. So what calls itself holds references, numbers and boxes alone, and
//! what holds a pattern or a condition is called for one node (`boxes`). A grammar with a path of more than 8,000 nodes, which
//! simplification refuses, is answered as want of memory (`depth`).
//!
//! Each of these is linear in the nodes of the grammar; the excepts of a type are compared with its values where these are
//! few (`takes`).
#![tactic(auto)]

mod boxes;
mod condition;
pub mod depth;
pub mod fault;
pub mod gathering;
mod holding;
mod kept;
mod left;
mod life;
pub mod matcher;
mod naming;
pub mod prune;
pub mod schema;
pub mod shared_names;
pub mod sorting;
mod takes;
mod waiting;

pub use fault::LiveFault;
pub use matcher::Matcher;
pub use schema::Schema;
