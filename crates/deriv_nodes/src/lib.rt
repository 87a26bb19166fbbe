//! Patterns as single nodes: no two of them are put together alike, so that numbers tell whether patterns are the same.
//!
//! `Nodes` keeps what nodes are made of (`shape`, over the leaves of a schema, `leaf`) in two sets, each once; a node stands behind
//! its parts. To a contract it is the list of the nodes' patterns, and a node's number is its pattern's place. Each call that makes
//! nodes leaves those that were there where they stood, and gives the number of the pattern of rng_kept's function with the same
//! meaning; nothing of matching is proved here. A pattern of a schema becomes nodes once (`importing`), and no type, text or name
//! class is copied after that. What opens at a node by whatever name is kept where that is little (`kept_openings`), and asked again with each name.
#![tactic(auto)]

pub mod attributes;
pub mod importing;
pub mod kept_openings;
pub mod leaf;
pub mod needed;
pub mod node;
pub mod nodes;
pub mod openings;
mod parts;
pub mod required;
pub mod shape;
pub mod skipping;
pub mod small;
pub mod solid;
pub mod strings;
pub mod table;
pub mod telling;
mod view;
