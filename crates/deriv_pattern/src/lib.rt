//! What is left of a pattern behind a part of a document: its derivatives.
//!
//! Each function equals the function of rng_kept with the same meaning, over what the patterns stand for. That these are the
//! rests of kept lists is proved in rng_residual; nothing of matching is proved here. A state of a matcher is put together from
//! these in deriv_plain; what a matcher goes on by (`step`) is the same there and in deriv_states.
//!
//! What walks over a pattern calls itself as deep as its paths are, which may be thousands of nodes: so it holds boxes alone.
#![tactic(auto)]

pub mod attributes;
mod boxes;
pub mod law;
pub mod leaves;
pub mod needed;
pub mod openings;
mod parts;
pub mod required;
pub mod small;
pub mod solid;
pub mod step;
pub mod strings;
