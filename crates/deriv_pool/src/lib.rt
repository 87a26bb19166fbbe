//! A matcher over single nodes.
//!
//! `Pool` meets the contract of matchers of the crate rng_live with the residuals of `Plain`, but a state of it is one number: no two
//! states mean the same, so whether two are the same is one comparison, and a copy of a state is the state. What states are made
//! of is kept in deriv_states, each part once, so equal events make nothing new, and no pattern is copied. What `enter`, `tag_end`
//! and `leave` answered on a state is noted in deriv_memory, and is the answer when the call is made again, which makes nothing. So
//! is what `chars` and `attribute` answered, for all strings that are blank, or aren't, where the state tells none from another.
//! What is needed at a node is kept (`kept_names`) by nodes, since states differ by what lies around elements. What numbers tell
//! of states, the laws say (`law`).
#![tactic(auto)]

mod kept_names;
mod known;
pub mod law;
mod needed;
pub mod pool;
mod recalling;
mod required;
pub mod state;

pub use pool::Pool;
