//! States of a matcher as single numbers: no two of them mean the same.
//!
//! A state is a list of ways to go on (`branch`), each told by the numbers of nodes (deriv_nodes) and of what lies around elements
//! (`around`). Both are kept once, each behind its parts, so that a number tells what is meant, and comparing two is one comparison.
//! To a contract `States` is four lists: the patterns of nodes, what lies around elements, the residuals of states, and the
//! contents of definitions. Each call leaves what was there where it stood; `stepped` answers the state of the residual of
//! rng_kept's function for a step.
#![tactic(auto)]

pub mod around;
pub mod branch;
mod content;
mod entering;
mod merging;
pub mod states;
mod step;
mod tags;
pub mod telling;
