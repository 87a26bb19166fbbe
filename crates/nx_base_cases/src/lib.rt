//! Cases for what every crate speaks of: lists and their copies, places and faults that an edit moves, names and codes.
//!
//! Tests alone, so that nx_base is proved once: a crate that holds tests is proved a second time with them.
#![tactic(auto)]

#[cfg(test)]
mod lists;
