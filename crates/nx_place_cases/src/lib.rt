//! Cases of places and views: where the ways through a text's elements lead, and what views show behind refreshes.
//!
//! The answers were worked out by hand, by the definitions of nx_move and nx_views. All of this is for tests.
#![tactic(auto)]

#[cfg(test)]
mod moves;
#[cfg(test)]
mod showing;
