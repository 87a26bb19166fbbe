//! Texts of events, worked out by hand.
//!
//! Tests alone, so that nx_written is proved once: a crate that holds tests is proved a second time with them.
#![tactic(auto)]

#[cfg(test)]
mod texts;
