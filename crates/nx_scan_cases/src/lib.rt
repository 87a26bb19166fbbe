//! Cases for cutting: 103 texts and their tokens, cut at each border in turn.
//!
//! Tests alone, so that nx_scan is proved once: a crate that holds tests is proved a second time with them.
#![tactic(auto)]

#[cfg(test)]
mod tokens;
