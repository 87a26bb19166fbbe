//! Cases for the words of the command line.
//!
//! Tests alone, so that nx_words is proved once: a crate that holds tests is proved a second time with them.
#![tactic(auto)]

#[cfg(test)]
mod lines;
