//! Cases for types: literals, params, and members beside excepts.
//!
//! Tests alone, so that rng_types is proved once: a crate that holds tests is proved a second time with them. What is wanted was
//! worked out by hand from XML Schema Part 2.
#![tactic(auto)]

#[cfg(test)]
mod described;
#[cfg(test)]
mod given;
#[cfg(test)]
mod types;
