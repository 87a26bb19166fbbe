//! Cases for dates, times and octets: literals, equal values, and long texts.
//!
//! Tests alone, so that rng_more_types is proved once: a crate that holds tests is proved a second time with them. What is
//! wanted comes from a program in another language, with its own calendar, and from examples by hand.
#![tactic(auto)]

#[cfg(test)]
mod literals;
#[cfg(test)]
mod long;
#[cfg(test)]
mod values;
