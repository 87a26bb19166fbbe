//! Cases for what stands below matching: classes of names, restrictions, pruning.
//!
//! Tests alone, so that the crates that they call are proved once: a crate that holds tests is proved a second time with them.
//! Each module holds those of one crate: `classes` of rng_core, `restrictions` of rng_restrict, `pruning` of rng_live. What a test builds by hand is put together by `building`, and seen to be in order by `sound`.
#![tactic(auto)]

#[cfg(test)]
mod building;
#[cfg(test)]
mod classes;
#[cfg(test)]
mod pruning;
#[cfg(test)]
mod restrictions;
#[cfg(test)]
mod sound;
