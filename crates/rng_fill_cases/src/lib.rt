//! Elements of a schema's definitions, each judged by a matcher, and cases of costs and fillings.
//!
//! `judged` has an element written of each definition of a schema, and plays it against a matcher. The tests hold two tables, of what
//! the content of a schema's root costs (`costs`) and of what its root is filled with (`fillings`), both worked out by hand, from the
//! cases of costs and from the schemas. Schemas whose elements double at each depth are made by a loop (`doubling`).
#![tactic(auto)]

#[cfg(test)]
mod costs;
#[cfg(test)]
mod doubling;
mod filling;
#[cfg(test)]
mod fillings;
pub mod judging;
#[cfg(test)]
mod reading;
#[cfg(test)]
mod telling;
#[cfg(test)]
mod tests;
