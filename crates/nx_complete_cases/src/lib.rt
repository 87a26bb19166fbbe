//! What is offered at places of small documents: cases, as a table.
//!
//! A case is a schema in the compact syntax, a text whose caret is written as `|`, and the offers there in their order: `none` where
//! nothing is said, `nothing` where nothing is offered. The answers were worked out by hand, from the schemas and the rules of recovery.
#![tactic(auto)]

#[cfg(test)]
mod places;
#[cfg(test)]
mod schema;
#[cfg(test)]
mod tests;
