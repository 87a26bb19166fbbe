//! A matcher that follows the events of a document through a schema by derivatives of patterns.
//!
//! `Plain` meets the contract of matchers of the crate rng_live. It keeps nothing beside the schema: a state holds all patterns
//! that are left, and each call makes new ones by the functions of deriv_pattern.
//!
//! A state (`ways`) is a list of ways to go on, among children or in a start tag. What is left around an element (`around`) is
//! shared by the states that stand inside of it. Each call is one step (`step`) of every way: behind an element's name
//! (`entering`), an attribute or the end of a tag (`tags`), a string or the end of an element (`content`). The ways that a step
//! gives are merged (`merging`) where they are among children with the same outside. Which attributes all ways require, and which
//! elements they need, is asked of the patterns that are left (`required`, `needed`). Where each level of a document may be of two
//! definitions of one name, with different rests behind them, the outsides differ, and the ways double with each level.
//!
//! An example: behind `<doc>`, where the content of doc is `(para | note)*`, there is one way, in a start tag with that content;
//! around it the document is to be over. Behind `>` it is among children: as they stand and without blank strings
//! `(para | note)*` is left, and there may be none. `<para>` then gives one way in the tag of para, around which that is left
//! again, and `</para>` goes back to what is shared there.
//!
//! That a state stands for the lists of events that are kept behind the moves so far is a law of rng_residual over the
//! definitions of rng_kept, by which each function here is told; nothing of matching is proved in this crate.
#![tactic(auto)]

pub mod around;
mod content;
mod entering;
mod merging;
mod needed;
pub mod plain;
mod required;
mod step;
mod tags;
pub mod ways;

pub use plain::Plain;
