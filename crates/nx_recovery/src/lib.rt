//! Laws of recovery: which faults a text has is told by kept lists, and is what a matcher's residuals give. Nothing here runs.
//!
//! nx_recover defines both sides: the table of recovery over lists of events that frames keep, and the rules of a machine over
//! residuals. Here stands that a text has exactly one list of faults by the table, that the machine gives it, that the machine's levels
//! are those of the table, that recovery always goes on, and that a text without faults is a document whose tree the schema matches.
//!
//! The proof goes along the items of a text. What is left in each frame, here and around, stands for the moves of the frame
//! (`specs/Levels.antt`), and each event keeps that by the laws of rng_residual (`proofs/Events.antt`). What they ask of a text is that
//! attributes stand in tags, each name once in each (`proofs/Tags.antt`), and that strings are UTF-8.
#![tactic(auto)]

pub mod law;
