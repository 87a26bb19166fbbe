//! The faults of a document, as the Language Server Protocol publishes them.
//!
//! A fault is a diagnostic: the lines and columns between which it stands, and a sentence. A list of very many faults would be sent whole
//! for each letter that is typed, so behind the first thousand stands one more that says how many there are.
#![tactic(auto)]

pub mod publication;
