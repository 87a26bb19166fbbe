//! Laws of residuals: what a matcher computes stands for the kept lists of events that recovery speaks of. Nothing here runs.
//!
//! rng_kept defines both sides: kept lists over finished trees and the standard's match relation, and residuals with what is left
//! of them behind each event and move. `moves_stand` is the bridge: from a residual that stands for moves each call of a matcher
//! gives one that stands for one move more, and none exactly where no kept list is viable. So a matcher proves equations with
//! functions of rng_kept and nothing else, and any two matchers agree.
//!
//! The proof goes upwards. Small patterns match what the plain ones do (`proofs/SmallPatterns.antt`); a string, an attribute, an element's
//! name take off exactly one child or attribute (`Strings`, `Attributes`, `Openings`); an event takes off one event of what a way
//! takes (`Content`, `Tags`, `Entering`), and merged ways take the same (`Merging`). Each part of a live schema matches something
//! that can be written (`Samples`, `Alive`, `Viable`), with attributes of distinct names in any order (`Perm`, `Repair`, `Distinct`);
//! hence a residual that isn't nothing goes on, and what is left out can always be filled in (`Skip`, `SkipMoves`, `AnyMoves`). Tests
//! of leaves rest on the members of types (`Members`).
//!
//! A law has no wrong body: that each is a theorem of the definitions is all there is to try. The premises, that a schema is live,
//! are what pruning gives.
#![tactic(auto)]

pub mod law;
