//! Kept lists and residuals: what a matcher of RELAX NG (ISO/IEC 19757-2) is measured against. Definitions alone; nothing here runs.
//!
//! A frame has a start pattern and moves. The moves keep lists of events: the text's own, and for events that the schema doesn't
//! admit whatever can stand in for them, so that validation goes on behind a fault. `specs/Moves.antt` and `specs/KeptLists.antt`
//! say so over flat lists, finished trees and the existence of a list that completes them. Behind `<doc>`, where a schema wants an
//! attribute and a title first, the move of missing attributes keeps each list `<doc ..>` that can become valid.
//!
//! A residual (`specs/Residuals.antt`) is what a matcher computes: patterns for what may still come, some ways to go on. Each way
//! keeps two views of the children of an open element, as they stand and without blank strings, since the standard matches them
//! weakly (section 9.3.7). Ways with the same outside are merged, and so are those that differ in their outside alone, so that
//! they stay few. `specs/Standing.antt` says when a residual stands for the kept lists behind moves: it takes exactly the ends of
//! valid lists.
//!
//! The files named for patterns (`SmallPatterns`, `Nullable`, `Lists`, `Strings`, `SolidStrings`, `Attributes`, `Openings`,
//! `Skipping`) and for residuals (`Merging`, `Entering`, `Tags`, `Content`, `Required`) are the residuals that the calls of a matcher
//! give. That they stand for the kept lists with one move more is proved in rng_residual; rng_live's trait and all matchers cite both.
//!
//! No wrong body can be tried on a crate without code. What shows that these definitions say what is meant are the worked examples
//! (`specs/Examples.antt`), and the laws of rng_residual over finished trees.
#![tactic(auto)]

pub mod law;
