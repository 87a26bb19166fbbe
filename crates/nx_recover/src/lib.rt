//! Recovery: what is wrong with a text against a schema, by going on behind each fault.
//!
//! Responsible for what becomes of the open elements at each event, and for the faults that arise there. The items of tokens,
//! events with spans and faults of markup, are those of nx_events; whether an event is admitted, and how a schema goes on where it
//! isn't, is asked of a matcher (rng_live). Marks (nx_marks) keep states of this machine.
//!
//! The idea: where an event isn't admitted, go on as if what was meant had stood there, whatever it was. Behind an element in front
//! of which others are missing, all of these are taken as read, and the fault names those that every such content has. An element
//! that may not stand here is left out, and if the schema knows its name, its own content is checked by itself. So one fault brings
//! about no others.
//!
//! Where a schema wants `doc` with an `id`, and in it a `title` before any `para`, `<doc><para/><x/></doc>` has three faults: at
//! `<doc>` the attribute is missing, `<para/>` stands where it can't yet and needs the title, and `<x/>` is unknown. The `para` is
//! complete, and so is the `doc`, since what is missing counts as read.
//!
//! `specs/Outcomes.antt` is the table of recovery, a line for each row, and `src/row.rt` follows it row by row over a matcher's
//! states. What a token changes is kept aside and put in place last (`step`); a token that one look tells, and that is admitted whole,
//! changes the levels where they stand, once nothing can be refused any more (`plain_step`). So a step is all or nothing.
#![tactic(auto)]

pub mod ahead;
mod along;
mod detail;
mod event;
pub mod levels;
mod open_name;
mod packed;
mod plain_step;
pub mod recover;
mod row;
pub mod state;
mod step;
mod whole;
