//! What it takes to fill patterns, counted in events.
//!
//! An element counts three events beside its content (its start, the end of its tag, its end), an attribute and a string one.
//! A choice may be filled by either side, so a pattern has several costs; `Costs` holds the least of each definition's
//! content. A pruned schema, each definition of which lives, is large where some content takes more than 10,000 events: then no text is
//! made of it.
//!
//! The least costs are found in rounds (`rounds`). Each looks at each content once, the last first, by the costs found so far, and the
//! last round is the first in which none falls. A cost of more than 10,000 is kept as 10,001, as is that of a content which hasn't been
//! found to cost anything. What an element holds mostly has a later number, so few rounds do: two for a chain of definitions that is
//! numbered from its start. Whatever the order, each round settles at least the contents whose elements nest one deeper than before;
//! since each element costs three, 3,335 rounds are the most. A round passes over each node once: a chain of 3,334 contents in the
//! order that is worst for it takes some ten million looks, and a schema of a million nodes with such a chain in it 3,335 times a million,
//! which is tens of seconds.
//!
//! What a pattern is filled by at this cost are its leaves (`cheapest`): of each choice those of the cheaper side, which is noted
//! first (`sides`).
#![tactic(auto)]

pub mod cheapest;
mod costs;
pub mod law;
mod pattern_cost;
mod rounds;
mod sides;

pub use cheapest::Leaves;
pub use costs::{Costs, MOST_COST};
