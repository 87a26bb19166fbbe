//! Small texts, and what they give: the faults and events of nx_events by the tables of the standards, worked out by hand.
//!
//! A text is given as its tokens, each with its kind in front (`reader`). What is told of it is written as text (`printer`), which
//! tables (`tables`) are held against (`tests`). All of this is for tests.
#![tactic(auto)]

#[cfg(test)]
mod printer;
#[cfg(test)]
mod reader;
#[cfg(test)]
mod tables;
#[cfg(test)]
mod tests;
