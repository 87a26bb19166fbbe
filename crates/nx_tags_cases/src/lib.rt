//! Cases of commands on tags, worked out by hand, and small texts at each place of which a command is held against what it promises.
//!
//! Each command is answered from the text's start and from borders in front of its place. Tests alone, so that nx_tags is proved once: a crate
//! that holds tests is proved a second time with them.
#![tactic(auto)]

#[cfg(test)]
mod cases;
#[cfg(test)]
mod checks;
#[cfg(test)]
mod reading;
#[cfg(test)]
mod table;
