//! Messages of the Language Server Protocol, worked out by hand. All of this is for tests.
#![tactic(auto)]

#[cfg(test)]
mod frames;
#[cfg(test)]
mod messages;
#[cfg(test)]
mod sending;
