//! Cases for files and output: objects in memory, the disk, reading to the end, URIs, and bytes that are no text.
//!
//! Tests alone, so that nx_host is proved once: a crate that holds tests is proved a second time with them.
#![tactic(auto)]

#[cfg(test)]
mod disk;
#[cfg(test)]
mod memory;
#[cfg(test)]
mod reading;
#[cfg(test)]
mod texts;
#[cfg(test)]
mod uris;
#[cfg(test)]
mod words;
