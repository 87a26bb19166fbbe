//! The editor: one text, one caret, and the commands on them.
//!
//! A session is what lies between two lines of a script. Each command is a step from one state of the
//! editor and its files to the next, with a reply; lines are read and replies written by nx_script, and
//! whole scripts are run by nx_run.
//!
//! Beside the text stand the machine that reads it for its faults and the marks of how far it has read, so
//! that a text is read a slice at a time, and on from where the last edit left it. Which faults are listed
//! doesn't depend on that: for `<a><b></a>` the reply is one fault, at the end tag, whatever commands came
//! before.
#![tactic(auto)]

mod document_uri;
mod large_document;
pub mod law;
pub mod session;

pub use session::Session;
