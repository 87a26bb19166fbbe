//! The script: lines read into commands, and replies written as text.
#![tactic(auto)]

mod arguments;
mod cause_name;
pub mod command;
mod escape;
mod fault_line;
mod kind_name;
pub mod law;
pub mod line;
mod offer_line;
mod qualified_name;
mod quoted;
pub mod read;
pub mod reply;
mod way_word;
pub mod write;

pub use command::Command;
pub use read::{ScriptFault, read_line};
pub use reply::{Refusal, Reply};
pub use write::write_reply;
