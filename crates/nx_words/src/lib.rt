//! The words of the command line: `[--schema URI] [--rules URI] SCRIPT`.
//!
//! The form of the words is a definition of its own (`command_line`), and the code tests it before anything reads them (`form`). Words
//! in the form are handed to clap, whose command takes them, and their values come from its matches (`call`). `text` sees words as
//! texts. What words say is a grammar, and `law` says that they are read so.
#![tactic(auto)]

pub mod call;
pub mod form;
pub mod law;
pub mod text;

pub use call::{Call, read_call};
