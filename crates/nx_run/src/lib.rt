//! The run of a script, from the program's words to the bytes written.
//!
//! `run` is the whole of the program: words, files and an output in, bytes and a status out. It reads the
//! words by nx_words, fetches the script that they name, plays it turn by turn with a new session of
//! nx_session, and writes each reply by nx_script. A program hands it the real objects, and writes nothing
//! itself.
#![tactic(auto)]

pub mod law;
mod play;
pub mod run;
mod script;
pub mod status;
mod turns;

pub use status::Status;
