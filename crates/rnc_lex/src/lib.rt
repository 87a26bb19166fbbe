//! Tokens of the compact syntax of RELAX NG (ISO/IEC 19757-2, Annex C).
//!
//! A text is read twice. Its characters become letters: line ends are made one newline, and escapes `\x{..}` are
//! replaced, each letter with the place of what stands for it. The letters become tokens. What letters and tokens a
//! text has is defined by cases in specs/, and `tokens` answers those, or the one fault that the text has.
#![tactic(auto)]

mod escape;
pub mod fault;
mod front;
pub mod keyword;
mod letter;
pub mod lex;
mod literal;
mod name;
mod symbol;
mod text;
pub mod token;

pub use fault::LexFault;
pub use lex::tokens;
pub use token::{RncToken, RncTokens};
