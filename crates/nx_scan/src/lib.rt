//! Cuts a text into tokens, one at a time.
//!
//! An editor starts at any token's border, so a token is found from its place alone. Which token that is,
//! is the definition of tokens in nx_base; a tag is read by what may follow the characters so far.
#![tactic(auto)]

pub mod border;
mod doctype;
pub mod doctype_law;
mod lanes;
mod mark;
pub mod scan;
mod tag;
mod tag_part;

pub use scan::scan_token;
