//! Contents whose strings stand alone, and what a matcher has left of them. Laws alone; nothing here runs.
//!
//! The restrictions of RELAX NG (ISO/IEC 19757-2, section 10.3) forbid a string beside a string, an element or text. Of such contents a
//! residual has no two strings that would stand side by side, and no place where the empty string, which no text can write, would have to
//! stand: so what it is filled with can be written.
#![tactic(auto)]

pub mod law;
