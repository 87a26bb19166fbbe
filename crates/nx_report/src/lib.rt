//! Reports to people: faults and what is wrong with files, as lines such as compilers write.
//!
//! `guide.xml:12:5: error: element "para" may not stand here yet: needs "title" [NotYet]`: a file as it was named, a place, a sentence, and
//! the kind of the fault. What each kind says stands in one table (specs/Sentences.antt). Texts of documents are written so that no
//! ASCII control character of theirs reaches a terminal, and so that each report is one line.
#![tactic(auto)]

mod cause;
mod expected;
mod kind;
pub mod law;
pub mod line;
mod list;
mod name;
mod printed;
pub mod sentence;
pub mod severity;
#[cfg(test)]
mod tests;
pub mod trouble;
mod word;
