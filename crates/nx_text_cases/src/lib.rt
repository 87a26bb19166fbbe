//! Small cases that a text is to answer: edits, reads, lines, columns and grapheme clusters, and edits beside those of a
//! plain string. All of this is for tests.
#![tactic(auto)]

#[cfg(test)]
mod edits;
#[cfg(test)]
mod mirror;
#[cfg(test)]
mod places;
