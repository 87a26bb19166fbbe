//! Small cases that every matcher is to answer.
//!
//! A case is a schema in the compact syntax, a list of events and other moves, and the answer: at which of them a matcher answers
//! none first, or which attributes are required or which elements needed behind them. The cases stand in tables (`tables`, `needed`);
//! a reader plays one against any matcher (`reader`); what can be made a matcher of a schema is in `matchers`, and each matcher has
//! its own tests (`tests`). Documents and schemas with which a matcher is not to grow are in `growth`, and what is asked again is in
//! `again`. In `lists` two matchers are played against each other, over all lists of up to four or five events. All of this is for
//! tests.
//!
//! The answers were worked out by the match relation of ISO/IEC 19757-2 and without derivatives. Another program, which isn't
//! kept, wrote down all trees of up to six nodes that a schema matches, and larger ones where a case asks for them, with the
//! strings and names of the case among theirs. Moves are followed by those trees whose events, with attributes in any order, begin
//! with what the moves take or may add. The answer is the first move that no tree follows; where that is `>?` or `</?`, which are
//! always answered, it is the move behind it. Required are the attributes that stand in the rest of the tag in each tree that follows.
//! Answers that a matcher didn't give at first were worked out by hand besides. By hand alone were worked out the first two
//! schemas of `CASES`, `growth`, and in `CASES` the rows of moves in the wrong place, of wide spaces, of text that isn't ASCII, and of
//! attributes of two namespaces.
#![tactic(auto)]

#[cfg(test)]
mod again;
#[cfg(test)]
mod growth;
#[cfg(test)]
mod lists;
#[cfg(test)]
mod matchers;
#[cfg(test)]
mod needed;
#[cfg(test)]
mod reader;
#[cfg(test)]
mod tables;
#[cfg(test)]
mod tests;
