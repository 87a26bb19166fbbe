//! A reader that is cut into pieces, and what an input keeps of it. All of this is for tests.
#![tactic(auto)]

#[cfg(test)]
mod pieces;
#[cfg(test)]
mod tests;
