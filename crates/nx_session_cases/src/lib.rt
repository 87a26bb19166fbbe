//! Sessions by their own calls. All of this is for tests.
#![tactic(auto)]

#[cfg(test)]
mod tests;
