//! Lines and what they are read as, replies and what they print, in tables. All of this is for tests.
#![tactic(auto)]

#[cfg(test)]
mod lines;
#[cfg(test)]
mod replies;
