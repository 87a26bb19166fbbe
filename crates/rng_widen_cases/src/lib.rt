//! Cases for what is handed on in place of schema files: a table for each syntax, one for encodings, and files. All of this is for tests.
#![tactic(auto)]

#[cfg(test)]
mod fetching;
#[cfg(test)]
mod handing;
#[cfg(test)]
mod tables;
