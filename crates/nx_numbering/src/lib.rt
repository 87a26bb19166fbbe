//! The numbers of a schema's definitions say nothing: languages that are one but for them match the same, and each text has the same
//! faults against them and the same offers at each place. Files define one language but for numbers, and pruning leaves one.
//!
//! Laws alone: nothing here runs. They are proved of the definitions, so they hold of whatever meets these.
#![tactic(auto)]

pub mod law;
