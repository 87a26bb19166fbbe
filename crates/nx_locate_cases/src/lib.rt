//! Small cases of locating rules: rules files and a document as texts, and the schema that they yield for it, by the description of
//! the rules in nx_locate. All of this is for tests.
#![tactic(auto)]

#[cfg(test)]
mod located;
#[cfg(test)]
mod tables;
#[cfg(test)]
mod tests;
#[cfg(test)]
mod xml_model;
