//! Whole runs over files and outputs in memory. All of this is for tests.
#![tactic(auto)]

#[cfg(test)]
mod documents;
#[cfg(test)]
mod failing_files;
#[cfg(test)]
mod failing_writes;
#[cfg(test)]
mod playing;
#[cfg(test)]
mod restrictions;
#[cfg(test)]
mod rows;
#[cfg(test)]
mod tests;
#[cfg(test)]
mod told_anew;
#[cfg(test)]
mod viewed;
