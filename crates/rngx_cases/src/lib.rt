//! Cases for the XML syntax of schemas: files, and what they say.
#![tactic(auto)]

#[cfg(test)]
mod printer;
#[cfg(test)]
mod surfaces;
#[cfg(test)]
mod tables;

#[cfg(test)]
use nx_base::memory::NoMemory;

/// Whether this is told. Comparing here, and not in each test, is what makes the tests cheap to prove.
#[cfg(test)]
fn is_told(told: Result<String, NoMemory>, wanted: &str) -> bool {
    match told {
        Ok(told) => told.as_str() == wanted,
        Err(NoMemory) => false,
    }
}
