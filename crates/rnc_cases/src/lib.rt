//! Cases for the compact syntax: schema files, as tokens, as what they say, and as the grammar that they define, the last beside the
//! same schemas in the XML syntax.
//!
//! Tests alone, so that the crates that they call are proved once: a crate that holds tests is proved a second time with them.
//! Each module holds those of one crate: `tokens` of rnc_lex, `surfaces` of rnc_parse, `grammars` and `markup` of rng_simplify.
#![tactic(auto)]

#[cfg(test)]
mod grammars;
#[cfg(test)]
mod markup;
#[cfg(test)]
mod surfaces;
#[cfg(test)]
mod tokens;

#[cfg(test)]
use nx_base::memory::NoMemory;

/// Whether this is told. Comparing here, and not in each test, is what makes the tests cheap to prove.
#[cfg(test)]
fn is_told(told: Result<String, NoMemory>, wanted: &str) -> bool {
    match told {
        Ok(told) => told.as_str() == wanted,
        Err(NoMemory) => false,
    }
}
