//! A matcher of a schema in the compact syntax.

ghost use Rattle.std.specs.Prelude.{◌≡◌, ◌<◌};
ghost use Rattle.rng_core.specs.Soundness.{IsSound};

use deriv_plain::plain::Plain;
use nx_base::steps::Steps;
use nx_host::memory_files::SureFiles;
use rng_core::grammar::Grammar;
use rng_live::prune::prune;
use rng_restrict::check::check;
use rng_simplify::simplify::simplify;
use std::alloc::Global;
use std::marker::Brand;
use std::sync::ledger::{Blank, Ledger};

const FILE: &str = "file:///work/case.rnc";

/// The matcher of a grammar; none where the grammar can't be used.
fn matcher_of_grammar(alloc: Global, grammar: Grammar) -> Option<Plain>
    requires { IsSound grammar }
{
    if let Err(_) = check(alloc, &grammar) {
        return None;
    }
    match prune(alloc, grammar) {
        Ok(schema) => Some(Plain::new(schema)),
        Err(_) => None,
    }
}

/// The matcher of the schema in a file, with a count of tokens that are cut; none where it can't be used.
fn matcher_by<L: Ledger>(alloc: Global, files: &mut SureFiles, blank: Blank) -> Option<Plain>
    requires name { blank.name ≡ L.name }
    requires parts { blank.parts ≡ L.parts }
    requires some { 0 < L.parts }
{
    let mut steps = Steps::<L>::new(blank);
    match simplify(alloc, FILE, files, &mut steps) {
        Ok(grammar) => matcher_of_grammar(alloc, grammar),
        Err(_) => None,
    }
}

/// The matcher of a schema; none where it can't be used.
pub(crate) fn matcher_of(alloc: Global, text: &str) -> Option<Plain> {
    let mut files = SureFiles::new(alloc);
    files.add(FILE, text.as_bytes()).ok()?;
    matcher_by::<Brand>(alloc, &mut files, Blank::new(1))
}
