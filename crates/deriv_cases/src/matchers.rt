//! The matchers that the cases are played against.

ghost use Rattle.std.specs.Prelude.{◌≡◌, ◌<◌};
ghost use Rattle.rng_core.specs.Soundness.{IsSound};
ghost use Rattle.rng_kept.specs.Live.{IsLive};
ghost use Rattle.rng_live.specs.Schemas.{schema_language};

use deriv_plain::plain::Plain;
use deriv_pool::pool::Pool;
use nx_base::memory::NoMemory;
use nx_base::steps::Steps;
use nx_host::memory_files::SureFiles;
use rng_core::grammar::Grammar;
use rng_live::matcher::Matcher;
use rng_live::prune::prune;
use rng_live::schema::Schema;
use rng_restrict::check::check;
use rng_simplify::simplify::simplify;
use std::alloc::Global;
use std::marker::Brand;
use std::sync::ledger::{Blank, Ledger};

const FILE: &str = "file:///work/case.rnc";

/// A matcher that can be made for any schema.
pub(crate) trait Made: Matcher {
    fn made(alloc: Global, schema: Schema) -> Result<Self, NoMemory>
        requires live { IsLive (schema_language schema) }
        requires sound { IsSound schema.grammar };
}

impl Made for Plain {
    fn made(_alloc: Global, schema: Schema) -> Result<Plain, NoMemory> {
        Ok(Plain::new(schema))
    }
}

impl Made for Pool {
    fn made(alloc: Global, schema: Schema) -> Result<Pool, NoMemory> {
        Pool::new(alloc, schema)
    }
}

/// The matcher of a grammar; none where the grammar can't be used.
fn matcher_of_grammar<M: Made>(alloc: Global, grammar: Grammar) -> Option<M>
    requires { IsSound grammar }
{
    if let Err(_) = check(alloc, &grammar) {
        return None;
    }
    match prune(alloc, grammar) {
        Ok(schema) => M::made(alloc, schema).ok(),
        Err(_) => None,
    }
}

/// The matcher of the schema in a file, with a count of tokens that are cut; none where it can't be used.
fn matcher_by<M: Made, L: Ledger>(alloc: Global, files: &mut SureFiles, blank: Blank) -> Option<M>
    requires name { blank.name ≡ L.name }
    requires parts { blank.parts ≡ L.parts }
    requires some { 0 < L.parts }
{
    let mut steps = Steps::<L>::new(blank);
    match simplify(alloc, FILE, files, &mut steps) {
        Ok(grammar) => matcher_of_grammar(alloc, grammar),
        Err(_) => None,
    }
}

/// The matcher of a schema that is written in the compact syntax; none where it can't be used.
pub(crate) fn matcher_of<M: Made>(alloc: Global, text: &str) -> Option<M> {
    let mut files = SureFiles::new(alloc);
    files.add(FILE, text.as_bytes()).ok()?;
    matcher_by::<M, Brand>(alloc, &mut files, Blank::new(1))
}
