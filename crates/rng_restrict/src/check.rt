//! The restrictions in their order.

ghost use Rattle.rng_restrict.specs.Checking.{ChecksGrammar};

use crate::fault::RestrictFault;
use crate::judge::{
    breaks_attribute_overlap, breaks_interleave_overlap, breaks_mixture, breaks_path,
    breaks_text_twice, breaks_wildcard_once,
};
use crate::reach::reached;
use rng_core::grammar::Grammar;
use std::alloc::Global;

/// Judges a grammar by the restrictions of ISO/IEC 19757-2, section 10.
///
/// A refusal comes exactly where its restriction is broken and none before it is, in the order of `RestrictFault`.
/// Only the start and what it reaches are judged. The walks call themselves as deep as a pattern is; simplification
/// bounds a path in it at 8,000 nodes, for which 2 MB of stack suffice.
pub fn check(alloc: Global, grammar: &Grammar) -> Result<(), RestrictFault>
    ensures { ChecksGrammar grammar.now result }
{
    let reached = reached(alloc, grammar)?;
    let numbers = reached.as_slice();
    if breaks_path(grammar, numbers) {
        return Err(RestrictFault::Path);
    }
    if breaks_mixture(grammar, numbers) {
        return Err(RestrictFault::Mixture);
    }
    let attributes_overlap = breaks_attribute_overlap(alloc, grammar, numbers)?;
    if attributes_overlap {
        return Err(RestrictFault::AttributeOverlap);
    }
    if breaks_wildcard_once(grammar, numbers) {
        return Err(RestrictFault::WildcardOnce);
    }
    let elements_overlap = breaks_interleave_overlap(alloc, grammar, numbers)?;
    if elements_overlap {
        return Err(RestrictFault::InterleaveOverlap);
    }
    if breaks_text_twice(grammar, numbers) {
        return Err(RestrictFault::TextTwice);
    }
    Ok(())
}
