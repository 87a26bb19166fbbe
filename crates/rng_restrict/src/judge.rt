//! Each restriction, judged of the start and of the definitions that it reaches.

ghost use Rattle.std.specs.Prelude.{◌≡◌, ◌↔◌, ◌||◌, IsTrue, IfOk, map, slice_get};
ghost use Rattle.rng_core.specs.Meaning.{pattern_of, definition_of, definitions_of};
ghost use Rattle.rng_restrict.specs.Paths.{BreaksPath};
ghost use Rattle.rng_restrict.specs.Contents.{BreaksMixture};
ghost use Rattle.rng_restrict.specs.Attributes.{BreaksAttributeOverlap, BreaksWildcardOnce};
ghost use Rattle.rng_restrict.specs.Interleaves.{BreaksInterleaveOverlap, BreaksTextTwice};
ghost use Rattle.rng_restrict.specs.Finding.{AreReached, passes, some_passes, has_part, begins_path};
ghost use Rattle.rng_restrict.specs.Finding.{is_mixture as is_mixture_of, is_attribute_overlap};
ghost use Rattle.rng_restrict.specs.Finding.{has_wildcard_once as has_wildcard_once_of, is_element_overlap};
ghost use Rattle.rng_restrict.specs.Finding.{is_text_twice};

use crate::attribute::has_attribute_overlap;
use crate::content::is_mixture;
use crate::element::has_element_overlap;
use crate::fault::{any_fault, either};
use crate::path::{has_path, has_start_path};
use crate::text::has_text_twice;
use crate::wildcard::has_wildcard_once;
use nx_base::memory::NoMemory;
use rng_core::grammar::{Defs, Grammar};
use std::alloc::Global;

/// Whether a prohibited path stands in the content of a definition.
fn path_at(defs: &Defs, number: u32) -> bool
    ensures { result ≡ passes (has_part begins_path) (slice_get (map definition_of defs.now) number) }
{
    match defs.get(number as usize) {
        Some(def) => has_path(&def.content),
        None => false,
    }
}

/// Whether a prohibited path stands in the content of one of these definitions.
fn some_path(defs: &Defs, numbers: &[u32]) -> bool
    ensures { result ≡ some_passes (has_part begins_path) (map definition_of defs.now) numbers.now }
{
    numbers.iter().any(|number| path_at(defs, *number))
}

/// Whether the grammar breaks the restriction on paths.
pub(crate) fn breaks_path(grammar: &Grammar, numbers: &[u32]) -> bool
    requires { AreReached (pattern_of grammar.now.start) (definitions_of grammar.now) numbers.now }
    ensures { IsTrue result ↔ BreaksPath (pattern_of grammar.now.start) (definitions_of grammar.now) }
{
    any_fault(
        has_start_path(&grammar.start),
        has_path(&grammar.start),
        some_path(&grammar.defs, numbers),
    )
}

/// Whether no content type is that of the content of a definition.
fn mixture_at(defs: &Defs, number: u32) -> bool
    ensures { result ≡ passes (is_mixture_of) (slice_get (map definition_of defs.now) number) }
{
    match defs.get(number as usize) {
        Some(def) => is_mixture(&def.content),
        None => false,
    }
}

/// Whether no content type is that of the content of one of these definitions.
fn some_mixture(defs: &Defs, numbers: &[u32]) -> bool
    ensures { result ≡ some_passes (is_mixture_of) (map definition_of defs.now) numbers.now }
{
    numbers.iter().any(|number| mixture_at(defs, *number))
}

/// Whether the grammar breaks the restriction on content types.
pub(crate) fn breaks_mixture(grammar: &Grammar, numbers: &[u32]) -> bool
    requires { AreReached (pattern_of grammar.now.start) (definitions_of grammar.now) numbers.now }
    ensures { IsTrue result ↔ BreaksMixture (pattern_of grammar.now.start) (definitions_of grammar.now) }
{
    some_mixture(&grammar.defs, numbers)
}

/// Whether attributes overlap in the content of a definition.
fn attribute_overlap_at(alloc: Global, defs: &Defs, number: u32) -> Result<bool, NoMemory>
    ensures { let all = map definition_of defs.now in IfOk result
        (λ found. found ≡ passes (has_part is_attribute_overlap) (slice_get all number)) }
{
    match defs.get(number as usize) {
        Some(def) => has_attribute_overlap(alloc, &def.content),
        None => Ok(false),
    }
}

/// Whether attributes overlap in the content of one of these definitions.
fn some_attribute_overlap(alloc: Global, defs: &Defs, numbers: &[u32]) -> Result<bool, NoMemory>
    ensures { let all = map definition_of defs.now in IfOk result
        (λ found. found ≡ some_passes (has_part is_attribute_overlap) all numbers.now) }
{
    for number in numbers {
        if attribute_overlap_at(alloc, defs, *number)? {
            return Ok(true);
        }
    }
    Ok(false)
}

/// Whether the grammar breaks the restriction on attributes with a name in common.
pub(crate) fn breaks_attribute_overlap(
    alloc: Global,
    grammar: &Grammar,
    numbers: &[u32],
) -> Result<bool, NoMemory>
    requires { AreReached (pattern_of grammar.now.start) (definitions_of grammar.now) numbers.now }
    ensures { IfOk result (λ broken. IsTrue broken ↔ BreaksAttributeOverlap (pattern_of grammar.now.start) (definitions_of grammar.now)) }
{
    let in_start = has_attribute_overlap(alloc, &grammar.start)?;
    let in_contents = some_attribute_overlap(alloc, &grammar.defs, numbers)?;
    Ok(either(in_start, in_contents))
}

/// Whether a wildcard stands without repetition in the content of a definition.
fn wildcard_once_at(defs: &Defs, number: u32) -> bool
    ensures { result ≡ passes (has_wildcard_once_of) (slice_get (map definition_of defs.now) number) }
{
    match defs.get(number as usize) {
        Some(def) => has_wildcard_once(&def.content),
        None => false,
    }
}

/// Whether a wildcard stands without repetition in the content of one of these definitions.
fn some_wildcard_once(defs: &Defs, numbers: &[u32]) -> bool
    ensures { result ≡ some_passes (has_wildcard_once_of) (map definition_of defs.now) numbers.now }
{
    numbers.iter().any(|number| wildcard_once_at(defs, *number))
}

/// Whether the grammar breaks the restriction on attributes with wildcards.
pub(crate) fn breaks_wildcard_once(grammar: &Grammar, numbers: &[u32]) -> bool
    requires { AreReached (pattern_of grammar.now.start) (definitions_of grammar.now) numbers.now }
    ensures { IsTrue result ↔ BreaksWildcardOnce (pattern_of grammar.now.start) (definitions_of grammar.now) }
{
    either(
        has_wildcard_once(&grammar.start),
        some_wildcard_once(&grammar.defs, numbers),
    )
}

/// Whether elements overlap in the content of a definition.
fn element_overlap_at(alloc: Global, defs: &Defs, number: u32) -> Result<bool, NoMemory>
    ensures { let all = map definition_of defs.now in IfOk result
        (λ found. found ≡ passes (has_part (is_element_overlap all)) (slice_get all number)) }
{
    match defs.get(number as usize) {
        Some(def) => has_element_overlap(alloc, defs, &def.content),
        None => Ok(false),
    }
}

/// Whether elements overlap in the content of one of these definitions.
fn some_element_overlap(alloc: Global, defs: &Defs, numbers: &[u32]) -> Result<bool, NoMemory>
    ensures { let all = map definition_of defs.now in IfOk result
        (λ found. found ≡ some_passes (has_part (is_element_overlap all)) all numbers.now) }
{
    for number in numbers {
        if element_overlap_at(alloc, defs, *number)? {
            return Ok(true);
        }
    }
    Ok(false)
}

/// Whether the grammar breaks the restriction on elements with a name in common.
pub(crate) fn breaks_interleave_overlap(
    alloc: Global,
    grammar: &Grammar,
    numbers: &[u32],
) -> Result<bool, NoMemory>
    requires { AreReached (pattern_of grammar.now.start) (definitions_of grammar.now) numbers.now }
    ensures { IfOk result (λ broken. IsTrue broken ↔ BreaksInterleaveOverlap (pattern_of grammar.now.start) (definitions_of grammar.now)) }
{
    let in_start = has_element_overlap(alloc, &grammar.defs, &grammar.start)?;
    let in_contents = some_element_overlap(alloc, &grammar.defs, numbers)?;
    Ok(either(in_start, in_contents))
}

/// Whether text occurs in both sides of an interleave in the content of a definition.
fn text_twice_at(defs: &Defs, number: u32) -> bool
    ensures { result ≡ passes (has_part is_text_twice) (slice_get (map definition_of defs.now) number) }
{
    match defs.get(number as usize) {
        Some(def) => has_text_twice(&def.content),
        None => false,
    }
}

/// Whether text occurs in both sides of an interleave in the content of one of these definitions.
fn some_text_twice(defs: &Defs, numbers: &[u32]) -> bool
    ensures { result ≡ some_passes (has_part is_text_twice) (map definition_of defs.now) numbers.now }
{
    numbers.iter().any(|number| text_twice_at(defs, *number))
}

/// Whether the grammar breaks the restriction on text in interleaves.
pub(crate) fn breaks_text_twice(grammar: &Grammar, numbers: &[u32]) -> bool
    requires { AreReached (pattern_of grammar.now.start) (definitions_of grammar.now) numbers.now }
    ensures { IsTrue result ↔ BreaksTextTwice (pattern_of grammar.now.start) (definitions_of grammar.now) }
{
    either(
        has_text_twice(&grammar.start),
        some_text_twice(&grammar.defs, numbers),
    )
}
