//! Elements with a name in common in both sides of an interleave.

ghost use Rattle.std.specs.Prelude.{◌≡◌, ◌++◌, ◌||◌, map, IfOk};
ghost use Rattle.rng_core.specs.Meaning.{pattern_of, definition_of};
ghost use Rattle.rng_core.specs.declared.name_class.Bearer.TheVariants.{Element};
ghost use Rattle.rng_restrict.specs.Finding.{has_part, any_share, classes_at, PassAlike, element_classes, is_element_overlap};

use crate::classes::some_share;
use crate::fault::either;
use crate::numbers::{classes_of_numbers, keep_once};
use nx_base::memory::NoMemory;
use rng_core::grammar::{Defs, Pat};
use std::alloc::Global;

/// Whether the classes of definitions of these numbers have a name in common with those of others. It isn't asked where
/// a fault is known.
fn shared_or_known(
    alloc: Global,
    defs: &Defs,
    known: bool,
    numbers: &[u32],
    others: &[u32],
) -> Result<bool, NoMemory>
    ensures { let all = map definition_of defs.now in IfOk result (λ fault.
        fault ≡ (known || any_share Element (classes_at all numbers.now) (classes_at all others.now))) }
{
    if known {
        return Ok(true);
    }
    let classes = classes_of_numbers(alloc, defs, numbers)?;
    let other_classes = classes_of_numbers(alloc, defs, others)?;
    Ok(some_share(alloc, classes.as_slice(), other_classes.as_slice()))
}

/// Adds the numbers of the elements that a pattern refers to, where the references occur in it. Answers whether two of
/// them overlap in an interleave that stands there.
#[cycle(elements)]
#[tactic(auto, using(crate::proofs::Alike::none_added, crate::proofs::Alike::number_added, crate::proofs::Alike::both_added))]
fn gather(alloc: Global, defs: &Defs, found: &mut Vec<u32>, pattern: &Pat) -> Result<bool, NoMemory>
    ensures { let all = map definition_of defs.now in IfOk result (λ fault.
        (fault ≡ has_part (is_element_overlap all) (pattern_of pattern.now))
        × PassAlike (classes_at all found.new.items)
        (classes_at all found.old.items ++ element_classes all (pattern_of pattern.now))) }
{
    match pattern {
        Pat::NotAllowed => Ok(false),
        Pat::Empty => Ok(false),
        Pat::Text => Ok(false),
        Pat::Typed(_, _) => Ok(false),
        Pat::Value(_, _) => Ok(false),
        Pat::List(body) => has_element_overlap(alloc, defs, body),
        Pat::Attribute(_, body) => has_element_overlap(alloc, defs, body),
        Pat::Ref(number) => {
            found.push(*number)?;
            Ok(false)
        }
        Pat::OneOrMore(body) => gather(alloc, defs, found, body),
        Pat::Choice(a, b) => {
            let first = gather(alloc, defs, found, a)?;
            let second = gather(alloc, defs, found, b)?;
            Ok(either(first, second))
        }
        Pat::Group(a, b) => {
            let first = gather(alloc, defs, found, a)?;
            let second = gather(alloc, defs, found, b)?;
            Ok(either(first, second))
        }
        Pat::Interleave(a, b) => gather_sides(alloc, defs, found, a, b),
    }
}

/// The same for the sides of an interleave. Each number of a side is kept once, so that what an interleave adds is no
/// longer than its sides have definitions.
#[cycle(elements)]
fn gather_sides(
    alloc: Global,
    defs: &Defs,
    found: &mut Vec<u32>,
    a: &Pat,
    b: &Pat,
) -> Result<bool, NoMemory>
    ensures { let all = map definition_of defs.now in IfOk result (λ fault.
        (fault ≡ (any_share Element (element_classes all (pattern_of a.now)) (element_classes all (pattern_of b.now))
        || (has_part (is_element_overlap all) (pattern_of a.now) || has_part (is_element_overlap all) (pattern_of b.now))))
        × PassAlike (classes_at all found.new.items)
        (classes_at all found.old.items
        ++ (element_classes all (pattern_of a.now) ++ element_classes all (pattern_of b.now)))) }
{
    let mut numbers = Vec::new(alloc);
    let first = gather(alloc, defs, &mut numbers, a)?;
    let mut others = Vec::new(alloc);
    let second = gather(alloc, defs, &mut others, b)?;
    keep_once(&mut numbers);
    keep_once(&mut others);
    let known = either(first, second);
    let fault = shared_or_known(alloc, defs, known, numbers.as_slice(), others.as_slice())?;
    found.append(&mut numbers)?;
    found.append(&mut others)?;
    Ok(fault)
}

/// Whether elements overlap in an interleave that stands in a pattern.
#[cycle(elements)]
pub(crate) fn has_element_overlap(
    alloc: Global,
    defs: &Defs,
    pattern: &Pat,
) -> Result<bool, NoMemory>
    ensures { IfOk result (λ fault. fault ≡ has_part (is_element_overlap (map definition_of defs.now)) (pattern_of pattern.now)) }
{
    let mut found = Vec::new(alloc);
    gather(alloc, defs, &mut found, pattern)
}
