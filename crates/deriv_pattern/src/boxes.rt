//! Patterns in boxes, one node at a time.
//!
//! A derivative goes as deep as its pattern does. So what calls itself holds boxes alone, and what holds patterns is called for
//! one node.

ghost use Rattle.std.specs.Prelude.{◌≡◌, Bool, IfOk, if◌then◌else◌};
ghost use Rattle.rng_core.specs.Meaning.{pattern_of};
ghost use Rattle.rng_core.specs.Patterns.{Pattern, not_allowed, empty};

use nx_base::memory::NoMemory;
use rng_core::grammar::Pat;
use std::alloc::Global;

/// A pattern in a box, unless memory was wanted. What puts patterns together takes them so: then a walk holds none of them where
/// it may end early.
pub(crate) type Made = Result<Box<Pat>, NoMemory>;

/// A pattern in a box.
#[inline(never)]
pub(crate) fn boxed(alloc: Global, pattern: Pat) -> Result<Box<Pat>, NoMemory>
    ensures { IfOk result (λ made. pattern_of made.value ≡ pattern_of pattern) }
{
    Ok(Box::new(alloc, pattern)?)
}

/// The same pattern once more, in a box.
#[inline(never)]
pub(crate) fn boxed_copy(alloc: Global, pattern: &Pat) -> Result<Box<Pat>, NoMemory>
    ensures { IfOk result (λ made. pattern_of made.value ≡ pattern_of pattern.now) }
{
    boxed(alloc, pattern.copy(alloc)?)
}

/// The pattern that nothing matches, in a box.
#[inline(never)]
pub(crate) fn boxed_not_allowed(alloc: Global) -> Result<Box<Pat>, NoMemory>
    ensures { IfOk result (λ made. pattern_of made.value ≡ not_allowed) }
{
    boxed(alloc, Pat::NotAllowed)
}

/// The empty pattern in a box.
#[inline(never)]
pub(crate) fn boxed_empty(alloc: Global) -> Result<Box<Pat>, NoMemory>
    ensures { IfOk result (λ made. pattern_of made.value ≡ empty) }
{
    boxed(alloc, Pat::Empty)
}

/// What is left of a leaf behind what it takes or doesn't take, in a box.
pub(crate) fn boxed_end(alloc: Global, taken: Result<bool, NoMemory>) -> Result<Box<Pat>, NoMemory>
    ensures { (x : Bool) → IfOk taken (λ it. it ≡ x)
        → IfOk result (λ made. pattern_of made.value ≡ (if x then empty else not_allowed)) }
{
    if taken? {
        boxed_empty(alloc)
    } else {
        boxed_not_allowed(alloc)
    }
}

/// What is in a box.
pub(crate) fn unboxed(made: Made) -> Result<Pat, NoMemory>
    ensures { (x : Pattern) → IfOk made (λ it. pattern_of it.value ≡ x) → IfOk result (λ it. pattern_of it ≡ x) }
{
    Ok(Box::into_inner(made?))
}

/// Both of two patterns.
pub(crate) fn both(p: Made, q: Made) -> Result<(Box<Pat>, Box<Pat>), NoMemory>
    ensures { (x y : Pattern) → IfOk p (λ made. pattern_of made.value ≡ x) → IfOk q (λ made. pattern_of made.value ≡ y)
        → IfOk result (λ two. (pattern_of two.0.value ≡ x) × (pattern_of two.1.value ≡ y)) }
{
    match p {
        Ok(p) => match q {
            Ok(q) => Ok((p, q)),
            Err(fault) => {
                drop(p);
                Err(fault)
            }
        },
        Err(fault) => {
            drop(q);
            Err(fault)
        }
    }
}

/// The one of two patterns; the other is let go.
pub(crate) fn one_kept(kept: Box<Pat>, other: Box<Pat>) -> Made
    ensures { IfOk result (λ made. pattern_of made.value ≡ pattern_of kept.value) }
{
    drop(other);
    Ok(kept)
}
