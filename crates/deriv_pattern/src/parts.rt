//! What is left of a whole, where it is known what is left of its parts.

ghost use Rattle.std.specs.Prelude.{◌≡◌, IfOk};
ghost use Rattle.rng_core.specs.Meaning.{pattern_of};
ghost use Rattle.rng_core.specs.Patterns.{Pattern, not_allowed};
ghost use Rattle.rng_kept.specs.SmallPatterns.{choice_of, group_of, interleave_of, star};

use crate::boxes::Made;
use crate::small::{before, beside, beside_first, either, in_order, is_not_allowed, starred};
use nx_base::memory::NoMemory;
use rng_core::grammar::Pat;
use std::alloc::Global;

/// Of a repetition: what is left of its first part, and more parts.
pub(crate) fn first_of_many(alloc: Global, left: Made, p: &Pat) -> Result<Box<Pat>, NoMemory>
    ensures { (x : Pattern) → IfOk left (λ made. pattern_of made.value ≡ x)
        → IfOk result (λ made. pattern_of made.value ≡ group_of x (star (pattern_of p.now))) }
{
    let left = left?;
    if is_not_allowed(&left) {
        return Ok(left);
    }
    in_order(alloc, Ok(left), starred(alloc, p))
}

/// Of a group whose first side can't be passed over: what is left of that, and the second side.
#[tactic(auto, using(crate::proofs::Choices::choice_with_nothing))]
pub(crate) fn first_side(alloc: Global, left: Made, q: &Pat) -> Result<Box<Pat>, NoMemory>
    ensures { (x : Pattern) → IfOk left (λ made. pattern_of made.value ≡ x)
        → IfOk result (λ made. pattern_of made.value ≡ choice_of (group_of x (pattern_of q.now)) not_allowed) }
{
    before(alloc, left, q)
}

/// Of a group whose first side may be passed over: the same, or what is left of the second side.
pub(crate) fn either_side(
    alloc: Global,
    left: Made,
    q: &Pat,
    second: Made,
) -> Result<Box<Pat>, NoMemory>
    ensures { (x y : Pattern) → IfOk left (λ made. pattern_of made.value ≡ x) → IfOk second (λ made. pattern_of made.value ≡ y)
        → IfOk result (λ made. pattern_of made.value ≡ choice_of (group_of x (pattern_of q.now)) y) }
{
    either(alloc, before(alloc, left, q), second)
}

/// Of an interleave: what is left of one side, with the other whole.
pub(crate) fn one_of_interleave(
    alloc: Global,
    left: Made,
    p: &Pat,
    q: &Pat,
    second: Made,
) -> Result<Box<Pat>, NoMemory>
    ensures { (x y : Pattern) → IfOk left (λ made. pattern_of made.value ≡ x) → IfOk second (λ made. pattern_of made.value ≡ y)
        → IfOk result (λ made. pattern_of made.value ≡
        choice_of (interleave_of x (pattern_of q.now)) (interleave_of (pattern_of p.now) y)) }
{
    let front = beside(alloc, left, q);
    either(alloc, front, beside_first(alloc, p, second))
}
