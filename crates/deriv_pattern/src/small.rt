//! Patterns that are put together without what is plainly superfluous.
//!
//! Where nothing is left, or all, no memory is taken: the one part is the whole.

ghost use Rattle.std.specs.Prelude.{◌≡◌, IfOk, IsTrue};
ghost use Rattle.rng_core.specs.Equality.{same_pattern as same_patterns};
ghost use Rattle.rng_core.specs.Meaning.{pattern_of};
ghost use Rattle.rng_core.specs.Patterns.{Pattern, choice};
ghost use Rattle.rng_kept.specs.SmallPatterns as s;
ghost use Rattle.rng_kept.specs.Nullable.{nullable as is_nullable};

use crate::boxes::{Made, both, boxed, boxed_copy, boxed_empty, one_kept, unboxed};
use nx_base::memory::NoMemory;
use rng_core::grammar::Pat;
use std::alloc::Global;

/// Whether it is the pattern that nothing matches.
pub fn is_not_allowed(p: &Pat) -> bool
    ensures { result ≡ s.is_not_allowed (pattern_of p.now) }
{
    matches!(p, Pat::NotAllowed)
}

/// Whether it is the empty pattern.
pub(crate) fn is_empty(p: &Pat) -> bool
    ensures { result ≡ s.is_empty (pattern_of p.now) }
{
    matches!(p, Pat::Empty)
}

/// Whether no attributes and no children match.
pub fn nullable(p: &Pat) -> bool
    ensures { result ≡ is_nullable (pattern_of p.now) }
{
    match p {
        Pat::Empty | Pat::Text => true,
        Pat::OneOrMore(body) => nullable(body),
        Pat::Choice(a, b) => nullable(a) || nullable(b),
        // Parts of one whole nest to the left, so that asking the last one first mostly ends at once.
        Pat::Group(a, b) => nullable(b) && nullable(a),
        Pat::Interleave(a, b) => nullable(b) && nullable(a),
        Pat::NotAllowed
        | Pat::Typed(_, _)
        | Pat::Value(_, _)
        | Pat::List(_)
        | Pat::Attribute(_, _)
        | Pat::Ref(_) => false,
    }
}

/// Whether the two are put together alike.
pub fn same_pattern(p: &Pat, q: &Pat) -> bool
    ensures { result ≡ same_patterns (pattern_of p.now) (pattern_of q.now) }
{
    p.same(q)
}

/// Whether the first pattern is a side of the second, where that is a choice, or all of it.
fn is_side(q: &Pat, p: &Pat) -> bool
    ensures { result ≡ s.is_side (pattern_of q.now) (pattern_of p.now) }
{
    match p {
        Pat::Choice(a, b) => is_side(q, a) || same_pattern(q, b),
        Pat::NotAllowed
        | Pat::Empty
        | Pat::Text
        | Pat::Typed(_, _)
        | Pat::Value(_, _)
        | Pat::List(_)
        | Pat::Attribute(_, _)
        | Pat::Ref(_)
        | Pat::OneOrMore(_)
        | Pat::Group(_, _)
        | Pat::Interleave(_, _) => same_pattern(q, p),
    }
}

/// The choice of a pattern and a second one, as it is.
#[inline(never)]
pub(crate) fn choice_with(alloc: Global, p: Box<Pat>, q: Made) -> Result<Box<Pat>, NoMemory>
    ensures { (y : Pattern) → IfOk q (λ made. pattern_of made.value ≡ y)
        → IfOk result (λ made. pattern_of made.value ≡ choice (pattern_of p.value) y) }
{
    match q {
        Ok(q) => boxed(alloc, Pat::Choice(p, q)),
        Err(fault) => {
            drop(p);
            Err(fault)
        }
    }
}

/// A choice with one side more, unless it has it.
fn with_side(alloc: Global, p: Box<Pat>, q: &Pat) -> Result<Box<Pat>, NoMemory>
    ensures { IfOk result (λ made. pattern_of made.value ≡ s.with_side (pattern_of p.value) (pattern_of q.now)) }
{
    if is_not_allowed(&p) {
        drop(p);
        return boxed_copy(alloc, q);
    }
    if is_not_allowed(q) {
        return Ok(p);
    }
    if is_side(q, &p) {
        return Ok(p);
    }
    choice_with(alloc, p, boxed_copy(alloc, q))
}

/// A choice with the sides of a second pattern, in a box.
pub(crate) fn with_sides(alloc: Global, p: Box<Pat>, q: &Pat) -> Result<Box<Pat>, NoMemory>
    ensures { IfOk result (λ made. pattern_of made.value ≡ s.choice_of (pattern_of p.value) (pattern_of q.now)) }
{
    match q {
        Pat::Choice(a, b) => {
            let front = with_sides(alloc, p, a)?;
            with_sides(alloc, front, b)
        }
        Pat::NotAllowed
        | Pat::Empty
        | Pat::Text
        | Pat::Typed(_, _)
        | Pat::Value(_, _)
        | Pat::List(_)
        | Pat::Attribute(_, _)
        | Pat::Ref(_)
        | Pat::OneOrMore(_)
        | Pat::Group(_, _)
        | Pat::Interleave(_, _) => with_side(alloc, p, q),
    }
}

/// Whether the choice of the two is plainly the second one: the first matches nothing, and the second is no choice.
fn is_second_alone(p: &Pat, q: &Pat) -> bool
    ensures { IsTrue result → s.choice_of (pattern_of p.now) (pattern_of q.now) ≡ pattern_of q.now }
{
    match q {
        Pat::Choice(_, _) => false,
        Pat::NotAllowed
        | Pat::Empty
        | Pat::Text
        | Pat::Typed(_, _)
        | Pat::Value(_, _)
        | Pat::List(_)
        | Pat::Attribute(_, _)
        | Pat::Ref(_)
        | Pat::OneOrMore(_)
        | Pat::Group(_, _)
        | Pat::Interleave(_, _) => is_not_allowed(p),
    }
}

/// The choice of two patterns, in a box.
pub(crate) fn either(alloc: Global, p: Made, q: Made) -> Result<Box<Pat>, NoMemory>
    ensures { (x y : Pattern) → IfOk p (λ made. pattern_of made.value ≡ x) → IfOk q (λ made. pattern_of made.value ≡ y)
        → IfOk result (λ made. pattern_of made.value ≡ s.choice_of x y) }
{
    let (p, q) = both(p, q)?;
    if is_second_alone(&p, &q) {
        return one_kept(q, p);
    }
    let made = with_sides(alloc, p, &q);
    drop(q);
    made
}

/// The group of two patterns, in a box.
#[inline(never)]
pub(crate) fn in_order(alloc: Global, p: Made, q: Made) -> Result<Box<Pat>, NoMemory>
    ensures { (x y : Pattern) → IfOk p (λ made. pattern_of made.value ≡ x) → IfOk q (λ made. pattern_of made.value ≡ y)
        → IfOk result (λ made. pattern_of made.value ≡ s.group_of x y) }
{
    let (p, q) = both(p, q)?;
    if is_not_allowed(&p) {
        return one_kept(p, q);
    }
    if is_not_allowed(&q) {
        return one_kept(q, p);
    }
    if is_empty(&p) {
        return one_kept(q, p);
    }
    if is_empty(&q) {
        return one_kept(p, q);
    }
    boxed(alloc, Pat::Group(p, q))
}

/// The same, where the second pattern is copied.
pub(crate) fn before(alloc: Global, p: Made, q: &Pat) -> Result<Box<Pat>, NoMemory>
    ensures { (x : Pattern) → IfOk p (λ made. pattern_of made.value ≡ x)
        → IfOk result (λ made. pattern_of made.value ≡ s.group_of x (pattern_of q.now)) }
{
    let p = p?;
    if is_not_allowed(&p) {
        return Ok(p);
    }
    in_order(alloc, Ok(p), boxed_copy(alloc, q))
}

/// The same, where the first one is copied.
pub(crate) fn behind(alloc: Global, p: &Pat, q: Made) -> Result<Box<Pat>, NoMemory>
    ensures { (y : Pattern) → IfOk q (λ made. pattern_of made.value ≡ y)
        → IfOk result (λ made. pattern_of made.value ≡ s.group_of (pattern_of p.now) y) }
{
    let q = q?;
    if is_not_allowed(&q) {
        return Ok(q);
    }
    in_order(alloc, boxed_copy(alloc, p), Ok(q))
}

/// The interleave of two patterns, in a box.
#[inline(never)]
pub(crate) fn shuffled(alloc: Global, p: Made, q: Made) -> Result<Box<Pat>, NoMemory>
    ensures { (x y : Pattern) → IfOk p (λ made. pattern_of made.value ≡ x) → IfOk q (λ made. pattern_of made.value ≡ y)
        → IfOk result (λ made. pattern_of made.value ≡ s.interleave_of x y) }
{
    let (p, q) = both(p, q)?;
    if is_not_allowed(&p) {
        return one_kept(p, q);
    }
    if is_not_allowed(&q) {
        return one_kept(q, p);
    }
    if is_empty(&p) {
        return one_kept(q, p);
    }
    if is_empty(&q) {
        return one_kept(p, q);
    }
    boxed(alloc, Pat::Interleave(p, q))
}

/// The same, where the second pattern is copied.
pub(crate) fn beside(alloc: Global, p: Made, q: &Pat) -> Result<Box<Pat>, NoMemory>
    ensures { (x : Pattern) → IfOk p (λ made. pattern_of made.value ≡ x)
        → IfOk result (λ made. pattern_of made.value ≡ s.interleave_of x (pattern_of q.now)) }
{
    let p = p?;
    if is_not_allowed(&p) {
        return Ok(p);
    }
    shuffled(alloc, Ok(p), boxed_copy(alloc, q))
}

/// The same, where the first one is copied.
pub(crate) fn beside_first(alloc: Global, p: &Pat, q: Made) -> Result<Box<Pat>, NoMemory>
    ensures { (y : Pattern) → IfOk q (λ made. pattern_of made.value ≡ y)
        → IfOk result (λ made. pattern_of made.value ≡ s.interleave_of (pattern_of p.now) y) }
{
    let q = q?;
    if is_not_allowed(&q) {
        return Ok(q);
    }
    shuffled(alloc, boxed_copy(alloc, p), Ok(q))
}

/// One or more parts that match the body, in a box.
#[inline(never)]
pub(crate) fn repeated(alloc: Global, p: Made) -> Result<Box<Pat>, NoMemory>
    ensures { (x : Pattern) → IfOk p (λ made. pattern_of made.value ≡ x)
        → IfOk result (λ made. pattern_of made.value ≡ s.one_or_more_of x) }
{
    let p = p?;
    if is_not_allowed(&p) {
        return Ok(p);
    }
    boxed(alloc, Pat::OneOrMore(p))
}

/// Whether it is a repetition.
fn is_repeated(p: &Pat) -> bool
    ensures { result ≡ s.is_repeated (pattern_of p.now) }
{
    matches!(p, Pat::OneOrMore(_))
}

/// Whether it is a repetition that may be of nothing.
fn is_star(p: &Pat) -> bool
    ensures { result ≡ s.is_star (pattern_of p.now) }
{
    match p {
        Pat::Choice(a, b) => is_repeated(a) && is_empty(b) || is_empty(a) && is_repeated(b),
        Pat::NotAllowed
        | Pat::Empty
        | Pat::Text
        | Pat::Typed(_, _)
        | Pat::Value(_, _)
        | Pat::List(_)
        | Pat::Attribute(_, _)
        | Pat::Ref(_)
        | Pat::OneOrMore(_)
        | Pat::Group(_, _)
        | Pat::Interleave(_, _) => false,
    }
}

/// As many parts as one likes, or none, in a box. Where the part is such a repetition, that is it: nested ones would grow with each attribute that
/// they take.
#[tactic(auto, unfolding(rng_kept::specs::SmallPatterns::star))]
#[inline(never)]
pub(crate) fn starred(alloc: Global, p: &Pat) -> Result<Box<Pat>, NoMemory>
    ensures { IfOk result (λ made. pattern_of made.value ≡ s.star (pattern_of p.now)) }
{
    if is_star(p) {
        return boxed_copy(alloc, p);
    }
    let body = boxed_copy(alloc, p)?;
    let some = boxed(alloc, Pat::OneOrMore(body))?;
    choice_with(alloc, some, boxed_empty(alloc))
}

/// A choice with the sides of a second pattern, those alone that it doesn't have.
pub fn choice_of(alloc: Global, p: Pat, q: &Pat) -> Result<Pat, NoMemory>
    ensures { IfOk result (λ made. pattern_of made ≡ s.choice_of (pattern_of p) (pattern_of q.now)) }
{
    let front = boxed(alloc, p)?;
    unboxed(with_sides(alloc, front, q))
}

/// What the one matches, and then what the other does.
pub fn group_of(alloc: Global, p: Pat, q: &Pat) -> Result<Pat, NoMemory>
    ensures { IfOk result (λ made. pattern_of made ≡ s.group_of (pattern_of p) (pattern_of q.now)) }
{
    unboxed(before(alloc, boxed(alloc, p), q))
}

/// What the two match, shuffled.
pub fn interleave_of(alloc: Global, p: Pat, q: &Pat) -> Result<Pat, NoMemory>
    ensures { IfOk result (λ made. pattern_of made ≡ s.interleave_of (pattern_of p) (pattern_of q.now)) }
{
    unboxed(beside(alloc, boxed(alloc, p), q))
}

/// As many parts as one likes, or none.
pub fn star(alloc: Global, p: &Pat) -> Result<Pat, NoMemory>
    ensures { IfOk result (λ made. pattern_of made ≡ s.star (pattern_of p.now)) }
{
    unboxed(starred(alloc, p))
}
