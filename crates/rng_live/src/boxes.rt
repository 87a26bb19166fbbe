//! Patterns in boxes, one node at a time.
//!
//! What calls itself for each node of a path holds boxes alone, and what holds patterns is called for one node.

ghost use Rattle.std.specs.Prelude.{◌≡◌, IfOk};
ghost use Rattle.rng_core.specs.Meaning.{class_of, pattern_of};
ghost use Rattle.rng_core.specs.Patterns.{listed, attribute, ref, one_or_more, choice, group, interleave};

use nx_base::memory::NoMemory;
use rng_core::grammar::Pat;
use rng_core::name_class::NameClass;
use std::alloc::Global;

/// A pattern in a box.
#[inline(never)]
fn boxed(alloc: Global, pattern: Pat) -> Result<Box<Pat>, NoMemory>
    ensures { IfOk result (λ made. pattern_of made.value ≡ pattern_of pattern) }
{
    Ok(Box::new(alloc, pattern)?)
}

/// The same pattern once more, in a box.
#[inline(never)]
pub(crate) fn boxed_copy(alloc: Global, pattern: &Pat) -> Result<Box<Pat>, NoMemory>
    ensures { IfOk result (λ made. pattern_of made.value ≡ pattern_of pattern.now) }
{
    boxed(alloc, pattern.copy(alloc)?)
}

/// A reference in a box.
#[inline(never)]
pub(crate) fn boxed_ref(alloc: Global, number: u32) -> Result<Box<Pat>, NoMemory>
    ensures { IfOk result (λ made. pattern_of made.value ≡ ref number) }
{
    boxed(alloc, Pat::Ref(number))
}

/// A list in a box.
#[inline(never)]
pub(crate) fn boxed_list(alloc: Global, body: Box<Pat>) -> Result<Box<Pat>, NoMemory>
    ensures { IfOk result (λ made. pattern_of made.value ≡ listed (pattern_of body.value)) }
{
    boxed(alloc, Pat::List(body))
}

/// An attribute in a box.
#[inline(never)]
pub(crate) fn boxed_attribute(
    alloc: Global,
    class: &NameClass,
    body: Box<Pat>,
) -> Result<Box<Pat>, NoMemory>
    ensures { IfOk result (λ made. pattern_of made.value ≡ attribute (class_of class.now) (pattern_of body.value)) }
{
    boxed(alloc, Pat::Attribute(class.copy(alloc)?, body))
}

/// A repetition in a box.
#[inline(never)]
pub(crate) fn boxed_one_or_more(alloc: Global, body: Box<Pat>) -> Result<Box<Pat>, NoMemory>
    ensures { IfOk result (λ made. pattern_of made.value ≡ one_or_more (pattern_of body.value)) }
{
    boxed(alloc, Pat::OneOrMore(body))
}

/// A choice in a box.
#[inline(never)]
pub(crate) fn boxed_choice(alloc: Global, a: Box<Pat>, b: Box<Pat>) -> Result<Box<Pat>, NoMemory>
    ensures { IfOk result (λ made. pattern_of made.value ≡ choice (pattern_of a.value) (pattern_of b.value)) }
{
    boxed(alloc, Pat::Choice(a, b))
}

/// A group in a box.
#[inline(never)]
pub(crate) fn boxed_group(alloc: Global, a: Box<Pat>, b: Box<Pat>) -> Result<Box<Pat>, NoMemory>
    ensures { IfOk result (λ made. pattern_of made.value ≡ group (pattern_of a.value) (pattern_of b.value)) }
{
    boxed(alloc, Pat::Group(a, b))
}

/// An interleave in a box.
#[inline(never)]
pub(crate) fn boxed_interleave(
    alloc: Global,
    a: Box<Pat>,
    b: Box<Pat>,
) -> Result<Box<Pat>, NoMemory>
    ensures { IfOk result (λ made. pattern_of made.value ≡ interleave (pattern_of a.value) (pattern_of b.value)) }
{
    boxed(alloc, Pat::Interleave(a, b))
}
