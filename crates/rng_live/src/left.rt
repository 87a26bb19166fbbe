//! What is left of a pattern that lives.
//!
//! A walk goes down a pattern along the numbers of its conditions, so that each node is met once. It calls itself for each node of
//! a path, so it holds boxes alone, and what holds patterns is called for one node.

ghost use Rattle.std.specs.Prelude.{◌≡◌, length, slice_get, IfOk};
ghost use Rattle.rng_core.specs.Meaning.{pattern_of};
ghost use Rattle.rng_live.specs.Left.{first_of, second_of, LeavesTo};

use crate::boxes::{
    boxed_attribute, boxed_choice, boxed_copy, boxed_group, boxed_interleave, boxed_list,
    boxed_one_or_more, boxed_ref,
};
use crate::condition::{Condition, is_marked_at};
use crate::kept::Kept;
use nx_base::memory::NoMemory;
use rng_core::grammar::Pat;
use std::alloc::Global;

/// The number of the first of the conditions that one rests on.
#[inline(never)]
pub(crate) fn first_part(conditions: &[Condition], number: usize) -> usize
    ensures { result ≡ first_of (slice_get conditions.now number) }
{
    match conditions.get(number) {
        None => 0,
        Some(condition) => match condition {
            Condition::Known(_) => 0,
            Condition::If(_, on) => *on,
            Condition::Both(first, _) => *first,
            Condition::Either(first, _) => *first,
        },
    }
}

/// The number of the second of them.
#[inline(never)]
fn second_part(conditions: &[Condition], number: usize) -> usize
    ensures { result ≡ second_of (slice_get conditions.now number) }
{
    match conditions.get(number) {
        None => 0,
        Some(condition) => match condition {
            Condition::Known(_) => 0,
            Condition::If(_, _) => 0,
            Condition::Both(_, second) => *second,
            Condition::Either(_, second) => *second,
        },
    }
}

/// What is known of the patterns of a grammar: their conditions, and which of these hold.
#[derive(Clone, Copy)]
pub(crate) struct Life<'a> {
    pub(crate) conditions: &'a [Condition],
    pub(crate) marks: &'a [bool],
}

/// What is left of a pattern that lives, in a box.
fn left_in_box(
    alloc: Global,
    life: &Life,
    kept: &mut Kept,
    pattern: &Pat,
    number: usize,
) -> Result<Box<Pat>, NoMemory>
    ensures left { IfOk result (λ made. LeavesTo life.now.conditions.now life.now.marks.now (length kept.old.seen.items) number
        (pattern_of pattern.now) kept.old.numbers.items kept.new.numbers.items (pattern_of made.value)) }
    ensures steady { length kept.new.seen.items ≡ length kept.old.seen.items }
{
    match pattern {
        Pat::NotAllowed => {
            let whole = boxed_copy(alloc, pattern)?;
            Ok(whole)
        }
        Pat::Empty => {
            let whole = boxed_copy(alloc, pattern)?;
            Ok(whole)
        }
        Pat::Text => {
            let whole = boxed_copy(alloc, pattern)?;
            Ok(whole)
        }
        Pat::Typed(_, _) => {
            let whole = boxed_copy(alloc, pattern)?;
            Ok(whole)
        }
        Pat::Value(_, _) => {
            let whole = boxed_copy(alloc, pattern)?;
            Ok(whole)
        }
        Pat::Ref(definition) => {
            let place = kept.keep(*definition)?;
            let whole = boxed_ref(alloc, place)?;
            Ok(whole)
        }
        Pat::List(body) => {
            let part = first_part(life.conditions, number);
            let body = left_in_box(alloc, life, kept, body, part)?;
            let whole = boxed_list(alloc, body)?;
            Ok(whole)
        }
        Pat::Attribute(class, body) => {
            let part = first_part(life.conditions, number);
            let body = left_in_box(alloc, life, kept, body, part)?;
            let whole = boxed_attribute(alloc, class, body)?;
            Ok(whole)
        }
        Pat::OneOrMore(body) => {
            let part = first_part(life.conditions, number);
            let body = left_in_box(alloc, life, kept, body, part)?;
            let whole = boxed_one_or_more(alloc, body)?;
            Ok(whole)
        }
        Pat::Choice(a, b) => {
            let first = first_part(life.conditions, number);
            let second = second_part(life.conditions, number);
            if !is_marked_at(life.marks, first) {
                let side = left_in_box(alloc, life, kept, b, second)?;
                return Ok(side);
            }
            if !is_marked_at(life.marks, second) {
                let side = left_in_box(alloc, life, kept, a, first)?;
                return Ok(side);
            }
            let a = left_in_box(alloc, life, kept, a, first)?;
            let b = left_in_box(alloc, life, kept, b, second)?;
            let whole = boxed_choice(alloc, a, b)?;
            Ok(whole)
        }
        Pat::Group(a, b) => {
            let first = first_part(life.conditions, number);
            let second = second_part(life.conditions, number);
            let a = left_in_box(alloc, life, kept, a, first)?;
            let b = left_in_box(alloc, life, kept, b, second)?;
            let whole = boxed_group(alloc, a, b)?;
            Ok(whole)
        }
        Pat::Interleave(a, b) => {
            let first = first_part(life.conditions, number);
            let second = second_part(life.conditions, number);
            let a = left_in_box(alloc, life, kept, a, first)?;
            let b = left_in_box(alloc, life, kept, b, second)?;
            let whole = boxed_interleave(alloc, a, b)?;
            Ok(whole)
        }
    }
}

/// What is left of a pattern that lives, by the number of its condition. The definitions that it refers to are kept.
pub(crate) fn left(
    alloc: Global,
    life: &Life,
    kept: &mut Kept,
    pattern: &Pat,
    number: usize,
) -> Result<Pat, NoMemory>
    ensures left { IfOk result (λ made. LeavesTo life.now.conditions.now life.now.marks.now (length kept.old.seen.items) number
        (pattern_of pattern.now) kept.old.numbers.items kept.new.numbers.items (pattern_of made)) }
    ensures steady { length kept.new.seen.items ≡ length kept.old.seen.items }
{
    Ok(Box::into_inner(left_in_box(alloc, life, kept, pattern, number)?))
}
