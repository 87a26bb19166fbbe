//! What is left of a pattern behind a string: a given one, or some one that isn't blank.

ghost use Rattle.std.specs.Prelude.{◌≡◌, IfOk};
ghost use Rattle.rng_types.specs.Spaces.{words};
ghost use Rattle.rng_core.specs.Meaning.{pattern_of};
ghost use Rattle.rng_core.specs.Patterns.{Pattern};
ghost use Rattle.rng_kept.specs.Nullable.{nullable as is_nullable};
ghost use Rattle.rng_kept.specs.Strings as s;
ghost use Rattle.deriv_pattern.specs.Leaves.{IsInOrder};
ghost use Rattle.deriv_pattern.specs.Choosing.{tests_of};

use crate::boxes::{Made, boxed_copy, boxed_end, boxed_not_allowed, unboxed};
use crate::leaves::{has_words, is_data, is_value, takes_data, takes_value};
use crate::parts::{either_side, first_of_many, first_side, one_of_interleave};
use crate::small::{either, nullable};
use nx_base::memory::NoMemory;
use rng_core::grammar::Pat;
use rng_types::spaces::first_word;
use std::alloc::Global;

/// Behind a word of a list, in which no list stands.
fn after_word(alloc: Global, word: &str, p: &Pat) -> Result<Box<Pat>, NoMemory>
    requires { IsInOrder (pattern_of p.now) }
    ensures { IfOk result (λ left. pattern_of left.value ≡ s.after_word word.now (pattern_of p.now)) }
{
    match p {
        Pat::NotAllowed | Pat::Empty | Pat::List(_) | Pat::Attribute(_, _) | Pat::Ref(_) =>
            boxed_not_allowed(alloc),
        Pat::Text => boxed_copy(alloc, p),
        Pat::Typed(datatype, excepts) => boxed_end(alloc, Ok(is_data(datatype, excepts, word))),
        Pat::Value(datatype, wanted) => boxed_end(alloc, Ok(is_value(datatype, wanted, word))),
        Pat::OneOrMore(body) => {
            let left = after_word(alloc, word, body);
            first_of_many(alloc, left, body)
        }
        Pat::Choice(a, b) => {
            let left = after_word(alloc, word, a);
            either(alloc, left, after_word(alloc, word, b))
        }
        Pat::Group(a, b) => {
            let left = after_word(alloc, word, a);
            if nullable(a) {
                either_side(alloc, left, b, after_word(alloc, word, b))
            } else {
                first_side(alloc, left, b)
            }
        }
        Pat::Interleave(a, b) => {
            let left = after_word(alloc, word, a);
            let second = after_word(alloc, word, b);
            one_of_interleave(alloc, left, a, b, second)
        }
    }
}

/// Behind one word more, where this was left behind those before it.
fn behind_word(alloc: Global, word: &str, p: Box<Pat>) -> Result<Box<Pat>, NoMemory>
    requires { IsInOrder (pattern_of p.value) }
    ensures { IfOk result (λ left. pattern_of left.value ≡ s.after_word word.now (pattern_of p.value)) }
{
    let left = after_word(alloc, word, &p);
    drop(p);
    left
}

/// Whether nothing more need come behind this.
pub(crate) fn is_passed(left: Made) -> Result<bool, NoMemory>
    ensures { (x : Pattern) → IfOk left (λ made. pattern_of made.value ≡ x) → IfOk result (λ found. found ≡ is_nullable x) }
{
    let left = left?;
    let passed = nullable(&left);
    drop(left);
    Ok(passed)
}

/// Whether the words of a text match the body of a list.
#[tactic(auto, using(crate::proofs::InOrder::word_in_order))]
fn words_match(alloc: Global, text: &str, body: &Pat) -> Result<bool, NoMemory>
    requires { IsInOrder (pattern_of body.now) }
    ensures { IfOk result (λ found. found ≡ is_nullable (s.after_words (words text.now) (pattern_of body.now))) }
{
    let mut left = boxed_copy(alloc, body)?;
    let mut rest = text;
    while let Some((word, more)) = first_word(rest) {
        left = behind_word(alloc, word, left)?;
        rest = more;
    }
    is_passed(Ok(left))
}

/// Whether the words of the text match the body of a list, or those of some text that isn't blank do.
fn takes_list(alloc: Global, solid: bool, text: &str, body: &Pat) -> Result<bool, NoMemory>
    requires { IsInOrder (pattern_of body.now) }
    ensures { IfOk result (λ found. found ≡ (tests_of solid text.now).of_list (pattern_of body.now)) }
{
    if solid {
        has_words(alloc, body)
    } else {
        words_match(alloc, text, body)
    }
}

/// Behind the text, or behind some text that isn't blank.
pub(crate) fn behind_string(
    alloc: Global,
    solid: bool,
    text: &str,
    p: &Pat,
) -> Result<Box<Pat>, NoMemory>
    requires { IsInOrder (pattern_of p.now) }
    ensures { IfOk result (λ left. pattern_of left.value ≡ s.after_by (tests_of solid text.now) (pattern_of p.now)) }
{
    match p {
        Pat::NotAllowed | Pat::Empty | Pat::Attribute(_, _) | Pat::Ref(_) => boxed_not_allowed(
            alloc,
        ),
        Pat::Text => boxed_copy(alloc, p),
        Pat::Typed(datatype, excepts) => {
            boxed_end(alloc, takes_data(alloc, solid, text, datatype, excepts))
        }
        Pat::Value(datatype, wanted) => {
            boxed_end(alloc, Ok(takes_value(solid, text, datatype, wanted)))
        }
        Pat::List(body) => boxed_end(alloc, takes_list(alloc, solid, text, body)),
        Pat::OneOrMore(body) => {
            let left = behind_string(alloc, solid, text, body);
            first_of_many(alloc, left, body)
        }
        Pat::Choice(a, b) => {
            let left = behind_string(alloc, solid, text, a);
            either(alloc, left, behind_string(alloc, solid, text, b))
        }
        Pat::Group(a, b) => {
            let left = behind_string(alloc, solid, text, a);
            if nullable(a) {
                either_side(alloc, left, b, behind_string(alloc, solid, text, b))
            } else {
                first_side(alloc, left, b)
            }
        }
        Pat::Interleave(a, b) => {
            let left = behind_string(alloc, solid, text, a);
            let second = behind_string(alloc, solid, text, b);
            one_of_interleave(alloc, left, a, b, second)
        }
    }
}

/// Behind a string.
pub fn after(alloc: Global, p: &Pat, text: &str) -> Result<Pat, NoMemory>
    requires { IsInOrder (pattern_of p.now) }
    ensures { IfOk result (λ left. pattern_of left ≡ s.after text.now (pattern_of p.now)) }
{
    unboxed(behind_string(alloc, false, text, p))
}
