//! Which texts have the same value.

ghost use Rattle.std.specs.Prelude.{◌≡◌, ◌↔◌, length, slice_index, EachIndex, IsTrue};
ghost use Rattle.rng_types.specs.Spaces.{words, collapsed, replaced_char, replaced, normalized};
ghost use Rattle.rng_types.specs.Words.{is_word, has_form, whitespace_of};
ghost use Rattle.rng_types.specs.Types.{SameWord, SameOfForm};

use crate::form::only_word;
use crate::kind::{Form, Whitespace, Word};
use crate::number::compare;
use crate::spaces::first_word_of;
use crate::word::is_true;
use nx_base::character::is_space;
use std::cmp::Ordering;

/// Whether two texts have the same words.
fn same_words(a: &[u8], b: &[u8]) -> bool
    ensures { IsTrue result ↔ (words a.now ≡ words b.now) }
{
    let mut left = a;
    let mut other = b;
    while let Some((word, rest)) = first_word_of(left) {
        match first_word_of(other) {
            Some((second, behind)) => {
                if word != second {
                    return false;
                }
                left = rest;
                other = behind;
            }
            None => return false,
        }
    }
    first_word_of(other).is_none()
}

/// A byte, or a space for white space.
fn replaced_byte(byte: u8) -> u8
    ensures { result ≡ replaced_char byte }
{
    if is_space(char::from(byte)) {
        b' '
    } else {
        byte
    }
}

/// Whether two texts of the same length are the same at each byte, where white space counts as a space.
fn same_each(a: &[u8], b: &[u8]) -> bool
    requires { length a.now ≡ length b.now }
    ensures { IsTrue result ↔ EachIndex a.now (λ k. replaced_char (slice_index a.now k) ≡ replaced_char (slice_index b.now k)) }
{
    for (x, y) in a.iter().zip(b) {
        if replaced_byte(*x) != replaced_byte(*y) {
            return false;
        }
    }
    true
}

/// Whether two texts are the same where each white space counts as a space.
fn same_replaced(a: &[u8], b: &[u8]) -> bool
    ensures { IsTrue result ↔ (replaced a.now ≡ replaced b.now) }
{
    if a.len() != b.len() {
        return false;
    }
    same_each(a, b)
}

/// Whether two texts are the same after collapsing.
pub(crate) fn same_collapsed(a: &[u8], b: &[u8]) -> bool
    ensures { IsTrue result ↔ (collapsed a.now ≡ collapsed b.now) }
{
    same_words(a, b)
}

impl Whitespace {
    /// Whether two texts are the same after this treatment.
    fn same(self, a: &str, b: &str) -> bool
        ensures { IsTrue result ↔ (normalized self a.now ≡ normalized self b.now) }
    {
        match self {
            Whitespace::Preserve => a == b,
            Whitespace::Replace => same_replaced(a.as_bytes(), b.as_bytes()),
            Whitespace::Collapse => same_collapsed(a.as_bytes(), b.as_bytes()),
        }
    }
}

impl Word {
    /// Whether two words of the form have the same value.
    pub(crate) fn same(self, a: &str, b: &str) -> bool
        requires first { IsTrue (is_word self a.now) }
        requires second { IsTrue (is_word self b.now) }
        ensures { IsTrue result ↔ SameWord self a.now b.now }
    {
        match self {
            Word::Boolean => is_true(a) == is_true(b),
            Word::Decimal => compare(a.as_bytes(), b.as_bytes()) == Ordering::Equal,
            Word::Integer => compare(a.as_bytes(), b.as_bytes()) == Ordering::Equal,
            Word::Name => a == b,
            Word::NcName => a == b,
            Word::NmToken => a == b,
            Word::Language => a == b,
        }
    }
}

/// Whether two texts' only words have the same value.
fn same_only_words(form: Word, a: &str, b: &str) -> bool
    requires first { IsTrue (is_word form (collapsed a.now)) }
    requires second { IsTrue (is_word form (collapsed b.now)) }
    ensures { IsTrue result ↔ SameWord form (collapsed a.now) (collapsed b.now) }
{
    let (Some(word), Some(other)) = (only_word(a), only_word(b)) else {
        unreachable!();
    };
    form.same(word, other)
}

impl Form {
    /// Whether two texts of the form have the same value.
    pub(crate) fn same(self, a: &str, b: &str) -> bool
        requires first { IsTrue (has_form self (normalized (whitespace_of self) a.now)) }
        requires second { IsTrue (has_form self (normalized (whitespace_of self) b.now)) }
        ensures { IsTrue result ↔ SameOfForm self (normalized (whitespace_of self) a.now) (normalized (whitespace_of self) b.now) }
    {
        match self {
            Form::Any(whitespace) => whitespace.same(a, b),
            Form::One(word) => same_only_words(word, a, b),
            Form::Several(_) => same_collapsed(a.as_bytes(), b.as_bytes()),
            Form::More(more) => more.same(a, b),
        }
    }
}
