//! Lengths of texts.

ghost use Rattle.std.specs.Prelude.{◌≡◌, ◌+◌, ◌-◌, ◌^◌, ◌<◌, length, min, sum_by, IsTrue};
ghost use Rattle.std.specs.Str.{chars};
ghost use Rattle.std.specs.Ordering.{nat_cmp};
ghost use Rattle.rng_types.specs.Spaces.{words, collapsed, normalized};
ghost use Rattle.rng_types.specs.Words.{whitespace_of, has_form};
ghost use Rattle.rng_more_types.specs.MoreTypes.{is_literal};
ghost use Rattle.rng_types.specs.Facets.{octet_count as octet_count_of, size_of};

use crate::kind::{Form, Whitespace};
use crate::spaces::first_word;
use rng_more_types::MoreType;
use std::cmp::Ordering;

/// How many characters a text has.
fn char_count(text: &str) -> usize
    ensures { result ≡ length (chars text.now) }
{
    text.chars().count()
}

/// How many words a text has. The sum stops at the greatest `usize`.
fn word_count(text: &str) -> usize
    ensures { result ≡ min (length (words text.now)) (2 ^ 64 - 1) }
{
    let mut count: usize = 0;
    let mut left = text;
    while let Some((_word, rest)) = first_word(left) {
        count = count.saturating_add(1);
        left = rest;
    }
    count
}

/// How many characters the words of a text have, with one space behind each. The sum stops at the greatest
/// `usize`.
fn spaced_count(text: &str) -> usize
    ensures { result ≡ min (sum_by (λ word. length (chars word) + 1) (words text.now)) (2 ^ 64 - 1) }
{
    let mut count: usize = 0;
    let mut left = text;
    while let Some((word, rest)) = first_word(left) {
        count = count.saturating_add(char_count(word)).saturating_add(1);
        left = rest;
    }
    count
}

/// How the number of a text's characters, after it is collapsed, compares with a limit.
fn compare_collapsed(text: &str, limit: u32) -> Ordering
    ensures { result ≡ nat_cmp (length (chars (collapsed text.now))) limit }
{
    spaced_count(text).saturating_sub(1).cmp(&(limit as usize))
}

impl Whitespace {
    /// How the number of a text's characters, after this treatment, compares with a limit.
    fn compare_length(self, text: &str, limit: u32) -> Ordering
        ensures { result ≡ nat_cmp (length (chars (normalized self text.now))) limit }
    {
        match self {
            Whitespace::Preserve => char_count(text).cmp(&(limit as usize)),
            Whitespace::Replace => char_count(text).cmp(&(limit as usize)),
            Whitespace::Collapse => compare_collapsed(text, limit),
        }
    }
}

/// How many octets a text of the type stands for; 0 where that isn't what it stands for.
fn octet_count(more: MoreType, text: &str) -> usize
    requires { IsTrue (is_literal more text.now) }
    ensures { result ≡ octet_count_of more text.now }
{
    more.octets(text).unwrap_or(0)
}

impl Form {
    /// How a text's length compares with a limit: the length in words where the form is several words, in octets where
    /// they are what it stands for, otherwise that in characters.
    pub(crate) fn compare_length(self, text: &str, limit: u32) -> Ordering
        requires { IsTrue (has_form self (normalized (whitespace_of self) text.now)) }
        ensures { result ≡ nat_cmp (size_of self (normalized (whitespace_of self) text.now)) limit }
    {
        match self {
            Form::Any(whitespace) => whitespace.compare_length(text, limit),
            Form::One(_) => compare_collapsed(text, limit),
            Form::Several(_) => word_count(text).cmp(&(limit as usize)),
            Form::More(more) => octet_count(more, text).cmp(&(limit as usize)),
        }
    }
}
