//! The forms of words.

ghost use Rattle.std.specs.Prelude.{◌≡◌, ◌≤◌, ◌<◌, ◌==◌, ◌&&◌, nat_le, [], ◌∷◌, length, IfSome, IfNone};
ghost use Rattle.std.specs.Char.{is_ascii_alphabetic, is_ascii_alphanumeric};
ghost use Rattle.std.specs.List.{list_all, slice_split, position_or_len};
ghost use Rattle.std.specs.Str.{chars};
ghost use Rattle.rng_types.specs.Spaces.{is_some_text};
ghost use Rattle.nx_base.specs.Characters.{is_of_chars};
ghost use Rattle.rng_types.specs.Words.{is_nm_token, is_subtag, is_language as is_language_text};
ghost use Rattle.rng_types.specs.Words.{is_true as is_true_text, is_false as is_false_text, is_word};

use crate::kind::Word;
use crate::number::{is_decimal, is_integer};
use nx_base::character::{is_char, is_name, is_name_char, is_nc_name};

/// Whether bytes are UTF-8 of characters that XML allows (XML 1.0, section 2.2).
pub fn is_of_chars(bytes: &[u8]) -> bool
    ensures { result ≡ is_of_chars bytes.now }
{
    match str::from_utf8(bytes) {
        Ok(text) => text.chars().all(is_char),
        Err(_) => false,
    }
}

/// Whether a text is one or more characters of names (XML 1.0, section 2.3).
pub fn is_nm_token(text: &str) -> bool
    ensures { result ≡ is_nm_token (chars text.now) }
{
    !text.is_empty() && text.chars().all(is_name_char)
}

/// Whether there are one to eight bytes.
fn is_short(part: &[u8]) -> bool
    ensures { result ≡ (is_some_text part.now && nat_le (length part.now) 8) }
{
    !part.is_empty() && part.len() <= 8
}

/// Whether all bytes are letters.
fn all_letters(part: &[u8]) -> bool
    ensures { result ≡ list_all is_ascii_alphabetic part.now }
{
    part.iter().all(|byte| byte.is_ascii_alphabetic())
}

/// Whether all bytes are letters and digits.
fn all_letters_or_digits(part: &[u8]) -> bool
    ensures { result ≡ list_all is_ascii_alphanumeric part.now }
{
    part.iter().all(|byte| byte.is_ascii_alphanumeric())
}

/// How many bytes stand before the first `-`, or in all where there is none.
fn dash_place(text: &[u8]) -> usize
    ensures place { result ≡ position_or_len (λ c. c == 45) text.now }
    ensures within { result ≤ length text.now }
{
    text.iter().take_while(|byte| **byte != b'-').count()
}

/// What stands before the first `-`, and what stands behind it, if there is one.
fn first_subtag(text: &[u8]) -> (&[u8], Option<&[u8]>)
    ensures alone { IfNone result.1 (slice_split (λ c. c == 45) text.now ≡ result.0.now ∷ []) }
    ensures more { IfSome result.1 (λ rest. slice_split (λ c. c == 45) text.now ≡ result.0.now ∷ slice_split (λ c. c == 45) rest.now) }
    ensures shorter { IfSome result.1 (λ rest. length rest.now < length text.now) }
{
    let end = dash_place(text);
    let part = &text[..end];
    if end == text.len() {
        return (part, None);
    }
    let rest = &text[end + 1..];
    (part, Some(rest))
}

/// Whether what stands between the `-` of a text are parts of one to eight letters and digits.
fn are_further_subtags(text: &[u8]) -> bool
    ensures { result ≡ list_all (is_subtag is_ascii_alphanumeric) (slice_split (λ c. c == 45) text.now) }
{
    let mut left = text;
    loop {
        let (part, rest) = first_subtag(left);
        if !(all_letters_or_digits(part) && is_short(part)) {
            return false;
        }
        match rest {
            Some(rest) => left = rest,
            None => return true,
        }
    }
}

/// Whether a text is a language tag (XML Schema Part 2, section 3.3.3).
pub fn is_language(text: &[u8]) -> bool
    ensures { result ≡ is_language_text text.now }
{
    let (part, rest) = first_subtag(text);
    if !(all_letters(part) && is_short(part)) {
        return false;
    }
    match rest {
        Some(rest) => are_further_subtags(rest),
        None => true,
    }
}

/// Whether a text stands for true.
pub(crate) fn is_true(text: &str) -> bool
    ensures { result ≡ is_true_text text.now }
{
    text == "true" || text == "1"
}

/// Whether a text stands for false.
fn is_false(text: &str) -> bool
    ensures { result ≡ is_false_text text.now }
{
    text == "false" || text == "0"
}

impl Word {
    /// Whether a text has the form.
    pub(crate) fn fits(self, text: &str) -> bool
        ensures { result ≡ is_word self text.now }
    {
        match self {
            Word::Name => is_name(text),
            Word::NcName => is_nc_name(text),
            Word::NmToken => is_nm_token(text),
            Word::Language => is_language(text.as_bytes()),
            Word::Boolean => is_true(text) || is_false(text),
            Word::Decimal => is_decimal(text.as_bytes()),
            Word::Integer => is_integer(text.as_bytes()),
        }
    }
}
