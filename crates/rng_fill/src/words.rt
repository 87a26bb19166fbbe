//! Words that the body of a list matches.
//!
//! One walk adds words where there are some, and answers whether it did, and whether nothing at all would do. Of a choice the first side
//! with words is taken; of a group both sides give theirs, or one alone where the other may do without.

ghost use Rattle.std.specs.Prelude.{◌≡◌, ◌≤◌, ◌&&◌, ◌||◌, ◌∷◌, ◌++◌, false, length, take, if◌then◌else◌, IfOk, OnOk};
ghost use Rattle.std.specs.List.{join_with_byte, flat_map};
ghost use Rattle.rng_core.specs.Meaning.{pattern_of};
ghost use Rattle.rng_core.specs.Patterns.{any_text, typed, literal, listed};
ghost use Rattle.rng_kept.specs.Nullable.{nullable as is_nullable};
ghost use Rattle.rng_fill.specs.Strings.{AreSoundTexts, IsStringAnswer};
ghost use Rattle.rng_fill.specs.WordLists.{AddsBy, IsAddedWord};

use crate::leaf::{letters, member_of, token_of};
use deriv_pattern::small::nullable;
use nx_base::memory::NoMemory;
use nx_base::sequence::{Bytes, Sequence};
use rng_core::grammar::Pat;
use rng_types::datatype::{Datatype, Excepts};
use std::alloc::Global;

/// What the body of a list takes.
#[derive(Clone, Copy, Debug, PartialEq, Eq)]
pub(crate) struct Takes {
    /// Nothing at all.
    pub(crate) nothing: bool,
    /// Some words.
    pub(crate) words: bool,
}

/// Some words, if the flag is set, and never nothing.
fn words_alone(words: bool) -> Takes
    ensures nothing { result.nothing ≡ false }
    ensures words { result.words ≡ words }
{
    Takes {
        nothing: false,
        words,
    }
}

/// What either side takes, where words of the first were found.
fn or_nullable(first: Takes, second: &Pat) -> Takes
    ensures nothing { result.nothing ≡ (first.nothing || is_nullable (pattern_of second.now)) }
    ensures words { result.words ≡ first.words }
{
    Takes {
        nothing: first.nothing || nullable(second),
        words: first.words,
    }
}

/// What either side takes, where words of the second alone were looked for.
fn or_second(first: Takes, second: Takes) -> Takes
    ensures nothing { result.nothing ≡ (first.nothing || second.nothing) }
    ensures words { result.words ≡ second.words }
{
    Takes {
        nothing: first.nothing || second.nothing,
        words: second.words,
    }
}

/// What both sides take together. Where that is no words, those behind so many are dropped.
fn together(words: &mut Sequence<Bytes>, before: usize, first: Takes, second: Takes) -> Takes
    requires { before ≤ length words.old }
    ensures nothing { result.nothing ≡ (first.nothing && second.nothing) }
    ensures words { result.words ≡ ((first.words && (second.words || second.nothing)) || (first.nothing && second.words)) }
    ensures kept { words.new ≡ (if result.words then words.old else take before words.old) }
{
    let found = (first.words && (second.words || second.nothing))
        || (first.nothing && second.words);
    if !found {
        let end = words.len();
        words.cut(before, end);
    }
    Takes {
        nothing: first.nothing && second.nothing,
        words: found,
    }
}

/// Adds a word, if there is one.
#[inline(never)]
fn add_found(words: &mut Sequence<Bytes>, found: Option<Bytes>) -> Result<bool, NoMemory>
    ensures { IfOk result (λ some. IsAddedWord found some words.old words.new) }
{
    match found {
        Some(word) => {
            words.push(word)?;
            Ok(true)
        }
        None => Ok(false),
    }
}

/// Adds a member of a type that is one token, if there is one.
#[inline(never)]
fn add_member(
    alloc: Global,
    datatype: &Datatype,
    excepts: &Excepts,
    words: &mut Sequence<Bytes>,
) -> Result<Takes, NoMemory>
    requires { AreSoundTexts (typed datatype.now excepts.now) }
    ensures { IfOk result (AddsBy (typed datatype.now excepts.now) words.old words.new) }
{
    let found = member_of(alloc, datatype, excepts.as_slice(), true)?;
    let some = add_found(words, found)?;
    Ok(words_alone(some))
}

/// Adds a text of one token that has the value of a literal, if there is one.
#[inline(never)]
fn add_literal(
    alloc: Global,
    datatype: &Datatype,
    text: &Bytes,
    words: &mut Sequence<Bytes>,
) -> Result<Takes, NoMemory>
    requires { AreSoundTexts (literal datatype.now text.now) }
    ensures { IfOk result (AddsBy (literal datatype.now text.now) words.old words.new) }
{
    let found = token_of(alloc, datatype, text)?;
    let some = add_found(words, found)?;
    Ok(words_alone(some))
}

/// Adds the word `a`.
#[inline(never)]
fn add_letter(alloc: Global, words: &mut Sequence<Bytes>) -> Result<Takes, NoMemory>
    ensures { IfOk result (AddsBy any_text words.old words.new) }
{
    let letter = letters(alloc, 1)?;
    words.push(letter)?;
    Ok(Takes {
        nothing: true,
        words: true,
    })
}

/// Adds some words that the body of a list matches, if there are any.
fn add_words(alloc: Global, body: &Pat, words: &mut Sequence<Bytes>) -> Result<Takes, NoMemory>
    requires { AreSoundTexts (pattern_of body.now) }
    ensures { IfOk result (AddsBy (pattern_of body.now) words.old words.new) }
{
    match body {
        Pat::NotAllowed => Ok(words_alone(false)),
        Pat::Empty => Ok(Takes {
            nothing: true,
            words: false,
        }),
        Pat::Text => {
            let takes = add_letter(alloc, words)?;
            Ok(takes)
        }
        Pat::Typed(datatype, excepts) => {
            let takes = add_member(alloc, datatype, excepts, words)?;
            Ok(takes)
        }
        Pat::Value(datatype, text) => {
            let takes = add_literal(alloc, datatype, text, words)?;
            Ok(takes)
        }
        Pat::List(_) => Ok(words_alone(false)),
        Pat::Attribute(_, _) => Ok(words_alone(false)),
        Pat::Ref(_) => Ok(words_alone(false)),
        Pat::OneOrMore(body) => {
            let takes = add_words(alloc, body, words)?;
            Ok(takes)
        }
        Pat::Choice(a, b) => {
            let first = add_words(alloc, a, words)?;
            if first.words {
                return Ok(or_nullable(first, b));
            }
            let second = add_words(alloc, b, words)?;
            Ok(or_second(first, second))
        }
        Pat::Group(a, b) => {
            let before = words.len();
            let first = add_words(alloc, a, words)?;
            let second = add_words(alloc, b, words)?;
            Ok(together(words, before, first, second))
        }
        Pat::Interleave(a, b) => {
            let before = words.len();
            let first = add_words(alloc, a, words)?;
            let second = add_words(alloc, b, words)?;
            Ok(together(words, before, first, second))
        }
    }
}

/// Adds a word behind a space.
fn push_further(text: &mut Vec<u8>, word: &Bytes) -> Result<(), NoMemory>
    ensures { OnOk result (text.new.items ≡ text.old.items ++ 32 ∷ word.now) }
{
    text.push(b' ')?;
    text.extend_from_slice(word.as_slice())?;
    Ok(())
}

/// Adds words, each behind a space.
fn push_all(text: &mut Vec<u8>, words: &[Bytes]) -> Result<(), NoMemory>
    ensures { OnOk result (text.new.items ≡ text.old.items ++ flat_map (λ word. 32 ∷ word) words.now) }
{
    for word in words {
        push_further(text, word)?;
    }
    Ok(())
}

/// Words with a space between each two.
fn joined(alloc: Global, words: &[Bytes]) -> Result<Bytes, NoMemory>
    ensures { IfOk result (λ text. text ≡ join_with_byte 32 words.now) }
{
    let Some((first, rest)) = words.split_first() else {
        return Ok(Bytes::new(alloc));
    };
    let mut text = Vec::from_slice(alloc, first.as_slice())?;
    push_all(&mut text, rest)?;
    Ok(Bytes::from_vec(text))
}

/// A string of words that the body of a list matches, or of none where it is not to be solid.
#[inline(never)]
pub(crate) fn list_string(alloc: Global, body: &Pat, solid: bool) -> Result<Option<Bytes>, NoMemory>
    requires { AreSoundTexts (pattern_of body.now) }
    ensures { IfOk result (IsStringAnswer solid (listed (pattern_of body.now))) }
{
    let mut words: Sequence<Bytes> = Sequence::new(alloc);
    let takes = add_words(alloc, body, &mut words)?;
    if takes.words {
        return Ok(Some(joined(alloc, words.as_slice())?));
    }
    if takes.nothing && !solid {
        return Ok(Some(Bytes::new(alloc)));
    }
    Ok(None)
}
