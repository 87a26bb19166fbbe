//! The letters of a text: its characters after line ends and escapes.

ghost use Rattle.std.specs.Prelude.{◌≡◌, ◌∷◌, ◌<◌, ◌≤◌, length, [], MatchOption};
ghost use Rattle.std.specs.Str.{chars};
ghost use Rattle.rnc_lex.specs.Letters.{without_mark};
ghost use Rattle.rnc_lex.specs.Reading.{Finds, letters_of};

use crate::escape::{First, first_letter};
use crate::fault::LexFault;
use std::alloc::Global;

/// A character that tokens are made of.
#[derive(Clone, Copy, Debug, PartialEq, Eq)]
pub(crate) struct Letter {
    /// The byte offset of the text at which what stands for it begins.
    pub(crate) at: usize,
    pub(crate) character: char,
    /// Whether it is written, or comes from an escape.
    pub(crate) written: bool,
}

/// The byte order mark.
const MARK: char = '\u{FEFF}';

/// The letters of a text. They take sixteen bytes for each of the text.
#[tactic(auto, unfolding(crate::specs::Reading::letters_of))]
pub(crate) fn letters(alloc: Global, text: &str) -> Result<Vec<Letter>, LexFault>
    ensures { Finds (λ letters. letters.items) result (letters_of text.now) }
{
    let mut letters = Vec::with_capacity(alloc, text.len())?;
    let mut rest = without_mark(text);
    while let Some((first, behind)) = split_first(rest) {
        let at = text.len() - rest.len();
        match first_letter(first, behind.as_bytes()) {
            First::Letter(character, written, more) => {
                letters.push(Letter {
                    at,
                    character,
                    written,
                })?;
                rest = &behind[more..];
            }
            First::BrokenEscape => return Err(LexFault::BadEscape(at)),
            First::NoChar => return Err(LexFault::BadCharacter(at)),
        }
    }
    Ok(letters)
}

/// A text without a byte order mark at its start.
fn without_mark(text: &str) -> &str
    ensures value { chars result.now ≡ without_mark (chars text.now) }
    ensures within { length result.now ≤ length text.now }
{
    match split_first(text) {
        Some((first, behind)) => { if first == MARK { behind } else { text } }
        None => text,
    }
}

/// The first character of a text, and the text behind it.
fn split_first(text: &str) -> Option<(char, &str)>
    ensures split { MatchOption result (chars text.now ≡ []) (λ x. chars text.now ≡ x.0 ∷ chars x.1.now) }
    ensures shorter { MatchOption result (text.now ≡ []) (λ x. length x.1.now < length text.now) }
{
    let mut characters = text.chars();
    let first = characters.next()?;
    Some((first, characters.as_str()))
}
