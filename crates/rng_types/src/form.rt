//! The forms of whole texts.

ghost use Rattle.std.specs.Prelude.{◌≡◌, false, [], ◌∷◌, IfSome, IfNone};
ghost use Rattle.std.specs.List.{list_all};
ghost use Rattle.rng_types.specs.Spaces.{words, collapsed, normalized};
ghost use Rattle.rng_types.specs.Words.{is_word, are_words as are_words_of, whitespace_of, has_form};
ghost use Rattle.rng_types.specs.declared.kind.Word.{Word};

use crate::kind::{Form, Word};
use crate::spaces::first_word;

/// The only word of a text; none where it has no word or more than one, so that no form of a word fits it.
pub(crate) fn only_word(text: &str) -> Option<&str>
    ensures some { IfSome result (λ word. words text.now ≡ word.now ∷ []) }
    ensures none { IfNone result ((form : Word) → is_word form (collapsed text.now) ≡ false) }
{
    let Some((word, rest)) = first_word(text) else {
        return None;
    };
    match first_word(rest) {
        None => Some(word),
        Some(_) => None,
    }
}

/// Whether each word of a text has the form.
fn all_words(form: Word, text: &str) -> bool
    ensures { result ≡ list_all (is_word form) (words text.now) }
{
    let mut left = text;
    while let Some((word, rest)) = first_word(left) {
        if !form.fits(word) {
            return false;
        }
        left = rest;
    }
    true
}

/// Whether a text is one or more words of the form.
fn are_words(form: Word, text: &str) -> bool
    ensures { result ≡ are_words_of form (words text.now) }
{
    first_word(text).is_some() && all_words(form, text)
}

impl Form {
    /// Whether a text has the form, after the form's treatment of white space.
    pub(crate) fn has(self, text: &str) -> bool
        ensures { result ≡ has_form self (normalized (whitespace_of self) text.now) }
    {
        match self {
            Form::Any(_) => true,
            Form::One(word) => match only_word(text) {
                Some(only) => word.fits(only),
                None => false,
            },
            Form::Several(word) => are_words(word, text),
            Form::More(more) => more.accepts(text),
        }
    }
}
