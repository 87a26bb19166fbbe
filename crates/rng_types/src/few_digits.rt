//! How long the literals of a schema may be.

ghost use Rattle.std.specs.Prelude.{◌≡◌, IsTrue};
ghost use Rattle.rng_types.specs.Spaces.{collapsed};
ghost use Rattle.rng_types.specs.Numbers.{has_few_digits as has_few};
ghost use Rattle.rng_types.specs.Words.{is_word};
ghost use Rattle.rng_types.specs.Types.{has_few_digits as has_few_of_form};
ghost use Rattle.rng_types.specs.declared.kind.Form.TheVariants.{One};

use crate::form::only_word;
use crate::kind::Word;
use crate::number::has_few_digits;

/// Whether the only word of a text, which has the form, has few digits.
fn is_short_number(form: Word, text: &str) -> bool
    requires { IsTrue (is_word form (collapsed text.now)) }
    ensures { result ≡ has_few (collapsed text.now) }
{
    match only_word(text) {
        Some(word) => has_few_digits(word.as_bytes()),
        None => false,
    }
}

impl Word {
    /// Whether a literal of the form has few digits, if it is a number.
    pub(crate) fn has_few_digits(self, literal: &str) -> bool
        requires { IsTrue (is_word self (collapsed literal.now)) }
        ensures { result ≡ has_few_of_form (One self) (collapsed literal.now) }
    {
        match self {
            Word::Decimal => is_short_number(self, literal),
            Word::Integer => is_short_number(self, literal),
            Word::Name => true,
            Word::NcName => true,
            Word::NmToken => true,
            Word::Language => true,
            Word::Boolean => true,
        }
    }
}
