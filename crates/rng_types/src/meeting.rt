//! Which texts meet a facet.

ghost use Rattle.std.specs.Prelude.{◌≡◌, IsTrue};
ghost use Rattle.std.specs.List.{list_all};
ghost use Rattle.rng_types.specs.Spaces.{collapsed, normalized};
ghost use Rattle.rng_types.specs.Words.{whitespace_of, has_form};
ghost use Rattle.rng_types.specs.Facets.{is_related as is_related_to, meets};

use crate::facet::{Facet, Relation};
use crate::form::only_word;
use crate::kind::Form;
use crate::number::{compare, is_decimal};

/// Whether a number is in the relation to another, by their literals.
fn is_related(relation: Relation, text: &[u8], limit: &[u8]) -> bool
    ensures { result ≡ is_related_to relation text.now limit.now }
{
    is_decimal(text) && is_decimal(limit) && relation.holds(compare(text, limit))
}

/// Whether a text's only word is a number in the relation to another.
fn is_word_related(relation: Relation, text: &str, limit: &[u8]) -> bool
    ensures { result ≡ is_related_to relation (collapsed text.now) limit.now }
{
    match only_word(text) {
        Some(word) => is_related(relation, word.as_bytes(), limit),
        None => false,
    }
}

impl Facet {
    /// Whether a text of the form meets the facet.
    fn is_met(&self, form: Form, text: &str) -> bool
        requires { IsTrue (has_form form (normalized (whitespace_of form) text.now)) }
        ensures { result ≡ meets form (normalized (whitespace_of form) text.now) self.now }
    {
        match self {
            Facet::Length(relation, limit) => relation.holds(form.compare_length(text, *limit)),
            Facet::Bound(relation, limit) => match form {
                Form::One(_) => is_word_related(*relation, text, limit.as_slice()),
                Form::Any(_) => false,
                Form::Several(_) => false,
                Form::More(_) => false,
            },
        }
    }
}

/// Whether a text of the form meets all facets.
pub(crate) fn all_are_met(facets: &[Facet], form: Form, text: &str) -> bool
    requires { IsTrue (has_form form (normalized (whitespace_of form) text.now)) }
    ensures { result ≡ list_all (meets form (normalized (whitespace_of form) text.now)) facets.now }
{
    for facet in facets {
        if !facet.is_met(form, text) {
            return false;
        }
    }
    true
}
