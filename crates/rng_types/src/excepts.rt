//! What excepts take away.

ghost use Rattle.std.specs.Prelude.{◌≡◌, IsTrue};
ghost use Rattle.std.specs.List.{list_all};
ghost use Rattle.std.specs.Str.{is_utf8};
ghost use Rattle.rng_types.specs.Types.{Accepts};
ghost use Rattle.rng_types.specs.Answers.{is_taken_away};
ghost use Rattle.rng_types.specs.Answers.{is_left as is_left_beside};
ghost use Rattle.rng_types.specs.TextMembers.{takes_spaced as takes_spaced_text, is_left_spaced as is_left_spaced_beside};
ghost use Rattle.rng_types.specs.WellMade.{is_sound_except};

use crate::datatype::{Datatype, Except};
use crate::sameness::same_collapsed;

/// The bytes of a text as a text.
pub(crate) fn text_of(bytes: &[u8]) -> &str
    requires { IsTrue (is_utf8 bytes.now) }
    ensures { result.now ≡ bytes.now }
{
    let Ok(text) = str::from_utf8(bytes) else {
        unreachable!();
    };
    text
}

impl Datatype {
    /// Whether an except takes a text of the type away.
    pub fn takes_away(&self, text: &str, except: &Except) -> bool
        requires accepted { Accepts self.now text.now }
        requires sound { IsTrue (is_sound_except self.now except.now) }
        ensures { result ≡ is_taken_away self.now text.now except.now }
    {
        match except {
            Except::Own(literal) => self.same(text, text_of(literal.as_slice())),
            Except::BuiltinString(literal) => text.as_bytes() == literal.as_slice(),
            Except::BuiltinToken(literal) => same_collapsed(text.as_bytes(), literal.as_slice()),
        }
    }

    /// Whether an except takes away each text that collapses to the same as this one.
    pub(crate) fn takes_spaced(&self, text: &str, except: &Except) -> bool
        requires accepted { Accepts self.now text.now }
        requires sound { IsTrue (is_sound_except self.now except.now) }
        ensures { result ≡ takes_spaced_text self.now text.now except.now }
    {
        match except {
            Except::Own(literal) => self.same(text, text_of(literal.as_slice())),
            Except::BuiltinString(_) => false,
            Except::BuiltinToken(literal) => same_collapsed(text.as_bytes(), literal.as_slice()),
        }
    }

    /// Whether no except takes a text of the type away.
    pub fn is_left(&self, excepts: &[Except], text: &str) -> bool
        requires accepted { Accepts self.now text.now }
        requires sound { IsTrue (list_all (is_sound_except self.now) excepts.now) }
        ensures { result ≡ is_left_beside self.now excepts.now text.now }
    {
        for except in excepts {
            if self.takes_away(text, except) {
                return false;
            }
        }
        true
    }

    /// Whether no except takes away each text that collapses to the same as this one.
    pub(crate) fn is_left_spaced(&self, excepts: &[Except], text: &str) -> bool
        requires accepted { Accepts self.now text.now }
        requires sound { IsTrue (list_all (is_sound_except self.now) excepts.now) }
        ensures { result ≡ is_left_spaced_beside self.now excepts.now text.now }
    {
        for except in excepts {
            if self.takes_spaced(text, except) {
                return false;
            }
        }
        true
    }
}
