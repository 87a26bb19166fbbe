//! What lists and values of attributes take.

ghost use Rattle.std.specs.Prelude.{◌≡◌, ◌≤◌, ◌&&◌, ◌||◌, false, length, is_some, IfOk, IsTrue};
ghost use Rattle.std.specs.List.{list_all};
ghost use Rattle.std.specs.Str.{is_utf8};
ghost use Rattle.rng_types.specs.MemberTest.{has_member as has_member_of};
ghost use Rattle.rng_types.specs.WellMade.{is_well_made, is_sound_except};
ghost use Rattle.rng_types.specs.OneToken.{one_token_of};
ghost use Rattle.rng_core.specs.Meaning.{pattern_of};
ghost use Rattle.rng_kept.specs.Nullable.{nullable};
ghost use Rattle.rng_kept.specs.SolidStrings.{has_words};
ghost use Rattle.rng_live.specs.Living.{has_string, HasSoundLeaves};

use nx_base::memory::NoMemory;
use nx_base::sequence::Bytes;
use rng_core::grammar::Pat;
use rng_types::datatype::{Datatype, Excepts};
use std::alloc::Global;

/// What a pattern takes where no elements and no attributes are.
#[derive(Clone, Copy, Debug, PartialEq, Eq)]
pub(crate) struct Takes {
    /// Nothing at all.
    pub(crate) nothing: bool,
    /// Something: one string as an attribute's value, or some words as a list.
    pub(crate) something: bool,
}

impl Takes {
    /// No nothing, and something as the flag says.
    fn only(something: bool) -> Takes
        ensures nothing { result.nothing ≡ false }
        ensures something { result.something ≡ something }
    {
        Takes {
            nothing: false,
            something,
        }
    }

    /// Whether anything is taken.
    pub(crate) fn any(self) -> bool
        ensures { result ≡ (self.something || self.nothing) }
    {
        self.something || self.nothing
    }

    /// Whether the flag is set, and anything is taken.
    pub(crate) fn any_if(self, flag: bool) -> bool
        ensures { result ≡ (flag && (self.something || self.nothing)) }
    {
        flag && self.any()
    }

    /// What either takes.
    fn or(self, other: Takes) -> Takes
        ensures nothing { result.nothing ≡ (self.nothing || other.nothing) }
        ensures something { result.something ≡ (self.something || other.something) }
    {
        Takes {
            nothing: self.nothing || other.nothing,
            something: self.something || other.something,
        }
    }

    /// What both take, where each word goes to one of them.
    fn with_words(self, other: Takes) -> Takes
        ensures nothing { result.nothing ≡ (self.nothing && other.nothing) }
        ensures something { result.something
            ≡ ((self.something && (other.something || other.nothing)) || (self.nothing && other.something)) }
    {
        Takes {
            nothing: self.nothing && other.nothing,
            something: (self.something && (other.something || other.nothing))
                || (self.nothing && other.something),
        }
    }

    /// What both take, where the one string goes to one of them.
    fn with_string(self, other: Takes) -> Takes
        ensures nothing { result.nothing ≡ (self.nothing && other.nothing) }
        ensures something { result.something ≡ ((self.something && other.nothing) || (self.nothing && other.something)) }
    {
        Takes {
            nothing: self.nothing && other.nothing,
            something: (self.something && other.nothing) || (self.nothing && other.something),
        }
    }
}

/// Whether a type has a member that no except takes away, and that is one token where one is asked for.
#[inline(never)]
pub(crate) fn has_member(datatype: &Datatype, excepts: &Excepts, one_token: bool) -> bool
    requires few { length excepts.now ≤ 128 }
    requires made { IsTrue (is_well_made datatype.now) }
    requires sound { IsTrue (list_all (is_sound_except datatype.now) excepts.now) }
    ensures { result ≡ has_member_of datatype.now excepts.now one_token }
{
    match datatype.has_member(excepts.as_slice(), one_token) {
        Ok(found) => found,
        Err(_) => false,
    }
}

/// Whether some text of one token has the value.
#[inline(never)]
fn has_one_token(alloc: Global, datatype: &Datatype, text: &Bytes) -> Result<bool, NoMemory>
    requires { IsTrue (is_utf8 text.now) }
    ensures { IfOk result (λ found. found ≡ is_some (one_token_of datatype.now text.now)) }
{
    match str::from_utf8(text.as_slice()) {
        Ok(value) => {
            let token = datatype.as_one_token(alloc, value)?;
            Ok(token.is_some())
        }
        Err(_) => Ok(false),
    }
}

/// What the body of a list takes: words, each of them one token.
pub(crate) fn words(alloc: Global, body: &Pat) -> Result<Takes, NoMemory>
    requires { HasSoundLeaves (pattern_of body.now) }
    ensures nothing { IfOk result (λ takes. takes.nothing ≡ nullable (pattern_of body.now)) }
    ensures something { IfOk result (λ takes. takes.something ≡ has_words (pattern_of body.now)) }
{
    match body {
        Pat::NotAllowed => Ok(Takes::only(false)),
        Pat::Empty => Ok(Takes {
            nothing: true,
            something: false,
        }),
        Pat::Text => Ok(Takes {
            nothing: true,
            something: true,
        }),
        Pat::Typed(datatype, excepts) => Ok(Takes::only(has_member(datatype, excepts, true))),
        Pat::Value(datatype, text) => {
            let found = has_one_token(alloc, datatype, text)?;
            Ok(Takes::only(found))
        }
        Pat::List(_) => Ok(Takes::only(false)),
        Pat::Attribute(_, _) => Ok(Takes::only(false)),
        Pat::Ref(_) => Ok(Takes::only(false)),
        Pat::OneOrMore(body) => {
            let takes = words(alloc, body)?;
            Ok(takes)
        }
        Pat::Choice(a, b) => {
            let first = words(alloc, a)?;
            let second = words(alloc, b)?;
            Ok(first.or(second))
        }
        Pat::Group(a, b) => {
            let first = words(alloc, a)?;
            let second = words(alloc, b)?;
            Ok(first.with_words(second))
        }
        Pat::Interleave(a, b) => {
            let first = words(alloc, a)?;
            let second = words(alloc, b)?;
            Ok(first.with_words(second))
        }
    }
}

/// What an attribute's body takes: nothing, or one string.
pub(crate) fn strings(alloc: Global, body: &Pat) -> Result<Takes, NoMemory>
    requires { HasSoundLeaves (pattern_of body.now) }
    ensures nothing { IfOk result (λ takes. takes.nothing ≡ nullable (pattern_of body.now)) }
    ensures something { IfOk result (λ takes. takes.something ≡ has_string (pattern_of body.now)) }
{
    match body {
        Pat::NotAllowed => Ok(Takes::only(false)),
        Pat::Empty => Ok(Takes {
            nothing: true,
            something: false,
        }),
        Pat::Text => Ok(Takes {
            nothing: true,
            something: true,
        }),
        Pat::Typed(datatype, excepts) => Ok(Takes::only(has_member(datatype, excepts, false))),
        Pat::Value(_, _) => Ok(Takes::only(true)),
        Pat::List(body) => {
            let takes = words(alloc, body)?;
            Ok(Takes::only(takes.any()))
        }
        Pat::Attribute(_, _) => Ok(Takes::only(false)),
        Pat::Ref(_) => Ok(Takes::only(false)),
        Pat::OneOrMore(body) => {
            let takes = strings(alloc, body)?;
            Ok(takes)
        }
        Pat::Choice(a, b) => {
            let first = strings(alloc, a)?;
            let second = strings(alloc, b)?;
            Ok(first.or(second))
        }
        Pat::Group(a, b) => {
            let first = strings(alloc, a)?;
            let second = strings(alloc, b)?;
            Ok(first.with_string(second))
        }
        Pat::Interleave(a, b) => {
            let first = strings(alloc, a)?;
            let second = strings(alloc, b)?;
            Ok(first.with_string(second))
        }
    }
}
