//! Which strings the leaves of a pattern take.

ghost use Rattle.std.specs.Prelude.{◌≡◌, ◌≤◌, ◌&&◌, ◌||◌, Bool, length, is_some, IfOk, IsTrue};
ghost use Rattle.std.specs.List.{list_all};
ghost use Rattle.std.specs.Str.{is_utf8};
ghost use Rattle.nx_base.specs.Characters.{is_blank as is_blank_text};
ghost use Rattle.rng_types.specs.Types.{Accepts};
ghost use Rattle.rng_types.specs.MemberTest.{has_member as has_member_of, most_excepts};
ghost use Rattle.rng_types.specs.OneToken.{one_token_of};
ghost use Rattle.rng_types.specs.WellMade.{is_well_made, is_sound_except};
ghost use Rattle.rng_core.specs.Meaning.{pattern_of};
ghost use Rattle.rng_core.specs.Patterns.{typed, literal};
ghost use Rattle.rng_kept.specs.Nullable.{nullable as is_nullable};
ghost use Rattle.rng_kept.specs.Strings as strings;
ghost use Rattle.rng_kept.specs.SolidStrings as solid;
ghost use Rattle.deriv_pattern.specs.Choosing.{tests_of};
ghost use Rattle.deriv_pattern.specs.Leaves.{IsInOrder};

use crate::small::nullable;
use nx_base::character::is_space;
use nx_base::memory::NoMemory;
use nx_base::sequence::{Bytes, TryCopy};
use rng_core::grammar::Pat;
use rng_types::datatype::{Datatype, Except, Excepts};
use std::alloc::Global;

/// Whether there is nothing but white space, or nothing at all.
pub fn is_blank(text: &[u8]) -> bool
    ensures { result ≡ is_blank_text text.now }
{
    text.iter().all(|byte| is_space(char::from(*byte)))
}

/// The bytes of a text as a text.
fn text_of(bytes: &[u8]) -> &str
    requires { IsTrue (is_utf8 bytes.now) }
    ensures { result.now ≡ bytes.now }
{
    let Ok(text) = str::from_utf8(bytes) else {
        unreachable!();
    };
    text
}

/// Whether a text is of a type, and no except takes it away.
pub fn is_data(datatype: &Datatype, excepts: &Excepts, text: &str) -> bool
    requires { IsTrue (list_all (is_sound_except datatype.now) excepts.now) }
    ensures { result ≡ strings.is_data datatype.now excepts.now text.now }
{
    if !datatype.accepts(text) {
        return false;
    }
    datatype.is_left(excepts.as_slice(), text)
}

/// Whether a text is of a type and has the value of a literal.
pub fn is_value(datatype: &Datatype, wanted: &Bytes, text: &str) -> bool
    requires text { IsTrue (is_utf8 wanted.now) }
    requires accepted { Accepts datatype.now wanted.now }
    ensures { result ≡ strings.is_value datatype.now wanted.now text.now }
{
    if !datatype.accepts(text) {
        return false;
    }
    datatype.same(text, text_of(wanted.as_slice()))
}

/// Whether a type has a member that no except takes away, and that is one token where one is asked for.
pub fn has_member(datatype: &Datatype, excepts: &Excepts, one_token: bool) -> bool
    requires few { length excepts.now ≤ most_excepts }
    requires made { IsTrue (is_well_made datatype.now) }
    requires sound { IsTrue (list_all (is_sound_except datatype.now) excepts.now) }
    ensures { result ≡ has_member_of datatype.now excepts.now one_token }
{
    match datatype.has_member(excepts.as_slice(), one_token) {
        Ok(found) => found,
        Err(_) => unreachable!(),
    }
}

/// Whether a type has such a member that doesn't collapse to nothing.
pub fn has_solid(alloc: Global, datatype: &Datatype, excepts: &Excepts) -> Result<bool, NoMemory>
    requires few { length excepts.now ≤ 128 }
    requires made { IsTrue (is_well_made datatype.now) }
    requires sound { IsTrue (list_all (is_sound_except datatype.now) excepts.now) }
    ensures { IfOk result (λ found. found ≡ solid.solid_tests.of_data datatype.now excepts.now) }
{
    let mut excepts = excepts.copy()?;
    excepts.insert(0, Except::BuiltinToken(Bytes::new(alloc)))?;
    Ok(has_member(datatype, &excepts, false))
}

/// Whether a text of the type that isn't blank has the value of a literal.
pub(crate) fn is_solid(datatype: &Datatype, wanted: &Bytes) -> bool
    requires text { IsTrue (is_utf8 wanted.now) }
    requires accepted { Accepts datatype.now wanted.now }
    ensures { result ≡ solid.solid_tests.of_value datatype.now wanted.now }
{
    !is_blank(wanted.as_slice())
}

/// Whether a type and its excepts take the text, or some text that isn't blank.
pub fn takes_data(
    alloc: Global,
    solid: bool,
    text: &str,
    datatype: &Datatype,
    excepts: &Excepts,
) -> Result<bool, NoMemory>
    requires { IsInOrder (typed datatype.now excepts.now) }
    ensures { IfOk result (λ found. found ≡ (tests_of solid text.now).of_data datatype.now excepts.now) }
{
    if solid {
        has_solid(alloc, datatype, excepts)
    } else {
        Ok(is_data(datatype, excepts, text))
    }
}

/// Whether the text has a literal's value, or some text that isn't blank has it.
pub fn takes_value(solid: bool, text: &str, datatype: &Datatype, wanted: &Bytes) -> bool
    requires { IsInOrder (literal datatype.now wanted.now) }
    ensures { result ≡ (tests_of solid text.now).of_value datatype.now wanted.now }
{
    if solid {
        is_solid(datatype, wanted)
    } else {
        is_value(datatype, wanted, text)
    }
}

/// Whether some text of one token has the value.
pub fn has_one_token(alloc: Global, datatype: &Datatype, wanted: &Bytes) -> Result<bool, NoMemory>
    requires { IsTrue (is_utf8 wanted.now) }
    ensures { IfOk result (λ found. found ≡ is_some (one_token_of datatype.now wanted.now)) }
{
    let token = datatype.as_one_token(alloc, text_of(wanted.as_slice()))?;
    Ok(token.is_some())
}

/// Whether one side of a choice matches some words.
fn one_has_words(
    first: Result<bool, NoMemory>,
    second: Result<bool, NoMemory>,
) -> Result<bool, NoMemory>
    ensures { (x y : Bool) → IfOk first (λ it. it ≡ x) → IfOk second (λ it. it ≡ y)
        → IfOk result (λ found. found ≡ (x || y)) }
{
    let first = first?;
    let second = second?;
    Ok(first || second)
}

/// Whether two parts together match some words, where it is known whether either does: one does, and the other does or needs none.
fn both_have_words(
    first: Result<bool, NoMemory>,
    a: &Pat,
    b: &Pat,
    second: Result<bool, NoMemory>,
) -> Result<bool, NoMemory>
    ensures { (x y : Bool) → IfOk first (λ it. it ≡ x) → IfOk second (λ it. it ≡ y) → IfOk result (λ found. found ≡
        ((x && (y || is_nullable (pattern_of b.now))) || (is_nullable (pattern_of a.now) && y))) }
{
    let first = first?;
    let second = second?;
    Ok((first && (second || nullable(b))) || (nullable(a) && second))
}

/// Whether the body of a list matches some words, one at least.
pub(crate) fn has_words(alloc: Global, p: &Pat) -> Result<bool, NoMemory>
    requires { IsInOrder (pattern_of p.now) }
    ensures { IfOk result (λ found. found ≡ solid.has_words (pattern_of p.now)) }
{
    match p {
        Pat::NotAllowed | Pat::Empty | Pat::List(_) | Pat::Attribute(_, _) | Pat::Ref(_) => Ok(
            false,
        ),
        Pat::Text => Ok(true),
        Pat::Typed(datatype, excepts) => Ok(has_member(datatype, excepts, true)),
        Pat::Value(datatype, wanted) => has_one_token(alloc, datatype, wanted),
        Pat::OneOrMore(body) => has_words(alloc, body),
        Pat::Choice(a, b) => {
            let first = has_words(alloc, a);
            one_has_words(first, has_words(alloc, b))
        }
        Pat::Group(a, b) => {
            let first = has_words(alloc, a);
            both_have_words(first, a, b, has_words(alloc, b))
        }
        Pat::Interleave(a, b) => {
            let first = has_words(alloc, a);
            both_have_words(first, a, b, has_words(alloc, b))
        }
    }
}
