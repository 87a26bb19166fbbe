//! Strings that leaves take, and values of attributes.

ghost use Rattle.std.specs.Prelude.{◌≡◌, ◌&&◌, IfOk, IsTrue};
ghost use Rattle.nx_base.specs.Characters.{is_of_chars, is_blank as is_blank_text};
ghost use Rattle.rng_types.specs.Answers.{is_accepted};
ghost use Rattle.rng_types.specs.declared.datatype.Datatype.{Datatype as LiteralType};
ghost use Rattle.rng_core.specs.Meaning.{pattern_of};
ghost use Rattle.rng_core.specs.Patterns.{any_text, typed, literal};
ghost use Rattle.rng_fill.specs.Strings.{AreSoundTexts, IsStringAnswer, IsBestString, IsValueAnswer};

use crate::leaf::{letters, member_of};
use crate::words::list_string;
use deriv_pattern::leaves::is_blank;
use deriv_pattern::small::nullable;
use nx_base::memory::NoMemory;
use nx_base::sequence::{Bytes, TryCopy};
use rng_core::grammar::Pat;
use rng_types::datatype::{Datatype, Except, Excepts};
use std::alloc::Global;

/// A string of text: `a` where it is to be solid, and else the empty one.
#[inline(never)]
fn text_string(alloc: Global, solid: bool) -> Result<Option<Bytes>, NoMemory>
    ensures { IfOk result (IsStringAnswer solid any_text) }
{
    if solid {
        return Ok(Some(letters(alloc, 1)?));
    }
    Ok(Some(Bytes::new(alloc)))
}

/// A member of a type that no except takes away.
#[inline(never)]
fn data_string(
    alloc: Global,
    datatype: &Datatype,
    excepts: &Excepts,
    solid: bool,
) -> Result<Option<Bytes>, NoMemory>
    requires { AreSoundTexts (typed datatype.now excepts.now) }
    ensures { IfOk result (IsStringAnswer solid (typed datatype.now excepts.now)) }
{
    if !solid {
        let found = member_of(alloc, datatype, excepts.as_slice(), false)?;
        return Ok(found);
    }
    let mut more = excepts.copy()?;
    more.insert(0, Except::BuiltinToken(Bytes::new(alloc)))?;
    let found = member_of(alloc, datatype, more.as_slice(), false)?;
    Ok(found)
}

/// Whether a text is blank that is to be solid.
fn is_unwanted(solid: bool, text: &[u8]) -> bool
    ensures { result ≡ (solid && is_blank_text text.now) }
{
    solid && is_blank(text)
}

/// Whether both hold.
fn both(one: bool, other: bool) -> bool
    ensures { result ≡ (one && other) }
{
    one && other
}

/// A literal's own text. All texts of its value are blank where it is.
#[inline(never)]
fn value_string(text: &Bytes, solid: bool) -> Result<Option<Bytes>, NoMemory>
    requires { IsTrue (is_of_chars text.now) }
    ensures { (type : LiteralType) → IsTrue (is_accepted type text.now) → IfOk result (IsStringAnswer solid (literal type text.now)) }
{
    if is_unwanted(solid, text.as_slice()) {
        return Ok(None);
    }
    Ok(Some(text.copy()?))
}

/// A string that a pattern takes alone, one that isn't blank where it is to be solid.
fn some_string(alloc: Global, pattern: &Pat, solid: bool) -> Result<Option<Bytes>, NoMemory>
    requires { AreSoundTexts (pattern_of pattern.now) }
    ensures { IfOk result (IsStringAnswer solid (pattern_of pattern.now)) }
{
    match pattern {
        Pat::NotAllowed => Ok(None),
        Pat::Empty => Ok(None),
        Pat::Text => {
            let found = text_string(alloc, solid)?;
            Ok(found)
        }
        Pat::Typed(datatype, excepts) => {
            let found = data_string(alloc, datatype, excepts, solid)?;
            Ok(found)
        }
        Pat::Value(_, text) => {
            let found = value_string(text, solid)?;
            Ok(found)
        }
        Pat::List(body) => {
            let found = list_string(alloc, body, solid)?;
            Ok(found)
        }
        Pat::Attribute(_, _) => Ok(None),
        Pat::Ref(_) => Ok(None),
        Pat::OneOrMore(body) => {
            let found = some_string(alloc, body, solid)?;
            Ok(found)
        }
        Pat::Choice(a, b) => {
            let first = some_string(alloc, a, solid)?;
            if first.is_some() {
                return Ok(first);
            }
            let second = some_string(alloc, b, solid)?;
            Ok(second)
        }
        Pat::Group(a, b) => {
            let first = some_string(alloc, a, solid)?;
            if both(first.is_some(), nullable(b)) {
                return Ok(first);
            }
            if !nullable(a) {
                return Ok(None);
            }
            let second = some_string(alloc, b, solid)?;
            Ok(second)
        }
        Pat::Interleave(a, b) => {
            let first = some_string(alloc, a, solid)?;
            if both(first.is_some(), nullable(b)) {
                return Ok(first);
            }
            if !nullable(a) {
                return Ok(None);
            }
            let second = some_string(alloc, b, solid)?;
            Ok(second)
        }
    }
}

/// A string that a pattern takes alone, blank only where each string that it takes is blank; none where there is none, or, where it is to
/// be solid, where each is blank.
pub fn string_of(alloc: Global, pattern: &Pat, solid: bool) -> Result<Option<Bytes>, NoMemory>
    requires { AreSoundTexts (pattern_of pattern.now) }
    ensures { IfOk result (IsBestString solid (pattern_of pattern.now)) }
{
    let found = some_string(alloc, pattern, true)?;
    if found.is_some() {
        return Ok(found);
    }
    if solid {
        return Ok(found);
    }
    let blank = some_string(alloc, pattern, false)?;
    Ok(blank)
}

/// A value that an attribute with this body takes: the empty one where the body may match nothing, and else a string of it; none exactly
/// where there is none.
pub fn value_of(alloc: Global, body: &Pat) -> Result<Option<Bytes>, NoMemory>
    requires { AreSoundTexts (pattern_of body.now) }
    ensures { IfOk result (IsValueAnswer (pattern_of body.now)) }
{
    if nullable(body) {
        return Ok(Some(Bytes::new(alloc)));
    }
    let found = string_of(alloc, body, false)?;
    Ok(found)
}
