//! Types and excepts as rows of a table write them.

ghost use Rattle.std.specs.Prelude.{◌≡◌, ◌&&◌, IfOk, IsTrue};
ghost use Rattle.std.specs.List.{list_all};
ghost use Rattle.std.specs.Str.{is_utf8};
ghost use Rattle.rng_types.specs.Answers.{is_accepted};
ghost use Rattle.rng_types.specs.WellMade.{is_sound_except, is_well_made};

use nx_base::memory::NoMemory;
use nx_base::sequence::Bytes;
use rng_types::datatype::{Datatype, Except, Param};
use rng_types::fault::TypeFault;
use std::alloc::Global;

pub(crate) const XSD: &str = "http://www.w3.org/2001/XMLSchema-datatypes";

pub(crate) fn bytes(alloc: Global, text: &str) -> Result<Bytes, NoMemory> {
    Ok(Bytes::from_vec(Vec::from_slice(alloc, text.as_bytes())?))
}

// Whether bytes are a text of the type.
fn is_literal(datatype: &Datatype, literal: &[u8]) -> bool
    ensures { result ≡ (is_utf8 literal.now && is_accepted datatype.now literal.now) }
{
    match str::from_utf8(literal) {
        Ok(text) => datatype.accepts(text),
        Err(_) => false,
    }
}

// Whether an except of the type's own values is of the type.
fn is_sound(datatype: &Datatype, except: &Except) -> bool
    ensures { result ≡ is_sound_except datatype.now except.now }
{
    match except {
        Except::Own(literal) => is_literal(datatype, literal.as_slice()),
        Except::BuiltinString(_) => true,
        Except::BuiltinToken(_) => true,
    }
}

pub(crate) fn are_sound(datatype: &Datatype, excepts: &[Except]) -> bool
    ensures { result ≡ list_all (is_sound_except datatype.now) excepts.now }
{
    excepts.iter().all(|except| is_sound(datatype, except))
}

// A number in digits.
fn digits(alloc: Global, number: u8) -> Result<Bytes, NoMemory> {
    match format!(in alloc; "{number}") {
        Ok(literal) => bytes(alloc, literal.as_str()),
        Err(_) => Err(NoMemory),
    }
}

// An except of each number from the first to the last.
fn push_owns(alloc: Global, excepts: &mut Vec<Except>, range: &str) -> Result<(), NoMemory> {
    let (first, last) = range.split_once(" ").unwrap_or((range, range));
    let (Ok(first), Ok(last)) = (first.parse::<u8>(), last.parse::<u8>()) else {
        return Err(NoMemory);
    };
    for number in first..=last {
        excepts.push(Except::Own(digits(alloc, number)?))?;
    }
    Ok(())
}

fn push_item(
    alloc: Global,
    params: &mut Vec<Param>,
    excepts: &mut Vec<Except>,
    item: &str,
) -> Result<(), NoMemory> {
    let (name, value) = item.split_once("=").unwrap_or((item, ""));
    if name == "owns" {
        push_owns(alloc, excepts, value)?;
        return Ok(());
    }
    let text = bytes(alloc, value)?;
    match name {
        "own" => excepts.push(Except::Own(text))?,
        "string" => excepts.push(Except::BuiltinString(text))?,
        "token" => excepts.push(Except::BuiltinToken(text))?,
        _ => params.push(Param {
            name: bytes(alloc, name)?,
            value: text,
        })?,
    }
    Ok(())
}

fn push_items(
    alloc: Global,
    params: &mut Vec<Param>,
    excepts: &mut Vec<Except>,
    items: &str,
) -> Result<(), NoMemory> {
    for item in items.split("|") {
        if !item.is_empty() {
            push_item(alloc, params, excepts, item)?;
        }
    }
    Ok(())
}

/// A type, and excepts beside it.
#[derive(Drop)]
pub(crate) struct Case {
    pub(crate) datatype: Datatype,
    pub(crate) excepts: Vec<Except>,
}

// A type with its params and excepts, each of these with its name before `=`: `name|param=value|own=text`.
pub(crate) fn described(alloc: Global, row: &str) -> Result<Case, TypeFault>
    ensures { IfOk result (λ case. IsTrue (is_well_made case.datatype)) }
{
    let (name, items) = row.split_once("|").unwrap_or((row, ""));
    let mut params = Vec::new(alloc);
    let mut excepts = Vec::new(alloc);
    push_items(alloc, &mut params, &mut excepts, items)?;
    let datatype = Datatype::named(alloc, XSD, name, params.as_slice())?;
    Ok(Case { datatype, excepts })
}
