//! Names, classes, patterns and definitions that tests build by hand.
//!
//! Each call takes parts that may be wanting, and hands their want on, so that a test's schema is one expression.

use nx_base::memory::NoMemory;
use nx_base::name::Name;
use nx_base::sequence::{Bytes, TryCopy};
use rng_core::building::{
    attribute_of, choice_of, group_of, interleave_of, list_of, one_or_more_of,
};
use rng_core::grammar::{Def, Defs, Pat};
use rng_core::name_class::NameClass;
use rng_types::datatype::{Datatype, Excepts};
use std::alloc::Global;

pub(crate) const XSD: &str = "http://www.w3.org/2001/XMLSchema-datatypes";

pub(crate) fn bytes(alloc: Global, text: &str) -> Result<Bytes, NoMemory> {
    Ok(Bytes::from_vec(Vec::from_slice(alloc, text.as_bytes())?))
}

pub(crate) fn name_of(alloc: Global, ns: &str, local: &str) -> Result<Name, NoMemory> {
    match (bytes(alloc, ns), bytes(alloc, local)) {
        (Ok(ns), Ok(local)) => Ok(Name { ns, local }),
        _ => Err(NoMemory),
    }
}

/// The class of one name.
pub(crate) fn one(alloc: Global, ns: &str, local: &str) -> Result<NameClass, NoMemory> {
    Ok(NameClass::Name(name_of(alloc, ns, local)?))
}

/// The class of one name that ends in a number.
pub(crate) fn numbered(
    alloc: Global,
    ns: &str,
    prefix: &str,
    number: u32,
) -> Result<NameClass, NoMemory> {
    match format!(in alloc; "{prefix}{number}") {
        Ok(local) => one(alloc, ns, local.as_str()),
        Err(_) => Err(NoMemory),
    }
}

/// The class of all names in a namespace.
pub(crate) fn all_in(alloc: Global, ns: &str) -> Result<NameClass, NoMemory> {
    Ok(NameClass::NsName(bytes(alloc, ns)?))
}

fn boxed(alloc: Global, class: Result<NameClass, NoMemory>) -> Result<Box<NameClass>, NoMemory> {
    Ok(Box::new(alloc, class?)?)
}

/// What is in the one class and not in the other.
pub(crate) fn without(
    alloc: Global,
    class: Result<NameClass, NoMemory>,
    taken: Result<NameClass, NoMemory>,
) -> Result<NameClass, NoMemory> {
    match (boxed(alloc, class), boxed(alloc, taken)) {
        (Ok(class), Ok(taken)) => Ok(NameClass::Except(class, taken)),
        _ => Err(NoMemory),
    }
}

/// What is in either class.
pub(crate) fn either(
    alloc: Global,
    first: Result<NameClass, NoMemory>,
    second: Result<NameClass, NoMemory>,
) -> Result<NameClass, NoMemory> {
    match (boxed(alloc, first), boxed(alloc, second)) {
        (Ok(first), Ok(second)) => Ok(NameClass::Choice(first, second)),
        _ => Err(NoMemory),
    }
}

/// list { body }
pub(crate) fn list(alloc: Global, body: Result<Pat, NoMemory>) -> Result<Pat, NoMemory> {
    list_of(alloc, body?)
}

/// body+
pub(crate) fn one_or_more(alloc: Global, body: Result<Pat, NoMemory>) -> Result<Pat, NoMemory> {
    one_or_more_of(alloc, body?)
}

/// attribute CLASS { value }
pub(crate) fn attribute(
    alloc: Global,
    class: Result<NameClass, NoMemory>,
    value: Result<Pat, NoMemory>,
) -> Result<Pat, NoMemory> {
    match (class, value) {
        (Ok(class), Ok(value)) => attribute_of(alloc, class, value),
        _ => Err(NoMemory),
    }
}

/// first | second
pub(crate) fn choice(
    alloc: Global,
    first: Result<Pat, NoMemory>,
    second: Result<Pat, NoMemory>,
) -> Result<Pat, NoMemory> {
    match (first, second) {
        (Ok(first), Ok(second)) => choice_of(alloc, first, second),
        _ => Err(NoMemory),
    }
}

/// first, second
pub(crate) fn group(
    alloc: Global,
    first: Result<Pat, NoMemory>,
    second: Result<Pat, NoMemory>,
) -> Result<Pat, NoMemory> {
    match (first, second) {
        (Ok(first), Ok(second)) => group_of(alloc, first, second),
        _ => Err(NoMemory),
    }
}

/// first & second
pub(crate) fn interleave(
    alloc: Global,
    first: Result<Pat, NoMemory>,
    second: Result<Pat, NoMemory>,
) -> Result<Pat, NoMemory> {
    match (first, second) {
        (Ok(first), Ok(second)) => interleave_of(alloc, first, second),
        _ => Err(NoMemory),
    }
}

/// What is of the type.
pub(crate) fn typed(alloc: Global, datatype: &Datatype) -> Result<Pat, NoMemory> {
    Ok(Pat::Typed(datatype.copy()?, Excepts::new(alloc)))
}

/// element CLASS { content }
pub(crate) fn element(
    class: Result<NameClass, NoMemory>,
    content: Result<Pat, NoMemory>,
) -> Result<Def, NoMemory> {
    match (class, content) {
        (Ok(class), Ok(content)) => Ok(Def { class, content }),
        _ => Err(NoMemory),
    }
}

/// element NAME { content }, of a name in no namespace
pub(crate) fn named_element(
    alloc: Global,
    local: &str,
    content: Result<Pat, NoMemory>,
) -> Result<Def, NoMemory> {
    element(one(alloc, "", local), content)
}

fn pushed(mut defs: Defs, def: Def) -> Result<Defs, NoMemory> {
    defs.push(def)?;
    Ok(defs)
}

/// The definitions, and one more behind them.
pub(crate) fn with(
    defs: Result<Defs, NoMemory>,
    def: Result<Def, NoMemory>,
) -> Result<Defs, NoMemory> {
    match (defs, def) {
        (Ok(defs), Ok(def)) => pushed(defs, def),
        _ => Err(NoMemory),
    }
}

/// One definition.
pub(crate) fn only(alloc: Global, def: Result<Def, NoMemory>) -> Result<Defs, NoMemory> {
    with(Ok(Defs::new(alloc)), def)
}
