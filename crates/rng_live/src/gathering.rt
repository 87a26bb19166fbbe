//! Names that the classes of definitions mention, and literals that stand in their contents.

ghost use Rattle.std.specs.Prelude.{◌≡◌, ◌++◌, ◌∷◌, [], IfOk, OnOk};
ghost use Rattle.std.specs.List.{fold};
ghost use Rattle.rng_core.specs.Meaning.{class_of, pattern_of, definition_of};
ghost use Rattle.rng_live.specs.Order.{text_order, name_order, SortsOnce};
ghost use Rattle.rng_live.specs.Gathered.{bare, with_namespace, with_name, with_class, with_attributes, with_definition, with_literals};

use crate::sorting::{sort_names, sort_texts};
use nx_base::memory::NoMemory;
use nx_base::name::{Name, Names};
use nx_base::sequence::{Bytes, Sequence, TryCopy};
use rng_core::grammar::{Def, Pat};
use rng_core::name_class::NameClass;
use std::alloc::Global;

/// A list of texts.
pub type Values = Sequence<Bytes>;

/// What is asked of the classes.
#[derive(Clone, Copy, Debug, PartialEq, Eq)]
pub(crate) enum Asked {
    /// The names that they mention.
    Names,
    /// The namespaces that they mention, by themselves or with a name.
    Namespaces,
}

/// A namespace as a name with an empty local part.
fn bare_namespace(alloc: Global, ns: &Bytes) -> Result<Name, NoMemory>
    ensures { IfOk result (λ name. name ≡ bare ns.now) }
{
    Ok(Name {
        ns: ns.copy()?,
        local: Bytes::new(alloc),
    })
}

/// Adds what a class of a whole namespace mentions.
fn add_namespace(
    alloc: Global,
    asked: Asked,
    ns: &Bytes,
    found: &mut Vec<Name>,
) -> Result<(), NoMemory>
    ensures { OnOk result (found.new.items ≡ with_namespace asked ns.now found.old.items) }
{
    match asked {
        Asked::Names => Ok(()),
        Asked::Namespaces => {
            let name = bare_namespace(alloc, ns)?;
            found.push(name)?;
            Ok(())
        }
    }
}

/// Adds what a class of one name mentions.
fn add_name(alloc: Global, asked: Asked, name: &Name, found: &mut Vec<Name>) -> Result<(), NoMemory>
    ensures { OnOk result (found.new.items ≡ with_name asked name.now found.old.items) }
{
    match asked {
        Asked::Names => {
            let name = name.copy()?;
            found.push(name)?;
            Ok(())
        }
        Asked::Namespaces => {
            let name = bare_namespace(alloc, &name.ns)?;
            found.push(name)?;
            Ok(())
        }
    }
}

/// Adds what a class mentions. A choice of very many names nests to the left, where the walk is a loop.
#[inline(never)]
fn add_class(
    alloc: Global,
    asked: Asked,
    class: &NameClass,
    found: &mut Vec<Name>,
) -> Result<(), NoMemory>
    ensures { OnOk result (found.new.items ≡ with_class asked (class_of class.now) found.old.items) }
{
    let mut class = class;
    loop {
        match class {
            NameClass::AnyName => return Ok(()),
            NameClass::NsName(ns) => return add_namespace(alloc, asked, ns, found),
            NameClass::Name(name) => return add_name(alloc, asked, name, found),
            NameClass::Choice(front, last) => {
                add_class(alloc, asked, last, found)?;
                class = front;
            }
            NameClass::Except(all, taken) => {
                add_class(alloc, asked, taken, found)?;
                class = all;
            }
        }
    }
}

/// Adds what the classes of attributes in a content mention. Second sides are walked in a loop.
fn add_attributes(
    alloc: Global,
    asked: Asked,
    content: &Pat,
    found: &mut Vec<Name>,
) -> Result<(), NoMemory>
    ensures { OnOk result (found.new.items ≡ with_attributes asked (pattern_of content.now) found.old.items) }
{
    let mut content = content;
    loop {
        match content {
            Pat::NotAllowed => return Ok(()),
            Pat::Empty => return Ok(()),
            Pat::Text => return Ok(()),
            Pat::Typed(_, _) => return Ok(()),
            Pat::Value(_, _) => return Ok(()),
            Pat::Ref(_) => return Ok(()),
            Pat::List(_) => return Ok(()),
            Pat::Attribute(class, _) => return add_class(alloc, asked, class, found),
            Pat::OneOrMore(body) => content = body,
            Pat::Choice(first, second) => {
                add_attributes(alloc, asked, first, found)?;
                content = second;
            }
            Pat::Group(first, second) => {
                add_attributes(alloc, asked, first, found)?;
                content = second;
            }
            Pat::Interleave(first, second) => {
                add_attributes(alloc, asked, first, found)?;
                content = second;
            }
        }
    }
}

/// Adds what the class of a definition mentions, and those of attributes in its content.
fn add_definition(
    alloc: Global,
    asked: Asked,
    def: &Def,
    found: &mut Vec<Name>,
) -> Result<(), NoMemory>
    ensures { OnOk result (found.new.items ≡ with_definition asked (definition_of def.now) found.old.items) }
{
    add_class(alloc, asked, &def.class, found)?;
    add_attributes(alloc, asked, &def.content, found)
}

/// What the classes of the definitions mention, in order and each once.
pub(crate) fn mentions_of(alloc: Global, asked: Asked, defs: &[Def]) -> Result<Names, NoMemory>
    ensures { IfOk result (SortsOnce name_order (fold (λ found def. with_definition asked (definition_of def) found) [] defs.now)) }
{
    let mut found = Vec::new(alloc);
    for def in defs {
        add_definition(alloc, asked, def, &mut found)?;
    }
    sort_names(&mut found);
    Ok(Names::from_vec(found))
}

/// Adds a literal.
#[inline(never)]
fn add_literal(text: &Bytes, found: &mut Vec<Bytes>) -> Result<(), NoMemory>
    ensures { OnOk result (found.new.items ≡ found.old.items ++ text.now ∷ []) }
{
    let text = text.copy()?;
    found.push(text)?;
    Ok(())
}

/// Adds the literals that stand in a content. Second sides are walked in a loop.
fn add_literals(content: &Pat, found: &mut Vec<Bytes>) -> Result<(), NoMemory>
    ensures { OnOk result (found.new.items ≡ with_literals (pattern_of content.now) found.old.items) }
{
    let mut content = content;
    loop {
        match content {
            Pat::NotAllowed => return Ok(()),
            Pat::Empty => return Ok(()),
            Pat::Text => return Ok(()),
            Pat::Typed(_, _) => return Ok(()),
            Pat::Value(_, text) => return add_literal(text, found),
            Pat::Ref(_) => return Ok(()),
            Pat::List(body) => content = body,
            Pat::Attribute(_, body) => content = body,
            Pat::OneOrMore(body) => content = body,
            Pat::Choice(first, second) => {
                add_literals(first, found)?;
                content = second;
            }
            Pat::Group(first, second) => {
                add_literals(first, found)?;
                content = second;
            }
            Pat::Interleave(first, second) => {
                add_literals(first, found)?;
                content = second;
            }
        }
    }
}

/// The literals that stand in the contents of the definitions, in order and each once.
pub(crate) fn literals_of(alloc: Global, defs: &[Def]) -> Result<Values, NoMemory>
    ensures { IfOk result (SortsOnce text_order (fold (λ found def. with_literals (definition_of def).content found) [] defs.now)) }
{
    let mut found = Vec::new(alloc);
    for def in defs {
        add_literals(&def.content, &mut found)?;
    }
    sort_texts(&mut found);
    Ok(Values::from_vec(found))
}
