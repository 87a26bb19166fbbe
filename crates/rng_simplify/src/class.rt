//! Name classes as a file gives them, and those that no schema may have (ISO/IEC 19757-2, sections 7.9 and 7.17).

ghost use Rattle.std.specs.Prelude.{◌≡◌, ◌<◌, ◌||◌, length, IfOk};
ghost use Rattle.rng_core.specs.Names.{either, without};
ghost use Rattle.rng_core.specs.Meaning.{class_of};
ghost use Rattle.rnc_parse.specs.Views.{class_of as written_class_of};
ghost use Rattle.rng_simplify.specs.Refusals.{cells_of, OkOrRefused};
ghost use Rattle.rng_simplify.specs.Cells.{cell_of};
ghost use Rattle.rng_simplify.specs.GoodClasses.{JudgesCell, IsGoodAt, AreGood};
ghost use Rattle.rng_simplify.specs.ResolvedNodes.{IsResolved};
ghost use Rattle.rng_simplify.specs.Classes.{namespace_in as namespace_in_file, class_in as class_in_file};
ghost use Rattle.rng_simplify.specs.Classes.{has_any_name as has_any_name_in, has_ns_name as has_ns_name_in};
ghost use Rattle.rng_simplify.specs.Classes.{may_not_lose as may_not_lose_from, has_bad_except as has_bad_except_in};
ghost use Rattle.rng_simplify.specs.Classes.{names_namespace as names_namespace_in, names_xmlns as names_xmlns_in};
ghost use Rattle.rng_simplify.specs.JudgedClasses.{written_classes, choice_and, JudgesElementClass, JudgesAttributeClass};

use crate::compose::Whole;
use crate::fault::SchemaFault;
use crate::node::{Node, NodeNumber};
use crate::resolve::{Resolved, Scope};
use nx_base::cause::Cause;
use nx_base::memory::NoMemory;
use nx_base::name::{Name, XMLNS_NAMESPACE};
use nx_base::sequence::{Bytes, TryCopy};
use rnc_parse::surface::{NameClass as WrittenClass, Namespace};
use rng_core::name_class::NameClass;
use std::alloc::Global;

/// The namespace of the prefix `xmlns` without its last `/`, as the standard has it for attributes.
const XMLNS_WITHOUT_SLASH: &str = "http://www.w3.org/2000/xmlns";

/// A namespace of a file that inherits this one.
fn namespace_of(inherited: &Bytes, namespace: Namespace) -> Result<Bytes, NoMemory>
    ensures { IfOk result (λ ns. ns ≡ namespace_in_file inherited.now namespace) }
{
    match namespace {
        Namespace::Inherited => inherited.copy(),
        Namespace::Uri(uri) => Ok(uri),
    }
}

/// The class of a file that inherits this namespace.
#[cycle(class_in)]
pub(crate) fn class_in(
    alloc: Global,
    inherited: &Bytes,
    class: WrittenClass,
) -> Result<NameClass, NoMemory>
    ensures { IfOk result (λ built. class_of built ≡ class_in_file inherited.now (written_class_of class)) }
{
    match class {
        WrittenClass::AnyName => Ok(NameClass::AnyName),
        WrittenClass::NsName(ns) => Ok(NameClass::NsName(namespace_of(inherited, ns)?)),
        WrittenClass::Name(ns, local) => Ok(NameClass::Name(Name {
            ns: namespace_of(inherited, ns)?,
            local,
        })),
        WrittenClass::Choice(classes) => choice_in(alloc, inherited, classes),
        WrittenClass::Except(class, except) => {
            let class = class_in(alloc, inherited, Box::into_inner(class))?;
            let except = class_in(alloc, inherited, Box::into_inner(except))?;
            except_of(alloc, class, except)
        }
    }
}

/// The choice of classes, which nests to the left. A choice of none is one that no schema may have.
#[cycle(class_in)]
fn choice_in(
    alloc: Global,
    inherited: &Bytes,
    classes: Vec<WrittenClass>,
) -> Result<NameClass, NoMemory>
    ensures { IfOk result (λ built. class_of built ≡ class_in_file inherited.now (written_classes classes.items)) }
{
    let mut choice = None;
    for class in classes {
        choice = Some(choice_next(alloc, inherited, choice, class)?);
    }
    match choice {
        Some(choice) => Ok(choice),
        None => except_of(alloc, NameClass::AnyName, NameClass::AnyName),
    }
}

/// The classes so far, if there are some, and the next one.
#[cycle(class_in)]
fn choice_next(
    alloc: Global,
    inherited: &Bytes,
    choice: Option<NameClass>,
    next: WrittenClass,
) -> Result<NameClass, NoMemory>
    ensures { IfOk result (λ built. class_of built ≡ choice_and choice (class_in_file inherited.now (written_class_of next))) }
{
    let next = class_in(alloc, inherited, next)?;
    match choice {
        Some(choice) => choice_of(alloc, choice, next),
        None => Ok(next),
    }
}

/// The names of either class.
fn choice_of(alloc: Global, first: NameClass, second: NameClass) -> Result<NameClass, NoMemory>
    ensures { IfOk result (λ built. class_of built ≡ either (class_of first) (class_of second)) }
{
    let first = Box::new(alloc, first)?;
    Ok(NameClass::Choice(first, Box::new(alloc, second)?))
}

/// The names of the first class that aren't of the second.
fn except_of(alloc: Global, class: NameClass, except: NameClass) -> Result<NameClass, NoMemory>
    ensures { IfOk result (λ built. class_of built ≡ without (class_of class) (class_of except)) }
{
    let class = Box::new(alloc, class)?;
    Ok(NameClass::Except(class, Box::new(alloc, except)?))
}

/// Whether all names stand in the class as a wildcard.
fn has_any_name(class: &NameClass) -> bool
    ensures { result ≡ has_any_name_in (class_of class.now) }
{
    let mut rest = class;
    loop {
        match rest {
            NameClass::AnyName => return true,
            NameClass::NsName(_) | NameClass::Name(_) => return false,
            NameClass::Except(all, taken) => return has_any_name(all) || has_any_name(taken),
            NameClass::Choice(front, last) => {
                if has_any_name(last) {
                    return true;
                }
                rest = front;
            }
        }
    }
}

/// Whether all names of a namespace do.
fn has_ns_name(class: &NameClass) -> bool
    ensures { result ≡ has_ns_name_in (class_of class.now) }
{
    let mut rest = class;
    loop {
        match rest {
            NameClass::NsName(_) => return true,
            NameClass::AnyName | NameClass::Name(_) => return false,
            NameClass::Except(all, taken) => return has_ns_name(all) || has_ns_name(taken),
            NameClass::Choice(front, last) => {
                if has_ns_name(last) {
                    return true;
                }
                rest = front;
            }
        }
    }
}

/// Whether the second class may not be taken from the first.
fn may_not_lose(class: &NameClass, except: &NameClass) -> bool
    ensures { result ≡ may_not_lose_from (class_of class.now) (class_of except.now) }
{
    match class {
        NameClass::AnyName => has_any_name(except),
        NameClass::NsName(_) => has_any_name(except) || has_ns_name(except),
        NameClass::Name(_) | NameClass::Choice(_, _) | NameClass::Except(_, _) => true,
    }
}

/// Whether a wildcard is taken from a wildcard in the class.
fn has_bad_except(class: &NameClass) -> bool
    ensures { result ≡ has_bad_except_in (class_of class.now) }
{
    let mut rest = class;
    loop {
        match rest {
            NameClass::AnyName | NameClass::NsName(_) | NameClass::Name(_) => return false,
            NameClass::Except(all, taken) => {
                return may_not_lose(all, taken) || has_bad_except(all) || has_bad_except(taken);
            }
            NameClass::Choice(front, last) => {
                if has_bad_except(last) {
                    return true;
                }
                rest = front;
            }
        }
    }
}

/// Whether the namespace is written in the class, alone or in a name.
fn names_namespace(class: &NameClass, ns: &str) -> bool
    ensures { result ≡ names_namespace_in ns.now (class_of class.now) }
{
    let mut rest = class;
    loop {
        match rest {
            NameClass::AnyName => return false,
            NameClass::NsName(of) => return of.as_slice() == ns.as_bytes(),
            NameClass::Name(name) => return name.ns.as_slice() == ns.as_bytes(),
            NameClass::Except(all, taken) => {
                return names_namespace(all, ns) || names_namespace(taken, ns);
            }
            NameClass::Choice(front, last) => {
                if names_namespace(last, ns) {
                    return true;
                }
                rest = front;
            }
        }
    }
}

/// Whether the name `xmlns` in no namespace is written in the class.
fn names_xmlns(class: &NameClass) -> bool
    ensures { result ≡ names_xmlns_in (class_of class.now) }
{
    let mut rest = class;
    loop {
        match rest {
            NameClass::AnyName | NameClass::NsName(_) => return false,
            NameClass::Name(name) => {
                return name.ns.is_empty() && name.local.as_slice() == b"xmlns".as_slice();
            }
            NameClass::Except(all, taken) => return names_xmlns(all) || names_xmlns(taken),
            NameClass::Choice(front, last) => {
                if names_xmlns(last) {
                    return true;
                }
                rest = front;
            }
        }
    }
}

/// Refuses a class that an element may not have.
pub(crate) fn check_element_class(class: &NameClass) -> Result<(), SchemaFault>
    ensures { JudgesElementClass (class_of class.now) result }
{
    if has_bad_except(class) {
        return Err(SchemaFault::Unreadable(Cause::BadExcept));
    }
    if names_namespace(class, XMLNS_NAMESPACE) {
        return Err(SchemaFault::Unreadable(Cause::XmlnsName));
    }
    Ok(())
}

/// Refuses a class that an attribute may not have.
pub(crate) fn check_attribute_class(class: &NameClass) -> Result<(), SchemaFault>
    ensures { JudgesAttributeClass (class_of class.now) result }
{
    check_element_class(class)?;
    if names_namespace(class, XMLNS_WITHOUT_SLASH) || names_xmlns(class) {
        return Err(SchemaFault::Unreadable(Cause::XmlnsName));
    }
    Ok(())
}

/// Refuses a schema that has a class that none may have.
pub(crate) fn check_classes(whole: &Whole, found: &Resolved) -> Result<(), SchemaFault>
    requires { IsResolved (cells_of whole.now) whole.now.root found.now }
    ensures { OkOrRefused (cells_of whole.now) whole.now.root (λ done. AreGood (cells_of whole.now) whole.now.root) result }
{
    for i in 0..whole.nodes.len() {
        check_at(whole, found, NodeNumber(i))?;
    }
    Ok(())
}

/// Refuses a node that stands in the schema with a class that none may have.
fn check_at(whole: &Whole, found: &Resolved, i: NodeNumber) -> Result<(), SchemaFault>
    requires within { i < length whole.now.nodes.items }
    requires resolved { IsResolved (cells_of whole.now) whole.now.root found.now }
    ensures { OkOrRefused (cells_of whole.now) whole.now.root (λ done. IsGoodAt (cells_of whole.now) whole.now.root i) result }
{
    match found.scopes[i.0] {
        Scope::Nowhere => Ok(()),
        _ => check_node(&whole.nodes[i.0]),
    }
}

/// Refuses a node with a class that none may have.
fn check_node(node: &Node) -> Result<(), SchemaFault>
    ensures { JudgesCell (cell_of node.now) result }
{
    match node {
        Node::Element(class, _) => check_element_class(class),
        Node::Attribute(class, _) => check_attribute_class(class),
        _ => Ok(()),
    }
}
