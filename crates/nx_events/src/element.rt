//! The element of a tag, and its attributes (Namespaces in XML 1.0, sections 5 and 6).

ghost use Rattle.std.specs.Prelude.{◌≡◌, ◌++◌, [], ◌∷◌, List, Some, option_copied, IfOk, OnOk};
ghost use Rattle.nx_events.specs.Faults.{faults_as_items};
ghost use Rattle.nx_base.specs.declared.name.Name.{Name};
ghost use Rattle.nx_events.specs.Elements.{flawed_as, declared_or_flaw, element_resolved, element_items, new_or_flaw, attribute_declared};
ghost use Rattle.nx_events.specs.Elements.{declared_if_attribute, attribute_item, kept_name, attribute_items};
ghost use Rattle.nx_events.specs.OpenItems.{kept_names, name_resolved, new_name};
ghost use Rattle.nx_events.specs.Scopes.{named_by};
ghost use Rattle.nx_events.specs.SeenNames.{AreKept, new_of};
ghost use Rattle.nx_events.specs.PlainTokens.{unprefixed_name};

use crate::few_bytes;
use crate::flaw::{Flaw, Resolved};
use crate::item::{Event, Item, Items, LONGEST_SPARE};
use crate::namespace::{is_declaration, push_flaw};
use crate::qname::{parted, prefix_of};
use crate::scope::{Bindings, attribute_uri, default_uri, element_uri};
use crate::tag::{Attribute, copy_in, copy_of};
use crate::tag_names::TagNames;
use nx_base::detail::Detail;
use nx_base::fault::{Kind, Span};
use nx_base::memory::NoMemory;
use nx_base::name::Name;
use nx_base::sequence::Bytes;
use std::alloc::Global;
use std::mem;

// What is wrong, with a copy of these bytes as its detail.
fn flawed(alloc: Global, kind: Kind, detail: &[u8]) -> Result<Resolved, NoMemory>
    ensures { IfOk result (λ resolved. resolved ≡ flawed_as kind detail.now) }
{
    Ok(Resolved::Flawed(Flaw {
        kind,
        detail: Detail::of(copy_of(alloc, detail)?)?,
    }))
}

// The name with its namespace, its local part in this memory, or that its prefix is undeclared.
fn declared_or_flaw(
    alloc: Global,
    memory: Vec<u8>,
    uri: Option<&[u8]>,
    local: &[u8],
    written: &[u8],
) -> Result<Resolved, NoMemory>
    ensures { IfOk result (λ resolved. resolved ≡ declared_or_flaw (named_by (option_copied uri.entry) local.now) written.now) }
{
    match uri {
        Some(uri) => Ok(Resolved::Named(Name {
            ns: copy_of(alloc, uri)?,
            local: copy_in(memory, local)?,
        })),
        None => {
            let resolved = flawed(alloc, Kind::UndeclaredPrefix, prefix_of(written))?;
            Ok(resolved)
        }
    }
}

// Puts a copy of these bytes in the place of what is there, in its memory, if that isn't too long to be kept.
#[inline(always)]
fn refill(alloc: Global, bytes: &mut Bytes, source: &[u8]) -> Result<(), NoMemory>
    ensures { OnOk result (bytes.new ≡ source.now) }
{
    let mut memory = mem::replace(bytes, Bytes::new(alloc)).into_vec();
    // So after one very long name no such memory stays.
    if LONGEST_SPARE < memory.capacity() {
        memory = Vec::new(alloc);
    }
    few_bytes::fill(&mut memory, source)?;
    *bytes = Bytes::from_vec(memory);
    Ok(())
}

// Puts a namespace in the place of another, by a call: `put_namespace` is inlined, and most names have none.
#[inline(never)]
fn put_uri(alloc: Global, ns: &mut Bytes, uri: &[u8]) -> Result<(), NoMemory>
    ensures { OnOk result (ns.new ≡ uri.now) }
{
    refill(alloc, ns, uri)
}

// Puts a namespace in the place of another.
#[inline(always)]
fn put_namespace(alloc: Global, ns: &mut Bytes, uri: &[u8]) -> Result<(), NoMemory>
    ensures { OnOk result (ns.new ≡ uri.now) }
{
    // Most names have none, and so had the one before: then nothing is moved.
    if uri.is_empty() && ns.is_empty() {
        return Ok(());
    }
    put_uri(alloc, ns, uri)
}

/// Puts the name of an element that is written without a prefix in the place of another name, in that one's memory. Where it is refused,
/// anything may be there.
pub(crate) fn put_unprefixed_name(
    alloc: Global,
    name: &mut Name,
    scope: &Bindings,
    written: &[u8],
) -> Result<(), NoMemory>
    ensures { OnOk result (name.new ≡ unprefixed_name scope.now written.now) }
{
    put_namespace(alloc, &mut name.ns, default_uri(scope))?;
    refill(alloc, &mut name.local, written)?;
    Ok(())
}

/// The name of an element, with the declarations around its tag and the tag's own. Its local part is put in this memory.
#[tactic(auto, unfolding(crate::specs::Elements::element_resolved))]
pub(crate) fn element_resolved(
    alloc: Global,
    memory: Vec<u8>,
    behind_root: bool,
    outer: &Bindings,
    own: &Bindings,
    written: &[u8],
) -> Result<Resolved, NoMemory>
    ensures { IfOk result (λ resolved. resolved ≡ element_resolved behind_root (outer.now ++ own.now) written.now) }
{
    if behind_root {
        let resolved = flawed(alloc, Kind::SecondRoot, written)?;
        return Ok(resolved);
    }
    let Some(parts) = parted(written) else {
        let resolved = flawed(alloc, Kind::BadName, written)?;
        return Ok(resolved);
    };
    let uri = element_uri(outer, own, parts.prefix);
    let resolved = declared_or_flaw(alloc, memory, uri, parts.local, written)?;
    Ok(resolved)
}

/// Adds the items of an element's beginning.
pub(crate) fn push_element(
    items: &mut Items,
    span: Span,
    resolved: Resolved,
) -> Result<(), NoMemory>
    ensures { OnOk result (items.new ≡ items.old ++ element_items span resolved) }
{
    match resolved {
        Resolved::Named(name) => {
            items.push(Item::Event(Event::Enter(name), span))?;
        }
        Resolved::Flawed(flaw) => {
            push_flaw(items, span, flaw)?;
            items.push(Item::Event(Event::EnterLost, span))?;
        }
    }
    Ok(())
}

// The name, or that it is among those kept. A new name is kept.
#[tactic(auto, unfolding(crate::specs::Elements::new_or_flaw))]
fn keep_new(
    alloc: Global,
    kept: &mut TagNames,
    resolved: Resolved,
    written: &[u8],
) -> Result<Resolved, NoMemory>
    ensures outcome { (names : List Name) → AreKept kept.old.names.keys names → IfOk result
        (λ outcome. outcome ≡ new_or_flaw names resolved written.now) }
    ensures kept { (names : List Name) → AreKept kept.old.names.keys names →
        IfOk result (λ outcome. AreKept kept.new.names.keys (names ++ kept_name (Some outcome))) }
{
    match resolved {
        Resolved::Flawed(flaw) => Ok(Resolved::Flawed(flaw)),
        Resolved::Named(name) => {
            if kept.insert(alloc, name.ns.as_slice(), name.local.as_slice())? {
                let twice = flawed(alloc, Kind::DuplicateAttribute, written)?;
                Ok(twice)
            } else {
                Ok(Resolved::Named(name))
            }
        }
    }
}

// The name of an attribute by its prefix. Its local part is put in this memory.
#[tactic(auto, unfolding(crate::specs::Elements::attribute_declared))]
fn attribute_declared(
    alloc: Global,
    memory: Vec<u8>,
    outer: &Bindings,
    own: &Bindings,
    written: &[u8],
) -> Result<Resolved, NoMemory>
    ensures { IfOk result (λ resolved. resolved ≡ attribute_declared (outer.now ++ own.now) written.now) }
{
    let Some(parts) = parted(written) else {
        let resolved = flawed(alloc, Kind::BadName, written)?;
        return Ok(resolved);
    };
    let uri = attribute_uri(outer, own, parts.prefix);
    let declared = declared_or_flaw(alloc, memory, uri, parts.local, written)?;
    Ok(declared)
}

// The name of an attribute that is no declaration. Its local part is put in memory that the list keeps.
#[tactic(auto, unfolding(crate::specs::Elements::declared_if_attribute))]
fn declared_if_attribute(
    alloc: Global,
    items: &mut Items,
    outer: &Bindings,
    own: &Bindings,
    it: &Attribute,
) -> Result<Option<Resolved>, NoMemory>
    ensures resolved { IfOk result (λ resolved. resolved ≡ declared_if_attribute (outer.now ++ own.now) it.now) }
    ensures same { items.new ≡ items.old }
{
    if is_declaration(it.name.as_slice()) {
        return Ok(None);
    }
    let memory = items.spare_memory();
    let resolved = attribute_declared(alloc, memory, outer, own, it.name.as_slice())?;
    Ok(Some(resolved))
}

// Adds the item of an attribute.
fn push_resolved(items: &mut Items, it: &Attribute, resolved: Resolved) -> Result<(), NoMemory>
    ensures { OnOk result (items.new ≡ items.old ++ attribute_item it.now (Some resolved)) }
{
    match resolved {
        Resolved::Flawed(flaw) => push_flaw(items, it.span, flaw)?,
        Resolved::Named(name) => {
            let value = items.copied_value(it.string.as_slice())?;
            items.push(Item::Event(Event::Att(name, value), it.value))?;
        }
    }
    Ok(())
}

// Adds the item of an attribute, and its name to those kept.
fn push_attribute(
    alloc: Global,
    items: &mut Items,
    kept: &mut TagNames,
    it: &Attribute,
    declared: Option<Resolved>,
) -> Result<(), NoMemory>
    ensures items { (names : List Name) → AreKept kept.old.names.keys names → OnOk result
        (items.new ≡ items.old ++ attribute_item it.now (new_of names declared it.now.name)) }
    ensures kept { (names : List Name) → AreKept kept.old.names.keys names → OnOk result
        (AreKept kept.new.names.keys (names ++ kept_name (new_of names declared it.now.name))) }
{
    match declared {
        None => {}
        Some(resolved) => {
            let outcome = keep_new(alloc, kept, resolved, it.name.as_slice())?;
            push_resolved(items, it, outcome)?;
        }
    }
    Ok(())
}

/// Adds the items of the attributes of a tag, and answers the names that they keep.
pub(crate) fn push_attributes(
    alloc: Global,
    items: &mut Items,
    outer: &Bindings,
    own: &Bindings,
    attributes: &[Attribute],
) -> Result<TagNames, NoMemory>
    ensures items { OnOk result (items.new ≡ items.old ++ attribute_items (outer.now ++ own.now) [] attributes.now) }
    ensures kept { IfOk result (λ kept. AreKept kept.names.keys (kept_names (outer.now ++ own.now) [] attributes.now)) }
{
    let mut kept = TagNames::new(alloc);
    for it in attributes {
        let declared = declared_if_attribute(alloc, items, outer, own, it)?;
        push_attribute(alloc, items, &mut kept, it, declared)?;
    }
    Ok(kept)
}

// The name that was resolved, if one was.
fn name_resolved(resolved: Resolved) -> Option<Name>
    ensures { result ≡ name_resolved resolved }
{
    match resolved {
        Resolved::Named(name) => Some(name),
        Resolved::Flawed(_) => None,
    }
}

/// The name of an attribute behind those that kept these names. None where it is a declaration, isn't resolved or came before.
#[tactic(auto, unfolding(crate::specs::OpenItems::new_name))]
pub(crate) fn new_name(
    alloc: Global,
    outer: &Bindings,
    own: &Bindings,
    kept: &mut TagNames,
    written: &[u8],
) -> Result<Option<Name>, NoMemory>
    ensures { (names : List Name) → AreKept kept.old.names.keys names → IfOk result
        (λ name. name ≡ new_name (outer.now ++ own.now) names written.now) }
{
    if is_declaration(written) {
        return Ok(None);
    }
    let declared = attribute_declared(alloc, Vec::new(alloc), outer, own, written)?;
    let resolved = keep_new(alloc, kept, declared, written)?;
    Ok(name_resolved(resolved))
}
