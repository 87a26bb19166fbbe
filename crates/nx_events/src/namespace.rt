//! The namespace declarations of a tag (Namespaces in XML 1.0, sections 2.2, 3 and 5).

ghost use Rattle.std.specs.Prelude.{◌≡◌, ◌+◌, ◌<◌, ◌^◌, ◌++◌, [], ◌∷◌, List, length, IfOk, OnOk};
ghost use Rattle.std.specs.List.{list_any};
ghost use Rattle.nx_events.specs.Tags.{tag_attributes};
ghost use Rattle.nx_events.specs.Faults.{fault_of, faults_as_items};
ghost use Rattle.nx_events.specs.declared.tag.Attribute.{Attribute};
ghost use Rattle.nx_events.specs.Declarations.{is_declaration, declared_prefix, is_bad_binding, flaw_if, with_name, flaw_faults};
ghost use Rattle.nx_events.specs.Declarations.{binding_unless, faults_at, bindings_at, declaration_faults, bindings};
ghost use Rattle.nx_events.specs.SeenNames.{AreDeclared};

use crate::flaw::Flaw;
use crate::item::{Item, Items};
use crate::qname::is_qname;
use crate::scope::{Binding, Bindings, XML_URI};
use crate::tag::{Attribute, copy_of, tag_attributes};
use crate::tag_names::TagNames;
use nx_base::detail::Detail;
use nx_base::fault::{Fault, Kind, Span};
use nx_base::memory::NoMemory;
use nx_base::name::XMLNS_NAMESPACE;
use nx_base::sequence::TryCopy;
use nx_base::token::Token;
use std::alloc::Global;

/// Whether an attribute of this name is a declaration.
#[tactic(auto, unfolding(crate::specs::Declarations::is_declaration))]
pub(crate) fn is_declaration(name: &[u8]) -> bool
    ensures { result ≡ is_declaration name.now }
{
    name == b"xmlns".as_slice() || name.starts_with(b"xmlns:")
}

/// Whether a tag has a declaration, even one that is in vain.
pub fn declares(alloc: Global, tag: &Token) -> Result<bool, NoMemory>
    requires { tag.now.from + length tag.now.bytes < 2 ^ 64 }
    ensures { IfOk result (λ b. b ≡ list_any (λ (it : Attribute). is_declaration it.name) (tag_attributes tag.now.from tag.now.bytes)) }
{
    let attributes = tag_attributes(alloc, tag.from, tag.bytes.as_slice())?;
    Ok(
        attributes
            .iter()
            .any(|it| is_declaration(it.name.as_slice())),
    )
}

// The prefix that a declaration of this name declares.
#[tactic(auto, unfolding(crate::specs::Declarations::declared_prefix))]
fn declared_prefix(name: &[u8]) -> &[u8]
    ensures { result.now ≡ declared_prefix name.now }
{
    if name.len() < 6 { &[] } else { &name[6..] }
}

// Whether this prefix may not be bound to this URI.
#[tactic(auto, unfolding(crate::specs::Declarations::is_bad_binding))]
fn is_bad_binding(prefix: &[u8], uri: &[u8]) -> bool
    ensures { result ≡ is_bad_binding prefix.now uri.now }
{
    if prefix == b"xmlns".as_slice() {
        return true;
    }
    let is_xml = prefix == b"xml".as_slice();
    let is_xml_uri = uri == XML_URI;
    (is_xml && !is_xml_uri)
        || (!is_xml && is_xml_uri)
        || uri == XMLNS_NAMESPACE.as_bytes()
        || (!prefix.is_empty() && uri.is_empty())
}

// What is wrong with a declaration, by whether its name came before in its tag.
fn flaw_if(came: bool, it: &Attribute) -> Option<Kind>
    ensures { result ≡ flaw_if came it.now }
{
    if came {
        return Some(Kind::DuplicateAttribute);
    }
    if !is_qname(it.name.as_slice()) {
        return Some(Kind::BadName);
    }
    if is_bad_binding(declared_prefix(it.name.as_slice()), it.string.as_slice()) {
        return Some(Kind::BadBinding);
    }
    None
}

/// Adds a fault with this detail.
pub(crate) fn push_flaw(items: &mut Items, span: Span, flaw: Flaw) -> Result<(), NoMemory>
    ensures { OnOk result (items.new ≡ items.old ++ faults_as_items (flaw_faults span (Some flaw))) }
{
    items.push(Item::Fault(Fault {
        span,
        kind: flaw.kind,
        detail: flaw.detail,
    }))?;
    Ok(())
}

// Adds the fault of a declaration to the items, or else its pair to the tag's own.
fn declare(
    alloc: Global,
    items: &mut Items,
    own: &mut Bindings,
    came: bool,
    it: &Attribute,
) -> Result<(), NoMemory>
    ensures faults { OnOk result
        (items.new ≡ items.old ++ faults_as_items (flaw_faults it.now.span (with_name it.now.name (flaw_if came it.now)))) }
    ensures pairs { OnOk result (own.new ≡ own.old ++ binding_unless it.now (with_name it.now.name (flaw_if came it.now))) }
{
    match flaw_if(came, it) {
        Some(kind) => {
            let detail = Detail::of(it.name.to_bytes()?)?;
            push_flaw(items, it.span, Flaw { kind, detail })?;
        }
        None => {
            own.push(Binding {
                prefix: copy_of(alloc, declared_prefix(it.name.as_slice()))?,
                uri: it.string.copy()?,
            })?;
        }
    }
    Ok(())
}

// Declares what an attribute does, if it is a declaration, behind those before it whose names came.
#[tactic(auto, unfolding(crate::specs::Declarations::faults_at, crate::specs::Declarations::bindings_at))]
fn declare_if(
    alloc: Global,
    items: &mut Items,
    own: &mut Bindings,
    came: &mut TagNames,
    it: &Attribute,
) -> Result<(), NoMemory>
    ensures faults { (before : List Attribute) → AreDeclared came.old.names.keys before → OnOk result
        (items.new ≡ items.old ++ faults_as_items (faults_at before it.now)) }
    ensures pairs { (before : List Attribute) → AreDeclared came.old.names.keys before → OnOk result
        (own.new ≡ own.old ++ bindings_at before it.now) }
    ensures came { (before : List Attribute) → AreDeclared came.old.names.keys before → OnOk result
        (AreDeclared came.new.names.keys (before ++ it.now ∷ [])) }
{
    if is_declaration(it.name.as_slice()) {
        let is_double = came.insert(alloc, &[], it.name.as_slice())?;
        declare(alloc, items, own, is_double, it)?;
    }
    Ok(())
}

/// The pairs that the attributes of a tag declare. The faults of declarations are added to the items.
pub(crate) fn declarations(
    alloc: Global,
    items: &mut Items,
    attributes: &[Attribute],
) -> Result<Bindings, NoMemory>
    ensures faults { OnOk result (items.new ≡ items.old ++ faults_as_items (declaration_faults [] attributes.now)) }
    ensures pairs { IfOk result (λ own. own ≡ bindings [] attributes.now) }
{
    let mut own = Bindings::new(alloc);
    let mut came = TagNames::new(alloc);
    for it in attributes {
        declare_if(alloc, items, &mut own, &mut came, it)?;
    }
    Ok(own)
}
