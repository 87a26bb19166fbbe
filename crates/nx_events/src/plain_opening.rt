//! Start tags with one or two attributes of which one look tells what they give: names are plain, but that an attribute's may have the
//! prefix `xml`; nothing is declared, no name comes twice, and each byte stands for itself. In a book most start tags that aren't a name
//! alone are such. A schema can be asked of their attributes as they lie, and no list of them is made.

ghost use Rattle.std.specs.Prelude.{◌≡◌, ◌<◌, ◌∷◌, [], ℕ, true, false, length, IfOk, IfSome};
ghost use Rattle.std.specs.List.{prefix_len};
ghost use Rattle.nx_base.specs.declared.token.TokenKind.TheVariants as kinds;
ghost use Rattle.nx_events.specs.ByteClasses.{AllBetween, goes_on_name, IsBeforeSign};
ghost use Rattle.nx_events.specs.Elements.{has_name};
ghost use Rattle.nx_events.specs.Plain.{is_plain};
ghost use Rattle.nx_events.specs.PlainAttributes.{namespace_if, attribute_name, listed, IsPlainOpening, IsNameOf, IsFront, AreReadAs};
ghost use Rattle.nx_events.specs.Tags.{attributes_from, written_name};

use crate::front::{is_between, is_space, name_end};
use crate::item::Items;
use crate::namespace::is_declaration;
use crate::plain::are_plain;
use crate::qname::is_plain_name;
use crate::reading::Reading;
use crate::scope::XML_URI;
use crate::stage::is_behind;
use crate::state::EventState;
use crate::tag::{are_between, attribute_extent, copy_in, written_name};
use nx_base::memory::NoMemory;
use nx_base::name::Name;
use nx_base::sequence::Bytes;
use nx_base::token::Token;
use std::alloc::Global;

/// An attribute of which one look tells the name and the value.
#[derive(Clone, Copy)]
pub struct PlainAttribute<'t> {
    /// Whether its name has the prefix `xml`; else it has none.
    pub is_xml: bool,
    /// What stands behind the prefix, or the whole name.
    pub local: &'t [u8],
    /// What stands between the quotes, which is its own string.
    pub value: &'t [u8],
}

/// One or two of them.
#[derive(Clone, Copy)]
pub struct PlainAttributes<'t> {
    pub first: PlainAttribute<'t>,
    pub second: Option<PlainAttribute<'t>>,
}

/// A start tag with such attributes.
#[derive(Clone, Copy)]
pub struct PlainOpening<'t> {
    /// The name as it is written.
    pub written: &'t [u8],
    pub attributes: PlainAttributes<'t>,
}

// An attribute, and what stands behind it.
#[derive(Clone, Copy)]
struct Front<'t> {
    attribute: PlainAttribute<'t>,
    rest: &'t [u8],
}

// The attribute of this name and this value, if one look at its name tells what it is.
fn named<'t>(name: &'t [u8], value: &'t [u8]) -> Option<PlainAttribute<'t>>
    ensures { IfSome result (λ it. IsNameOf name.now it × (it.value.now ≡ value.now) × AllBetween goes_on_name name.now 0 (length name.now)) }
{
    if is_declaration(name) {
        return None;
    }
    if is_plain_name(name) {
        return Some(PlainAttribute {
            is_xml: false,
            local: name,
            value,
        });
    }
    if !name.starts_with(b"xml:") {
        return None;
    }
    let local = &name[4..];
    if !is_plain_name(local) {
        return None;
    }
    Some(PlainAttribute {
        is_xml: true,
        local,
        value,
    })
}

// What stands before the `=` in front of a quote, where no white space stands around it.
fn name_before(spelled: &[u8], quote: usize) -> Option<&[u8]>
    requires { quote < length spelled.now }
    ensures { IfSome result (λ name. IsBeforeSign spelled.now name.now) }
{
    if quote < 2 || spelled[quote - 1] != b'=' || is_space(spelled[quote - 2]) {
        return None;
    }
    Some(&spelled[..quote - 1])
}

// The name in front of an attribute's quote, where each byte of this goes on a name.
fn name_in_front(spelled: &[u8], quote: usize) -> &[u8]
    requires { quote < length spelled.now }
    ensures { AllBetween goes_on_name result.now 0 (length result.now) → result.now ≡ written_name spelled.now }
{
    match name_before(spelled, quote) {
        // No byte of a plain name ends one, so it needn't be looked through for its end.
        Some(name) => name,
        // White space may stand around the `=`.
        None => written_name(spelled),
    }
}

// The attribute behind one byte that may stand between.
fn attribute_behind(bytes: &[u8]) -> Option<Front<'_>>
    ensures { IfSome result (λ front. IsFront bytes.now front.attribute front.rest.now) }
{
    if bytes.is_empty() || !is_between(bytes[0]) {
        return None;
    }
    let spelled = &bytes[1..];
    let extent = attribute_extent(spelled)?;
    let from = extent.quote + 1;
    let to = from + extent.value;
    let attribute = named(name_in_front(spelled, extent.quote), &spelled[from..to])?;
    Some(Front {
        attribute,
        rest: &spelled[to + 1..],
    })
}

// Whether the two surely have different names.
fn are_apart(a: &PlainAttribute<'_>, b: &PlainAttribute<'_>) -> bool
    ensures { result ≡ true → has_name (attribute_name a.now ∷ []) (attribute_name b.now) ≡ false }
{
    if a.is_xml != b.is_xml {
        return true;
    }
    a.local != b.local
}

// The attributes in plain bytes.
fn attributes_in(bytes: &[u8]) -> Option<PlainAttributes<'_>>
    ensures { prefix_len is_plain bytes.now ≡ length bytes.now →
        IfSome result (λ attributes. (at : ℕ) → AreReadAs [] (attributes_from 0 at bytes.now) (listed attributes)) }
{
    let first = attribute_behind(bytes)?;
    if are_between(first.rest) {
        return Some(PlainAttributes {
            first: first.attribute,
            second: None,
        });
    }
    let second = attribute_behind(first.rest)?;
    if !are_between(second.rest) || !are_apart(&first.attribute, &second.attribute) {
        return None;
    }
    Some(PlainAttributes {
        first: first.attribute,
        second: Some(second.attribute),
    })
}

/// The name and the attributes of a start tag (XML 1.0, 3.1) of which one look tells what it gives, in front of the root's end.
pub fn plain_opening<'t>(state: &EventState, token: &'t Token) -> Option<PlainOpening<'t>>
    ensures { token.now.kind ≡ kinds.Start →
        IfSome result (λ tag. IsPlainOpening state.now token.now tag.written.now (listed tag.attributes)) }
{
    let bytes = token.bytes.as_slice();
    if bytes.is_empty() || !are_plain(Reading::Value, bytes) {
        return None;
    }
    if is_behind(state) {
        return None;
    }
    let n = 1 + name_end(&bytes[1..]);
    let written = &bytes[1..n];
    if !is_plain_name(written) {
        return None;
    }
    let attributes = attributes_in(&bytes[n..])?;
    Some(PlainOpening {
        written,
        attributes,
    })
}

// The namespace of such an attribute.
fn namespace_if(alloc: Global, memory: &mut Items, is_xml: bool) -> Result<Bytes, NoMemory>
    ensures ns { IfOk result (λ ns. ns ≡ namespace_if is_xml) }
    ensures memory { memory.new ≡ memory.old }
{
    if !is_xml {
        return Ok(Bytes::new(alloc));
    }
    let ns = copy_in(memory.spare_memory(), XML_URI)?;
    Ok(ns)
}

/// The name of such an attribute. It is put in memory that the list keeps; NoMemory where that is wanting.
pub fn attribute_name(
    alloc: Global,
    memory: &mut Items,
    attribute: &PlainAttribute<'_>,
) -> Result<Name, NoMemory>
    ensures name { IfOk result (λ name. name ≡ attribute_name attribute.now) }
    ensures memory { memory.new ≡ memory.old }
{
    let ns = namespace_if(alloc, memory, attribute.is_xml)?;
    let local = copy_in(memory.spare_memory(), attribute.local)?;
    Ok(Name { ns, local })
}
