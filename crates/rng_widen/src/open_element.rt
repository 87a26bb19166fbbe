//! An open element of a schema in the XML syntax.

ghost use Rattle.std.specs.Prelude.{◌≡◌, ◌-◌, length, nat_le, IfOk};
ghost use Rattle.rng_widen.specs.MarkupPlaces.{part_of, is_data, is_param, is_except, entered, around_all, with_child, with_foreign_child};
ghost use Rattle.rng_widen.specs.MarkupPlaces.{with_library, with_type, with_facet, with_attribute, type_of, wider_by, type_by, type_widening};
ghost use Rattle.rng_widen.specs.MarkupPlaces.{counted, is_alien_by, is_alien, with_param, facet_by, facet_in, is_lone, facet_widening};
ghost use Rattle.rng_widen.specs.Types.{wider_type};

use crate::facet::{Facet, facet_named, has_facet, is_left_out_of};
use crate::head::SCHEMA_LIBRARY;
use crate::name::trimmed;
use crate::schema_type::{SchemaType, type_named, type_text, wider_type};
use crate::widening::{Note, Widening};
use nx_base::fault::Span;
use nx_base::memory::NoMemory;
use nx_base::sequence::Bytes;
use std::alloc::Global;

/// Which element of a schema it is.
#[derive(Clone, Copy, Debug, PartialEq, Eq)]
pub enum Part {
    Data,
    Param,
    Except,
    Other,
}

/// An open element, as far as it is read.
#[derive(Clone, Copy, Debug, PartialEq, Eq)]
pub struct OpenElement {
    pub part: Part,
    /// Where its start tag begins.
    pub from: usize,
    /// Whether the library in force is XML Schema's.
    pub schemas: bool,
    /// Whether it stands in what is excepted.
    pub excepted: bool,
    /// Of a `data`, that params alone came in it; of a param, that it has no other attribute and no element in it.
    pub plain: bool,
    /// The type that its attribute names, if it is one of XML Schema's.
    pub named: Option<SchemaType>,
    /// Where that name stands.
    pub type_at: Span,
    /// The facet that its attribute names.
    pub facet: Option<Facet>,
    /// How many things were put to something wider in front of the end of its start tag.
    pub before: usize,
    /// Of a `data`, that a param gives a facet that its type doesn't have.
    pub alien: bool,
}

/// Which element it is, by its local name.
fn part_of(local: &[u8]) -> Part
    ensures { result ≡ part_of local.now }
{
    if local == b"data".as_slice() {
        Part::Data
    } else if local == b"param".as_slice() {
        Part::Param
    } else if local == b"except".as_slice() {
        Part::Except
    } else {
        Part::Other
    }
}

fn is_data(part: Part) -> bool
    ensures { result ≡ is_data part }
{
    matches!(part, Part::Data)
}

fn is_param(part: Part) -> bool
    ensures { result ≡ is_param part }
{
    matches!(part, Part::Param)
}

fn is_except(part: Part) -> bool
    ensures { result ≡ is_except part }
{
    matches!(part, Part::Except)
}

/// What is around all elements.
pub(crate) fn around_all() -> OpenElement
    ensures { result ≡ around_all }
{
    OpenElement {
        part: Part::Other,
        from: 0,
        schemas: false,
        excepted: false,
        plain: true,
        named: None,
        type_at: Span { from: 0, to: 0 },
        facet: None,
        before: 0,
        alien: false,
    }
}

/// An element begins in another, at a place.
pub(crate) fn entered(outer: OpenElement, local: &[u8], from: usize) -> OpenElement
    ensures { result ≡ entered outer local.now from }
{
    OpenElement {
        part: part_of(local),
        from,
        schemas: outer.schemas,
        excepted: outer.excepted || is_except(outer.part),
        plain: true,
        named: None,
        type_at: Span { from: 0, to: 0 },
        facet: None,
        before: 0,
        alien: false,
    }
}

/// An element of the schema begins in this one.
pub(crate) fn with_child(element: OpenElement, local: &[u8]) -> OpenElement
    ensures { result ≡ with_child element local.now }
{
    OpenElement {
        plain: element.plain && (is_data(element.part) && is_param(part_of(local))),
        ..element
    }
}

/// An element of another namespace begins in this one, or it has an attribute that a param has no use for.
pub(crate) fn with_foreign_child(element: OpenElement) -> OpenElement
    ensures { result ≡ with_foreign_child element }
{
    OpenElement {
        plain: element.plain && !is_param(element.part),
        ..element
    }
}

/// It has this library.
fn with_library(element: OpenElement, value: &[u8]) -> OpenElement
    ensures { result ≡ with_library element value.now }
{
    OpenElement {
        schemas: value == SCHEMA_LIBRARY,
        ..element
    }
}

/// It names a type at a place.
fn with_type(element: OpenElement, value: &[u8], at: Span) -> OpenElement
    ensures { result ≡ with_type element value.now at }
{
    OpenElement {
        named: type_named(trimmed(value)),
        type_at: at,
        plain: element.plain && !is_param(element.part),
        ..element
    }
}

/// It names a facet.
fn with_facet(element: OpenElement, value: &[u8]) -> OpenElement
    ensures { result ≡ with_facet element value.now }
{
    OpenElement {
        facet: facet_named(trimmed(value)),
        ..element
    }
}

/// It has an attribute in no namespace.
pub(crate) fn with_attribute(
    element: OpenElement,
    local: &[u8],
    value: &[u8],
    at: Span,
) -> OpenElement
    ensures { result ≡ with_attribute element local.now value.now at }
{
    if local == b"datatypeLibrary".as_slice() {
        with_library(element, value)
    } else if local == b"type".as_slice() {
        with_type(element, value, at)
    } else if local == b"name".as_slice() {
        with_facet(element, value)
    } else if local == b"ns".as_slice() {
        element
    } else {
        with_foreign_child(element)
    }
}

/// The type that a `data` names, where that is one of XML Schema's library.
fn type_of(element: OpenElement) -> Option<SchemaType>
    ensures { result ≡ type_of element }
{
    if is_data(element.part) && element.schemas {
        element.named
    } else {
        None
    }
}

/// So many things were put to something wider in front of the end of its tag.
pub(crate) fn counted(element: OpenElement, count: usize) -> OpenElement
    ensures { result ≡ counted element count }
{
    OpenElement {
        before: count,
        ..element
    }
}

/// Whether a type doesn't have a facet, if there are both.
fn is_alien_by(named: Option<SchemaType>, facet: Option<Facet>) -> bool
    ensures { result ≡ is_alien_by named facet }
{
    match (named, facet) {
        (Some(named), Some(facet)) => !has_facet(named, facet),
        _ => false,
    }
}

/// Whether the element is a param of a facet that the type of the one around it doesn't have.
fn is_alien(outer: OpenElement, element: OpenElement) -> bool
    ensures { result ≡ is_alien outer element }
{
    is_param(element.part) && is_alien_by(type_of(outer), element.facet)
}

/// This other element ends in it.
pub(crate) fn with_param(outer: OpenElement, element: OpenElement) -> OpenElement
    ensures { result ≡ with_param outer element }
{
    OpenElement {
        alien: outer.alien || is_alien(outer, element),
        ..outer
    }
}

/// Whether a word has room in a span.
fn has_room(word: &[u8], at: Span) -> bool
    ensures { result ≡ nat_le (length word.now) (at.to - at.from) }
{
    word.len() <= at.to.saturating_sub(at.from)
}

/// A type that isn't held, where the name of the wider one has room.
fn wider(alloc: Global, at: Span, named: SchemaType) -> Result<Option<Widening>, NoMemory>
    ensures { IfOk result (λ found. found ≡ wider_by at named (wider_type named)) }
{
    match wider_type(named) {
        None => Ok(None),
        Some(wider) => {
            let word = type_text(wider);
            if !has_room(word, at) {
                return Ok(None);
            }
            Ok(Some(Widening {
                from: at.from,
                to: at.to,
                word: Bytes::from_vec(Vec::from_slice(alloc, word)?),
                note: Note::Type(named, wider),
            }))
        }
    }
}

/// A type that isn't held, if there is a type.
fn wider_if(
    alloc: Global,
    at: Span,
    named: Option<SchemaType>,
) -> Result<Option<Widening>, NoMemory>
    ensures { IfOk result (λ found. found ≡ type_by at named) }
{
    match named {
        None => Ok(None),
        Some(named) => Ok(wider(alloc, at, named)?),
    }
}

/// What is put to something wider where an element's tag ends.
#[tactic(auto, unfolding(crate::specs::MarkupPlaces::type_widening))]
pub(crate) fn type_widening(
    alloc: Global,
    element: OpenElement,
) -> Result<Option<Widening>, NoMemory>
    ensures { IfOk result (λ found. found ≡ type_widening element) }
{
    if element.excepted {
        return Ok(None);
    }
    Ok(wider_if(alloc, element.type_at, type_of(element))?)
}

/// A facet of this type that is left out with its element, which ends at a place.
fn left_out(
    alloc: Global,
    from: usize,
    to: usize,
    named: SchemaType,
    facet: Option<Facet>,
) -> Option<Widening>
    ensures { result ≡ facet_by from to named facet }
{
    match facet {
        None => None,
        Some(facet) => {
            if is_left_out_of(named, facet) {
                Some(Widening {
                    from,
                    to,
                    word: Bytes::new(alloc),
                    note: Note::Facet(facet),
                })
            } else {
                None
            }
        }
    }
}

/// The same, if there is a type.
fn left_out_if(
    alloc: Global,
    from: usize,
    to: usize,
    named: Option<SchemaType>,
    facet: Option<Facet>,
) -> Option<Widening>
    ensures { result ≡ facet_in from to named facet }
{
    match named {
        None => None,
        Some(named) => left_out(alloc, from, to, named, facet),
    }
}

/// Whether the element is a param with a string alone in it, and in the element around it params alone came.
fn is_lone(outer: OpenElement, element: OpenElement) -> bool
    ensures { result ≡ is_lone outer element }
{
    is_param(element.part) && (element.plain && (outer.plain && !element.excepted))
}

/// What is put to something wider where an element ends.
#[tactic(auto, unfolding(crate::specs::MarkupPlaces::facet_widening))]
pub(crate) fn facet_widening(
    alloc: Global,
    outer: OpenElement,
    element: OpenElement,
    to: usize,
) -> Option<Widening>
    ensures { result ≡ facet_widening outer element to }
{
    if is_lone(outer, element) {
        left_out_if(alloc, element.from, to, type_of(outer), element.facet)
    } else {
        None
    }
}
