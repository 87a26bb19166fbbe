//! What is written in a tag (XML 1.0, 3.1).

ghost use Rattle.std.specs.Prelude.{◌≡◌, ◌+◌, ◌<◌, ◌≤◌, ◌^◌, ◌++◌, [], ℕ, true, false, length, slice_index, IfOk, IfSome, OnOk, MatchOption};
ghost use Rattle.std.specs.Bool.{OnTrue};
ghost use Rattle.std.specs.List.{list_all};
ghost use Rattle.nx_events.specs.ByteClasses.{IsSameName};
ghost use Rattle.nx_events.specs.Tags.{is_between, ends_name, written_name, quote_place, value_len, attribute_len, begins_attribute, attribute_at};
ghost use Rattle.nx_events.specs.Tags.{front_attribute, front_len, attributes_from, start_name, end_name, tag_attributes};
ghost use Rattle.nx_events.specs.PlainTags.{IsPlainTag};

use crate::front::{byte_place, ends_name, is_between, name_end, quote_place};
use crate::piece::string_of;
use crate::qname::is_plain_name;
use crate::reading::Reading;
use crate::written_name::WrittenName;
use crate::{few_bytes, lanes};
use nx_base::fault::Span;
use nx_base::memory::NoMemory;
use nx_base::sequence::Bytes;
use std::alloc::Global;

/// An attribute of a tag.
#[derive(Drop)]
pub struct Attribute {
    /// The name as it is written.
    pub name: WrittenName,
    /// The value's string: line ends and references read, white space made spaces.
    pub string: Bytes,
    /// From the name through the closing quote.
    pub span: Span,
    /// Between the quotes.
    pub value: Span,
}

/// Where the opening quote of an attribute at the front stands, and how long its value is.
#[derive(Clone, Copy)]
pub(crate) struct Extent {
    pub(crate) quote: usize,
    pub(crate) value: usize,
}

/// The name that a part of a tag begins with.
#[tactic(auto, unfolding(crate::specs::Tags::written_name))]
pub(crate) fn written_name(bytes: &[u8]) -> &[u8]
    ensures { result.now ≡ written_name bytes.now }
{
    &bytes[..name_end(bytes)]
}

/// The name of a start tag or an empty-element tag.
pub fn start_name(bytes: &[u8]) -> &[u8]
    ensures { result.now ≡ start_name bytes.now }
{
    if bytes.is_empty() {
        return written_name(&[]);
    }
    written_name(&bytes[1..])
}

/// The name of an end tag.
pub(crate) fn end_name(bytes: &[u8]) -> &[u8]
    ensures { result.now ≡ end_name bytes.now }
{
    if bytes.len() < 2 {
        return written_name(&[]);
    }
    written_name(&bytes[2..])
}

/// The extent of the attribute at the front, if there is one.
pub(crate) fn attribute_extent(bytes: &[u8]) -> Option<Extent>
    ensures { MatchOption result (begins_attribute bytes.now ≡ false) (λ e. (begins_attribute bytes.now ≡ true)
        × (e.quote ≡ quote_place bytes.now) × (e.value ≡ value_len bytes.now) × (e.quote + e.value + 2 ≤ length bytes.now)) }
{
    if bytes.is_empty() {
        return None;
    }
    if is_between(bytes[0]) {
        return None;
    }
    let quote = quote_place(bytes);
    if quote == bytes.len() {
        return None;
    }
    let rest = &bytes[quote + 1..];
    let value = byte_place(rest, bytes[quote]);
    if value == rest.len() {
        return None;
    }
    Some(Extent { quote, value })
}

/// A copy of the bytes.
pub(crate) fn copy_of(alloc: Global, bytes: &[u8]) -> Result<Bytes, NoMemory>
    ensures { IfOk result (λ copied. copied ≡ bytes.now) }
{
    // Most names have no namespace: nothing is copied sooner than a slice.
    if bytes.is_empty() {
        return Ok(Bytes::new(alloc));
    }
    Ok(Bytes::from_vec(Vec::from_slice(alloc, bytes)?))
}

/// A copy of the bytes, in this memory.
pub(crate) fn copy_in(memory: Vec<u8>, bytes: &[u8]) -> Result<Bytes, NoMemory>
    ensures { IfOk result (λ copied. copied ≡ bytes.now) }
{
    let mut copied = memory;
    few_bytes::fill(&mut copied, bytes)?;
    Ok(Bytes::from_vec(copied))
}

// The attribute at the front, which has this extent and begins at the place `at`.
#[tactic(auto, unfolding(crate::specs::Tags::attribute_at, crate::specs::Tags::attribute_len, crate::specs::Tags::written_value))]
fn attribute_at(
    alloc: Global,
    at: usize,
    bytes: &[u8],
    extent: Extent,
) -> Result<Attribute, NoMemory>
    requires quote { extent.quote ≡ quote_place bytes.now }
    requires value { extent.value ≡ value_len bytes.now }
    requires inside { extent.quote + extent.value + 2 ≤ length bytes.now }
    requires room { at + length bytes.now < 2 ^ 64 }
    ensures { IfOk result (λ it. it ≡ attribute_at at bytes.now) }
{
    let from = extent.quote + 1;
    let to = from + extent.value;
    Ok(Attribute {
        name: WrittenName::of(alloc, written_name(bytes))?,
        string: string_of(alloc, Reading::Value, &bytes[from..to])?,
        span: Span {
            from: at,
            to: at + to + 1,
        },
        value: Span {
            from: at + from,
            to: at + to,
        },
    })
}

// Adds the attribute at the front, if there is one, and says how many bytes were passed.
#[tactic(auto, unfolding(crate::specs::Tags::front_attribute, crate::specs::Tags::front_len, crate::specs::Tags::attribute_len))]
fn push_front(
    alloc: Global,
    out: &mut Vec<Attribute>,
    at: usize,
    bytes: &[u8],
) -> Result<usize, NoMemory>
    requires some { 0 < length bytes.now }
    requires room { at + length bytes.now < 2 ^ 64 }
    ensures pushed { OnOk result (out.new.items ≡ out.old.items ++ front_attribute at bytes.now) }
    ensures passed { IfOk result (λ n. n ≡ front_len bytes.now) }
    ensures positive { IfOk result (λ n. 0 < n) }
    ensures bound { IfOk result (λ n. n ≤ length bytes.now) }
{
    match attribute_extent(bytes) {
        None => Ok(1),
        Some(extent) => {
            out.push(attribute_at(alloc, at, bytes, extent)?)?;
            Ok(extent.quote + extent.value + 2)
        }
    }
}

// The attributes in bytes that begin at the place `at`.
fn attributes_from(alloc: Global, at: usize, bytes: &[u8]) -> Result<Vec<Attribute>, NoMemory>
    requires { at + length bytes.now < 2 ^ 64 }
    ensures { IfOk result (λ all. all.items ≡ attributes_from 0 at bytes.now) }
{
    let mut out = Vec::new(alloc);
    let mut at = at;
    let mut rest = bytes;
    while !rest.is_empty() {
        let n = push_front(alloc, &mut out, at, rest)?;
        at += n;
        rest = &rest[n..];
    }
    Ok(out)
}

/// Whether nothing but white space, `/` and `>` is there.
pub(crate) fn are_between(bytes: &[u8]) -> bool
    ensures { result ≡ list_all is_between bytes.now }
{
    bytes.iter().all(|b| is_between(*b))
}

/// Whether a tag is a name alone, as most are: then it has no attributes.
pub(crate) fn is_name_alone(bytes: &[u8]) -> bool
    ensures { result ≡ true → (at : ℕ) → tag_attributes at bytes.now ≡ [] }
{
    if bytes.is_empty() {
        return true;
    }
    let n = 1 + name_end(&bytes[1..]);
    are_between(&bytes[n..])
}

/// The name of a tag that is `<`, a plain name and `>`, as most start tags are. One look at its bytes tells that.
pub(crate) fn plain_tag_name(bytes: &[u8]) -> Option<&[u8]>
    ensures { IfSome result (λ name. IsPlainTag bytes.now name.now) }
{
    let len = bytes.len();
    if len < 2 || bytes[0] != b'<' || bytes[len - 1] != b'>' {
        return None;
    }
    let name = &bytes[1..len - 1];
    if is_plain_name(name) {
        Some(name)
    } else {
        None
    }
}

// Whether N bytes from this place on are the same, and all of them behind `>` in ASCII, as letters are, so that none ends a name.
#[inline(always)]
fn are_same_lanes<const N: usize>(a: &[u8], b: &[u8], at: usize) -> bool
    requires lanes { N ≤ 64 }
    requires inside { at + N ≤ length a.now }
    requires inside_other { at + N ≤ length b.now }
    ensures { OnTrue result (IsSameName a.now b.now at (at + N)) }
{
    lanes::are_same::<N>(a, b, at) & lanes::are_high::<N>(a, at)
}

// Whether the two are the same bytes, all behind `>` in ASCII, where two loads tell that, as of most names.
#[inline(always)]
fn are_same_high(a: &[u8], b: &[u8]) -> bool
    requires { length a.now ≡ length b.now }
    ensures { OnTrue result (IsSameName a.now b.now 0 (length a.now)) }
{
    let len = a.len();
    if len < 4 || len > 16 {
        false
    } else if len < 8 {
        are_same_lanes::<4>(a, b, 0) & are_same_lanes::<4>(a, b, len - 4)
    } else {
        are_same_lanes::<8>(a, b, 0) & are_same_lanes::<8>(a, b, len - 8)
    }
}

// Whether the two are the same bytes, none of which ends a name.
#[inline(always)]
fn are_same_name(a: &[u8], b: &[u8]) -> bool
    ensures same { result ≡ true → a.now ≡ b.now }
    ensures name { result ≡ true → (k : ℕ) → k < length a.now → ends_name (slice_index a.now k) ≡ false }
{
    if a.len() != b.len() {
        return false;
    }
    are_same_high(a, b) || are_same_by_bytes(a, b)
}

// Whether the two are the same bytes, none of which ends a name, byte by byte.
fn are_same_by_bytes(a: &[u8], b: &[u8]) -> bool
    requires { length a.now ≡ length b.now }
    ensures { OnTrue result (IsSameName a.now b.now 0 (length a.now)) }
{
    for (i, byte) in a.iter().enumerate() {
        if *byte != b[i] || ends_name(*byte) {
            return false;
        }
    }
    true
}

/// Whether an end tag is `</`, this name and `>`, as most are that end an element of this name. One look at its bytes tells that.
pub(crate) fn is_end_tag_of(name: &[u8], bytes: &[u8]) -> bool
    ensures { result ≡ true → name.now ≡ end_name bytes.now }
{
    let len = bytes.len();
    if len < 3 || bytes[len - 1] != b'>' {
        return false;
    }
    are_same_name(name, &bytes[2..len - 1])
}

/// The attributes of a tag that begins at the place `at`.
pub(crate) fn tag_attributes(
    alloc: Global,
    at: usize,
    bytes: &[u8],
) -> Result<Vec<Attribute>, NoMemory>
    requires { at + length bytes.now < 2 ^ 64 }
    ensures { IfOk result (λ all. all.items ≡ tag_attributes at bytes.now) }
{
    if bytes.is_empty() {
        return Ok(Vec::new(alloc));
    }
    let n = 1 + name_end(&bytes[1..]);
    let all = attributes_from(alloc, at + n, &bytes[n..])?;
    Ok(all)
}
