//! What is being written at the end of a tag's text, which is read from left to right: each step gives what is left behind it.

ghost use Rattle.std.specs.Prelude.{◌≡◌, ◌<◌, ◌≤◌, true, List, ℕ, length, option_copied, codes, IsUtf8};
ghost use Rattle.nx_base.specs.Tokens.{begins_with};
ghost use Rattle.nx_events.specs.TagPlaces.{are_name_chars, after_name, unquoted_len, after_quoted, is_open_value, after_attribute};
ghost use Rattle.nx_events.specs.TagPlaces.{IsLeft, begins_value, end_place, attribute_place, behind_name, start_place, place_in_tag};
ghost use Rattle.nx_events.specs.TagPlaces.{IsPlace};

use crate::declaration::{after_equals, after_some_spaces};
use crate::front::spaces_len;
use crate::reference::{name_chars_len, name_len};
use nx_base::character::is_quote;

/// What is being written. Lengths are bytes.
#[derive(Clone, Copy)]
pub enum PlaceInTag {
    /// An element's name.
    ElementName,
    /// The name of an end tag.
    EndName,
    /// An attribute's name behind an open tag of this length.
    AttributeName(usize),
    /// The value of an attribute behind such a tag, with a name of this length.
    AttributeValue(usize, usize),
    /// None of these.
    Elsewhere,
}

// Whether all characters may stand in a name.
fn are_name_chars(bytes: &[u8]) -> bool
    ensures { result ≡ are_name_chars bytes.now }
{
    name_chars_len(bytes) == bytes.len()
}

// What is left behind a name.
#[tactic(auto, unfolding(crate::specs::TagPlaces::after_name))]
fn after_name(bytes: &[u8]) -> Option<&[u8]>
    ensures { option_copied result ≡ after_name bytes.now }
{
    let len = name_len(bytes);
    if len == 0 { None } else { Some(&bytes[len..]) }
}

// How many bytes at the front are neither this quote nor `<`.
fn unquoted_len(quote: u8, bytes: &[u8]) -> usize
    ensures value { result ≡ unquoted_len quote bytes.now }
    ensures bound { result ≤ length bytes.now }
{
    for (i, b) in bytes.iter().enumerate() {
        if *b == quote || *b == b'<' {
            return i;
        }
    }
    bytes.len()
}

// What is left behind a value in quotes.
#[tactic(auto, unfolding(crate::specs::TagPlaces::after_quoted))]
fn after_quoted(bytes: &[u8]) -> Option<&[u8]>
    ensures { option_copied result ≡ after_quoted bytes.now }
{
    if bytes.is_empty() || !is_quote(char::from(bytes[0])) {
        return None;
    }
    let rest = &bytes[1..];
    let len = unquoted_len(bytes[0], rest);
    if len < rest.len() && rest[len] == bytes[0] {
        Some(&rest[len + 1..])
    } else {
        None
    }
}

// Whether a quote and a part of a value stand here, and nothing else.
#[tactic(auto, unfolding(crate::specs::TagPlaces::is_open_value))]
fn is_open_value(bytes: &[u8]) -> bool
    ensures { result ≡ is_open_value bytes.now }
{
    if bytes.is_empty() || !is_quote(char::from(bytes[0])) {
        return false;
    }
    let rest = &bytes[1..];
    unquoted_len(bytes[0], rest) == rest.len()
}

// What is left behind white space and an attribute.
#[tactic(auto, unfolding(crate::specs::TagPlaces::after_attribute))]
fn after_attribute(bytes: &[u8]) -> Option<&[u8]>
    ensures { option_copied result ≡ after_attribute bytes.now }
{
    let begun = after_some_spaces(bytes)?;
    let named = after_name(begun)?;
    let valued = after_equals(named)?;
    after_quoted(valued)
}

// What is left behind all such attributes at the front.
fn behind_attributes(bytes: &[u8]) -> &[u8]
    ensures { (left : List ℕ) → IsLeft bytes.now left → result.now ≡ left }
{
    let mut rest = bytes;
    while let Some(left) = after_attribute(rest) {
        rest = left;
    }
    rest
}

// Whether a name, `=`, a quote and a part of a value stand here, and nothing else.
#[tactic(auto, unfolding(crate::specs::TagPlaces::begins_value))]
fn begins_value(bytes: &[u8]) -> bool
    ensures { result ≡ begins_value bytes.now }
{
    match after_name(bytes) {
        None => false,
        Some(named) => match after_equals(named) {
            None => false,
            Some(valued) => is_open_value(valued),
        },
    }
}

// The place at the end of an end tag, whose `</` is left out.
fn end_place(name: &[u8]) -> PlaceInTag
    ensures { result ≡ end_place name.now }
{
    if are_name_chars(name) {
        PlaceInTag::EndName
    } else {
        PlaceInTag::Elsewhere
    }
}

// The place at the end of a tag whose attributes end behind so many bytes.
#[tactic(auto, unfolding(crate::specs::TagPlaces::attribute_place))]
fn attribute_place(bytes: &[u8], at: usize) -> PlaceInTag
    requires { at ≤ length bytes.now }
    ensures { result ≡ attribute_place bytes.now at }
{
    let spaces = spaces_len(&bytes[at..]);
    let begun = &bytes[at + spaces..];
    if spaces == 0 {
        PlaceInTag::Elsewhere
    } else if are_name_chars(begun) {
        PlaceInTag::AttributeName(at + spaces)
    } else if begins_value(begun) {
        PlaceInTag::AttributeValue(at + spaces, name_len(begun))
    } else {
        PlaceInTag::Elsewhere
    }
}

// The place at the end of a start tag.
#[tactic(auto, unfolding(crate::specs::TagPlaces::start_place))]
fn start_place(bytes: &[u8]) -> PlaceInTag
    requires { 0 < length bytes.now }
    ensures { (left : List ℕ) → IsLeft (behind_name bytes.now) left → result ≡ start_place bytes.now left }
{
    let rest = &bytes[1..];
    let name = name_len(rest);
    if are_name_chars(rest) {
        PlaceInTag::ElementName
    } else if name == 0 {
        PlaceInTag::Elsewhere
    } else {
        let left = behind_attributes(&rest[name..]);
        attribute_place(bytes, bytes.len().saturating_sub(left.len()))
    }
}

// The place at the end of either tag.
#[tactic(auto, unfolding(crate::specs::TagPlaces::place_in_tag))]
fn either_place(bytes: &[u8]) -> PlaceInTag
    requires { 0 < length bytes.now }
    ensures { (left : List ℕ) → IsLeft (behind_name bytes.now) left → result ≡ place_in_tag bytes.now left }
{
    let rest = &bytes[1..];
    if rest.starts_with(b"/") {
        end_place(&rest[1..])
    } else {
        start_place(bytes)
    }
}

/// The place at the end of a tag's text.
pub fn place_in_tag(bytes: &[u8]) -> PlaceInTag
    requires begins { begins_with (codes "<") bytes.now ≡ true }
    requires text { IsUtf8 bytes.now }
    ensures { IsPlace bytes.now result }
{
    either_place(bytes)
}
