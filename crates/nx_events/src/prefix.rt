//! The text of a tag up to a place inside of it: what is being written there, and what the tag says so far. Completion asks this.

ghost use Rattle.std.specs.Prelude.{◌≡◌, ◌<◌, ◌^◌, true, length, IfOk, codes, IsUtf8};
ghost use Rattle.nx_base.specs.Tokens.{begins_with};
ghost use Rattle.nx_events.specs.Items.{own_bindings};
ghost use Rattle.nx_events.specs.Prefixes.{innermost_name, as_token, items_so_far, name_behind, run_string, IsPrefix};

use crate::element::new_name;
use crate::item::Items;
use crate::namespace::declarations;
use crate::place::{PlaceInTag, place_in_tag};
use crate::scope::Bindings;
use crate::start_tag::push_open;
use crate::state::{EventState, OpenElement};
use crate::tag::{copy_of, tag_attributes};
use nx_base::memory::NoMemory;
use nx_base::name::Name;
use nx_base::sequence::Bytes;
use nx_base::token::{Token, TokenKind};
use std::alloc::Global;

/// What is being written at a place inside of a tag.
#[derive(Drop)]
pub enum TagPrefix {
    /// An element's name: `<`, and characters of names or nothing.
    ElementName,
    /// The name of an end tag: `</`, and characters of names or nothing. The written name of the innermost open element,
    /// empty where none is open.
    EndName(Bytes),
    /// An attribute's name: `<`, a name, whole attributes, white space, and characters of names or nothing. The items of
    /// the tag before that name, without those of the run before the tag.
    AttributeName(Items),
    /// An attribute's value: the same, with a whole name, `=`, a quote and a part of the value. The same items, and the
    /// attribute's name; none where it is a declaration, its name isn't resolved, or came before.
    AttributeValue(Items, Option<Name>),
    /// Anything else.
    Elsewhere,
}

/// The string of the text run that is pending. None where no run is pending, or its string is empty.
pub fn run_of(state: &EventState) -> Result<Option<Bytes>, NoMemory>
    ensures { IfOk result (λ string. string ≡ run_string state.now.run) }
{
    match state.run.get() {
        None => Ok(None),
        Some(run) => {
            if run.string.is_empty() {
                Ok(None)
            } else {
                Ok(Some(run.string.to_bytes()?))
            }
        }
    }
}

// The written name of the innermost open element, and nothing where none is open.
fn innermost_name(elements: &[OpenElement]) -> &[u8]
    ensures { result.now ≡ innermost_name elements.now }
{
    match elements.last() {
        None => &[],
        Some(element) => element.written.as_slice(),
    }
}

/// The written name of the innermost open element, and nothing where none is open.
pub fn innermost(state: &EventState) -> &[u8]
    ensures { result.now ≡ innermost_name state.now.elements }
{
    innermost_name(state.elements.as_slice())
}

// An open tag as a token of its own.
fn as_token(alloc: Global, tag: &[u8]) -> Result<Token, NoMemory>
    ensures token { IfOk result (λ token. token ≡ as_token tag.now) }
    ensures room { IfOk result (λ token. length token.bytes < 2 ^ 64) }
{
    Ok(Token {
        kind: TokenKind::Start,
        from: 0,
        bytes: copy_of(alloc, tag)?,
    })
}

/// The items of an open tag, whose places are counted from its `<`.
pub fn items_so_far(alloc: Global, state: &EventState, tag: &[u8]) -> Result<Items, NoMemory>
    ensures { IfOk result (λ items. items ≡ items_so_far state.now tag.now) }
{
    let token = as_token(alloc, tag)?;
    let mut items = Items::new(alloc);
    push_open(alloc, &mut items, state, &token)?;
    Ok(items)
}

// The items of an open tag, and the name of an attribute behind it.
fn value_prefix(
    alloc: Global,
    state: &EventState,
    tag: &[u8],
    written: &[u8],
) -> Result<TagPrefix, NoMemory>
    ensures { IfOk result (λ prefix. prefix
        ≡ TagPrefix.AttributeValue (items_so_far state.now tag.now) (name_behind state.now tag.now written.now)) }
{
    let token = as_token(alloc, tag)?;
    let mut items = Items::new(alloc);
    let mut opening = push_open(alloc, &mut items, state, &token)?;
    let name = new_name(
        alloc,
        &state.scope,
        &opening.own,
        &mut opening.kept,
        written,
    )?;
    Ok(TagPrefix::AttributeValue(items, name))
}

/// What is being written at the end of these bytes, which are the text of a tag from its `<` on, and what the tag says
/// so far, its places counted from that `<`. A tag's declarations count as far as they are written.
pub fn tag_prefix(alloc: Global, state: &EventState, bytes: &Bytes) -> Result<TagPrefix, NoMemory>
    requires begins { begins_with (codes "<") bytes.now ≡ true }
    requires text { IsUtf8 bytes.now }
    ensures { IfOk result (IsPrefix state.now bytes.now) }
{
    let text = bytes.as_slice();
    match place_in_tag(text) {
        PlaceInTag::ElementName => Ok(TagPrefix::ElementName),
        PlaceInTag::EndName => {
            let written = copy_of(alloc, innermost_name(state.elements.as_slice()))?;
            Ok(TagPrefix::EndName(written))
        }
        PlaceInTag::AttributeName(tag) => {
            let items = items_so_far(alloc, state, &text[..tag])?;
            Ok(TagPrefix::AttributeName(items))
        }
        PlaceInTag::AttributeValue(tag, name) => {
            value_prefix(alloc, state, &text[..tag], &text[tag..tag + name])
        }
        PlaceInTag::Elsewhere => Ok(TagPrefix::Elsewhere),
    }
}

/// The pairs that an open tag declares so far.
pub fn declared_so_far(alloc: Global, tag: &[u8]) -> Result<Bindings, NoMemory>
    ensures { IfOk result (λ own. own ≡ own_bindings (as_token tag.now)) }
{
    let attributes = tag_attributes(alloc, 0, tag)?;
    let mut items = Items::new(alloc);
    let own = declarations(alloc, &mut items, attributes.as_slice())?;
    Ok(own)
}
