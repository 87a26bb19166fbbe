//! The document element of a text.

ghost use Rattle.std.specs.Prelude.{◌≡◌, ◌≤◌, drop, length, IfOk};
ghost use Rattle.std.specs.List.{position_or_len};
ghost use Rattle.nx_events.specs.Names.{is_colon, prefix_of, local_of};
ghost use Rattle.nx_events.specs.Tags.{start_name, ends_name};
ghost use Rattle.nx_locate.specs.DocumentElements.{element_at, FirstElement, HasDocumentElement};
ghost use Rattle.nx_locate.specs.ElementsFound.{IsElement};

use crate::pattern::bytes_of;
use nx_base::character::is_space;
use nx_base::memory::NoMemory;
use nx_base::name::Name;
use nx_base::sequence::{Bytes, TryCopy};
use nx_base::steps::Steps;
use nx_events::item::{Event, Item};
use nx_events::reader::{begin, take};
use nx_scan::border::{tokens_fit, tokens_go_on};
use nx_scan::scan::scan_token;
use nx_text::text::Text;
use std::alloc::Global;
use std::sync::ledger::Ledger;

/// What rules ask of a document element. Its name is the one that is written in its tag.
#[derive(Drop)]
pub struct DocumentElement {
    /// The prefix; empty where there is none.
    pub prefix: Bytes,
    /// The local part.
    pub local: Bytes,
    /// The namespace; empty where there is none.
    pub namespace: Bytes,
}

/// Whether the byte may stand behind a name in a tag.
#[tactic(auto, unfolding(nx_base::specs::Characters::is_space))]
fn ends_name(byte: u8) -> bool
    ensures { result ≡ ends_name byte }
{
    is_space(char::from(byte)) || byte == b'/' || byte == b'>' || byte == b'='
}

/// The name that is written in the start tag at that byte offset of the text.
fn start_name(alloc: Global, text: &Text, from: usize) -> Result<Bytes, NoMemory>
    ensures { IfOk result (λ name. name ≡ start_name (drop from text.now)) }
{
    let mut name = Bytes::new(alloc);
    let Some(_mark) = text.byte_at(from) else {
        return Ok(name);
    };
    let mut at = from + 1;
    while let Some(byte) = text.byte_at(at) {
        if ends_name(byte) {
            return Ok(name);
        }
        name.push(byte)?;
        at += 1;
    }
    Ok(name)
}

/// Where the first colon stands, or the length.
fn colon_place(name: &[u8]) -> usize
    ensures value { result ≡ position_or_len is_colon name.now }
    ensures bound { result ≤ length name.now }
{
    name.iter().take_while(|byte| **byte != b':').count()
}

/// What stands before the first colon; nothing where there is none.
#[tactic(auto, unfolding(nx_events::specs::Names::prefix_of))]
fn prefix_of(name: &[u8]) -> &[u8]
    ensures { result.now ≡ prefix_of name.now }
{
    let place = colon_place(name);
    if place < name.len() {
        &name[..place]
    } else {
        &[]
    }
}

/// What stands behind the first colon; all where there is none.
#[tactic(auto, unfolding(nx_events::specs::Names::local_of))]
fn local_of(name: &[u8]) -> &[u8]
    ensures { result.now ≡ local_of name.now }
{
    let place = colon_place(name);
    if place < name.len() {
        &name[place + 1..]
    } else {
        name
    }
}

/// What is known of the element with this name whose tag begins at that byte offset of the text.
fn element_at(
    alloc: Global,
    text: &Text,
    name: &Name,
    from: usize,
) -> Result<DocumentElement, NoMemory>
    ensures { IfOk result (λ element. element ≡ element_at text.now name.now from) }
{
    let written = start_name(alloc, text, from)?;
    Ok(DocumentElement {
        prefix: bytes_of(alloc, prefix_of(written.as_slice()))?,
        local: bytes_of(alloc, local_of(written.as_slice()))?,
        namespace: name.ns.copy()?,
    })
}

/// The element that begins with this item of the text.
fn element_of(alloc: Global, text: &Text, item: &Item) -> Result<Option<DocumentElement>, NoMemory>
    ensures { IfOk result (IsElement text.now item.now) }
{
    match item {
        Item::Event(Event::Enter(name), span) => {
            let element = element_at(alloc, text, name, span.from)?;
            Ok(Some(element))
        }
        Item::Event(Event::EnterLost, _) => Ok(None),
        Item::Event(Event::Att(_, _), _) => Ok(None),
        Item::Event(Event::TagEnd, _) => Ok(None),
        Item::Event(Event::Chars(_), _) => Ok(None),
        Item::Event(Event::Leave, _) => Ok(None),
        Item::Fault(_) => Ok(None),
    }
}

/// The first element among these items of the text that isn't lost.
fn first_element(
    alloc: Global,
    text: &Text,
    items: &[Item],
) -> Result<Option<DocumentElement>, NoMemory>
    ensures { IfOk result (FirstElement text.now items.now) }
{
    for item in items {
        let found = element_of(alloc, text, item)?;
        if found.is_some() {
            return Ok(found);
        }
    }
    Ok(None)
}

/// The document element of a text: that of the first start tag or empty-element tag whose element isn't lost. The text is read
/// up to there.
pub(crate) fn document_element<L: Ledger>(
    alloc: Global,
    text: &Text,
    steps: &mut Steps<L>,
) -> Result<Option<DocumentElement>, NoMemory>
    ensures element { IfOk result (HasDocumentElement text.now) }
    ensures steps { steps.old ≤ steps.new }
{
    tokens_fit();
    tokens_go_on();
    let len = text.len();
    let mut state = begin(alloc)?;
    let mut at = 0;
    while at < len {
        let Some(token) = scan_token(alloc, text, at, steps)? else {
            return Ok(None);
        };
        let items = take(alloc, &mut state, &token)?;
        let found = first_element(alloc, text, items.as_slice())?;
        if found.is_some() {
            return Ok(found);
        }
        at += token.bytes.len();
    }
    Ok(None)
}
