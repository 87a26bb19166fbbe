//! Reads texts, and what their tokens give. All of this is for tests.

ghost use Rattle.std.specs.Prelude.{◌≡◌, ◌<◌, ◌≤◌, ◌⊎◌, IfOk};
ghost use Rattle.nx_base.specs.Text.{IsPlace};
ghost use Rattle.nx_tags.specs.Parts.{IsKnownAt};
ghost use Rattle.nx_tags.specs.Reading.{IsRead};

use nx_base::fault::{Fault, Kind};
use nx_base::name::Name;
use nx_base::sequence::Bytes;
use nx_base::steps::Steps;
use nx_base::token::TokenKind;
use nx_events::{Event, EventState, Item, Items, begin, depth, finish, take};
use nx_scan::scan::scan_token;
use nx_text::text::Text;
use std::alloc::Global;
use std::sync::ledger::Ledger;
use std::test::Fail;

/// A border of tokens, and what is known there.
#[derive(Drop)]
pub(crate) struct Border {
    pub(crate) place: usize,
    pub(crate) state: EventState,
}

/// A token that was read, and what it gives.
#[derive(Drop)]
pub(crate) struct Passed {
    pub(crate) kind: TokenKind,
    pub(crate) from: usize,
    pub(crate) to: usize,
    pub(crate) bytes: Bytes,
    pub(crate) items: Items,
    /// How many elements are open behind it.
    pub(crate) depth: usize,
}

/// A text that was read: its tokens, and what its end gives.
#[derive(Drop)]
pub(crate) struct Reading {
    pub(crate) tokens: Vec<Passed>,
    pub(crate) end: Items,
}

/// A text with these words.
pub(crate) fn text_of(alloc: Global, words: &str) -> Result<Text, Fail> {
    let mut text = Text::new(alloc);
    text.insert(0, words)?;
    Ok(text)
}

/// The bytes as words.
pub(crate) fn words_in(bytes: &[u8]) -> &str {
    match str::from_utf8(bytes) {
        Ok(words) => words,
        Err(_) => "no text",
    }
}

/// Whether there is a fault among items.
pub(crate) fn has_fault(items: &Items) -> bool {
    items
        .as_slice()
        .iter()
        .any(|item| matches!(item, Item::Fault(_)))
}

/// Whether there is an end tag among items that is missing or names no open element.
pub(crate) fn breaks_nesting(items: &Items) -> bool {
    items.as_slice().iter().any(|item| match item {
        Item::Fault(fault) => matches!(fault.kind, Kind::MissingEnd | Kind::ExtraEnd),
        Item::Event(_, _) => false,
    })
}

/// Writes a fault as the table has it.
pub(crate) fn tell_fault(told: &mut String, fault: &Fault) -> Result<(), Fail> {
    if !told.as_str().is_empty() {
        told.push_str("; ")?;
    }
    write!(
        told,
        "{}-{} {:?}",
        fault.span.from, fault.span.to, fault.kind
    )?;
    if !fault.detail.is_empty() {
        told.push(' ')?;
        let (front, end) = fault.detail.pieces();
        told.push_str(words_in(front))?;
        told.push_str(words_in(end))?;
    }
    Ok(())
}

fn tell_name(told: &mut String, word: &str, name: &Name) -> Result<(), Fail> {
    told.push_str(word)?;
    told.push_str(words_in(name.ns.as_slice()))?;
    told.push(' ')?;
    told.push_str(words_in(name.local.as_slice()))?;
    told.push_str("; ")?;
    Ok(())
}

/// Writes a string.
pub(crate) fn tell_chars(told: &mut String, text: &[u8]) -> Result<(), Fail> {
    told.push_str("chars ")?;
    told.push_str(words_in(text))?;
    told.push_str("; ")?;
    Ok(())
}

fn tell_event(told: &mut String, event: &Event) -> Result<(), Fail> {
    match event {
        Event::Enter(name) => tell_name(told, "enter ", name),
        Event::EnterLost => Ok(told.push_str("lost; ")?),
        Event::Att(name, _) => tell_name(told, "att ", name),
        Event::TagEnd => Ok(told.push_str("end; ")?),
        Event::Chars(text) => tell_chars(told, text.as_slice()),
        Event::Leave => Ok(told.push_str("leave; ")?),
    }
}

/// Writes what a token gives: each item with its name or string, but without its place. Where the token is renamed, its element has the name `q`.
pub(crate) fn tell(told: &mut String, items: &Items, renamed: bool) -> Result<(), Fail> {
    for item in items.as_slice() {
        match item {
            Item::Fault(fault) => write!(told, "{:?}; ", fault.kind)?,
            Item::Event(Event::Enter(_), _) if renamed => told.push_str("enter  q; ")?,
            Item::Event(event, _) => tell_event(told, event)?,
        }
    }
    Ok(())
}

/// What is known behind the tokens that end at a place or before. They are added.
pub(crate) fn read_to<L: Ledger>(
    alloc: Global,
    text: &Text,
    to: usize,
    tokens: &mut Vec<Passed>,
    steps: &mut Steps<L>,
) -> Result<Border, Fail>
    ensures read { IfOk result (λ border. IsRead text.now border.place border.state) }
    ensures before { IfOk result (λ border. border.place ≤ to) }
{
    let _len = text.len();
    let mut state = begin(alloc)?;
    let mut place: usize = 0;
    while place < to {
        let Some(token) = scan_token(alloc, text, place, steps)? else {
            return Ok(Border { place, state });
        };
        let end = place + token.bytes.len();
        if end > to {
            return Ok(Border { place, state });
        }
        let items = take(alloc, &mut state, &token)?;
        tokens.push(Passed {
            kind: token.kind,
            from: place,
            to: end,
            bytes: token.bytes,
            items,
            depth: depth(&state),
        })?;
        place = end;
    }
    Ok(Border { place, state })
}

/// The last border that stands so many bytes in front of the place or more, and what is known there.
pub(crate) fn mark_before<L: Ledger>(
    alloc: Global,
    text: &Text,
    at: usize,
    back: usize,
    steps: &mut Steps<L>,
) -> Result<Border, Fail>
    requires { 0 < back }
    ensures before { IfOk result (λ border. (border.place < at) ⊎ (border.place ≡ 0)) }
    ensures known { IfOk result (λ border. IsKnownAt text.now border.place border.state) }
{
    let _len = text.len();
    let mut tokens = Vec::new(alloc);
    let to = at.saturating_sub(back);
    let border = read_to(alloc, text, to, &mut tokens, steps)?;
    Ok(border)
}

/// The tokens of a text, and what they and its end give.
pub(crate) fn reading_of<L: Ledger>(
    alloc: Global,
    words: &str,
    steps: &mut Steps<L>,
) -> Result<Reading, Fail> {
    let text = text_of(alloc, words)?;
    let mut tokens = Vec::new(alloc);
    let border = read_to(alloc, &text, text.len(), &mut tokens, steps)?;
    let end = finish(alloc, &border.state, border.place)?;
    Ok(Reading { tokens, end })
}

/// The faults of what was read, as the table has them.
pub(crate) fn faults_told(alloc: Global, reading: &Reading) -> Result<String, Fail> {
    let mut told = String::new(alloc);
    for token in &reading.tokens {
        tell_faults(&mut told, &token.items)?;
    }
    tell_faults(&mut told, &reading.end)?;
    Ok(told)
}

fn tell_faults(told: &mut String, items: &Items) -> Result<(), Fail> {
    for item in items.as_slice() {
        if let Item::Fault(fault) = item {
            tell_fault(told, fault)?;
        }
    }
    Ok(())
}

/// The tokens of what was read, and what they and its end give, where the token at a place is renamed.
pub(crate) fn told_renamed(alloc: Global, reading: &Reading, at: usize) -> Result<String, Fail> {
    let mut told = String::new(alloc);
    for token in &reading.tokens {
        tell_token(&mut told, token.kind, token.from, token.to)?;
        tell(&mut told, &token.items, token.from == at)?;
    }
    tell(&mut told, &reading.end, false)?;
    Ok(told)
}

/// Writes a token's kind and places.
pub(crate) fn tell_token(
    told: &mut String,
    kind: TokenKind,
    from: usize,
    to: usize,
) -> Result<(), Fail> {
    write!(told, "{kind:?} {from} {to}; ")?;
    Ok(())
}
