//! Tokens as events and faults, one after another.

ghost use Rattle.std.specs.Prelude.{◌≡◌, ◌+◌, ◌<◌, ◌≤◌, ◌^◌, ◌++◌, [], length, is_some, IfOk, OnOk, OnErr};
ghost use Rattle.nx_events.specs.Runs.{run_back};
ghost use Rattle.nx_events.specs.Items.{first_state, items_of_token, start_items, own_bindings, declared_in, state_behind, items_at_end};
ghost use Rattle.nx_events.specs.Texts.{TokenIsText, StateIsText, ItemsAreText};

use crate::character_fault::push_bare;
use crate::end_tag::{end, push_end};
use crate::item::Items;
use crate::nesting::push_all_left_out;
use crate::other_token::{pass_other, push_other};
use crate::reading::Reading;
use crate::scope::Bindings;
use crate::stack::Stack;
use crate::start_tag::{empty, open, push_empty, push_start};
use crate::state::{EventState, Pending, push_run};
use crate::text_token::{cdata_content, join, push_cdata, push_text};
use nx_base::fault::{Kind, Span};
use nx_base::memory::NoMemory;
use nx_base::sequence::TryCopy;
use nx_base::token::{Token, TokenKind};
use std::alloc::Global;

/// Nothing read.
pub fn begin(alloc: Global) -> Result<EventState, NoMemory>
    ensures { IfOk result (λ state. state ≡ first_state) }
{
    Ok(EventState {
        elements: Stack::new(alloc),
        scope: Bindings::new(alloc),
        came: false,
        doctype: false,
        started: false,
        run: Pending::new(alloc),
    })
}

/// What a token declares for the tokens behind it, as `read` answers it to `pass_token`.
#[derive(Drop)]
pub struct Declared {
    pub(crate) own: Bindings,
}

// That a token declares nothing.
fn nothing_declared(alloc: Global) -> Declared
    ensures { result.own ≡ [] }
{
    Declared {
        own: Bindings::new(alloc),
    }
}

// Adds the items of a start tag.
fn read_start(
    alloc: Global,
    items: &mut Items,
    state: &EventState,
    token: &Token,
) -> Result<Declared, NoMemory>
    requires place { run_back state.now.run ≤ token.now.from }
    requires room { token.now.from + length token.now.bytes < 2 ^ 64 }
    ensures items { OnOk result (items.new ≡ items.old ++ start_items state.now token.now) }
    ensures declared { IfOk result (λ declared. declared.own ≡ own_bindings token.now) }
{
    let own = push_start(alloc, items, state, token)?;
    Ok(Declared { own })
}

// Adds the items of one more token to a list.
#[tactic(auto, unfolding(crate::specs::Items::items_of_token))]
fn read_by_kind(
    alloc: Global,
    items: &mut Items,
    state: &EventState,
    token: &Token,
) -> Result<Declared, NoMemory>
    requires place { run_back state.now.run ≤ token.now.from }
    requires room { token.now.from + length token.now.bytes < 2 ^ 64 }
    ensures items { OnOk result (items.new ≡ items.old ++ items_of_token state.now token.now) }
    ensures declared { IfOk result (λ declared. declared.own ≡ declared_in token.now) }
{
    match token.kind {
        TokenKind::Start => return read_start(alloc, items, state, token),
        TokenKind::Bom => {}
        TokenKind::Text => push_text(items, state, token)?,
        TokenKind::Cdata => push_cdata(items, state, token)?,
        TokenKind::Empty => push_empty(alloc, items, state, token)?,
        TokenKind::End => push_end(alloc, items, state, token)?,
        TokenKind::Decl => push_other(items, state, token)?,
        TokenKind::Doctype => push_other(items, state, token)?,
        TokenKind::Comment => push_other(items, state, token)?,
        TokenKind::Pi => push_other(items, state, token)?,
        TokenKind::Bad => push_other(items, state, token)?,
        TokenKind::Unclosed => push_other(items, state, token)?,
    }
    Ok(nothing_declared(alloc))
}

/// Adds the items of one more token to a list, and answers what the token declares. The state stays. Where it is
/// refused, the list may have some of the items.
pub fn read(
    alloc: Global,
    items: &mut Items,
    state: &EventState,
    token: &Token,
) -> Result<Declared, NoMemory>
    // The pending run begins at a place of the text, and the token ends at one.
    requires place { run_back state.now.run ≤ token.now.from }
    requires room { token.now.from + length token.now.bytes < 2 ^ 64 }
    ensures items { OnOk result (items.new ≡ items.old ++ items_of_token state.now token.now) }
    ensures declared { IfOk result (λ declared. declared.own ≡ declared_in token.now) }
    // Names, strings and details are UTF-8 where the token and the state are.
    ensures text { TokenIsText token.now → StateIsText state.now → ItemsAreText items.old → OnOk result (ItemsAreText items.new) }
{
    let declared = read_by_kind(alloc, items, state, token)?;
    Ok(declared)
}

// The state behind a token that declares this, by its kind.
#[tactic(auto, unfolding(crate::specs::Items::state_behind))]
fn pass_by_kind(state: &mut EventState, token: &Token, declared: &Declared) -> Result<(), NoMemory>
    requires place { run_back state.old.run ≤ token.now.from }
    requires room { token.now.from + length token.now.bytes < 2 ^ 64 }
    requires declared { declared.now.own ≡ declared_in token.now }
    ensures state { OnOk result (state.new ≡ state_behind state.old token.now) }
    ensures unchanged { OnErr result (state.new ≡ state.old) }
{
    let bytes = token.bytes.as_slice();
    match token.kind {
        TokenKind::Bom => state.run.pass(token.bytes.len()),
        TokenKind::Text => join(state, token, Reading::Text, bytes)?,
        TokenKind::Cdata => join(state, token, Reading::Plain, cdata_content(bytes))?,
        TokenKind::Start => open(state, token, declared.own.as_slice())?,
        TokenKind::Empty => empty(state),
        TokenKind::End => end(state, token),
        TokenKind::Decl => pass_other(state, token),
        TokenKind::Doctype => pass_other(state, token),
        TokenKind::Comment => pass_other(state, token),
        TokenKind::Pi => pass_other(state, token),
        TokenKind::Bad => pass_other(state, token),
        TokenKind::Unclosed => pass_other(state, token),
    }
    Ok(())
}

/// Brings the state behind a token that declares this, as `read` answered it. Where it is refused, the state is as
/// before.
pub fn pass_token(
    alloc: Global,
    state: &mut EventState,
    token: &Token,
    declared: &Declared,
) -> Result<(), NoMemory>
    requires place { run_back state.old.run ≤ token.now.from }
    requires room { token.now.from + length token.now.bytes < 2 ^ 64 }
    requires declared { declared.now.own ≡ declared_in token.now }
    ensures state { OnOk result (state.new ≡ state_behind state.old token.now) }
    ensures unchanged { OnErr result (state.new ≡ state.old) }
    ensures text { TokenIsText token.now → StateIsText state.old → StateIsText state.new }
{
    // What is open or in force takes its memory from where it did before.
    let _ = alloc;
    pass_by_kind(state, token, declared)?;
    Ok(())
}

// Adds the items of one more token to a list, and passes it.
fn take_into(
    alloc: Global,
    items: &mut Items,
    state: &mut EventState,
    token: &Token,
) -> Result<(), NoMemory>
    requires place { run_back state.old.run ≤ token.now.from }
    requires room { token.now.from + length token.now.bytes < 2 ^ 64 }
    ensures items { OnOk result (items.new ≡ items.old ++ items_of_token state.old token.now) }
    ensures state { OnOk result (state.new ≡ state_behind state.old token.now) }
    ensures unchanged { OnErr result (state.new ≡ state.old) }
{
    let declared = read(alloc, items, state, token)?;
    pass_token(alloc, state, token, &declared)
}

/// The items of one more token: both halves. Where it is refused, the state is as before.
pub fn take(alloc: Global, state: &mut EventState, token: &Token) -> Result<Items, NoMemory>
    requires place { run_back state.old.run ≤ token.now.from }
    requires room { token.now.from + length token.now.bytes < 2 ^ 64 }
    ensures items { IfOk result (λ items. items ≡ items_of_token state.old token.now) }
    ensures state { OnOk result (state.new ≡ state_behind state.old token.now) }
    ensures unchanged { OnErr result (state.new ≡ state.old) }
    ensures text { TokenIsText token.now → StateIsText state.old → IfOk result ItemsAreText }
    ensures state_text { TokenIsText token.now → StateIsText state.old → StateIsText state.new }
{
    let mut items = Items::new(alloc);
    take_into(alloc, &mut items, state, token)?;
    Ok(items)
}

/// The items of the end of a text of `len` bytes.
pub fn finish(alloc: Global, state: &EventState, len: usize) -> Result<Items, NoMemory>
    requires { run_back state.now.run ≤ len }
    ensures items { IfOk result (λ items. items ≡ items_at_end state.now len) }
    ensures text { StateIsText state.now → IfOk result ItemsAreText }
{
    let items = items_at_end(alloc, state, len)?;
    Ok(items)
}

#[tactic(auto, unfolding(crate::specs::Items::items_at_end))]
fn items_at_end(alloc: Global, state: &EventState, len: usize) -> Result<Items, NoMemory>
    requires { run_back state.now.run ≤ len }
    ensures { IfOk result (λ items. items ≡ items_at_end state.now len) }
{
    let mut items = Items::new(alloc);
    let span = Span { from: len, to: len };
    push_run(&mut items, len, &state.run)?;
    push_all_left_out(
        &mut items,
        Kind::UnclosedElement,
        span,
        state.elements.as_slice(),
    )?;
    if !state.started {
        push_bare(&mut items, Kind::NoRoot, span)?;
    }
    Ok(items)
}

/// Whether a text run is pending.
pub fn pending(state: &EventState) -> bool
    ensures { result ≡ is_some state.now.run }
{
    state.run.get().is_some()
}

/// The number of open elements.
pub fn depth(state: &EventState) -> usize
    ensures { result ≡ length state.now.elements }
{
    state.elements.len()
}

/// An equal state.
pub fn copy(alloc: Global, state: &EventState) -> Result<EventState, NoMemory>
    ensures { IfOk result (λ copied. copied ≡ state.now) }
{
    let _ = alloc;
    Ok(EventState {
        elements: state.elements.copy()?,
        scope: state.scope.copy()?,
        came: state.came,
        doctype: state.doctype,
        started: state.started,
        run: state.run.copy()?,
    })
}
