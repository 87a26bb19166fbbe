//! Tokens of which one look tells what they give, as of most: tags whose names have no prefix, with two attributes at most, the end of the
//! innermost element, and characters that stand for themselves. Of these no list of items is made, and no name is copied but to be kept.

ghost use Rattle.std.specs.Prelude.{◌≡◌, ◌≤◌, ◌<◌, ◌+◌, ◌^◌, true, false, length, option_copied, IfOk, OnOk};
ghost use Rattle.nx_base.specs.declared.token.TokenKind.TheVariants as kinds;
ghost use Rattle.nx_events.specs.Items.{items_of_token, state_behind};
ghost use Rattle.nx_events.specs.PlainTokens.{unprefixed_name, element_begun};
ghost use Rattle.nx_events.specs.Prefixes.{run_string};
ghost use Rattle.nx_events.specs.Runs.{run_back};
ghost use Rattle.rngx_read.specs.Marking.{as_start};
ghost use Rattle.rngx_read.specs.PlainWalking.{listed_if, all_attributed, tag_begun};
ghost use Rattle.rngx_read.specs.Walking.{walked_of, behind_all, IsSteady};

use crate::walk::Walk;
use nx_base::memory::NoMemory;
use nx_base::name::Name;
use nx_base::sequence::Bytes;
use nx_base::token::{Token, TokenKind};
use nx_events::item::Items;
use nx_events::plain_opening::{PlainAttributes, plain_opening};
use nx_events::plain_token::{
    add_characters, begin_element, end_innermost, ended_run, is_plain_end, is_plain_text,
    plain_start, put_unprefixed_name,
};
use nx_events::state::EventState;
use std::alloc::Global;
use std::mem;

/// Memory that is used again for one token after another.
#[derive(Drop)]
pub(crate) struct Memory {
    /// The items of a token.
    pub(crate) items: Items,
    /// The name of an element.
    name: Name,
    /// An empty-element tag as a start tag.
    start: Token,
}

impl Memory {
    /// No memory yet.
    pub(crate) fn new(alloc: Global) -> Memory {
        Memory {
            items: Items::new(alloc),
            name: Name {
                ns: Bytes::new(alloc),
                local: Bytes::new(alloc),
            },
            start: Token {
                kind: TokenKind::Start,
                from: 0,
                bytes: Bytes::new(alloc),
            },
        }
    }
}

/// Goes over the attributes of a tag, if it has some.
fn add_attributes(walk: &mut Walk, attributes: Option<&PlainAttributes<'_>>) -> Result<(), NoMemory>
    ensures { OnOk result (walked_of walk.new ≡ all_attributed (listed_if (option_copied attributes.entry)) (walked_of walk.old)) }
{
    let Some(attributes) = attributes else {
        return Ok(());
    };
    walk.attribute(&attributes.first)?;
    if let Some(second) = &attributes.second {
        walk.attribute(second)?;
    }
    Ok(())
}

/// Goes over the run in front of a start tag at the place, and the tag, which is this name and these attributes.
fn open(
    alloc: Global,
    walk: &mut Walk,
    name: &mut Name,
    state: &mut EventState,
    written: &[u8],
    attributes: Option<&PlainAttributes<'_>>,
    at: usize,
) -> Result<(), NoMemory>
    requires { IsSteady (walked_of walk.old) }
    ensures walk { OnOk result (walked_of walk.new ≡ tag_begun (run_string state.old.run) (unprefixed_name state.old.scope written.now) at
        (listed_if (option_copied attributes.entry)) (walked_of walk.old)) }
    ensures state { OnOk result (state.new ≡ element_begun state.old written.now) }
{
    walk.end_run(ended_run(state))?;
    put_unprefixed_name(alloc, name, state, written)?;
    walk.begin(name, at)?;
    add_attributes(walk, attributes)?;
    begin_element(state, written)?;
    Ok(())
}

/// Goes over a start tag, if one look tells what it gives, and answers whether it did. Where it didn't, all is as before.
fn pass_start(
    alloc: Global,
    walk: &mut Walk,
    name: &mut Name,
    state: &mut EventState,
    token: &Token,
) -> Result<bool, NoMemory>
    requires kind { token.now.kind ≡ kinds.Start }
    requires steady { IsSteady (walked_of walk.old) }
    ensures walk { IfOk result (λ passed. passed ≡ true → walked_of walk.new ≡ behind_all (items_of_token state.old token.now) (walked_of walk.old)) }
    ensures state { IfOk result (λ passed. passed ≡ true → state.new ≡ state_behind state.old token.now) }
    ensures same_walk { IfOk result (λ passed. passed ≡ false → walk.new ≡ walk.old) }
    ensures same_state { IfOk result (λ passed. passed ≡ false → state.new ≡ state.old) }
{
    if let Some(written) = plain_start(state, token) {
        open(alloc, walk, name, state, written, None, token.from)?;
        return Ok(true);
    }
    let Some(tag) = plain_opening(state, token) else {
        return Ok(false);
    };
    let attributes = Some(&tag.attributes);
    open(
        alloc,
        walk,
        name,
        state,
        tag.written,
        attributes,
        token.from,
    )?;
    Ok(true)
}

/// Puts the token, as a start tag of the same bytes, in the place of another one.
fn put_start(alloc: Global, start: &mut Token, token: &Token) -> Result<(), NoMemory>
    ensures { OnOk result (start.new ≡ as_start token.now) }
{
    let mut bytes = mem::replace(&mut start.bytes, Bytes::new(alloc)).into_vec();
    bytes.clear();
    bytes.extend_from_slice(token.bytes.as_slice())?;
    start.kind = TokenKind::Start;
    start.from = token.from;
    start.bytes = Bytes::from_vec(bytes);
    Ok(())
}

/// Goes over an empty-element tag, if one look tells what it gives as a start tag, and answers whether it did. Where it didn't, all is as
/// before.
fn pass_empty(
    alloc: Global,
    walk: &mut Walk,
    memory: &mut Memory,
    state: &mut EventState,
    token: &Token,
) -> Result<bool, NoMemory>
    requires kind { token.now.kind ≡ kinds.Empty }
    requires steady { IsSteady (walked_of walk.old) }
    ensures walk { IfOk result (λ passed. passed ≡ true → walked_of walk.new ≡ behind_all (items_of_token state.old token.now) (walked_of walk.old)) }
    ensures state { IfOk result (λ passed. passed ≡ true → state.new ≡ state_behind state.old token.now) }
    ensures same_walk { IfOk result (λ passed. passed ≡ false → walk.new ≡ walk.old) }
    ensures same_state { IfOk result (λ passed. passed ≡ false → state.new ≡ state.old) }
{
    put_start(alloc, &mut memory.start, token)?;
    if !pass_start(alloc, walk, &mut memory.name, state, &memory.start)? {
        return Ok(false);
    }
    walk.end()?;
    end_innermost(state);
    Ok(true)
}

/// Goes over an end tag, if it is that of the innermost element, and answers whether it did. Where it didn't, all is as before.
fn pass_end(walk: &mut Walk, state: &mut EventState, token: &Token) -> Result<bool, NoMemory>
    requires kind { token.now.kind ≡ kinds.End }
    requires steady { IsSteady (walked_of walk.old) }
    ensures walk { IfOk result (λ passed. passed ≡ true → walked_of walk.new ≡ behind_all (items_of_token state.old token.now) (walked_of walk.old)) }
    ensures state { IfOk result (λ passed. passed ≡ true → state.new ≡ state_behind state.old token.now) }
    ensures same_walk { IfOk result (λ passed. passed ≡ false → walk.new ≡ walk.old) }
    ensures same_state { IfOk result (λ passed. passed ≡ false → state.new ≡ state.old) }
{
    if !is_plain_end(state, token) {
        return Ok(false);
    }
    walk.end_run(ended_run(state))?;
    walk.end()?;
    end_innermost(state);
    Ok(true)
}

/// Goes over a token, if one look tells what it gives, and answers whether it did. Where it didn't, all is as before.
pub(crate) fn pass_plain(
    alloc: Global,
    walk: &mut Walk,
    memory: &mut Memory,
    state: &mut EventState,
    token: &Token,
) -> Result<bool, NoMemory>
    requires place { run_back state.old.run ≤ token.now.from }
    requires room { token.now.from + length token.now.bytes < 2 ^ 64 }
    requires steady { IsSteady (walked_of walk.old) }
    ensures walk { IfOk result (λ passed. passed ≡ true → walked_of walk.new ≡ behind_all (items_of_token state.old token.now) (walked_of walk.old)) }
    ensures state { IfOk result (λ passed. passed ≡ true → state.new ≡ state_behind state.old token.now) }
    ensures same_walk { IfOk result (λ passed. passed ≡ false → walk.new ≡ walk.old) }
    ensures same_state { IfOk result (λ passed. passed ≡ false → state.new ≡ state.old) }
{
    match token.kind {
        TokenKind::Start => pass_start(alloc, walk, &mut memory.name, state, token),
        TokenKind::Empty => pass_empty(alloc, walk, memory, state, token),
        TokenKind::End => pass_end(walk, state, token),
        TokenKind::Text => {
            if !is_plain_text(state, token) {
                return Ok(false);
            }
            add_characters(state, token.bytes.as_slice())?;
            Ok(true)
        }
        _ => Ok(false),
    }
}
