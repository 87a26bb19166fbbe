//! Places at which tags can be put in.

ghost use Rattle.std.specs.Prelude.{◌≡◌, ℕ, ◌+◌, ◌<◌, ◌≤◌, ◌⊎◌, ◌^◌, length, IfOk};
ghost use Rattle.nx_base.specs.Text.{IsPlace};
ghost use Rattle.nx_base.specs.Tokens.{end_of};
ghost use Rattle.nx_base.specs.declared.token.Token.{Token};
ghost use Rattle.nx_events.specs.Runs.{run_back};
ghost use Rattle.nx_tags.specs.Free.{IsFree};
ghost use Rattle.nx_tags.specs.Parts.{IsKnownAt, in_front};
ghost use Rattle.nx_tags.specs.Reading.{FoundQuiet, FoundBetween, FoundInside, FoundFree, IsInnermostTag, IsOpen};

use crate::front::{Front, Stop};
use nx_base::memory::NoMemory;
use nx_base::sequence::Bytes;
use nx_base::steps::Steps;
use nx_base::token::{Token, TokenKind};
use nx_events::law::runs_grow_by_tokens;
use nx_events::{EventState, begin, copy, depth, same, take};
use nx_scan::scan::scan_token;
use nx_text::text::Text;
use std::alloc::Global;
use std::sync::ledger::Ledger;

/// Character data of its own.
fn character_data(alloc: Global, from: usize, bytes: &[u8]) -> Result<Token, NoMemory>
    ensures { IfOk result (λ token. token ≡ record { kind = TokenKind.Text; from = from; bytes = bytes.now }) }
{
    Ok(Token {
        kind: TokenKind::Text,
        from,
        bytes: Bytes::from_vec(Vec::from_slice(alloc, bytes)?),
    })
}

/// What is known behind a token that gives nothing; none exactly where it gives something.
fn quiet_behind(
    alloc: Global,
    state: &EventState,
    token: &Token,
) -> Result<Option<EventState>, NoMemory>
    requires place { run_back state.now.run ≤ token.now.from }
    requires room { end_of token.now < 2 ^ 64 }
    ensures { IfOk result (FoundQuiet state.now token.now) }
{
    let mut behind = copy(alloc, state)?;
    let items = take(alloc, &mut behind, token)?;
    if items.is_empty() {
        Ok(Some(behind))
    } else {
        Ok(None)
    }
}

/// What is known in front of a place that cuts a Text token, whose two parts are these; none exactly where it doesn't part it well.
fn state_between(
    alloc: Global,
    state: &EventState,
    token: &Token,
    front_half: &Token,
    back_half: &Token,
) -> Result<Option<EventState>, NoMemory>
    requires place { run_back state.now.run ≤ token.now.from }
    requires begins { front_half.now.from ≡ token.now.from }
    requires goes_on { end_of front_half.now ≡ back_half.now.from }
    requires ends { end_of back_half.now ≡ end_of token.now }
    requires room { end_of token.now < 2 ^ 64 }
    ensures { IfOk result (FoundBetween state.now token.now front_half.now back_half.now) }
{
    let Some(whole) = quiet_behind(alloc, state, token)? else {
        return Ok(None);
    };
    let Some(front) = quiet_behind(alloc, state, front_half)? else {
        return Ok(None);
    };
    runs_grow_by_tokens();
    let Some(both) = quiet_behind(alloc, &front, back_half)? else {
        return Ok(None);
    };
    if same(&whole, &both) {
        Ok(Some(front))
    } else {
        Ok(None)
    }
}

/// What is known in front of a place that cuts a token; none exactly where no element is open there, or it doesn't part the token well.
fn state_inside(
    alloc: Global,
    state: &EventState,
    token: &Token,
    at: usize,
) -> Result<Option<EventState>, NoMemory>
    requires begins { token.now.from < at }
    requires ends { at < end_of token.now }
    requires place { run_back state.now.run ≤ token.now.from }
    requires room { end_of token.now < 2 ^ 64 }
    ensures { IfOk result (FoundInside state.now at token.now) }
{
    if token.kind != TokenKind::Text || depth(state) == 0 {
        return Ok(None);
    }
    let bytes = token.bytes.as_slice();
    let front_half = character_data(alloc, token.from, &bytes[..at - token.from])?;
    let back_half = character_data(alloc, at, &bytes[at - token.from..])?;
    state_between(alloc, state, token, &front_half, &back_half)
}

/// What is known in front of a free place; none exactly where the place isn't free. `from` is a border in front of it with what is known
/// there, and the tokens from there on are read, each once.
pub(crate) fn front_of_free<L: Ledger>(
    alloc: Global,
    text: &Text,
    from: usize,
    state: &EventState,
    at: usize,
    steps: &mut Steps<L>,
) -> Result<Option<Front>, NoMemory>
    requires place { IsPlace text.now at }
    requires before { (from < at) ⊎ (from ≡ 0) }
    requires known { IsKnownAt text.now from state.now }
    ensures { IfOk result (FoundFree text.now from at) }
{
    let _len = text.len();
    let mut front = Front::new(alloc, state)?;
    match front.read_to(alloc, text, from, at, steps)? {
        Stop::Border(ended) => {
            if ended && depth(&front.state) > 0 {
                Ok(Some(front))
            } else {
                Ok(None)
            }
        }
        Stop::Inside(token) => {
            let Some(state) = state_inside(alloc, &front.state, &token, at)? else {
                return Ok(None);
            };
            front.state = state;
            Ok(Some(front))
        }
    }
}

/// Where the start tag of the innermost open element begins. Where it stands in front of the border at which reading began, the text is read
/// again from its start.
fn innermost_start<L: Ledger>(
    alloc: Global,
    text: &Text,
    at: usize,
    front: &Front,
    steps: &mut Steps<L>,
) -> Result<usize, NoMemory>
    requires place { IsPlace text.now at }
    requires free { IsFree text.now at }
    requires opened { (first : ℕ) × IsOpen text.now first (in_front text.now at) front.now.starts.items }
    ensures { IfOk result (λ start. (tag : Token) × (tag.from ≡ start) × IsInnermostTag text.now at tag) }
{
    if let Some(&start) = front.starts.last() {
        return Ok(start);
    }
    let _len = text.len();
    let nothing = begin(alloc)?;
    let Some(whole) = front_of_free(alloc, text, 0, &nothing, at, steps)? else {
        unreachable!()
    };
    let Some(&start) = whole.starts.last() else {
        unreachable!()
    };
    Ok(start)
}

/// The start tag of the innermost open element in front of a free place.
pub(crate) fn innermost_tag<L: Ledger>(
    alloc: Global,
    text: &Text,
    at: usize,
    front: &Front,
    steps: &mut Steps<L>,
) -> Result<Token, NoMemory>
    requires place { IsPlace text.now at }
    requires free { IsFree text.now at }
    requires opened { (first : ℕ) × IsOpen text.now first (in_front text.now at) front.now.starts.items }
    ensures tag { IfOk result (IsInnermostTag text.now at) }
    ensures room { IfOk result (λ tag. end_of tag < 2 ^ 64) }
{
    let start = innermost_start(alloc, text, at, front, steps)?;
    let _len = text.len();
    match scan_token(alloc, text, start, steps)? {
        Some(tag) => Ok(tag),
        None => unreachable!(),
    }
}
