//! What commands on tags change.

ghost use Rattle.std.specs.Prelude.{◌≡◌, ◌↔◌, ℕ, ◌∷◌, ◌+◌, ◌<◌, ◌≤◌, ◌⊎◌, ◌^◌, [], IsTrue, IfOk, IfSome};
ghost use Rattle.nx_base.specs.Text.{IsPlace};
ghost use Rattle.nx_text.specs.Changing.{AreChanges};
ghost use Rattle.nx_tags.specs.Answers.{Answers, PutsInQName, place_of};
ghost use Rattle.nx_tags.specs.Changing.{replacing, inserting, renaming};
ghost use Rattle.nx_tags.specs.Elements.{MayBeSplit};
ghost use Rattle.nx_tags.specs.Free.{IsFree};
ghost use Rattle.nx_tags.specs.Given.{GivesItsItems};
ghost use Rattle.nx_tags.specs.Parts.{IsKnownAt, IsTokenBorder, in_front, state_at};
ghost use Rattle.nx_tags.specs.Reading.{IsOpen};

use crate::command::TagCommand;
use crate::element::{end_tag_of, token_at};
use crate::free::{front_of_free, innermost_tag};
use crate::front::Front;
use crate::written::{end_tag, start_tag};
use nx_base::change::{Change, Changes};
use nx_base::memory::NoMemory;
use nx_base::sequence::{Bytes, TryCopy};
use nx_base::steps::Steps;
use nx_base::token::TokenKind;
use nx_events::{EventState, begin, declares, depth, innermost, start_name};
use nx_text::text::Text;
use std::alloc::Global;
use std::sync::ledger::Ledger;

/// A text that is put in at a place, as the only change.
fn inserted(alloc: Global, at: usize, text: Bytes) -> Result<Option<Changes>, NoMemory>
    ensures { IfOk result (λ changes. changes ≡ Some (inserting at text ∷ [])) }
{
    let mut changes = Changes::new(alloc);
    changes.push(Change {
        from: at,
        to: at,
        text,
    })?;
    Ok(Some(changes))
}

/// Ends the innermost open element.
fn finish<L: Ledger>(
    alloc: Global,
    text: &Text,
    from: usize,
    state: &EventState,
    at: usize,
    steps: &mut Steps<L>,
) -> Result<Option<Changes>, NoMemory>
    requires place { IsPlace text.now at }
    requires before { (from < at) ⊎ (from ≡ 0) }
    requires known { IsKnownAt text.now from state.now }
    ensures { IfOk result (Answers text.now (TagCommand.Finish at)) }
{
    let Some(front) = front_of_free(alloc, text, from, state, at, steps)? else {
        return Ok(None);
    };
    inserted(alloc, at, end_tag(alloc, innermost(&front.state))?)
}

/// Whether the innermost open element may end and begin anew: another is around it, and its start tag declares nothing.
fn may_be_split<L: Ledger>(
    alloc: Global,
    text: &Text,
    at: usize,
    front: &Front,
    steps: &mut Steps<L>,
) -> Result<bool, NoMemory>
    requires place { IsPlace text.now at }
    requires free { IsFree text.now at }
    requires opened { (first : ℕ) × IsOpen text.now first (in_front text.now at) front.now.starts.items }
    requires known { front.now.state ≡ state_at text.now at }
    ensures { IfOk result (λ may. IsTrue may ↔ MayBeSplit text.now at) }
{
    let _len = text.len();
    if depth(&front.state) < 2 {
        return Ok(false);
    }
    let tag = innermost_tag(alloc, text, at, front, steps)?;
    Ok(!declares(alloc, &tag)?)
}

/// Ends the innermost open element, and begins another of its name.
fn split<L: Ledger>(
    alloc: Global,
    text: &Text,
    from: usize,
    state: &EventState,
    at: usize,
    steps: &mut Steps<L>,
) -> Result<Option<Changes>, NoMemory>
    requires place { IsPlace text.now at }
    requires before { (from < at) ⊎ (from ≡ 0) }
    requires known { IsKnownAt text.now from state.now }
    ensures { IfOk result (Answers text.now (TagCommand.Split at)) }
{
    let Some(front) = front_of_free(alloc, text, from, state, at, steps)? else {
        return Ok(None);
    };
    if !may_be_split(alloc, text, at, &front, steps)? {
        return Ok(None);
    }
    let name = innermost(&front.state);
    let mut tags = end_tag(alloc, name)?;
    tags.append(start_tag(alloc, name)?)?;
    inserted(alloc, at, tags)
}

/// Puts an element without content in.
fn pair<L: Ledger>(
    alloc: Global,
    text: &Text,
    from: usize,
    state: &EventState,
    at: usize,
    name: &[u8],
    steps: &mut Steps<L>,
) -> Result<Option<Changes>, NoMemory>
    requires place { IsPlace text.now at }
    requires before { (from < at) ⊎ (from ≡ 0) }
    requires known { IsKnownAt text.now from state.now }
    ensures { IfOk result (Answers text.now (TagCommand.Pair at name.now)) }
{
    let Some(_) = front_of_free(alloc, text, from, state, at, steps)? else {
        return Ok(None);
    };
    let mut tags = start_tag(alloc, name)?;
    tags.append(end_tag(alloc, name)?)?;
    inserted(alloc, at, tags)
}

/// The change that puts a name in the place of the `len` bytes from the byte offset `from` on.
fn renamed(from: usize, len: usize, name: &Bytes) -> Result<Change, NoMemory>
    requires { from + len < 2 ^ 64 }
    ensures { IfOk result (λ change. change ≡ replacing from (from + len) name.now) }
{
    Ok(Change {
        from,
        to: from + len,
        text: name.copy()?,
    })
}

/// The changes that give the tags of an element a name. The start tag begins at `at`, the end tag, if there is one, at `end`, and each has a
/// name of `len` bytes.
fn both_renamed(
    alloc: Global,
    at: usize,
    end: Option<usize>,
    len: usize,
    name: &Bytes,
) -> Result<Option<Changes>, NoMemory>
    requires room { at + 1 + len < 2 ^ 64 }
    requires end_room { IfSome end (λ end. end + 2 + len < 2 ^ 64) }
    ensures { IfOk result (λ changes. changes ≡ Some (renaming at end len name.now)) }
{
    let mut changes = Changes::new(alloc);
    if let Some(end) = end {
        changes.push(renamed(end + 2, len, name)?)?;
    }
    changes.push(renamed(at + 1, len, name)?)?;
    Ok(Some(changes))
}

/// Gives an element another name.
fn rename<L: Ledger>(
    alloc: Global,
    text: &Text,
    from: usize,
    at: usize,
    name: &Bytes,
    steps: &mut Steps<L>,
) -> Result<Option<Changes>, NoMemory>
    requires border { IsTokenBorder text.now from }
    requires before { from ≤ at }
    ensures { IfOk result (Answers text.now (TagCommand.Rename at name.now)) }
{
    let _len = text.len();
    let Some(tag) = token_at(alloc, text, from, at, steps)? else {
        return Ok(None);
    };
    let written = start_name(tag.bytes.as_slice()).len();
    let to = at + tag.bytes.len();
    match tag.kind {
        TokenKind::Empty => both_renamed(alloc, at, None, written, name),
        TokenKind::Start => {
            let Some(end) = end_tag_of(alloc, text, tag, to, steps)? else {
                return Ok(None);
            };
            both_renamed(alloc, at, Some(end), written, name)
        }
        _ => Ok(None),
    }
}

/// What a command changes; none exactly where it may not be carried out.
fn answer<L: Ledger>(
    alloc: Global,
    text: &Text,
    from: usize,
    state: &EventState,
    command: &TagCommand,
    steps: &mut Steps<L>,
) -> Result<Option<Changes>, NoMemory>
    requires place { IsPlace text.now (place_of command.now) }
    requires before { (from < place_of command.now) ⊎ (from ≡ 0) }
    requires known { IsKnownAt text.now from state.now }
    ensures { IfOk result (Answers text.now command.now) }
{
    match command {
        TagCommand::Finish(at) => finish(alloc, text, from, state, *at, steps),
        TagCommand::Split(at) => split(alloc, text, from, state, *at, steps),
        TagCommand::Pair(at, name) => pair(alloc, text, from, state, *at, name.as_slice(), steps),
        TagCommand::Rename(at, name) => rename(alloc, text, from, *at, name, steps),
    }
}

/// What a command changes; none exactly where it may not be carried out. `from` is a border of the text's tokens in front of the command's
/// place, or 0, and `state` is known there: the tokens from there up to the place are read, each once, and for a new name those up to the
/// element's end tag. To split an element whose start tag stands in front of `from`, the text is read once more from its start.
pub fn changes_from<L: Ledger>(
    alloc: Global,
    text: &Text,
    from: usize,
    state: &EventState,
    command: &TagCommand,
    steps: &mut Steps<L>,
) -> Result<Option<Changes>, NoMemory>
    requires place { IsPlace text.now (place_of command.now) }
    requires name { PutsInQName command.now }
    requires before { (from < place_of command.now) ⊎ (from ≡ 0) }
    requires known { IsKnownAt text.now from state.now }
    ensures table { IfOk result (Answers text.now command.now) }
    ensures gives { IfOk result (GivesItsItems text.now command.now) }
    ensures changes { IfOk result (λ found. IfSome found (AreChanges text.now)) }
{
    let _len = text.len();
    let found = answer(alloc, text, from, state, command, steps)?;
    Ok(found)
}

/// What a command changes; none exactly where it may not be carried out. The text is read from its first byte on.
pub fn changes<L: Ledger>(
    alloc: Global,
    text: &Text,
    command: &TagCommand,
    steps: &mut Steps<L>,
) -> Result<Option<Changes>, NoMemory>
    requires place { IsPlace text.now (place_of command.now) }
    requires name { PutsInQName command.now }
    ensures table { IfOk result (Answers text.now command.now) }
    ensures gives { IfOk result (GivesItsItems text.now command.now) }
    ensures changes { IfOk result (λ found. IfSome found (AreChanges text.now)) }
{
    let _len = text.len();
    let nothing = begin(alloc)?;
    changes_from(alloc, text, 0, &nothing, command, steps)
}
