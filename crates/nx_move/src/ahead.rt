//! What stands ahead of a place: elements to be passed, entered or left.

ghost use Rattle.std.specs.Prelude.{◌≡◌, ◌+◌, ◌<◌, ◌^◌, IfOk};
ghost use Rattle.nx_base.specs.Text.{IsPlace};
ghost use Rattle.nx_move.specs.Tags.{tags_from, tags_of};
ghost use Rattle.nx_move.specs.Ways.{ahead};
ghost use Rattle.nx_move.specs.Walks.{depth_behind, out_of, over, into};

use crate::tag::{TagKind, next_piece, next_tag};
use nx_base::memory::NoMemory;
use nx_base::steps::Steps;
use nx_text::text::Text;
use std::alloc::Global;
use std::sync::ledger::Ledger;

/// The first border of tokens at a place or behind it.
pub(crate) fn border_ahead<L: Ledger>(
    alloc: Global,
    text: &Text,
    at: usize,
    steps: &mut Steps<L>,
) -> Result<usize, NoMemory>
    requires { IsPlace text.now at }
    ensures border { IfOk result (IsPlace text.now) }
    ensures tags { IfOk result (λ place. ahead at (tags_of text.now) ≡ tags_from text.now place) }
{
    let _len = text.len();
    let mut place = 0;
    while place < at {
        let Some(piece) = next_piece(alloc, text, place, steps)? else {
            unreachable!()
        };
        place = piece.to;
    }
    Ok(place)
}

/// The depth behind a tag, by that in front of it; none where the tag closes what is around.
fn depth_after(kind: TagKind, depth: usize) -> Option<usize>
    requires { depth + 1 < 2 ^ 64 }
    ensures { result ≡ depth_behind kind depth }
{
    match kind {
        TagKind::Start => Some(depth + 1),
        TagKind::Empty => Some(depth),
        TagKind::End => depth.checked_sub(1),
    }
}

/// Behind the End of the element around; none exactly where there is no such End. The place is a border of tokens.
pub(crate) fn behind_end<L: Ledger>(
    alloc: Global,
    text: &Text,
    from: usize,
    steps: &mut Steps<L>,
) -> Result<Option<usize>, NoMemory>
    requires { IsPlace text.now from }
    ensures { IfOk result (λ found. found ≡ out_of (tags_from text.now from)) }
{
    let _len = text.len();
    let mut place = from;
    let mut depth = 0;
    loop {
        let Some(tag) = next_tag(alloc, text, place, steps)? else {
            return Ok(None);
        };
        place = tag.to;
        match depth_after(tag.kind, depth) {
            Some(deeper) => depth = deeper,
            None => return Ok(Some(place)),
        }
    }
}

/// Behind the first element; none exactly where none begins, or it has no End. The place is a border of tokens.
pub(crate) fn behind_element<L: Ledger>(
    alloc: Global,
    text: &Text,
    from: usize,
    steps: &mut Steps<L>,
) -> Result<Option<usize>, NoMemory>
    requires { IsPlace text.now from }
    ensures { IfOk result (λ found. found ≡ over (tags_from text.now from)) }
{
    let Some(tag) = next_tag(alloc, text, from, steps)? else {
        return Ok(None);
    };
    match tag.kind {
        TagKind::Start => behind_end(alloc, text, tag.to, steps),
        TagKind::Empty => Ok(Some(tag.to)),
        TagKind::End => Ok(None),
    }
}

/// Behind the first Start, where only Empty tags stand in front of it; none exactly where there is none such. The place is a border
/// of tokens.
pub(crate) fn behind_start<L: Ledger>(
    alloc: Global,
    text: &Text,
    from: usize,
    steps: &mut Steps<L>,
) -> Result<Option<usize>, NoMemory>
    requires { IsPlace text.now from }
    ensures { IfOk result (λ found. found ≡ into (tags_from text.now from)) }
{
    let _len = text.len();
    let mut place = from;
    loop {
        let Some(tag) = next_tag(alloc, text, place, steps)? else {
            return Ok(None);
        };
        place = tag.to;
        match tag.kind {
            TagKind::Start => return Ok(Some(place)),
            TagKind::Empty => {}
            TagKind::End => return Ok(None),
        }
    }
}
