//! Changes of a text, as messages tell them.

ghost use Rattle.std.specs.Prelude.{◌≡◌, All, IsUtf8, IfOk, IfSome, codes, option_map};
ghost use Rattle.serde_json.specs.Find.{get};
ghost use Rattle.serde_json.specs.View.{items_view, view};
ghost use Rattle.nx_wire.specs.Changes.{change_in, changes_in, part_in};

use crate::place::range_in;
use crate::value::text_at;
use nx_base::memory::NoMemory;
use nx_base::sequence::Bytes;
use nx_position::change::{Change, Range};
use serde_json::Value;
use std::alloc::Global;

/// The part that a change speaks of: none where it speaks of the whole text. None at all where that can't be read.
fn part_in(value: &Value) -> Option<Option<Range>>
    ensures { result ≡ part_in (get (codes "range") (view value.now)) }
{
    match value.get("range") {
        Some(range) => Some(Some(range_in(range)?)),
        None => Some(None),
    }
}

/// What a value says as a `TextDocumentContentChangeEvent`.
pub fn change_in(alloc: Global, value: &Value) -> Result<Option<Change>, NoMemory>
    ensures change { IfOk result (λ found. found ≡ change_in (view value.now)) }
    ensures utf8 { IfOk result (λ found. IfSome found (λ change. IsUtf8 change.text)) }
{
    let Some(text) = text_at(value, "text") else {
        return Ok(None);
    };
    let Some(part) = part_in(value) else {
        return Ok(None);
    };
    let text = Bytes::from_vec(Vec::from_slice(alloc, text.as_bytes())?);
    Ok(Some(Change { part, text }))
}

/// What values say as such changes, where each of them can be read.
pub fn changes_in(alloc: Global, values: &[Value]) -> Result<Option<Vec<Change>>, NoMemory>
    ensures changes { IfOk result (λ found. option_map (λ changes. changes.items) found ≡ changes_in (items_view values.now)) }
    ensures utf8 { IfOk result (λ found. IfSome found (λ changes. All (λ change. IsUtf8 change.text) changes.items)) }
{
    let mut changes = Vec::new(alloc);
    let mut rest = values;
    while let Some((value, behind)) = rest.split_first() {
        match change_in(alloc, value)? {
            Some(change) => changes.push(change)?,
            None => return Ok(None),
        }
        rest = behind;
    }
    Ok(Some(changes))
}
