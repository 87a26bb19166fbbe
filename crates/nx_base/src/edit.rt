//! Edits of a text, and where they move its places.

ghost use Rattle.std.specs.Prelude.{◌≡◌};
ghost use Rattle.nx_base.specs.Text.{moved_place, EditedIsUtf8, EditedKeepsRest, InsertionIsUndone};

/// Replaces the bytes from `from` to `to` by `added` bytes. All three are byte offsets or counts.
#[derive(Clone, Copy, Debug, PartialEq, Eq)]
pub struct Edit {
    pub from: usize,
    pub to: usize,
    pub added: usize,
}

/// Where a byte offset of the old text lies after an edit: as before in front of the edit, moved with
/// the text behind it, and otherwise where the edit begins. A sum stops at the greatest `usize`.
pub fn moved(at: usize, edit: &Edit) -> usize
    ensures { result ≡ moved_place at edit.now }
{
    if at < edit.from {
        at
    } else if at >= edit.to {
        (at - edit.to.saturating_sub(edit.from)).saturating_add(edit.added)
    } else {
        edit.from
    }
}

/// An edit between two places of a text, by UTF-8, leaves UTF-8.
pub fn edited_is_utf8()
    ensures { EditedIsUtf8 }
{}

/// An edit leaves what stands before it and behind it.
pub fn edited_keeps_rest()
    ensures { EditedKeepsRest }
{}

/// What was put in can be taken out again.
pub fn insertion_is_undone()
    ensures { InsertionIsUndone }
{}
