//! Changes of the text, told to what stands beside it: the marks, the caret and the views. None of this takes memory.

ghost use Rattle.std.specs.Prelude.{◌≡◌, ℕ, List, map, IsUtf8};
ghost use Rattle.nx_marks.specs.Right.{IsRight};
ghost use Rattle.nx_session.specs.Tagging.{edit_by, shifted_by};
ghost use Rattle.nx_session.specs.Telling.{AreTold, Fit, caret_behind};
ghost use Rattle.nx_text.specs.Changing.{AreChanges};

use super::editing::moved_caret;
use nx_base::change::{Change, Changes};
use nx_base::edit::Edit;
use nx_base::machine::Machine;
use nx_marks::marks::Marks;
use nx_views::shift::shift_all;
use nx_views::view::View;

/// The edit that a change is.
fn edit_of(change: &Change) -> Edit
    ensures { result ≡ edit_by change.now }
{
    Edit {
        from: change.from,
        to: change.to,
        added: change.text.len(),
    }
}

/// Tells changes that were made on the text to the marks.
pub(super) fn tell<A: Machine>(marks: &mut Marks<A>, changes: &Changes)
    ensures told { (a : A) (text : List ℕ) → IsUtf8 text → AreChanges text changes.now → Fit text changes.now
        → IsRight (A.is_state a) (A.means a) (A.rules a) text marks.old.kept
        → AreTold (A.is_state a) (A.means a) (A.rules a) text changes.now marks.old.kept marks.new.kept }
    ensures taken { marks.new.taken ≡ marks.old.taken }
{
    let mut left = changes.as_slice();
    while let Some((change, others)) = left.split_first() {
        marks.edit(&edit_of(change));
        left = others;
    }
}

/// Where a caret goes with changes of the text.
pub(super) fn caret_behind(caret: usize, changes: &Changes) -> usize
    ensures { result ≡ caret_behind changes.now caret }
{
    let mut place = caret;
    let mut left = changes.as_slice();
    while let Some((change, others)) = left.split_first() {
        place = moved_caret(place, &edit_of(change));
        left = others;
    }
    place
}

/// Moves what views show with changes of the text.
pub(super) fn shift_by(views: &mut Vec<Box<dyn View>>, changes: &Changes)
    requires { Unit {0} }
    ensures { map (λ b. state b) views.new.items ≡ shifted_by changes.now (map (λ b. state b) views.old.items) }
{
    let mut left = changes.as_slice();
    while let Some((change, others)) = left.split_first() {
        shift_all(views, &edit_of(change));
        left = others;
    }
}
