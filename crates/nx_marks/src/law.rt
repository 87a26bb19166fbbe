//! Laws of what is kept. Nothing here runs.

ghost use Rattle.std.specs.Prelude.{◌≡◌, ℕ, ◌+◌, ◌<◌, ◌≤◌, List, [], length, IsUtf8, false};
ghost use Rattle.nx_base.specs.Rules.{Lexeme};
ghost use Rattle.nx_base.specs.Running.{CutsTo, after_all};
ghost use Rattle.nx_base.specs.Text.{IsPlace, edited};
ghost use Rattle.nx_marks.specs.Bound.{WillJoin, WillReach};
ghost use Rattle.nx_marks.specs.Chain.{AreWhole, FirstMeans, Kept, frontier_of};
ghost use Rattle.nx_marks.specs.Editing.{EditAt, EditBehind, edit_kept, noted};
ghost use Rattle.nx_marks.specs.Frontier.{IsBorder};
ghost use Rattle.nx_marks.specs.Keeping.{KeepsMarks};
ghost use Rattle.nx_marks.specs.Meant.{kept_by, is_any, itself};
ghost use Rattle.nx_marks.specs.Right.{IsRight, StaysRight};

use nx_base::machine::Machine;

/// What is right for a machine and a text is right for every later machine.
pub fn later_machines_keep_it_right<A: Machine>()
    ensures { StaysRight A.later A.is_state A.means A.rules }
{}

/// Where what is kept is right for a text, the frontier is a border of the text's tokens.
pub fn frontier_is_border<A: Machine>()
    ensures { (machine : A) (text : List ℕ) (kept : Kept A.State) → IsUtf8 text
        → IsRight (A.is_state machine) (A.means machine) (A.rules machine) text kept → IsBorder text (frontier_of kept) }
{}

/// An edit at or before the frontier goes back to the last mark before it, or to the start, and keeps aside what it leaves.
pub fn edits_go_back<S>()
    ensures { (from to added : ℕ) (kept : Kept S) → from ≤ to → AreWhole kept.front → kept.here.whole ≡ false → from ≤ frontier_of kept
        → EditAt from to added (noted kept) (edit_kept from to added kept) }
{}

/// An edit behind the frontier changes what is aside alone.
pub fn edits_behind_change_what_is_aside<A: Machine>()
    ensures { (machine : A) (text : List ℕ) (from to added : ℕ) (kept : Kept A.State)
        → IsRight (A.is_state machine) (A.means machine) (A.rules machine) text kept
        → frontier_of kept < from → EditBehind from to added kept (edit_kept from to added kept) }
{}

/// Behind one edit of a text that is read to its end, the row of the first mark behind the edit reaches the new end. So where tokens
/// lead from the frontier to that mark, and to what its state means, it will be joined.
pub fn one_edit_keeps_the_row<A: Machine>()
    ensures { (machine : A) (text added : List ℕ) (from to : ℕ) (kept : Kept A.State) (left : List Lexeme) → IsUtf8 text
        → IsUtf8 added → IsPlace text from
        → IsPlace text to → from ≤ to → IsRight (A.is_state machine) (A.means machine) (A.rules machine) text kept
        → frontier_of kept ≡ length text
        → kept.aside ≡ [] → to < length text
        → CutsTo (edited text from to added) (frontier_of (edit_kept from to (length added) kept)) left
        (frontier_of (edit_kept from to (length added) kept) + (edit_kept from to (length added) kept).here.len)
        → FirstMeans (A.means machine) (after_all (A.rules machine) (A.means machine (edit_kept from to (length added) kept).here.state) left)
        (edit_kept from to (length added) kept).aside
        → WillJoin (A.means machine) (A.rules machine) (edited text from to added) (length left) (edit_kept from to (length added) kept) }
{}

/// An edit looks at no state, so it does to meanings what it does to states.
pub fn edits_look_at_no_state<A: Machine>()
    ensures { (machine : A) (from to added : ℕ) (kept : Kept A.State)
        → kept_by (A.means machine) (edit_kept from to added kept) ≡ edit_kept from to added (kept_by (A.means machine) kept) }
{}

/// What is right for a machine and a text is right of meanings.
pub fn meanings_are_right<A: Machine>()
    ensures { (machine : A) (text : List ℕ) (kept : Kept A.State) → IsRight (A.is_state machine) (A.means machine) (A.rules machine) text kept
        → IsRight is_any itself (A.rules machine) text (kept_by (A.means machine) kept) }
{}

/// A later machine gives the same meanings.
pub fn later_machines_mean_the_same<A: Machine>()
    ensures { (earlier now : A) (text : List ℕ) (kept : Kept A.State) → A.later earlier now
        → IsRight (A.is_state earlier) (A.means earlier) (A.rules earlier) text kept
        → kept_by (A.means now) kept ≡ kept_by (A.means earlier) kept }
{}

/// What reading on does to states, it does to their meanings, each by the machine of its time.
pub fn reading_on_keeps_meanings<A: Machine>()
    ensures { (earlier now : A) (text : List ℕ) (old new : Kept A.State) → A.later earlier now
        → IsRight (A.is_state earlier) (A.means earlier) (A.rules earlier) text old
        → KeepsMarks (A.means earlier) (A.rules earlier) text old new
        → KeepsMarks itself (A.rules earlier) text (kept_by (A.means earlier) old) (kept_by (A.means now) new) }
{}

/// Where so many tokens lead to the first meaning aside, whose row ends at a place, they lead to the first state aside, and its row
/// ends there.
pub fn meanings_reach_as_states<A: Machine>()
    ensures { (machine : A) (text : List ℕ) (count end : ℕ) (kept : Kept A.State)
        → WillReach itself (A.rules machine) text count end (kept_by (A.means machine) kept)
        → WillReach (A.means machine) (A.rules machine) text count end kept }
{}
