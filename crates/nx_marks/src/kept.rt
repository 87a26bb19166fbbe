//! What is kept of a run: a line of marks, and how far along it the frontier is.

ghost use Rattle.std.specs.Prelude.{◌≡◌, ◌<◌, ◌≤◌, [], length, false, IsTrue, IfOk};
ghost use Rattle.nx_marks.specs.Chain.{AreWhole, FaultsFit, faults_in, frontier_of};
ghost use Rattle.nx_marks.specs.Editing.{edit_noted, noted};
ghost use Rattle.nx_marks.specs.Frontier.{FrontierAfterEdit};
ghost use Rattle.nx_marks.specs.Before.{IsLast};
ghost use Rattle.nx_marks.specs.Starting.{started};
ghost use Rattle.nx_marks.specs.Walking.{Fits};

use crate::line::Line;
use crate::mark::Mark;
use nx_base::edit::Edit;
use nx_base::fault::Faults;
use nx_base::memory::NoMemory;
use std::alloc::Global;
use std::marker::Model;

/// The marks up to the frontier, the state there, whether a mark stands there, and the marks aside. Where a row is joined behind
/// which none is aside, no mark is moved: the line stays parted where it was, and the frontier is at its end. So what is typed next
/// to the last edit finds the line parted there.
#[derive(Drop)]
pub struct Kept<S> {
    pub(crate) line: Line<S>,
    /// Whether all that is aside in the line is in front of the frontier.
    pub(crate) joined: bool,
}

impl<S> Model for Kept<S> {
    ghost use Rattle.nx_marks.specs.Chain.{Kept};
    ghost use Rattle.nx_marks.specs.Joined.{seen};

    ghost Value = { Kept S };

    ghost view = { λ k. seen k.joined k.line };
}

impl<S: Drop> Kept<S> {
    /// Nothing is taken yet.
    pub(crate) fn start(alloc: Global, state: S) -> Kept<S>
        ensures { result ≡ started state }
    {
        Kept {
            line: Line::start(alloc, state),
            joined: false,
        }
    }

    /// The frontier as a byte offset.
    pub(crate) fn frontier(&self) -> usize
        ensures { result ≡ frontier_of self.now }
    {
        self.line.frontier(self.joined)
    }

    /// Whether no mark is aside behind the frontier.
    pub(crate) fn none_aside(&self) -> bool
        ensures { IsTrue result → self.now.aside ≡ [] }
    {
        self.joined || self.line.none_aside()
    }

    /// The state at the frontier.
    pub(crate) fn state(&self) -> &S
        ensures { result.now ≡ self.now.here.state }
    {
        self.line.state(self.joined)
    }

    /// Has the state at the frontier say that it is no mark, since an edit may put it aside, where a row ends with it.
    pub(crate) fn note(&mut self)
        ensures { self.new ≡ noted self.old }
    {
        if self.joined {
            self.line.note_last();
        } else {
            self.line.note();
        }
    }

    /// What an edit does: the frontier goes back before it, and the marks from there on are dropped or go aside.
    pub(crate) fn edit(&mut self, edit: &Edit)
        ensures frontier { FrontierAfterEdit edit.now.from (frontier_of self.old) (frontier_of self.new) }
        ensures edited { edit.now.from ≤ edit.now.to → Fits edit.now.from edit.now.to edit.now.added self.old
            → AreWhole self.old.front → self.old.here.whole ≡ false
            → self.new ≡ edit_noted edit.now.from edit.now.to edit.now.added self.old }
    {
        let joined = self.joined;
        self.joined = false;
        if self.line.frontier(joined) < edit.from {
            self.line.arrive(joined);
            self.line.edit_behind(edit);
        } else {
            self.line.edit_at(joined, edit);
        }
    }

    /// Drops what is left of the marks that an edit took out, if reading is over.
    pub(crate) fn drop_rest(&mut self, is_over: bool)
        ensures { self.new ≡ self.old }
    {
        if is_over {
            self.line.drop_rest();
        }
    }

    /// The last mark at or before both a place and the frontier, or the start, with its byte offset.
    pub(crate) fn mark_before(&self, at: usize) -> (usize, &Mark<S>)
        requires { self.now.marked ≡ false → 0 < length self.now.front }
        ensures { IsLast at result.0 self.now result.1.now }
    {
        self.line.mark_before(self.joined, at)
    }

    /// The faults of the segments up to the frontier, in their places.
    pub(crate) fn faults(&self, alloc: Global) -> Result<Faults, NoMemory>
        requires { FaultsFit self.now.front }
        ensures { IfOk result (λ faults. faults ≡ faults_in 0 self.now.front) }
    {
        let mut faults = self.line.faults(alloc)?;
        if self.joined {
            self.line.add_faults_behind(&mut faults)?;
        }
        Ok(faults)
    }
}
