//! What a view of the faults promises.

ghost use Rattle.std.specs.Prelude.{◌≡◌, ◌≤◌, true, false, length, insert, take, drop, ◌++◌, OnOk, IsErrOf};
ghost use Rattle.nx_views.specs.States.{ViewState, showing, closed, moved_view, AfterPuts};

use nx_base::edit::Edit;
use nx_base::fault::{Fault, Faults};

/// Why a view took no fault.
#[derive(Clone, Copy, Debug, PartialEq, Eq)]
pub enum ViewFault {
    /// The view isn't live any more.
    Closed,
    /// There was no memory.
    NoMemory,
}

/// A view of the faults.
pub trait View: Drop {
    /// What it is to a contract.
    ghost state: { Self → ViewState };

    /// The list that it shows.
    fn shown(&self) -> &Faults
        ensures { result.now ≡ (state self.now).list };

    /// Whether it is live.
    fn is_live(&self) -> bool
        ensures { result ≡ (state self.now).live };

    /// Ends its life.
    fn close(&mut self)
        ensures { state self.new ≡ closed (state self.old) };

    /// Puts a fault in front of the one at `i`, or at the end.
    fn put(&mut self, i: usize, fault: Fault) -> Result<(), ViewFault>
        requires { i ≤ length (state self.old).list }
        ensures ok { OnOk result ((state self.new).list ≡ insert (state self.old).list i fault) }
        ensures closed { IsErrOf result ViewFault.Closed → (state self.new).live ≡ false }
        ensures closed_list { IsErrOf result ViewFault.Closed → (state self.new).list ≡ (state self.old).list }
        ensures memory { IsErrOf result ViewFault.NoMemory → state self.new ≡ state self.old }
        ensures bears { AfterPuts 1 (state self.old) (state self.new) };

    /// Removes the faults from `from` to `to`.
    fn cut(&mut self, from: usize, to: usize)
        requires ordered { from ≤ to }
        requires within { to ≤ length (state self.old).list }
        ensures { state self.new ≡ showing (take from (state self.old).list ++ drop to (state self.old).list) (state self.old) };

    /// Moves the faults with the text.
    fn shift(&mut self, edit: &Edit)
        ensures { state self.new ≡ moved_view edit.now (state self.old) };
}
