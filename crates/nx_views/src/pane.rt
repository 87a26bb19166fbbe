//! Three views that keep the list that they show.

ghost use Rattle.std.specs.Prelude.{◌≡◌, ◌↔◌, ◌+◌, ◌-◌, ◌≤◌, ◌++◌, false, insert, take, drop, length, OnOk, IsErrOf};
ghost use Rattle.nx_views.specs.Panes.{fault_pane, limited_pane, refusing_pane, new_pane, new_limited_pane, BearsNone};
ghost use Rattle.nx_views.specs.States.{AfterPuts, closed, moved_view, showing};

use crate::view::{View, ViewFault};
use nx_base::edit::Edit;
use nx_base::fault::{Fault, Faults};
use nx_base::memory::NoMemory;
use nx_base::sequence::Sequence;
use std::alloc::Global;

/// A steady view: it is live until it is closed.
#[derive(Drop)]
pub struct FaultPane {
    faults: Faults,
    is_live: bool,
}

impl FaultPane {
    /// A live view of no fault.
    pub fn new(alloc: Global) -> FaultPane
        ensures { fault_pane result ≡ new_pane }
    {
        FaultPane {
            faults: Sequence::new(alloc),
            is_live: true,
        }
    }
}

impl View for FaultPane {
    ghost use Rattle.nx_views.specs.Panes.{fault_pane};

    ghost state = { fault_pane };

    fn shown(&self) -> &Faults {
        &self.faults
    }

    fn is_live(&self) -> bool {
        self.is_live
    }

    fn close(&mut self) {
        self.is_live = false;
    }

    fn put(&mut self, i: usize, fault: Fault) -> Result<(), ViewFault>
        requires { i ≤ length (fault_pane self.old).list }
        ensures ok { OnOk result ((fault_pane self.new).list ≡ insert (fault_pane self.old).list i fault) }
        ensures closed { IsErrOf result ViewFault.Closed → (fault_pane self.new).live ≡ false }
        ensures closed_list { IsErrOf result ViewFault.Closed → (fault_pane self.new).list ≡ (fault_pane self.old).list }
        ensures memory { IsErrOf result ViewFault.NoMemory → fault_pane self.new ≡ fault_pane self.old }
        ensures bears { AfterPuts 1 (fault_pane self.old) (fault_pane self.new) }
        ensures closes { IsErrOf result ViewFault.Closed ↔ ((fault_pane self.old).live ≡ false) }
    {
        if !self.is_live {
            return Err(ViewFault::Closed);
        }
        match self.faults.insert(i, fault) {
            Ok(()) => Ok(()),
            Err(NoMemory) => Err(ViewFault::NoMemory),
        }
    }

    fn cut(&mut self, from: usize, to: usize) {
        self.faults.cut(from, to);
    }

    fn shift(&mut self, edit: &Edit) {
        self.faults.shift(edit);
    }
}

/// A view that takes a number of puts, and closes at the next.
#[derive(Drop)]
pub struct LimitedPane {
    pane: FaultPane,
    room: u64,
}

impl LimitedPane {
    /// A live view of no fault, with room for `limit` puts.
    pub fn new(alloc: Global, limit: u64) -> LimitedPane
        ensures { limited_pane result ≡ new_limited_pane limit }
    {
        LimitedPane {
            pane: FaultPane::new(alloc),
            room: limit,
        }
    }
}

impl View for LimitedPane {
    ghost use Rattle.nx_views.specs.Panes.{limited_pane};

    ghost state = { limited_pane };

    fn shown(&self) -> &Faults {
        self.pane.shown()
    }

    fn is_live(&self) -> bool {
        self.pane.is_live()
    }

    fn close(&mut self) {
        self.pane.close();
    }

    fn put(&mut self, i: usize, fault: Fault) -> Result<(), ViewFault>
        requires { i ≤ length (limited_pane self.old).list }
        ensures ok { OnOk result ((limited_pane self.new).list ≡ insert (limited_pane self.old).list i fault) }
        ensures closed { IsErrOf result ViewFault.Closed → (limited_pane self.new).live ≡ false }
        ensures closed_list { IsErrOf result ViewFault.Closed → (limited_pane self.new).list ≡ (limited_pane self.old).list }
        ensures memory { IsErrOf result ViewFault.NoMemory → limited_pane self.new ≡ limited_pane self.old }
        ensures bears { AfterPuts 1 (limited_pane self.old) (limited_pane self.new) }
        ensures closes { IsErrOf result ViewFault.Closed ↔ BearsNone (limited_pane self.old) }
        ensures room { OnOk result ((limited_pane self.old).room ≡ (limited_pane self.new).room + 1) }
    {
        if self.room == 0 {
            self.pane.close();
            return Err(ViewFault::Closed);
        }
        self.pane.put(i, fault)?;
        self.room -= 1;
        Ok(())
    }

    fn cut(&mut self, from: usize, to: usize) {
        self.pane.cut(from, to);
    }

    fn shift(&mut self, edit: &Edit) {
        self.pane.shift(edit);
    }
}

/// A steady view that refuses one put for want of memory.
#[derive(Drop)]
pub struct RefusingPane {
    pane: FaultPane,
    /// The refused put is the one of this number among those to come, counted from 1; there is none where it is 0.
    refused: u64,
}

impl RefusingPane {
    /// A live view of no fault, whose put number `k`, counted from 1, is refused.
    pub fn new(alloc: Global, k: u64) -> RefusingPane
        ensures state { refusing_pane result ≡ new_pane }
        ensures refused { result.refused ≡ k }
    {
        RefusingPane {
            pane: FaultPane::new(alloc),
            refused: k,
        }
    }
}

impl View for RefusingPane {
    ghost use Rattle.nx_views.specs.Panes.{refusing_pane};

    ghost state = { refusing_pane };

    fn shown(&self) -> &Faults {
        self.pane.shown()
    }

    fn is_live(&self) -> bool {
        self.pane.is_live()
    }

    fn close(&mut self)
        ensures state { refusing_pane self.new ≡ closed (refusing_pane self.old) }
        ensures counts { self.new.refused ≡ self.old.refused }
    {
        self.pane.close();
    }

    fn put(&mut self, i: usize, fault: Fault) -> Result<(), ViewFault>
        requires { i ≤ length (refusing_pane self.old).list }
        ensures ok { OnOk result ((refusing_pane self.new).list ≡ insert (refusing_pane self.old).list i fault) }
        ensures closed { IsErrOf result ViewFault.Closed → (refusing_pane self.new).live ≡ false }
        ensures closed_list { IsErrOf result ViewFault.Closed → (refusing_pane self.new).list ≡ (refusing_pane self.old).list }
        ensures memory { IsErrOf result ViewFault.NoMemory → refusing_pane self.new ≡ refusing_pane self.old }
        ensures bears { AfterPuts 1 (refusing_pane self.old) (refusing_pane self.new) }
        ensures counts { self.new.refused ≡ self.old.refused - 1 }
        ensures refuses { self.old.refused ≡ 1 → IsErrOf result ViewFault.NoMemory }
    {
        let refused = self.refused;
        self.refused = refused.saturating_sub(1);
        if refused == 1 {
            return Err(ViewFault::NoMemory);
        }
        self.pane.put(i, fault)
    }

    fn cut(&mut self, from: usize, to: usize)
        requires ordered { from ≤ to }
        requires within { to ≤ length (refusing_pane self.old).list }
        ensures state { refusing_pane self.new
            ≡ showing (take from (refusing_pane self.old).list ++ drop to (refusing_pane self.old).list) (refusing_pane self.old) }
        ensures counts { self.new.refused ≡ self.old.refused }
    {
        self.pane.cut(from, to);
    }

    fn shift(&mut self, edit: &Edit)
        ensures state { refusing_pane self.new ≡ moved_view edit.now (refusing_pane self.old) }
        ensures counts { self.new.refused ≡ self.old.refused }
    {
        self.pane.shift(edit);
    }
}
