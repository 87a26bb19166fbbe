//! How far a text is read, and what the machine said of it.

ghost use Rattle.std.specs.Prelude.{◌≡◌, ◌⊎◌, ℕ, ◌+◌, ◌-◌, ◌^◌, ◌≤◌, ◌<◌, List, [], length, IfOk, OnOk, OnErr, IsUtf8, false};
ghost use Rattle.nx_base.specs.Running.{machine_faults};
ghost use Rattle.nx_base.specs.Text.{IsPlace, edited};
ghost use Rattle.nx_base.specs.Tokens.{cut, token_count};
ghost use Rattle.nx_marks.specs.Bound.{WillJoin, WillReach, ReachesIn};
ghost use Rattle.nx_marks.specs.Chain.{AreWhole, frontier_of};
ghost use Rattle.nx_marks.specs.Editing.{edit_kept};
ghost use Rattle.nx_marks.specs.Frontier.{FrontierAfterEdit, MovesOver};
ghost use Rattle.nx_marks.specs.Keeping.{KeepsMarks};
ghost use Rattle.nx_marks.specs.Meant.{kept_by};
ghost use Rattle.nx_marks.specs.Right.{IsRight, IsRightForLength, IsRightForSome};
ghost use Rattle.nx_marks.specs.Before.{IsMarkBefore};
ghost use Rattle.nx_marks.specs.Starting.{started};
ghost use Rattle.nx_marks.specs.Walking.{Fits};

use crate::kept::Kept;
use crate::line::{Line, begin_here, step, step_alone};
use crate::rows::rejoin;
use nx_base::edit::Edit;
use nx_base::fault::Faults;
use nx_base::machine::Machine;
use nx_base::memory::NoMemory;
use nx_base::sequence::Bytes;
use nx_base::steps::Steps;
use nx_base::token::{Token, TokenKind};
use nx_scan::scan::scan_token_into;
use nx_text::text::Text;
use std::alloc::Global;
use std::sync::ledger::Ledger;

/// What is kept of a machine's run over a text. It belongs to one text and one machine and holds
/// neither. Whoever changes the text says so by `edit`.
#[derive(Drop)]
pub struct Marks<A: Machine> {
    alloc: Global,
    pub kept: Kept<A::State>,
    pub taken: u64,
    /// The memory that one token after another is put in.
    token: Token,
}

/// Takes the token at the frontier, where the line is parted. Marks aside that it passes are dropped.
#[inline(always)]
fn take_here<A: Machine>(
    alloc: Global,
    machine: &mut A,
    text: &Text,
    line: &mut Line<A::State>,
    token: &mut Token,
) -> Result<(), NoMemory>
    requires right { IsRight (A.is_state machine.old) (A.means machine.old) (A.rules machine.old) text.now line.old }
    requires rest { frontier_of line.old < length text.now }
    requires token { token.old ≡ cut text.now (frontier_of line.old) }
    requires settled { (0 < line.old.here.len) ⊎ (line.old.aside ≡ []) }
    ensures later { A.later machine.old machine.new }
    ensures right { IsRight (A.is_state machine.new) (A.means machine.new) (A.rules machine.new) text.now line.new }
    ensures on { OnOk result (frontier_of line.new ≡ frontier_of line.old + length token.old.bytes) }
    ensures near { OnOk result ((n end : ℕ) → WillReach (A.means machine.old) (A.rules machine.old) text.now n end line.old
        → 0 < line.old.here.len → (0 < n) × WillReach (A.means machine.new) (A.rules machine.new) text.now (n - 1) end line.new) }
    ensures off { OnErr result (frontier_of line.new ≡ frontier_of line.old) }
    ensures keeps { KeepsMarks (A.means machine.old) (A.rules machine.old) text.now line.old line.new }
{
    // A text whose length is read is known to be in UTF-8.
    let _len = text.len();
    begin_here(alloc, machine, text, line)?;
    let count = token.bytes.len();
    line.let_go(count);
    step(alloc, machine, text, line, token)
}

/// Cuts the token at the frontier, where the line is parted, and takes it. Marks aside that it passes are dropped.
#[inline(always)]
fn cut_and_take<A: Machine, L: Ledger>(
    alloc: Global,
    machine: &mut A,
    text: &Text,
    line: &mut Line<A::State>,
    token: &mut Token,
    steps: &mut Steps<L>,
) -> Result<(), NoMemory>
    requires right { IsRight (A.is_state machine.old) (A.means machine.old) (A.rules machine.old) text.now line.old }
    requires rest { frontier_of line.old < length text.now }
    requires settled { (0 < line.old.here.len) ⊎ (line.old.aside ≡ []) }
    ensures later { A.later machine.old machine.new }
    ensures right { IsRight (A.is_state machine.new) (A.means machine.new) (A.rules machine.new) text.now line.new }
    ensures on { OnOk result (MovesOver text.now (frontier_of line.old) 1 (frontier_of line.new)) }
    ensures near { OnOk result ((n end : ℕ) → WillReach (A.means machine.old) (A.rules machine.old) text.now n end line.old
        → 0 < line.old.here.len → (0 < n) × WillReach (A.means machine.new) (A.rules machine.new) text.now (n - 1) end line.new) }
    ensures off { OnErr result (frontier_of line.new ≡ frontier_of line.old) }
    ensures keeps { KeepsMarks (A.means machine.old) (A.rules machine.old) text.now line.old line.new }
    ensures step { steps.new ≡ steps.old + 1 }
{
    // A text whose length is read is known to be in UTF-8.
    let _len = text.len();
    let at = line.frontier(false);
    scan_token_into(text, at, token, steps)?;
    take_here(alloc, machine, text, line, token)
}

/// Takes the token at the frontier, and parts the line there. Marks aside that it passes are dropped.
fn take<A: Machine, L: Ledger>(
    alloc: Global,
    machine: &mut A,
    text: &Text,
    kept: &mut Kept<A::State>,
    token: &mut Token,
    steps: &mut Steps<L>,
) -> Result<(), NoMemory>
    requires right { IsRight (A.is_state machine.old) (A.means machine.old) (A.rules machine.old) text.now kept.old }
    requires rest { frontier_of kept.old < length text.now }
    requires settled { (0 < kept.old.here.len) ⊎ (kept.old.aside ≡ []) }
    ensures later { A.later machine.old machine.new }
    ensures right { IsRight (A.is_state machine.new) (A.means machine.new) (A.rules machine.new) text.now kept.new }
    ensures on { OnOk result (MovesOver text.now (frontier_of kept.old) 1 (frontier_of kept.new)) }
    ensures near { OnOk result ((n end : ℕ) → WillReach (A.means machine.old) (A.rules machine.old) text.now n end kept.old
        → 0 < kept.old.here.len → (0 < n) × WillReach (A.means machine.new) (A.rules machine.new) text.now (n - 1) end kept.new) }
    ensures off { OnErr result (frontier_of kept.new ≡ frontier_of kept.old) }
    ensures keeps { KeepsMarks (A.means machine.old) (A.rules machine.old) text.now kept.old kept.new }
    ensures step { steps.new ≡ steps.old + 1 }
{
    // A text whose length is read is known to be in UTF-8.
    let _len = text.len();
    kept.line.arrive(kept.joined);
    kept.joined = false;
    cut_and_take(alloc, machine, text, &mut kept.line, token, steps)
}

/// Cuts the token at the frontier, where no mark is aside, and takes it. It stands in line in the usual loop, and so does what it calls
/// here.
#[inline(always)]
fn cut_and_take_alone<A: Machine, L: Ledger>(
    alloc: Global,
    machine: &mut A,
    text: &Text,
    line: &mut Line<A::State>,
    token: &mut Token,
    steps: &mut Steps<L>,
) -> Result<(), NoMemory>
    requires right { IsRight (A.is_state machine.old) (A.means machine.old) (A.rules machine.old) text.now line.old }
    requires rest { frontier_of line.old < length text.now }
    requires none_aside { line.old.aside ≡ [] }
    ensures later { A.later machine.old machine.new }
    ensures right { IsRight (A.is_state machine.new) (A.means machine.new) (A.rules machine.new) text.now line.new }
    ensures on { OnOk result (MovesOver text.now (frontier_of line.old) 1 (frontier_of line.new)) }
    ensures off { OnErr result (frontier_of line.new ≡ frontier_of line.old) }
    ensures keeps { KeepsMarks (A.means machine.old) (A.rules machine.old) text.now line.old line.new }
    ensures step { steps.new ≡ steps.old + 1 }
{
    // A text whose length is read is known to be in UTF-8.
    let _len = text.len();
    let at = line.frontier(false);
    scan_token_into(text, at, token, steps)?;
    begin_here(alloc, machine, text, line)?;
    step_alone(alloc, machine, text, line, token)
}

/// Takes tokens where no mark is aside, until so many are taken, or none is left.
fn take_rest<A: Machine, L: Ledger>(
    alloc: Global,
    machine: &mut A,
    text: &Text,
    line: &mut Line<A::State>,
    token: &mut Token,
    taken: &mut u64,
    n: u64,
    steps: &mut Steps<L>,
) -> Result<(), NoMemory>
    requires right { IsRight (A.is_state machine.old) (A.means machine.old) (A.rules machine.old) text.now line.old }
    requires most { taken.old ≤ n }
    requires none_aside { line.old.aside ≡ [] }
    ensures later { A.later machine.old machine.new }
    ensures right { IsRight (A.is_state machine.new) (A.means machine.new) (A.rules machine.new) text.now line.new }
    ensures more { taken.old ≤ taken.new }
    ensures most { taken.new ≤ n }
    ensures steps { steps.new + taken.old ≡ steps.old + taken.new }
    ensures frontier { frontier_of line.old ≤ frontier_of line.new }
    ensures on { OnOk result (MovesOver text.now (frontier_of line.old) (taken.new - taken.old) (frontier_of line.new)) }
    ensures enough { OnOk result ((taken.new ≡ n) ⊎ (frontier_of line.new ≡ length text.now)) }
    ensures none_aside { line.new.aside ≡ [] }
    ensures keeps { KeepsMarks (A.means machine.old) (A.rules machine.old) text.now line.old line.new }
{
    let len = text.len();
    while line.frontier(false) < len && *taken < n {
        *taken += 1;
        cut_and_take_alone(alloc, machine, text, line, token, steps)?;
    }
    Ok(())
}

/// Parts the line at the frontier, and takes tokens where no mark is aside.
fn part_and_take_rest<A: Machine, L: Ledger>(
    alloc: Global,
    machine: &mut A,
    text: &Text,
    kept: &mut Kept<A::State>,
    token: &mut Token,
    taken: &mut u64,
    n: u64,
    steps: &mut Steps<L>,
) -> Result<(), NoMemory>
    requires right { IsRight (A.is_state machine.old) (A.means machine.old) (A.rules machine.old) text.now kept.old }
    requires most { taken.old ≤ n }
    requires none_aside { kept.old.aside ≡ [] }
    ensures later { A.later machine.old machine.new }
    ensures right { IsRight (A.is_state machine.new) (A.means machine.new) (A.rules machine.new) text.now kept.new }
    ensures more { taken.old ≤ taken.new }
    ensures most { taken.new ≤ n }
    ensures steps { steps.new + taken.old ≡ steps.old + taken.new }
    ensures frontier { frontier_of kept.old ≤ frontier_of kept.new }
    ensures on { OnOk result (MovesOver text.now (frontier_of kept.old) (taken.new - taken.old) (frontier_of kept.new)) }
    ensures enough { OnOk result ((taken.new ≡ n) ⊎ (frontier_of kept.new ≡ length text.now)) }
    ensures none_aside { kept.new.aside ≡ [] }
    ensures keeps { KeepsMarks (A.means machine.old) (A.rules machine.old) text.now kept.old kept.new }
{
    kept.line.arrive(kept.joined);
    kept.joined = false;
    take_rest(alloc, machine, text, &mut kept.line, token, taken, n, steps)
}

impl<A: Machine> Marks<A> {
    /// Nothing was taken yet, of whatever text.
    pub fn new(alloc: Global, machine: &mut A) -> Result<Marks<A>, NoMemory>
        ensures later { A.later machine.old machine.new }
        ensures right { IfOk result (λ marks. (text : List ℕ) → IsUtf8 text
            → IsRight (A.is_state machine.new) (A.means machine.new) (A.rules machine.new) text marks.kept) }
        ensures frontier { IfOk result (λ marks. frontier_of marks.kept ≡ 0) }
        ensures taken { IfOk result (λ marks. marks.taken ≡ 0) }
        ensures none { IfOk result (λ marks. (marks.kept.front ≡ []) × (marks.kept.aside ≡ [])) }
        ensures meant { IfOk result (λ marks. kept_by (A.means machine.new) marks.kept ≡ started (A.rules machine.new).first) }
    {
        let first = machine.start(alloc)?;
        Ok(Marks {
            alloc,
            kept: Kept::start(alloc, first),
            taken: 0,
            token: Token {
                kind: TokenKind::Text,
                from: 0,
                bytes: Bytes::new(alloc),
            },
        })
    }

    /// Tells an edit that was made on the text. It takes no memory.
    ///
    /// Where the frontier is at or behind the edit's first place, it goes back to the last mark before that place, or to 0. The
    /// marks of the old text that the edit leaves go aside.
    pub fn edit(&mut self, edit: &Edit)
        ensures right { (a : A) (text added : List ℕ) → IsUtf8 text → IsUtf8 added → IsPlace text edit.now.from
            → IsPlace text edit.now.to → edit.now.from ≤ edit.now.to → edit.now.added ≡ length added
            → length text < 2 ^ 64 → length (edited text edit.now.from edit.now.to added) < 2 ^ 64
            → IsRight (A.is_state a) (A.means a) (A.rules a) text self.old.kept
            → IsRight (A.is_state a) (A.means a) (A.rules a) (edited text edit.now.from edit.now.to added) self.new.kept }
        ensures told { (a : A) (text added : List ℕ) → IsUtf8 text → IsUtf8 added → IsPlace text edit.now.from
            → IsPlace text edit.now.to → edit.now.from ≤ edit.now.to → edit.now.added ≡ length added
            → length text < 2 ^ 64 → length (edited text edit.now.from edit.now.to added) < 2 ^ 64
            → IsRight (A.is_state a) (A.means a) (A.rules a) text self.old.kept
            → self.new.kept ≡ edit_kept edit.now.from edit.now.to edit.now.added self.old.kept }
        ensures frontier { FrontierAfterEdit edit.now.from (frontier_of self.old.kept) (frontier_of self.new.kept) }
        ensures fits { edit.now.from ≤ edit.now.to → Fits edit.now.from edit.now.to edit.now.added self.old.kept
            → AreWhole self.old.kept.front
            → self.old.kept.here.whole ≡ false → self.new.kept ≡ edit_kept edit.now.from edit.now.to edit.now.added self.old.kept }
        ensures taken { self.new.taken ≡ self.old.taken }
    {
        self.kept.note();
        self.kept.edit(edit);
    }

    /// Takes the token at the frontier, and joins the marks aside that lie behind it.
    fn go_on<L: Ledger>(
        &mut self,
        machine: &mut A,
        text: &Text,
        steps: &mut Steps<L>,
    ) -> Result<(), NoMemory>
        requires right { IsRight (A.is_state machine.old) (A.means machine.old) (A.rules machine.old) text.now self.old.kept }
        requires rest { frontier_of self.old.kept < length text.now }
        requires settled { (0 < self.old.kept.here.len) ⊎ (self.old.kept.aside ≡ []) }
        ensures later { A.later machine.old machine.new }
        ensures right { IsRight (A.is_state machine.new) (A.means machine.new) (A.rules machine.new) text.now self.new.kept }
        ensures on { OnOk result (MovesOver text.now (frontier_of self.old.kept) 1 (frontier_of self.new.kept)) }
        ensures near { OnOk result ((n end : ℕ) → ReachesIn (A.means machine.old) (A.rules machine.old) text.now n end self.old.kept
            → ((0 < n) ⊎ (end ≤ frontier_of self.old.kept)) × ReachesIn (A.means machine.new) (A.rules machine.new) text.now (n - 1) end self.new.kept) }
        ensures settled { OnOk result ((0 < self.new.kept.here.len) ⊎ (self.new.kept.aside ≡ [])) }
        ensures keeps { KeepsMarks (A.means machine.old) (A.rules machine.old) text.now self.old.kept self.new.kept }
        ensures off { OnErr result (frontier_of self.new.kept ≡ frontier_of self.old.kept) }
        ensures taken { self.new.taken ≡ self.old.taken }
        ensures step { steps.new ≡ steps.old + 1 }
    {
        // A text whose length is read is known to be in UTF-8.
        let _len = text.len();
        take(
            self.alloc,
            machine,
            text,
            &mut self.kept,
            &mut self.token,
            steps,
        )?;
        rejoin(machine, &mut self.kept);
        Ok(())
    }

    /// Takes tokens where no mark is aside, until `n` are taken with those before, or none is left. So the usual way asks nothing of
    /// what is aside, and counts outside of memory.
    fn finish<L: Ledger>(
        &mut self,
        machine: &mut A,
        text: &Text,
        n: u64,
        steps: &mut Steps<L>,
    ) -> Result<(), NoMemory>
        requires right { IsRight (A.is_state machine.old) (A.means machine.old) (A.rules machine.old) text.now self.old.kept }
        requires most { self.old.taken ≤ n }
        requires none_aside { self.old.kept.aside ≡ [] }
        ensures later { A.later machine.old machine.new }
        ensures right { IsRight (A.is_state machine.new) (A.means machine.new) (A.rules machine.new) text.now self.new.kept }
        ensures more { self.old.taken ≤ self.new.taken }
        ensures most { self.new.taken ≤ n }
        ensures steps { steps.new + self.old.taken ≡ steps.old + self.new.taken }
        ensures frontier { frontier_of self.old.kept ≤ frontier_of self.new.kept }
        ensures on { OnOk result (MovesOver text.now (frontier_of self.old.kept) (self.new.taken - self.old.taken) (frontier_of self.new.kept)) }
        ensures enough { OnOk result ((self.new.taken ≡ n) ⊎ (frontier_of self.new.kept ≡ length text.now)) }
        ensures none_aside { self.new.kept.aside ≡ [] }
        ensures keeps { KeepsMarks (A.means machine.old) (A.rules machine.old) text.now self.old.kept self.new.kept }
    {
        let mut taken = self.taken;
        let done = part_and_take_rest(
            self.alloc,
            machine,
            text,
            &mut self.kept,
            &mut self.token,
            &mut taken,
            n,
            steps,
        );
        self.taken = taken;
        done
    }

    /// Takes `n` tokens, or all that are left, and joins rows; marks that an edit took out may be left.
    fn take_up_to<L: Ledger>(
        &mut self,
        machine: &mut A,
        text: &Text,
        n: u64,
        steps: &mut Steps<L>,
    ) -> Result<(), NoMemory>
        requires right { IsRight (A.is_state machine.old) (A.means machine.old) (A.rules machine.old) text.now self.old.kept }
        ensures later { A.later machine.old machine.new }
        ensures right { IsRight (A.is_state machine.new) (A.means machine.new) (A.rules machine.new) text.now self.new.kept }
        ensures steps { steps.new ≡ steps.old + self.new.taken }
        ensures most { self.new.taken ≤ n }
        ensures frontier { frontier_of self.old.kept ≤ frontier_of self.new.kept }
        ensures on { OnOk result (MovesOver text.now (frontier_of self.old.kept) self.new.taken (frontier_of self.new.kept)) }
        ensures enough { OnOk result ((self.new.taken ≡ n) ⊎ (frontier_of self.new.kept ≡ length text.now)) }
        ensures joined { OnOk result ((count end : ℕ) → WillReach (A.means machine.old) (A.rules machine.old) text.now count end self.old.kept
            → count ≤ self.new.taken → MovesOver text.now end (self.new.taken - count) (frontier_of self.new.kept)) }
        ensures few { OnOk result ((count : ℕ) → WillJoin (A.means machine.old) (A.rules machine.old) text.now count self.old.kept
            → self.new.taken ≤ count) }
        ensures none_aside { frontier_of self.new.kept ≡ length text.now → self.new.kept.aside ≡ [] }
        ensures settled { OnOk result ((0 < self.new.kept.here.len) ⊎ (self.new.kept.aside ≡ [])) }
        ensures keeps { KeepsMarks (A.means machine.old) (A.rules machine.old) text.now self.old.kept self.new.kept }
    {
        let len = text.len();
        self.taken = 0;
        rejoin(machine, &mut self.kept);
        while self.kept.frontier() < len && self.taken < n {
            if self.kept.none_aside() {
                return self.finish(machine, text, n, steps);
            }
            self.taken += 1;
            self.go_on(machine, text, steps)?;
        }
        Ok(())
    }

    /// Takes `n` tokens, or all that are left where there are fewer. Where the frontier reaches a mark aside in a state that means
    /// the same, the row of that mark is valid again, and the frontier goes on to its end without tokens.
    pub fn slice<L: Ledger>(
        &mut self,
        machine: &mut A,
        text: &Text,
        n: u64,
        steps: &mut Steps<L>,
    ) -> Result<(), NoMemory>
        requires right { IsRight (A.is_state machine.old) (A.means machine.old) (A.rules machine.old) text.now self.old.kept }
        ensures later { A.later machine.old machine.new }
        ensures right { IsRight (A.is_state machine.new) (A.means machine.new) (A.rules machine.new) text.now self.new.kept }
        ensures steps { steps.new ≡ steps.old + self.new.taken }
        ensures most { self.new.taken ≤ n }
        ensures frontier { frontier_of self.old.kept ≤ frontier_of self.new.kept }
        ensures on { OnOk result (MovesOver text.now (frontier_of self.old.kept) self.new.taken (frontier_of self.new.kept)) }
        ensures enough { OnOk result ((self.new.taken ≡ n) ⊎ (frontier_of self.new.kept ≡ length text.now)) }
        ensures joined { OnOk result ((count end : ℕ) → WillReach (A.means machine.old) (A.rules machine.old) text.now count end self.old.kept
            → count ≤ self.new.taken → MovesOver text.now end (self.new.taken - count) (frontier_of self.new.kept)) }
        ensures few { OnOk result ((count : ℕ) → WillJoin (A.means machine.old) (A.rules machine.old) text.now count self.old.kept
            → self.new.taken ≤ count) }
        ensures none_aside { frontier_of self.new.kept ≡ length text.now → self.new.kept.aside ≡ [] }
        ensures settled { OnOk result ((0 < self.new.kept.here.len) ⊎ (self.new.kept.aside ≡ [])) }
        ensures keeps { KeepsMarks (A.means machine.old) (A.rules machine.old) text.now self.old.kept self.new.kept }
    {
        let done = self.take_up_to(machine, text, n, steps);
        let is_over = done.is_err() || self.kept.frontier() == text.len();
        self.kept.drop_rest(is_over);
        done
    }

    /// Takes all tokens that are left, or joins marks aside that lead to the end.
    pub fn catch_up<L: Ledger>(
        &mut self,
        machine: &mut A,
        text: &Text,
        steps: &mut Steps<L>,
    ) -> Result<(), NoMemory>
        requires right { IsRight (A.is_state machine.old) (A.means machine.old) (A.rules machine.old) text.now self.old.kept }
        ensures later { A.later machine.old machine.new }
        ensures right { IsRight (A.is_state machine.new) (A.means machine.new) (A.rules machine.new) text.now self.new.kept }
        ensures steps { steps.new ≡ steps.old + self.new.taken }
        ensures frontier { frontier_of self.old.kept ≤ frontier_of self.new.kept }
        ensures on { OnOk result (MovesOver text.now (frontier_of self.old.kept) self.new.taken (frontier_of self.new.kept)) }
        ensures all { OnOk result (frontier_of self.new.kept ≡ length text.now) }
        ensures none_aside { frontier_of self.new.kept ≡ length text.now → self.new.kept.aside ≡ [] }
        ensures joined { OnOk result ((count end : ℕ) → WillReach (A.means machine.old) (A.rules machine.old) text.now count end self.old.kept
            → count ≤ self.new.taken → MovesOver text.now end (self.new.taken - count) (frontier_of self.new.kept)) }
        ensures bound { OnOk result ((count : ℕ) → WillJoin (A.means machine.old) (A.rules machine.old) text.now count self.old.kept
            → self.new.taken ≤ token_count text.now (frontier_of self.old.kept) (frontier_of self.old.kept + self.old.kept.here.len)) }
        ensures few { OnOk result ((count : ℕ) → WillJoin (A.means machine.old) (A.rules machine.old) text.now count self.old.kept
            → self.new.taken ≤ count) }
        ensures keeps { KeepsMarks (A.means machine.old) (A.rules machine.old) text.now self.old.kept self.new.kept }
    {
        // A text has fewer bytes, so fewer tokens, than the greatest number.
        let _len = text.len();
        self.slice(machine, text, u64::MAX, steps)?;
        Ok(())
    }

    /// The faults of the whole text, whose length is `len` bytes: those of its tokens and those of its end.
    pub fn faults(&self, machine: &mut A, len: usize) -> Result<Faults, NoMemory>
        requires right { IsRightForLength (A.is_state machine.old) (A.means machine.old) (A.rules machine.old) len self.now.kept }
        requires all { frontier_of self.now.kept ≡ len }
        ensures later { A.later machine.old machine.new }
        ensures faults { IfOk result (λ faults. (text : List ℕ) → IsUtf8 text → length text ≡ len
            → IsRight (A.is_state machine.old) (A.means machine.old) (A.rules machine.old) text self.now.kept
            → faults ≡ machine_faults (A.rules machine.old) text) }
    {
        let mut faults = self.kept.faults(self.alloc)?;
        machine.at_end(self.alloc, self.kept.state(), len, &mut faults)?;
        Ok(faults)
    }

    /// The last mark at or before both a place and the frontier, or the start: its byte offset, and a copy of its state.
    pub fn mark_before(&self, machine: &A, at: usize) -> Result<(usize, A::State), NoMemory>
        requires { IsRightForSome (A.is_state machine.now) (A.means machine.now) (A.rules machine.now) self.now.kept }
        ensures { IfOk result (λ found. (text : List ℕ) → IsUtf8 text
            → IsRight (A.is_state machine.now) (A.means machine.now) (A.rules machine.now) text self.now.kept
            → IsMarkBefore (A.is_state machine.now) (A.means machine.now) (A.rules machine.now) text at self.now.kept found.0 found.1) }
    {
        let (place, mark) = self.kept.mark_before(at);
        let state = machine.copy(self.alloc, &mark.state)?;
        Ok((place, state))
    }

    /// The byte offset up to which tokens were taken.
    pub fn frontier(&self) -> usize
        ensures { result ≡ frontier_of self.now.kept }
    {
        self.kept.frontier()
    }

    /// How many tokens the last `slice` or `catch_up` took, and 0 before the first.
    pub fn taken(&self) -> u64
        ensures { result ≡ self.now.taken }
    {
        self.taken
    }
}
