//! The marks in front of a place.

ghost use Rattle.std.specs.Prelude.{◌≡◌, ◌⊎◌, ◌+◌, ◌-◌, ◌<◌, ◌≤◌, ◌^◌, ◌==◌, IfOk, IsSome, OnOk, OnErr, IsUtf8};
ghost use Rattle.std.specs.Prelude.{List, [], ◌∷◌, ◌++◌, length, None};
ghost use Rattle.std.specs.Option.{option_to_list};
ghost use Rattle.nx_base.specs.Rules.{lexeme_of, IsLexeme};
ghost use Rattle.nx_base.specs.Shifting.{placed};
ghost use Rattle.nx_marks.specs.Before.{LiesInFront};
ghost use Rattle.nx_marks.specs.Chain.{FaultsFit, faults_in, reach};
ghost use Rattle.nx_marks.specs.Right.{tags_behind};
ghost use Rattle.nx_marks.specs.Taking.{longer};
ghost use Rattle.nx_marks.specs.Tree.{count_up_to};
ghost use Rattle.nx_marks.specs.declared.mark.Mark.{Mark};

use crate::listing::add_faults;
use crate::mark::{Mark, lengthen};
use crate::single::Single;
use crate::tree::Tree;
use nx_base::fault::Faults;
use nx_base::machine::Machine;
use nx_base::memory::NoMemory;
use nx_base::token::Token;
use std::alloc::Global;
use std::marker::Model;

/// Marks of which the last is at hand, since each token makes its segment longer: the tree has all but that one, or all.
#[derive(Drop)]
pub(crate) struct Front<S> {
    below: Tree<S>,
    top: Option<Single<S>>,
    reach: usize,
}

impl<S> Model for Front<S> {
    ghost use Rattle.std.specs.Prelude.{◌++◌, List};
    ghost use Rattle.std.specs.Option.{option_to_list};
    ghost use Rattle.nx_marks.specs.Room.{Reaches};
    ghost use Rattle.nx_marks.specs.declared.mark.Mark.{Mark};

    ghost Value = { List (Mark S) };

    ghost view = { λ f. f.below ++ option_to_list f.top };

    ghost invariant = { λ f. Reaches (f.below ++ option_to_list f.top) f.reach };
}

/// Puts the last mark into the tree, too.
fn settle<S: Drop>(below: &mut Tree<S>, top: &mut Option<Single<S>>)
    requires count { length (below.old ++ option_to_list top.old) < 2 ^ 32 }
    requires reach { reach (below.old ++ option_to_list top.old) < 2 ^ 64 }
    ensures below { below.new ≡ below.old ++ option_to_list top.old }
    ensures top { top.new ≡ None }
{
    if let Some(last) = top.take() {
        below.push(last);
    }
}

/// Has the last mark at hand, where it mostly is; otherwise it is taken out of the tree.
#[inline(always)]
fn raise<S: Drop>(below: &mut Tree<S>, top: &mut Option<Single<S>>)
    requires { 0 < length (below.old ++ option_to_list top.old) }
    ensures all { below.new ++ option_to_list top.new ≡ below.old ++ option_to_list top.old }
    ensures some { IsSome top.new }
{
    if top.is_none() {
        *top = Some(below.pop_last());
    }
}

impl<S: Drop> Front<S> {
    /// No marks.
    pub(crate) fn empty() -> Front<S>
        ensures { result ≡ [] }
    {
        Front {
            below: Tree::empty(),
            top: None,
            reach: 0,
        }
    }

    /// How many there are.
    pub(crate) fn count(&self) -> usize
        ensures { result ≡ length self.now }
    {
        match &self.top {
            Some(_) => self.below.count() + 1,
            None => self.below.count(),
        }
    }

    /// Whether there is none.
    pub(crate) fn is_empty(&self) -> bool
        ensures { result ≡ (length self.now == 0) }
    {
        self.count() == 0
    }

    /// How many bytes they reach.
    pub(crate) fn reach(&self) -> usize
        ensures { result ≡ reach self.now }
    {
        self.reach
    }

    /// How many marks, from the first on, reach no farther than a place.
    pub(crate) fn count_up_to(&self, at: usize) -> usize
        ensures { result ≡ count_up_to at self.now }
    {
        if self.reach <= at {
            return self.count();
        }
        self.below.count_up_to(at)
    }

    /// How many marks, from the first on, reach less far than a place.
    pub(crate) fn count_before(&self, place: usize) -> usize
        ensures { ((place ≡ 0) × (result ≡ 0)) ⊎ ((0 < place) × (result ≡ count_up_to (place - 1) self.now)) }
    {
        match place.checked_sub(1) {
            Some(last) => self.count_up_to(last),
            None => 0,
        }
    }

    /// The last mark at or before a place, with its own place.
    pub(crate) fn find(&self, at: usize) -> (usize, &Mark<S>)
        requires { 0 < length self.now }
        ensures { LiesInFront at self.now result.0 result.1.now }
    {
        if let Some(top) = &self.top {
            let place = self.reach - top.get().len;
            if place <= at {
                return (place, top.get());
            }
        }
        let index = self.below.count_up_to(at).min(self.below.count() - 1);
        self.below.get(index)
    }

    /// How many tags lie behind the last mark.
    pub(crate) fn last_tags(&self) -> usize
        ensures { result ≡ tags_behind self.now }
    {
        if let Some(top) = &self.top {
            return top.get().tags;
        }
        let count = self.below.count();
        if count == 0 {
            return 0;
        }
        self.below.get(count - 1).1.tags
    }

    /// Adds the faults of all segments, in their places.
    pub(crate) fn add_faults(&self, faults: &mut Faults) -> Result<(), NoMemory>
        requires { FaultsFit self.now }
        ensures { OnOk result (faults.new ≡ faults.old ++ faults_in 0 self.now) }
    {
        let reach = self.reach();
        self.below.add_faults(self.below.count(), faults, 0)?;
        if let Some(top) = &self.top {
            let mark = top.get();
            add_faults(faults, &mark.faults, reach - mark.len)?;
        }
        Ok(())
    }

    /// Takes the marks behind so many away.
    pub(crate) fn split_off(&mut self, count: usize) -> Tree<S>
        requires { count ≤ length self.old }
        ensures all { self.old ≡ self.new ++ result }
        ensures count { length self.new ≡ count }
    {
        settle(&mut self.below, &mut self.top);
        let behind = self.below.split_off(count);
        self.reach = self.below.reach();
        behind
    }

    /// Puts a mark and others behind the last.
    pub(crate) fn extend(&mut self, middle: Single<S>, more: Tree<S>)
        requires count { length self.old + length more + 1 < 2 ^ 32 }
        requires reach { reach self.old + middle.len + reach more < 2 ^ 64 }
        ensures { self.new ≡ self.old ++ middle ∷ more }
    {
        settle(&mut self.below, &mut self.top);
        self.below.extend(middle, more);
        self.reach = self.below.reach();
    }

    /// Puts a mark behind the last.
    pub(crate) fn push(&mut self, mark: Single<S>)
        requires count { length self.old + 1 < 2 ^ 32 }
        requires reach { reach self.old + mark.len < 2 ^ 64 }
        ensures { self.new ≡ self.old ++ mark ∷ [] }
    {
        settle(&mut self.below, &mut self.top);
        let len = mark.get().len;
        self.reach += len;
        self.top = Some(mark);
    }
}

/// Has the machine take one more token, and makes the segment of the last mark longer by it, with its faults. How many tags lie
/// behind that mark then.
#[inline(always)]
pub(crate) fn lengthen_last<A: Machine>(
    alloc: Global,
    machine: &mut A,
    state: &mut A::State,
    token: &mut Token,
    front: &mut Front<A::State>,
) -> Result<usize, NoMemory>
    requires some { 0 < length front.old }
    requires state { A.is_state machine.old state.old }
    requires place { (before : List (Mark A.State)) (x : Mark A.State) → front.old ≡ before ++ x ∷ []
        → (A.rules machine.old).back (A.means machine.old state.old) ≤ x.len }
    requires room { reach front.old + length token.old.bytes < 2 ^ 64 }
    requires tags { tags_behind front.old + 1 < 2 ^ 64 }
    requires text { IsUtf8 token.old.bytes }
    requires kind { IsLexeme (lexeme_of token.old) }
    ensures later { A.later machine.old machine.new }
    ensures state { A.is_state machine.new state.new }
    ensures after { OnOk result (A.means machine.new state.new
        ≡ (A.rules machine.old).after (A.means machine.old state.old) (lexeme_of token.old)) }
    ensures longer { OnOk result ((before : List (Mark A.State)) (x : Mark A.State) → front.old ≡ before ++ x ∷ []
        → front.new ≡ before ++ longer x (lexeme_of token.old)
        (placed (x.len - (A.rules machine.old).back (A.means machine.old state.old))
        ((A.rules machine.old).gives (A.means machine.old state.old) (lexeme_of token.old))) ∷ []) }
    ensures tags { IfOk result (λ tags. tags ≡ tags_behind front.new) }
    ensures bytes { token.new.bytes ≡ token.old.bytes }
    ensures unchanged { OnErr result (A.means machine.new state.new ≡ A.means machine.old state.old) }
    ensures same { OnErr result (front.new ≡ front.old) }
{
    raise(&mut front.below, &mut front.top);
    let Some(last) = &mut front.top else {
        unreachable!()
    };
    let tags = lengthen(alloc, machine, state, token, &mut last.node.mark)?;
    front.reach += token.bytes.len();
    Ok(tags)
}
