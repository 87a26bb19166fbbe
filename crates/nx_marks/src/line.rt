//! Marks in a line, parted at a place.

ghost use Rattle.std.specs.Prelude.{◌≡◌, ◌⊎◌, ◌↔◌, ℕ, ◌+◌, ◌-◌, ◌<◌, ◌≤◌, ◌^◌, true, false, IsTrue, IfOk, OnOk, OnErr};
ghost use Rattle.std.specs.Prelude.{[], ◌∷◌, ◌++◌, length};
ghost use Rattle.nx_marks.specs.Chain.{AreWhole, FirstMeans, FaultsFit, OwnStates, faults_in, frontier_of, reach};
ghost use Rattle.nx_marks.specs.Editing.{edit_noted, noted};
ghost use Rattle.nx_marks.specs.Frontier.{FrontierAfterEdit};
ghost use Rattle.nx_marks.specs.Right.{IsRight, tags_behind};
ghost use Rattle.nx_marks.specs.Before.{IsLast};
ghost use Rattle.nx_marks.specs.Joined.{but_last, last, seen};
ghost use Rattle.nx_marks.specs.Bound.{WillReach};
ghost use Rattle.nx_marks.specs.Keeping.{KeepsMarks};
ghost use Rattle.nx_marks.specs.Ruling.{is_due};
ghost use Rattle.nx_base.specs.Tokens.{cut};
ghost use Rattle.nx_marks.specs.Starting.{started};
ghost use Rattle.nx_marks.specs.Taking.{begun, let_go};
ghost use Rattle.nx_marks.specs.Walking.{MovesBack, MovesOn, DropsBetween, PassesNext, PassesUpTo, TakesNext};
ghost use Rattle.nx_marks.specs.Walking.{GoesBack, GoesOn, ComesBack, Follows, Fits, cut_off};

use crate::front::{Front, lengthen_last};
use crate::listing::add_faults;
use crate::mark::Mark;
use crate::single::Single;
use crate::tree::Tree;
use nx_base::edit::Edit;
use nx_base::fault::Faults;
use nx_base::machine::Machine;
use nx_base::memory::NoMemory;
use nx_base::token::Token;
use nx_text::text::Text;
use std::alloc::Global;
use std::marker::Model;
use std::mem;

/// The marks up to a place, the one there, and the marks behind it, which are aside. However many marks the place passes, it moves in
/// steps that grow with the depth of a tree alone, and without memory.
#[derive(Drop)]
pub struct Line<S> {
    pub(crate) front: Front<S>,
    pub(crate) here: Mark<S>,
    /// Whether a mark stands at the frontier.
    pub(crate) marked: bool,
    pub(crate) aside: Tree<S>,
    /// Marks that the last edit took out which took out any. They are dropped as marks are made, a few at a time, so that a new one stands
    /// in memory that was just looked at, and the rest where reading ends.
    to_drop: Tree<S>,
}

impl<S> Model for Line<S> {
    ghost use Rattle.nx_marks.specs.Chain.{Kept};
    ghost use Rattle.nx_marks.specs.Room.{Held};

    ghost Value = { Kept S };

    ghost view = { λ k. record { front = k.front; here = k.here; marked = k.marked; aside = k.aside } };

    ghost invariant = { λ k. Held k.front k.here k.aside };
}

/// So many marks are dropped at once.
const DROPPED: usize = 32;

/// Drops some marks where so many were made that it is time.
fn drop_some<S: Drop>(marks: &mut Tree<S>, made: usize) {
    if made % DROPPED == 0 {
        marks.drop_first(DROPPED);
    }
}

/// Drops all faults.
fn clear(faults: &mut Faults)
    ensures { faults.new ≡ [] }
{
    let count = faults.len();
    faults.cut(0, count);
}

/// One more than so many, or all.
fn one_more(count: usize, all: usize) -> usize
    ensures most { (result ≤ count + 1) × (result ≤ all) }
    ensures either { (result ≡ all) ⊎ (result ≡ count + 1) }
{
    if count < all { count + 1 } else { all }
}

impl<S: Drop> Line<S> {
    /// Nothing is taken yet.
    pub(crate) fn start(alloc: Global, state: S) -> Line<S>
        ensures { result ≡ started state }
    {
        Line {
            front: Front::empty(),
            here: Mark {
                state,
                len: 0,
                tags: 0,
                faults: Faults::new(alloc),
                whole: false,
                saved: false,
            },
            marked: true,
            aside: Tree::empty(),
            to_drop: Tree::empty(),
        }
    }

    /// Goes so many marks back.
    fn move_back(&mut self, count: usize)
        requires { count ≤ length self.old.front }
        ensures { MovesBack count self.old self.new }
    {
        if count == 0 {
            return;
        }
        let kept = self.front.count() - count;
        let mut passed = self.front.split_off(kept);
        let mut node = passed.pop_first();
        node.swap(&mut self.here);
        let behind = mem::replace(&mut self.aside, passed);
        self.aside.extend(node, behind);
    }

    /// Goes so many marks on.
    fn move_on(&mut self, count: usize)
        requires { count ≤ length self.old.aside }
        ensures { MovesOn count self.old self.new }
    {
        if count == 0 {
            return;
        }
        let behind = self.aside.split_off(count);
        let mut node = self.aside.pop_last();
        node.swap(&mut self.here);
        let passed = mem::replace(&mut self.aside, behind);
        self.front.extend(node, passed);
    }

    /// Where the next mark lies, if there is one.
    fn next(&self) -> usize
        ensures place { result ≡ frontier_of self.now + self.now.here.len }
        ensures fits { result + reach self.now.aside < 2 ^ 64 }
    {
        self.front.reach() + self.here.len
    }

    /// Whether no mark is aside.
    pub(crate) fn none_aside(&self) -> bool
        ensures { IsTrue result → self.now.aside ≡ [] }
    {
        self.aside.is_empty()
    }

    /// Whether the next mark is at the same place.
    pub(crate) fn is_at_next(&self) -> bool
        ensures there { IsTrue result → (self.now.here.len ≡ 0) × (0 < length self.now.aside) }
        ensures not { result ≡ false → (0 < self.now.here.len) ⊎ (self.now.aside ≡ []) }
    {
        !self.aside.is_empty() && self.here.len == 0
    }

    /// Goes back to the last mark before a place, or to the start.
    fn go_back(&mut self, from: usize)
        requires { from ≤ frontier_of self.old }
        ensures { GoesBack from self.old self.new }
    {
        let kept = self.front.count_before(from);
        let count = self.front.count() - kept;
        self.move_back(count);
    }

    /// Goes on to the last mark before a place.
    fn go_on(&mut self, from: usize)
        requires { frontier_of self.old < from }
        ensures { GoesOn from self.old self.new }
    {
        let next = self.next();
        if next >= from {
            return;
        }
        let before = self.aside.count_up_to(from - 1 - next);
        let count = one_more(before, self.aside.count());
        self.move_on(count);
    }

    /// Has the last mark of all say that it is no mark, unless it is whole.
    pub(crate) fn note_last(&mut self)
        ensures { seen true self.new ≡ noted (seen true self.old) }
    {
        if self.aside.is_empty() {
            self.here.saved = false;
        } else {
            let mut last = self.aside.pop_last();
            last.unsave();
            self.aside.push(last);
        }
    }

    /// Goes back until so many marks are in front.
    fn come_back(&mut self, len: usize)
        requires { len ≤ length self.old.front }
        ensures { ComesBack len self.old self.new }
    {
        let count = self.front.count() - len;
        self.move_back(count);
    }

    /// Lets the marks go that lie in an edit, and what was known of the tokens in front of it. The mark at hand is the last
    /// before the edit, or the start.
    fn cut_off(&mut self, edit: &Edit)
        requires before { (frontier_of self.old < edit.now.from) ⊎ (frontier_of self.old ≡ 0) }
        requires there { (self.old.aside ≡ []) ⊎ (edit.now.from ≤ frontier_of self.old + self.old.here.len) }
        ensures cut { edit.now.from ≤ edit.now.to → Fits edit.now.from edit.now.to edit.now.added self.old
            → self.new ≡ cut_off edit.now.from edit.now.to edit.now.added self.old }
        ensures front { self.new.front ≡ self.old.front }
        ensures marked { self.new.marked ≡ self.old.marked }
    {
        let next = self.next();
        if next < edit.from {
            return;
        }
        let kept = self.drop_between(next, edit.to);
        let moved = edit
            .from
            .saturating_add(edit.added)
            .saturating_add(kept.saturating_sub(edit.to));
        let at = self.front.reach();
        let room = usize::MAX - at - self.aside.reach();
        self.here.len = moved.saturating_sub(at).min(room);
        self.here.tags = 0;
        self.here.saved = self.here.is_mark();
        self.here.whole = false;
        clear(&mut self.here.faults);
    }

    /// Takes out the marks aside up to a place, to be dropped; the first of them lies at `next`. Where the first that stays lies.
    fn drop_between(&mut self, next: usize, to: usize) -> usize
        requires { next + reach self.old.aside < 2 ^ 64 }
        ensures { DropsBetween next to self.old self.new result }
    {
        if next > to {
            return next;
        }
        let before = self.aside.count_up_to(to - next);
        let count = one_more(before, self.aside.count());
        let kept = self.aside.split_off(count);
        let gone = mem::replace(&mut self.aside, kept);
        let passed = gone.reach();
        drop(mem::replace(&mut self.to_drop, gone));
        next + passed
    }

    /// Has the state at the frontier say that it is no mark, since an edit may put it aside, where a row ends with it.
    pub(crate) fn note(&mut self)
        ensures { self.new ≡ noted self.old }
    {
        self.here.saved = false;
    }

    /// An edit behind the frontier, which is at the place: marks aside from the edit on are dropped.
    pub(crate) fn edit_behind(&mut self, edit: &Edit)
        requires { frontier_of self.old < edit.now.from }
        ensures frontier { FrontierAfterEdit edit.now.from (frontier_of self.old) (frontier_of self.new) }
        ensures edited { edit.now.from ≤ edit.now.to → Fits edit.now.from edit.now.to edit.now.added self.old
            → AreWhole self.old.front → self.old.here.whole ≡ false
            → self.new ≡ edit_noted edit.now.from edit.now.to edit.now.added self.old }
    {
        let len = self.front.count();
        self.go_on(edit.from);
        self.cut_off(edit);
        self.come_back(len);
    }

    /// An edit at or before the frontier: it goes back before the edit, and the marks from there on are dropped or aside.
    pub(crate) fn edit_at(&mut self, joined: bool, edit: &Edit)
        requires { edit.now.from ≤ frontier_of (seen joined self.old) }
        ensures frontier { FrontierAfterEdit edit.now.from (frontier_of (seen joined self.old)) (frontier_of self.new) }
        ensures edited { edit.now.from ≤ edit.now.to → Fits edit.now.from edit.now.to edit.now.added (seen joined self.old)
            → AreWhole (seen joined self.old).front → (seen joined self.old).here.whole ≡ false
            → self.new ≡ edit_noted edit.now.from edit.now.to edit.now.added (seen joined self.old) }
    {
        self.go_before(joined, edit.from);
        self.cut_off(edit);
        self.marked = true;
    }

    /// Goes to the last mark before a place that isn't behind the frontier, or to the start.
    fn go_before(&mut self, joined: bool, from: usize)
        requires { from ≤ frontier_of (seen joined self.old) }
        ensures { GoesBack from (seen joined self.old) self.new }
    {
        if joined && self.front.reach() < from {
            self.go_on(from);
        } else {
            self.go_back(from);
        }
    }

    /// Goes on to the frontier.
    pub(crate) fn arrive(&mut self, joined: bool)
        ensures { self.new ≡ seen joined self.old }
    {
        if joined {
            let count = self.aside.count();
            self.move_on(count);
        }
    }

    /// Drops the first mark aside, since the frontier is there or goes past it.
    pub(crate) fn pass_next(&mut self)
        requires { 0 < length self.old.aside }
        ensures { PassesNext self.old self.new }
    {
        let mark = self.aside.pop_first();
        self.here.len += mark.get().len;
    }

    /// Drops the marks aside until the next one is so many bytes behind the frontier, or none is left.
    fn pass_up_to(&mut self, count: usize)
        ensures { PassesUpTo count self.old self.new }
    {
        while !self.aside.is_empty() && self.here.len < count {
            self.pass_next();
        }
    }

    /// Drops the marks aside that so many bytes behind the frontier pass.
    pub(crate) fn let_go(&mut self, count: usize)
        requires { frontier_of self.old + count < 2 ^ 64 }
        ensures { self.new ≡ let_go count self.old.here self.old.front self.old.marked self.old.aside }
    {
        self.pass_up_to(count);
        if !self.aside.is_empty() {
            return;
        }
        self.here.len = count;
    }

    /// Drops what is left of the marks that an edit took out.
    pub(crate) fn drop_rest(&mut self)
        ensures { self.new ≡ self.old }
    {
        drop(mem::replace(&mut self.to_drop, Tree::empty()));
    }

    /// Goes on to the end of the row that begins with the mark at hand.
    pub(crate) fn follow(&mut self)
        ensures { Follows self.old self.new }
    {
        if self.here.whole {
            let whole = self.aside.whole_count();
            let count = one_more(whole, self.aside.count());
            self.move_on(count);
        }
    }

    /// Puts the first mark aside in the place of the one at hand.
    pub(crate) fn take_next(&mut self)
        requires { 0 < length self.old.aside }
        ensures { TakesNext self.old self.new }
    {
        let mut next = self.aside.pop_first();
        next.swap(&mut self.here);
    }

    /// How many marks are in front.
    pub(crate) fn front_len(&self) -> usize
        ensures { result ≡ length self.now.front }
    {
        self.front.count()
    }

    /// How many tags lie behind the last mark of the front.
    pub(crate) fn last_tags(&self) -> usize
        ensures { result ≡ tags_behind self.now.front }
    {
        self.front.last_tags()
    }

    /// Whether the mark at hand and all that is aside are one row, with a segment at the least.
    pub(crate) fn is_row(&self) -> bool
        ensures some { IsTrue result → 0 < length self.now.aside }
        ensures row { IsTrue result → Follows self.now (seen true self.now) }
    {
        if !self.here.whole {
            return false;
        }
        if self.aside.is_empty() {
            return false;
        }
        self.aside.whole_count() >= self.aside.count() - 1
    }

    /// The state at the frontier.
    pub(crate) fn state(&self, joined: bool) -> &S
        ensures { result.now ≡ (seen joined self.now).here.state }
    {
        if joined {
            &self.last().state
        } else {
            &self.here.state
        }
    }

    /// The last mark of all.
    pub(crate) fn last(&self) -> &Mark<S>
        ensures { result.now ≡ last self.now.here self.now.aside }
    {
        let count = self.aside.count();
        if count == 0 {
            return &self.here;
        }
        self.aside.get(count - 1).1
    }

    /// How many tags lie in front of the last mark of all, behind the one before it.
    pub(crate) fn tags_before_last(&self) -> usize
        requires { 0 < length self.now.aside }
        ensures { result ≡ tags_behind (seen true self.now).front }
    {
        let count = self.aside.count();
        if count == 1 {
            return self.here.tags;
        }
        self.aside.get(count - 2).1.tags
    }

    /// Where the last mark of all lies. It stands outside of the loop over tokens, which seldom asks.
    #[inline(never)]
    fn end(&self) -> usize
        ensures { result ≡ frontier_of (seen true self.now) }
    {
        let count = self.aside.count();
        if count == 0 {
            return self.front.reach();
        }
        self.next() + self.aside.get(count - 1).0
    }

    /// The frontier as a byte offset.
    pub(crate) fn frontier(&self, joined: bool) -> usize
        ensures { result ≡ frontier_of (seen joined self.now) }
    {
        if joined {
            self.end()
        } else {
            self.front.reach()
        }
    }

    /// How many marks aside there are up to the frontier, if that is at the last of them.
    fn marks_aside(&self) -> usize
        requires { 0 < length self.now.aside }
        ensures marked { self.now.marked ≡ true → result ≡ length self.now.aside }
        ensures not { self.now.marked ≡ false → result + 1 ≡ length self.now.aside }
    {
        if self.marked {
            self.aside.count()
        } else {
            self.aside.count() - 1
        }
    }

    /// The last mark aside up to the frontier that is at or before a place, or the one at hand, with its byte offset.
    fn find_aside(&self, at: usize) -> (usize, &Mark<S>)
        requires some { 0 < length self.now.aside }
        requires there { frontier_of self.now ≤ at }
        ensures { IsLast at result.0 (seen true self.now) result.1.now }
    {
        let count = self.marks_aside();
        let next = self.next();
        if next > at || count == 0 {
            return (self.front.reach(), &self.here);
        }
        let before = self.aside.count_up_to(at - next);
        let (place, mark) = self.aside.get(one_more(before, count) - 1);
        (next + place, mark)
    }

    /// The last mark at or before both a place and the one at hand, or the start, with its byte offset.
    fn mark_up_to_here(&self, at: usize) -> (usize, &Mark<S>)
        requires { self.now.marked ≡ false → 0 < length self.now.front }
        ensures { IsLast at result.0 self.now result.1.now }
    {
        let here = self.front.reach();
        if self.front.is_empty() {
            return (here, &self.here);
        }
        if self.marked && here <= at {
            return (here, &self.here);
        }
        self.front.find(at)
    }

    /// The last mark at or before both a place and the frontier, or the start, with its byte offset.
    pub(crate) fn mark_before(&self, joined: bool, at: usize) -> (usize, &Mark<S>)
        requires { (seen joined self.now).marked ≡ false → 0 < length (seen joined self.now).front }
        ensures { IsLast at result.0 (seen joined self.now) result.1.now }
    {
        if !joined || self.aside.is_empty() {
            return self.mark_up_to_here(at);
        }
        if self.front.reach() <= at {
            return self.find_aside(at);
        }
        self.front.find(at)
    }

    /// The faults of the segments in front, in their places.
    pub(crate) fn faults(&self, alloc: Global) -> Result<Faults, NoMemory>
        requires { FaultsFit self.now.front }
        ensures { IfOk result (λ faults. faults ≡ faults_in 0 self.now.front) }
    {
        let mut faults = Faults::new(alloc);
        self.front.add_faults(&mut faults)?;
        Ok(faults)
    }

    /// Adds the faults of the segments from the mark at hand on, in their places.
    pub(crate) fn add_faults_behind(&self, faults: &mut Faults) -> Result<(), NoMemory>
        requires { FaultsFit (but_last self.now.here self.now.aside) }
        ensures { OnOk result (faults.new ≡ faults.old ++ faults_in (frontier_of self.now) (but_last self.now.here self.now.aside)) }
    {
        let count = self.aside.count();
        if count == 0 {
            return Ok(());
        }
        add_faults(faults, &self.here.faults, self.front.reach())?;
        self.aside.add_faults(count - 1, faults, self.next())
    }

    /// Saves a state that means what the one at the frontier does as a mark there. The mark gets the copy, which has no more memory
    /// than it needs; the state that goes on has grown, and may grow.
    pub(crate) fn begin(&mut self, alloc: Global, state: S) -> Result<(), NoMemory>
        ensures ok { OnOk result (self.new ≡ begun self.old state) }
        ensures err { OnErr result (self.new ≡ self.old) }
    {
        // Marks are counted in 32 bits. So many would take terabytes.
        if self.front.count() + self.aside.count() >= u32::MAX as usize - 1 {
            return Err(NoMemory);
        }
        let mark = Mark {
            state,
            len: 0,
            tags: 0,
            faults: Faults::new(alloc),
            whole: true,
            saved: true,
        };
        let made = self.front.count();
        drop_some(&mut self.to_drop, made);
        self.front.push(Single::new(alloc, mark)?);
        self.marked = false;
        Ok(())
    }
}

/// Whether the first mark aside is a state that means what the one at the frontier does.
pub(crate) fn next_is_same<A: Machine>(machine: &A, line: &Line<A::State>) -> bool
    requires { OwnStates (A.is_state machine.now) line.now }
    ensures { IsTrue result ↔ FirstMeans (A.means machine.now) (A.means machine.now line.now.here.state) line.now.aside }
{
    if line.aside.is_empty() {
        return false;
    }
    let (_, next) = line.aside.get(0);
    machine.same(&next.state, &line.here.state)
}

/// Whether a mark is saved behind a token: no text run is pending, and as many tags lie since the last mark as elements are open,
/// and 16 at the least.
pub(crate) fn is_due<A: Machine>(machine: &A, state: &A::State, tags: usize) -> bool
    requires { A.is_state machine.now state.now }
    ensures { result ≡ is_due (A.rules machine.now) (A.means machine.now state.now) tags }
{
    // Mostly fewer tags lie there, and the state needn't be looked at.
    if tags < 16 {
        return false;
    }
    machine.may_mark(state) && machine.depth(state) <= tags
}

/// Saves a copy of the state at the frontier, where a mark stands. It stands outside of the loop over tokens.
#[inline(never)]
fn save_here<A: Machine>(
    alloc: Global,
    machine: &A,
    text: &Text,
    line: &mut Line<A::State>,
) -> Result<(), NoMemory>
    requires right { IsRight (A.is_state machine.now) (A.means machine.now) (A.rules machine.now) text.now line.old }
    requires marked { line.old.marked ≡ true }
    ensures right { IsRight (A.is_state machine.now) (A.means machine.now) (A.rules machine.now) text.now line.new }
    ensures unmarked { OnOk result (line.new.marked ≡ false) }
    ensures frontier { frontier_of line.new ≡ frontier_of line.old }
    ensures near { (n end : ℕ) → WillReach (A.means machine.now) (A.rules machine.now) text.now n end line.old
        → WillReach (A.means machine.now) (A.rules machine.now) text.now n end line.new }
    ensures gap { line.new.here.len ≡ line.old.here.len }
    ensures keeps { KeepsMarks (A.means machine.now) (A.rules machine.now) text.now line.old line.new }
{
    let state = machine.copy(alloc, &line.here.state)?;
    line.begin(alloc, state)?;
    Ok(())
}

/// Saves a copy of the state at the frontier where a mark stands there.
#[inline(always)]
pub(crate) fn begin_here<A: Machine>(
    alloc: Global,
    machine: &A,
    text: &Text,
    line: &mut Line<A::State>,
) -> Result<(), NoMemory>
    requires { IsRight (A.is_state machine.now) (A.means machine.now) (A.rules machine.now) text.now line.old }
    ensures right { IsRight (A.is_state machine.now) (A.means machine.now) (A.rules machine.now) text.now line.new }
    ensures unmarked { OnOk result (line.new.marked ≡ false) }
    ensures frontier { frontier_of line.new ≡ frontier_of line.old }
    ensures near { (n end : ℕ) → WillReach (A.means machine.now) (A.rules machine.now) text.now n end line.old
        → WillReach (A.means machine.now) (A.rules machine.now) text.now n end line.new }
    ensures gap { line.new.here.len ≡ line.old.here.len }
    ensures keeps { KeepsMarks (A.means machine.now) (A.rules machine.now) text.now line.old line.new }
{
    if !line.marked {
        return Ok(());
    }
    save_here(alloc, machine, text, line)
}

/// Steps over the token at the frontier, which no mark aside lies in. A mark stands behind it where one is due.
#[inline(always)]
pub(crate) fn step<A: Machine>(
    alloc: Global,
    machine: &mut A,
    text: &Text,
    line: &mut Line<A::State>,
    token: &mut Token,
) -> Result<(), NoMemory>
    requires right { IsRight (A.is_state machine.old) (A.means machine.old) (A.rules machine.old) text.now line.old }
    requires unmarked { line.old.marked ≡ false }
    requires rest { frontier_of line.old < length text.now }
    requires token { token.old ≡ cut text.now (frontier_of line.old) }
    requires far { length token.old.bytes ≤ line.old.here.len }
    ensures later { A.later machine.old machine.new }
    ensures right { IsRight (A.is_state machine.new) (A.means machine.new) (A.rules machine.new) text.now line.new }
    ensures on { OnOk result (frontier_of line.new ≡ frontier_of line.old + length token.old.bytes) }
    ensures near { OnOk result ((n end : ℕ) → WillReach (A.means machine.old) (A.rules machine.old) text.now n end line.old
        → 0 < line.old.here.len → (0 < n) × WillReach (A.means machine.new) (A.rules machine.new) text.now (n - 1) end line.new) }
    ensures off { OnErr result (frontier_of line.new ≡ frontier_of line.old) }
    ensures keeps { KeepsMarks (A.means machine.old) (A.rules machine.old) text.now line.old line.new }
{
    // A text whose length is read is known to be in UTF-8.
    let _len = text.len();
    let tags = lengthen_last(alloc, machine, &mut line.here.state, token, &mut line.front)?;
    line.here.len -= token.bytes.len();
    line.marked = is_due(machine, &line.here.state, tags);
    Ok(())
}

/// Steps over the token at the frontier, where no mark is aside. A mark stands behind it where one is due.
#[inline(always)]
pub(crate) fn step_alone<A: Machine>(
    alloc: Global,
    machine: &mut A,
    text: &Text,
    line: &mut Line<A::State>,
    token: &mut Token,
) -> Result<(), NoMemory>
    requires right { IsRight (A.is_state machine.old) (A.means machine.old) (A.rules machine.old) text.now line.old }
    requires unmarked { line.old.marked ≡ false }
    requires rest { frontier_of line.old < length text.now }
    requires token { token.old ≡ cut text.now (frontier_of line.old) }
    requires none_aside { line.old.aside ≡ [] }
    ensures later { A.later machine.old machine.new }
    ensures right { IsRight (A.is_state machine.new) (A.means machine.new) (A.rules machine.new) text.now line.new }
    ensures on { OnOk result (frontier_of line.new ≡ frontier_of line.old + length token.old.bytes) }
    ensures off { OnErr result (frontier_of line.new ≡ frontier_of line.old) }
    ensures keeps { KeepsMarks (A.means machine.old) (A.rules machine.old) text.now line.old line.new }
{
    // A text whose length is read is known to be in UTF-8.
    let _len = text.len();
    let tags = lengthen_last(alloc, machine, &mut line.here.state, token, &mut line.front)?;
    line.here.len = 0;
    if is_due(machine, &line.here.state, tags) {
        line.marked = true;
    }
    Ok(())
}
