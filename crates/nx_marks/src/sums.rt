//! What marks in a tree come to, and where they lie.

ghost use Rattle.std.specs.Prelude.{◌≡◌, ◌+◌, ◌*◌, ◌<◌, ◌≤◌, ◌^◌, ◌==◌, ◌&&◌, ◌||◌, length, []};
ghost use Rattle.nx_marks.specs.Chain.{reach};
ghost use Rattle.nx_marks.specs.Tree.{all_whole, any_faulty, count_up_to, whole_count, IsAt};

use crate::mark::Mark;
use crate::tree::{Sums, Tree};

impl Sums {
    /// What these marks and more come to.
    pub(crate) fn with(self, more: Sums) -> Sums
        requires count { self.count + more.count < 2 ^ 32 }
        requires reach { self.reach + more.reach < 2 ^ 64 }
        ensures count { result.count ≡ self.count + more.count }
        ensures reach { result.reach ≡ self.reach + more.reach }
        ensures whole { result.whole ≡ (self.whole && more.whole) }
        ensures faulty { result.faulty ≡ (self.faulty || more.faulty) }
    {
        Sums {
            reach: self.reach + more.reach,
            count: self.count + more.count,
            whole: self.whole && more.whole,
            faulty: self.faulty || more.faulty,
        }
    }

    /// Adds what more marks come to. Mostly all of them are whole and none is faulty.
    pub(crate) fn add(&mut self, more: Sums)
        requires count { self.old.count + more.count < 2 ^ 32 }
        requires reach { self.old.reach + more.reach < 2 ^ 64 }
        ensures count { self.new.count ≡ self.old.count + more.count }
        ensures reach { self.new.reach ≡ self.old.reach + more.reach }
        ensures whole { self.new.whole ≡ (self.old.whole && more.whole) }
        ensures faulty { self.new.faulty ≡ (self.old.faulty || more.faulty) }
    {
        self.reach += more.reach;
        self.count += more.count;
        if !more.whole {
            self.whole = false;
        }
        if more.faulty {
            self.faulty = true;
        }
    }
}

impl<S: Drop> Tree<S> {
    /// No marks.
    pub(crate) fn empty() -> Tree<S>
        ensures { result ≡ [] }
    {
        Tree { root: None }
    }

    /// What all marks come to.
    pub(crate) fn sums(&self) -> Sums
        ensures count { result.count ≡ length self.now }
        ensures reach { result.reach ≡ reach self.now }
        ensures whole { result.whole ≡ all_whole self.now }
        ensures faulty { result.faulty ≡ any_faulty self.now }
    {
        match &self.root {
            Some(node) => node.sums,
            None => Sums {
                reach: 0,
                count: 0,
                whole: true,
                faulty: false,
            },
        }
    }

    /// Whether there is none.
    pub(crate) fn is_empty(&self) -> bool
        ensures { result ≡ (length self.now == 0) }
    {
        self.sums().count == 0
    }

    /// How many there are.
    pub(crate) fn count(&self) -> usize
        ensures { result ≡ length self.now }
    {
        self.sums().count as usize
    }

    /// How many there are, and one more: by this trees are balanced.
    pub(crate) fn weight(&self) -> usize
        ensures { result ≡ length self.now + 1 }
    {
        self.sums().count as usize + 1
    }

    /// How many bytes they reach.
    pub(crate) fn reach(&self) -> usize
        ensures { result ≡ reach self.now }
    {
        self.sums().reach
    }

    /// How many levels of nodes there are. Whatever goes down a tree goes so deep, and no deeper.
    pub(crate) fn depth(&self) -> usize
        ensures few { 4 ^ result ≤ 3 ^ result * (length self.now + 1) }
        ensures most { result ≤ length self.now }
    {
        let Some(node) = &self.root else {
            return 0;
        };
        1 + node.left.depth().max(node.right.depth())
    }

    /// How many marks, from the first on, reach no farther than a place.
    pub(crate) fn count_up_to(&self, at: usize) -> usize
        ensures { result ≡ count_up_to at self.now }
    {
        let Some(node) = &self.root else {
            return 0;
        };
        let before = node.left.reach();
        if before > at {
            return node.left.count_up_to(at);
        }
        let left = at - before;
        if node.mark.len > left {
            return node.left.count();
        }
        node.left.count() + 1 + node.right.count_up_to(left - node.mark.len)
    }

    /// How many marks, from the first on, are whole.
    pub(crate) fn whole_count(&self) -> usize
        ensures { result ≡ whole_count self.now }
    {
        let Some(node) = &self.root else {
            return 0;
        };
        if !node.left.sums().whole {
            return node.left.whole_count();
        }
        if !node.mark.whole {
            return node.left.count();
        }
        node.left.count() + 1 + node.right.whole_count()
    }

    /// The mark behind so many, and how far those reach.
    pub(crate) fn get(&self, index: usize) -> (usize, &Mark<S>)
        requires { index < length self.now }
        ensures { IsAt self.now index result.0 result.1.now }
    {
        let Some(node) = &self.root else {
            unreachable!()
        };
        let before = node.left.sums();
        let count = before.count as usize;
        if index < count {
            return node.left.get(index);
        }
        if index == count {
            return (before.reach, &node.mark);
        }
        let (place, mark) = node.right.get(index - count - 1);
        (before.reach + node.mark.len + place, mark)
    }
}
