//! Trees of marks, put together and parted.

ghost use Rattle.std.specs.Prelude.{◌≡◌, ◌+◌, ◌<◌, ◌≤◌, ◌^◌, length, drop, [], ◌∷◌, ◌++◌};
ghost use Rattle.nx_marks.specs.Chain.{reach};

use crate::balance::{joined, opened};
use crate::single::Single;
use crate::tree::Tree;
use std::mem;

/// Parts a tree behind so many marks.
pub(crate) fn parted<S: Drop>(tree: Tree<S>, count: usize) -> (Tree<S>, Tree<S>)
    requires { count ≤ length tree }
    ensures all { tree ≡ result.0 ++ result.1 }
    ensures count { length result.0 ≡ count }
    ensures counts { length tree ≡ length result.0 + length result.1 }
    ensures reaches { reach tree ≡ reach result.0 + reach result.1 }
{
    if count == 0 {
        return (Tree::empty(), tree);
    }
    let (front, middle, behind) = opened(tree);
    let before = front.count();
    if count <= before {
        let (first, rest) = parted(front, count);
        return (first, joined(rest, middle, behind));
    }
    let (rest, last) = parted(behind, count - before - 1);
    (joined(front, middle, rest), last)
}

/// The one mark of a tree.
fn only<S: Drop>(tree: Tree<S>) -> Single<S>
    requires { length tree ≡ 1 }
    ensures { tree ≡ result ∷ [] }
{
    let Some(node) = tree.root else {
        unreachable!()
    };
    Single { node }
}

impl<S: Drop> Tree<S> {
    /// Puts a mark behind the last. Mostly it only goes down along the last marks.
    pub(crate) fn push(&mut self, last: Single<S>)
        requires count { length self.old + 1 < 2 ^ 32 }
        requires reach { reach self.old + last.len < 2 ^ 64 }
        ensures { self.new ≡ self.old ++ last ∷ [] }
    {
        if let Some(node) = &mut self.root {
            if node.right.weight() < 3 * node.left.weight() {
                node.sums.add(last.sums());
                node.right.push(last);
                return;
            }
        }
        let all = mem::replace(self, Tree::empty());
        *self = joined(all, last, Tree::empty());
    }

    /// Puts a mark and others behind the last.
    pub(crate) fn extend(&mut self, middle: Single<S>, more: Tree<S>)
        requires count { length self.old + length more + 1 < 2 ^ 32 }
        requires reach { reach self.old + middle.len + reach more < 2 ^ 64 }
        ensures { self.new ≡ self.old ++ middle ∷ more }
    {
        let all = mem::replace(self, Tree::empty());
        *self = joined(all, middle, more);
    }

    /// Puts marks behind the last.
    pub(crate) fn append(&mut self, more: Tree<S>)
        requires count { length self.old + length more < 2 ^ 32 }
        requires reach { reach self.old + reach more < 2 ^ 64 }
        ensures { self.new ≡ self.old ++ more }
    {
        if more.is_empty() {
            return;
        }
        if self.is_empty() {
            *self = more;
            return;
        }
        let last = self.pop_last();
        self.extend(last, more);
    }

    /// Takes the marks behind so many away.
    pub(crate) fn split_off(&mut self, count: usize) -> Tree<S>
        requires { count ≤ length self.old }
        ensures all { self.old ≡ self.new ++ result }
        ensures count { length self.new ≡ count }
    {
        let whole = mem::replace(self, Tree::empty());
        let (front, behind) = parted(whole, count);
        *self = front;
        behind
    }

    /// Takes the first mark away.
    pub(crate) fn pop_first(&mut self) -> Single<S>
        requires { 0 < length self.old }
        ensures { self.old ≡ result ∷ self.new }
    {
        let whole = mem::replace(self, Tree::empty());
        let (first, behind) = parted(whole, 1);
        *self = behind;
        only(first)
    }

    /// Takes the last mark away. It stands outside of the loop over tokens, where it is seldom called.
    #[inline(never)]
    pub(crate) fn pop_last(&mut self) -> Single<S>
        requires { 0 < length self.old }
        ensures { self.old ≡ self.new ++ result ∷ [] }
    {
        let count = self.count() - 1;
        let last = self.split_off(count);
        only(last)
    }

    /// Drops the first so many marks, or all.
    pub(crate) fn drop_first(&mut self, count: usize)
        ensures { self.new ≡ drop count self.old }
    {
        let count = count.min(self.count());
        let kept = self.split_off(count);
        drop(mem::replace(self, kept));
    }
}
