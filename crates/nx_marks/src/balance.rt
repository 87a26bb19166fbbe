//! Trees of marks, kept balanced by how many marks they have.

ghost use Rattle.std.specs.Prelude.{◌+◌, ◌<◌, ◌^◌, length};
ghost use Rattle.nx_marks.specs.Chain.{reach};
ghost use Rattle.nx_marks.specs.Tree.{Balanced, IsBetween, NearlyBalanced, Opened};

use crate::single::Single;
use crate::tree::Tree;
use std::mem;

/// A mark between those in front of it and those behind it, which are balanced.
pub(crate) fn even<S: Drop>(front: Tree<S>, middle: Single<S>, behind: Tree<S>) -> Tree<S>
    requires balanced { Balanced (length front) (length behind) }
    requires count { length front + length behind + 1 < 2 ^ 32 }
    requires reach { reach front + middle.len + reach behind < 2 ^ 64 }
    ensures { IsBetween front middle behind result }
{
    let sums = front.sums().with(middle.sums()).with(behind.sums());
    let mut node = middle.node;
    node.sums = sums;
    drop(mem::replace(&mut node.left, front));
    drop(mem::replace(&mut node.right, behind));
    Tree { root: Some(node) }
}

/// The mark at the root of a tree, between those in front of it and those behind it.
pub(crate) fn opened<S: Drop>(tree: Tree<S>) -> (Tree<S>, Single<S>, Tree<S>)
    requires { 0 < length tree }
    ensures { Opened tree result.0 result.1 result.2 }
{
    let Some(mut node) = tree.root else {
        unreachable!()
    };
    let front = mem::replace(&mut node.left, Tree::empty());
    let behind = mem::replace(&mut node.right, Tree::empty());
    (front, Single { node }, behind)
}

/// A mark between those in front of it and those behind it, which may be a few too many: then they are turned to the left. One turn puts
/// the first half of those behind in front of their middle; where that would be too many, too, its own middle comes to the root.
fn turned_left<S: Drop>(front: Tree<S>, middle: Single<S>, behind: Tree<S>) -> Tree<S>
    requires balanced { NearlyBalanced (length front) (length behind) }
    requires count { length front + length behind + 1 < 2 ^ 32 }
    requires reach { reach front + middle.len + reach behind < 2 ^ 64 }
    ensures { IsBetween front middle behind result }
{
    if behind.weight() <= 3 * front.weight() {
        return even(front, middle, behind);
    }
    let (inner, root, outer) = opened(behind);
    if inner.weight() < 2 * outer.weight() {
        return even(even(front, middle, inner), root, outer);
    }
    let (first, top, last) = opened(inner);
    even(even(front, middle, first), top, even(last, root, outer))
}

/// A mark between those in front of it, which may be a few too many, and those behind it: then they are turned to the right.
fn turned_right<S: Drop>(front: Tree<S>, middle: Single<S>, behind: Tree<S>) -> Tree<S>
    requires balanced { NearlyBalanced (length behind) (length front) }
    requires count { length front + length behind + 1 < 2 ^ 32 }
    requires reach { reach front + middle.len + reach behind < 2 ^ 64 }
    ensures { IsBetween front middle behind result }
{
    if front.weight() <= 3 * behind.weight() {
        return even(front, middle, behind);
    }
    let (outer, root, inner) = opened(front);
    if inner.weight() < 2 * outer.weight() {
        return even(outer, root, even(inner, middle, behind));
    }
    let (first, top, last) = opened(inner);
    even(even(outer, root, first), top, even(last, middle, behind))
}

/// A mark between those in front of it and those behind it, however many there are. It goes down the larger tree to where the other fits.
pub(crate) fn joined<S: Drop>(front: Tree<S>, middle: Single<S>, behind: Tree<S>) -> Tree<S>
    requires count { length front + length behind + 1 < 2 ^ 32 }
    requires reach { reach front + middle.len + reach behind < 2 ^ 64 }
    ensures { IsBetween front middle behind result }
{
    if front.weight() > 3 * behind.weight() {
        let (before, root, inner) = opened(front);
        return turned_left(before, root, joined(inner, middle, behind));
    }
    if behind.weight() > 3 * front.weight() {
        let (inner, root, beyond) = opened(behind);
        return turned_right(joined(front, middle, inner), root, beyond);
    }
    even(front, middle, behind)
}
