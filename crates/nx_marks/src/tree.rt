//! Marks in a tree: what it is.

use crate::mark::Mark;
use std::marker::Model;

/// What marks come to, so that nobody has to walk over them for it.
#[derive(Clone, Copy)]
pub(crate) struct Sums {
    /// How many bytes they reach.
    pub(crate) reach: usize,
    /// How many there are. No more are made than 32 bits count.
    pub(crate) count: u32,
    /// Whether all are whole.
    pub(crate) whole: bool,
    /// Whether one has faults.
    pub(crate) faulty: bool,
}

/// Marks in their order. At each node the marks in front of its own and those behind it are balanced: counted with one more, neither are more
/// than thrice the others. So each step down leaves three quarters at the most, and a tree of n marks has at most log (n + 1) levels, to
/// base 4/3. Trees are put together and parted without memory.
#[cycle(tree)]
#[derive(Drop)]
pub(crate) struct Tree<S> {
    pub(crate) root: Option<Box<Node<S>>>,
}

/// A mark, the marks in front of it and those behind it. They stand, and so are dropped, in their order, which is mostly that of what
/// they have in memory.
#[cycle(tree)]
#[derive(Drop)]
pub(crate) struct Node<S> {
    pub(crate) left: Tree<S>,
    pub(crate) mark: Mark<S>,
    pub(crate) right: Tree<S>,
    pub(crate) sums: Sums,
}

impl<S> Model for Tree<S> {
    ghost use Rattle.std.specs.Prelude.{List, [], ◌∷◌, ◌++◌, length};
    ghost use Rattle.nx_marks.specs.Tree.{at_root, if_root, IsNode};
    ghost use Rattle.nx_marks.specs.declared.mark.Mark.{Mark};

    ghost Value = { List (Mark S) };

    ghost view = { λ t. at_root [] (λ b. b.value.left ++ b.value.mark ∷ b.value.right) t.root };

    ghost invariant = { λ t. if_root (λ b. IsNode b.value.left b.value.mark b.value.right
        b.value.sums.count b.value.sums.reach b.value.sums.whole b.value.sums.faulty) t.root };

    ghost size = { length };

    ghost use Rattle.std.proofs.Common.{arith, length-append};

    ghost size_decreases = { λ a h. Prim.grind (arith, length-append) };
}
