//! Marks in nodes of their own.

ghost use Rattle.std.specs.Prelude.{◌≡◌, IfOk};
ghost use Rattle.nx_marks.specs.Tree.{has_some, unsaved};

use crate::mark::Mark;
use crate::tree::{Node, Sums, Tree};
use nx_base::memory::NoMemory;
use std::alloc::Global;
use std::marker::Model;
use std::mem;

/// A mark in a node of its own, so that it becomes a part of a tree without memory.
#[derive(Drop)]
pub(crate) struct Single<S> {
    pub(crate) node: Box<Node<S>>,
}

impl<S> Model for Single<S> {
    ghost use Rattle.std.specs.Prelude.{◌≡◌, []};
    ghost use Rattle.nx_marks.specs.declared.mark.Mark.{Mark};

    ghost Value = { Mark S };

    ghost view = { λ s. s.node.value.mark };

    ghost invariant = { λ s. (s.node.value.left ≡ []) × (s.node.value.right ≡ []) };
}

impl<S: Drop> Single<S> {
    /// Puts a mark in a node.
    pub(crate) fn new(alloc: Global, mark: Mark<S>) -> Result<Single<S>, NoMemory>
        ensures { IfOk result (λ single. single ≡ mark) }
    {
        let node = Node {
            left: Tree::empty(),
            mark,
            right: Tree::empty(),
            sums: Sums {
                reach: 0,
                count: 0,
                whole: true,
                faulty: false,
            },
        };
        Ok(Single {
            node: Box::new(alloc, node)?,
        })
    }

    /// The mark.
    pub(crate) fn get(&self) -> &Mark<S>
        ensures { result.now ≡ self.now }
    {
        &self.node.mark
    }

    /// Puts each of two marks in the place of the other.
    pub(crate) fn swap(&mut self, mark: &mut Mark<S>)
        ensures single { self.new ≡ mark.old }
        ensures mark { mark.new ≡ self.old }
    {
        mem::swap(&mut self.node.mark, mark);
    }

    /// Has the mark say that it is none, unless it is whole.
    pub(crate) fn unsave(&mut self)
        ensures { self.new ≡ unsaved self.old }
    {
        self.node.mark.saved = false;
    }

    /// What the mark comes to.
    pub(crate) fn sums(&self) -> Sums
        ensures count { result.count ≡ 1 }
        ensures reach { result.reach ≡ self.now.len }
        ensures whole { result.whole ≡ self.now.whole }
        ensures faulty { result.faulty ≡ has_some self.now.faults }
    {
        let mark = &self.node.mark;
        Sums {
            reach: mark.len,
            count: 1,
            whole: mark.whole,
            faulty: !mark.faults.is_empty(),
        }
    }
}
