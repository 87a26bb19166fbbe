//! Nodes without the leaves that take no strings but blank ones.

ghost use Rattle.std.specs.Prelude.{◌≡◌, ◌<◌, length, IfOk, if◌then◌else◌};
ghost use Rattle.rng_core.specs.Patterns.{not_allowed};
ghost use Rattle.rng_kept.specs.SolidStrings as s;
ghost use Rattle.deriv_nodes.specs.Numbers.{at, Later, IsAt};

use crate::node::Node;
use crate::nodes::Nodes;
use deriv_pattern::leaves::{has_solid, is_blank};
use nx_base::memory::NoMemory;
use std::alloc::Global;

impl Nodes {
    /// The node where it is to stay, and else the one that nothing matches.
    fn kept_where(&mut self, stays: bool, p: usize) -> Result<usize, NoMemory>
        requires { p < length self.old }
        ensures later { Later self.old self.new }
        ensures made { IfOk result (IsAt self.new (if stays then at self.old p else not_allowed)) }
    {
        if stays { Ok(p) } else { self.not_allowed() }
    }

    /// Without the leaves that take no strings but blank ones.
    pub fn loosen(&mut self, alloc: Global, p: usize) -> Result<usize, NoMemory>
        requires { p < length self.old }
        ensures later { Later self.old self.new }
        ensures made { IfOk result (IsAt self.new (s.loosen (at self.old p))) }
    {
        match self.node(p) {
            Node::NotAllowed => Ok(p),
            Node::Empty => Ok(p),
            Node::Text => Ok(p),
            Node::Typed(datatype, excepts) => {
                let stays = has_solid(alloc, datatype, excepts)?;
                self.kept_where(stays, p)
            }
            Node::Value(datatype, wanted) => {
                let stays = !is_blank(wanted.as_slice());
                self.kept_where(stays, p)
            }
            Node::List(body) => {
                let stays = self.has_words(alloc, body)?;
                self.kept_where(stays, p)
            }
            Node::Attribute(_, _) => Ok(p),
            Node::Ref(_) => Ok(p),
            Node::OneOrMore(body) => {
                let left = self.loosen(alloc, body)?;
                self.one_or_more_of(left)
            }
            Node::Choice(a, b) => {
                let left = self.loosen(alloc, a)?;
                let second = self.loosen(alloc, b)?;
                self.choice_of(left, second)
            }
            Node::Group(a, b) => {
                let left = self.loosen(alloc, a)?;
                let second = self.loosen(alloc, b)?;
                self.group_of(left, second)
            }
            Node::Interleave(a, b) => {
                let left = self.loosen(alloc, a)?;
                let second = self.loosen(alloc, b)?;
                self.interleave_of(left, second)
            }
        }
    }
}
