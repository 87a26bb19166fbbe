//! Nodes read back.

ghost use Rattle.std.specs.Prelude.{◌≡◌, ℕ, List};
ghost use Rattle.rng_core.specs.Patterns.{Pattern};
ghost use Rattle.deriv_pattern.specs.Leaves.{IsInOrder};
ghost use Rattle.deriv_nodes.specs.Reading.{IsBelow, leaf_at, whole_of};
ghost use Rattle.deriv_nodes.specs.Seen.{HasLeafInOrder, HasPartsBelow, pattern_in};

use crate::leaf::{Leaf, data_at, names_at};
use crate::node::Node;
use crate::shape::Shape;
use indexmap::IndexSet;

/// What is put together so, as a node.
pub(crate) fn node_of(leaves: &IndexSet<Leaf>, place: usize, shape: Shape) -> Node<'_>
    requires below { IsBelow leaves.now.keys place shape }
    requires order { (k : ℕ) → IsInOrder (leaf_at leaves.now.keys k) }
    ensures whole { (nodes : List Pattern) → whole_of leaves.now.keys nodes shape ≡ pattern_in nodes result }
    ensures parts { HasPartsBelow place result }
    ensures order { HasLeafInOrder result }
{
    match shape {
        Shape::NotAllowed => Node::NotAllowed,
        Shape::Empty => Node::Empty,
        Shape::Text => Node::Text,
        Shape::Data(k) => data_at(leaves, k),
        Shape::List(body) => Node::List(body),
        Shape::Attribute(k, body) => Node::Attribute(names_at(leaves, k), body),
        Shape::Ref(number) => Node::Ref(number),
        Shape::OneOrMore(body) => Node::OneOrMore(body),
        Shape::Choice(a, b) => Node::Choice(a, b),
        Shape::Group(a, b) => Node::Group(a, b),
        Shape::Interleave(a, b) => Node::Interleave(a, b),
    }
}
