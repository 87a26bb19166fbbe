//! A list of nodes.

ghost use Rattle.std.specs.Prelude.{◌≡◌, ◌<◌, [], length, IfOk};
ghost use Rattle.rng_core.specs.Equality.{same_pattern};
ghost use Rattle.rng_core.specs.Meaning.{pattern_of};
ghost use Rattle.rng_core.specs.Patterns.{not_allowed, empty, any_text, listed, attribute, ref, one_or_more, choice, group, interleave};
ghost use Rattle.deriv_pattern.specs.Leaves.{IsInOrder};
ghost use Rattle.deriv_nodes.specs.Numbers.{at, AreSingle, IsAt, Later};
ghost use Rattle.deriv_nodes.specs.Reading.{IsData, IsInner, IsNames, class_in, whole_of};
ghost use Rattle.deriv_nodes.specs.Seen.{HasLeafInOrder, HasPartsBelow, pattern_in};

use crate::kept_openings::KeptOpenings;
use crate::leaf::Leaf;
use crate::node::Node;
use crate::shape::Shape;
use crate::table::keep;
use crate::view::node_of;
use indexmap::IndexSet;
use nx_base::memory::NoMemory;
use rng_core::grammar::Pat;
use std::alloc::Global;
use std::marker::Model;

/// Nodes, each put together of nodes before it. To a contract they are the list of their patterns, in which none stands twice: a
/// node's number is its pattern's place. None is taken out. What opens at nodes is kept beside them, and no public contract speaks of it.
#[derive(Drop)]
pub struct Nodes {
    leaves: IndexSet<Leaf>,
    shapes: IndexSet<Shape>,
    pub(crate) kept: KeptOpenings,
}

impl Model for Nodes {
    ghost use Rattle.std.specs.Prelude.{List};
    ghost use Rattle.std.specs.Coded.{coded_list};
    ghost use Rattle.rng_core.specs.Patterns.{Pattern};
    ghost use Rattle.deriv_nodes.specs.Codes.{pattern_code};
    ghost use Rattle.deriv_nodes.specs.Kept.{IsTableWithKept};
    ghost use Rattle.deriv_nodes.specs.Reading.{patterns_of};

    ghost Value = { List Pattern };

    ghost coded = { coded_list pattern_code };

    ghost view = { λ n. patterns_of n.leaves.keys n.shapes.keys };

    ghost invariant = { λ n. IsTableWithKept n.leaves.keys n.shapes.keys n.kept.entries.items };
}

impl Nodes {
    /// No nodes.
    #[tactic(auto, unfolding(crate::specs::Reading::patterns_of))]
    pub fn new(alloc: Global) -> Nodes
        ensures { result ≡ [] }
    {
        Nodes {
            leaves: IndexSet::new(alloc),
            shapes: IndexSet::new(alloc),
            kept: KeptOpenings::new(alloc),
        }
    }

    /// The node of a number.
    pub fn node(&self, p: usize) -> Node<'_>
        requires { p < length self.now }
        ensures is { at self.now p ≡ pattern_in self.now result }
        ensures parts { HasPartsBelow p result }
        ensures order { HasLeafInOrder result }
    {
        match self.shapes.get_index(p) {
            Some(shape) => node_of(&self.leaves, p, *shape),
            None => unreachable!(),
        }
    }

    /// No two nodes stand for the same pattern. Nothing here runs.
    pub fn no_doubles(&self)
        ensures { AreSingle self.now }
    {
        let _shapes = &self.shapes;
    }

    /// Whether two nodes are one.
    pub fn same(&self, p: usize, q: usize) -> bool
        requires p { p < length self.now }
        requires q { q < length self.now }
        ensures { result ≡ same_pattern (at self.now p) (at self.now q) }
    {
        let _shapes = &self.shapes;
        p == q
    }

    /// The number of what is put together so. It isn't inlined into the walks along nodes, whose frames are then small.
    #[inline(never)]
    fn put(&mut self, shape: Shape) -> Result<usize, NoMemory>
        requires { IsInner (length self.old) shape }
        ensures later { Later self.old self.new }
        ensures made { IfOk result (IsAt self.new (whole_of [] self.old shape)) }
    {
        keep(&mut self.shapes, shape)
    }

    /// The number of a type or a value.
    pub(crate) fn put_data(&mut self, leaf: Pat) -> Result<usize, NoMemory>
        requires data { IsData (pattern_of leaf) }
        requires order { IsInOrder (pattern_of leaf) }
        ensures later { Later self.old self.new }
        ensures made { IfOk result (IsAt self.new (pattern_of leaf)) }
    {
        let leaf = keep(&mut self.leaves, Leaf { pattern: leaf })?;
        keep(&mut self.shapes, Shape::Data(leaf))
    }

    /// The number of an attribute, whose names are those of a leaf.
    pub(crate) fn put_attribute(&mut self, leaf: Pat, body: usize) -> Result<usize, NoMemory>
        requires names { IsNames (pattern_of leaf) }
        requires body { body < length self.old }
        ensures later { Later self.old self.new }
        ensures made { IfOk result (IsAt self.new (attribute (class_in (pattern_of leaf)) (at self.old body))) }
    {
        let leaf = keep(&mut self.leaves, Leaf { pattern: leaf })?;
        keep(&mut self.shapes, Shape::Attribute(leaf, body))
    }

    /// The number of the pattern that nothing matches.
    pub fn not_allowed(&mut self) -> Result<usize, NoMemory>
        ensures later { Later self.old self.new }
        ensures made { IfOk result (IsAt self.new not_allowed) }
    {
        self.put(Shape::NotAllowed)
    }

    /// The number of the empty pattern.
    pub(crate) fn empty(&mut self) -> Result<usize, NoMemory>
        ensures later { Later self.old self.new }
        ensures made { IfOk result (IsAt self.new empty) }
    {
        self.put(Shape::Empty)
    }

    /// The number of the pattern that any strings match.
    pub(crate) fn text(&mut self) -> Result<usize, NoMemory>
        ensures later { Later self.old self.new }
        ensures made { IfOk result (IsAt self.new any_text) }
    {
        self.put(Shape::Text)
    }

    /// The number of a list.
    pub(crate) fn list(&mut self, body: usize) -> Result<usize, NoMemory>
        requires { body < length self.old }
        ensures later { Later self.old self.new }
        ensures made { IfOk result (IsAt self.new (listed (at self.old body))) }
    {
        self.put(Shape::List(body))
    }

    /// The number of a reference.
    pub fn reference(&mut self, number: u32) -> Result<usize, NoMemory>
        ensures later { Later self.old self.new }
        ensures made { IfOk result (IsAt self.new (ref number)) }
    {
        self.put(Shape::Ref(number))
    }

    /// The number of a repetition.
    pub(crate) fn one_or_more(&mut self, body: usize) -> Result<usize, NoMemory>
        requires { body < length self.old }
        ensures later { Later self.old self.new }
        ensures made { IfOk result (IsAt self.new (one_or_more (at self.old body))) }
    {
        self.put(Shape::OneOrMore(body))
    }

    /// The number of a choice.
    pub(crate) fn choice(&mut self, a: usize, b: usize) -> Result<usize, NoMemory>
        requires a { a < length self.old }
        requires b { b < length self.old }
        ensures later { Later self.old self.new }
        ensures made { IfOk result (IsAt self.new (choice (at self.old a) (at self.old b))) }
    {
        self.put(Shape::Choice(a, b))
    }

    /// The number of a group.
    pub(crate) fn group(&mut self, a: usize, b: usize) -> Result<usize, NoMemory>
        requires a { a < length self.old }
        requires b { b < length self.old }
        ensures later { Later self.old self.new }
        ensures made { IfOk result (IsAt self.new (group (at self.old a) (at self.old b))) }
    {
        self.put(Shape::Group(a, b))
    }

    /// The number of an interleave.
    pub(crate) fn interleave(&mut self, a: usize, b: usize) -> Result<usize, NoMemory>
        requires a { a < length self.old }
        requires b { b < length self.old }
        ensures later { Later self.old self.new }
        ensures made { IfOk result (IsAt self.new (interleave (at self.old a) (at self.old b))) }
    {
        self.put(Shape::Interleave(a, b))
    }
}
