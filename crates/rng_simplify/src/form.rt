//! The simple form of each node (ISO/IEC 19757-2, sections 7.18 to 7.22).

ghost use Rattle.std.specs.Prelude.{◌≡◌, ◌+◌, ◌<◌, ℕ, length, map, slice_index, slice_get, Some, Contains};
ghost use Rattle.rng_simplify.specs.Cells.{Cell, cell_of};
ghost use Rattle.rng_simplify.specs.Forms.{combined_by};
ghost use Rattle.rng_simplify.specs.NodeForms.{IsKnown, IsRoom, IsInOrder, MakesCell, MakesCombined, JoinsAll, Makes, Places, MakesForms};
ghost use Rattle.rng_simplify.specs.CellMeanings.{IsCell};
ghost use Rattle.rng_simplify.specs.ResolvedNodes.{cell_leads, leads, combined_number, target_at, IsLinkedAs, IsToDefinitions};
ghost use Rattle.rng_simplify.specs.Shown.{joined_of};

use crate::fault::SchemaFault;
use crate::node::{Node, NodeNumber, Sign};
use crate::order::Place;
use crate::resolve::{Combined, Resolved, Target};
use crate::shape::{Shape, ShapeNumber, Shapes};
use rnc_parse::surface::Combine;
use std::alloc::Global;

/// Shapes, and that of each node and of all combined definitions.
#[derive(Drop)]
pub(crate) struct Forms {
    pub(crate) shapes: Shapes,
    of: Vec<ShapeNumber>,
}

/// The forms of nodes in an order in which each stands behind those of which its form is made.
pub(crate) fn forms_of(
    alloc: Global,
    nodes: &[Node],
    found: &Resolved,
    order: &[Place],
) -> Result<Forms, SchemaFault>
    requires { IsInOrder (map cell_of nodes.now) found.now order.now }
    ensures { MakesForms (map cell_of nodes.now) found.now order.now result }
{
    let mut forms = Forms::new(alloc, nodes.len() + found.combined.len())?;
    for i in order {
        forms.place(nodes, found, *i)?;
    }
    Ok(forms)
}

/// The sign by which definitions are combined.
fn sign_of(combine: Combine) -> Sign
    ensures { joined_of result ≡ combined_by combine }
{
    match combine {
        Combine::Alone => Sign::Choice,
        Combine::Choice => Sign::Choice,
        Combine::Interleave => Sign::Interleave,
    }
}

impl Forms {
    /// Room for the shapes of so many nodes and combined definitions.
    fn new(alloc: Global, count: usize) -> Result<Forms, SchemaFault>
        ensures { IsRoom count result }
    {
        let mut of = Vec::with_capacity(alloc, count)?;
        for _ in 0..count {
            of.push(ShapeNumber(0))?;
        }
        Ok(Forms {
            shapes: Shapes::new(alloc),
            of,
        })
    }

    /// The shape of a node, or of combined definitions.
    pub(crate) fn of(&self, place: Place) -> ShapeNumber
        requires { place < length self.now.of.items }
        ensures { result ≡ slice_index self.now.of.items place }
    {
        self.of[place.0]
    }

    /// The shape of the combined definitions to which a node leads. Such definitions stand behind so many nodes.
    fn linked(&self, count: usize, link: Target) -> ShapeNumber
        requires to { IsToDefinitions link }
        requires known { IsKnown self.now.shapes self.now.of.items (count + combined_number link) }
        ensures { result ≡ slice_index self.now.of.items (count + combined_number link) }
    {
        // Asking for the length shows that the sum fits.
        let _all = self.of.len();
        self.of(Place(count + link.combined().0))
    }

    /// Gives a node or combined definitions their shape, where those of what it leads to are known.
    fn place(&mut self, nodes: &[Node], found: &Resolved, i: Place) -> Result<(), SchemaFault>
        requires within { i < length nodes.now + length found.now.combined.items }
        requires all { length self.old.of.items ≡ length nodes.now + length found.now.combined.items }
        requires all_links { length found.now.links.items ≡ length nodes.now }
        requires linked { (c : Cell) → IsCell (map cell_of nodes.now) i c → IsLinkedAs c (target_at found.now i) }
        requires known { (j : ℕ) → Contains (leads (map cell_of nodes.now) found.now i) j → IsKnown self.old.shapes self.old.of.items j }
        ensures { Places (map cell_of nodes.now) found.now i self.old self.new result }
    {
        let shape = self.made(nodes, found, i)?;
        self.of[i.0] = shape;
        Ok(())
    }

    /// The shape of a node or of combined definitions, where those of what it leads to are known.
    fn made(
        &mut self,
        nodes: &[Node],
        found: &Resolved,
        i: Place,
    ) -> Result<ShapeNumber, SchemaFault>
        requires within { i < length nodes.now + length found.now.combined.items }
        requires all_links { length found.now.links.items ≡ length nodes.now }
        requires linked { (c : Cell) → IsCell (map cell_of nodes.now) i c → IsLinkedAs c (target_at found.now i) }
        requires known { (j : ℕ) → Contains (leads (map cell_of nodes.now) found.now i) j → IsKnown self.old.shapes self.old.of.items j }
        ensures made { Makes (map cell_of nodes.now) found.now i self.old.shapes self.new.shapes self.old.of.items result }
        ensures of_stays { self.new.of ≡ self.old.of }
    {
        if i.0 < nodes.len() {
            self.node(nodes.len(), NodeNumber(i.0), found.links[i.0], &nodes[i.0])
        } else {
            self.combined(&found.combined[i.0 - nodes.len()])
        }
    }

    /// The shape of a node that is linked so, where those of its parts are known.
    fn node(
        &mut self,
        count: usize,
        i: NodeNumber,
        link: Target,
        node: &Node,
    ) -> Result<ShapeNumber, SchemaFault>
        requires linked { IsLinkedAs (cell_of node.now) link }
        requires known { (j : ℕ) → Contains (cell_leads count (combined_number link) (cell_of node.now)) j
            → IsKnown self.old.shapes self.old.of.items j }
        ensures made { MakesCell self.old.shapes self.new.shapes self.old.of.items count i link (cell_of node.now) result }
        ensures of_stays { self.new.of ≡ self.old.of }
    {
        match node {
            Node::Element(_, _) => self.shapes.add(Shape::Ref(link.element())),
            Node::Attribute(_, part) => {
                let value = self.of(Place(part.0));
                self.shapes.attribute(i, value)
            }
            Node::List(part) => {
                let words = self.of(Place(part.0));
                self.shapes.list(words)
            }
            Node::OneOrMore(part) => {
                let body = self.of(Place(part.0));
                self.shapes.one_or_more(body)
            }
            Node::Joined(sign, first, second) => {
                let one = self.of(Place(first.0));
                let other = self.of(Place(second.0));
                self.shapes.joined(*sign, one, other)
            }
            Node::Empty => self.shapes.add(Shape::Empty),
            Node::Text => self.shapes.add(Shape::Text),
            Node::NotAllowed => self.shapes.add(Shape::NotAllowed),
            Node::Value(_, _) => self.shapes.add(Shape::Value(i)),
            Node::Typed(_, _, _) => self.shapes.add(Shape::Typed(i)),
            Node::Ref(_) => Ok(self.linked(count, link)),
            Node::ParentRef(_) => Ok(self.linked(count, link)),
            Node::Grammar(_) => Ok(self.linked(count, link)),
        }
    }

    /// The shape of combined definitions, which nest to the left.
    fn combined(&mut self, all: &Combined) -> Result<ShapeNumber, SchemaFault>
        requires { (j : ℕ) → Contains all.now.bodies.items j → IsKnown self.old.shapes self.old.of.items j }
        ensures made { MakesCombined self.old.shapes self.new.shapes self.old.of.items all.now.combine all.now.bodies.items result }
        ensures of_stays { self.new.of ≡ self.old.of }
    {
        match all.bodies.as_slice().split_first() {
            Some((first, others)) => {
                let shape = self.of(Place(first.0));
                self.behind(sign_of(all.combine), shape, others)
            }
            None => self.shapes.add(Shape::NotAllowed),
        }
    }

    /// A shape with those of others joined to it, one by one.
    fn behind(
        &mut self,
        sign: Sign,
        first: ShapeNumber,
        others: &[NodeNumber],
    ) -> Result<ShapeNumber, SchemaFault>
        requires one { first < length self.old.shapes }
        requires known { (j : ℕ) → Contains others.now j → IsKnown self.old.shapes self.old.of.items j }
        ensures made { JoinsAll self.old.shapes self.new.shapes self.old.of.items sign first others.now result }
        ensures of_stays { self.new.of ≡ self.old.of }
    {
        let mut joined = first;
        for other in others {
            let next = self.of(Place(other.0));
            joined = self.shapes.joined(sign, joined, next)?;
        }
        Ok(joined)
    }
}
