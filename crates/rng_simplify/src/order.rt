//! An order in which nodes can be simplified, each behind those of which its simple form is made; there is none where a
//! pattern's form would be a part of itself (ISO/IEC 19757-2, section 7.20).
//!
//! Combined definitions take part in it too, each at a place behind those of all nodes.

ghost use Rattle.std.specs.Prelude.{◌≡◌, ◌≢◌, ℕ, ◌+◌, ◌-◌, ◌<◌, ◌^◌, [], ◌∷◌, length, slice_get, Some, None, IfOk, IfSome, OnOk};
ghost use Rattle.rng_simplify.specs.declared.order.Mark.TheVariants.{New as NotMet};
ghost use Rattle.rng_simplify.specs.Refusals.{cells_of, OkOrRefused};
ghost use Rattle.rng_simplify.specs.Cells.{cell_of};
ghost use Rattle.rng_simplify.specs.ResolvedNodes.{IsResolved, IsOrdered, leads};
ghost use Rattle.rng_simplify.specs.NodePlaces.{AreWellFormed, cell_parts, IsStanding};
ghost use Rattle.rng_simplify.specs.NodeWalks.{IsMet, is_linked as is_linked_cell, walk_state_of, mark_at, with_step, left};
ghost use Rattle.rng_simplify.specs.NodeWalks.{Meets, IsWalk, KeepsMarks, IsTurned, IsGone, IsPassed};

use crate::compose::Whole;
use crate::fault::SchemaFault;
use crate::node::{Node, NodeNumber};
use crate::resolve::{Combined, Resolved, Scope};
use nx_base::cause::Cause;
use nx_base::memory::NoMemory;
use std::alloc::Global;
use std::marker::Model;

/// A node by its number, or combined definitions behind all nodes: those of number `n` are at `nodes.len() + n`. To a contract it
/// is that number.
#[derive(Clone, Copy, Debug, PartialEq, Eq)]
pub(crate) struct Place(pub(crate) usize);

impl Model for Place {
    ghost use Rattle.std.specs.Prelude.{ℕ};

    ghost Value = { ℕ };

    ghost view = { λ place. place.0 };

    ghost inverse = { λ n. record { 0 = n } };
}

/// How far the walk is with a place.
#[derive(Clone, Copy, Debug, PartialEq, Eq)]
enum Mark {
    /// It wasn't met.
    New,
    /// The walk is at what it leads to.
    Open,
    /// It is in the order.
    Done,
}

/// A place on the path of the walk, and how many of those that it leads to were met.
#[derive(Drop)]
struct Step {
    place: Place,
    met: usize,
}

/// A walk from place to place, depth first.
#[derive(Drop)]
struct Walk {
    marks: Vec<Mark>,
    path: Vec<Step>,
    order: Vec<Place>,
}

/// The places of the nodes that stand in the schema, and of all combined definitions, in order.
pub(crate) fn order(
    alloc: Global,
    whole: &Whole,
    found: &Resolved,
) -> Result<Vec<Place>, SchemaFault>
    requires formed { AreWellFormed (cells_of whole.now) whole.now.root }
    requires resolved { IsResolved (cells_of whole.now) whole.now.root found.now }
    ensures { OkOrRefused (cells_of whole.now) whole.now.root
        (λ order. IsOrdered (cells_of whole.now) whole.now.root found.now order.items) result }
{
    let mut walk = Walk::begin(alloc, whole.nodes.len() + found.combined.len())?;
    walk.nodes(whole, found)?;
    walk.combined(whole, found)?;
    let Walk { order, .. } = walk;
    Ok(order)
}

/// The place of the part of this number, if a node has so many.
fn part(node: &Node, k: usize) -> Option<Place>
    ensures { result ≡ slice_get (cell_parts (cell_of node.now)) k }
{
    match node {
        Node::Attribute(_, part) => only(Place(part.0), k),
        Node::List(part) => only(Place(part.0), k),
        Node::Typed(_, _, part) => only(Place(part.0), k),
        Node::OneOrMore(part) => only(Place(part.0), k),
        Node::Joined(_, first, second) => match k {
            0 => Some(Place(first.0)),
            1 => Some(Place(second.0)),
            _ => None,
        },
        _ => None,
    }
}

/// The one thing that there is, by its place.
fn only(it: Place, k: usize) -> Option<Place>
    ensures { result ≡ slice_get (it ∷ []) k }
{
    if k == 0 { Some(it) } else { None }
}

/// Whether a node leads to combined definitions.
fn is_linked(node: &Node) -> bool
    ensures { result ≡ is_linked_cell (cell_of node.now) }
{
    match node {
        Node::Ref(_) => true,
        Node::ParentRef(_) => true,
        Node::Grammar(_) => true,
        _ => false,
    }
}

/// One of combined definitions by its place among them.
fn body(all: &Combined, k: usize) -> Option<Place>
    ensures body_is { result ≡ slice_get all.now.bodies.items k }
    ensures more { IfSome result (λ _. k + 1 < 2 ^ 64) }
{
    match all.bodies.get(k) {
        Some(body) => Some(Place(body.0)),
        None => None,
    }
}

/// The place of this number among those to which a place leads.
fn next(whole: &Whole, found: &Resolved, place: Place, k: usize) -> Option<Place>
    requires formed { AreWellFormed (cells_of whole.now) whole.now.root }
    requires resolved { IsResolved (cells_of whole.now) whole.now.root found.now }
    requires met { IsMet (cells_of whole.now) whole.now.root found.now place }
    requires room { length whole.now.nodes.items + length found.now.combined.items < 2 ^ 64 }
    ensures next_is { result ≡ slice_get (leads (cells_of whole.now) found.now place) k }
    ensures more { IfSome result (λ _. k + 1 < 2 ^ 64) }
{
    if place.0 < whole.nodes.len() {
        let here = &whole.nodes[place.0];
        if is_linked(here) {
            let linked = found.links[place.0].combined();
            only(Place(whole.nodes.len() + linked.0), k)
        } else {
            part(here, k)
        }
    } else {
        body(&found.combined[place.0 - whole.nodes.len()], k)
    }
}

impl Walk {
    /// A walk that met none of so many places.
    fn begin(alloc: Global, count: usize) -> Result<Walk, NoMemory>
        ensures { IfOk result (λ walk. (length (walk_state_of walk).marks ≡ count) × ((i : ℕ) → mark_at (walk_state_of walk) i ≡ NotMet) ×
            ((walk_state_of walk).path ≡ []) × ((walk_state_of walk).order ≡ [])) }
    {
        let mut marks = Vec::with_capacity(alloc, count)?;
        for _ in 0..count {
            marks.push(Mark::New)?;
        }
        Ok(Walk {
            marks,
            path: Vec::new(alloc),
            order: Vec::with_capacity(alloc, count)?,
        })
    }

    /// Walks from each node that stands in the schema.
    fn nodes(&mut self, whole: &Whole, found: &Resolved) -> Result<(), SchemaFault>
        requires formed { AreWellFormed (cells_of whole.now) whole.now.root }
        requires resolved { IsResolved (cells_of whole.now) whole.now.root found.now }
        requires here { IsWalk (cells_of whole.now) whole.now.root found.now None (walk_state_of self.old) }
        requires at_rest { (walk_state_of self.old).path ≡ [] }
        ensures { OkOrRefused (cells_of whole.now) whole.now.root
            (λ done. IsWalk (cells_of whole.now) whole.now.root found.now None (walk_state_of self.new) ×
            ((walk_state_of self.new).path ≡ []) ×
            ((i : ℕ) → IsStanding (cells_of whole.now) whole.now.root i → mark_at (walk_state_of self.new) i ≢ NotMet)) result }
    {
        for i in 0..whole.nodes.len() {
            self.node(whole, found, NodeNumber(i))?;
        }
        Ok(())
    }

    /// Walks from a node, if it stands in the schema.
    fn node(&mut self, whole: &Whole, found: &Resolved, i: NodeNumber) -> Result<(), SchemaFault>
        requires within { i < length whole.now.nodes.items }
        requires formed { AreWellFormed (cells_of whole.now) whole.now.root }
        requires resolved { IsResolved (cells_of whole.now) whole.now.root found.now }
        requires here { IsWalk (cells_of whole.now) whole.now.root found.now None (walk_state_of self.old) }
        requires at_rest { (walk_state_of self.old).path ≡ [] }
        ensures { OkOrRefused (cells_of whole.now) whole.now.root
            (λ done. IsPassed (cells_of whole.now) whole.now.root found.now i (walk_state_of self.old) (walk_state_of self.new)) result }
    {
        match found.scopes[i.0] {
            Scope::Nowhere => Ok(()),
            _ => self.go(whole, found, Place(i.0)),
        }
    }

    /// Walks from all combined definitions.
    fn combined(&mut self, whole: &Whole, found: &Resolved) -> Result<(), SchemaFault>
        requires formed { AreWellFormed (cells_of whole.now) whole.now.root }
        requires resolved { IsResolved (cells_of whole.now) whole.now.root found.now }
        requires here { IsWalk (cells_of whole.now) whole.now.root found.now None (walk_state_of self.old) }
        requires at_rest { (walk_state_of self.old).path ≡ [] }
        ensures { OkOrRefused (cells_of whole.now) whole.now.root
            (λ done. IsWalk (cells_of whole.now) whole.now.root found.now None (walk_state_of self.new) ×
            ((walk_state_of self.new).path ≡ []) × KeepsMarks (walk_state_of self.old) (walk_state_of self.new) ×
            ((number : ℕ) → number < length found.now.combined.items → mark_at (walk_state_of self.new)
            (length whole.now.nodes.items + number) ≢ NotMet)) result }
    {
        for j in 0..found.combined.len() {
            self.go(whole, found, Place(whole.nodes.len() + j))?;
        }
        Ok(())
    }

    /// Walks from a place over all that weren't met.
    fn go(&mut self, whole: &Whole, found: &Resolved, from: Place) -> Result<(), SchemaFault>
        requires formed { AreWellFormed (cells_of whole.now) whole.now.root }
        requires resolved { IsResolved (cells_of whole.now) whole.now.root found.now }
        requires met { IsMet (cells_of whole.now) whole.now.root found.now from }
        requires here { IsWalk (cells_of whole.now) whole.now.root found.now None (walk_state_of self.old) }
        requires at_rest { (walk_state_of self.old).path ≡ [] }
        ensures { OkOrRefused (cells_of whole.now) whole.now.root
            (λ done. IsGone (cells_of whole.now) whole.now.root found.now from (walk_state_of self.old) (walk_state_of self.new)) result }
    {
        self.meet(from)?;
        while let Some(step) = self.path.pop() {
            self.turn(whole, found, step)?;
        }
        Ok(())
    }

    /// Goes on from the last place of the path, or goes back from it.
    fn turn(&mut self, whole: &Whole, found: &Resolved, step: Step) -> Result<(), SchemaFault>
        requires formed { AreWellFormed (cells_of whole.now) whole.now.root }
        requires resolved { IsResolved (cells_of whole.now) whole.now.root found.now }
        requires here { IsWalk (cells_of whole.now) whole.now.root found.now None (with_step step (walk_state_of self.old)) }
        ensures { OkOrRefused (cells_of whole.now) whole.now.root
            (λ done. IsTurned (cells_of whole.now) whole.now.root found.now (with_step step (walk_state_of self.old))
            (walk_state_of self.new)) result }
    {
        match next(whole, found, step.place, step.met) {
            Some(next) => {
                self.path.push(Step {
                    place: step.place,
                    met: step.met + 1,
                })?;
                self.meet(next)
            }
            None => {
                self.leave(step.place)?;
                Ok(())
            }
        }
    }

    /// Goes on to a place, unless it is in the order. One of the path leads back to itself.
    fn meet(&mut self, place: Place) -> Result<(), SchemaFault>
        requires { place < length (walk_state_of self.old).marks }
        ensures { Meets place (mark_at (walk_state_of self.old) place) (walk_state_of self.old) (walk_state_of self.new) result }
    {
        match self.marks[place.0] {
            Mark::New => {
                self.marks[place.0] = Mark::Open;
                self.path.push(Step { place, met: 0 })?;
                Ok(())
            }
            Mark::Open => Err(SchemaFault::Unreadable(Cause::RefLoop)),
            Mark::Done => Ok(()),
        }
    }

    /// Goes back from a place, where all that it leads to is in the order.
    fn leave(&mut self, place: Place) -> Result<(), NoMemory>
        requires { place < length (walk_state_of self.old).marks }
        ensures { OnOk result (walk_state_of self.new ≡ left place (walk_state_of self.old)) }
    {
        self.marks[place.0] = Mark::Done;
        self.order.push(place)?;
        Ok(())
    }
}
