//! How much is copied into a grammar. Each pattern has a name class, params and excepts of its own, so a schema of a few lines
//! can ask for more of them than any machine has, within the limits on nodes.
//!
//! What is copied is counted before memory is spent on it. A name, a wildcard, a param, an except and a value are a part each,
//! and one more for each 64 bytes of their texts.

ghost use Rattle.std.specs.Prelude.{ℕ, ◌<◌, ◌≡◌, length, map, IfOk, Contains};
ghost use Rattle.rng_simplify.specs.Cells.{cell_of, Cell};
ghost use Rattle.rng_simplify.specs.CellMeanings.{IsCell};
ghost use Rattle.rng_simplify.specs.NodeForms.{IsKnown};
ghost use Rattle.rng_simplify.specs.Limits.{AreElements};
ghost use Rattle.rng_simplify.specs.Shown.{IsBehindParts};
ghost use Rattle.rng_simplify.specs.NodePlaces.{cell_parts};
ghost use Rattle.rng_simplify.specs.NodeTypes.{AreKnown};

use crate::form::Forms;
use crate::limit::content;
use crate::node::{Node, NodeNumber};
use crate::order::Place;
use crate::shape::{Shape, ShapeNumber, Shapes};
use crate::types::{MOST_EXCEPTS, NodeType};
use nx_base::memory::NoMemory;
use rnc_parse::surface::Param;
use rng_core::name_class::NameClass;
use rng_types::datatype::Except;
use std::alloc::Global;

/// The most parts that are copied into a grammar, and into its types before that. Where there are more, simplifying answers
/// want of memory.
pub const MOST_PARTS: u64 = 8_000_000;

/// For how many bytes of a text one part more is counted.
const BYTES_OF_PART: usize = 64;

/// Refuses to spell out a grammar with this start and definitions of these elements for which too much would be copied.
pub(crate) fn check_copies(
    alloc: Global,
    nodes: &[Node],
    types: &[Option<NodeType>],
    forms: &Forms,
    root: NodeNumber,
    elements: &[NodeNumber],
) -> Result<(), NoMemory>
    requires start { IsKnown forms.now.shapes forms.now.of.items root }
    requires contents { AreElements (map cell_of nodes.now) forms.now elements.now }
{
    let parts = parts_of_shapes(alloc, nodes, types, &forms.shapes)?;
    let mut count = parts[forms.of(Place(root.0)).0];
    for element in elements {
        let content = content(nodes, *element);
        count = count.saturating_add(parts[forms.of(Place(content.0)).0]);
    }
    if count > MOST_PARTS {
        Err(NoMemory)
    } else {
        Ok(())
    }
}

/// Refuses to copy what the types of an order take away, each of them once, where that is too much.
pub(crate) fn check_excepts(
    alloc: Global,
    nodes: &[Node],
    forms: &Forms,
    order: &[Place],
) -> Result<(), NoMemory>
    requires { AreKnown (map cell_of nodes.now) order.now forms.now }
{
    let no_types: &[Option<NodeType>] = &[];
    let parts = parts_of_shapes(alloc, nodes, no_types, &forms.shapes)?;
    let mut count: u64 = 0;
    for i in order {
        count = count.saturating_add(parts_taken_at(nodes, forms, parts.as_slice(), *i));
    }
    if count > MOST_PARTS {
        Err(NoMemory)
    } else {
        Ok(())
    }
}

/// The parts of what is taken from the type of a node at this place, if it is one of a type.
fn parts_taken_at(nodes: &[Node], forms: &Forms, parts: &[u64], i: Place) -> u64
    requires known { (c : Cell) → IsCell (map cell_of nodes.now) i c → (j : ℕ) → Contains (cell_parts c) j
        → IsKnown forms.now.shapes forms.now.of.items j }
    requires all { length parts.now ≡ length forms.now.shapes }
{
    if i.0 < nodes.len() {
        parts_taken(&nodes[i.0], forms, parts)
    } else {
        0
    }
}

/// The parts of what is taken from the type of a node, if it is one of a type. Where too many values are taken, that is
/// refused, and nothing is copied.
fn parts_taken(node: &Node, forms: &Forms, parts: &[u64]) -> u64
    requires known { (j : ℕ) → Contains (cell_parts (cell_of node.now)) j → IsKnown forms.now.shapes forms.now.of.items j }
    requires all { length parts.now ≡ length forms.now.shapes }
{
    match node {
        Node::Typed(_, _, except) => {
            let number = forms.of(Place(except.0));
            if are_few(forms.shapes.size(number).values) {
                parts_at(parts, number)
            } else {
                0
            }
        }
        _ => 0,
    }
}

/// Whether a choice of values is one of no more than may be taken from a type.
fn are_few(values: Option<u64>) -> bool {
    match values {
        Some(count) => count <= MOST_EXCEPTS,
        None => false,
    }
}

/// How many parts are copied where each of the shapes is spelled out.
fn parts_of_shapes(
    alloc: Global,
    nodes: &[Node],
    types: &[Option<NodeType>],
    shapes: &Shapes,
) -> Result<Vec<u64>, NoMemory>
    ensures { IfOk result (λ parts. length parts.items ≡ length shapes.now) }
{
    let count = shapes.len();
    let mut parts = Vec::with_capacity(alloc, count)?;
    for number in 0..count {
        let more = parts_of_shape(
            nodes,
            types,
            shapes.shape(ShapeNumber(number)),
            parts.as_slice(),
        );
        parts.push(more)?;
    }
    Ok(parts)
}

/// The same of one shape, whose own parts are among those before it.
fn parts_of_shape(nodes: &[Node], types: &[Option<NodeType>], shape: Shape, before: &[u64]) -> u64
    requires { IsBehindParts (length before.now) shape }
{
    match shape {
        Shape::NotAllowed | Shape::Empty | Shape::Text | Shape::Ref(_) => 0,
        Shape::Value(node) => parts_of_node(nodes, types, node),
        Shape::Typed(node) => parts_of_node(nodes, types, node),
        Shape::List(part) => parts_at(before, part),
        Shape::Attribute(node, part) => {
            parts_of_node(nodes, types, node).saturating_add(parts_at(before, part))
        }
        Shape::OneOrMore(part) => parts_at(before, part),
        Shape::Joined(_, first, second) => {
            parts_at(before, first).saturating_add(parts_at(before, second))
        }
    }
}

/// The parts of the shape of a number.
fn parts_at(before: &[u64], number: ShapeNumber) -> u64
    requires { number < length before.now }
{
    before[number.0]
}

/// The parts of a node's own class, params, excepts or value.
fn parts_of_node(nodes: &[Node], types: &[Option<NodeType>], node: NodeNumber) -> u64 {
    match nodes.get(node.0) {
        Some(Node::Attribute(class, _)) => parts_of_class(class),
        Some(Node::Value(_, text)) => parts_of(text.len()),
        Some(Node::Typed(_, params, _)) => {
            parts_of_params(params.as_slice()).saturating_add(parts_of_type(types, node))
        }
        _ => 0,
    }
}

/// The parts of something with texts of so many bytes.
fn parts_of(bytes: usize) -> u64 {
    (bytes / BYTES_OF_PART) as u64 + 1
}

/// The parts of params.
fn parts_of_params(params: &[Param]) -> u64 {
    let mut parts: u64 = 0;
    for param in params {
        parts = parts.saturating_add(parts_of(param.value.len()));
    }
    parts
}

/// The parts of what is taken from the type of a node.
fn parts_of_type(types: &[Option<NodeType>], node: NodeNumber) -> u64 {
    match types.get(node.0) {
        Some(Some(of)) => parts_of_excepts(of.excepts.as_slice()),
        _ => 0,
    }
}

/// The parts of excepts.
fn parts_of_excepts(excepts: &[Except]) -> u64 {
    let mut parts: u64 = 0;
    for except in excepts {
        parts = parts.saturating_add(parts_of(bytes_of_except(except)));
    }
    parts
}

/// How many bytes the text of an except has.
fn bytes_of_except(except: &Except) -> usize {
    match except {
        Except::Own(text) => text.len(),
        Except::BuiltinString(text) => text.len(),
        Except::BuiltinToken(text) => text.len(),
    }
}

/// The parts of a name class: its names and wildcards, of which there may be very many.
fn parts_of_class(class: &NameClass) -> u64 {
    let mut parts: u64 = 0;
    let mut rest = class;
    loop {
        match rest {
            NameClass::AnyName => return parts.saturating_add(1),
            NameClass::NsName(ns) => return parts.saturating_add(parts_of(ns.len())),
            NameClass::Name(name) => {
                let bytes = name.ns.len().saturating_add(name.local.len());
                return parts.saturating_add(parts_of(bytes));
            }
            NameClass::Except(all, taken) => {
                let all = parts.saturating_add(parts_of_class(all));
                return all.saturating_add(parts_of_class(taken));
            }
            NameClass::Choice(front, last) => {
                parts = parts.saturating_add(parts_of_class(last));
                rest = front;
            }
        }
    }
}
