//! How large a grammar may be.

ghost use Rattle.std.specs.Prelude.{◌≡◌, ◌≤◌, map};
ghost use Rattle.rng_simplify.specs.Broken.{node_limit};
ghost use Rattle.rng_simplify.specs.Cells.{cell_of};
ghost use Rattle.rng_simplify.specs.NodeForms.{IsKnown};
ghost use Rattle.rng_simplify.specs.Limits.{content_of, IsElement, AreElements, IsWithinLimits, Counts};

use crate::fault::SchemaFault;
use crate::form::Forms;
use crate::node::{Node, NodeNumber};
use crate::order::Place;
use nx_base::cause::Cause;

/// The most nodes of patterns that a grammar may have, those of its definitions among them.
pub const MOST_NODES: u64 = 1_000_000;

/// The most nodes on one path of a pattern, a reference being the last.
pub const MOST_DEPTH: u64 = 8_000;

/// Refuses a grammar with this start and definitions of these elements that is too large.
pub(crate) fn check_size(
    nodes: &[Node],
    forms: &Forms,
    root: NodeNumber,
    elements: &[NodeNumber],
) -> Result<(), SchemaFault>
    requires start { IsKnown forms.now.shapes forms.now.of.items root }
    requires contents { AreElements (map cell_of nodes.now) forms.now elements.now }
    ensures { IsWithinLimits (map cell_of nodes.now) forms.now root elements.now result }
{
    let mut count = counted(forms, root, 0)?;
    for element in elements {
        count = counted(forms, content(nodes, *element), count)?;
    }
    Ok(())
}

/// The content of an element.
pub(crate) fn content(nodes: &[Node], element: NodeNumber) -> NodeNumber
    requires { IsElement (map cell_of nodes.now) element }
    ensures { result ≡ content_of (map cell_of nodes.now) element }
{
    match &nodes[element.0] {
        Node::Element(_, content) => *content,
        _ => unreachable!(),
    }
}

/// The nodes so far, and those of the form of a node.
fn counted(forms: &Forms, node: NodeNumber, before: u64) -> Result<u64, SchemaFault>
    requires known { IsKnown forms.now.shapes forms.now.of.items node }
    requires few { before ≤ node_limit }
    ensures { Counts forms.now node before result }
{
    let size = forms.shapes.size(forms.of(Place(node.0)));
    let count = before.saturating_add(size.nodes);
    if count > MOST_NODES || size.depth > MOST_DEPTH {
        return Err(SchemaFault::Unreadable(Cause::TooLarge));
    }
    Ok(count)
}
