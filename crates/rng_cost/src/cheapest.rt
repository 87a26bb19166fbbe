//! The leaves by which a pattern is filled at the least cost.
//!
//! A first walk notes of each choice which side costs less, and a second one, which takes these notes in the order of its own walk, adds
//! the leaves of those sides. So each node is looked at twice, and each leaf is put in its place once, however long a chain of choices
//! is.

ghost use Rattle.std.specs.Prelude.{◌≡◌, [], ◌∷◌, ◌++◌, ◌&&◌, not, if◌then◌else◌, IfOk, OnOk};
ghost use Rattle.rng_core.specs.Meaning.{pattern_of};
ghost use Rattle.rng_cost.specs.Leaves.{leaves as leaves_by, patterns_of};
ghost use Rattle.rng_cost.specs.Sides.{AddsLeaves};

use crate::sides::{Sides, note_sides};
use nx_base::memory::NoMemory;
use nx_base::sequence::Sequence;
use rng_core::grammar::Pat;
use std::alloc::Global;

/// Leaves of a pattern, in order.
pub type Leaves<'a> = Sequence<&'a Pat>;

/// Adds a leaf, if it is on a side that is filled.
fn add_leaf<'a>(leaf: &'a Pat, filled: bool, leaves: &mut Leaves<'a>) -> Result<(), NoMemory>
    ensures { OnOk result (patterns_of leaves.new ≡ patterns_of leaves.old ++ (if filled then pattern_of leaf.now ∷ [] else [])) }
{
    if !filled {
        return Ok(());
    }
    leaves.push(leaf)?;
    Ok(())
}

/// Whether both hold.
fn both(one: bool, other: bool) -> bool
    ensures { result ≡ (one && other) }
{
    one && other
}

/// Adds the leaves of a pattern, if it is on a side that is filled, by what is noted of its choices.
fn add_leaves<'a>(
    pattern: &'a Pat,
    filled: bool,
    sides: &mut Sides,
    leaves: &mut Leaves<'a>,
) -> Result<(), NoMemory>
    ensures { OnOk result (AddsLeaves filled (pattern_of pattern.now) sides.old sides.new (patterns_of leaves.old) (patterns_of leaves.new)) }
{
    match pattern {
        Pat::Empty => Ok(()),
        Pat::Text => Ok(()),
        Pat::NotAllowed
        | Pat::Typed(_, _)
        | Pat::Value(_, _)
        | Pat::List(_)
        | Pat::Attribute(_, _)
        | Pat::Ref(_) => {
            add_leaf(pattern, filled, leaves)?;
            Ok(())
        }
        Pat::OneOrMore(body) => {
            add_leaves(body, filled, sides, leaves)?;
            Ok(())
        }
        Pat::Choice(a, b) => {
            let first = sides.pop();
            add_leaves(a, both(filled, first), sides, leaves)?;
            add_leaves(b, both(filled, !first), sides, leaves)?;
            Ok(())
        }
        Pat::Group(a, b) => {
            add_leaves(a, filled, sides, leaves)?;
            add_leaves(b, filled, sides, leaves)?;
            Ok(())
        }
        Pat::Interleave(a, b) => {
            add_leaves(a, filled, sides, leaves)?;
            add_leaves(b, filled, sides, leaves)?;
            Ok(())
        }
    }
}

/// The leaves of a pattern at the least cost.
pub(crate) fn cheapest_leaves<'a>(
    alloc: Global,
    costs: &[u32],
    pattern: &'a Pat,
) -> Result<Leaves<'a>, NoMemory>
    ensures { IfOk result (λ found. patterns_of found ≡ leaves_by costs.now (pattern_of pattern.now)) }
{
    let mut sides = Sides::new(alloc);
    note_sides(costs, pattern, &mut sides)?;
    let mut leaves = Leaves::new(alloc);
    add_leaves(pattern, true, &mut sides, &mut leaves)?;
    Ok(leaves)
}
