//! The attributes that a content is filled with.

ghost use Rattle.std.specs.Prelude.{◌≡◌, [], ◌∷◌, false, OnOk, MatchOption};
ghost use Rattle.std.specs.List.{AllByRecursion};
ghost use Rattle.rng_core.specs.Meaning.{class_of, pattern_of};
ghost use Rattle.rng_core.specs.Patterns.{attribute};
ghost use Rattle.rng_cost.specs.Leaves.{patterns_of};
ghost use Rattle.rng_fill.specs.Sorted.{is_attribute, attribute_leaves};
ghost use Rattle.rng_fill.specs.Fillable.{HasFilling};
ghost use Rattle.rng_fill.specs.Doing.{AddsAttributes, AddsAttribute};

use crate::moves::{Move, Moves};
use crate::names::attribute_name;
use crate::strings::value_of;
use nx_base::memory::NoMemory;
use rng_core::grammar::Pat;
use rng_core::name_class::NameClass;
use std::alloc::Global;

/// Writes an attribute of a class, with a value that matches the body.
fn write_attribute(
    alloc: Global,
    class: &NameClass,
    body: &Pat,
    moves: &mut Moves,
) -> Result<(), NoMemory>
    requires { HasFilling (attribute (class_of class.now) (pattern_of body.now)) }
    ensures { OnOk result (AddsAttribute (class_of class.now) (pattern_of body.now) moves.old moves.new) }
{
    let Some(name) = attribute_name(alloc, class)? else {
        unreachable!();
    };
    let Some(value) = value_of(alloc, body)? else {
        unreachable!();
    };
    moves.push(Move::Att(name, value))?;
    Ok(())
}

/// The class and the body of a leaf, if it is that of an attribute.
fn attribute_parts(leaf: &Pat) -> Option<(&NameClass, &Pat)>
    ensures { MatchOption result (is_attribute (pattern_of leaf.now) ≡ false)
        (λ parts. pattern_of leaf.now ≡ attribute (class_of parts.0.now) (pattern_of parts.1.now)) }
{
    match leaf {
        Pat::Attribute(class, body) => Some((class, body)),
        Pat::NotAllowed
        | Pat::Empty
        | Pat::Text
        | Pat::Typed(_, _)
        | Pat::Value(_, _)
        | Pat::List(_)
        | Pat::Ref(_)
        | Pat::OneOrMore(_)
        | Pat::Choice(_, _)
        | Pat::Group(_, _)
        | Pat::Interleave(_, _) => None,
    }
}

/// Writes the attribute of a leaf, if it is one's.
fn write_if_attribute(alloc: Global, leaf: &Pat, moves: &mut Moves) -> Result<(), NoMemory>
    requires { HasFilling (pattern_of leaf.now) }
    ensures { OnOk result (AddsAttributes (attribute_leaves (pattern_of leaf.now ∷ [])) moves.old moves.new) }
{
    match attribute_parts(leaf) {
        Some((class, body)) => {
            write_attribute(alloc, class, body, moves)?;
            Ok(())
        }
        None => Ok(()),
    }
}

/// Writes the attributes among leaves, in their order.
pub(crate) fn write_attributes(
    alloc: Global,
    leaves: &[&Pat],
    moves: &mut Moves,
) -> Result<(), NoMemory>
    requires { AllByRecursion HasFilling (patterns_of leaves.now) }
    ensures { OnOk result (AddsAttributes (attribute_leaves (patterns_of leaves.now)) moves.old moves.new) }
{
    for leaf in leaves {
        write_if_attribute(alloc, leaf, moves)?;
    }
    Ok(())
}
