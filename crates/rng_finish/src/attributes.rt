//! The attributes that leaves are filled with.

ghost use Rattle.std.specs.Prelude.{OnOk};
ghost use Rattle.std.specs.List.{AllByRecursion};
ghost use Rattle.rng_core.specs.Meaning.{class_of, pattern_of};
ghost use Rattle.rng_cost.specs.Leaves.{patterns_of};
ghost use Rattle.rng_fill.specs.Doing.{AddsAttributes, AddsAttribute};
ghost use Rattle.rng_fill.specs.Sorted.{attribute_leaves};
ghost use Rattle.rng_fill.specs.Strings.{AreSoundTexts};
ghost use Rattle.rng_finish.specs.Fit.{AddsIfAttribute, HasSoundValue};

use nx_base::memory::NoMemory;
use rng_core::grammar::Pat;
use rng_core::name_class::NameClass;
use rng_fill::moves::{Move, Moves};
use rng_fill::names::attribute_name;
use rng_fill::strings::value_of;
use std::alloc::Global;

/// Writes an attribute of a class, with a value that matches the body. Where there is no name or value, and of each leaf of a live schema
/// there is one, want of memory is answered.
fn write_attribute(
    alloc: Global,
    class: &NameClass,
    body: &Pat,
    moves: &mut Moves,
) -> Result<(), NoMemory>
    requires { AreSoundTexts (pattern_of body.now) }
    ensures { OnOk result (AddsAttribute (class_of class.now) (pattern_of body.now) moves.old moves.new) }
{
    let Some(name) = attribute_name(alloc, class)? else {
        return Err(NoMemory);
    };
    let Some(value) = value_of(alloc, body)? else {
        return Err(NoMemory);
    };
    moves.push(Move::Att(name, value))?;
    Ok(())
}

/// Writes the attribute of a leaf, if it is one's.
fn write_if_attribute(alloc: Global, leaf: &Pat, moves: &mut Moves) -> Result<(), NoMemory>
    requires { HasSoundValue (pattern_of leaf.now) }
    ensures { OnOk result (AddsIfAttribute (pattern_of leaf.now) moves.old moves.new) }
{
    match leaf {
        Pat::Attribute(class, body) => {
            write_attribute(alloc, class, body, moves)?;
            Ok(())
        }
        Pat::NotAllowed
        | Pat::Empty
        | Pat::Text
        | Pat::Typed(_, _)
        | Pat::Value(_, _)
        | Pat::List(_)
        | Pat::Ref(_)
        | Pat::OneOrMore(_)
        | Pat::Choice(_, _)
        | Pat::Group(_, _)
        | Pat::Interleave(_, _) => Ok(()),
    }
}

/// Writes the attributes among leaves, in their order.
pub(crate) fn write_attributes(
    alloc: Global,
    leaves: &[&Pat],
    moves: &mut Moves,
) -> Result<(), NoMemory>
    requires { AllByRecursion HasSoundValue (patterns_of leaves.now) }
    ensures { OnOk result (AddsAttributes (attribute_leaves (patterns_of leaves.now)) moves.old moves.new) }
{
    for &leaf in leaves {
        write_if_attribute(alloc, leaf, moves)?;
    }
    Ok(())
}
