//! The children that leaves are filled with.

ghost use Rattle.std.specs.Prelude.{◌≡◌, [], ◌∷◌, ◌++◌, List, true, OnOk, IfOk, MatchOption};
ghost use Rattle.rng_core.specs.Meaning.{pattern_of};
ghost use Rattle.rng_core.specs.Patterns.{Definition};
ghost use Rattle.rng_cost.specs.Leaves.{leaves as leaves_by, patterns_of};
ghost use Rattle.rng_fill.specs.Contents.{definitions_in, costs_in, AreRead};
ghost use Rattle.rng_fill.specs.Fillable.{CanBeFilled};
ghost use Rattle.rng_fill.specs.Heads.{AreHeads};
ghost use Rattle.rng_fill.specs.Sorted.{is_attribute as is_attribute_leaf, takes_string};
ghost use Rattle.rng_fill.specs.Strings.{AreSoundTexts};
ghost use Rattle.rng_finish.specs.Filled.{AddsChildren, child_leaves};
ghost use Rattle.rng_finish.specs.Fit.{FitsLeaf, FitLeaves, Fits, AddsElements, AddsLeaf};

use nx_base::memory::NoMemory;
use rng_core::grammar::Pat;
use rng_cost::{Costs, Leaves};
use rng_fill::contents::Contents;
use rng_fill::heads::Heads;
use rng_fill::moves::{Move, Moves};
use rng_fill::strings::string_of;
use std::alloc::Global;

/// Whether a leaf is that of an attribute.
fn is_attribute(leaf: &Pat) -> bool
    ensures { result ≡ is_attribute_leaf (pattern_of leaf.now) }
{
    match leaf {
        Pat::Attribute(_, _) => true,
        Pat::NotAllowed
        | Pat::Empty
        | Pat::Text
        | Pat::Typed(_, _)
        | Pat::Value(_, _)
        | Pat::List(_)
        | Pat::Ref(_)
        | Pat::OneOrMore(_)
        | Pat::Choice(_, _)
        | Pat::Group(_, _)
        | Pat::Interleave(_, _) => false,
    }
}

/// Whether a leaf is that of a string.
fn is_string(leaf: &Pat) -> bool
    ensures { result ≡ takes_string (pattern_of leaf.now) }
{
    match leaf {
        Pat::Attribute(_, _) => false,
        Pat::Ref(_) => false,
        Pat::NotAllowed
        | Pat::Empty
        | Pat::Text
        | Pat::Typed(_, _)
        | Pat::Value(_, _)
        | Pat::List(_)
        | Pat::OneOrMore(_)
        | Pat::Choice(_, _)
        | Pat::Group(_, _)
        | Pat::Interleave(_, _) => true,
    }
}

/// Adds a leaf, unless it is that of an attribute.
fn add_child<'a>(leaf: &'a Pat, found: &mut Leaves<'a>) -> Result<(), NoMemory>
    ensures { OnOk result (patterns_of found.new ≡ patterns_of found.old ++ child_leaves (pattern_of leaf.now ∷ [])) }
{
    if is_attribute(leaf) {
        return Ok(());
    }
    found.push(leaf)?;
    Ok(())
}

/// The leaves that aren't those of attributes, in order.
pub(crate) fn children_among<'a>(alloc: Global, leaves: &[&'a Pat]) -> Result<Leaves<'a>, NoMemory>
    ensures { IfOk result (λ found. patterns_of found ≡ child_leaves (patterns_of leaves.now)) }
{
    let mut found = Leaves::new(alloc);
    for &leaf in leaves {
        add_child(leaf, &mut found)?;
    }
    Ok(found)
}

/// The leaf of a string, if there is no other leaf.
fn string_alone<'a>(leaves: &[&'a Pat]) -> Option<&'a Pat>
    ensures { MatchOption result (Unit {0}) (λ leaf. (patterns_of leaves.now ≡ pattern_of leaf.now ∷ []) × (takes_string (pattern_of leaf.now) ≡ true)) }
{
    let (leaf, others) = leaves.split_first()?;
    if others.is_empty() && is_string(leaf) {
        return Some(*leaf);
    }
    None
}

/// Writes the string of a leaf, one that isn't blank where it is to be solid. Answers whether it was written: the empty one isn't. Where
/// the leaf takes no such string, which none of a live schema does, want of memory is answered.
fn write_string(alloc: Global, leaf: &Pat, solid: bool, moves: &mut Moves) -> Result<bool, NoMemory>
    requires { AreSoundTexts (pattern_of leaf.now) }
    ensures { (g : List Definition) → IfOk result (λ plain. AddsChildren g solid (pattern_of leaf.now ∷ []) plain moves.old moves.new) }
{
    let Some(text) = string_of(alloc, leaf, solid)? else {
        return Err(NoMemory);
    };
    if text.is_empty() {
        return Ok(false);
    }
    moves.push(Move::Chars(text))?;
    Ok(true)
}

/// Writes the element of a leaf. Of another leaf, which stands beside elements in no content that keeps the restrictions, want of memory
/// is answered.
fn write_element(
    contents: &Contents,
    leaf: &Pat,
    heads: &mut Heads,
    moves: &mut Moves,
) -> Result<(), NoMemory>
    requires read { AreRead contents.now }
    requires fit { CanBeFilled (definitions_in contents.now) (costs_in contents.now) }
    requires heads { AreHeads (definitions_in contents.now) (costs_in contents.now) heads.old }
    requires fits { FitsLeaf (definitions_in contents.now) (pattern_of leaf.now) }
    ensures added { OnOk result (AddsLeaf (definitions_in contents.now) (pattern_of leaf.now) moves.old moves.new) }
    ensures heads { AreHeads (definitions_in contents.now) (costs_in contents.now) heads.new }
{
    match leaf {
        Pat::Ref(number) => {
            contents.write_element(*number, heads, moves)?;
            Ok(())
        }
        Pat::NotAllowed
        | Pat::Empty
        | Pat::Text
        | Pat::Typed(_, _)
        | Pat::Value(_, _)
        | Pat::List(_)
        | Pat::Attribute(_, _)
        | Pat::OneOrMore(_)
        | Pat::Choice(_, _)
        | Pat::Group(_, _)
        | Pat::Interleave(_, _) => Err(NoMemory),
    }
}

/// Writes the elements of leaves.
fn write_elements(
    contents: &Contents,
    leaves: &[&Pat],
    heads: &mut Heads,
    moves: &mut Moves,
) -> Result<(), NoMemory>
    requires read { AreRead contents.now }
    requires fit { CanBeFilled (definitions_in contents.now) (costs_in contents.now) }
    requires heads { AreHeads (definitions_in contents.now) (costs_in contents.now) heads.old }
    requires fits { FitLeaves (definitions_in contents.now) (patterns_of leaves.now) }
    ensures added { OnOk result (AddsElements (definitions_in contents.now) (patterns_of leaves.now) moves.old moves.new) }
    ensures heads { AreHeads (definitions_in contents.now) (costs_in contents.now) heads.new }
{
    for &leaf in leaves {
        write_element(contents, leaf, heads, moves)?;
    }
    Ok(())
}

/// Writes the children of leaves, none of which is blank where they are to be solid. Answers whether the leaves see them as they stand:
/// else there are none, and an empty string is what they see.
pub(crate) fn write_children(
    alloc: Global,
    contents: &Contents,
    leaves: &[&Pat],
    solid: bool,
    heads: &mut Heads,
    moves: &mut Moves,
) -> Result<bool, NoMemory>
    requires read { AreRead contents.now }
    requires fit { CanBeFilled (definitions_in contents.now) (costs_in contents.now) }
    requires heads { AreHeads (definitions_in contents.now) (costs_in contents.now) heads.old }
    requires fits { FitLeaves (definitions_in contents.now) (patterns_of leaves.now) }
    ensures added { IfOk result (λ plain. AddsChildren (definitions_in contents.now) solid (patterns_of leaves.now) plain moves.old moves.new) }
    ensures heads { AreHeads (definitions_in contents.now) (costs_in contents.now) heads.new }
{
    match string_alone(leaves) {
        Some(leaf) => {
            let plain = write_string(alloc, leaf, solid, moves)?;
            Ok(plain)
        }
        None => {
            write_elements(contents, leaves, heads, moves)?;
            Ok(true)
        }
    }
}

/// Writes the children of a pattern by its leaves of the least cost. Where it takes the empty string alone, which nothing can stand for,
/// want of memory is answered: of contents that keep the restrictions there may then be no children.
pub(crate) fn write_pattern(
    alloc: Global,
    contents: &Contents,
    costs: &Costs,
    pattern: &Pat,
    solid: bool,
    heads: &mut Heads,
    moves: &mut Moves,
) -> Result<(), NoMemory>
    requires read { AreRead contents.now }
    requires fit { CanBeFilled (definitions_in contents.now) (costs_in contents.now) }
    requires heads { AreHeads (definitions_in contents.now) (costs_in contents.now) heads.old }
    requires costs { costs.now ≡ costs_in contents.now }
    requires fits { Fits (definitions_in contents.now) (costs_in contents.now) (pattern_of pattern.now) }
    ensures added { OnOk result (AddsChildren (definitions_in contents.now) solid (leaves_by (costs_in contents.now) (pattern_of pattern.now)) true
        moves.old moves.new) }
    ensures heads { AreHeads (definitions_in contents.now) (costs_in contents.now) heads.new }
{
    let leaves = costs.leaves_of(alloc, pattern)?;
    let plain = write_children(alloc, contents, leaves.as_slice(), solid, heads, moves)?;
    if !plain {
        return Err(NoMemory);
    }
    Ok(())
}
