//! All that is left of a way, filled.

ghost use Rattle.std.specs.Prelude.{◌≡◌, OnOk, option_copied};
ghost use Rattle.rng_core.specs.Meaning.{pattern_of};
ghost use Rattle.rng_fill.specs.Contents.{definitions_in, costs_in, AreRead};
ghost use Rattle.rng_fill.specs.Fillable.{CanBeFilled};
ghost use Rattle.rng_fill.specs.Heads.{AreHeads};
ghost use Rattle.rng_finish.specs.Filled.{FillsTag, FillsIfTag, FillsLevel, FillsLevels, FillsLeft};
ghost use Rattle.rng_finish.specs.Fit.{Fits, FitsIfTag, FitsLevel, FitLevels, FitsLeft};

use crate::attributes::write_attributes;
use crate::children::{children_among, write_children, write_pattern};
use crate::left::{Left, Level};
use nx_base::memory::NoMemory;
use rng_core::grammar::Pat;
use rng_cost::Costs;
use rng_fill::contents::Contents;
use rng_fill::heads::Heads;
use rng_fill::moves::{Move, Moves};
use std::alloc::Global;

/// Writes what is left of the element whose tag is open: attributes, the end of the tag, the children, and the element's end.
fn write_tag(
    alloc: Global,
    contents: &Contents,
    costs: &Costs,
    pattern: &Pat,
    heads: &mut Heads,
    moves: &mut Moves,
) -> Result<(), NoMemory>
    requires read { AreRead contents.now }
    requires fit { CanBeFilled (definitions_in contents.now) (costs_in contents.now) }
    requires heads { AreHeads (definitions_in contents.now) (costs_in contents.now) heads.old }
    requires costs { costs.now ≡ costs_in contents.now }
    requires fits { Fits (definitions_in contents.now) (costs_in contents.now) (pattern_of pattern.now) }
    ensures filled { OnOk result (FillsTag (definitions_in contents.now) (costs_in contents.now) (pattern_of pattern.now) moves.old moves.new) }
    ensures heads { AreHeads (definitions_in contents.now) (costs_in contents.now) heads.new }
{
    let leaves = costs.leaves_of(alloc, pattern)?;
    write_attributes(alloc, leaves.as_slice(), moves)?;
    moves.push(Move::TagEnd)?;
    let children = children_among(alloc, leaves.as_slice())?;
    write_children(alloc, contents, children.as_slice(), false, heads, moves)?;
    moves.push(Move::Leave)?;
    Ok(())
}

/// Writes what is left of the element whose tag is open, if one is.
fn write_if_tag(
    alloc: Global,
    contents: &Contents,
    costs: &Costs,
    tag: Option<&Pat>,
    heads: &mut Heads,
    moves: &mut Moves,
) -> Result<(), NoMemory>
    requires read { AreRead contents.now }
    requires fit { CanBeFilled (definitions_in contents.now) (costs_in contents.now) }
    requires heads { AreHeads (definitions_in contents.now) (costs_in contents.now) heads.old }
    requires costs { costs.now ≡ costs_in contents.now }
    requires fits { FitsIfTag (definitions_in contents.now) (costs_in contents.now) (option_copied tag) }
    ensures filled { OnOk result (FillsIfTag (definitions_in contents.now) (costs_in contents.now) (option_copied tag.entry) moves.old moves.new) }
    ensures heads { AreHeads (definitions_in contents.now) (costs_in contents.now) heads.new }
{
    match tag {
        Some(pattern) => {
            write_tag(alloc, contents, costs, pattern, heads, moves)?;
            Ok(())
        }
        None => Ok(()),
    }
}

/// Writes what is left of an element among whose children one is: the children, and the element's end.
fn write_level(
    alloc: Global,
    contents: &Contents,
    costs: &Costs,
    level: &Level,
    heads: &mut Heads,
    moves: &mut Moves,
) -> Result<(), NoMemory>
    requires read { AreRead contents.now }
    requires fit { CanBeFilled (definitions_in contents.now) (costs_in contents.now) }
    requires heads { AreHeads (definitions_in contents.now) (costs_in contents.now) heads.old }
    requires costs { costs.now ≡ costs_in contents.now }
    requires fits { FitsLevel (definitions_in contents.now) (costs_in contents.now) level.now }
    ensures filled { OnOk result (FillsLevel (definitions_in contents.now) (costs_in contents.now) level.now moves.old moves.new) }
    ensures heads { AreHeads (definitions_in contents.now) (costs_in contents.now) heads.new }
{
    match level {
        Level::Void => {
            moves.push(Move::Leave)?;
            Ok(())
        }
        Level::Strict(pattern) => {
            write_pattern(alloc, contents, costs, pattern, false, heads, moves)?;
            moves.push(Move::Leave)?;
            Ok(())
        }
        Level::Loose(pattern) => {
            write_pattern(alloc, contents, costs, pattern, true, heads, moves)?;
            moves.push(Move::Leave)?;
            Ok(())
        }
    }
}

/// Writes what is left of open elements, the innermost first, and outside of the root.
fn write_levels(
    alloc: Global,
    contents: &Contents,
    costs: &Costs,
    levels: &[Level],
    document: &Pat,
    heads: &mut Heads,
    moves: &mut Moves,
) -> Result<(), NoMemory>
    requires read { AreRead contents.now }
    requires fit { CanBeFilled (definitions_in contents.now) (costs_in contents.now) }
    requires heads { AreHeads (definitions_in contents.now) (costs_in contents.now) heads.old }
    requires costs { costs.now ≡ costs_in contents.now }
    requires levels { FitLevels (definitions_in contents.now) (costs_in contents.now) levels.now }
    requires document { Fits (definitions_in contents.now) (costs_in contents.now) (pattern_of document.now) }
    ensures filled { OnOk result (FillsLevels (definitions_in contents.now) (costs_in contents.now) (pattern_of document.now) levels.now
        moves.old moves.new) }
    ensures heads { AreHeads (definitions_in contents.now) (costs_in contents.now) heads.new }
{
    let mut inside = levels;
    while let Some((level, outside)) = inside.split_first() {
        write_level(alloc, contents, costs, level, heads, moves)?;
        inside = outside;
    }
    write_pattern(alloc, contents, costs, document, false, heads, moves)?;
    Ok(())
}

/// Writes moves that fill what is left of a way, from the inside outwards. It takes as many steps as it adds moves, and as many as what is
/// left has nodes. Without memory some of the moves may have been added.
///
/// It also answers want of memory where a leaf has no name or string, where an empty string or a leaf of another kind would have to stand
/// beside elements, and where an attribute may not come. A schema that breaks no restriction should leave none of these; no clause says so.
pub fn finish(
    alloc: Global,
    contents: &Contents,
    costs: &Costs,
    left: &Left,
    heads: &mut Heads,
    moves: &mut Moves,
) -> Result<(), NoMemory>
    requires read { AreRead contents.now }
    requires fit { CanBeFilled (definitions_in contents.now) (costs_in contents.now) }
    requires heads { AreHeads (definitions_in contents.now) (costs_in contents.now) heads.old }
    requires costs { costs.now ≡ costs_in contents.now }
    requires fits { FitsLeft (definitions_in contents.now) (costs_in contents.now) left.now }
    ensures filled { OnOk result (FillsLeft (definitions_in contents.now) (costs_in contents.now) left.now moves.old moves.new) }
    ensures heads { AreHeads (definitions_in contents.now) (costs_in contents.now) heads.new }
{
    write_if_tag(alloc, contents, costs, left.tag.as_ref(), heads, moves)?;
    write_levels(
        alloc,
        contents,
        costs,
        left.levels.as_slice(),
        &left.document,
        heads,
        moves,
    )?;
    Ok(())
}
