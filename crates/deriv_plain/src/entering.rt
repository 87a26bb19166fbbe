//! Ways to go on behind an element's name, and behind children that are left out and an element's name.

ghost use Rattle.std.specs.Prelude.{◌≡◌, ◌++◌, IfOk, map, false};
ghost use Rattle.rng_core.specs.Meaning.{pattern_of, definition_of};
ghost use Rattle.rng_kept.specs.Residuals.{in_tag, document, inside};
ghost use Rattle.rng_kept.specs.Entering as entering;
ghost use Rattle.deriv_pattern.specs.Opened.{opening_of, openings_of};
ghost use Rattle.deriv_plain.specs.Ways.{outer_of, way_of, residual_of};

use crate::around::Around;
use crate::merging::with_ways;
use crate::ways::{OneWay, no_way};
use deriv_pattern::openings::{Open, has_number, opens, rest_at, skip_opens};
use nx_base::memory::NoMemory;
use nx_base::name::Name;
use rng_core::grammar::{Def, Pat};
use std::alloc::Global;
use std::rc::Rc;

/// The content of a definition; notAllowed where there is none of the number.
fn content_of(alloc: Global, defs: &[Def], number: u32) -> Result<Pat, NoMemory>
    ensures { IfOk result (λ content. pattern_of content ≡ entering.content_of (map definition_of defs.now) number) }
{
    match defs.get(number as usize) {
        Some(def) => def.content.copy(alloc),
        None => Ok(Pat::NotAllowed),
    }
}

/// In the start tag of the root.
fn tag_at_top(alloc: Global, defs: &[Def], one: &Open) -> Result<OneWay, NoMemory>
    ensures { IfOk result (λ way. way_of way ≡ entering.tag_at_top (map definition_of defs.now) (opening_of one.now)) }
{
    let content = content_of(alloc, defs, one.number)?;
    let around = Around::document(alloc, one.rest.copy(alloc)?)?;
    Ok(OneWay::InTag(content, around))
}

/// In the start tag of an element that opens among children as they stand, and perhaps without blank strings, too.
fn tag_of_both(
    alloc: Global,
    defs: &[Def],
    loose: &[Open],
    outer: &Rc<Around>,
    one: &Open,
) -> Result<OneWay, NoMemory>
    ensures { IfOk result (λ way. way_of way
        ≡ entering.tag_of_both (map definition_of defs.now) (openings_of loose.now) (outer_of outer.now.value) (opening_of one.now)) }
{
    let content = content_of(alloc, defs, one.number)?;
    let strict = one.rest.copy(alloc)?;
    let loose = rest_at(alloc, one.number, loose)?;
    let around = Around::inside(alloc, strict, loose, false, outer)?;
    Ok(OneWay::InTag(content, around))
}

/// In the start tag of an element that opens among children without blank strings alone.
fn tag_of_loose(
    alloc: Global,
    defs: &[Def],
    outer: &Rc<Around>,
    one: &Open,
) -> Result<OneWay, NoMemory>
    ensures { IfOk result (λ way. way_of way
        ≡ entering.tag_of_loose (map definition_of defs.now) (outer_of outer.now.value) (opening_of one.now)) }
{
    let content = content_of(alloc, defs, one.number)?;
    let loose = one.rest.copy(alloc)?;
    let around = Around::inside(alloc, Pat::NotAllowed, loose, false, outer)?;
    Ok(OneWay::InTag(content, around))
}

/// In the start tags of what opens at the root.
fn tags_at_top(alloc: Global, defs: &[Def], opened: &[Open]) -> Result<Vec<OneWay>, NoMemory>
    ensures { IfOk result (λ ways. residual_of ways.items
        ≡ map (entering.tag_at_top (map definition_of defs.now)) (openings_of opened.now)) }
{
    let mut ways = no_way(alloc);
    let mut left = opened;
    while let Some((one, rest)) = left.split_first() {
        ways.push(tag_at_top(alloc, defs, one)?)?;
        left = rest;
    }
    Ok(ways)
}

/// In the start tags of what opens among children as they stand.
fn tags_of_both(
    alloc: Global,
    defs: &[Def],
    strict: &[Open],
    loose: &[Open],
    outer: &Rc<Around>,
) -> Result<Vec<OneWay>, NoMemory>
    ensures { IfOk result (λ ways. residual_of ways.items
        ≡ map (entering.tag_of_both (map definition_of defs.now) (openings_of loose.now) (outer_of outer.now.value))
        (openings_of strict.now)) }
{
    let mut ways = no_way(alloc);
    let mut left = strict;
    while let Some((one, rest)) = left.split_first() {
        ways.push(tag_of_both(alloc, defs, loose, outer, one)?)?;
        left = rest;
    }
    Ok(ways)
}

/// And of what opens among children without blank strings alone, behind these.
fn with_loose_tags(
    alloc: Global,
    defs: &[Def],
    strict: &[Open],
    loose: &[Open],
    outer: &Rc<Around>,
    ways: Vec<OneWay>,
) -> Result<Vec<OneWay>, NoMemory>
    ensures { IfOk result (λ all. residual_of all.items ≡ residual_of ways.items
        ++ map (entering.tag_of_loose (map definition_of defs.now) (outer_of outer.now.value))
        (entering.others (openings_of strict.now) (openings_of loose.now))) }
{
    let mut all = ways;
    let mut left = loose;
    while let Some((one, rest)) = left.split_first() {
        if !has_number(one.number, strict) {
            all.push(tag_of_loose(alloc, defs, outer, one)?)?;
        }
        left = rest;
    }
    Ok(all)
}

/// In the start tags of what opens inside of an element.
fn tags_inside(
    alloc: Global,
    defs: &[Def],
    strict: &[Open],
    loose: &[Open],
    outer: &Rc<Around>,
) -> Result<Vec<OneWay>, NoMemory>
    ensures { IfOk result (λ ways. residual_of ways.items
        ≡ map (entering.tag_of_both (map definition_of defs.now) (openings_of loose.now) (outer_of outer.now.value))
        (openings_of strict.now)
        ++ map (entering.tag_of_loose (map definition_of defs.now) (outer_of outer.now.value))
        (entering.others (openings_of strict.now) (openings_of loose.now))) }
{
    let ways = tags_of_both(alloc, defs, strict, loose, outer)?;
    with_loose_tags(alloc, defs, strict, loose, outer, ways)
}

/// Behind an element's name.
pub(crate) fn enter_way(
    alloc: Global,
    way: &OneWay,
    defs: &[Def],
    name: &Name,
) -> Result<Vec<OneWay>, NoMemory>
    ensures { IfOk result (λ ways. residual_of ways.items
        ≡ entering.enter_way (map definition_of defs.now) name.now (way_of way.now)) }
{
    match way {
        OneWay::Among(here) => entered(alloc, here, defs, name),
        OneWay::InTag(_, _) => Ok(no_way(alloc)),
    }
}

/// Behind an element's name among children.
fn entered(alloc: Global, here: &Around, defs: &[Def], name: &Name) -> Result<Vec<OneWay>, NoMemory>
    ensures { IfOk result (λ ways. residual_of ways.items
        ≡ entering.enter_outer (map definition_of defs.now) name.now (outer_of here.now)) }
{
    match here {
        Around::Document(rest) => {
            let opened = opens(alloc, defs, name, rest)?;
            tags_at_top(alloc, defs, opened.as_slice())
        }
        Around::Inside {
            strict,
            loose,
            outer,
            ..
        } => {
            let strict = opens(alloc, defs, name, strict)?;
            let loose = opens(alloc, defs, name, loose)?;
            tags_inside(alloc, defs, strict.as_slice(), loose.as_slice(), outer)
        }
        Around::OneOf(this, other) => {
            let first = entered(alloc, this, defs, name)?;
            let second = entered(alloc, other, defs, name)?;
            with_ways(alloc, first, second)
        }
    }
}

/// Behind children that are left out and an element's name.
pub(crate) fn skip_way(
    alloc: Global,
    way: &OneWay,
    defs: &[Def],
    name: &Name,
) -> Result<Vec<OneWay>, NoMemory>
    ensures { IfOk result (λ ways. residual_of ways.items
        ≡ entering.skip_way (map definition_of defs.now) name.now (way_of way.now)) }
{
    match way {
        OneWay::Among(here) => skipped(alloc, here, defs, name),
        OneWay::InTag(_, _) => Ok(no_way(alloc)),
    }
}

/// Behind children that are left out and an element's name, among children.
fn skipped(alloc: Global, here: &Around, defs: &[Def], name: &Name) -> Result<Vec<OneWay>, NoMemory>
    ensures { IfOk result (λ ways. residual_of ways.items
        ≡ entering.skip_outer (map definition_of defs.now) name.now (outer_of here.now)) }
{
    match here {
        Around::Document(rest) => {
            let opened = skip_opens(alloc, defs, name, rest)?;
            tags_at_top(alloc, defs, opened.as_slice())
        }
        Around::Inside {
            strict,
            loose,
            outer,
            ..
        } => {
            let strict = skip_opens(alloc, defs, name, strict)?;
            let loose = skip_opens(alloc, defs, name, loose)?;
            tags_inside(alloc, defs, strict.as_slice(), loose.as_slice(), outer)
        }
        Around::OneOf(this, other) => {
            let first = skipped(alloc, this, defs, name)?;
            let second = skipped(alloc, other, defs, name)?;
            with_ways(alloc, first, second)
        }
    }
}
