//! What an element's name opens: the definitions whose elements may begin here, with what is left behind the element.

ghost use Rattle.std.specs.Prelude.{ℕ, List, ◌≡◌, ◌==◌, ◌≤◌, length, IfOk, OnOk, map, slice_get};
ghost use Rattle.std.specs.List.{list_any, position_or_len};
ghost use Rattle.rng_core.specs.Meaning.{pattern_of, definition_of};
ghost use Rattle.rng_core.specs.Patterns.{Pattern, choice, empty};
ghost use Rattle.rng_kept.specs.SmallPatterns.{choice_of as choice_of_both, interleave_of as interleave_of_both, star as star_of};
ghost use Rattle.rng_kept.specs.Openings.{Opening};
ghost use Rattle.rng_kept.specs.Openings as s;
ghost use Rattle.rng_kept.specs.Skipping as skipping;
ghost use Rattle.rng_kept.specs.Entering as entering;
ghost use Rattle.deriv_pattern.specs.Opened.{opening_of, openings_of, placed};

use crate::boxes::{boxed, boxed_copy, boxed_empty, boxed_not_allowed, unboxed};
use crate::parts::{either_side, first_of_many};
use crate::small::{
    beside_first, choice_of, choice_with, either, group_of, interleave_of, nullable, shuffled, star,
};
use nx_base::memory::NoMemory;
use nx_base::name::Name;
use rng_core::grammar::{Def, Pat};
use std::alloc::Global;
use std::mem;

/// The openings of a pattern, unless memory was wanted.
type Opens = Result<Vec<Open>, NoMemory>;

/// A definition whose element may begin here.
#[derive(Drop)]
pub struct Open {
    /// The number of the definition.
    pub number: u32,
    /// What is left behind its element.
    pub rest: Pat,
}

/// Where an element stands that begins a part of a whole.
#[derive(Clone, Copy)]
pub(crate) enum Place {
    /// In the first side of a group.
    InGroup,
    /// In the first side of an interleave.
    InFirst,
    /// In the second one.
    InSecond,
}

/// The place of the opening of a number, or how many openings there are.
fn place_of(number: u32, opened: &[Open]) -> usize
    ensures place { result ≡ position_or_len (λ one. number == one.number) opened.now }
    ensures within { result ≤ length opened.now }
{
    opened.iter().take_while(|one| number != one.number).count()
}

/// Adds to what is left by an opening what is left by another one of its number. Where there is no memory, the opening is lost.
fn with_rest(alloc: Global, one: &mut Open, rest: &Pat) -> Result<(), NoMemory>
    ensures { OnOk result (opening_of one.new
        ≡ s.opening one.old.number (choice_of_both (pattern_of one.old.rest) (pattern_of rest.now))) }
{
    let old = mem::replace(&mut one.rest, Pat::NotAllowed);
    one.rest = choice_of(alloc, old, rest)?;
    Ok(())
}

/// The openings with one more; of each number there is one, with the rests of all.
#[tactic(auto, using(crate::proofs::Opened::added_at))]
fn added(alloc: Global, opened: Vec<Open>, more: Open) -> Result<Vec<Open>, NoMemory>
    ensures { IfOk result (λ made. openings_of made.items ≡ s.added more.number (pattern_of more.rest) (openings_of opened.items)) }
{
    let mut opened = opened;
    let place = place_of(more.number, opened.as_slice());
    if place == opened.len() {
        opened.push(more)?;
        return Ok(opened);
    }
    let told = with_rest(alloc, &mut opened[place], &more.rest);
    drop(more);
    match told {
        Ok(()) => Ok(opened),
        Err(fault) => {
            drop(opened);
            Err(fault)
        }
    }
}

/// The openings with those of another list.
fn all_joined(alloc: Global, opened: Vec<Open>, more: Vec<Open>) -> Result<Vec<Open>, NoMemory>
    ensures { IfOk result (λ made. openings_of made.items ≡ s.joined (openings_of opened.items) (openings_of more.items)) }
{
    let mut opened = opened;
    for one in more {
        opened = added(alloc, opened, one)?;
    }
    Ok(opened)
}

/// The openings of two parts, each number once.
fn joined(alloc: Global, opened: Opens, more: Opens) -> Result<Vec<Open>, NoMemory>
    ensures { (x y : List Opening) → IfOk opened (λ made. openings_of made.items ≡ x) → IfOk more (λ made. openings_of made.items ≡ y)
        → IfOk result (λ made. openings_of made.items ≡ s.joined x y) }
{
    match opened {
        Ok(opened) => match more {
            Ok(more) => all_joined(alloc, opened, more),
            Err(fault) => {
                drop(opened);
                Err(fault)
            }
        },
        Err(fault) => {
            drop(more);
            Err(fault)
        }
    }
}

/// What is left of an interleave, where this is left of the second side.
fn placed_second(alloc: Global, rest: Pat, side: &Pat) -> Result<Pat, NoMemory>
    ensures { IfOk result (λ left. pattern_of left ≡ interleave_of_both (pattern_of side.now) (pattern_of rest)) }
{
    let rest = boxed(alloc, rest);
    unboxed(beside_first(alloc, side, rest))
}

/// What is left of a whole, where this is left of the part, and the other side of the whole is this.
fn placed_rest(alloc: Global, place: Place, rest: Pat, side: &Pat) -> Result<Pat, NoMemory>
    ensures { IfOk result (λ left. (number : ℕ) → s.opening number (pattern_of left)
        ≡ placed place (pattern_of side.now) (s.opening number (pattern_of rest))) }
{
    match place {
        Place::InGroup => group_of(alloc, rest, side),
        Place::InFirst => interleave_of(alloc, rest, side),
        Place::InSecond => placed_second(alloc, rest, side),
    }
}

/// The openings of a part as those of the whole, of which this is the other side.
fn placed_in(alloc: Global, place: Place, opened: Opens, side: &Pat) -> Result<Vec<Open>, NoMemory>
    ensures { (x : List Opening) → IfOk opened (λ made. openings_of made.items ≡ x)
        → IfOk result (λ made. openings_of made.items ≡ map (placed place (pattern_of side.now)) x) }
{
    match opened {
        Ok(opened) => all_placed(alloc, place, opened, side),
        Err(fault) => Err(fault),
    }
}

/// The openings of a part as those of the whole, of which this is the other side.
fn all_placed(
    alloc: Global,
    place: Place,
    opened: Vec<Open>,
    side: &Pat,
) -> Result<Vec<Open>, NoMemory>
    ensures { IfOk result (λ made. openings_of made.items ≡ map (placed place (pattern_of side.now)) (openings_of opened.items)) }
{
    let mut made = Vec::with_capacity(alloc, opened.len())?;
    for one in opened {
        let rest = placed_rest(alloc, place, one.rest, side)?;
        made.push(Open {
            number: one.number,
            rest,
        })?;
    }
    Ok(made)
}

/// The opening of a definition, if it has the name.
fn definition_opens(
    alloc: Global,
    defs: &[Def],
    name: &Name,
    number: u32,
) -> Result<Vec<Open>, NoMemory>
    ensures { IfOk result (λ made. openings_of made.items ≡
        s.open_definition (slice_get (map definition_of defs.now) number) name.now number) }
{
    let mut made = Vec::new(alloc);
    match defs.get(number as usize) {
        Some(def) => {
            if def.class.has(name) {
                made.push(Open {
                    number,
                    rest: Pat::Empty,
                })?;
            }
            Ok(made)
        }
        None => Ok(made),
    }
}

/// The openings of a repetition, of which these are those of a part.
fn of_many(alloc: Global, opened: Opens, body: &Pat) -> Result<Vec<Open>, NoMemory>
    ensures { (x : List Opening) → IfOk opened (λ made. openings_of made.items ≡ x)
        → IfOk result (λ made. openings_of made.items ≡ map (s.then_group (star_of (pattern_of body.now))) x) }
{
    match star(alloc, body) {
        Ok(more) => {
            let made = placed_in(alloc, Place::InGroup, opened, &more);
            drop(more);
            made
        }
        Err(fault) => {
            drop(opened);
            Err(fault)
        }
    }
}

/// The openings of an interleave, of which these are those of the sides.
fn of_interleave(
    alloc: Global,
    first: Opens,
    a: &Pat,
    b: &Pat,
    second: Opens,
) -> Result<Vec<Open>, NoMemory>
    ensures { (x y : List Opening) → IfOk first (λ made. openings_of made.items ≡ x) → IfOk second (λ made. openings_of made.items ≡ y)
        → IfOk result (λ made. openings_of made.items ≡ s.joined
        (map (s.then_interleave (pattern_of b.now)) x) (map (s.under_interleave (pattern_of a.now)) y)) }
{
    let first = placed_in(alloc, Place::InFirst, first, b);
    joined(alloc, first, placed_in(alloc, Place::InSecond, second, a))
}

/// The definitions that a name opens, each number once.
pub fn opens(alloc: Global, defs: &[Def], name: &Name, p: &Pat) -> Result<Vec<Open>, NoMemory>
    ensures { IfOk result (λ opened. openings_of opened.items ≡ s.opens (map definition_of defs.now) name.now (pattern_of p.now)) }
{
    match p {
        Pat::NotAllowed
        | Pat::Empty
        | Pat::Text
        | Pat::Typed(_, _)
        | Pat::Value(_, _)
        | Pat::List(_)
        | Pat::Attribute(_, _) => Ok(Vec::new(alloc)),
        Pat::Ref(number) => definition_opens(alloc, defs, name, *number),
        Pat::OneOrMore(body) => {
            let opened = opens(alloc, defs, name, body);
            of_many(alloc, opened, body)
        }
        Pat::Choice(a, b) => {
            let first = opens(alloc, defs, name, a);
            joined(alloc, first, opens(alloc, defs, name, b))
        }
        Pat::Group(a, b) => {
            let first = opens(alloc, defs, name, a);
            let first = placed_in(alloc, Place::InGroup, first, b);
            if nullable(a) {
                joined(alloc, first, opens(alloc, defs, name, b))
            } else {
                first
            }
        }
        Pat::Interleave(a, b) => {
            let first = opens(alloc, defs, name, a);
            let second = opens(alloc, defs, name, b);
            of_interleave(alloc, first, a, b, second)
        }
    }
}

/// The pattern, or nothing, in a box.
fn boxed_or_empty(alloc: Global, p: &Pat) -> Result<Box<Pat>, NoMemory>
    ensures { IfOk result (λ made. pattern_of made.value ≡ choice (pattern_of p.now) empty) }
{
    let front = boxed_copy(alloc, p)?;
    choice_with(alloc, front, boxed_empty(alloc))
}

/// The ends of what is matched: of one child it is there or left out. In a box.
fn boxed_ending(alloc: Global, p: &Pat) -> Result<Box<Pat>, NoMemory>
    ensures { IfOk result (λ made. pattern_of made.value ≡ skipping.ending (pattern_of p.now)) }
{
    match p {
        Pat::NotAllowed | Pat::Empty | Pat::Text => boxed_copy(alloc, p),
        Pat::Typed(_, _) | Pat::Value(_, _) | Pat::List(_) | Pat::Ref(_) => {
            boxed_or_empty(alloc, p)
        }
        Pat::Attribute(_, _) => boxed_not_allowed(alloc),
        Pat::OneOrMore(body) => {
            let left = boxed_ending(alloc, body);
            first_of_many(alloc, left, body)
        }
        Pat::Choice(a, b) => {
            let first = boxed_ending(alloc, a);
            either(alloc, first, boxed_ending(alloc, b))
        }
        Pat::Group(a, b) => {
            let first = boxed_ending(alloc, a);
            let second = boxed_ending(alloc, b);
            either_side(alloc, first, b, second)
        }
        Pat::Interleave(a, b) => {
            let first = boxed_ending(alloc, a);
            shuffled(alloc, first, boxed_ending(alloc, b))
        }
    }
}

/// The definitions that a name opens behind any children that are left out, each number once.
pub fn skip_opens(alloc: Global, defs: &[Def], name: &Name, p: &Pat) -> Result<Vec<Open>, NoMemory>
    ensures { IfOk result (λ opened. openings_of opened.items ≡
        skipping.skip_opens (map definition_of defs.now) name.now (pattern_of p.now)) }
{
    match p {
        Pat::NotAllowed
        | Pat::Empty
        | Pat::Text
        | Pat::Typed(_, _)
        | Pat::Value(_, _)
        | Pat::List(_)
        | Pat::Attribute(_, _) => Ok(Vec::new(alloc)),
        Pat::Ref(number) => definition_opens(alloc, defs, name, *number),
        Pat::OneOrMore(body) => {
            let opened = skip_opens(alloc, defs, name, body);
            of_many(alloc, opened, body)
        }
        Pat::Choice(a, b) => {
            let first = skip_opens(alloc, defs, name, a);
            joined(alloc, first, skip_opens(alloc, defs, name, b))
        }
        Pat::Group(a, b) => {
            let first = skip_opens(alloc, defs, name, a);
            let first = placed_in(alloc, Place::InGroup, first, b);
            joined(alloc, first, skip_opens(alloc, defs, name, b))
        }
        Pat::Interleave(a, b) => {
            let first = skip_opens(alloc, defs, name, a);
            let second = skip_opens(alloc, defs, name, b);
            of_ends(alloc, first, a, b, second)
        }
    }
}

/// The openings of one side of an interleave as those of all of it, where this is the other side and its children are left out.
fn beside_ending(
    alloc: Global,
    place: Place,
    opened: Opens,
    side: &Pat,
) -> Result<Vec<Open>, NoMemory>
    ensures { (x : List Opening) → IfOk opened (λ made. openings_of made.items ≡ x)
        → IfOk result (λ made. openings_of made.items ≡ map (placed place (skipping.ending (pattern_of side.now))) x) }
{
    match boxed_ending(alloc, side) {
        Ok(end) => {
            let made = placed_in(alloc, place, opened, &end);
            drop(end);
            made
        }
        Err(fault) => {
            drop(opened);
            Err(fault)
        }
    }
}

/// The openings of an interleave behind children that are left out, of which these are those of the sides.
fn of_ends(
    alloc: Global,
    first: Opens,
    a: &Pat,
    b: &Pat,
    second: Opens,
) -> Result<Vec<Open>, NoMemory>
    ensures { (x y : List Opening) → IfOk first (λ made. openings_of made.items ≡ x) → IfOk second (λ made. openings_of made.items ≡ y)
        → IfOk result (λ made. openings_of made.items ≡ s.joined
        (map (s.then_interleave (skipping.ending (pattern_of b.now))) x)
        (map (s.under_interleave (skipping.ending (pattern_of a.now))) y)) }
{
    let first = beside_ending(alloc, Place::InFirst, first, b);
    joined(
        alloc,
        first,
        beside_ending(alloc, Place::InSecond, second, a),
    )
}

/// What is left by the opening of a number; notAllowed where there is none.
pub fn rest_at(alloc: Global, number: u32, opened: &[Open]) -> Result<Pat, NoMemory>
    ensures { IfOk result (λ left. pattern_of left ≡ entering.rest_at number (openings_of opened.now)) }
{
    let mut left = Pat::NotAllowed;
    let mut i = opened.len();
    while i > 0 {
        i -= 1;
        let one = &opened[i];
        if number == one.number {
            left = choice_of(alloc, one.rest.copy(alloc)?, &left)?;
        }
    }
    Ok(left)
}

/// Whether one of the openings has the number.
fn some_has(number: u32, opened: &[Open]) -> bool
    ensures { result ≡ list_any (λ one. number == one.number) opened.now }
{
    opened.iter().any(|one| number == one.number)
}

/// Whether there is an opening of the number.
pub fn has_number(number: u32, opened: &[Open]) -> bool
    ensures { result ≡ entering.has_number number (openings_of opened.now) }
{
    some_has(number, opened)
}
