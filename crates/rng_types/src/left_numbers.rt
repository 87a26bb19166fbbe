//! A number between bounds that no except takes away, by a literal.

ghost use Rattle.std.specs.Prelude.{◌≡◌, ◌≤◌, ◌<◌, ◌+◌, ◌+ℤ◌, ℕ, List, true, false, None, pos, length, map, IfOk, IsTrue, MatchOption, codes};
ghost use Rattle.std.specs.List.{list_all, list_any};
ghost use Rattle.rng_types.specs.Numbers.{number_of, is_decimal, is_integer};
ghost use Rattle.rng_types.specs.Offsets.{whole_number};
ghost use Rattle.rng_types.specs.WellMade.{suits};
ghost use Rattle.rng_types.specs.NumberMembers.{is_number_bound, is_decimal_except, is_integer_except, over, limit_over};
ghost use Rattle.rng_types.specs.NumberMembers.{is_number_met, is_number_left as is_left_number, is_limit_left as is_left_limit};
ghost use Rattle.rng_types.specs.NumberMembers.{some_below, lower_end as greatest_lower_end, has_room as has_room_between};
ghost use Rattle.rng_types.specs.NumberMembers.{has_integer as has_some_integer, has_decimal as has_some_decimal};
ghost use Rattle.rng_types.specs.Giving.{pointed as with_point, extended as with_digits, is_limit_within};
ghost use Rattle.rng_types.specs.declared.facet.Relation.{Relation};
ghost use Rattle.rng_types.specs.declared.facet.Facet.TheVariants.{Bound};
ghost use Rattle.rng_types.specs.declared.kind.Form.TheVariants.{One};
ghost use Rattle.rng_types.specs.declared.kind.Word.TheVariants.{Integer};

use crate::bounds::{has_room, is_limit_left, is_number_left, meets_all};
use crate::datatype::Except;
use crate::facet::Facet;
use crate::integers::{is_left_above, lower_end};
use crate::members::TRIALS;
use crate::naming::bytes_of;
use crate::number_texts::{extended, longest_limit, pointed};
use crate::successor::plus;
use nx_base::memory::NoMemory;
use nx_base::sequence::Bytes;
use std::alloc::Global;

/// The first whole number that is left among so many from a literal's on.
fn left_from(
    alloc: Global,
    facets: &[Facet],
    excepts: &[Except],
    low: &[u8],
    count: u32,
) -> Result<Option<Bytes>, NoMemory>
    requires low { IsTrue (is_integer low.now) }
    requires bounds { IsTrue (list_all (suits (One Integer)) facets.now) }
    requires others { IsTrue (list_all is_integer_except excepts.now) }
    requires near { count < 1000 }
    ensures { IfOk result (λ found. MatchOption found
        (some_below (λ i. is_left_number facets.now excepts.now (over 0 (whole_number low.now +ℤ pos i))) count ≡ false)
        (λ text. IsTrue (is_integer text) × IsTrue (is_left_number facets.now excepts.now (number_of text)))) }
{
    for above in 0..count {
        if is_left_above(facets, excepts, low, above) {
            let text = plus(alloc, low, above)?;
            return Ok(Some(text));
        }
    }
    Ok(None)
}

/// A whole number that is left below all bounds, where each is an upper one.
fn left_below(
    alloc: Global,
    facets: &[Facet],
    excepts: &[Except],
) -> Result<Option<Bytes>, NoMemory>
    requires bounds { IsTrue (list_all (suits (One Integer)) facets.now) }
    requires upper { greatest_lower_end (map (limit_over 0) facets.now) ≡ None }
    requires others { IsTrue (list_all is_integer_except excepts.now) }
    requires few { length excepts.now ≤ 129 }
    ensures { IfOk result (λ found. MatchOption found ⊥
        (λ text. IsTrue (is_integer text) × IsTrue (is_left_number facets.now excepts.now (number_of text)))) }
{
    let zeros = longest_limit(facets);
    for number in 0..TRIALS {
        let text = extended(alloc, "-1".as_bytes(), zeros, number)?;
        if is_number_left(facets, excepts, text.as_slice()) {
            return Ok(Some(text));
        }
    }
    Ok(None)
}

/// A whole number that is left.
pub(crate) fn left_integer(
    alloc: Global,
    facets: &[Facet],
    excepts: &[Except],
) -> Result<Option<Bytes>, NoMemory>
    requires bounds { IsTrue (list_all (suits (One Integer)) facets.now) }
    requires others { IsTrue (list_all is_integer_except excepts.now) }
    requires few { length excepts.now ≤ 129 }
    ensures { IfOk result (λ found. MatchOption found (has_some_integer facets.now excepts.now ≡ false)
        (λ text. IsTrue (is_integer text) × IsTrue (is_left_number facets.now excepts.now (number_of text)))) }
{
    match lower_end(facets) {
        Some(low) => Ok(left_from(alloc, facets, excepts, low, excepts.len() as u32 + 2)?),
        None => Ok(left_below(alloc, facets, excepts)?),
    }
}

/// The limit of a bound.
pub(crate) fn limit_of(facet: &Facet) -> &[u8]
    ensures { (relation : Relation) (limit : List ℕ) → facet.now ≡ Bound relation limit → result.now ≡ limit }
{
    match facet {
        Facet::Length(_, _) => &[],
        Facet::Bound(_, limit) => limit.as_slice(),
    }
}

/// The first limit of a bound whose number is left.
fn left_limit(
    alloc: Global,
    facets: &[Facet],
    excepts: &[Except],
) -> Result<Option<Bytes>, NoMemory>
    requires bounds { IsTrue (list_all is_number_bound facets.now) }
    requires others { IsTrue (list_all is_decimal_except excepts.now) }
    ensures { IfOk result (λ found. MatchOption found (list_any (is_left_limit facets.now excepts.now) facets.now ≡ false)
        (λ text. IsTrue (is_decimal text) × IsTrue (is_left_number facets.now excepts.now (number_of text)))) }
{
    for facet in facets {
        if is_limit_left(facets, excepts, facet) {
            let text = bytes_of(alloc, limit_of(facet))?;
            return Ok(Some(text));
        }
    }
    Ok(None)
}

/// A number that is left just beyond another, that is further from zero by less than any two numbers of so many places differ.
/// They are tried only where the first meets all bounds, since then all do.
fn left_beyond(
    alloc: Global,
    facets: &[Facet],
    excepts: &[Except],
    base: &[u8],
    zeros: u64,
) -> Result<Option<Bytes>, NoMemory>
    requires base { IsTrue (is_decimal base.now) }
    requires bounds { IsTrue (list_all is_number_bound facets.now) }
    requires others { IsTrue (list_all is_decimal_except excepts.now) }
    ensures { IfOk result (λ found. MatchOption found
        (list_all (is_number_met (number_of (with_digits (with_point base.now) zeros 1))) facets.now ≡ true → (i : ℕ) → i < 130 →
        is_left_number facets.now excepts.now (number_of (with_digits (with_point base.now) zeros (i + 1))) ≡ false)
        (λ text. IsTrue (is_decimal text) × IsTrue (is_left_number facets.now excepts.now (number_of text)))) }
{
    let whole = pointed(alloc, base)?;
    let first = extended(alloc, whole.as_slice(), zeros, 1)?;
    if !meets_all(facets, first.as_slice()) {
        return Ok(None);
    }
    for number in 0..TRIALS {
        let text = extended(alloc, whole.as_slice(), zeros, number + 1)?;
        if is_number_left(facets, excepts, text.as_slice()) {
            return Ok(Some(text));
        }
    }
    Ok(None)
}

/// A number that is left, where each lower bound leaves room to each upper one.
fn left_between(
    alloc: Global,
    facets: &[Facet],
    excepts: &[Except],
) -> Result<Option<Bytes>, NoMemory>
    requires bounds { IsTrue (list_all is_number_bound facets.now) }
    requires others { IsTrue (list_all is_decimal_except excepts.now) }
    requires few { length excepts.now ≤ 129 }
    requires room { IsTrue (has_room_between facets.now) }
    ensures { IfOk result (λ found. MatchOption found ⊥
        (λ text. IsTrue (is_decimal text) × IsTrue (is_left_number facets.now excepts.now (number_of text)))) }
{
    let zeros = longest_limit(facets);
    let above = left_beyond(alloc, facets, excepts, "0".as_bytes(), zeros)?;
    if above.is_some() {
        return Ok(above);
    }
    let below = left_beyond(alloc, facets, excepts, "-0".as_bytes(), zeros)?;
    if below.is_some() {
        return Ok(below);
    }
    for facet in facets {
        let found = left_beyond(alloc, facets, excepts, limit_of(facet), zeros)?;
        if found.is_some() {
            return Ok(found);
        }
    }
    Ok(None)
}

/// A number that is left.
pub(crate) fn left_decimal(
    alloc: Global,
    facets: &[Facet],
    excepts: &[Except],
) -> Result<Option<Bytes>, NoMemory>
    requires bounds { IsTrue (list_all is_number_bound facets.now) }
    requires others { IsTrue (list_all is_decimal_except excepts.now) }
    requires few { length excepts.now ≤ 129 }
    ensures { IfOk result (λ found. MatchOption found (has_some_decimal facets.now excepts.now ≡ false)
        (λ text. IsTrue (is_decimal text) × IsTrue (is_left_number facets.now excepts.now (number_of text)))) }
{
    let limit = left_limit(alloc, facets, excepts)?;
    if limit.is_some() {
        return Ok(limit);
    }
    if !has_room(facets) {
        return Ok(None);
    }
    let found = left_between(alloc, facets, excepts)?;
    Ok(found)
}
