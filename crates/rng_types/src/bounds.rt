//! Numbers that meet bounds, and that no except takes away.

ghost use Rattle.std.specs.Prelude.{◌≡◌, ◌&&◌, not, IsTrue};
ghost use Rattle.std.specs.List.{list_all, list_any};
ghost use Rattle.std.specs.Str.{is_utf8};
ghost use Rattle.rng_types.specs.Spaces.{collapsed};
ghost use Rattle.rng_types.specs.Numbers.{number_of, is_decimal};
ghost use Rattle.rng_types.specs.NumberMembers.{is_lower as is_lower_relation, is_upper as is_upper_relation};
ghost use Rattle.rng_types.specs.NumberMembers.{is_number_bound, is_decimal_except, is_number_met, takes_number};
ghost use Rattle.rng_types.specs.NumberMembers.{is_number_left as is_left_number, leaves_room as leaves_room_to};
ghost use Rattle.rng_types.specs.NumberMembers.{has_room as has_room_between, is_limit_left as is_left_limit};
ghost use Rattle.rng_types.specs.NumberMembers.{has_decimal as has_some_decimal};

use crate::datatype::Except;
use crate::excepts::text_of;
use crate::facet::{Facet, Relation};
use crate::form::only_word;
use crate::number::compare;
use std::cmp::Ordering;

impl Relation {
    /// Whether what is in the relation to a limit isn't below it.
    pub(crate) fn is_lower(self) -> bool
        ensures { result ≡ is_lower_relation self }
    {
        match self {
            Relation::Exactly => true,
            Relation::AtLeast => true,
            Relation::AtMost => false,
            Relation::Above => true,
            Relation::Below => false,
        }
    }

    /// Whether it isn't above it.
    fn is_upper(self) -> bool
        ensures { result ≡ is_upper_relation self }
    {
        match self {
            Relation::Exactly => true,
            Relation::AtLeast => false,
            Relation::AtMost => true,
            Relation::Above => false,
            Relation::Below => true,
        }
    }
}

/// The word of a literal of a number.
pub(crate) fn number_word(literal: &[u8]) -> &[u8]
    requires { IsTrue (is_utf8 literal.now && is_decimal (collapsed literal.now)) }
    ensures { result.now ≡ collapsed literal.now }
{
    let Some(word) = only_word(text_of(literal)) else {
        unreachable!();
    };
    word.as_bytes()
}

/// Whether an except takes a literal's number away.
fn takes(except: &Except, literal: &[u8]) -> bool
    requires number { IsTrue (is_decimal literal.now) }
    requires other { IsTrue (is_decimal_except except.now) }
    ensures { result ≡ takes_number (number_of literal.now) except.now }
{
    match except {
        Except::Own(own) => compare(literal, number_word(own.as_slice())) == Ordering::Equal,
        Except::BuiltinString(_) => false,
        Except::BuiltinToken(_) => false,
    }
}

impl Facet {
    /// Whether a literal's number meets the bound.
    fn bounds(&self, literal: &[u8]) -> bool
        requires number { IsTrue (is_decimal literal.now) }
        requires bound { IsTrue (is_number_bound self.now) }
        ensures { result ≡ is_number_met (number_of literal.now) self.now }
    {
        match self {
            Facet::Length(_, _) => false,
            Facet::Bound(relation, limit) => relation.holds(compare(literal, limit.as_slice())),
        }
    }

    /// Whether a lower bound leaves room to an upper one.
    fn leaves_room(&self, upper: &Facet) -> bool
        requires bound { IsTrue (is_number_bound self.now) }
        requires other { IsTrue (is_number_bound upper.now) }
        ensures { result ≡ leaves_room_to self.now upper.now }
    {
        let (Facet::Bound(relation, limit), Facet::Bound(other, end)) = (self, upper) else {
            return true;
        };
        !(relation.is_lower() && other.is_upper())
            || compare(limit.as_slice(), end.as_slice()) == Ordering::Less
    }

    /// Whether it leaves room to each.
    fn leaves_room_to_all(&self, facets: &[Facet]) -> bool
        requires bound { IsTrue (is_number_bound self.now) }
        requires others { IsTrue (list_all is_number_bound facets.now) }
        ensures { result ≡ list_all (leaves_room_to self.now) facets.now }
    {
        for facet in facets {
            if !self.leaves_room(facet) {
                return false;
            }
        }
        true
    }
}

/// Whether a literal's number meets all bounds.
pub(crate) fn meets_all(facets: &[Facet], literal: &[u8]) -> bool
    requires number { IsTrue (is_decimal literal.now) }
    requires bounds { IsTrue (list_all is_number_bound facets.now) }
    ensures { result ≡ list_all (is_number_met (number_of literal.now)) facets.now }
{
    for facet in facets {
        if !facet.bounds(literal) {
            return false;
        }
    }
    true
}

/// Whether no except takes a literal's number away.
fn none_takes(excepts: &[Except], literal: &[u8]) -> bool
    requires number { IsTrue (is_decimal literal.now) }
    requires others { IsTrue (list_all is_decimal_except excepts.now) }
    ensures { result ≡ list_all (λ except. not (takes_number (number_of literal.now) except)) excepts.now }
{
    for except in excepts {
        if takes(except, literal) {
            return false;
        }
    }
    true
}

/// Whether a literal's number meets all bounds, and no except takes it away.
pub(crate) fn is_number_left(facets: &[Facet], excepts: &[Except], literal: &[u8]) -> bool
    requires number { IsTrue (is_decimal literal.now) }
    requires bounds { IsTrue (list_all is_number_bound facets.now) }
    requires others { IsTrue (list_all is_decimal_except excepts.now) }
    ensures { result ≡ is_left_number facets.now excepts.now (number_of literal.now) }
{
    meets_all(facets, literal) && none_takes(excepts, literal)
}

/// Whether each lower bound leaves room to each upper one.
pub(crate) fn has_room(facets: &[Facet]) -> bool
    requires { IsTrue (list_all is_number_bound facets.now) }
    ensures { result ≡ has_room_between facets.now }
{
    for facet in facets {
        if !facet.leaves_room_to_all(facets) {
            return false;
        }
    }
    true
}

/// Whether the number of a bound itself is left.
pub(crate) fn is_limit_left(facets: &[Facet], excepts: &[Except], facet: &Facet) -> bool
    requires bounds { IsTrue (list_all is_number_bound facets.now) }
    requires bound { IsTrue (is_number_bound facet.now) }
    requires others { IsTrue (list_all is_decimal_except excepts.now) }
    ensures { result ≡ is_left_limit facets.now excepts.now facet.now }
{
    match facet {
        Facet::Length(_, _) => false,
        Facet::Bound(_, limit) => is_number_left(facets, excepts, limit.as_slice()),
    }
}

/// Whether the number of some bound is left.
fn any_limit_left(facets: &[Facet], excepts: &[Except]) -> bool
    requires bounds { IsTrue (list_all is_number_bound facets.now) }
    requires others { IsTrue (list_all is_decimal_except excepts.now) }
    ensures { result ≡ list_any (is_left_limit facets.now excepts.now) facets.now }
{
    for facet in facets {
        if is_limit_left(facets, excepts, facet) {
            return true;
        }
    }
    false
}

/// Whether a decimal is left.
pub(crate) fn has_decimal(facets: &[Facet], excepts: &[Except]) -> bool
    requires bounds { IsTrue (list_all is_number_bound facets.now) }
    requires others { IsTrue (list_all is_decimal_except excepts.now) }
    ensures { result ≡ has_some_decimal facets.now excepts.now }
{
    has_room(facets) || any_limit_left(facets, excepts)
}
