//! Whether a whole number is left behind the greatest lower end.

ghost use Rattle.std.specs.Prelude.{◌≡◌, ◌≤◌, ◌<◌, ◌+◌, ◌+ℤ◌, ◌&&◌, pos, not, length, map, Some, option_copied, IsTrue, IfSome};
ghost use Rattle.std.specs.Int.{int_max};
ghost use Rattle.std.specs.List.{list_all};
ghost use Rattle.rng_types.specs.Numbers.{is_integer};
ghost use Rattle.rng_types.specs.Offsets.{whole_number, end_of};
ghost use Rattle.rng_types.specs.WellMade.{suits};
ghost use Rattle.rng_types.specs.NumberMembers.{is_integer_except, is_number_met, takes_number, is_number_left, over};
ghost use Rattle.rng_types.specs.NumberMembers.{limit_over, raised as raised_to, lower_end as greatest_lower_end};
ghost use Rattle.rng_types.specs.NumberMembers.{some_below, has_integer as has_some_integer};
ghost use Rattle.rng_types.specs.declared.kind.Form.TheVariants.{One};
ghost use Rattle.rng_types.specs.declared.kind.Word.TheVariants.{Integer};

use crate::bounds::number_word;
use crate::datatype::Except;
use crate::facet::Facet;
use crate::offset::offset;

/// The literal of the greater number.
fn greater<'a>(a: &'a [u8], b: &'a [u8]) -> &'a [u8]
    requires first { IsTrue (is_integer a.now) }
    requires second { IsTrue (is_integer b.now) }
    ensures integer { IsTrue (is_integer result.now) }
    ensures value { whole_number result.now ≡ int_max (whole_number a.now) (whole_number b.now) }
{
    if offset(b, a) < 1000 { a } else { b }
}

/// A lower end so far, raised by a bound.
fn raised<'a>(low: Option<&'a [u8]>, facet: &'a Facet) -> Option<&'a [u8]>
    requires low { IfSome low (λ text. IsTrue (is_integer text.now)) }
    requires bound { IsTrue (suits (One Integer) facet.now) }
    ensures integer { IfSome result (λ text. IsTrue (is_integer text.now)) }
    ensures value { end_of (option_copied result) ≡ raised_to (end_of (option_copied low.entry)) (limit_over 0 facet.now) }
{
    let Facet::Bound(relation, limit) = facet else {
        return low;
    };
    if !relation.is_lower() {
        return low;
    }
    match low {
        Some(low) => Some(greater(limit.as_slice(), low)),
        None => Some(limit.as_slice()),
    }
}

/// The literal of the greatest lower end, if there is one.
pub(crate) fn lower_end(facets: &[Facet]) -> Option<&[u8]>
    requires { IsTrue (list_all (suits (One Integer)) facets.now) }
    ensures integer { IfSome result (λ text. IsTrue (is_integer text.now)) }
    ensures value { end_of (option_copied result) ≡ greatest_lower_end (map (limit_over 0) facets.now) }
{
    let mut low: Option<&[u8]> = None;
    for facet in facets {
        low = raised(low, facet);
    }
    low
}

impl Facet {
    /// Whether the number that lies so far above a literal's meets the bound.
    fn bounds_above(&self, low: &[u8], above: u32) -> bool
        requires low { IsTrue (is_integer low.now) }
        requires bound { IsTrue (suits (One Integer) self.now) }
        requires near { above < 1000 }
        ensures { result ≡ is_number_met (over 0 (whole_number low.now +ℤ pos above)) self.now }
    {
        match self {
            Facet::Length(_, _) => false,
            Facet::Bound(relation, limit) => {
                relation.holds((1000 + above).cmp(&offset(limit.as_slice(), low)))
            }
        }
    }
}

/// Whether an except takes that number away.
fn takes_above(except: &Except, low: &[u8], above: u32) -> bool
    requires low { IsTrue (is_integer low.now) }
    requires other { IsTrue (is_integer_except except.now) }
    requires near { above < 1000 }
    ensures { result ≡ takes_number (over 0 (whole_number low.now +ℤ pos above)) except.now }
{
    match except {
        Except::Own(own) => offset(number_word(own.as_slice()), low) == 1000 + above,
        Except::BuiltinString(_) => false,
        Except::BuiltinToken(_) => false,
    }
}

/// Whether it meets all bounds.
fn meets_above(facets: &[Facet], low: &[u8], above: u32) -> bool
    requires low { IsTrue (is_integer low.now) }
    requires bounds { IsTrue (list_all (suits (One Integer)) facets.now) }
    requires near { above < 1000 }
    ensures { result ≡ list_all (is_number_met (over 0 (whole_number low.now +ℤ pos above))) facets.now }
{
    for facet in facets {
        if !facet.bounds_above(low, above) {
            return false;
        }
    }
    true
}

/// Whether no except takes it away.
fn none_takes_above(excepts: &[Except], low: &[u8], above: u32) -> bool
    requires low { IsTrue (is_integer low.now) }
    requires others { IsTrue (list_all is_integer_except excepts.now) }
    requires near { above < 1000 }
    ensures { result ≡ list_all (λ except. not (takes_number (over 0 (whole_number low.now +ℤ pos above)) except)) excepts.now }
{
    for except in excepts {
        if takes_above(except, low, above) {
            return false;
        }
    }
    true
}

/// Whether it is left.
pub(crate) fn is_left_above(facets: &[Facet], excepts: &[Except], low: &[u8], above: u32) -> bool
    requires low { IsTrue (is_integer low.now) }
    requires bounds { IsTrue (list_all (suits (One Integer)) facets.now) }
    requires others { IsTrue (list_all is_integer_except excepts.now) }
    requires near { above < 1000 }
    ensures { result ≡ is_number_left facets.now excepts.now (over 0 (whole_number low.now +ℤ pos above)) }
{
    meets_above(facets, low, above) && none_takes_above(excepts, low, above)
}

/// Whether one of the first numbers from a literal's on is left.
fn any_left_above(facets: &[Facet], excepts: &[Except], low: &[u8], count: u32) -> bool
    requires low { IsTrue (is_integer low.now) }
    requires bounds { IsTrue (list_all (suits (One Integer)) facets.now) }
    requires others { IsTrue (list_all is_integer_except excepts.now) }
    requires near { count < 1000 }
    ensures { result ≡ some_below (λ i. is_number_left facets.now excepts.now (over 0 (whole_number low.now +ℤ pos i))) count }
{
    for above in 0..count {
        if is_left_above(facets, excepts, low, above) {
            return true;
        }
    }
    false
}

/// Whether a whole number is left.
pub(crate) fn has_integer(facets: &[Facet], excepts: &[Except]) -> bool
    requires bounds { IsTrue (list_all (suits (One Integer)) facets.now) }
    requires others { IsTrue (list_all is_integer_except excepts.now) }
    requires few { length excepts.now ≤ 129 }
    ensures { result ≡ has_some_integer facets.now excepts.now }
{
    match lower_end(facets) {
        Some(low) => any_left_above(facets, excepts, low, excepts.len() as u32 + 2),
        None => true,
    }
}
