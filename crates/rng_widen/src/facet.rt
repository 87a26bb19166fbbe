//! The facets of XML Schema's types that a schema may give (XML Schema Part 2, section 4.3).

ghost use Rattle.std.specs.Prelude.{◌≡◌};
ghost use Rattle.std.specs.List.{find};
ghost use Rattle.std.specs.Option.{option_copied};
ghost use Rattle.std.specs.Str.{bytes_eq};
ghost use Rattle.rng_widen.specs.Facets.{facet_text, is_length, is_bound, is_digits, is_pattern, is_of_sort, has_facet};
ghost use Rattle.rng_widen.specs.Facets.{is_left_out, is_left_out_of};
ghost use Rattle.rng_widen.specs.Naming.{facet_named};

use crate::schema_type::{SchemaType, Sort, sort_of};

/// A facet that a schema may give.
#[derive(Clone, Copy, Debug, PartialEq, Eq)]
pub enum Facet {
    Length,
    MinLength,
    MaxLength,
    MinInclusive,
    MaxInclusive,
    MinExclusive,
    MaxExclusive,
    TotalDigits,
    FractionDigits,
    Pattern,
}

const FACETS: [Facet; 10] = [
    Facet::Length,
    Facet::MinLength,
    Facet::MaxLength,
    Facet::MinInclusive,
    Facet::MaxInclusive,
    Facet::MinExclusive,
    Facet::MaxExclusive,
    Facet::TotalDigits,
    Facet::FractionDigits,
    Facet::Pattern,
];

/// How a facet is named.
pub fn facet_text(named: Facet) -> &'static [u8]
    ensures { result.now ≡ facet_text named }
{
    match named {
        Facet::Length => b"length",
        Facet::MinLength => b"minLength",
        Facet::MaxLength => b"maxLength",
        Facet::MinInclusive => b"minInclusive",
        Facet::MaxInclusive => b"maxInclusive",
        Facet::MinExclusive => b"minExclusive",
        Facet::MaxExclusive => b"maxExclusive",
        Facet::TotalDigits => b"totalDigits",
        Facet::FractionDigits => b"fractionDigits",
        Facet::Pattern => b"pattern",
    }
}

/// The first of the facets with this name.
fn first_facet<'a>(facets: &'a [Facet], local: &[u8]) -> Option<&'a Facet>
    ensures { option_copied result ≡ find (λ named. bytes_eq (facet_text named) local.now) facets.now }
{
    facets.iter().find(|named| facet_text(**named) == local)
}

/// The facet of this name.
#[tactic(auto, unfolding(crate::specs::Naming::facet_named))]
pub(crate) fn facet_named(local: &[u8]) -> Option<Facet>
    ensures { result ≡ facet_named local.now }
{
    first_facet(&FACETS, local).copied()
}

/// Whether the facet is a length.
fn is_length(facet: Facet) -> bool
    ensures { result ≡ is_length facet }
{
    matches!(facet, Facet::Length | Facet::MinLength | Facet::MaxLength)
}

/// Whether the facet is a bound.
fn is_bound(facet: Facet) -> bool
    ensures { result ≡ is_bound facet }
{
    matches!(
        facet,
        Facet::MinInclusive | Facet::MaxInclusive | Facet::MinExclusive | Facet::MaxExclusive
    )
}

/// Whether the facet is a number of digits.
fn is_digits(facet: Facet) -> bool
    ensures { result ≡ is_digits facet }
{
    matches!(facet, Facet::TotalDigits | Facet::FractionDigits)
}

/// Whether the facet is a regular expression.
fn is_pattern(facet: Facet) -> bool
    ensures { result ≡ is_pattern facet }
{
    matches!(facet, Facet::Pattern)
}

/// Whether types of the sort have the facet.
fn is_of_sort(sort: Sort, facet: Facet) -> bool
    ensures { result ≡ is_of_sort sort facet }
{
    match sort {
        Sort::Texts | Sort::Words => is_length(facet) || is_pattern(facet),
        Sort::Truths => is_pattern(facet),
        Sort::Numbers => is_bound(facet) || (is_digits(facet) || is_pattern(facet)),
        Sort::Moments => is_bound(facet) || is_pattern(facet),
    }
}

/// Whether the type has the facet.
pub(crate) fn has_facet(named: SchemaType, facet: Facet) -> bool
    ensures { result ≡ has_facet named facet }
{
    is_of_sort(sort_of(named), facet)
}

/// Whether types of the sort have the facet, and it isn't held of the type by which they are checked.
fn is_left_out(sort: Sort, facet: Facet) -> bool
    ensures { result ≡ is_left_out sort facet }
{
    match sort {
        Sort::Texts | Sort::Truths => is_pattern(facet),
        Sort::Words => is_length(facet) || is_pattern(facet),
        Sort::Numbers => is_digits(facet) || is_pattern(facet),
        Sort::Moments => is_bound(facet) || is_pattern(facet),
    }
}

/// Whether the type has the facet, and it isn't held of the type by which this one is checked.
pub(crate) fn is_left_out_of(named: SchemaType, facet: Facet) -> bool
    ensures { result ≡ is_left_out_of named facet }
{
    is_left_out(sort_of(named), facet)
}
