//! Ways that are merged: those among children with the same outside are one.

ghost use Rattle.std.specs.Prelude.{◌≡◌, IfOk, not};
ghost use Rattle.std.specs.List.{prefix_len};
ghost use Rattle.rng_core.specs.Meaning.{pattern_of};
ghost use Rattle.rng_kept.specs.SmallPatterns as small;
ghost use Rattle.rng_kept.specs.Merging as merging;
ghost use Rattle.deriv_plain.specs.Ways.{outer_of, way_of, residual_of};

use crate::around::Around;
use crate::ways::OneWay;
use deriv_pattern::small::{choice_of, same_pattern};
use nx_base::memory::NoMemory;
use rng_core::grammar::Pat;
use std::alloc::Global;
use std::rc::Rc;

/// Whether one is among those that there is a choice of, or the whole.
fn is_around_in(one: &Around, all: &Around) -> bool
    ensures { result ≡ merging.is_outer_in (outer_of one.now) (outer_of all.now) }
{
    match all {
        Around::Document(_) => one.same(all),
        Around::Inside { .. } => one.same(all),
        Around::OneOf(this, other) => is_around_in(one, this) || one.same(other),
    }
}

/// A choice with one more, unless it is there.
fn with_around(alloc: Global, a: &Rc<Around>, b: &Rc<Around>) -> Result<Rc<Around>, NoMemory>
    ensures { IfOk result (λ made. outer_of made.value ≡ merging.with_outer (outer_of a.now.value) (outer_of b.now.value)) }
{
    if is_around_in(b, a) {
        Ok(a.clone()?)
    } else {
        Around::one_of(alloc, a, b)
    }
}

/// A choice with each that there is a choice of in a second one.
fn either_around(alloc: Global, a: &Rc<Around>, b: &Rc<Around>) -> Result<Rc<Around>, NoMemory>
    ensures { IfOk result (λ made. outer_of made.value ≡ merging.either_outer (outer_of a.now.value) (outer_of b.now.value)) }
{
    match b.as_ref() {
        Around::Document(_) => with_around(alloc, a, b),
        Around::Inside { .. } => with_around(alloc, a, b),
        Around::OneOf(this, other) => {
            let both = either_around(alloc, a, this)?;
            either_around(alloc, &both, other)
        }
    }
}

/// Whether two flags are one.
fn same_flag(v: bool, w: bool) -> bool
    ensures { result ≡ merging.same_flag v w }
{
    v == w
}

/// Whether two that are among children are merged.
fn can_join(a: &Around, b: &Around) -> bool
    ensures { result ≡ merging.can_join (outer_of a.now) (outer_of b.now) }
{
    match (a, b) {
        (Around::Document(_), Around::Document(_)) => true,
        (Around::Document(_), Around::Inside { .. }) => false,
        (Around::Document(_), Around::OneOf(_, _)) => false,
        (Around::Inside { .. }, Around::Document(_)) => false,
        (Around::Inside { .. }, Around::OneOf(_, _)) => false,
        (Around::OneOf(_, _), _) => false,
        (
            Around::Inside {
                strict,
                loose,
                void,
                outer,
            },
            Around::Inside {
                strict: other_strict,
                loose: other_loose,
                void: other_void,
                outer: other_outer,
            },
        ) => {
            outer.same(other_outer)
                || (same_pattern(strict, other_strict)
                    && same_pattern(loose, other_loose)
                    && same_flag(*void, *other_void))
        }
    }
}

/// Whether two ways are merged.
fn can_join_ways(a: &OneWay, b: &OneWay) -> bool
    ensures { result ≡ merging.can_join_ways (way_of a.now) (way_of b.now) }
{
    match (a, b) {
        (OneWay::Among(here), OneWay::Among(other)) => can_join(here, other),
        (OneWay::Among(_), OneWay::InTag(_, _)) => false,
        (OneWay::InTag(_, _), OneWay::Among(_)) => false,
        (OneWay::InTag(content, _), OneWay::InTag(other, _)) => same_pattern(content, other),
    }
}

/// What either pattern takes.
fn either_of(alloc: Global, a: &Pat, b: &Pat) -> Result<Pat, NoMemory>
    ensures { IfOk result (λ made. pattern_of made ≡ small.choice_of (pattern_of a.now) (pattern_of b.now)) }
{
    choice_of(alloc, a.copy(alloc)?, b)
}

/// Two that are merged, as one: a choice of what is left of the children, where what lies around is the same, and else a choice of
/// what lies around.
fn joined(alloc: Global, a: &Rc<Around>, b: &Around) -> Result<Rc<Around>, NoMemory>
    ensures { IfOk result (λ made. outer_of made.value ≡ merging.joined_outer (outer_of a.now.value) (outer_of b.now)) }
{
    match (a.as_ref(), b) {
        (Around::Document(rest), Around::Document(other)) => {
            Around::document(alloc, either_of(alloc, rest, other)?)
        }
        (Around::Document(_), Around::Inside { .. }) => Ok(a.clone()?),
        (Around::Document(_), Around::OneOf(_, _)) => Ok(a.clone()?),
        (Around::Inside { .. }, Around::Document(_)) => Ok(a.clone()?),
        (Around::Inside { .. }, Around::OneOf(_, _)) => Ok(a.clone()?),
        (Around::OneOf(_, _), _) => Ok(a.clone()?),
        (
            Around::Inside {
                strict,
                loose,
                void,
                outer,
            },
            Around::Inside {
                strict: other_strict,
                loose: other_loose,
                void: other_void,
                outer: other_outer,
            },
        ) => {
            if outer.same(other_outer) {
                let strict = either_of(alloc, strict, other_strict)?;
                let loose = either_of(alloc, loose, other_loose)?;
                return Around::inside(alloc, strict, loose, *void || *other_void, outer);
            }
            let both = either_around(alloc, outer, other_outer)?;
            Around::inside(alloc, strict.copy(alloc)?, loose.copy(alloc)?, *void, &both)
        }
    }
}

/// Two ways that are merged, as one.
fn joined_way(alloc: Global, a: &OneWay, b: &OneWay) -> Result<OneWay, NoMemory>
    ensures { IfOk result (λ made. way_of made ≡ merging.joined_way (way_of a.now) (way_of b.now)) }
{
    match (a, b) {
        (OneWay::Among(here), OneWay::Among(other)) => {
            Ok(OneWay::Among(joined(alloc, here, other)?))
        }
        (OneWay::Among(_), OneWay::InTag(_, _)) => a.copy(alloc),
        (OneWay::InTag(_, _), OneWay::Among(_)) => a.copy(alloc),
        (OneWay::InTag(content, outer), OneWay::InTag(_, other)) => {
            let outer = either_around(alloc, outer, other)?;
            Ok(OneWay::InTag(content.copy(alloc)?, outer))
        }
    }
}

/// How many ways stand before the first with which one is merged, or all of them.
fn count_apart(ways: &[OneWay], way: &OneWay) -> usize
    ensures { result ≡ prefix_len (λ other. not (merging.can_join_ways (way_of other) (way_of way.now))) ways.now }
{
    ways.iter()
        .take_while(|other| !can_join_ways(other, way))
        .count()
}

/// With one way more.
pub(crate) fn with_way(
    alloc: Global,
    mut ways: Vec<OneWay>,
    way: OneWay,
) -> Result<Vec<OneWay>, NoMemory>
    ensures { IfOk result (λ more. residual_of more.items ≡ merging.with_way (residual_of ways.items) (way_of way)) }
{
    let apart = count_apart(ways.as_slice(), &way);
    if apart < ways.len() {
        ways[apart] = joined_way(alloc, &ways[apart], &way)?;
        Ok(ways)
    } else {
        ways.push(way)?;
        Ok(ways)
    }
}

/// With others.
pub(crate) fn with_ways(
    alloc: Global,
    ways: Vec<OneWay>,
    others: Vec<OneWay>,
) -> Result<Vec<OneWay>, NoMemory>
    ensures { IfOk result (λ more. residual_of more.items ≡ merging.with_ways (residual_of ways.items) (residual_of others.items)) }
{
    let mut all = ways;
    for way in others {
        all = with_way(alloc, all, way)?;
    }
    Ok(all)
}
