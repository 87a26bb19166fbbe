//! Ways to go on behind a string, and behind an element's end.

ghost use Rattle.std.specs.Prelude.{◌≡◌, IfOk};
ghost use Rattle.rng_core.specs.Meaning.{pattern_of};
ghost use Rattle.rng_kept.specs.Content as content;
ghost use Rattle.deriv_plain.specs.Order.{OuterIsInOrder, WayIsInOrder};
ghost use Rattle.deriv_plain.specs.Ways.{outer_of, way_of, residual_of};
ghost use Rattle.deriv_pattern.specs.Leaves.{IsInOrder};

use crate::around::Around;
use crate::merging::with_ways;
use crate::ways::{OneWay, just_one, no_way};
use deriv_pattern::leaves::is_blank;
use deriv_pattern::small::{is_not_allowed, nullable};
use deriv_pattern::solid::after_solid;
use deriv_pattern::strings::after;
use nx_base::memory::NoMemory;
use rng_core::grammar::Pat;
use std::alloc::Global;
use std::rc::Rc;

/// Whether nothing is taken.
fn is_dead(around: &Around) -> bool
    ensures { result ≡ content.is_dead_outer (outer_of around.now) }
{
    match around {
        Around::Document(rest) => is_not_allowed(rest),
        Around::Inside {
            strict,
            loose,
            void,
            ..
        } => is_not_allowed(strict) && is_not_allowed(loose) && !*void,
        Around::OneOf(this, other) => is_dead(this) && is_dead(other),
    }
}

/// One way to go on among children, unless nothing is taken.
pub(crate) fn among_of(alloc: Global, around: Rc<Around>) -> Result<Vec<OneWay>, NoMemory>
    ensures { IfOk result (λ ways. residual_of ways.items ≡ content.among_of (outer_of around.value)) }
{
    if is_dead(&around) {
        Ok(no_way(alloc))
    } else {
        just_one(alloc, OneWay::Among(around))
    }
}

/// What is left of children without blank strings behind a string.
fn loose_after(alloc: Global, loose: &Pat, text: &str) -> Result<Pat, NoMemory>
    requires { IsInOrder (pattern_of loose.now) }
    ensures { IfOk result (λ left. pattern_of left ≡ content.loose_after text.now (pattern_of loose.now)) }
{
    if is_blank(text.as_bytes()) {
        loose.copy(alloc)
    } else {
        after(alloc, loose, text)
    }
}

/// Behind a string among children.
fn chars_around(alloc: Global, around: &Around, text: &str) -> Result<Vec<OneWay>, NoMemory>
    requires { OuterIsInOrder (outer_of around.now) }
    ensures { IfOk result (λ ways. residual_of ways.items ≡ content.chars_outer text.now (outer_of around.now)) }
{
    match around {
        Around::Document(rest) => {
            let left = after(alloc, rest, text)?;
            among_of(alloc, Around::document(alloc, left)?)
        }
        Around::Inside {
            strict,
            loose,
            outer,
            ..
        } => {
            let strict = after(alloc, strict, text)?;
            let loose = loose_after(alloc, loose, text)?;
            among_of(alloc, Around::inside(alloc, strict, loose, false, outer)?)
        }
        Around::OneOf(this, other) => {
            let first = chars_around(alloc, this, text)?;
            let second = chars_around(alloc, other, text)?;
            with_ways(alloc, first, second)
        }
    }
}

/// Behind some string that isn't blank, among children.
fn any_string_around(alloc: Global, around: &Around) -> Result<Vec<OneWay>, NoMemory>
    requires { OuterIsInOrder (outer_of around.now) }
    ensures { IfOk result (λ ways. residual_of ways.items ≡ content.any_string_outer (outer_of around.now)) }
{
    match around {
        Around::Document(rest) => {
            let left = after_solid(alloc, rest)?;
            among_of(alloc, Around::document(alloc, left)?)
        }
        Around::Inside {
            strict,
            loose,
            outer,
            ..
        } => {
            let strict = after_solid(alloc, strict)?;
            let loose = after_solid(alloc, loose)?;
            among_of(alloc, Around::inside(alloc, strict, loose, false, outer)?)
        }
        Around::OneOf(this, other) => {
            let first = any_string_around(alloc, this)?;
            let second = any_string_around(alloc, other)?;
            with_ways(alloc, first, second)
        }
    }
}

/// Behind a string.
pub(crate) fn chars_way(alloc: Global, way: &OneWay, text: &str) -> Result<Vec<OneWay>, NoMemory>
    requires { WayIsInOrder (way_of way.now) }
    ensures { IfOk result (λ ways. residual_of ways.items ≡ content.chars_way text.now (way_of way.now)) }
{
    match way {
        OneWay::Among(here) => chars_around(alloc, here, text),
        OneWay::InTag(_, _) => Ok(no_way(alloc)),
    }
}

/// Behind some string that isn't blank.
pub(crate) fn any_string_way(alloc: Global, way: &OneWay) -> Result<Vec<OneWay>, NoMemory>
    requires { WayIsInOrder (way_of way.now) }
    ensures { IfOk result (λ ways. residual_of ways.items ≡ content.any_string_way (way_of way.now)) }
{
    match way {
        OneWay::Among(here) => any_string_around(alloc, here),
        OneWay::InTag(_, _) => Ok(no_way(alloc)),
    }
}

/// Each way to go on among what is left around.
fn ways_of(alloc: Global, here: &Rc<Around>) -> Result<Vec<OneWay>, NoMemory>
    ensures { IfOk result (λ ways. residual_of ways.items ≡ content.ways_of (outer_of here.now.value)) }
{
    match here.as_ref() {
        Around::Document(_) => just_one(alloc, OneWay::Among(here.clone()?)),
        Around::Inside { .. } => just_one(alloc, OneWay::Among(here.clone()?)),
        Around::OneOf(this, other) => {
            let first = ways_of(alloc, this)?;
            let second = ways_of(alloc, other)?;
            with_ways(alloc, first, second)
        }
    }
}

/// Whether an element may end: its children as they stand, without blank strings, or none at all.
fn may_leave(strict: &Pat, loose: &Pat, void: bool) -> bool
    ensures { result ≡ content.may_leave (pattern_of strict.now) (pattern_of loose.now) void }
{
    nullable(strict) || nullable(loose) || void
}

/// Outside of an element that ends.
fn ways_outside(alloc: Global, here: &Around) -> Result<Vec<OneWay>, NoMemory>
    ensures { IfOk result (λ ways. residual_of ways.items ≡ content.leave_outer (outer_of here.now)) }
{
    match here {
        Around::Document(_) => Ok(no_way(alloc)),
        Around::Inside {
            strict,
            loose,
            void,
            outer,
        } => {
            if may_leave(strict, loose, *void) {
                ways_of(alloc, outer)
            } else {
                Ok(no_way(alloc))
            }
        }
        Around::OneOf(this, other) => {
            let first = ways_outside(alloc, this)?;
            let second = ways_outside(alloc, other)?;
            with_ways(alloc, first, second)
        }
    }
}

/// Behind an element's end.
pub(crate) fn leave_way(alloc: Global, way: &OneWay) -> Result<Vec<OneWay>, NoMemory>
    ensures { IfOk result (λ ways. residual_of ways.items ≡ content.leave_way (way_of way.now)) }
{
    match way {
        OneWay::Among(here) => ways_outside(alloc, here),
        OneWay::InTag(_, _) => Ok(no_way(alloc)),
    }
}

/// Outside of an element whose further children are left out.
fn ways_further_out(alloc: Global, here: &Around) -> Result<Vec<OneWay>, NoMemory>
    ensures { IfOk result (λ ways. residual_of ways.items ≡ content.leave_skip_outer (outer_of here.now)) }
{
    match here {
        Around::Document(_) => Ok(no_way(alloc)),
        Around::Inside { outer, .. } => ways_of(alloc, outer),
        Around::OneOf(this, other) => {
            let first = ways_further_out(alloc, this)?;
            let second = ways_further_out(alloc, other)?;
            with_ways(alloc, first, second)
        }
    }
}

/// Behind children that are left out and an element's end.
pub(crate) fn leave_skip_way(alloc: Global, way: &OneWay) -> Result<Vec<OneWay>, NoMemory>
    ensures { IfOk result (λ ways. residual_of ways.items ≡ content.leave_skip_way (way_of way.now)) }
{
    match way {
        OneWay::Among(here) => ways_further_out(alloc, here),
        OneWay::InTag(_, _) => Ok(no_way(alloc)),
    }
}
