//! Ways to go on behind an attribute, and behind the end of a start tag.

ghost use Rattle.std.specs.Prelude.{◌≡◌, IfOk};
ghost use Rattle.rng_core.specs.Meaning.{pattern_of};
ghost use Rattle.rng_kept.specs.Tags as tags;
ghost use Rattle.deriv_plain.specs.Order.{WayIsInOrder};
ghost use Rattle.deriv_plain.specs.Ways.{outer_of, way_of, residual_of};
ghost use Rattle.deriv_pattern.specs.Leaves.{IsInOrder};

use crate::around::Around;
use crate::content::among_of;
use crate::ways::{OneWay, just_one, no_way};
use deriv_pattern::attributes::{after_any_attribute, after_attribute, close, drop_attributes};
use deriv_pattern::law::left_is_in_order;
use deriv_pattern::small::{is_not_allowed, nullable};
use deriv_pattern::solid::loosen;
use deriv_pattern::strings::after;
use nx_base::memory::NoMemory;
use nx_base::name::Name;
use rng_core::grammar::Pat;
use std::alloc::Global;
use std::rc::Rc;

/// A way in a start tag, unless nothing is taken.
fn tag_of(alloc: Global, content: Pat, outer: &Rc<Around>) -> Result<Vec<OneWay>, NoMemory>
    ensures { IfOk result (λ ways. residual_of ways.items ≡ tags.tag_of (pattern_of content) (outer_of outer.now.value)) }
{
    if is_not_allowed(&content) {
        Ok(no_way(alloc))
    } else {
        just_one(alloc, OneWay::InTag(content, outer.clone()?))
    }
}

/// Behind an attribute.
pub(crate) fn attribute_way(
    alloc: Global,
    way: &OneWay,
    name: &Name,
    value: &str,
) -> Result<Vec<OneWay>, NoMemory>
    requires { WayIsInOrder (way_of way.now) }
    ensures { IfOk result (λ ways. residual_of ways.items ≡ tags.attribute_way name.now value.now (way_of way.now)) }
{
    match way {
        OneWay::Among(_) => Ok(no_way(alloc)),
        OneWay::InTag(content, outer) => {
            tag_of(alloc, after_attribute(alloc, content, name, value)?, outer)
        }
    }
}

/// Behind an attribute of the name, whatever its value.
pub(crate) fn any_value_way(
    alloc: Global,
    way: &OneWay,
    name: &Name,
) -> Result<Vec<OneWay>, NoMemory>
    requires { WayIsInOrder (way_of way.now) }
    ensures { IfOk result (λ ways. residual_of ways.items ≡ tags.any_value_way name.now (way_of way.now)) }
{
    match way {
        OneWay::Among(_) => Ok(no_way(alloc)),
        OneWay::InTag(content, outer) => {
            tag_of(alloc, after_any_attribute(alloc, content, name)?, outer)
        }
    }
}

/// Among the children of an element of this content, of which no attribute comes any more.
fn children_of(alloc: Global, content: &Pat, outer: &Rc<Around>) -> Result<Rc<Around>, NoMemory>
    requires { IsInOrder (pattern_of content.now) }
    ensures { IfOk result (λ made. outer_of made.value ≡ tags.children_of (pattern_of content.now) (outer_of outer.now.value)) }
{
    left_is_in_order();
    let strict = close(alloc, content)?;
    let loose = loosen(alloc, &strict)?;
    let void = nullable(&after(alloc, &strict, "")?);
    Around::inside(alloc, strict, loose, void, outer)
}

/// Behind the end of a start tag.
pub(crate) fn tag_end_way(alloc: Global, way: &OneWay) -> Result<Vec<OneWay>, NoMemory>
    requires { WayIsInOrder (way_of way.now) }
    ensures { IfOk result (λ ways. residual_of ways.items ≡ tags.tag_end_way (way_of way.now)) }
{
    match way {
        OneWay::Among(_) => Ok(no_way(alloc)),
        OneWay::InTag(content, outer) => among_of(alloc, children_of(alloc, content, outer)?),
    }
}

/// Behind attributes that are missing and the end of a start tag.
pub(crate) fn missing_way(alloc: Global, way: &OneWay) -> Result<Vec<OneWay>, NoMemory>
    requires { WayIsInOrder (way_of way.now) }
    ensures { IfOk result (λ ways. residual_of ways.items ≡ tags.missing_way (way_of way.now)) }
{
    match way {
        OneWay::Among(_) => Ok(no_way(alloc)),
        OneWay::InTag(content, outer) => {
            left_is_in_order();
            let content = drop_attributes(alloc, content)?;
            among_of(alloc, children_of(alloc, &content, outer)?)
        }
    }
}
