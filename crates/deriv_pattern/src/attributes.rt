//! What is left of a pattern behind an attribute, and where no attribute comes any more.

ghost use Rattle.std.specs.Prelude.{◌≡◌, ◌&&◌, IfOk, if◌then◌else◌};
ghost use Rattle.rng_core.specs.Meaning.{class_of, pattern_of};
ghost use Rattle.rng_core.specs.Names.{has_attribute_name};
ghost use Rattle.rng_core.specs.Patterns.{Pattern, empty, not_allowed};
ghost use Rattle.rng_kept.specs.Attributes as s;
ghost use Rattle.deriv_pattern.specs.Leaves.{IsInOrder};
ghost use Rattle.deriv_pattern.specs.Choosing.{fits_of};

use crate::boxes::{Made, boxed_copy, boxed_empty, boxed_end, boxed_not_allowed, unboxed};
use crate::leaves::is_blank;
use crate::parts::one_of_interleave;
use crate::small::{
    before, behind, either, in_order, is_empty, nullable, repeated, shuffled, starred,
};
use crate::strings::{behind_string, is_passed};
use nx_base::memory::NoMemory;
use nx_base::name::Name;
use rng_core::grammar::Pat;
use rng_core::name_class::NameClass;
use std::alloc::Global;

/// Whether a value matches as one string, or, where it is blank, as nothing.
fn value_fits(alloc: Global, value: &str, p: &Pat) -> Result<bool, NoMemory>
    requires { IsInOrder (pattern_of p.now) }
    ensures { IfOk result (λ found. found ≡ s.value_fits value.now (pattern_of p.now)) }
{
    let passed = is_passed(behind_string(alloc, false, value, p))?;
    Ok(passed || (is_blank(value.as_bytes()) && nullable(p)))
}

/// Whether the value matches, or any does.
fn fits(alloc: Global, any: bool, value: &str, p: &Pat) -> Result<bool, NoMemory>
    requires { IsInOrder (pattern_of p.now) }
    ensures { IfOk result (λ found. found ≡ fits_of any value.now (pattern_of p.now)) }
{
    if any {
        Ok(true)
    } else {
        value_fits(alloc, value, p)
    }
}

/// What is left of an attribute of a class behind one of a name and a value.
fn of_attribute(
    alloc: Global,
    any: bool,
    value: &str,
    name: &Name,
    class: &NameClass,
    p: &Pat,
) -> Result<Box<Pat>, NoMemory>
    requires { IsInOrder (pattern_of p.now) }
    ensures { IfOk result (λ left. pattern_of left.value ≡
        (if has_attribute_name (class_of class.now) name.now && fits_of any value.now (pattern_of p.now) then empty else not_allowed)) }
{
    if !class.has_attribute(name) {
        return boxed_not_allowed(alloc);
    }
    boxed_end(alloc, fits(alloc, any, value, p))
}

/// What is left of a repetition behind an attribute, which may stand in any of its parts.
fn around(alloc: Global, rest: Made, p: &Pat) -> Result<Box<Pat>, NoMemory>
    ensures { (x : Pattern) → IfOk rest (λ made. pattern_of made.value ≡ x)
        → IfOk result (λ left. pattern_of left.value ≡ s.around x (pattern_of p.now)) }
{
    let rest = rest?;
    if is_empty(&rest) {
        drop(rest);
        return starred(alloc, p);
    }
    let rest = in_order(alloc, Ok(rest), starred(alloc, p));
    in_order(alloc, starred(alloc, p), rest)
}

/// Behind an attribute of the name, with this value or with any.
fn behind_attribute(
    alloc: Global,
    any: bool,
    value: &str,
    name: &Name,
    p: &Pat,
) -> Result<Box<Pat>, NoMemory>
    requires { IsInOrder (pattern_of p.now) }
    ensures { IfOk result (λ left. pattern_of left.value ≡ s.attribute_by (fits_of any value.now) name.now (pattern_of p.now)) }
{
    match p {
        Pat::NotAllowed
        | Pat::Empty
        | Pat::Text
        | Pat::Typed(_, _)
        | Pat::Value(_, _)
        | Pat::List(_)
        | Pat::Ref(_) => boxed_not_allowed(alloc),
        Pat::Attribute(class, body) => of_attribute(alloc, any, value, name, class, body),
        Pat::OneOrMore(body) => {
            let left = behind_attribute(alloc, any, value, name, body);
            around(alloc, left, body)
        }
        Pat::Choice(a, b) => {
            let left = behind_attribute(alloc, any, value, name, a);
            let second = behind_attribute(alloc, any, value, name, b);
            either(alloc, left, second)
        }
        Pat::Group(a, b) => {
            let left = behind_attribute(alloc, any, value, name, a);
            let second = behind_attribute(alloc, any, value, name, b);
            either(alloc, before(alloc, left, b), behind(alloc, a, second))
        }
        Pat::Interleave(a, b) => {
            let left = behind_attribute(alloc, any, value, name, a);
            let second = behind_attribute(alloc, any, value, name, b);
            one_of_interleave(alloc, left, a, b, second)
        }
    }
}

/// Behind an attribute.
pub fn after_attribute(alloc: Global, p: &Pat, name: &Name, value: &str) -> Result<Pat, NoMemory>
    requires { IsInOrder (pattern_of p.now) }
    ensures { IfOk result (λ left. pattern_of left ≡ s.after_attribute name.now value.now (pattern_of p.now)) }
{
    unboxed(behind_attribute(alloc, false, value, name, p))
}

/// Behind an attribute of the name, whatever its value.
pub fn after_any_attribute(alloc: Global, p: &Pat, name: &Name) -> Result<Pat, NoMemory>
    requires { IsInOrder (pattern_of p.now) }
    ensures { IfOk result (λ left. pattern_of left ≡ s.after_any_attribute name.now (pattern_of p.now)) }
{
    unboxed(behind_attribute(alloc, true, "", name, p))
}

/// Where no attribute comes any more, in a box.
fn closed(alloc: Global, p: &Pat) -> Result<Box<Pat>, NoMemory>
    ensures { IfOk result (λ left. pattern_of left.value ≡ s.close (pattern_of p.now)) }
{
    match p {
        Pat::NotAllowed
        | Pat::Empty
        | Pat::Text
        | Pat::Typed(_, _)
        | Pat::Value(_, _)
        | Pat::List(_)
        | Pat::Ref(_) => boxed_copy(alloc, p),
        Pat::Attribute(_, _) => boxed_not_allowed(alloc),
        Pat::OneOrMore(body) => repeated(alloc, closed(alloc, body)),
        Pat::Choice(a, b) => {
            let left = closed(alloc, a);
            either(alloc, left, closed(alloc, b))
        }
        Pat::Group(a, b) => {
            let left = closed(alloc, a);
            in_order(alloc, left, closed(alloc, b))
        }
        Pat::Interleave(a, b) => {
            let left = closed(alloc, a);
            shuffled(alloc, left, closed(alloc, b))
        }
    }
}

/// Where no attribute comes any more: what asks for one is left out.
pub fn close(alloc: Global, p: &Pat) -> Result<Pat, NoMemory>
    ensures { IfOk result (λ left. pattern_of left ≡ s.close (pattern_of p.now)) }
{
    unboxed(closed(alloc, p))
}

/// Where attributes that don't come are passed over, in a box.
fn dropped(alloc: Global, p: &Pat) -> Result<Box<Pat>, NoMemory>
    ensures { IfOk result (λ left. pattern_of left.value ≡ s.drop (pattern_of p.now)) }
{
    match p {
        Pat::NotAllowed
        | Pat::Empty
        | Pat::Text
        | Pat::Typed(_, _)
        | Pat::Value(_, _)
        | Pat::List(_)
        | Pat::Ref(_) => boxed_copy(alloc, p),
        Pat::Attribute(_, _) => boxed_empty(alloc),
        Pat::OneOrMore(body) => repeated(alloc, dropped(alloc, body)),
        Pat::Choice(a, b) => {
            let left = dropped(alloc, a);
            either(alloc, left, dropped(alloc, b))
        }
        Pat::Group(a, b) => {
            let left = dropped(alloc, a);
            in_order(alloc, left, dropped(alloc, b))
        }
        Pat::Interleave(a, b) => {
            let left = dropped(alloc, a);
            shuffled(alloc, left, dropped(alloc, b))
        }
    }
}

/// Where attributes that don't come are passed over.
pub fn drop_attributes(alloc: Global, p: &Pat) -> Result<Pat, NoMemory>
    ensures { IfOk result (λ left. pattern_of left ≡ s.drop (pattern_of p.now)) }
{
    unboxed(dropped(alloc, p))
}
