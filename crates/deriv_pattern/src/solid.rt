//! Strings that aren't blank: what is left behind one, whichever it is, and a pattern without the leaves that take none.

ghost use Rattle.std.specs.Prelude.{◌≡◌, Bool, IfOk, if◌then◌else◌};
ghost use Rattle.rng_core.specs.Meaning.{pattern_of};
ghost use Rattle.rng_core.specs.Patterns.{not_allowed};
ghost use Rattle.rng_kept.specs.SolidStrings as s;
ghost use Rattle.deriv_pattern.specs.Leaves.{IsInOrder};

use crate::boxes::{boxed_copy, boxed_not_allowed, unboxed};
use crate::leaves::{has_solid, has_words, is_solid};
use crate::small::{either, in_order, repeated, shuffled};
use crate::strings::behind_string;
use nx_base::memory::NoMemory;
use rng_core::grammar::Pat;
use std::alloc::Global;

/// Behind some string that isn't blank.
pub fn after_solid(alloc: Global, p: &Pat) -> Result<Pat, NoMemory>
    requires { IsInOrder (pattern_of p.now) }
    ensures { IfOk result (λ left. pattern_of left ≡ s.after_solid (pattern_of p.now)) }
{
    unboxed(behind_string(alloc, true, "", p))
}

/// A pattern where it is to stay, and else the one that nothing matches, in a box.
fn boxed_where(alloc: Global, stays: Result<bool, NoMemory>, p: &Pat) -> Result<Box<Pat>, NoMemory>
    ensures { (x : Bool) → IfOk stays (λ it. it ≡ x)
        → IfOk result (λ left. pattern_of left.value ≡ (if x then pattern_of p.now else not_allowed)) }
{
    if stays? {
        boxed_copy(alloc, p)
    } else {
        boxed_not_allowed(alloc)
    }
}

/// Without the leaves that take no strings but blank ones, in a box.
fn loosened(alloc: Global, p: &Pat) -> Result<Box<Pat>, NoMemory>
    requires { IsInOrder (pattern_of p.now) }
    ensures { IfOk result (λ left. pattern_of left.value ≡ s.loosen (pattern_of p.now)) }
{
    match p {
        Pat::NotAllowed | Pat::Empty | Pat::Text | Pat::Attribute(_, _) | Pat::Ref(_) => boxed_copy(
            alloc, p,
        ),
        Pat::Typed(datatype, excepts) => {
            boxed_where(alloc, has_solid(alloc, datatype, excepts), p)
        }
        Pat::Value(datatype, wanted) => boxed_where(alloc, Ok(is_solid(datatype, wanted)), p),
        Pat::List(body) => boxed_where(alloc, has_words(alloc, body), p),
        Pat::OneOrMore(body) => repeated(alloc, loosened(alloc, body)),
        Pat::Choice(a, b) => {
            let left = loosened(alloc, a);
            either(alloc, left, loosened(alloc, b))
        }
        Pat::Group(a, b) => {
            let left = loosened(alloc, a);
            in_order(alloc, left, loosened(alloc, b))
        }
        Pat::Interleave(a, b) => {
            let left = loosened(alloc, a);
            shuffled(alloc, left, loosened(alloc, b))
        }
    }
}

/// Without the leaves that take no strings but blank ones.
pub fn loosen(alloc: Global, p: &Pat) -> Result<Pat, NoMemory>
    requires { IsInOrder (pattern_of p.now) }
    ensures { IfOk result (λ left. pattern_of left ≡ s.loosen (pattern_of p.now)) }
{
    unboxed(loosened(alloc, p))
}
