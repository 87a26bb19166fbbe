//! The states of a matcher: ways to go on.

ghost use Rattle.std.specs.Prelude.{◌≡◌, IfOk, [], ◌∷◌};
ghost use Rattle.rng_kept.specs.Merging.{answered};
ghost use Rattle.deriv_plain.specs.Ways.{way_of, residual_of};
ghost use Rattle.rng_live.specs.Calls.{Answers};
ghost use Rattle.deriv_plain.specs.Order.{IsState};
ghost use Rattle.deriv_plain.specs.Sameness.{same_way, same_residual};

use crate::around::Around;
use deriv_pattern::small::same_pattern;
use nx_base::memory::NoMemory;
use nx_base::sequence::Sequence;
use rng_core::grammar::Pat;
use std::alloc::Global;
use std::rc::Rc;

/// One way to go on.
#[derive(Drop)]
pub enum OneWay {
    /// Among the children of what is open.
    Among(Rc<Around>),
    /// In a start tag: what is left of the element's content, and around the element.
    InTag(Pat, Rc<Around>),
}

/// The ways in which the events may go on.
pub type Ways = Sequence<OneWay>;

impl OneWay {
    /// Whether both stand for the same.
    fn same(&self, other: &OneWay) -> bool
        ensures { result ≡ same_way (way_of self.now) (way_of other.now) }
    {
        match (self, other) {
            (OneWay::Among(here), OneWay::Among(other_here)) => here.same(other_here),
            (OneWay::Among(_), OneWay::InTag(_, _)) => false,
            (OneWay::InTag(_, _), OneWay::Among(_)) => false,
            (OneWay::InTag(content, outer), OneWay::InTag(other_content, other_outer)) => {
                same_pattern(content, other_content) && outer.same(other_outer)
            }
        }
    }

    /// The same way once more; what lies around is shared.
    pub(crate) fn copy(&self, alloc: Global) -> Result<OneWay, NoMemory>
        ensures { IfOk result (λ copied. way_of copied ≡ way_of self.now) }
    {
        match self {
            OneWay::Among(here) => Ok(OneWay::Among(here.clone()?)),
            OneWay::InTag(content, outer) => {
                Ok(OneWay::InTag(content.copy(alloc)?, outer.clone()?))
            }
        }
    }
}

/// Whether the ways are the same, one by one.
pub(crate) fn same_ways(a: &[OneWay], b: &[OneWay]) -> bool
    ensures { result ≡ same_residual (residual_of a.now) (residual_of b.now) }
{
    let mut left = a;
    let mut right = b;
    loop {
        match (left.split_first(), right.split_first()) {
            (None, None) => return true,
            (None, Some(_)) => return false,
            (Some(_), None) => return false,
            (Some((way, rest)), Some((other, others))) => {
                if !way.same(other) {
                    return false;
                }
                left = rest;
                right = others;
            }
        }
    }
}

/// The same ways once more.
pub(crate) fn copied_ways(alloc: Global, ways: &[OneWay]) -> Result<Vec<OneWay>, NoMemory>
    ensures { IfOk result (λ copied. residual_of copied.items ≡ residual_of ways.now) }
{
    let mut copied = Vec::with_capacity(alloc, ways.len())?;
    let mut left = ways;
    while let Some((way, rest)) = left.split_first() {
        copied.push(way.copy(alloc)?)?;
        left = rest;
    }
    Ok(copied)
}

/// None.
pub(crate) fn no_way(alloc: Global) -> Vec<OneWay>
    ensures { residual_of result.items ≡ [] }
{
    Vec::new(alloc)
}

/// One alone.
pub(crate) fn just_one(alloc: Global, way: OneWay) -> Result<Vec<OneWay>, NoMemory>
    ensures { IfOk result (λ ways. residual_of ways.items ≡ way_of way ∷ []) }
{
    let mut ways = Vec::with_capacity(alloc, 1)?;
    ways.push(way)?;
    Ok(ways)
}

/// The ways as an answer: none where there is no way to go on.
pub(crate) fn as_answer(ways: Ways) -> Option<Ways>
    requires { IsState ways }
    ensures { Answers IsState residual_of (answered (residual_of ways)) result }
{
    if ways.is_empty() { None } else { Some(ways) }
}
