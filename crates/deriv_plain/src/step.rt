//! One step of all ways to go on.

ghost use Rattle.std.specs.Prelude.{◌≡◌, IfOk, IsUtf8, []};
ghost use Rattle.rng_kept.specs.Merging as merging;
ghost use Rattle.deriv_plain.specs.Order.{AreInOrder, WayIsInOrder};
ghost use Rattle.deriv_pattern.specs.Steps.{way_step};
ghost use Rattle.deriv_plain.specs.Ways.{way_of, residual_of};

use crate::content::{any_string_way, chars_way, leave_skip_way, leave_way};
use crate::entering::{enter_way, skip_way};
use crate::merging::with_ways;
use crate::tags::{any_value_way, attribute_way, missing_way, tag_end_way};
use crate::ways::{OneWay, no_way};
use deriv_pattern::step::Step;
use nx_base::memory::NoMemory;
use std::alloc::Global;

/// The ways to go on behind it from one way.
fn ways_from(alloc: Global, step: &Step, way: &OneWay) -> Result<Vec<OneWay>, NoMemory>
    requires { WayIsInOrder (way_of way.now) }
    ensures { IfOk result (λ ways. residual_of ways.items ≡ way_step step.now (way_of way.now)) }
{
    match step {
        Step::Enter(defs, name) => enter_way(alloc, way, defs, name),
        Step::EnterSkip(defs, name) => skip_way(alloc, way, defs, name),
        Step::Attribute(name, value) => attribute_way(alloc, way, name, value),
        Step::AttributeAny(name) => any_value_way(alloc, way, name),
        Step::TagEnd => tag_end_way(alloc, way),
        Step::TagEndMissing => missing_way(alloc, way),
        Step::Chars(text) => chars_way(alloc, way, text),
        Step::CharsAny => any_string_way(alloc, way),
        Step::Leave => leave_way(alloc, way),
        Step::LeaveSkip => leave_skip_way(alloc, way),
    }
}

/// The ways to go on behind a step, merged.
pub(crate) fn stepped(alloc: Global, step: &Step, ways: &[OneWay]) -> Result<Vec<OneWay>, NoMemory>
    requires { AreInOrder (residual_of ways.now) }
    ensures { IfOk result (λ made. residual_of made.items ≡ merging.stepped (way_step step.now) [] (residual_of ways.now)) }
{
    let mut done = no_way(alloc);
    let mut left = ways;
    while let Some((way, rest)) = left.split_first() {
        let more = ways_from(alloc, step, way)?;
        done = with_ways(alloc, done, more)?;
        left = rest;
    }
    Ok(done)
}
