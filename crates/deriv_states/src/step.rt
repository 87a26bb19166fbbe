//! One step of all ways to go on.

ghost use Rattle.std.specs.Prelude.{◌≡◌, ◌<◌, length, IfOk, []};
ghost use Rattle.rng_kept.specs.Merging as merging;
ghost use Rattle.deriv_states.specs.Places.{IsState, IsThere, LaterPlaces, state_in, way_in};
ghost use Rattle.deriv_pattern.specs.Steps.{way_step};
ghost use Rattle.deriv_states.specs.Steps.{HasContents};

use crate::branch::{Branch, Row};
use crate::states::States;
use deriv_pattern::step::Step;
use nx_base::memory::NoMemory;
use std::alloc::Global;

impl States {
    /// The ways to go on behind a step from one way.
    fn ways_from(&mut self, alloc: Global, step: &Step, way: Branch) -> Result<usize, NoMemory>
        requires way { IsThere self.old way }
        requires contents { HasContents self.old step.now }
        ensures later { LaterPlaces self.old self.new }
        ensures made { IfOk result (IsState self.new (way_step step.now (way_in self.old way))) }
    {
        match step {
            Step::Enter(defs, name) => self.enter_way(alloc, way, defs, name),
            Step::EnterSkip(defs, name) => self.skip_way(alloc, way, defs, name),
            Step::Attribute(name, value) => self.attribute_way(alloc, way, name, value),
            Step::AttributeAny(name) => self.any_value_way(alloc, way, name),
            Step::TagEnd => self.tag_end_way(alloc, way),
            Step::TagEndMissing => self.missing_way(alloc, way),
            Step::Chars(text) => self.chars_way(alloc, way, text),
            Step::CharsAny => self.any_string_way(alloc, way),
            Step::Leave => self.leave_way(way),
            Step::LeaveSkip => self.leave_skip_way(way),
        }
    }

    /// The state with what is behind a step from each way of another state.
    #[tactic(auto, using(crate::proofs::Carried::ways))]
    fn stepped_onto(
        &mut self,
        alloc: Global,
        step: &Step,
        done: usize,
        ways: usize,
    ) -> Result<usize, NoMemory>
        requires done { done < length self.old.states }
        requires ways { ways < length self.old.states }
        requires contents { HasContents self.old step.now }
        ensures later { LaterPlaces self.old self.new }
        ensures made { IfOk result (IsState self.new
            (merging.stepped (way_step step.now) (state_in self.old.states done) (state_in self.old.states ways))) }
    {
        match self.row(ways) {
            Row::End => Ok(done),
            Row::Way(one, more) => {
                let behind = self.ways_from(alloc, step, one)?;
                let both = self.with_ways(done, behind)?;
                self.stepped_onto(alloc, step, both, more)
            }
        }
    }

    /// The state behind a step.
    pub fn stepped(&mut self, alloc: Global, step: &Step, state: usize) -> Result<usize, NoMemory>
        requires state { state < length self.old.states }
        requires contents { HasContents self.old step.now }
        ensures later { LaterPlaces self.old self.new }
        ensures made { IfOk result (IsState self.new (merging.stepped (way_step step.now) [] (state_in self.old.states state))) }
    {
        let end = self.end()?;
        self.stepped_onto(alloc, step, end, state)
    }
}
