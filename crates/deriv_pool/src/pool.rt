//! The matcher.

ghost use Rattle.std.specs.Prelude.{◌≡◌, IfOk, true};
ghost use Rattle.deriv_pool.specs.Kept.{AreKept};
ghost use Rattle.deriv_pool.specs.Remembering.{AreAnswers, KeepsNoted};
ghost use Rattle.rng_core.specs.Soundness.{IsSound};
ghost use Rattle.rng_kept.specs.Live.{IsLive};
ghost use Rattle.rng_live.specs.Schemas.{schema_language};
ghost use Rattle.deriv_nodes.specs.Numbers.{IsAt};
ghost use Rattle.deriv_states.specs.Places.{AreContents, LaterPlaces};

use crate::kept_names::KeptNames;
use crate::needed::needed_names;
use crate::recalling::{
    entered, left, read_attribute, read_chars, recalled_attribute, recalled_chars, recalled_enter,
    recalled_leave, recalled_tag_end, tag_ended,
};
use crate::required::required_names;
use crate::state::{PoolState, answer, begun, begun_known, given};
use deriv_memory::memory::Memory;
use deriv_pattern::law::sound_are_in_order;
use deriv_pattern::step::Step;
use deriv_states::states::States;
use nx_base::memory::NoMemory;
use nx_base::name::{Name, Names};
use rng_live::matcher::Matcher;
use rng_live::schema::Schema;
use rng_live::shared_names::SharedNames;
use std::alloc::Global;

/// A matcher whose states are numbers.
#[derive(Drop)]
pub struct Pool {
    schema: Schema,
    pub(crate) states: States,
    memory: Memory,
    kept: KeptNames,
    ghost live: { ∥ IsLive (schema_language schema) ∥₁ },
    ghost sound: { ∥ IsSound schema.grammar ∥₁ },
    ghost fits: { ∥ AreContents states (schema_language schema).definitions ∥₁ },
    ghost right: { ∥ AreAnswers (schema_language schema).definitions states memory ∥₁ },
    ghost names: { ∥ AreKept (schema_language schema).definitions states.patterns kept.entries.items ∥₁ },
}

impl Pool {
    /// The matcher of a schema. It has the nodes of the contents of definitions, and no state yet.
    pub fn new(alloc: Global, schema: Schema) -> Result<Pool, NoMemory>
        requires live { IsLive (schema_language schema) }
        requires sound { IsSound schema.grammar }
        ensures { IfOk result (λ made. made.schema ≡ schema) }
    {
        sound_are_in_order();
        let states = States::new(alloc, schema.grammar().defs.as_slice())?;
        let memory = Memory::new(alloc);
        Ok(Pool {
            schema,
            states,
            memory,
            kept: KeptNames::new(alloc),
        })
    }

    /// The node of the schema's start.
    fn start(&mut self, alloc: Global) -> Result<usize, NoMemory>
        ensures schema { self.new.schema ≡ self.old.schema }
        ensures later { LaterPlaces self.old.states self.new.states }
        ensures memory { self.new.memory ≡ self.old.memory }
        ensures kept { self.new.kept ≡ self.old.kept }
        ensures made { IfOk result (IsAt self.new.states.patterns (schema_language self.old.schema).start) }
    {
        sound_are_in_order();
        self.states.imported(alloc, &self.schema.grammar().start)
    }
}

impl Matcher for Pool {
    type State = PoolState;

    ghost use Rattle.deriv_pool.specs.Laws.{pool_laws, pool_memory};
    ghost use Rattle.deriv_pool.specs.Later.{IsLater, IsStateOf, language_in, meaning_of, remembers_in};

    ghost later = { IsLater };

    ghost is_state = { IsStateOf };

    ghost means = { meaning_of };

    ghost language = { language_in };

    ghost remembers = { remembers_in };

    ghost remembers_answers = { true };

    ghost laws = { pool_laws };

    ghost memory = { pool_memory };

    ghost live = { λ m. m.live };

    fn begin(&mut self, alloc: Global) -> Result<PoolState, NoMemory> {
        let start = self.start(alloc)?;
        begun(&mut self.states, start)
    }

    fn begin_known(&mut self, alloc: Global, name: &Name) -> Result<Option<PoolState>, NoMemory> {
        begun_known(
            &mut self.states,
            self.schema.grammar().defs.as_slice(),
            name,
        )
    }

    // Most tokens ask this, `tag_end` or `chars`, and what is noted is told in few steps.
    #[inline(always)]
    fn enter(
        &mut self,
        alloc: Global,
        s: &PoolState,
        name: &Name,
    ) -> Result<Option<PoolState>, NoMemory> {
        let defs = self.schema.grammar().defs.as_slice();
        match recalled_enter(&self.states, &self.memory, defs, *s, name) {
            Some(answer) => Ok(answer),
            None => entered(alloc, &mut self.states, &mut self.memory, defs, *s, name),
        }
    }

    fn enter_skip(
        &mut self,
        alloc: Global,
        s: &PoolState,
        name: &Name,
    ) -> Result<Option<PoolState>, NoMemory> {
        let step = Step::EnterSkip(self.schema.grammar().defs.as_slice(), name);
        answer(alloc, &mut self.states, &step, *s)
    }

    fn attribute(
        &mut self,
        alloc: Global,
        s: &PoolState,
        name: &Name,
        value: &[u8],
    ) -> Result<Option<PoolState>, NoMemory> {
        let defs = self.schema.grammar().defs.as_slice();
        match recalled_attribute(&self.states, &self.memory, defs, *s, name, value) {
            Some(answer) => Ok(answer),
            None => read_attribute(
                alloc,
                &mut self.states,
                &mut self.memory,
                defs,
                *s,
                name,
                value,
            ),
        }
    }

    fn attribute_any(
        &mut self,
        alloc: Global,
        s: &PoolState,
        name: &Name,
    ) -> Result<Option<PoolState>, NoMemory> {
        answer(alloc, &mut self.states, &Step::AttributeAny(name), *s)
    }

    #[inline(always)]
    fn tag_end(&mut self, alloc: Global, s: &PoolState) -> Result<Option<PoolState>, NoMemory> {
        let defs = self.schema.grammar().defs.as_slice();
        match recalled_tag_end(&self.states, &self.memory, defs, *s) {
            Some(answer) => Ok(answer),
            None => tag_ended(alloc, &mut self.states, &mut self.memory, defs, *s),
        }
    }

    fn tag_end_missing(&mut self, alloc: Global, s: &PoolState) -> Result<PoolState, NoMemory> {
        given(alloc, &mut self.states, &Step::TagEndMissing, *s)
    }

    fn required(&mut self, alloc: Global, s: &PoolState) -> Result<Names, NoMemory> {
        required_names(alloc, &self.states, s.number)
    }

    fn needed(
        &mut self,
        alloc: Global,
        s: &PoolState,
        name: Option<&Name>,
    ) -> Result<SharedNames, NoMemory> {
        let defs = self.schema.grammar().defs.as_slice();
        needed_names(alloc, &self.states, &mut self.kept, defs, name, s.number)
    }

    #[inline(always)]
    fn chars(
        &mut self,
        alloc: Global,
        s: &PoolState,
        text: &[u8],
    ) -> Result<Option<PoolState>, NoMemory> {
        let defs = self.schema.grammar().defs.as_slice();
        match recalled_chars(&self.states, &self.memory, defs, *s, text) {
            Some(answer) => Ok(answer),
            None => read_chars(alloc, &mut self.states, &mut self.memory, defs, *s, text),
        }
    }

    fn chars_any(&mut self, alloc: Global, s: &PoolState) -> Result<Option<PoolState>, NoMemory> {
        answer(alloc, &mut self.states, &Step::CharsAny, *s)
    }

    fn leave(&mut self, alloc: Global, s: &PoolState) -> Result<Option<PoolState>, NoMemory> {
        let defs = self.schema.grammar().defs.as_slice();
        match recalled_leave(&self.states, &self.memory, defs, *s) {
            Some(outside) => Ok(outside),
            None => left(alloc, &mut self.states, &mut self.memory, defs, *s),
        }
    }

    fn leave_skip(&mut self, alloc: Global, s: &PoolState) -> Result<PoolState, NoMemory> {
        given(alloc, &mut self.states, &Step::LeaveSkip, *s)
    }

    fn same(&self, a: &PoolState, b: &PoolState) -> bool {
        self.states.no_doubles();
        a.number == b.number
    }

    fn copy(&self, alloc: Global, s: &PoolState) -> Result<PoolState, NoMemory> {
        Ok(*s)
    }

    fn schema(&self) -> &Schema {
        &self.schema
    }
}
