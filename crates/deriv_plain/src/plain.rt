//! The matcher.

ghost use Rattle.std.specs.Prelude.{◌≡◌, ◌<◌, ◌^◌, IfOk, IsUtf8, Bool, false, map, length, [], if◌then◌else◌, None, Some};
ghost use Rattle.rng_core.specs.Meaning.{pattern_of, definition_of};
ghost use Rattle.rng_core.specs.Soundness.{IsSound};
ghost use Rattle.rng_kept.specs.SmallPatterns as small;
ghost use Rattle.rng_kept.specs.Entering as entering;
ghost use Rattle.rng_kept.specs.Tags as tags;
ghost use Rattle.rng_kept.specs.Content as content;
ghost use Rattle.rng_kept.specs.Live.{IsLive};
ghost use Rattle.rng_kept.specs.Merging as merging;
ghost use Rattle.rng_kept.specs.Residuals.{Residual};
ghost use Rattle.rng_kept.specs.Standing.{first_residual, known_from};
ghost use Rattle.rng_live.specs.Calls as calls;
ghost use Rattle.rng_live.specs.Calls.{Gives, Answers};
ghost use Rattle.rng_live.specs.Schemas.{schema_language};
ghost use Rattle.deriv_pattern.specs.Leaves.{ContentsAreInOrder, IsInOrder};
ghost use Rattle.deriv_plain.specs.Known as one_by_one;
ghost use Rattle.deriv_plain.specs.Laws.{plain_laws, nothing_is_remembered};
ghost use Rattle.deriv_plain.specs.Order.{IsState, StepIsInOrder};
ghost use Rattle.deriv_pattern.specs.Steps.{way_step};
ghost use Rattle.deriv_plain.specs.Ways.{residual_of};

use crate::around::Around;
use crate::needed::needed_names;
use crate::required::required_names;
use crate::step::stepped;
use crate::ways::{OneWay, Ways, as_answer, copied_ways, just_one, same_ways};
use deriv_pattern::law::{left_is_in_order, sound_are_in_order};
use deriv_pattern::small::is_not_allowed;
use deriv_pattern::step::Step;
use nx_base::memory::NoMemory;
use nx_base::name::{Name, Names};
use nx_base::sequence::Sequence;
use rng_core::building::choice_of;
use rng_core::grammar::{Def, Pat};
use rng_live::matcher::Matcher;
use rng_live::schema::Schema;
use rng_live::shared_names::SharedNames;
use std::alloc::Global;

/// A matcher that follows events by derivatives of patterns.
///
/// A state is the list of ways in which the events may go on, and means that residual. Where it stands for the lists of events
/// that are kept behind some moves (the law `moves_stand` of rng_residual), the answer of each call stands for those that are
/// kept behind the same moves and the call's own:
///
/// - `enter`, `attribute`, `tag_end`, `chars` and `leave`: the lists that go on by this event;
/// - `enter_skip` and `leave_skip`: those that go on by children that are left out, and then by the event;
/// - `attribute_any` and `chars_any`: those that go on by an attribute of the name with some value, and by some string that
///   isn't blank;
/// - `tag_end_missing`: those that go on by the attributes that are missing, and then by the end of the tag.
///
/// An answer is none exactly where no list that is kept so can become valid. `begin` stands for no moves at all, and
/// `begin_known` for none in a frame that begins with one of the definitions that have the name.
///
/// What lies around an element is shared by all states behind its start, so a state takes the memory of its innermost
/// elements alone. Nothing is remembered: a matcher of one schema is as good as another.
#[derive(Drop)]
pub struct Plain {
    schema: Schema,
    ghost live: { ∥ IsLive (schema_language schema) ∥₁ },
    ghost sound: { ∥ IsSound schema.grammar ∥₁ },
}

/// Before what a pattern begins.
fn begun(alloc: Global, start: &Pat) -> Result<Ways, NoMemory>
    requires { IsInOrder (pattern_of start.now) }
    ensures { IfOk result (Gives IsState residual_of (first_residual (pattern_of start.now))) }
{
    let here = Around::document(alloc, start.copy(alloc)?)?;
    Ok(Sequence::from_vec(just_one(alloc, OneWay::Among(here))?))
}

/// Before what a pattern begins, where it can match at all.
fn begun_if_allowed(alloc: Global, start: &Pat) -> Result<Option<Ways>, NoMemory>
    requires { IsInOrder (pattern_of start.now) }
    ensures { IfOk result (Answers IsState residual_of
        (if small.is_not_allowed (pattern_of start.now) then None else Some (first_residual (pattern_of start.now)))) }
{
    if is_not_allowed(start) {
        Ok(None)
    } else {
        Ok(Some(begun(alloc, start)?))
    }
}

/// A choice with a reference that isn't there yet.
fn with_ref(alloc: Global, known: Pat, number: u32) -> Result<Pat, NoMemory>
    ensures { IfOk result (λ made. pattern_of made ≡ one_by_one.with_ref (pattern_of known) number) }
{
    if is_not_allowed(&known) {
        Ok(Pat::Ref(number))
    } else {
        choice_of(alloc, known, Pat::Ref(number))
    }
}

/// The definitions that have a name, as a choice.
fn known(alloc: Global, defs: &[Def], name: &Name) -> Result<Pat, NoMemory>
    requires { length defs.now < 2 ^ 32 }
    ensures { IfOk result (λ start. pattern_of start ≡ known_from (map definition_of defs.now) name.now 0) }
{
    let mut known = Pat::NotAllowed;
    for number in 0..defs.len() {
        if defs[number].class.has(name) {
            known = with_ref(alloc, known, number as u32)?;
        }
    }
    Ok(known)
}

/// The ways behind a step.
fn given(alloc: Global, step: &Step, ways: &Ways) -> Result<Ways, NoMemory>
    requires ways { IsState ways.now }
    requires step { StepIsInOrder step.now }
    ensures { IfOk result (Gives IsState residual_of (merging.stepped (way_step step.now) [] (residual_of ways.now))) }
{
    left_is_in_order();
    Ok(Sequence::from_vec(stepped(alloc, step, ways.as_slice())?))
}

/// The ways behind a step, and none where there is no way to go on.
fn answer(alloc: Global, step: &Step, ways: &Ways) -> Result<Option<Ways>, NoMemory>
    requires ways { IsState ways.now }
    requires step { StepIsInOrder step.now }
    ensures { IfOk result (Answers IsState residual_of (merging.answered (merging.stepped (way_step step.now) [] (residual_of ways.now)))) }
{
    Ok(as_answer(given(alloc, step, ways)?))
}

/// Behind an attribute. A value that is no text is answered as want of memory.
fn behind_attribute(
    alloc: Global,
    ways: &Ways,
    name: &Name,
    value: &[u8],
) -> Result<Option<Ways>, NoMemory>
    requires { IsState ways.now }
    ensures { IfOk result (Answers IsState residual_of
        (merging.answered (tags.attribute_of name.now value.now (residual_of ways.now)))) }
{
    match str::from_utf8(value) {
        Ok(value) => answer(alloc, &Step::Attribute(name, value), ways),
        Err(_) => Err(NoMemory),
    }
}

/// Behind a string. One that is no text is answered as want of memory.
fn behind_chars(alloc: Global, ways: &Ways, text: &[u8]) -> Result<Option<Ways>, NoMemory>
    requires { IsState ways.now }
    ensures { IfOk result (Answers IsState residual_of (merging.answered (content.chars text.now (residual_of ways.now)))) }
{
    match str::from_utf8(text) {
        Ok(text) => answer(alloc, &Step::Chars(text), ways),
        Err(_) => Err(NoMemory),
    }
}

impl Plain {
    /// The matcher of a schema.
    pub fn new(schema: Schema) -> Plain
        requires live { IsLive (schema_language schema) }
        requires sound { IsSound schema.grammar }
        ensures { result.schema ≡ schema }
    {
        Plain { schema }
    }

    fn start(&self) -> &Pat
        ensures start { pattern_of result.now ≡ (schema_language self.now.schema).start }
        ensures order { IsInOrder (pattern_of result.now) }
    {
        sound_are_in_order();
        &self.schema.grammar().start
    }

    fn defs(&self) -> &[Def]
        ensures definitions { map definition_of result.now ≡ (schema_language self.now.schema).definitions }
        ensures order { ContentsAreInOrder (map definition_of result.now) }
        ensures few { length result.now < 2 ^ 32 }
    {
        sound_are_in_order();
        self.schema.grammar().defs.as_slice()
    }

    fn begun_known(&self, alloc: Global, name: &Name) -> Result<Option<Ways>, NoMemory>
        ensures { IfOk result (Answers IsState residual_of (calls.begin_known (schema_language self.now.schema) name.now)) }
    {
        left_is_in_order();
        let start = known(alloc, self.defs(), name)?;
        begun_if_allowed(alloc, &start)
    }

    fn entered(&self, alloc: Global, ways: &Ways, name: &Name) -> Result<Option<Ways>, NoMemory>
        requires { IsState ways.now }
        ensures { IfOk result (Answers IsState residual_of (merging.answered
            (entering.enter (schema_language self.now.schema).definitions name.now (residual_of ways.now)))) }
    {
        answer(alloc, &Step::Enter(self.defs(), name), ways)
    }

    fn skipped(&self, alloc: Global, ways: &Ways, name: &Name) -> Result<Option<Ways>, NoMemory>
        requires { IsState ways.now }
        ensures { IfOk result (Answers IsState residual_of (merging.answered
            (entering.enter_skip (schema_language self.now.schema).definitions name.now (residual_of ways.now)))) }
    {
        answer(alloc, &Step::EnterSkip(self.defs(), name), ways)
    }
}

impl Matcher for Plain {
    type State = Ways;

    ghost later = { λ m l. l.schema ≡ m.schema };

    ghost is_state = { λ m s. IsState s };

    ghost means = { λ m s. residual_of s };

    ghost language = { λ m. schema_language m.schema };

    ghost remembers = { λ m x call. ⊥ };

    ghost remembers_answers = { false };

    ghost laws = { plain_laws (λ m. m.schema) schema_language IsState residual_of };

    ghost memory = { nothing_is_remembered _ };

    ghost live = { λ m. m.live };

    fn begin(&mut self, alloc: Global) -> Result<Ways, NoMemory> {
        begun(alloc, self.start())
    }

    fn begin_known(&mut self, alloc: Global, name: &Name) -> Result<Option<Ways>, NoMemory> {
        self.begun_known(alloc, name)
    }

    fn enter(&mut self, alloc: Global, s: &Ways, name: &Name) -> Result<Option<Ways>, NoMemory> {
        self.entered(alloc, s, name)
    }

    fn enter_skip(
        &mut self,
        alloc: Global,
        s: &Ways,
        name: &Name,
    ) -> Result<Option<Ways>, NoMemory> {
        self.skipped(alloc, s, name)
    }

    fn attribute(
        &mut self,
        alloc: Global,
        s: &Ways,
        name: &Name,
        value: &[u8],
    ) -> Result<Option<Ways>, NoMemory> {
        behind_attribute(alloc, s, name, value)
    }

    fn attribute_any(
        &mut self,
        alloc: Global,
        s: &Ways,
        name: &Name,
    ) -> Result<Option<Ways>, NoMemory> {
        answer(alloc, &Step::AttributeAny(name), s)
    }

    fn tag_end(&mut self, alloc: Global, s: &Ways) -> Result<Option<Ways>, NoMemory> {
        answer(alloc, &Step::TagEnd, s)
    }

    fn tag_end_missing(&mut self, alloc: Global, s: &Ways) -> Result<Ways, NoMemory> {
        given(alloc, &Step::TagEndMissing, s)
    }

    fn required(&mut self, alloc: Global, s: &Ways) -> Result<Names, NoMemory> {
        required_names(alloc, s.as_slice())
    }

    fn needed(
        &mut self,
        alloc: Global,
        s: &Ways,
        name: Option<&Name>,
    ) -> Result<SharedNames, NoMemory> {
        needed_names(
            alloc,
            self.schema.grammar().defs.as_slice(),
            name,
            s.as_slice(),
        )
    }

    fn chars(&mut self, alloc: Global, s: &Ways, text: &[u8]) -> Result<Option<Ways>, NoMemory> {
        behind_chars(alloc, s, text)
    }

    fn chars_any(&mut self, alloc: Global, s: &Ways) -> Result<Option<Ways>, NoMemory> {
        answer(alloc, &Step::CharsAny, s)
    }

    fn leave(&mut self, alloc: Global, s: &Ways) -> Result<Option<Ways>, NoMemory> {
        answer(alloc, &Step::Leave, s)
    }

    fn leave_skip(&mut self, alloc: Global, s: &Ways) -> Result<Ways, NoMemory> {
        given(alloc, &Step::LeaveSkip, s)
    }

    fn same(&self, a: &Ways, b: &Ways) -> bool {
        same_ways(a.as_slice(), b.as_slice())
    }

    fn copy(&self, alloc: Global, s: &Ways) -> Result<Ways, NoMemory> {
        Ok(Sequence::from_vec(copied_ways(alloc, s.as_slice())?))
    }

    fn schema(&self) -> &Schema {
        &self.schema
    }
}
