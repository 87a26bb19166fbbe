//! Calls whose answers are noted, so that they answer again. What is noted is told in line, so that a call's form is known where it is
//! made; what isn't is asked out of line, so that the usual way sets up no frame for it.

ghost use Rattle.std.specs.Prelude.{◌≡◌, ◌<◌, length, map, [], true, is_some, IfOk, IfSome, IfNone, OnOk};
ghost use Rattle.rng_core.specs.Meaning.{definition_of};
ghost use Rattle.rng_kept.specs.Content as content;
ghost use Rattle.rng_kept.specs.Entering as entering;
ghost use Rattle.rng_kept.specs.Merging as merging;
ghost use Rattle.rng_kept.specs.Tags as tags;
ghost use Rattle.rng_live.specs.Calls.{Answers, call_enter, call_leave, call_tag_end};
ghost use Rattle.deriv_memory.specs.Calls.{state_of};
ghost use Rattle.deriv_memory.specs.Remembered.{noted, IsName};
ghost use Rattle.deriv_states.specs.Places.{AreContents, LaterPlaces, state_in};
ghost use Rattle.deriv_pattern.specs.Steps.{way_step};
ghost use Rattle.deriv_states.specs.Steps.{HasContents};
ghost use Rattle.deriv_pool.specs.Meaning.{IsState, means_in};
ghost use Rattle.deriv_pool.specs.Remembering.{AreAnswers, IsAlike, IsAsked, KeepsNoted, Remembers, as_states, behind};
ghost use Rattle.rng_kept.specs.Residuals.{Residual};

use crate::state::{PoolState, answer, behind_attribute, behind_chars};
use deriv_memory::asked::Asked;
use deriv_memory::memory::Memory;
use deriv_pattern::leaves::is_blank;
use deriv_pattern::step::Step;
use deriv_states::states::States;
use nx_base::memory::NoMemory;
use nx_base::name::Name;
use rng_core::grammar::Def;
use std::alloc::Global;

/// An answer that was noted, as a state.
#[inline(always)]
fn as_state(kept: Option<usize>) -> Option<PoolState>
    ensures { result ≡ as_states kept }
{
    match kept {
        Some(number) => Some(PoolState { number }),
        None => None,
    }
}

/// An answer as it is noted.
fn as_number(given: Option<PoolState>) -> Option<usize>
    ensures { as_states result ≡ given }
{
    match given {
        Some(state) => Some(state.number),
        None => None,
    }
}

/// The answer that was noted of a call; none where nothing was noted.
#[inline(always)]
fn recalled(
    states: &States,
    memory: &Memory,
    defs: &[Def],
    call: Asked,
) -> Option<Option<PoolState>>
    requires { ∥ AreAnswers (map definition_of defs.now) states.now memory.now ∥₁ }
    ensures found { IfSome result (Answers (IsState states.now) (means_in states.now)
        (merging.answered (behind (map definition_of defs.now) memory.now.texts call (state_in states.now.states (state_of call))))) }
    ensures alike { IfSome result (λ answer. IsAlike memory.now.texts call (state_in states.now.states (state_of call))) }
    ensures kept { is_some result ≡ is_some (noted memory.now call) }
{
    let kept = memory.recalled(call)?;
    Some(as_state(kept))
}

/// The answer that was noted of the start of an element; none where nothing was noted.
#[inline(always)]
pub(crate) fn recalled_enter(
    states: &States,
    memory: &Memory,
    defs: &[Def],
    state: PoolState,
    name: &Name,
) -> Option<Option<PoolState>>
    requires state { IsState states.now state }
    requires right { ∥ AreAnswers (map definition_of defs.now) states.now memory.now ∥₁ }
    ensures found { IfSome result (Answers (IsState states.now) (means_in states.now)
        (merging.answered (entering.enter (map definition_of defs.now) name.now (means_in states.now state)))) }
    ensures kept { IfSome result (λ answer. Remembers states.now memory.now (means_in states.now state) (call_enter name.now)) }
    ensures none { IfNone result (Remembers states.now memory.now (means_in states.now state) (call_enter name.now) → ⊥) }
{
    states.no_doubles();
    let (ns, local) = memory.number_of_name(name)?;
    recalled(states, memory, defs, Asked::Enter(state.number, ns, local))
}

/// The answer that was noted of the end of a start tag; none where nothing was noted.
#[inline(always)]
pub(crate) fn recalled_tag_end(
    states: &States,
    memory: &Memory,
    defs: &[Def],
    state: PoolState,
) -> Option<Option<PoolState>>
    requires state { IsState states.now state }
    requires right { ∥ AreAnswers (map definition_of defs.now) states.now memory.now ∥₁ }
    ensures found { IfSome result (Answers (IsState states.now) (means_in states.now)
        (merging.answered (tags.tag_end (means_in states.now state)))) }
    ensures kept { IfSome result (λ answer. Remembers states.now memory.now (means_in states.now state) call_tag_end) }
    ensures none { IfNone result (Remembers states.now memory.now (means_in states.now state) call_tag_end → ⊥) }
{
    states.no_doubles();
    recalled(states, memory, defs, Asked::TagEnd(state.number))
}

/// The answer that was noted of the end of an element; none where nothing was noted.
#[inline(always)]
pub(crate) fn recalled_leave(
    states: &States,
    memory: &Memory,
    defs: &[Def],
    state: PoolState,
) -> Option<Option<PoolState>>
    requires state { IsState states.now state }
    requires right { ∥ AreAnswers (map definition_of defs.now) states.now memory.now ∥₁ }
    ensures found { IfSome result (Answers (IsState states.now) (means_in states.now)
        (merging.answered (content.leave (means_in states.now state)))) }
    ensures kept { IfSome result (λ answer. Remembers states.now memory.now (means_in states.now state) call_leave) }
    ensures none { IfNone result (Remembers states.now memory.now (means_in states.now state) call_leave → ⊥) }
{
    states.no_doubles();
    recalled(states, memory, defs, Asked::Leave(state.number))
}

/// The answer that was noted of strings of this one's kind; none where nothing was noted.
#[inline(always)]
pub(crate) fn recalled_chars(
    states: &States,
    memory: &Memory,
    defs: &[Def],
    state: PoolState,
    text: &[u8],
) -> Option<Option<PoolState>>
    requires state { IsState states.now state }
    requires right { ∥ AreAnswers (map definition_of defs.now) states.now memory.now ∥₁ }
    ensures { IfSome result (Answers (IsState states.now) (means_in states.now)
        (merging.answered (content.chars text.now (means_in states.now state)))) }
{
    if is_blank(text) {
        return recalled(states, memory, defs, Asked::Blank(state.number));
    }
    recalled(states, memory, defs, Asked::Solid(state.number))
}

/// The answer that was noted of values of this one's kind; none where nothing was noted.
#[inline(always)]
pub(crate) fn recalled_attribute(
    states: &States,
    memory: &Memory,
    defs: &[Def],
    state: PoolState,
    name: &Name,
    value: &[u8],
) -> Option<Option<PoolState>>
    requires state { IsState states.now state }
    requires right { ∥ AreAnswers (map definition_of defs.now) states.now memory.now ∥₁ }
    ensures { IfSome result (Answers (IsState states.now) (means_in states.now)
        (merging.answered (tags.attribute_of name.now value.now (means_in states.now state)))) }
{
    let (ns, local) = memory.number_of_name(name)?;
    if is_blank(value) {
        return recalled(
            states,
            memory,
            defs,
            Asked::BlankValue(state.number, ns, local),
        );
    }
    recalled(
        states,
        memory,
        defs,
        Asked::SolidValue(state.number, ns, local),
    )
}

/// What a call answers; the answer is noted.
pub(crate) fn noted_answer(
    alloc: Global,
    states: &mut States,
    memory: &mut Memory,
    defs: &[Def],
    call: Asked,
    step: &Step,
    state: PoolState,
) -> Result<Option<PoolState>, NoMemory>
    requires state { IsState states.old state }
    requires contents { HasContents states.old step.now }
    requires right { ∥ AreAnswers (map definition_of defs.now) states.old memory.old ∥₁ }
    requires of { state_of call ≡ state.number }
    requires asked { IsAsked states.old memory.old.texts call }
    requires alike { IsAlike memory.old.texts call (means_in states.old state) }
    requires behind { (x : Residual) → merging.stepped (way_step step.now) [] x ≡ behind (map definition_of defs.now) memory.old.texts call x }
    ensures later { LaterPlaces states.old states.new }
    ensures texts { memory.new.texts ≡ memory.old.texts }
    ensures keeps { KeepsNoted memory.old memory.new }
    ensures right { ∥ AreAnswers (map definition_of defs.now) states.new memory.new ∥₁ }
    ensures gives { IfOk result (Answers (IsState states.new) (means_in states.new)
        (merging.answered (behind (map definition_of defs.now) memory.old.texts call (means_in states.old state)))) }
    ensures kept { OnOk result (is_some (noted memory.new call) ≡ true) }
{
    let found = answer(alloc, states, step, state)?;
    memory.note(call, as_number(found))?;
    Ok(found)
}

/// Behind the start of an element; the answer is noted.
#[inline(never)]
pub(crate) fn entered(
    alloc: Global,
    states: &mut States,
    memory: &mut Memory,
    defs: &[Def],
    state: PoolState,
    name: &Name,
) -> Result<Option<PoolState>, NoMemory>
    requires state { IsState states.old state }
    requires contents { AreContents states.old (map definition_of defs.now) }
    requires right { ∥ AreAnswers (map definition_of defs.now) states.old memory.old ∥₁ }
    ensures later { LaterPlaces states.old states.new }
    ensures keeps { KeepsNoted memory.old memory.new }
    ensures right { ∥ AreAnswers (map definition_of defs.now) states.new memory.new ∥₁ }
    ensures gives { IfOk result (Answers (IsState states.new) (means_in states.new)
        (merging.answered (entering.enter (map definition_of defs.now) name.now (means_in states.old state)))) }
    ensures kept { OnOk result (Remembers states.new memory.new (means_in states.old state) (call_enter name.now)) }
{
    let (ns, local) = memory.keep_name(alloc, name)?;
    noted_answer(
        alloc,
        states,
        memory,
        defs,
        Asked::Enter(state.number, ns, local),
        &Step::Enter(defs, name),
        state,
    )
}

/// Behind the end of a start tag; the answer is noted.
#[inline(never)]
pub(crate) fn tag_ended(
    alloc: Global,
    states: &mut States,
    memory: &mut Memory,
    defs: &[Def],
    state: PoolState,
) -> Result<Option<PoolState>, NoMemory>
    requires state { IsState states.old state }
    requires right { ∥ AreAnswers (map definition_of defs.now) states.old memory.old ∥₁ }
    ensures later { LaterPlaces states.old states.new }
    ensures keeps { KeepsNoted memory.old memory.new }
    ensures right { ∥ AreAnswers (map definition_of defs.now) states.new memory.new ∥₁ }
    ensures gives { IfOk result (Answers (IsState states.new) (means_in states.new)
        (merging.answered (tags.tag_end (means_in states.old state)))) }
    ensures kept { OnOk result (Remembers states.new memory.new (means_in states.old state) call_tag_end) }
{
    noted_answer(
        alloc,
        states,
        memory,
        defs,
        Asked::TagEnd(state.number),
        &Step::TagEnd,
        state,
    )
}

/// Behind the end of an element; the answer is noted.
#[inline(never)]
pub(crate) fn left(
    alloc: Global,
    states: &mut States,
    memory: &mut Memory,
    defs: &[Def],
    state: PoolState,
) -> Result<Option<PoolState>, NoMemory>
    requires state { IsState states.old state }
    requires right { ∥ AreAnswers (map definition_of defs.now) states.old memory.old ∥₁ }
    ensures later { LaterPlaces states.old states.new }
    ensures keeps { KeepsNoted memory.old memory.new }
    ensures right { ∥ AreAnswers (map definition_of defs.now) states.new memory.new ∥₁ }
    ensures gives { IfOk result (Answers (IsState states.new) (means_in states.new)
        (merging.answered (content.leave (means_in states.old state)))) }
    ensures kept { OnOk result (Remembers states.new memory.new (means_in states.old state) call_leave) }
{
    noted_answer(
        alloc,
        states,
        memory,
        defs,
        Asked::Leave(state.number),
        &Step::Leave,
        state,
    )
}

/// Behind a string. Where strings of its kind are all alike, one of them is taken, and the answer is noted of them all.
#[inline(never)]
pub(crate) fn read_chars(
    alloc: Global,
    states: &mut States,
    memory: &mut Memory,
    defs: &[Def],
    state: PoolState,
    text: &[u8],
) -> Result<Option<PoolState>, NoMemory>
    requires state { IsState states.old state }
    requires right { ∥ AreAnswers (map definition_of defs.now) states.old memory.old ∥₁ }
    ensures later { LaterPlaces states.old states.new }
    ensures keeps { KeepsNoted memory.old memory.new }
    ensures right { ∥ AreAnswers (map definition_of defs.now) states.new memory.new ∥₁ }
    ensures gives { IfOk result (Answers (IsState states.new) (means_in states.new)
        (merging.answered (content.chars text.now (means_in states.old state)))) }
{
    if states.tells_texts(state.number) {
        return behind_chars(alloc, states, state, text);
    }
    let number = state.number;
    if is_blank(text) {
        let (call, step) = (Asked::Blank(number), Step::Chars(""));
        return noted_answer(alloc, states, memory, defs, call, &step, state);
    }
    let (call, step) = (Asked::Solid(number), Step::Chars("x"));
    noted_answer(alloc, states, memory, defs, call, &step, state)
}

/// Behind an attribute. Where values of its kind are all alike, one of them is taken, and the answer is noted of them all.
#[inline(never)]
pub(crate) fn read_attribute(
    alloc: Global,
    states: &mut States,
    memory: &mut Memory,
    defs: &[Def],
    state: PoolState,
    name: &Name,
    value: &[u8],
) -> Result<Option<PoolState>, NoMemory>
    requires state { IsState states.old state }
    requires right { ∥ AreAnswers (map definition_of defs.now) states.old memory.old ∥₁ }
    ensures later { LaterPlaces states.old states.new }
    ensures keeps { KeepsNoted memory.old memory.new }
    ensures right { ∥ AreAnswers (map definition_of defs.now) states.new memory.new ∥₁ }
    ensures gives { IfOk result (Answers (IsState states.new) (means_in states.new)
        (merging.answered (tags.attribute_of name.now value.now (means_in states.old state)))) }
{
    if states.tells_values_of(name, state.number) {
        return behind_attribute(alloc, states, state, name, value);
    }
    let (ns, local) = memory.keep_name(alloc, name)?;
    let number = state.number;
    if is_blank(value) {
        let call = Asked::BlankValue(number, ns, local);
        let step = Step::Attribute(name, "");
        return noted_answer(alloc, states, memory, defs, call, &step, state);
    }
    let call = Asked::SolidValue(number, ns, local);
    let step = Step::Attribute(name, "x");
    noted_answer(alloc, states, memory, defs, call, &step, state)
}
