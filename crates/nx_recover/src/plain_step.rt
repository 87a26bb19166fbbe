//! A step over a token of which one look tells what it gives, where the schema admits all of that: the levels change where they stand.
//! Most tokens are such. Where something isn't admitted, nothing has changed, and the token is taken item by item (`step`).

ghost use Rattle.std.specs.Prelude.{◌≡◌, ◌++◌, ◌∷◌, ◌+◌, ◌<◌, ◌≤◌, ◌^◌, [], true, false, length, IsUtf8, IfOk, IfSome, OnErr, option_copied};
ghost use Rattle.rng_live.specs.Calls.{Answers};
ghost use Rattle.nx_base.specs.declared.token.Token.{Token};
ghost use Rattle.nx_base.specs.declared.token.TokenKind.TheVariants as kinds;
ghost use Rattle.nx_events.specs.PlainAttributes.{attribute_name, one_if, AreTexts, IsPlainOpening};
ghost use Rattle.nx_events.specs.PlainTokens.{IsPlainEnd};
ghost use Rattle.nx_events.specs.Runs.{run_back};
ghost use Rattle.nx_events.specs.Texts.{StateIsText};
ghost use Rattle.nx_recover.specs.Aside.{without_innermost};
ghost use Rattle.nx_recover.specs.PlainSteps.{behind_run, behind_attributes, listed_if, inside_of, outside_of, IsAdmitted};
ghost use Rattle.rng_kept.specs.Merging.{answered};
ghost use Rattle.rng_kept.specs.Tags.{attribute_of};
ghost use Rattle.nx_recover.specs.States.{AreStates, view_of};
ghost use Rattle.nx_recover.specs.declared.levels.Open.TheVariants.{In};

use crate::open_name::OpenName;
use crate::packed::{Packed, name_inside};
use crate::state::RecoverState;
use nx_base::memory::NoMemory;
use nx_base::name::Name;
use nx_base::token::{Token, TokenKind};
use nx_events::item::Items;
use nx_events::plain_opening::{PlainAttribute, PlainAttributes, attribute_name, plain_opening};
use nx_events::plain_token::{
    add_characters, begin_element, end_innermost, ended_run, is_plain_end, is_plain_text,
    plain_start, put_unprefixed_name,
};
use rng_live::matcher::Matcher;
use std::alloc::Global;

// Behind an attribute.
fn behind_attribute<M: Matcher>(
    alloc: Global,
    matcher: &mut M,
    memory: &mut Items,
    in_tag: &M::State,
    attribute: &PlainAttribute<'_>,
) -> Result<Option<M::State>, NoMemory>
    requires state { M.is_state matcher.old in_tag.now }
    requires text { IsUtf8 attribute.now.value.now }
    ensures later { M.later matcher.old matcher.new }
    ensures gives { IfOk result (Answers (M.is_state matcher.new) (M.means matcher.new)
        (answered (attribute_of (attribute_name attribute.now) attribute.now.value.now (M.means matcher.old in_tag.now)))) }
    ensures memory { memory.new ≡ memory.old }
{
    let name = attribute_name(alloc, memory, attribute)?;
    let behind = matcher.attribute(alloc, in_tag, &name, attribute.value)?;
    memory.keep_both_parts(name);
    Ok(behind)
}

// Behind the second attribute of a tag, if there is one, and the end of the tag. Few tags have a second one: out of line, this stays out
// of the frame of the others.
#[inline(never)]
fn behind_second<M: Matcher>(
    alloc: Global,
    matcher: &mut M,
    memory: &mut Items,
    in_tag: &M::State,
    second: &Option<PlainAttribute<'_>>,
) -> Result<Option<M::State>, NoMemory>
    requires state { M.is_state matcher.old in_tag.now }
    requires text { AreTexts (one_if second.now) }
    ensures later { M.later matcher.old matcher.new }
    ensures gives { IfOk result (Answers (M.is_state matcher.new) (M.means matcher.new)
        (behind_attributes (one_if second.now) (M.means matcher.old in_tag.now))) }
    ensures memory { memory.new ≡ memory.old }
{
    let Some(attribute) = second else {
        let inside = matcher.tag_end(alloc, in_tag)?;
        return Ok(inside);
    };
    match behind_attribute(alloc, matcher, memory, in_tag, attribute)? {
        Some(behind) => {
            let inside = matcher.tag_end(alloc, &behind)?;
            Ok(inside)
        }
        None => Ok(None),
    }
}

// Behind the attributes of a tag, if there are some, and the end of the tag. Inlined, so that where it is known that there are none, only the
// end of the tag is left.
#[inline(always)]
fn behind_attributes<M: Matcher>(
    alloc: Global,
    matcher: &mut M,
    memory: &mut Items,
    in_tag: &M::State,
    attributes: Option<&PlainAttributes<'_>>,
) -> Result<Option<M::State>, NoMemory>
    requires state { M.is_state matcher.old in_tag.now }
    requires text { AreTexts (listed_if (option_copied attributes)) }
    ensures later { M.later matcher.old matcher.new }
    ensures gives { IfOk result (Answers (M.is_state matcher.new) (M.means matcher.new)
        (behind_attributes (listed_if (option_copied attributes.entry)) (M.means matcher.old in_tag.now))) }
    ensures memory { memory.new ≡ memory.old }
{
    let Some(some) = attributes else {
        let inside = matcher.tag_end(alloc, in_tag)?;
        return Ok(inside);
    };
    match behind_attribute(alloc, matcher, memory, in_tag, &some.first)? {
        Some(behind) => {
            let inside = behind_second(alloc, matcher, memory, &behind, &some.second)?;
            Ok(inside)
        }
        None => Ok(None),
    }
}

// Behind the start of an element and the end of its tag. Inlined for the sake of `behind_attributes`.
#[inline(always)]
fn inside_of<M: Matcher>(
    alloc: Global,
    matcher: &mut M,
    memory: &mut Items,
    here: &M::State,
    name: &Name,
    attributes: Option<&PlainAttributes<'_>>,
) -> Result<Option<M::State>, NoMemory>
    requires here { M.is_state matcher.old here.now }
    requires text { AreTexts (listed_if (option_copied attributes)) }
    ensures later { M.later matcher.old matcher.new }
    ensures gives { IfOk result (Answers (M.is_state matcher.new) (M.means matcher.new)
        (inside_of (M.language matcher.old) name.now (listed_if (option_copied attributes.entry)) (M.means matcher.old here.now))) }
    ensures memory { memory.new ≡ memory.old }
{
    match matcher.enter(alloc, here, name)? {
        Some(in_tag) => {
            let inside = behind_attributes(alloc, matcher, memory, &in_tag, attributes)?;
            Ok(inside)
        }
        None => Ok(None),
    }
}

// Behind the run in front of a start tag, if there is one, the start of its element and the end of the tag. Inlined for the sake of
// `behind_attributes`.
#[inline(always)]
fn behind_start<M: Matcher>(
    alloc: Global,
    matcher: &mut M,
    memory: &mut Items,
    here: &M::State,
    run: Option<&[u8]>,
    name: &Name,
    attributes: Option<&PlainAttributes<'_>>,
) -> Result<Option<M::State>, NoMemory>
    requires here { M.is_state matcher.old here.now }
    requires text { IfSome (option_copied run) IsUtf8 }
    requires values { AreTexts (listed_if (option_copied attributes)) }
    ensures later { M.later matcher.old matcher.new }
    ensures gives { IfOk result (Answers (M.is_state matcher.new) (M.means matcher.new)
        (behind_run (option_copied run.entry)
        (inside_of (M.language matcher.old) name.now (listed_if (option_copied attributes.entry))) (M.means matcher.old here.now))) }
    ensures memory { memory.new ≡ memory.old }
{
    let Some(text) = run else {
        let inside = inside_of(alloc, matcher, memory, here, name, attributes)?;
        return Ok(inside);
    };
    match matcher.chars(alloc, here, text)? {
        Some(before) => {
            let inside = inside_of(alloc, matcher, memory, &before, name, attributes)?;
            Ok(inside)
        }
        None => Ok(None),
    }
}

// Behind the run in front of an end tag, if there is one, and the end of the element.
fn behind_end<M: Matcher>(
    alloc: Global,
    matcher: &mut M,
    here: &M::State,
    run: Option<&[u8]>,
) -> Result<Option<M::State>, NoMemory>
    requires here { M.is_state matcher.old here.now }
    requires text { IfSome (option_copied run) IsUtf8 }
    ensures later { M.later matcher.old matcher.new }
    ensures gives { IfOk result (Answers (M.is_state matcher.new) (M.means matcher.new)
        (behind_run (option_copied run.entry) outside_of (M.means matcher.old here.now))) }
{
    let Some(text) = run else {
        let outside = matcher.leave(alloc, here)?;
        return Ok(outside);
    };
    match matcher.chars(alloc, here, text)? {
        Some(before) => {
            let outside = matcher.leave(alloc, &before)?;
            Ok(outside)
        }
        None => Ok(None),
    }
}

// Takes a start tag that is this name and these attributes, and answers whether all that it gives is admitted. Where it isn't, the state is
// as before. The name is put in memory that is kept for it. Inlined, so that for tags without attributes none are asked for.
#[inline(always)]
fn take_start<M: Matcher>(
    alloc: Global,
    matcher: &mut M,
    memory: &mut Items,
    name: &mut Name,
    state: &mut RecoverState<M::State>,
    written: &[u8],
    attributes: Option<&PlainAttributes<'_>>,
) -> Result<bool, NoMemory>
    requires states { AreStates (M.is_state matcher.old) (view_of state.old.levels) }
    requires text { StateIsText state.old.events }
    requires values { AreTexts (listed_if (option_copied attributes)) }
    ensures later { M.later matcher.old matcher.new }
    ensures taken { IfOk result (λ taken. taken ≡ true → (token : Token) →
        IsPlainOpening state.old.events token written.now (listed_if (option_copied attributes.entry)) →
        IsAdmitted (M.is_state matcher.new) (M.means matcher.old) (M.means matcher.new) (M.language matcher.old) state.old state.new token) }
    ensures stays { IfOk result (λ taken. taken ≡ false → state.new ≡ state.old) }
    ensures same_events { OnErr result (state.new.events ≡ state.old.events) }
    ensures same_levels { OnErr result (view_of state.new.levels ≡ view_of state.old.levels) }
    ensures memory { memory.new ≡ memory.old }
{
    let Some(here) = &state.levels.here else {
        return Ok(false);
    };
    let run = ended_run(&state.events);
    put_unprefixed_name(alloc, name, &state.events, written)?;
    let admitted = behind_start(alloc, matcher, memory, here, run, name, attributes)?;
    let Some(inside) = admitted else {
        return Ok(false);
    };
    let outer = state.levels.elements.as_slice().last();
    let kept = name_inside(alloc, name, outer)?;
    state.levels.elements.reserve(1)?;
    begin_element(&mut state.events, written)?;
    state.levels.elements.push_reserved(Packed::inside(kept));
    state.levels.here = Some(inside);
    Ok(true)
}

// Takes a start tag that has attributes, if one look tells what it gives, and answers whether it does, and all of that is admitted. Where it
// isn't, the state is as before. Its frame is large, and most start tags are a name alone.
#[inline(never)]
fn take_opening<M: Matcher>(
    alloc: Global,
    matcher: &mut M,
    memory: &mut Items,
    name: &mut Name,
    state: &mut RecoverState<M::State>,
    token: &Token,
) -> Result<bool, NoMemory>
    requires kind { token.now.kind ≡ kinds.Start }
    requires states { AreStates (M.is_state matcher.old) (view_of state.old.levels) }
    requires text { StateIsText state.old.events }
    ensures later { M.later matcher.old matcher.new }
    ensures taken { IfOk result (λ taken. taken ≡ true → IsAdmitted (M.is_state matcher.new) (M.means matcher.old) (M.means matcher.new)
        (M.language matcher.old) state.old state.new token.now) }
    ensures stays { IfOk result (λ taken. taken ≡ false → state.new ≡ state.old) }
    ensures same_events { OnErr result (state.new.events ≡ state.old.events) }
    ensures same_levels { OnErr result (view_of state.new.levels ≡ view_of state.old.levels) }
    ensures memory { memory.new ≡ memory.old }
{
    let Some(tag) = plain_opening(&state.events, token) else {
        return Ok(false);
    };
    take_start(
        alloc,
        matcher,
        memory,
        name,
        state,
        tag.written,
        Some(&tag.attributes),
    )
}

// The name of the innermost element, if it goes on in the frame around it.
fn innermost_name<S: Drop>(elements: &[Packed<S>]) -> Option<&OpenName>
    ensures { IfSome result (λ name. elements.now ≡ without_innermost elements.now ++ In name.now ∷ []) }
{
    let len = elements.len();
    if len == 0 {
        return None;
    }
    elements[len - 1].name_in_frame()
}

// Takes the end tag of the innermost element, and answers whether all that it gives is admitted. Where it isn't, the state is as
// before.
fn take_end<M: Matcher>(
    alloc: Global,
    matcher: &mut M,
    state: &mut RecoverState<M::State>,
) -> Result<bool, NoMemory>
    requires states { AreStates (M.is_state matcher.old) (view_of state.old.levels) }
    requires text { StateIsText state.old.events }
    requires some { 0 < length state.old.events.elements }
    ensures later { M.later matcher.old matcher.new }
    ensures taken { IfOk result (λ taken. taken ≡ true → (token : Token) → IsPlainEnd state.old.events token →
        IsAdmitted (M.is_state matcher.new) (M.means matcher.old) (M.means matcher.new) (M.language matcher.old) state.old state.new token) }
    ensures stays { IfOk result (λ taken. taken ≡ false → state.new ≡ state.old) }
    ensures same_events { OnErr result (state.new.events ≡ state.old.events) }
    ensures same_levels { OnErr result (view_of state.new.levels ≡ view_of state.old.levels) }
{
    let Some(here) = &state.levels.here else {
        return Ok(false);
    };
    // The name itself stays where it is.
    let Some(_) = innermost_name(state.levels.elements.as_slice()) else {
        return Ok(false);
    };
    let run = ended_run(&state.events);
    let admitted = behind_end(alloc, matcher, here, run)?;
    let Some(outside) = admitted else {
        return Ok(false);
    };
    end_innermost(&mut state.events);
    state.levels.elements.pop();
    state.levels.here = Some(outside);
    Ok(true)
}

/// Takes a token of which one look tells what it gives, and answers whether it is one, and all of that is admitted. Where it isn't, or there
/// was no memory for it, the state is as before. The name of an element that begins is put in the memory of another.
pub fn step_plain<M: Matcher>(
    alloc: Global,
    matcher: &mut M,
    memory: &mut Items,
    name: &mut Name,
    state: &mut RecoverState<M::State>,
    token: &Token,
) -> Result<bool, NoMemory>
    requires states { AreStates (M.is_state matcher.old) (view_of state.old.levels) }
    requires text { StateIsText state.old.events }
    requires place { run_back state.old.events.run ≤ token.now.from }
    requires room { token.now.from + length token.now.bytes < 2 ^ 64 }
    ensures later { M.later matcher.old matcher.new }
    ensures taken { IfOk result (λ taken. taken ≡ true → IsAdmitted (M.is_state matcher.new) (M.means matcher.old) (M.means matcher.new)
        (M.language matcher.old) state.old state.new token.now) }
    ensures stays { IfOk result (λ taken. taken ≡ false → state.new ≡ state.old) }
    ensures same_events { OnErr result (state.new.events ≡ state.old.events) }
    ensures same_levels { OnErr result (view_of state.new.levels ≡ view_of state.old.levels) }
    ensures memory { memory.new ≡ memory.old }
{
    match token.kind {
        TokenKind::Start => match plain_start(&state.events, token) {
            Some(written) => take_start(alloc, matcher, memory, name, state, written, None),
            None => take_opening(alloc, matcher, memory, name, state, token),
        },
        TokenKind::End => {
            if is_plain_end(&state.events, token) {
                return take_end(alloc, matcher, state);
            }
            Ok(false)
        }
        TokenKind::Text => {
            if !is_plain_text(&state.events, token) {
                return Ok(false);
            }
            // It gives nothing, so the levels stay.
            add_characters(&mut state.events, token.bytes.as_slice())?;
            Ok(true)
        }
        _ => Ok(false),
    }
}
