//! Fillings, judged by a matcher.

ghost use Rattle.std.specs.Prelude.{IfOk, IfSome};
ghost use Rattle.rng_fill_cases.specs.Usable.{IsUsable};

use crate::filling::elements_of;
use deriv_plain::plain::Plain;
use nx_base::memory::NoMemory;
use rng_fill::moves::{Move, Moves};
use rng_live::matcher::Matcher;
use rng_live::schema::Schema;
use std::alloc::Global;

/// What is told of the elements that were written of a schema's definitions.
#[derive(Clone, Copy, Debug, PartialEq, Eq)]
pub enum Judgement {
    /// An element of each definition is taken.
    Filled,
    /// No element was written, since the content of some definition takes more than 10,000 events.
    Large,
    /// Some element isn't taken.
    Wrong,
}

/// What is left behind a move, if anything.
fn after<M: Matcher>(
    alloc: Global,
    matcher: &mut M,
    state: &M::State,
    one: &Move,
) -> Result<Option<M::State>, NoMemory>
    requires { M.is_state matcher.old state.now }
    ensures { IfOk result (λ next. IfSome next (M.is_state matcher.new)) }
{
    match one {
        Move::Enter(name) => matcher.enter(alloc, state, name),
        Move::Att(name, value) => match str::from_utf8(value.as_slice()) {
            Ok(text) => matcher.attribute(alloc, state, name, text.as_bytes()),
            Err(_) => Ok(None),
        },
        Move::TagEnd => matcher.tag_end(alloc, state),
        Move::Chars(text) => match str::from_utf8(text.as_slice()) {
            Ok(text) => matcher.chars(alloc, state, text.as_bytes()),
            Err(_) => Ok(None),
        },
        Move::Leave => matcher.leave(alloc, state),
    }
}

/// Before an element with the name of the first move.
fn before<M: Matcher>(
    alloc: Global,
    matcher: &mut M,
    moves: &[Move],
) -> Result<Option<M::State>, NoMemory>
    ensures { IfOk result (λ next. IfSome next (M.is_state matcher.new)) }
{
    match moves.first() {
        Some(Move::Enter(name)) => matcher.begin_known(alloc, name),
        _ => Ok(None),
    }
}

/// Whether some definition takes the element.
fn is_taken<M: Matcher>(alloc: Global, matcher: &mut M, moves: &[Move]) -> Result<bool, NoMemory> {
    let Some(mut state) = before(alloc, matcher, moves)? else {
        return Ok(false);
    };
    for one in moves {
        let Some(next) = after(alloc, matcher, &state, one)? else {
            return Ok(false);
        };
        state = next;
    }
    Ok(true)
}

/// Whether all elements are taken by a matcher.
fn are_taken<M: Matcher>(
    alloc: Global,
    matcher: &mut M,
    elements: &[Moves],
) -> Result<bool, NoMemory> {
    for element in elements {
        if !is_taken(alloc, matcher, element.as_slice())? {
            return Ok(false);
        }
    }
    Ok(true)
}

/// Writes elements of each definition of a pruned schema, and has each judged.
pub fn judged(alloc: Global, schema: Schema) -> Result<Judgement, NoMemory>
    requires { IsUsable schema.grammar }
{
    let Some(elements) = elements_of(alloc, schema.grammar())? else {
        return Ok(Judgement::Large);
    };
    let mut matcher = Plain::new(schema);
    if are_taken(alloc, &mut matcher, elements.as_slice())? {
        Ok(Judgement::Filled)
    } else {
        Ok(Judgement::Wrong)
    }
}
