//! The rows of recovery's table, a function for each kind of event.

ghost use Rattle.std.specs.Prelude.{◌≡◌, IsUtf8, IfOk, IfSome, None, Some, option_copied, option_map};
ghost use Rattle.nx_events.specs.Texts.{EventIsText};
ghost use Rattle.rng_kept.specs.Entering.{enter_skip};
ghost use Rattle.rng_kept.specs.Merging.{answered};
ghost use Rattle.rng_live.specs.Calls.{Answers};
ghost use Rattle.nx_recover.specs.Admitting.{admitted, refused};
ghost use Rattle.nx_recover.specs.Outcomes.{flaw};
ghost use Rattle.nx_base.specs.PrintedNames.{name_text};
ghost use Rattle.nx_recover.specs.Details.{names_text, needs_text};
ghost use Rattle.nx_recover.specs.Needed.{needed_names};
ghost use Rattle.nx_recover.specs.Required.{required_names};
ghost use Rattle.nx_recover.specs.States.{TurnIs, BegunIs, EndedIs, IsOpen, open_form};
ghost use Rattle.nx_recover.specs.Table as t;

use crate::detail::{name_detail, names_detail, needs_detail};
use crate::levels::{Begun, Ended, Open, Turn};
use crate::open_name::OpenName;
use crate::packed::{Held, Packed, name_inside};
use nx_base::detail::Detail;
use nx_base::fault::Kind;
use nx_base::memory::NoMemory;
use nx_base::name::Name;
use nx_base::sequence::TryCopy;
use nx_events::flaw::Flaw;
use nx_events::item::Event;
use rng_live::matcher::Matcher;
use std::alloc::Global;

// A flaw with a name as its detail.
fn named(alloc: Global, kind: Kind, name: &Name) -> Result<Option<Flaw>, NoMemory>
    ensures { IfOk result (λ found. found ≡ flaw kind (name_text name.now)) }
{
    let detail = name_detail(alloc, name)?;
    Ok(Some(Flaw { kind, detail }))
}

/// A state of the same meaning, or none of none.
pub fn copy_here<M: Matcher>(
    alloc: Global,
    matcher: &M,
    here: &Option<M::State>,
) -> Result<Option<M::State>, NoMemory>
    requires { IfSome here.now (M.is_state matcher.now) }
    ensures state { IfOk result (λ o. IfSome o (M.is_state matcher.now)) }
    ensures meaning { IfOk result (λ o. option_map (M.means matcher.now) o ≡ option_map (M.means matcher.now) here.now) }
{
    match here {
        None => Ok(None),
        Some(state) => Ok(Some(matcher.copy(alloc, state)?)),
    }
}

/// An open element of the same meaning.
#[inline(always)]
pub fn copy_open<M: Matcher>(
    alloc: Global,
    matcher: &M,
    element: &Packed<M::State>,
) -> Result<Packed<M::State>, NoMemory>
    requires { IsOpen (M.is_state matcher.now) element.now }
    ensures state { IfOk result (IsOpen (M.is_state matcher.now)) }
    ensures meaning { IfOk result (λ o. open_form (M.means matcher.now) o ≡ open_form (M.means matcher.now) element.now) }
{
    match &element.held {
        Held::In(name) => Ok(Packed::inside(name.copy()?)),
        Held::Begins(beginning) => Ok(Packed {
            held: Held::Begins(beginning.clone()?),
        }),
        Held::Lost(around) => Ok(Packed {
            held: Held::Lost(copy_here(alloc, matcher, around)?),
        }),
    }
}

// Behind the start of an element of any definition that has the name.
#[tactic(auto, unfolding(crate::specs::Table::entered_known))]
fn enter_known<M: Matcher>(
    alloc: Global,
    matcher: &mut M,
    name: &Name,
) -> Result<Option<M::State>, NoMemory>
    ensures later { M.later matcher.old matcher.new }
    ensures gives { IfOk result (Answers (M.is_state matcher.new) (M.means matcher.new)
        (t.entered_known (M.language matcher.old) name.now)) }
{
    match matcher.begin_known(alloc, name)? {
        Some(first) => {
            let entered = matcher.enter(alloc, &first, name)?;
            Ok(entered)
        }
        None => Ok(None),
    }
}

// Where an element begins that is neither admitted nor awaited.
fn enter_other<M: Matcher>(
    alloc: Global,
    matcher: &mut M,
    here: &M::State,
    name: &Name,
    outer: Option<&Packed<M::State>>,
) -> Result<Begun<M::State>, NoMemory>
    requires { M.is_state matcher.old here.now }
    ensures later { M.later matcher.old matcher.new }
    ensures gives { IfOk result (BegunIs (M.is_state matcher.new) (M.means matcher.new)
        (t.entered_by (M.means matcher.old here.now) name.now
        (needed_names (M.language matcher.old) (Some name.now) (M.means matcher.old here.now)) None None (t.entered_known (M.language matcher.old) name.now))) }
{
    let around = matcher.copy(alloc, here)?;
    match enter_known(alloc, matcher, name)? {
        Some(state) => {
            let flaw = named(alloc, Kind::NotAllowed, name)?;
            Ok(Begun {
                here: Some(state),
                element: Open::Begins(name_inside(alloc, name, outer)?, Some(around)),
                flaw,
            })
        }
        None => {
            let flaw = named(alloc, Kind::Unknown, name)?;
            Ok(Begun {
                here: None,
                element: Open::Lost(Some(around)),
                flaw,
            })
        }
    }
}

// What is wrong where content is missing up to an element of the name, or, without one, up to the end of the element around.
#[tactic(auto, using(crate::proofs::NeededNames::needed_is))]
fn lacking<M: Matcher>(
    alloc: Global,
    matcher: &mut M,
    here: &M::State,
    kind: Kind,
    about: &Name,
    skip: Option<&Name>,
) -> Result<Option<Flaw>, NoMemory>
    requires { M.is_state matcher.old here.now }
    ensures later { M.later matcher.old matcher.new }
    ensures flaw { IfOk result (λ found. found ≡ flaw kind
        (needs_text about.now (needed_names (M.language matcher.old) (option_copied skip.entry) (M.means matcher.old here.now)))) }
{
    let names = matcher.needed(alloc, here, skip)?;
    let detail = needs_detail(alloc, about, &names)?;
    Ok(Some(Flaw { kind, detail }))
}

// Where an element begins that isn't admitted.
fn enter_awaited<M: Matcher>(
    alloc: Global,
    matcher: &mut M,
    here: &M::State,
    name: &Name,
    outer: Option<&Packed<M::State>>,
) -> Result<Begun<M::State>, NoMemory>
    requires { M.is_state matcher.old here.now }
    ensures later { M.later matcher.old matcher.new }
    ensures gives { IfOk result (BegunIs (M.is_state matcher.new) (M.means matcher.new)
        (t.entered_by (M.means matcher.old here.now) name.now
        (needed_names (M.language matcher.old) (Some name.now) (M.means matcher.old here.now)) None
        (answered (enter_skip (M.language matcher.old).definitions name.now (M.means matcher.old here.now)))
        (t.entered_known (M.language matcher.old) name.now))) }
{
    match matcher.enter_skip(alloc, here, name)? {
        Some(state) => {
            let flaw = lacking(alloc, matcher, here, Kind::NotYet, name, Some(name))?;
            Ok(Begun {
                here: Some(state),
                element: Open::In(name_inside(alloc, name, outer)?),
                flaw,
            })
        }
        None => enter_other(alloc, matcher, here, name, outer),
    }
}

// Where an element begins in a lost one.
fn enter_lost<M: Matcher>(
    alloc: Global,
    matcher: &mut M,
    name: &Name,
    outer: Option<&Packed<M::State>>,
) -> Result<Begun<M::State>, NoMemory>
    ensures later { M.later matcher.old matcher.new }
    ensures gives { IfOk result (BegunIs (M.is_state matcher.new) (M.means matcher.new)
        (t.found_by name.now (t.entered_known (M.language matcher.old) name.now))) }
{
    match enter_known(alloc, matcher, name)? {
        Some(state) => Ok(Begun {
            here: Some(state),
            element: Open::Begins(name_inside(alloc, name, outer)?, None),
            flaw: None,
        }),
        None => Ok(Begun {
            here: None,
            element: Open::Lost(None),
            flaw: None,
        }),
    }
}

/// The frame that goes on in an element which is admitted here; none where it isn't.
pub fn enter_admitted<M: Matcher>(
    alloc: Global,
    matcher: &mut M,
    here: &Option<M::State>,
    name: &Name,
) -> Result<Option<M::State>, NoMemory>
    requires { IfSome here.now (M.is_state matcher.old) }
    ensures later { M.later matcher.old matcher.new }
    ensures gives { IfOk result (Answers (M.is_state matcher.new) (M.means matcher.new)
        (admitted (M.language matcher.old) name.now (option_map (M.means matcher.old) here.now))) }
{
    match here {
        Some(state) => matcher.enter(alloc, state, name),
        None => Ok(None),
    }
}

/// Where an element begins that isn't admitted, inside of another one or of none.
pub fn enter_refused<M: Matcher>(
    alloc: Global,
    matcher: &mut M,
    here: &Option<M::State>,
    name: &Name,
    outer: Option<&Packed<M::State>>,
) -> Result<Begun<M::State>, NoMemory>
    requires { IfSome here.now (M.is_state matcher.old) }
    ensures later { M.later matcher.old matcher.new }
    ensures gives { IfOk result (BegunIs (M.is_state matcher.new) (M.means matcher.new)
        (refused (M.language matcher.old) name.now (option_map (M.means matcher.old) here.now))) }
{
    match here {
        Some(state) => enter_awaited(alloc, matcher, state, name, outer),
        None => enter_lost(alloc, matcher, name, outer),
    }
}

// That an element ends whose content isn't complete.
fn incomplete_flaw<M: Matcher>(
    alloc: Global,
    matcher: &mut M,
    here: &M::State,
    name: &OpenName,
) -> Result<Option<Flaw>, NoMemory>
    requires { M.is_state matcher.old here.now }
    ensures later { M.later matcher.old matcher.new }
    ensures flaw { IfOk result (λ found. found ≡ flaw Kind.Incomplete
        (needs_text name.now (needed_names (M.language matcher.old) None (M.means matcher.old here.now)))) }
{
    let name = name.to_name()?;
    let flaw = lacking(alloc, matcher, here, Kind::Incomplete, &name, None)?;
    Ok(flaw)
}

// Where an element of this name ends in a frame.
#[tactic(auto, unfolding(crate::specs::Table::left))]
fn leave<M: Matcher>(
    alloc: Global,
    matcher: &mut M,
    here: &M::State,
    name: &OpenName,
) -> Result<Turn<M::State>, NoMemory>
    requires { M.is_state matcher.old here.now }
    ensures later { M.later matcher.old matcher.new }
    ensures gives { IfOk result (TurnIs (M.is_state matcher.new) (M.means matcher.new)
        (t.left (M.language matcher.old) name.now (M.means matcher.old here.now))) }
{
    if let Some(state) = matcher.leave(alloc, here)? {
        return Ok(Turn {
            next: Some(state),
            flaw: None,
        });
    }
    let flaw = incomplete_flaw(alloc, matcher, here, name)?;
    Ok(Turn {
        next: Some(matcher.leave_skip(alloc, here)?),
        flaw,
    })
}

// Where an element of this name ends.
fn leave_here<M: Matcher>(
    alloc: Global,
    matcher: &mut M,
    here: &Option<M::State>,
    name: &OpenName,
) -> Result<Turn<M::State>, NoMemory>
    requires { IfSome here.now (M.is_state matcher.old) }
    ensures later { M.later matcher.old matcher.new }
    ensures gives { IfOk result (TurnIs (M.is_state matcher.new) (M.means matcher.new)
        (t.in_frame (t.left (M.language matcher.old) name.now) (option_map (M.means matcher.old) here.now))) }
{
    match here {
        Some(state) => leave(alloc, matcher, state, name),
        None => Ok(Turn {
            next: None,
            flaw: None,
        }),
    }
}

// What is wrong where an element of this name ends with its frame.
#[tactic(auto, unfolding(crate::specs::Table::left))]
fn incomplete<M: Matcher>(
    alloc: Global,
    matcher: &mut M,
    here: &M::State,
    name: &OpenName,
) -> Result<Option<Flaw>, NoMemory>
    requires { M.is_state matcher.old here.now }
    ensures later { M.later matcher.old matcher.new }
    ensures gives { IfOk result (λ found. found ≡ (t.left (M.language matcher.old) name.now (M.means matcher.old here.now)).flaw) }
{
    match matcher.leave(alloc, here)? {
        Some(_) => Ok(None),
        None => incomplete_flaw(alloc, matcher, here, name),
    }
}

// What is wrong where it ends here.
fn incomplete_here<M: Matcher>(
    alloc: Global,
    matcher: &mut M,
    here: &Option<M::State>,
    name: &OpenName,
) -> Result<Option<Flaw>, NoMemory>
    requires { IfSome here.now (M.is_state matcher.old) }
    ensures later { M.later matcher.old matcher.new }
    ensures gives { IfOk result (λ found. found
        ≡ (t.in_frame (t.left (M.language matcher.old) name.now) (option_map (M.means matcher.old) here.now)).flaw) }
{
    match here {
        Some(state) => incomplete(alloc, matcher, state, name),
        None => Ok(None),
    }
}

/// Where this element ends.
pub fn end_element<M: Matcher>(
    alloc: Global,
    matcher: &mut M,
    here: &Option<M::State>,
    element: &Packed<M::State>,
) -> Result<Ended<M::State>, NoMemory>
    requires here { IfSome here.now (M.is_state matcher.old) }
    requires element { IsOpen (M.is_state matcher.old) element.now }
    ensures later { M.later matcher.old matcher.new }
    ensures gives { IfOk result (EndedIs (M.is_state matcher.new) (M.means matcher.new)
        (t.ended (M.language matcher.old) (option_map (M.means matcher.old) here.now) (open_form (M.means matcher.old) element.now))) }
{
    match &element.held {
        Held::In(name) => {
            let turn = leave_here(alloc, matcher, here, name)?;
            Ok(Ended {
                here: turn.next,
                flaw: turn.flaw,
            })
        }
        Held::Begins(beginning) => {
            let flaw = incomplete_here(alloc, matcher, here, &beginning.name)?;
            Ok(Ended {
                here: copy_here(alloc, matcher, &beginning.around)?,
                flaw,
            })
        }
        Held::Lost(around) => Ok(Ended {
            here: copy_here(alloc, matcher, around)?,
            flaw: None,
        }),
    }
}

// The attributes that are missing.
#[tactic(auto, using(crate::proofs::RequiredNames::required_is))]
fn missing<M: Matcher>(
    alloc: Global,
    matcher: &mut M,
    here: &M::State,
) -> Result<Option<Flaw>, NoMemory>
    requires { M.is_state matcher.old here.now }
    ensures later { M.later matcher.old matcher.new }
    ensures flaw { IfOk result (λ found. found
        ≡ flaw Kind.MissingAttributes (names_text (required_names (M.means matcher.old here.now)))) }
{
    let names = matcher.required(alloc, here)?;
    let detail = names_detail(alloc, names.as_slice())?;
    Ok(Some(Flaw {
        kind: Kind::MissingAttributes,
        detail,
    }))
}

// Where a tag ends in a frame.
#[tactic(auto, unfolding(crate::specs::Table::tag_ended))]
fn end_tag<M: Matcher>(
    alloc: Global,
    matcher: &mut M,
    here: &M::State,
) -> Result<Turn<M::State>, NoMemory>
    requires { M.is_state matcher.old here.now }
    ensures later { M.later matcher.old matcher.new }
    ensures gives { IfOk result (TurnIs (M.is_state matcher.new) (M.means matcher.new) (t.tag_ended (M.means matcher.old here.now))) }
{
    if let Some(state) = matcher.tag_end(alloc, here)? {
        return Ok(Turn {
            next: Some(state),
            flaw: None,
        });
    }
    let flaw = missing(alloc, matcher, here)?;
    Ok(Turn {
        next: Some(matcher.tag_end_missing(alloc, here)?),
        flaw,
    })
}

// Where characters stand in a frame.
#[tactic(auto, unfolding(crate::specs::Table::charred))]
fn chars<M: Matcher>(
    alloc: Global,
    matcher: &mut M,
    here: &M::State,
    text: &[u8],
) -> Result<Turn<M::State>, NoMemory>
    requires here { M.is_state matcher.old here.now }
    requires text { IsUtf8 text.now }
    ensures later { M.later matcher.old matcher.new }
    ensures gives { IfOk result (TurnIs (M.is_state matcher.new) (M.means matcher.new)
        (t.charred text.now (M.means matcher.old here.now))) }
{
    if let Some(state) = matcher.chars(alloc, here, text)? {
        return Ok(Turn {
            next: Some(state),
            flaw: None,
        });
    }
    let detail = Detail::new();
    if let Some(state) = matcher.chars_any(alloc, here)? {
        return Ok(Turn {
            next: Some(state),
            flaw: Some(Flaw {
                kind: Kind::BadValue,
                detail,
            }),
        });
    }
    Ok(Turn {
        next: None,
        flaw: Some(Flaw {
            kind: Kind::TextNotAllowed,
            detail,
        }),
    })
}

// Where an attribute stands in a frame.
#[tactic(auto, unfolding(crate::specs::Table::attributed))]
fn attribute<M: Matcher>(
    alloc: Global,
    matcher: &mut M,
    here: &M::State,
    name: &Name,
    value: &[u8],
) -> Result<Turn<M::State>, NoMemory>
    requires here { M.is_state matcher.old here.now }
    requires text { IsUtf8 value.now }
    ensures later { M.later matcher.old matcher.new }
    ensures gives { IfOk result (TurnIs (M.is_state matcher.new) (M.means matcher.new)
        (t.attributed name.now value.now (M.means matcher.old here.now))) }
{
    if let Some(state) = matcher.attribute(alloc, here, name, value)? {
        return Ok(Turn {
            next: Some(state),
            flaw: None,
        });
    }
    if let Some(state) = matcher.attribute_any(alloc, here, name)? {
        let flaw = named(alloc, Kind::BadValue, name)?;
        return Ok(Turn {
            next: Some(state),
            flaw,
        });
    }
    let flaw = named(alloc, Kind::UnknownAttribute, name)?;
    Ok(Turn { next: None, flaw })
}

/// Where an event neither begins nor ends an element.
pub fn pass<M: Matcher>(
    alloc: Global,
    matcher: &mut M,
    here: &Option<M::State>,
    event: &Event,
) -> Result<Turn<M::State>, NoMemory>
    requires here { IfSome here.now (M.is_state matcher.old) }
    requires text { EventIsText event.now }
    ensures later { M.later matcher.old matcher.new }
    ensures gives { IfOk result (TurnIs (M.is_state matcher.new) (M.means matcher.new)
        (t.passed (option_map (M.means matcher.old) here.now) event.now)) }
{
    let Some(state) = here else {
        return Ok(Turn {
            next: None,
            flaw: None,
        });
    };
    match event {
        Event::Att(name, value) => attribute(alloc, matcher, state, name, value.as_slice()),
        Event::TagEnd => end_tag(alloc, matcher, state),
        Event::Chars(text) => chars(alloc, matcher, state, text.as_slice()),
        Event::Enter(_) => Ok(Turn {
            next: None,
            flaw: None,
        }),
        Event::EnterLost => Ok(Turn {
            next: None,
            flaw: None,
        }),
        Event::Leave => Ok(Turn {
            next: None,
            flaw: None,
        }),
    }
}
