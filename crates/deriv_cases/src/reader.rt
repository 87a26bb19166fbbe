//! Cases as text, and what a matcher answers to them.
//!
//! Between events stand two blanks:
//!
//! | event | says |
//! |---|---|
//! | `!a` | in front of all others: the frame begins with an element a, whichever definition has it |
//! | `<a` | the start of an element a |
//! | `<?a` | the same, behind children that are left out |
//! | `@x="v"` | an attribute |
//! | `@?x` | the same, whatever its value |
//! | `>` | the end of a start tag |
//! | `>?` | the same, behind attributes that are left out |
//! | `"text"` | a string |
//! | `"?"` | a string that isn't blank, whichever |
//! | `</` | the end of an element |
//! | `</?` | the same, behind children that are left out |
//! | `copy` | none: the matcher goes on with a copy of its state, which is to be the same |
//! | `required` | none: the answer is the list of attributes that are required, `nothing` where there are none |
//! | `needed a` | none: the answer is the list of elements that are needed up to an element a, `nothing` where there are none |
//! | `needed` | the same, up to the end of the element that is open |
//!
//! A name may have its namespace and a colon in front. The answer is the number of the first event, from 1, that the matcher answers
//! none, or `-`.

ghost use Rattle.std.specs.Prelude.{IfSome, IfOk, IsUtf8};

use nx_base::memory::NoMemory;
use nx_base::name::{Name, Names};
use nx_base::sequence::Bytes;
use rng_live::matcher::Matcher;
use rng_live::shared_names::SharedNames;
use std::alloc::Global;

/// What comes of a name.
#[derive(Clone, Copy)]
enum Named<'t> {
    Known,
    Enter,
    SkipTo,
    Attribute(&'t str),
    AnyValue,
}

/// An event, or another move.
enum Move<'t> {
    Named(Named<'t>, &'t str),
    TagEnd,
    MissingAttributes,
    Chars(&'t str),
    AnyString,
    Leave,
    MissingContent,
    Copy,
}

fn quoted(text: &str) -> Option<&str> {
    text.strip_prefix("\"")?.strip_suffix("\"")
}

fn attribute(text: &str) -> Option<Move<'_>> {
    if let Some(name) = text.strip_prefix("?") {
        return Some(Move::Named(Named::AnyValue, name));
    }
    let (name, value) = text.split_once("=")?;
    Some(Move::Named(Named::Attribute(quoted(value)?), name))
}

/// The move that holds a name or a text.
fn longer_move(event: &str) -> Option<Move<'_>> {
    if let Some(name) = event.strip_prefix("!") {
        return Some(Move::Named(Named::Known, name));
    }
    if let Some(name) = event.strip_prefix("<?") {
        return Some(Move::Named(Named::SkipTo, name));
    }
    if let Some(name) = event.strip_prefix("<") {
        return Some(Move::Named(Named::Enter, name));
    }
    if let Some(text) = event.strip_prefix("@") {
        return attribute(text);
    }
    Some(Move::Chars(quoted(event)?))
}

fn move_of(event: &str) -> Option<Move<'_>> {
    match event {
        ">" => Some(Move::TagEnd),
        ">?" => Some(Move::MissingAttributes),
        "\"?\"" => Some(Move::AnyString),
        "</" => Some(Move::Leave),
        "</?" => Some(Move::MissingContent),
        "copy" => Some(Move::Copy),
        _ => longer_move(event),
    }
}

fn text_of(alloc: Global, text: &str) -> Result<Bytes, NoMemory>
    ensures { IfOk result (λ made. IsUtf8 made) }
{
    Ok(Bytes::from_vec(Vec::from_slice(alloc, text.as_bytes())?))
}

fn name_of(alloc: Global, text: &str) -> Result<Name, NoMemory> {
    let (ns, local) = text.split_once(":").unwrap_or(("", text));
    Ok(Name {
        ns: text_of(alloc, ns)?,
        local: text_of(alloc, local)?,
    })
}

/// Adds a name, with a blank before it where it isn't the first, and answers whether it could.
fn tell_name(told: &mut String, name: &Name) -> bool {
    let gap = if told.is_empty() { "" } else { " " };
    let ns = str::from_utf8(name.ns.as_slice()).unwrap_or("no text");
    let local = str::from_utf8(name.local.as_slice()).unwrap_or("no text");
    if ns.is_empty() {
        write!(told, "{gap}{local}").is_ok()
    } else {
        write!(told, "{gap}{ns}:{local}").is_ok()
    }
}

fn tell_names(told: &mut String, names: &[Name]) -> bool {
    for name in names {
        if !tell_name(told, name) {
            return false;
        }
    }
    !names.is_empty() || told.push_str("nothing").is_ok()
}

/// A list of names that are needed, with a blank between two.
fn needed_told(alloc: Global, names: Result<SharedNames, NoMemory>) -> Result<String, NoMemory> {
    let mut told = String::new(alloc);
    match names {
        Ok(names) if tell_names(&mut told, names.as_slice()) => Ok(told),
        _ => Err(NoMemory),
    }
}

/// A list of names, with a blank between two.
fn names_told(alloc: Global, names: Result<Names, NoMemory>) -> Result<String, NoMemory> {
    let mut told = String::new(alloc);
    match names {
        Ok(names) if tell_names(&mut told, names.as_slice()) => Ok(told),
        _ => Err(NoMemory),
    }
}

fn word_told(alloc: Global, word: &str) -> Result<String, NoMemory> {
    Ok(String::from_str(alloc, word)?)
}

pub(crate) fn number_told(alloc: Global, number: usize) -> Result<String, NoMemory> {
    Ok(format!(in alloc; "{number}")?)
}

/// The state behind what comes of a name. The frame that begins with a known one has no state before it.
fn behind_name<M: Matcher>(
    alloc: Global,
    matcher: &mut M,
    state: &M::State,
    by: Named<'_>,
    name: &Name,
) -> Result<Option<M::State>, NoMemory>
    requires { M.is_state matcher.old state.now }
    ensures { IfOk result (λ next. IfSome next (M.is_state matcher.new)) }
{
    match by {
        Named::Known => matcher.begin_known(alloc, name),
        Named::Enter => matcher.enter(alloc, state, name),
        Named::SkipTo => matcher.enter_skip(alloc, state, name),
        Named::Attribute(value) => matcher.attribute(alloc, state, name, value.as_bytes()),
        Named::AnyValue => matcher.attribute_any(alloc, state, name),
    }
}

/// The same, and the name is let go.
fn moved_by_name<M: Matcher>(
    alloc: Global,
    matcher: &mut M,
    state: &M::State,
    by: Named<'_>,
    name: Result<Name, NoMemory>,
) -> Result<Option<M::State>, NoMemory>
    requires { M.is_state matcher.old state.now }
    ensures { IfOk result (λ next. IfSome next (M.is_state matcher.new)) }
{
    match name {
        Ok(name) => {
            let next = behind_name(alloc, matcher, state, by, &name);
            drop(name);
            next
        }
        Err(fault) => Err(fault),
    }
}

/// The state behind a move.
fn moved<M: Matcher>(
    alloc: Global,
    matcher: &mut M,
    state: &M::State,
    by: Move<'_>,
) -> Result<Option<M::State>, NoMemory>
    requires { M.is_state matcher.old state.now }
    ensures { IfOk result (λ next. IfSome next (M.is_state matcher.new)) }
{
    match by {
        Move::Named(by, name) => moved_by_name(alloc, matcher, state, by, name_of(alloc, name)),
        Move::TagEnd => matcher.tag_end(alloc, state),
        Move::MissingAttributes => Ok(Some(matcher.tag_end_missing(alloc, state)?)),
        Move::Chars(text) => matcher.chars(alloc, state, text.as_bytes()),
        Move::AnyString => matcher.chars_any(alloc, state),
        Move::Leave => matcher.leave(alloc, state),
        Move::MissingContent => Ok(Some(matcher.leave_skip(alloc, state)?)),
        Move::Copy => same_copy(alloc, matcher, state),
    }
}

/// A copy of the state, unless the matcher tells the two apart.
fn same_copy<M: Matcher>(
    alloc: Global,
    matcher: &M,
    state: &M::State,
) -> Result<Option<M::State>, NoMemory>
    requires { M.is_state matcher.now state.now }
    ensures { IfOk result (λ next. IfSome next (M.is_state matcher.now)) }
{
    let copy = matcher.copy(alloc, state)?;
    let same = matcher.same(state, &copy);
    if same { Ok(Some(copy)) } else { Ok(None) }
}

/// The move of this number that an event tells. A known name stands in front of all others.
fn move_at(number: usize, event: &str) -> Option<Move<'_>> {
    if number > 1 && event.starts_with("!") {
        return None;
    }
    move_of(event)
}

/// The name up to whose element an event asks what is needed; none where it is another event, and an empty one up to the end.
fn skip_of(event: &str) -> Option<&str> {
    let name = event.strip_prefix("needed")?;
    if name.is_empty() {
        return Some(name);
    }
    name.strip_prefix(" ")
}

/// What is needed up to an element of a name.
fn needed_up_to<M: Matcher>(
    alloc: Global,
    matcher: &mut M,
    state: &M::State,
    name: Result<Name, NoMemory>,
) -> Result<SharedNames, NoMemory>
    requires { M.is_state matcher.old state.now }
{
    match name {
        Ok(name) => {
            let names = matcher.needed(alloc, state, Some(&name));
            drop(name);
            names
        }
        Err(fault) => Err(fault),
    }
}

/// What is needed up to an element of a name, or, where that is empty, up to the end.
fn needed_names<M: Matcher>(
    alloc: Global,
    matcher: &mut M,
    state: &M::State,
    name: &str,
) -> Result<SharedNames, NoMemory>
    requires { M.is_state matcher.old state.now }
{
    if name.is_empty() {
        return matcher.needed(alloc, state, None);
    }
    needed_up_to(alloc, matcher, state, name_of(alloc, name))
}

/// What a matcher answers to events.
pub(crate) fn answer<M: Matcher>(
    alloc: Global,
    matcher: &mut M,
    events: &str,
) -> Result<String, NoMemory> {
    let mut state = matcher.begin(alloc)?;
    let mut number = 1usize;
    for event in events.split("  ") {
        if event == "required" {
            return names_told(alloc, matcher.required(alloc, &state));
        }
        if let Some(name) = skip_of(event) {
            return needed_told(alloc, needed_names(alloc, matcher, &state, name));
        }
        let Some(by) = move_at(number, event) else {
            return word_told(alloc, "no event");
        };
        match moved(alloc, matcher, &state, by)? {
            Some(next) => state = next,
            None => return number_told(alloc, number),
        }
        number = number.saturating_add(1);
    }
    word_told(alloc, "-")
}

/// Whether a matcher answers this to events.
pub(crate) fn answers<M: Matcher>(
    alloc: Global,
    matcher: &mut M,
    events: &str,
    wanted: &str,
) -> bool {
    match answer(alloc, matcher, events) {
        Ok(told) => told.as_str() == wanted,
        Err(NoMemory) => false,
    }
}

/// The state behind events; none where one of them isn't followed.
pub(crate) fn state_behind<M: Matcher>(
    alloc: Global,
    matcher: &mut M,
    events: &str,
) -> Option<M::State> {
    let mut state = matcher.begin(alloc).ok()?;
    for event in events.split("  ") {
        let by = move_of(event)?;
        state = moved(alloc, matcher, &state, by).ok()??;
    }
    Some(state)
}
