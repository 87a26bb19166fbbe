//! All lists of a few events over small schemas: how many of the longest are followed, and what one matcher answers to them is what
//! another one does.

use crate::matchers::{Made, matcher_of};
use crate::reader::{answer, number_told};
use nx_base::memory::NoMemory;
use rng_live::matcher::Matcher;
use std::alloc::Global;
use std::test::Fail;

/// How many of the lists of five are followed, the events that they are made of, and the schema, of elements a and b and the
/// attribute x. Which attributes are required and which elements needed is asked as an event is. Between two is a blank line. The
/// counts are those of a program that wrote down all trees.
pub(crate) const FIVE_EVENTS: &str = r##"
0 of <a|<b|@x="v"|>|"t"|</|required|needed|needed a|needed b
element a { empty }

2 of <a|<b|@x="v"|>|"t"|</|required|needed|needed a|needed b
element a { text }

1 of <a|<b|@x="v"|>|"t"|</|required|needed|needed a|needed b
element a { attribute x { text }, element b { empty }* }

10 of <a|<b|@x="v"|>|"t"|</|required|needed|needed a|needed b
element a { attribute x { "v" }?, (text | element b { text })* }

2 of <a|<b|@x="v"|>|"t"|</|required|needed|needed a|needed b
element a { (attribute x { text } | attribute x { "w" }), ("t" | element b { empty }) }

2 of <a|<b|@x="v"|>|"t"|</|required|needed|needed a|needed b
element a { list { "t"+ } | element b { attribute x { text } } | element b { empty } }

12 of <a|<b|@x="v"|>|"t"|</|required|needed|needed a|needed b
start = p  p = element a { p? & element b { text }? & text }

7 of <a|<b|@x="v"|>|"t"|</|required|needed|needed a|needed b
start = p | q  p = element a { (p | q)*, element b { empty } }  q = element a { text | (p | q)* }
"##;

/// The same for lists of four. Their events are all names that a schema mentions, as elements and as attributes, strings and values
/// that are blank, and the text x. The counts were worked out by hand.
pub(crate) const FOUR_EVENTS: &str = r##"
2 of <doc|<em|<id|<para|<title|@doc=" "|@doc="x"|@em=" "|@em="x"|@id=" "|@id="x"|@para=" "|@para="x"|@title=" "|@title="x"|>|" "|"x"|</|required|needed|needed doc|needed em|needed id|needed para|needed title
start = element doc { attribute id { xsd:NCName }, element title { text }, element para { (text | element em { text })* }* }

2 of <a|@a=" "|@a="x"|>|" "|"x"|</|required|needed|needed a
element a { empty }

2 of <a|<b|@a=" "|@a="x"|>|" "|"x"|</|required|needed|needed a|needed b
start = element a { b? }  b = element b { b }

5 of <r|<x|<y|@r=" "|@r="x"|@x=" "|@x="x"|@y=" "|@y="x"|>|" "|"x"|</|required|needed|needed r|needed x|needed y
element r { element x { text } & element y { text } }

4 of <n|@n=" "|@n="x"|>|" "|"x"|"7"|</|required|needed|needed n
element n { xsd:int { minInclusive = "5" } }

8 of <a|<x|<y|@a=" "|@a="x"|@x=" "|@x="x"|@y=" "|@y="x"|>|" "|"x"|</|required|needed|needed a|needed x|needed y
element a { attribute x { text }, attribute y { text } }
"##;

/// What stands behind a list that is followed.
const FOLLOWED: &str = " => -";

/// Adds what is answered to events; false where one of them is none, or memory is wanting.
fn tell<M: Matcher>(alloc: Global, matcher: &mut M, events: &str, told: &mut String) -> bool {
    match answer(alloc, matcher, events) {
        Ok(answer) => {
            answer.as_str() != "no event" && write!(told, "{events} => {answer}\n").is_ok()
        }
        Err(NoMemory) => false,
    }
}

/// Adds what is answered to a list with one event more.
fn tell_longer<M: Matcher>(
    alloc: Global,
    matcher: &mut M,
    list: &str,
    event: &str,
    told: &mut String,
) -> bool {
    match format!(in alloc; "{list}  {event}") {
        Ok(events) => tell(alloc, matcher, events.as_str(), told),
        Err(_) => false,
    }
}

/// Adds what is answered to a list with each event more.
fn tell_each<M: Matcher>(
    alloc: Global,
    matcher: &mut M,
    list: &str,
    events: &str,
    told: &mut String,
) -> bool {
    for event in events.split("|") {
        if !tell_longer(alloc, matcher, list, event, told) {
            return false;
        }
    }
    true
}

/// Adds what is answered to those of the lists that are followed, with each event more.
fn tell_all<M: Matcher>(
    alloc: Global,
    matcher: &mut M,
    lists: &str,
    events: &str,
    told: &mut String,
) -> bool {
    for line in lists.lines() {
        if let Some(list) = line.strip_suffix(FOLLOWED) {
            if !tell_each(alloc, matcher, list, events, told) {
                return false;
            }
        }
    }
    true
}

/// Those lists with one event more: a line for each, with what is answered.
fn longer<M: Matcher>(alloc: Global, matcher: &mut M, lists: &str, events: &str) -> Option<String> {
    let mut told = String::new(alloc);
    if tell_all(alloc, matcher, lists, events, &mut told) {
        Some(told)
    } else {
        None
    }
}

/// Whether this is what is answered to lists with one event more.
fn is_told<M: Matcher>(
    alloc: Global,
    matcher: &mut M,
    lists: &str,
    events: &str,
    told: &str,
) -> bool {
    match longer(alloc, matcher, lists, events) {
        Some(again) => again.as_str() == told,
        None => false,
    }
}

/// Those lists with one event more, where two matchers answer to them alike.
fn longer_of_both<A: Matcher, B: Matcher>(
    alloc: Global,
    one: &mut A,
    other: &mut B,
    lists: &str,
    events: &str,
) -> Option<String> {
    let told = longer(alloc, one, lists, events)?;
    if is_told(alloc, other, lists, events, told.as_str()) {
        Some(told)
    } else {
        None
    }
}

/// The lists of so many events, where two matchers answer alike to them and to all that are shorter.
fn longest_of_both<A: Matcher, B: Matcher>(
    alloc: Global,
    one: &mut A,
    other: &mut B,
    events: &str,
    length: usize,
) -> Option<String> {
    let mut lists = format!(in alloc; "copy{FOLLOWED}").ok()?;
    for _ in 0..length {
        lists = longer_of_both(alloc, one, other, lists.as_str(), events)?;
    }
    Some(lists)
}

/// How many of the lists are followed.
fn followed(lists: &str) -> usize {
    let mut count = 0usize;
    for line in lists.lines() {
        if line.ends_with(FOLLOWED) {
            count = count.saturating_add(1);
        }
    }
    count
}

fn is_number(alloc: Global, number: usize, wanted: &str) -> bool {
    match number_told(alloc, number) {
        Ok(told) => told.as_str() == wanted,
        Err(NoMemory) => false,
    }
}

/// Whether two matchers answer alike to all lists of up to so many events and to what is required and needed behind them, and follow
/// so many of the longest.
fn are_alike<A: Matcher, B: Matcher>(
    alloc: Global,
    one: &mut A,
    other: &mut B,
    count: &str,
    events: &str,
    length: usize,
) -> bool {
    match longest_of_both(alloc, one, other, events, length) {
        Some(lists) => {
            is_number(alloc, followed(lists.as_str()), count)
                && longer_of_both(alloc, one, other, lists.as_str(), "required|needed").is_some()
        }
        None => false,
    }
}

/// The same for the matchers of a schema, with the count and the events in front of it.
fn are_made_alike<A: Made, B: Made>(alloc: Global, group: &str, length: usize) -> Option<bool> {
    let (head, schema) = group.split_once("\n")?;
    let (count, events) = head.split_once(" of ")?;
    let mut one = matcher_of::<A>(alloc, schema)?;
    let mut other = matcher_of::<B>(alloc, schema)?;
    Some(are_alike(alloc, &mut one, &mut other, count, events, length))
}

/// Those schemas of a table whose matchers don't answer alike, or otherwise than it is counted.
pub(crate) fn wrong_lists<A: Made, B: Made>(
    alloc: Global,
    table: &str,
    length: usize,
) -> Result<String, Fail> {
    let mut wrong = String::new(alloc);
    for group in table.trim().split("\n\n") {
        if are_made_alike::<A, B>(alloc, group, length) != Some(true) {
            write!(wrong, "{group}\n")?;
        }
    }
    Ok(wrong)
}
