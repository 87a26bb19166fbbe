//! Each place of the table against what is offered there.

ghost use Rattle.std.specs.Prelude.{◌≡◌, ◌<◌};

use crate::places::PLACES;
use crate::schema::matcher_of;
use deriv_plain::plain::Plain;
use nx_base::offer::{Offer, Offers};
use nx_base::printed_name::name_text;
use nx_base::sequence::Bytes;
use nx_base::steps::Steps;
use nx_complete::place::offers_from_start;
use nx_recover::recover::Recover;
use nx_text::text::Text;
use std::alloc::Global;
use std::marker::Brand;
use std::process::Abort;
use std::sync::ledger::{Blank, Ledger};
use std::test::Fail;

/// Adds a word and a text.
fn tell(told: &mut String, word: &str, text: &Bytes) -> Result<(), Fail> {
    told.push_str(word)?;
    told.push_str(str::from_utf8(text.as_slice())?)?;
    Ok(())
}

fn tell_offer(alloc: Global, told: &mut String, offer: &Offer) -> Result<(), Fail> {
    match offer {
        Offer::Name(name) => tell(told, "name ", &name_text(alloc, name)?),
        Offer::AnyIn(ns) => tell(told, "any-in ", ns),
        Offer::AnyElse => Ok(told.push_str("any-else")?),
        Offer::Value(text) => tell(told, "value ", text),
        Offer::End(name) => tell(told, "end ", name),
    }
}

/// The offers with commas between.
fn told(alloc: Global, offers: &[Offer]) -> Result<String, Fail> {
    let mut told = String::new(alloc);
    for offer in offers {
        if !told.is_empty() {
            told.push_str(", ")?;
        }
        tell_offer(alloc, &mut told, offer)?;
    }
    if told.is_empty() {
        told.push_str("nothing")?;
    }
    Ok(told)
}

/// What is offered at the caret of a text.
fn offered<L: Ledger>(
    alloc: Global,
    machine: &mut Recover<Plain>,
    text: &str,
    steps: &mut Steps<L>,
) -> Result<String, Fail> {
    let (before, behind) = text.split_once("|").ok_or("no caret")?;
    let mut whole = Text::new(alloc);
    whole.insert(0, before)?;
    let at = whole.len();
    whole.insert(at, behind)?;
    if !whole.is_place(at) {
        return Ok(format!(in alloc; "no place")?);
    }
    match offers_from_start(alloc, machine, &whole, at, steps)? {
        Offers::Nowhere => Ok(format!(in alloc; "none")?),
        Offers::List(offers) => told(alloc, offers.as_slice()),
    }
}

/// Adds a case that is answered otherwise, with its answer.
fn compare_case<L: Ledger>(
    alloc: Global,
    machine: &mut Recover<Plain>,
    case: &str,
    steps: &mut Steps<L>,
    wrong: &mut String,
) -> Result<(), Fail> {
    let (text, want) = case.split_once(" => ").ok_or("no answer")?;
    let got = offered(alloc, machine, text, steps)?;
    if got.as_str() != want {
        let got = got.as_str();
        write!(wrong, "{case}, but: {got}\n")?;
    }
    Ok(())
}

/// Adds those of a schema and the cases behind it, or that it can't be used.
fn compare_group<L: Ledger>(
    alloc: Global,
    group: &str,
    steps: &mut Steps<L>,
    wrong: &mut String,
) -> Result<(), Fail> {
    let (schema, cases) = group.split_once("\n").ok_or("no case")?;
    let Some(matcher) = matcher_of(alloc, schema) else {
        return Ok(write!(wrong, "refused: {schema}\n")?);
    };
    let mut machine = Recover::new(Some(matcher));
    for case in cases.lines() {
        let case = case.strip_prefix("  ").unwrap_or(case);
        compare_case(alloc, &mut machine, case, steps, wrong)?;
    }
    Ok(())
}

fn compare<R: Abort, L: Ledger>(rt: &R, alloc: Global, blank: Blank) -> Result<(), Fail>
    requires name { blank.name ≡ L.name }
    requires parts { blank.parts ≡ L.parts }
    requires some { 0 < L.parts }
{
    let mut steps = Steps::<L>::new(blank);
    let mut wrong = String::new(alloc);
    for group in PLACES.split("\n\n") {
        compare_group(alloc, group, &mut steps, &mut wrong)?;
    }
    assert_eq!(rt; wrong.as_str(), "");
    Ok(())
}

#[test]
fn places_are_offered_what_may_stand_there(rt: HostRuntime) -> Result<(), Fail> {
    compare::<_, Brand>(&rt, rt.alloc(), Blank::new(1))
}
