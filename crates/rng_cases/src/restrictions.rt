//! Schemas, built by hand in the simple form, that break each restriction, and schemas at the limits of size.

use crate::building::{
    XSD, attribute, choice, element, group, interleave, list, named_element, numbered, one,
    one_or_more, only, typed, with,
};
use nx_base::memory::NoMemory;
use rng_core::grammar::{Defs, Grammar, Pat};
use rng_core::name_class::NameClass;
use rng_restrict::check::check;
use rng_restrict::fault::RestrictFault;
use rng_types::datatype::Datatype;
use std::alloc::Global;

fn text_attribute(alloc: Global, local: &str) -> Result<Pat, NoMemory> {
    attribute(alloc, one(alloc, "", local), Ok(Pat::Text))
}

fn any_attribute(alloc: Global) -> Result<Pat, NoMemory> {
    attribute(alloc, Ok(NameClass::AnyName), Ok(Pat::Text))
}

// attribute * { text }, attribute * { text }
fn wild(alloc: Global) -> Result<Pat, NoMemory> {
    group(alloc, any_attribute(alloc), any_attribute(alloc))
}

// What the check answers.
fn answer(alloc: Global, grammar: &Grammar) -> &'static str {
    match check(alloc, grammar) {
        Ok(()) => "allowed",
        Err(RestrictFault::Path) => "Path",
        Err(RestrictFault::Mixture) => "Mixture",
        Err(RestrictFault::AttributeOverlap) => "AttributeOverlap",
        Err(RestrictFault::WildcardOnce) => "WildcardOnce",
        Err(RestrictFault::InterleaveOverlap) => "InterleaveOverlap",
        Err(RestrictFault::TextTwice) => "TextTwice",
        Err(RestrictFault::NoMemory) => "NoMemory",
    }
}

// Element a with this content, and beside it element b { empty } of number 1, element * { text } of number 2, element x { text } of
// number 3, and of number 4 an element whose content breaks two restrictions.
fn beside_four(alloc: Global, content: Result<Pat, NoMemory>) -> Result<Defs, NoMemory> {
    let defs = only(alloc, named_element(alloc, "a", content));
    let defs = with(defs, named_element(alloc, "b", Ok(Pat::Empty)));
    let defs = with(defs, element(Ok(NameClass::AnyName), Ok(Pat::Text)));
    let defs = with(defs, named_element(alloc, "x", Ok(Pat::Text)));
    with(defs, named_element(alloc, "y", wild(alloc)))
}

// What the check answers of a grammar that begins with the element of this number.
fn judged_from(alloc: Global, number: u32, defs: Result<Defs, NoMemory>) -> &'static str {
    let start = Pat::Ref(number);
    match defs {
        Ok(defs) => answer(alloc, &Grammar { start, defs }),
        Err(NoMemory) => "no grammar",
    }
}

// Whether the check answers this of element a with this content.
fn is_judged(alloc: Global, content: Result<Pat, NoMemory>, wanted: &str) -> bool {
    judged_from(alloc, 0, beside_four(alloc, content)) == wanted
}

// list { element b { empty } }
fn listed_element(alloc: Global) -> Result<Pat, NoMemory> {
    list(alloc, Ok(Pat::Ref(1)))
}

// (attribute x { text }, element b { empty })+
fn repeated_attribute(alloc: Global) -> Result<Pat, NoMemory> {
    let both = group(alloc, text_attribute(alloc, "x"), Ok(Pat::Ref(1)));
    one_or_more(alloc, both)
}

// xsd:int
fn integer(alloc: Global) -> Result<Pat, NoMemory> {
    match Datatype::named(alloc, XSD, "int", &[]) {
        Ok(int) => typed(alloc, &int),
        Err(_) => Err(NoMemory),
    }
}

// element b { empty }, xsd:int
fn element_and_data(alloc: Global) -> Result<Pat, NoMemory> {
    group(alloc, Ok(Pat::Ref(1)), integer(alloc))
}

// attribute NAME { text }, attribute NAME { text }
fn attribute_twice(alloc: Global, local: &str) -> Result<Pat, NoMemory> {
    group(
        alloc,
        text_attribute(alloc, local),
        text_attribute(alloc, local),
    )
}

// attribute x { text } | attribute x { text }
fn either_attribute(alloc: Global) -> Result<Pat, NoMemory> {
    choice(
        alloc,
        text_attribute(alloc, "x"),
        text_attribute(alloc, "x"),
    )
}

// attribute * { text }+
fn repeated_wildcard(alloc: Global) -> Result<Pat, NoMemory> {
    one_or_more(alloc, any_attribute(alloc))
}

// element * { text } & element x { text }
fn overlapping_elements(alloc: Global) -> Result<Pat, NoMemory> {
    interleave(alloc, Ok(Pat::Ref(2)), Ok(Pat::Ref(3)))
}

// text & mixed { empty }
fn text_twice(alloc: Global) -> Result<Pat, NoMemory> {
    let mixed = interleave(alloc, Ok(Pat::Text), Ok(Pat::Empty));
    interleave(alloc, Ok(Pat::Text), mixed)
}

// text & attribute x { text }
fn text_and_attribute(alloc: Global) -> Result<Pat, NoMemory> {
    interleave(alloc, Ok(Pat::Text), text_attribute(alloc, "x"))
}

#[test]
fn refuses_what_breaks_a_restriction(rt: HostRuntime) {
    let alloc = rt.alloc();
    assert!(rt;
        is_judged(alloc, listed_element(alloc), "Path")
            && is_judged(alloc, repeated_attribute(alloc), "Path")
            && is_judged(alloc, element_and_data(alloc), "Mixture")
            && is_judged(alloc, attribute_twice(alloc, "x"), "AttributeOverlap")
            && is_judged(alloc, any_attribute(alloc), "WildcardOnce")
            && is_judged(alloc, overlapping_elements(alloc), "InterleaveOverlap")
            && is_judged(alloc, text_twice(alloc), "TextTwice")
    );
}

// No attribute is named `xmlns`, so two of that name don't overlap.
#[test]
fn allows_what_breaks_none(rt: HostRuntime) {
    let alloc = rt.alloc();
    assert!(rt;
        is_judged(alloc, attribute_twice(alloc, "xmlns"), "allowed")
            && is_judged(alloc, either_attribute(alloc), "allowed")
            && is_judged(alloc, repeated_wildcard(alloc), "allowed")
            && is_judged(alloc, text_and_attribute(alloc), "allowed")
    );
}

// An attribute with a number in its name.
fn numbered_attribute(alloc: Global, number: u32) -> Result<Pat, NoMemory> {
    attribute(alloc, numbered(alloc, "", "a", number), Ok(Pat::Text))
}

// So many attributes in a group that nests to the left.
fn many_attributes(alloc: Global, count: u32) -> Result<Pat, NoMemory> {
    let mut content = Ok(Pat::Empty);
    for i in 0..count {
        content = group(alloc, content, numbered_attribute(alloc, i));
    }
    content
}

// The same, and the first of them once more.
fn one_too_many(alloc: Global, count: u32) -> Result<Pat, NoMemory> {
    group(
        alloc,
        many_attributes(alloc, count),
        text_attribute(alloc, "a0"),
    )
}

#[test]
fn judges_a_wide_group(rt: HostRuntime) {
    let alloc = rt.alloc();
    assert!(rt;
        is_judged(alloc, many_attributes(alloc, 2_000), "allowed")
            && is_judged(alloc, one_too_many(alloc, 2_000), "AttributeOverlap")
    );
}

// So many groups, each the first side of the next.
fn left_groups(alloc: Global, count: u32) -> Result<Pat, NoMemory> {
    let mut left = Ok(Pat::Text);
    for _ in 0..count {
        left = group(alloc, left, Ok(Pat::Text));
    }
    left
}

// So many interleaves, each the second side of the next.
fn right_interleaves(alloc: Global, count: u32) -> Result<Pat, NoMemory> {
    let mut right = Ok(Pat::Ref(1));
    for _ in 0..count {
        right = interleave(alloc, Ok(Pat::Empty), right);
    }
    right
}

#[test]
fn judges_a_deep_pattern(rt: HostRuntime) {
    let alloc = rt.alloc();
    assert!(rt;
        is_judged(alloc, left_groups(alloc, 7_999), "allowed")
            && is_judged(alloc, right_interleaves(alloc, 7_999), "allowed")
    );
}

// One element or another, by their numbers.
fn either_of(alloc: Global, first: u32, second: u32) -> Result<Pat, NoMemory> {
    choice(alloc, Ok(Pat::Ref(first)), Ok(Pat::Ref(second)))
}

// Each definition refers to those of four other numbers.
fn web(alloc: Global, count: u32) -> Result<Defs, NoMemory> {
    let mut defs = Ok(Defs::new(alloc));
    for i in 0..count {
        let front = either_of(alloc, (i + 1) % count, i.wrapping_mul(7) % count);
        let back = either_of(alloc, i.wrapping_mul(31) % count, i / 2);
        let content = one_or_more(alloc, choice(alloc, front, back));
        defs = with(defs, element(numbered(alloc, "", "a", i), content));
    }
    defs
}

#[test]
fn judges_many_definitions(rt: HostRuntime) {
    assert!(rt; judged_from(rt.alloc(), 0, web(rt.alloc(), 5_000)) == "allowed");
}

// A choice of references to the definitions of these numbers.
fn any_of(alloc: Global, from: u32, to: u32) -> Result<Pat, NoMemory> {
    let mut all = Ok(Pat::Ref(from));
    for number in from..to {
        all = choice(alloc, all, Ok(Pat::Ref(number)));
    }
    all
}

// The same choice 4,000 times over.
fn repeated(alloc: Global, from: u32, to: u32) -> Result<Pat, NoMemory> {
    let mut all = Ok(Pat::Ref(from));
    for _ in 0..4_000 {
        all = choice(alloc, all, any_of(alloc, from, to));
    }
    all
}

// An interleave of two such choices.
fn two_repeated(alloc: Global) -> Result<Pat, NoMemory> {
    interleave(alloc, repeated(alloc, 0, 20), repeated(alloc, 20, 40))
}

// 40 empty elements, and one that holds that interleave.
fn referring(alloc: Global) -> Result<Defs, NoMemory> {
    let mut defs = Ok(Defs::new(alloc));
    for i in 0u32..40 {
        defs = with(defs, element(numbered(alloc, "", "e", i), Ok(Pat::Empty)));
    }
    with(defs, named_element(alloc, "all", two_repeated(alloc)))
}

// 80,000 references on each side of an interleave, to 20 definitions.
#[test]
fn compares_a_definition_once(rt: HostRuntime) {
    assert!(rt; judged_from(rt.alloc(), 40, referring(rt.alloc())) == "allowed");
}
