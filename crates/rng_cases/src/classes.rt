//! Name classes, each with names that it has and names that it hasn't.

use crate::building::{
    all_in, attribute, choice, either, element, group, interleave, list, name_of, numbered, one,
    one_or_more, without,
};
use nx_base::memory::NoMemory;
use nx_base::name::Name;
use rng_core::grammar::{Def, Pat};
use rng_core::name_class::{Bearer, NameClass};
use rng_core::overlap::overlap;
use std::alloc::Global;

// Any name outside of `u`.
fn outside_u(alloc: Global) -> Result<NameClass, NoMemory> {
    without(alloc, Ok(NameClass::AnyName), all_in(alloc, "u"))
}

// Any name in `u` but `a`.
fn in_u_but_a(alloc: Global) -> Result<NameClass, NoMemory> {
    without(alloc, all_in(alloc, "u"), one(alloc, "u", "a"))
}

// The class that the tables write so; any other word is the local part of a name in no namespace.
fn class_of(alloc: Global, word: &str) -> Result<NameClass, NoMemory> {
    match word {
        "any" => Ok(NameClass::AnyName),
        "bare" => all_in(alloc, ""),
        "in u" => all_in(alloc, "u"),
        "outside u" => outside_u(alloc),
        "in u but a" => in_u_but_a(alloc),
        "u:a" => one(alloc, "u", "a"),
        "u:xmlns" => one(alloc, "u", "xmlns"),
        _ => one(alloc, "", word),
    }
}

// The two parts of a row.
fn cut(row: &str) -> (&str, &str) {
    row.split_once("|").unwrap_or((row, ""))
}

// Whether an element, or an attribute, of the name is of the class, as a word.
fn had(class: &NameClass, name: &Name, bearer: &str) -> &'static str {
    let has = if bearer == "attribute" {
        class.has_attribute(name)
    } else {
        class.has(name)
    };
    if has { "has" } else { "hasn't" }
}

// What a class says of the element or attribute of a name.
fn told_of_name(alloc: Global, class: &str, ns: &str, local: &str, bearer: &str) -> &'static str {
    match (class_of(alloc, class), name_of(alloc, ns, local)) {
        (Ok(class), Ok(name)) => had(&class, &name, bearer),
        _ => "no memory",
    }
}

// What a class says, the class, and an element or an attribute by its namespace and its local part.
const NAMES: &str = "\
has|outside u|element||a
has|outside u|element|v|a
hasn't|outside u|element|u|a
hasn't|outside u|element|v|1a
hasn't|outside u|element|v|a:b
hasn't|outside u|element|http://www.w3.org/2000/xmlns/|a
hasn't|outside u|element|\u{1}|a
has|any|element||xmlns
hasn't|any|attribute||xmlns
has|any|attribute|u|xmlns";

fn is_told_of_name(alloc: Global, row: &str) -> bool {
    let (wanted, rest) = cut(row);
    let (class, rest) = cut(rest);
    let (bearer, name) = cut(rest);
    let (ns, local) = cut(name);
    told_of_name(alloc, class, ns, local, bearer) == wanted
}

#[test]
fn classes_have_names(rt: HostRuntime) {
    for row in NAMES.split("\n") {
        assert!(rt; is_told_of_name(rt.alloc(), row), "{row}");
    }
}

// Whether two classes have a name in common, or one of an element or an attribute, as a word.
fn met(alloc: Global, a: &NameClass, b: &NameClass, bearer: &str) -> &'static str {
    let has_common = match bearer {
        "element" => Ok(a.overlaps(alloc, b, Bearer::Element)),
        "attribute" => Ok(a.overlaps(alloc, b, Bearer::Attribute)),
        _ => overlap(alloc, a, b),
    };
    match has_common {
        Ok(true) => "overlap",
        Ok(false) => "apart",
        Err(NoMemory) => "no memory",
    }
}

fn meet(alloc: Global, a: &NameClass, b: &NameClass, wanted: &str) -> bool {
    met(alloc, a, b, "") == wanted
}

fn told_of_two(alloc: Global, a: &str, b: &str, bearer: &str) -> &'static str {
    match (class_of(alloc, a), class_of(alloc, b)) {
        (Ok(a), Ok(b)) => met(alloc, &a, &b, bearer),
        _ => "no memory",
    }
}

// What is said of two classes, and of which names: of elements, of attributes, or of any.
const PAIRS: &str = "\
overlap|any|u:a|
overlap|in u|u:a|
apart|outside u|in u|
apart|in u but a|u:a|
overlap|in u but a|in u|
apart|outside u|in u but a|
overlap|xmlns|xmlns|element
apart|xmlns|xmlns|attribute
apart|any|xmlns|attribute
overlap|u:xmlns|u:xmlns|attribute
overlap|bare|bare|attribute";

fn is_told_of_two(alloc: Global, row: &str) -> bool {
    let (wanted, rest) = cut(row);
    let (a, rest) = cut(rest);
    let (b, bearer) = cut(rest);
    told_of_two(alloc, a, b, bearer) == wanted
}

#[test]
fn classes_overlap(rt: HostRuntime) {
    for row in PAIRS.split("\n") {
        assert!(rt; is_told_of_two(rt.alloc(), row), "{row}");
    }
}

// A choice of so many names, which nests to the left.
fn many(alloc: Global, prefix: &str, count: u32) -> Result<NameClass, NoMemory> {
    let mut class = one(alloc, "u", prefix);
    for i in 0..count {
        class = either(alloc, class, numbered(alloc, "u", prefix, i));
    }
    class
}

// Whether a class has a name in `u`, or hasn't.
fn is_had(alloc: Global, class: &NameClass, local: &str, wanted: &str) -> bool {
    match name_of(alloc, "u", local) {
        Ok(name) => had(class, &name, "element") == wanted,
        Err(NoMemory) => false,
    }
}

// Whether a class differs from another, and has no name in common with it.
fn is_apart(alloc: Global, class: &NameClass, other: &NameClass) -> bool {
    !class.same(other) && meet(alloc, class, other, "apart") && meet(alloc, other, class, "apart")
}

// All in `u` but the class.
fn others_in_u(alloc: Global, class: &NameClass) -> Result<NameClass, NoMemory> {
    without(alloc, all_in(alloc, "u"), class.copy(alloc))
}

// Whether those have a name of `b` and the 50 from `b0` on.
fn leaves_others(alloc: Global, class: &NameClass) -> bool {
    match (many(alloc, "b", 50), others_in_u(alloc, class)) {
        (Ok(few), Ok(others)) => meet(alloc, &few, &others, "overlap"),
        _ => false,
    }
}

// Whether two wide classes are told apart, and each from itself.
fn is_walked(alloc: Global, class: &NameClass, other: &NameClass) -> bool {
    class.same(class)
        && is_had(alloc, class, "a0", "has")
        && is_had(alloc, class, "b", "hasn't")
        && is_apart(alloc, class, other)
        && leaves_others(alloc, class)
        && meet(alloc, class, class, "overlap")
}

// A copy of such a choice.
fn copy_of_many(alloc: Global, prefix: &str, count: u32) -> Result<NameClass, NoMemory> {
    many(alloc, prefix, count)?.copy(alloc)
}

fn are_walked(alloc: Global) -> bool {
    match (copy_of_many(alloc, "a", 100_000), many(alloc, "b", 100_000)) {
        (Ok(class), Ok(other)) => is_walked(alloc, &class, &other),
        _ => false,
    }
}

#[test]
fn wide_choices_are_walked(rt: HostRuntime) {
    assert!(rt; are_walked(rt.alloc()));
}

// attribute a { list { text } }
fn listed(alloc: Global) -> Result<Pat, NoMemory> {
    attribute(alloc, one(alloc, "", "a"), list(alloc, Ok(Pat::Text)))
}

// attribute a { list { text } }, element 0+
fn attribute_and_elements(alloc: Global) -> Result<Pat, NoMemory> {
    group(alloc, listed(alloc), one_or_more(alloc, Ok(Pat::Ref(0))))
}

// text & (empty | (attribute a { list { text } }, element 0+))
fn mixed(alloc: Global) -> Result<Pat, NoMemory> {
    let either = choice(alloc, Ok(Pat::Empty), attribute_and_elements(alloc));
    interleave(alloc, Ok(Pat::Text), either)
}

// The copy of element * { that }
fn copied(alloc: Global) -> Result<Def, NoMemory> {
    element(Ok(NameClass::AnyName), mixed(alloc))?.copy(alloc)
}

fn is_interleave(definition: Result<Def, NoMemory>) -> bool {
    match definition {
        Ok(copied) => matches!(&copied.content, Pat::Interleave(_, _)),
        Err(NoMemory) => false,
    }
}

#[test]
fn copies_patterns(rt: HostRuntime) {
    assert!(rt; is_interleave(copied(rt.alloc())));
}

// A path of so many nodes, by first sides or by second sides.
fn deep(alloc: Global, count: u32, second: bool) -> Result<Pat, NoMemory> {
    let mut pattern = Ok(Pat::Text);
    for _ in 0..count {
        pattern = if second {
            choice(alloc, Ok(Pat::Empty), pattern)
        } else {
            group(alloc, pattern, Ok(Pat::Text))
        };
    }
    pattern
}

// Whether the copy of a path is the same, and not the same as another one.
fn differs(alloc: Global, pattern: &Pat, other: &Pat) -> bool {
    match pattern.copy(alloc) {
        Ok(copied) => pattern.same(&copied) && !pattern.same(other),
        Err(NoMemory) => false,
    }
}

fn is_copied(alloc: Global, second: bool) -> bool {
    match (deep(alloc, 7_999, second), deep(alloc, 7_998, second)) {
        (Ok(pattern), Ok(shorter)) => differs(alloc, &pattern, &shorter),
        _ => false,
    }
}

#[test]
fn copies_deep_patterns(rt: HostRuntime) {
    assert!(rt; is_copied(rt.alloc(), false));
    assert!(rt; is_copied(rt.alloc(), true));
}

// Whether a path is built; it is let go at the end.
fn is_choice(pattern: Result<Pat, NoMemory>) -> bool {
    match pattern {
        Ok(pattern) => matches!(&pattern, Pat::Choice(_, _)),
        Err(NoMemory) => false,
    }
}

#[test]
fn long_patterns_are_let_go(rt: HostRuntime) {
    assert!(rt; is_choice(deep(rt.alloc(), 300_000, true)));
}
