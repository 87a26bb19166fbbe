//! Schemas, built by hand in the simple form, that are pruned, and what is asked of what is left.

ghost use Rattle.std.specs.Prelude.{IsTrue, IfOk};
ghost use Rattle.rng_types.specs.WellMade.{is_well_made};
ghost use Rattle.rng_core.specs.Soundness.{IsSound};

use crate::building::{
    XSD, all_in, attribute, bytes, choice, either, element, group, list, name_of, named_element,
    numbered, one, one_or_more, only, typed, with, without,
};
use crate::sound::is_sound;
use nx_base::memory::NoMemory;
use nx_base::name::{Name, Names};
use nx_base::sequence::Bytes;
use rng_core::grammar::{Def, Defs, Grammar, Pat};
use rng_core::name_class::NameClass;
use rng_live::depth::MOST_NODES_ON_A_PATH;
use rng_live::fault::LiveFault;
use rng_live::gathering::Values;
use rng_live::prune::prune;
use rng_live::schema::Schema;
use rng_restrict::check::check;
use rng_types::datatype::{Datatype, Param};
use rng_types::fault::TypeFault;
use std::alloc::Global;

// The body, or nothing.
fn maybe(alloc: Global, body: Result<Pat, NoMemory>) -> Result<Pat, NoMemory> {
    choice(alloc, body, Ok(Pat::Empty))
}

// Any number of parts that match the body.
fn any_number_of(alloc: Global, body: Result<Pat, NoMemory>) -> Result<Pat, NoMemory> {
    maybe(alloc, one_or_more(alloc, body))
}

// What is left of a grammar.
#[derive(Drop)]
enum Remains {
    Some(Schema),
    // Nothing is valid.
    Nothing,
    // There was no memory to prune it.
    NoMemory,
    // The grammar isn't one that can be pruned, or there was no memory to make it.
    Refused,
}

fn pruned(alloc: Global, grammar: Grammar) -> Remains
    requires { IsSound grammar }
{
    if let Err(_) = check(alloc, &grammar) {
        return Remains::Refused;
    }
    match prune(alloc, grammar) {
        Ok(schema) => Remains::Some(schema),
        Err(LiveFault::NothingValid) => Remains::Nothing,
        Err(LiveFault::NoMemory) => Remains::NoMemory,
    }
}

// What is left of the grammar that begins with the first of these definitions, and whose types are the given one.
fn left(alloc: Global, known: &Datatype, defs: Defs) -> Remains
    requires { IsTrue (is_well_made known.now) }
{
    let start = Pat::Ref(0);
    let grammar = Grammar { start, defs };
    if is_sound(known, &grammar) {
        pruned(alloc, grammar)
    } else {
        Remains::Refused
    }
}

// What is left of definitions that have no other types than the built-in token.
fn left_of(alloc: Global, defs: Result<Defs, NoMemory>) -> Remains {
    match (Datatype::named(alloc, "", "token", &[]), defs) {
        (Ok(token), Ok(defs)) => left(alloc, &token, defs),
        _ => Remains::Refused,
    }
}

// Puts a text between two others behind a line, and answers whether it could.
fn puts(line: &mut String, open: &str, text: &Bytes, close: &str) -> bool {
    match str::from_utf8(text.as_slice()) {
        Ok(text) => write!(line, "{open}{text}{close}").is_ok(),
        Err(_) => false,
    }
}

// Whether the names are these, each behind its namespace.
fn are_names(alloc: Global, names: Result<Names, NoMemory>, wanted: &str) -> bool {
    let mut line = String::new(alloc);
    match names {
        Ok(names) => puts_names(&mut line, names.as_slice()) && line.as_str() == wanted,
        Err(NoMemory) => false,
    }
}

fn puts_names(line: &mut String, names: &[Name]) -> bool {
    for name in names {
        if !puts(line, "{", &name.ns, "}") || !puts(line, "", &name.local, "") {
            return false;
        }
    }
    true
}

// Whether the texts are these, each in brackets.
fn are_texts(alloc: Global, texts: Result<Values, NoMemory>, wanted: &str) -> bool {
    let mut line = String::new(alloc);
    match texts {
        Ok(texts) => puts_texts(&mut line, texts.as_slice()) && line.as_str() == wanted,
        Err(NoMemory) => false,
    }
}

fn puts_texts(line: &mut String, texts: &[Bytes]) -> bool {
    for text in texts {
        if !puts(line, "[", text, "]") {
            return false;
        }
    }
    true
}

// Whether a schema mentions these names.
fn mentions(alloc: Global, left: &Remains, names: &str) -> bool {
    match left {
        Remains::Some(schema) => are_names(alloc, schema.mentioned(alloc), names),
        _ => false,
    }
}

// Whether a schema has these namespaces.
fn has_namespaces(alloc: Global, left: &Remains, namespaces: &str) -> bool {
    match left {
        Remains::Some(schema) => are_names(alloc, schema.namespaces(alloc), namespaces),
        _ => false,
    }
}

// Whether a schema has these literals.
fn has_values(alloc: Global, left: &Remains, values: &str) -> bool {
    match left {
        Remains::Some(schema) => are_texts(alloc, schema.values(alloc), values),
        _ => false,
    }
}

// Whether a schema knows an element of a name in no namespace, or doesn't.
fn knows(alloc: Global, left: &Remains, local: &str, wanted: bool) -> bool {
    match (left, name_of(alloc, "", local)) {
        (Remains::Some(schema), Ok(name)) => schema.knows(&name) == wanted,
        _ => false,
    }
}

// attribute id { xsd:NCName }, element title { text }
fn head(alloc: Global, identifier: &Datatype) -> Result<Pat, NoMemory> {
    let id = attribute(alloc, one(alloc, "", "id"), typed(alloc, identifier));
    group(alloc, id, Ok(Pat::Ref(1)))
}

// The same, element para*
fn head_and_paras(alloc: Global, identifier: &Datatype) -> Result<Pat, NoMemory> {
    let paras = any_number_of(alloc, Ok(Pat::Ref(2)));
    group(alloc, head(alloc, identifier), paras)
}

// (text | element em)*
fn mixed(alloc: Global) -> Result<Pat, NoMemory> {
    any_number_of(alloc, choice(alloc, Ok(Pat::Text), Ok(Pat::Ref(3))))
}

// element doc { attribute id { xsd:NCName }, element title { text }, element para { (text | element em { text })* }* }
fn documents(alloc: Global, identifier: &Datatype) -> Result<Defs, NoMemory> {
    let defs = only(
        alloc,
        named_element(alloc, "doc", head_and_paras(alloc, identifier)),
    );
    let defs = with(defs, named_element(alloc, "title", Ok(Pat::Text)));
    let defs = with(defs, named_element(alloc, "para", mixed(alloc)));
    with(defs, named_element(alloc, "em", Ok(Pat::Text)))
}

// What is left of these.
fn left_of_documents(alloc: Global) -> Remains {
    let Ok(identifier) = Datatype::named(alloc, XSD, "NCName", &[]) else {
        return Remains::Refused;
    };
    match documents(alloc, &identifier) {
        Ok(defs) => left(alloc, &identifier, defs),
        Err(NoMemory) => Remains::Refused,
    }
}

fn lists_documents(alloc: Global) -> bool {
    let left = left_of_documents(alloc);
    mentions(alloc, &left, "{}doc{}em{}id{}para{}title")
        && has_namespaces(alloc, &left, "{}")
        && has_values(alloc, &left, "")
}

#[test]
fn lists_what_a_schema_mentions(rt: HostRuntime) {
    assert!(rt; lists_documents(rt.alloc()));
}

// element a { b? }, where b is element b { b }
fn dead_element(alloc: Global) -> Result<Defs, NoMemory> {
    let defs = only(
        alloc,
        named_element(alloc, "a", maybe(alloc, Ok(Pat::Ref(1)))),
    );
    with(defs, named_element(alloc, "b", Ok(Pat::Ref(1))))
}

fn lacks_dead_element(alloc: Global) -> bool {
    let left = left_of(alloc, dead_element(alloc));
    knows(alloc, &left, "a", true)
        && knows(alloc, &left, "b", false)
        && mentions(alloc, &left, "{}a")
}

#[test]
fn knows_no_dead_element(rt: HostRuntime) {
    assert!(rt; lacks_dead_element(rt.alloc()));
}

// A param of a type.
fn param(alloc: Global, name: &str, value: &str) -> Result<Param, NoMemory> {
    match (bytes(alloc, name), bytes(alloc, value)) {
        (Ok(name), Ok(value)) => Ok(Param { name, value }),
        _ => Err(NoMemory),
    }
}

// xsd:int { minInclusive = "5" maxInclusive = "4" }
fn no_number(alloc: Global) -> Result<Datatype, TypeFault>
    ensures { IfOk result (λ made. IsTrue (is_well_made made)) }
{
    match (
        param(alloc, "minInclusive", "5"),
        param(alloc, "maxInclusive", "4"),
    ) {
        (Ok(least), Ok(most)) => Datatype::named(alloc, XSD, "int", &[least, most]),
        _ => Err(TypeFault::NoMemory),
    }
}

// xsd:hexBinary { length = "0" minLength = "1" }
fn no_octets(alloc: Global) -> Result<Datatype, TypeFault>
    ensures { IfOk result (λ made. IsTrue (is_well_made made)) }
{
    match (param(alloc, "length", "0"), param(alloc, "minLength", "1")) {
        (Ok(none), Ok(least)) => Datatype::named(alloc, XSD, "hexBinary", &[none, least]),
        _ => Err(TypeFault::NoMemory),
    }
}

// element n { of the type }
fn element_of_type(alloc: Global, datatype: &Datatype) -> Result<Defs, NoMemory> {
    only(alloc, named_element(alloc, "n", typed(alloc, datatype)))
}

fn left_of_type(alloc: Global, made: Result<Datatype, TypeFault>) -> Remains
    requires { IfOk made (λ type. IsTrue (is_well_made type)) }
{
    let Ok(none) = made else {
        return Remains::Refused;
    };
    match element_of_type(alloc, &none) {
        Ok(defs) => left(alloc, &none, defs),
        Err(NoMemory) => Remains::Refused,
    }
}

#[test]
fn refuses_what_nothing_is_valid_for(rt: HostRuntime) {
    assert!(rt;
        matches!(
            left_of_type(rt.alloc(), no_number(rt.alloc())),
            Remains::Nothing
        )
    );
    assert!(rt;
        matches!(
            left_of_type(rt.alloc(), no_octets(rt.alloc())),
            Remains::Nothing
        )
    );
}

// element a { empty }, and element foo { empty } to which nothing refers
fn unreached(alloc: Global) -> Result<Defs, NoMemory> {
    let defs = only(alloc, named_element(alloc, "a", Ok(Pat::Empty)));
    with(defs, named_element(alloc, "foo", Ok(Pat::Empty)))
}

fn lacks_unreached(alloc: Global) -> bool {
    let left = left_of(alloc, unreached(alloc));
    knows(alloc, &left, "a", true) && knows(alloc, &left, "foo", false)
}

#[test]
fn drops_what_is_not_reached(rt: HostRuntime) {
    assert!(rt; lacks_unreached(rt.alloc()));
}

// The literal of the built-in token.
fn literal(alloc: Global, text: &str) -> Result<Pat, NoMemory> {
    match (Datatype::named(alloc, "", "token", &[]), bytes(alloc, text)) {
        (Ok(token), Ok(text)) => Ok(Pat::Value(token, text)),
        _ => Err(NoMemory),
    }
}

// attribute b { "y" | "x" }
fn kinds(alloc: Global) -> Result<Pat, NoMemory> {
    let either = choice(alloc, literal(alloc, "y"), literal(alloc, "x"));
    attribute(alloc, one(alloc, "", "b"), either)
}

// list { first, second }
fn words(
    alloc: Global,
    first: Result<Pat, NoMemory>,
    second: Result<Pat, NoMemory>,
) -> Result<Pat, NoMemory> {
    list(alloc, group(alloc, first, second))
}

// list { "x", "k" }
fn living(alloc: Global) -> Result<Pat, NoMemory> {
    words(alloc, literal(alloc, "x"), literal(alloc, "k"))
}

// list { "x", "k" } | list { "dead", notAllowed }
fn living_or_dead(alloc: Global) -> Result<Pat, NoMemory> {
    let dead = words(alloc, literal(alloc, "dead"), Ok(Pat::NotAllowed));
    choice(alloc, living(alloc), dead)
}

// w:* - w:c
fn all_but_one(alloc: Global) -> Result<NameClass, NoMemory> {
    without(alloc, all_in(alloc, "w"), one(alloc, "w", "c"))
}

// v:e | w:* - w:c
fn two_classes(alloc: Global) -> Result<NameClass, NoMemory> {
    either(alloc, one(alloc, "v", "e"), all_but_one(alloc))
}

// element v:e | w:* - w:c { attribute b { "y" | "x" }, (list { "x", "k" } | list { "dead", notAllowed }) }
fn elements_of_two(alloc: Global) -> Result<Defs, NoMemory> {
    let content = group(alloc, kinds(alloc), living_or_dead(alloc));
    only(alloc, element(two_classes(alloc), content))
}

fn lists_both(alloc: Global) -> bool {
    let left = left_of(alloc, elements_of_two(alloc));
    mentions(alloc, &left, "{}b{v}e{w}c")
        && has_namespaces(alloc, &left, "{}{v}{w}")
        && has_values(alloc, &left, "[k][x][y]")
}

#[test]
fn lists_namespaces_and_literals(rt: HostRuntime) {
    assert!(rt; lists_both(rt.alloc()));
}

// An element with a number in its name, which holds the element of that number.
fn link(alloc: Global, number: u32) -> Result<Def, NoMemory> {
    element(numbered(alloc, "", "e", number), Ok(Pat::Ref(number)))
}

// So many elements, each of which holds the next; the last one holds itself, or nothing.
fn chain(alloc: Global, count: u32, last: Pat) -> Result<Defs, NoMemory> {
    let mut defs = Ok(Defs::new(alloc));
    for i in 1..count {
        defs = with(defs, link(alloc, i));
    }
    with(defs, named_element(alloc, "last", Ok(last)))
}

// Whether a schema has so many definitions, and mentions so many names.
fn has_count(alloc: Global, left: &Remains, count: usize) -> bool {
    match left {
        Remains::Some(schema) => {
            schema.grammar().defs.len() == count && counts(schema.mentioned(alloc), count)
        }
        _ => false,
    }
}

fn counts(names: Result<Names, NoMemory>, count: usize) -> bool {
    match names {
        Ok(names) => names.len() == count,
        Err(NoMemory) => false,
    }
}

// Each element lives because the next one does, so that rounds over all of them would be as many as there are elements.
#[test]
fn prunes_a_long_chain(rt: HostRuntime) {
    let left = left_of(rt.alloc(), chain(rt.alloc(), 10_000, Pat::Empty));
    assert!(rt; has_count(rt.alloc(), &left, 10_000));
}

// Each element is dead because the next one is.
#[test]
fn refuses_a_long_chain(rt: HostRuntime) {
    let left = left_of(rt.alloc(), chain(rt.alloc(), 10_000, Pat::Ref(9_999)));
    assert!(rt; matches!(left, Remains::Nothing));
}

// A path of so many nodes to an element, by second sides or by first sides.
fn deep(alloc: Global, count: usize, second: bool) -> Result<Pat, NoMemory> {
    let mut pattern = Ok(Pat::Ref(1));
    for _ in 1..count {
        pattern = if second {
            group(alloc, Ok(Pat::Empty), pattern)
        } else {
            choice(alloc, pattern, Ok(Pat::Text))
        };
    }
    pattern
}

// Two elements, of which the first one holds the second at the end of such a path.
fn deep_elements(alloc: Global, count: usize, second: bool) -> Result<Defs, NoMemory> {
    let defs = only(alloc, named_element(alloc, "a", deep(alloc, count, second)));
    with(defs, named_element(alloc, "b", Ok(Pat::Empty)))
}

// Whether two names are left of them.
fn leaves_two(alloc: Global, count: usize, second: bool) -> bool {
    match left_of(alloc, deep_elements(alloc, count, second)) {
        Remains::Some(schema) => counts(schema.mentioned(alloc), 2),
        _ => false,
    }
}

// Whether pruning them is refused for want of memory.
fn lacks_memory(alloc: Global, count: usize, second: bool) -> bool {
    let left = left_of(alloc, deep_elements(alloc, count, second));
    matches!(left, Remains::NoMemory)
}

// The longest path that pruning takes, and one that is a node longer.
#[test]
fn prunes_deep_patterns(rt: HostRuntime) {
    for second in [false, true] {
        assert!(rt; leaves_two(rt.alloc(), MOST_NODES_ON_A_PATH, second));
        assert!(rt; lacks_memory(rt.alloc(), MOST_NODES_ON_A_PATH + 1, second));
    }
}
