//! Files of schemas, and the grammar that they define or why they define none.

ghost use Rattle.std.specs.Prelude.{◌≡◌, ◌<◌};

use crate::is_told;
use nx_base::memory::NoMemory;
use nx_base::sequence::Bytes;
use nx_base::steps::Steps;
use nx_host::files::Files;
use nx_host::memory_files::{MemFiles, SureFiles};
use rng_core::grammar::{Def, Grammar, Pat};
use rng_core::name_class::NameClass;
use rng_simplify::fault::SchemaFault;
use rng_simplify::simplify::simplify;
use rng_types::datatype::Except;
use std::alloc::Global;
use std::marker::Brand;
use std::process::Abort;
use std::sync::ledger::{Blank, Ledger};
use std::test::Fail;

/// A grammar as one line: the start, and then each definition by its number. Of a type only the excepts are told.
#[derive(Drop)]
struct Printer {
    line: String,
    /// Whether nothing was left out for want of memory.
    is_whole: bool,
}

impl Printer {
    fn new(alloc: Global) -> Printer {
        Printer {
            line: String::new(alloc),
            is_whole: true,
        }
    }

    /// The line, where it is whole.
    fn finish(self) -> Result<String, NoMemory> {
        if self.is_whole {
            Ok(self.line)
        } else {
            Err(NoMemory)
        }
    }

    fn word(&mut self, word: &str) {
        if self.line.push_str(word).is_err() {
            self.is_whole = false;
        }
    }

    fn bytes(&mut self, bytes: &Bytes) {
        self.word(str::from_utf8(bytes.as_slice()).unwrap_or("no text"));
    }

    fn told(&mut self, word: &str, bytes: &Bytes) {
        self.word(word);
        self.bytes(bytes);
    }

    fn number(&mut self, number: usize) {
        if write!(self.line, "#{number}").is_err() {
            self.is_whole = false;
        }
    }

    fn namespace(&mut self, ns: &Bytes) {
        if !ns.is_empty() {
            self.bytes(ns);
            self.word(":");
        }
    }

    #[cycle(print_class)]
    fn class(&mut self, class: &NameClass) {
        match class {
            NameClass::AnyName => self.word("*"),
            NameClass::NsName(ns) => {
                self.namespace(ns);
                self.word("*");
            }
            NameClass::Name(name) => {
                self.namespace(&name.ns);
                self.bytes(&name.local);
            }
            NameClass::Choice(first, second) => {
                self.part_of_class("(", first);
                self.part_of_class("|", second);
                self.word(")");
            }
            NameClass::Except(all, taken) => {
                self.part_of_class("(", all);
                self.part_of_class("-", taken);
                self.word(")");
            }
        }
    }

    #[cycle(print_class)]
    fn part_of_class(&mut self, word: &str, class: &NameClass) {
        self.word(word);
        self.class(class);
    }

    fn except(&mut self, except: &Except) {
        match except {
            Except::Own(text) => self.told(" own ", text),
            Except::BuiltinString(text) => self.told(" string ", text),
            Except::BuiltinToken(text) => self.told(" token ", text),
        }
    }

    fn excepts(&mut self, excepts: &[Except]) {
        self.word("type");
        for except in excepts {
            self.except(except);
        }
    }

    fn value(&mut self, text: &Bytes) {
        self.told("'", text);
        self.word("'");
    }

    #[cycle(print)]
    fn pattern(&mut self, pattern: &Pat) {
        match pattern {
            Pat::NotAllowed => self.word("none"),
            Pat::Empty => self.word("empty"),
            Pat::Text => self.word("text"),
            Pat::Typed(_, excepts) => self.excepts(excepts.as_slice()),
            Pat::Value(_, text) => self.value(text),
            Pat::List(body) => self.part("list ", body),
            Pat::Attribute(class, value) => {
                self.part_of_class("@", class);
                self.part(" ", value);
            }
            Pat::Ref(number) => self.number(*number as usize),
            Pat::OneOrMore(body) => {
                self.part("", body);
                self.word("+");
            }
            Pat::Choice(first, second) => {
                self.part("(", first);
                self.part("|", second);
                self.word(")");
            }
            Pat::Group(first, second) => {
                self.part("(", first);
                self.part(",", second);
                self.word(")");
            }
            Pat::Interleave(first, second) => {
                self.part("(", first);
                self.part("&", second);
                self.word(")");
            }
        }
    }

    #[cycle(print)]
    fn part(&mut self, word: &str, pattern: &Pat) {
        self.word(word);
        self.pattern(pattern);
    }

    fn def(&mut self, number: usize, def: &Def) {
        self.word("; ");
        self.number(number);
        self.part_of_class(" ", &def.class);
        self.part(" = ", &def.content);
    }

    fn grammar(&mut self, grammar: &Grammar) {
        self.pattern(&grammar.start);
        for (number, def) in grammar.defs.as_slice().iter().enumerate() {
            self.def(number, def);
        }
    }

    fn not_utf8(&mut self, uri: &Bytes, at: usize) {
        self.told("NotUtf8 ", uri);
        if write!(self.line, " {at}").is_err() {
            self.is_whole = false;
        }
    }

    fn fault(&mut self, fault: &SchemaFault) {
        match fault {
            SchemaFault::Absent(uri) => self.told("Absent ", uri),
            SchemaFault::NotUtf8(uri, at) => self.not_utf8(uri, *at),
            SchemaFault::BadUri(text) => self.told("BadUri ", text),
            SchemaFault::Failed => self.word("Failed"),
            SchemaFault::NoMemory => self.word("NoMemory"),
            SchemaFault::Unreadable(cause) => {
                if write!(self.line, "{cause:?}").is_err() {
                    self.is_whole = false;
                }
            }
        }
    }

    fn answer(&mut self, answer: &Result<Grammar, SchemaFault>) {
        match answer {
            Ok(grammar) => self.grammar(grammar),
            Err(fault) => self.fault(fault),
        }
    }

    fn ending(&mut self, answer: &Result<Grammar, SchemaFault>) {
        match answer {
            Ok(_) => self.word("a grammar"),
            Err(fault) => self.fault(fault),
        }
    }
}

fn written(alloc: Global, answer: &Result<Grammar, SchemaFault>) -> Result<String, NoMemory> {
    let mut printer = Printer::new(alloc);
    printer.answer(answer);
    printer.finish()
}

fn ending_written(
    alloc: Global,
    answer: &Result<Grammar, SchemaFault>,
) -> Result<String, NoMemory> {
    let mut printer = Printer::new(alloc);
    printer.ending(answer);
    printer.finish()
}

/// Lets an answer go. That is dear to prove, for its many forms, so it is done here alone.
fn let_go(_answer: Result<Grammar, SchemaFault>) {}

/// The first file of each schema.
const FIRST: &str = "file:///work/m.rnc";

/// What simplification answers, with a count of tokens that are cut.
fn simplified_by<F: Files, L: Ledger>(
    alloc: Global,
    first: &String,
    files: &mut F,
    blank: Blank,
) -> Result<Grammar, SchemaFault>
    requires name { blank.name ≡ L.name }
    requires parts { blank.parts ≡ L.parts }
    requires some { 0 < L.parts }
{
    let mut steps = Steps::<L>::new(blank);
    simplify(alloc, first.as_str(), files, &mut steps)
}

fn simplified<F: Files>(alloc: Global, first: &str, files: &mut F) -> Result<Grammar, SchemaFault> {
    let first = format!(in alloc; "{first}")?;
    simplified_by::<F, Brand>(alloc, &first, files, Blank::new(1))
}

/// The grammar that these files define, of which this is the first, or why they define none.
fn told<F: Files>(alloc: Global, first: &str, files: &mut F) -> Result<String, NoMemory> {
    let answer = simplified(alloc, first, files);
    let told = written(alloc, &answer);
    let_go(answer);
    told
}

/// Whether they define a grammar, or why not.
fn ending_of_files(alloc: Global, files: &mut SureFiles) -> Result<String, NoMemory> {
    let answer = simplified(alloc, FIRST, files);
    let told = ending_written(alloc, &answer);
    let_go(answer);
    told
}

/// The same of one file of this text.
fn ending(alloc: Global, text: &str) -> Result<String, NoMemory> {
    let mut files = SureFiles::new(alloc);
    files.add(FIRST, text.as_bytes())?;
    ending_of_files(alloc, &mut files)
}

fn add(alloc: Global, files: &mut SureFiles, name: &str, text: &str) -> Result<(), NoMemory> {
    let uri = format!(in alloc; "file:///work/{name}")?;
    files.add(uri.as_str(), text.as_bytes())?;
    Ok(())
}

/// Adds a file whose name stands in a line of its own before its text.
fn add_named(alloc: Global, files: &mut SureFiles, part: &str) -> Result<(), NoMemory> {
    let (name, text) = part.split_once("\n").unwrap_or(("none", ""));
    add(alloc, files, name, text)
}

/// Adds files behind one another: the first one, and each other one behind `# ` and its name in a line of its own.
fn add_all(
    alloc: Global,
    files: &mut SureFiles,
    first: &str,
    schema: &str,
) -> Result<(), NoMemory> {
    let (text, others) = schema.split_once("\n# ").unwrap_or((schema, ""));
    files.add(first, text.as_bytes())?;
    for other in others.split("\n# ") {
        add_named(alloc, files, other)?;
    }
    Ok(())
}

/// The grammar of a schema whose first file has this URI, or why there is none.
pub(crate) fn told_under(alloc: Global, first: &str, schema: &str) -> Result<String, NoMemory> {
    let mut files = SureFiles::new(alloc);
    add_all(alloc, &mut files, first, schema)?;
    told(alloc, first, &mut files)
}

fn told_of(alloc: Global, schema: &str) -> Result<String, NoMemory> {
    told_under(alloc, FIRST, schema)
}

/// Compares what is told of each schema with what stands behind `=> `. Between rows is a blank line.
fn compare(rt: &impl Abort, alloc: Global, rows: &str) {
    for row in rows.split("\n\n") {
        let (schema, want) = row.split_once("\n=> ").unwrap_or((row, "no row"));
        assert!(rt; is_told(told_of(alloc, schema), want), "at {schema}");
    }
}

/// Files that are included or external.
pub(crate) const FILES: &str = r##"include "i.rnc" { start = element a { x } }
# i.rnc
start = element b { x }
x = element c { empty }
=> #1; #0 c = empty; #1 a = #0

include "m.rnc"
=> IncludeLoop

element a { external "./m.rnc"? }
=> IncludeLoop

external "p.rnc" | external "d/q.rnc"
# p.rnc
text
# d/q.rnc
start = x x = empty include "../m.rnc"
=> IncludeLoop

element a { external "d/p.rnc" }
# d/p.rnc
external "q.rnc" | external "q.rnc"
# d/q.rnc
element b { text }
=> #2; #0 b = text; #1 b = text; #2 a = (#1|#0)

start = external "p.rnc"
x = element x { empty }
# p.rnc
element p { x, grammar { start = parent x } }
=> #0; #0 p = (#1,#1); #1 x = empty

start = grammar { start = external "p.rnc" }
x = element x { empty }
# p.rnc
parent x
=> #0; #0 x = empty

external "p.rnc"
# p.rnc
element p { x }
=> NoDefinition

default namespace = "u" namespace v = "w"
start = external "p.rnc" | external "p.rnc" inherit = v
# p.rnc
element p { attribute q { text } }
=> (#1|#0); #0 w:p = @q text; #1 u:p = @q text

default namespace = "u" external "p.rnc"
# p.rnc
external "q.rnc"
# q.rnc
namespace i = inherit default namespace = "v"
element i:a { element b { empty } }
=> #1; #0 v:b = empty; #1 u:a = #0

default namespace = "u" include "p.rnc" { x = element x { empty } }
# p.rnc
default namespace = "v" start = element p { x } x = empty include "q.rnc"
# q.rnc
y = element y { empty }
=> #1; #0 v:y = empty; #1 v:p = #2; #2 u:x = empty

include "p.rnc"
# p.rnc
empty
=> NotGrammar

include "p.rnc"
# p.rnc
grammar { start = empty }?
=> NotGrammar

include "p.rnc" { x = empty }
# p.rnc
((grammar { start = x x = text }))
=> empty

external "p.rnc"
# p.rnc
start = text
=> text

include "p.rnc" { y = empty }
# p.rnc
start = x x = text
=> NoDefinition

x = text include "p.rnc" { x = empty }
# p.rnc
start = text
=> NoDefinition

include "p.rnc" { start = empty }
# p.rnc
x = text
=> NoDefinition

include "p.rnc" { x = empty }
# p.rnc
start = x include "q.rnc"
# q.rnc
x = text
=> empty

include "p.rnc" { x = empty }
# p.rnc
start = x include "q.rnc" { x = text }
# q.rnc
x = nowhere
=> empty

include "p.rnc" { start = text }
# p.rnc
start |= x start |= y x = empty y = empty
=> text

x |= empty include "p.rnc" { div { x |= text } } start = x x |= list { empty }
# p.rnc
x = y x &= external "q.rnc" y |= element y { y }
# q.rnc
element q { nowhere }
=> ((empty|text)|list empty); #0 y = #0

include "p.rnc" { x = empty } start = x
# p.rnc
x = external "q.rnc"
=> Absent file:///work/q.rnc

start = nowhere include "d/p.rnc" include "q.rnc"
# q.rnc
start = 
=> Absent file:///work/d/p.rnc

include "p.rnc" include "q.rnc"
# p.rnc
include "d/r.rnc"
=> Absent file:///work/d/r.rnc

external "http://["
=> BadUri http://[

external "p.rnc"
# p.rnc
element
=> Syntax"##;

/// Definitions and references.
pub(crate) const DEFINITIONS: &str = r#"
=> NoStart

x = empty
=> NoStart

start = grammar { x = empty }
=> NoStart

start = empty x = grammar { }
=> NoStart

start = element a { empty }
start = element a { empty }
=> CombineClash

start = empty x |= empty x = text x &= text
=> CombineClash

start = empty x = grammar { start &= text start |= text }
=> CombineClash

start |= text div { start |= list { text } div { start = empty } }
=> (empty|(text|list text))

start = x x &= text x = element a { x } x &= empty x &= text
=> ((text&#0)&text); #0 a = ((text&#0)&text)

start = empty x = y
=> NoDefinition

element a { x }
=> NoDefinition

parent x
=> NoDefinition

start = parent x x = empty
=> NoDefinition

start = grammar { start = parent x x = empty } y = empty
=> NoDefinition

start = x x = grammar { start = x, parent y x = text } y = list { text }
=> (text,list text)

start = grammar { start = grammar { start = parent x, x x = text } x = list { text } } x = y y = empty
=> (list text,text)

start = x
x = element a { empty } | x
=> RefLoop

start = empty x = attribute x { (y, text)? } y = list { x* }
=> RefLoop

start = x x = grammar { start = parent x }
=> RefLoop

start = empty x = token - (y | "a") y = x
=> RefLoop

start = x x = element a { x?, y } y = element b { x }
=> #0; #0 a = ((empty|#0),#1); #1 b = #0

element a { element b { text }*, mixed { attribute c { text }? }, element d { notAllowed }+ }
=> #2; #0 b = text; #1 d = none; #2 a = (((empty|#0+),(text&(empty|@c text))),#1+)"#;

/// What is short for something else, what is not allowed, and what is empty.
pub(crate) const NORMAL_FORMS: &str = r#"text?
=> (empty|text)

text*
=> (empty|text+)

text+
=> text+

mixed { list { text } }
=> (text&list text)

text | list { text } | text+
=> ((text|list text)|text+)

text, list { text }, text+
=> ((text,list text),text+)

text & list { text } & text+
=> ((text&list text)&text+)

text, (list { text }, text+)
=> (text,(list text,text+))

text, notAllowed
=> none

notAllowed & text
=> none

notAllowed+
=> none

list { notAllowed }
=> none

attribute a { notAllowed }
=> none

element a { notAllowed }
=> #0; #0 a = none

notAllowed | text
=> text

text | notAllowed
=> text

notAllowed | notAllowed
=> none

notAllowed*
=> empty

token - notAllowed
=> type

token - (notAllowed | "y" | list { notAllowed })
=> type own y

(text, notAllowed, text) | (empty & text & empty) | notAllowed
=> text

empty, text
=> text

text & empty
=> text

empty, empty
=> empty

empty | empty
=> empty

empty+
=> empty

mixed { empty }
=> text

text | empty
=> (empty|text)

(text | empty), (empty | empty), empty+, (empty, empty), empty?
=> (empty|text)

(empty | text) | empty | list { empty }
=> ((empty|(empty|text))|list empty)

text* & attribute a { empty }
=> ((empty|text+)&@a empty)"#;

/// Classes of names.
pub(crate) const CLASSES: &str = r#"namespace u = "v"
element a | u:b | (u:* - (u:c | d)) { empty }
=> #0; #0 ((a|v:b)|(v:*-(v:c|d))) = empty

element * - (a | *) { empty }
=> BadExcept

start = empty x = attribute * - (a | (* - b)) { empty }
=> BadExcept

namespace u = "v"
attribute u:* - u:* { empty }
=> BadExcept

namespace u = "v"
attribute u:* - (a | *) { empty }
=> BadExcept

namespace u = "v"
attribute * - (u:* - u:a) { empty }
=> @(*-(v:*-v:a)) empty

attribute * { text }+
=> @* text+

start = empty x = attribute xmlns { empty }
=> XmlnsName

element xmlns { attribute * - (a | xmlns) { empty } }
=> XmlnsName

element xmlns { empty }
=> #0; #0 xmlns = empty

namespace u = "http://www.w3.org/2000/xmlns"
attribute * - u:* { empty }
=> XmlnsName

namespace u = "http://www.w3.org/2000/xmlns"
element u:a { empty }
=> #0; #0 http://www.w3.org/2000/xmlns:a = empty

namespace u = "http://www.w3.org/2000/xmlns/"
element a | u:b { empty }
=> XmlnsName

namespace u = "http://www.w3.org/2000/xmlns/"
element * - (a | u:*) { empty }
=> XmlnsName"#;

/// Datatypes and what is taken from them.
pub(crate) const TYPES: &str = r#"element n { xsd:int { minInclusive = "5" maxInclusive = "4" } }
=> #0; #0 n = type

start = empty x = xsd:QName
=> UnknownType

xsd:QName "a"
=> UnknownType

datatypes d = "http://example.org/types" d:string
=> UnknownType

xsd:boolean { length = "1" }
=> UnknownParam

start = empty x = token { length = "1" }
=> UnknownParam

xsd:int { minInclusive = "x" }
=> BadParam

xsd:string { length = "1" length = "-1" }
=> BadParam

xsd:int "x"
=> BadValue

xsd:integer "1234567890123456789012345678901"
=> BadValue

xsd:int - xsd:int "x"
=> BadValue

xsd:int " 7 " | "x" | string ""
=> ((' 7 '|'x')|'')

start = xsd:int { minInclusive = "2" } - (xsd:int "1" | xsd:int "3" | x | notAllowed)
x = ("y" | string "z"), empty
=> type own 3 token y string z

(token - "y") | (string - (string "z" | "w")) | (token - notAllowed)
=> ((type own y|type own z token w)|type)

xsd:ID - xsd:NCName "a"
=> UnsupportedExcept

token - (text | "y")
=> UnsupportedExcept

token - (list { "y" })
=> UnsupportedExcept

token - (attribute a { text })
=> UnsupportedExcept

start = token - x x = element x { text }
=> UnsupportedExcept

token - ("y" | token)
=> UnsupportedExcept

token - ("y"?)
=> UnsupportedExcept"#;

/// Files that can't be read.
const UNREAD: &str = r##"a \x{}
=> BadEscape

a 'b
=> BadLiteral

a $ b
=> BadCharacter

element a { empty }, element b { empty } | element c { empty }
=> Syntax

element r:a { empty }
=> UndeclaredPrefix

default namespace = "u" default namespace = "v" a
=> Twice

external "p.rnc"
# p.rnc
element a { text } text
=> Syntax"##;

#[test]
fn files_are_put_together(rt: HostRuntime) {
    compare(&rt, rt.alloc(), FILES);
}

#[test]
fn references_are_resolved(rt: HostRuntime) {
    compare(&rt, rt.alloc(), DEFINITIONS);
}

#[test]
fn forms_are_normal(rt: HostRuntime) {
    compare(&rt, rt.alloc(), NORMAL_FORMS);
}

#[test]
fn names_are_judged(rt: HostRuntime) {
    compare(&rt, rt.alloc(), CLASSES);
}

#[test]
fn types_are_found(rt: HostRuntime) {
    compare(&rt, rt.alloc(), TYPES);
}

/// What is told of no files.
fn told_of_none(alloc: Global) -> Result<String, NoMemory> {
    told(alloc, FIRST, &mut SureFiles::new(alloc))
}

/// What is told where the second file ends being text at its offset 11, behind two bytes that begin a character.
fn told_of_bytes(alloc: Global) -> Result<String, NoMemory> {
    let mut files = SureFiles::new(alloc);
    files.add(FIRST, b"external \"p.rnc\"")?;
    files.add("file:///work/p.rnc", b"element a\xE2\x82A")?;
    told(alloc, FIRST, &mut files)
}

#[test]
fn files_that_are_not_read_are_told(rt: HostRuntime) {
    compare(&rt, rt.alloc(), UNREAD);
}

#[test]
fn files_that_are_not_there_are_told(rt: HostRuntime) {
    assert!(rt; is_told(told_of_none(rt.alloc()), "Absent file:///work/m.rnc"));
}

#[test]
fn files_that_are_no_text_are_told(rt: HostRuntime) {
    assert!(rt; is_told(told_of_bytes(rt.alloc()), "NotUtf8 file:///work/p.rnc 11"));
}

/// What is told of two files where the call of this number fails.
fn told_with_fault(alloc: Global, failing: u64) -> Result<String, NoMemory> {
    let mut files = MemFiles::new(alloc, &[failing])?;
    files.add(FIRST, b"include \"i.rnc\" { start = element a { x } }")?;
    files.add(
        "file:///work/i.rnc",
        b"start = element b { x }\nx = element c { empty }",
    )?;
    told(alloc, FIRST, &mut files)
}

#[test]
fn files_that_fail_are_told(rt: HostRuntime) {
    let alloc = rt.alloc();
    assert!(rt;
        is_told(told_with_fault(alloc, 1), "Failed")
            && is_told(told_with_fault(alloc, 2), "Failed")
            && is_told(told_with_fault(alloc, 3), "#1; #0 c = empty; #1 a = #0")
    );
}

/// A schema of a document.
const DOCUMENT: &str =
    "start = element doc { attribute id { xsd:NCName }, element title { text }, element para { (text | element em { text })* }* }";

/// Why so many bytes of it are refused.
fn ending_of_front(len: usize) -> &'static str {
    match len {
        0 => "NoStart",
        1..=4 | 9..=14 => "NoDefinition",
        41 => "BadCharacter",
        _ => "Syntax",
    }
}

/// How so many bytes of it do end.
fn front_ending(alloc: Global, len: usize) -> Result<String, NoMemory> {
    match DOCUMENT.get(..len) {
        Some(front) => ending(alloc, front),
        None => Ok(String::from_str(alloc, "no front")?),
    }
}

#[test]
fn a_schema_of_a_document_is_read(rt: HostRuntime) {
    assert!(rt; is_told(ending(rt.alloc(), DOCUMENT), "a grammar"));
}

#[test]
fn fronts_of_a_schema_are_refused(rt: HostRuntime) {
    for len in 0..DOCUMENT.len() {
        assert!(rt;
            is_told(front_ending(rt.alloc(), len), ending_of_front(len)),
            "at {len}"
        );
    }
}

/// How an element ends with so many texts behind a first one, all on one path.
fn ending_of_deep(alloc: Global, count: usize) -> Result<String, NoMemory> {
    let texts = ", text".repeat(alloc, count)?;
    let text = format!(in alloc; "element a {{ text{texts} }}")?;
    ending(alloc, text.as_str())
}

/// How a pattern ends in so many brackets.
fn ending_of_brackets(alloc: Global, count: usize) -> Result<String, NoMemory> {
    let opening = "(".repeat(alloc, count)?;
    let closing = ")".repeat(alloc, count)?;
    let text = format!(in alloc; "{opening}empty{closing}")?;
    ending(alloc, text.as_str())
}

/// A start, and 400 definitions of which each stands twice in the next, joined by the sign, from a first one on.
fn doubled(alloc: Global, start: &str, first: &str, sign: &str) -> Result<String, NoMemory> {
    let mut text = format!(in alloc; "start = {start} x0 = {first}\n")?;
    for i in 0..400_usize {
        let next = i.saturating_add(1);
        write!(text, "x{next} = x{i} {sign} x{i}\n")?;
    }
    Ok(text)
}

fn ending_of_doubled(
    alloc: Global,
    start: &str,
    first: &str,
    sign: &str,
) -> Result<String, NoMemory> {
    let text = doubled(alloc, start, first, sign)?;
    ending(alloc, text.as_str())
}

/// Compares how schemas end that have such a start and such doubled definitions, 400 of them.
fn compare_doubled(rt: &impl Abort, alloc: Global, rows: &str, first: &str, sign: &str) {
    for row in rows.split("\n\n") {
        let (start, want) = row.split_once("\n=> ").unwrap_or((row, "no row"));
        assert!(rt;
            is_told(ending_of_doubled(alloc, start, first, sign), want),
            "at {start}"
        );
    }
}

#[test]
fn paths_have_a_limit(rt: HostRuntime) {
    assert!(rt;
        is_told(ending_of_deep(rt.alloc(), 7_999), "a grammar")
            && is_told(ending_of_deep(rt.alloc(), 8_000), "TooLarge")
    );
}

#[test]
fn brackets_have_a_limit(rt: HostRuntime) {
    assert!(rt;
        is_told(ending_of_brackets(rt.alloc(), 200), "a grammar")
            && is_told(ending_of_brackets(rt.alloc(), 201), "TooDeep")
    );
}

/// Starts over 2 to the power of n texts, or none at all, as `xn`. The texts of the first two are 500,000, whose joined nodes
/// make 1,000,000 with the start.
const LARGE: &str = "element a { x18, x17, x16, x15, x13, x8, x5 }
=> a grammar

element a { (x18, x17, x16, x15, x13, x8, x5)+ }
=> TooLarge

element a { x19 }
=> TooLarge

x400
=> TooLarge

element a { notAllowed, x400 }
=> a grammar";

#[test]
fn grammars_have_a_limit(rt: HostRuntime) {
    compare_doubled(&rt, rt.alloc(), LARGE, "text", ",");
}

#[test]
fn what_is_empty_has_no_limit(rt: HostRuntime) {
    compare_doubled(&rt, rt.alloc(), "x400\n=> a grammar", "empty", "&");
}

/// Starts over 2 to the power of n values as `xn`.
const EXCEPTS: &str = "token - x7
=> a grammar

token - (x7 | notAllowed)
=> a grammar

token - (x7 | token \"v\")
=> TooManyExcepts

string - x400
=> TooManyExcepts";

/// The same of values that a type doesn't accept. They take nothing away, and are counted.
const OTHER_EXCEPTS: &str = "xsd:int { minInclusive = \"8\" } - x7
=> a grammar

xsd:int { minInclusive = \"8\" } - x8
=> TooManyExcepts";

#[test]
fn excepts_have_a_limit(rt: HostRuntime) {
    compare_doubled(&rt, rt.alloc(), EXCEPTS, "\"v\"", "|");
}

#[test]
fn other_excepts_have_a_limit(rt: HostRuntime) {
    compare_doubled(&rt, rt.alloc(), OTHER_EXCEPTS, "xsd:int \"7\"", "|");
}

/// Starts over 2 to the power of n attributes of 1,000 names as `xn`.
const COPIES: &str = "element a { x2 }
=> a grammar

element a { x13 }
=> NoMemory";

#[test]
fn copies_have_a_limit(rt: HostRuntime) -> Result<(), Fail> {
    let names = " | n".repeat(rt.alloc(), 999)?;
    let first = format!(in rt.alloc(); "attribute (n{names}) {{ text }}")?;
    compare_doubled(&rt, rt.alloc(), COPIES, first.as_str(), "|");
    Ok(())
}

/// A value of 64,000 bytes.
fn long_value(alloc: Global) -> Result<String, NoMemory> {
    let value = "v".repeat(alloc, 64_000)?;
    Ok(format!(in alloc; "\"{value}\"")?)
}

/// An empty start, and so many types that nothing refers to.
fn unused_types(alloc: Global, count: usize) -> Result<String, NoMemory> {
    let types = ", (string - x7)".repeat(alloc, count)?;
    Ok(format!(in alloc; "empty y = list {{ empty{types} }}")?)
}

/// How a schema ends with so many such types, each of which takes 128 such values away.
fn ending_of_long_excepts(alloc: Global, count: usize) -> Result<String, NoMemory> {
    let first = long_value(alloc)?;
    let start = unused_types(alloc, count)?;
    ending_of_doubled(alloc, start.as_str(), first.as_str(), "|")
}

#[test]
fn long_excepts_have_a_limit(rt: HostRuntime) {
    assert!(rt;
        is_told(ending_of_long_excepts(rt.alloc(), 2), "a grammar")
            && is_told(ending_of_long_excepts(rt.alloc(), 63), "NoMemory")
    );
}

/// Adds a file that includes the next one.
fn add_link(alloc: Global, files: &mut SureFiles, i: usize) -> Result<(), NoMemory> {
    let next = i.saturating_add(1);
    let name = format!(in alloc; "{i}.rnc")?;
    let text = format!(in alloc; "include \"{next}.rnc\" x{i} = element x{i} {{ x{next} }}")?;
    add(alloc, files, name.as_str(), text.as_str())
}

/// Adds a first file and 300 others that are included, each by the one before it.
fn add_chain(alloc: Global, files: &mut SureFiles) -> Result<(), NoMemory> {
    add(alloc, files, "m.rnc", "include \"0.rnc\"")?;
    for i in 0..300 {
        add_link(alloc, files, i)?;
    }
    add(alloc, files, "300.rnc", "start = x0 x300 = empty")
}

fn definitions_of(answer: &Result<Grammar, SchemaFault>) -> usize {
    match answer {
        Ok(grammar) => grammar.defs.len(),
        Err(_) => 0,
    }
}

/// How many definitions the grammar of the files has, and 0 where there is none.
fn definitions(alloc: Global, files: &mut SureFiles) -> usize {
    let answer = simplified(alloc, FIRST, files);
    let count = definitions_of(&answer);
    let_go(answer);
    count
}

#[test]
fn chains_of_files_may_be_long(rt: HostRuntime) -> Result<(), Fail> {
    let mut files = SureFiles::new(rt.alloc());
    add_chain(rt.alloc(), &mut files)?;
    assert_eq!(rt; definitions(rt.alloc(), &mut files), 300);
    Ok(())
}
