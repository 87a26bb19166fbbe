//! Schema files, and what each says or its one cause.

use crate::is_told;
use nx_base::memory::NoMemory;
use nx_base::sequence::Bytes;
use rnc_lex::fault::LexFault;
use rnc_parse::read::{ReadFault, read};
use rnc_parse::surface::{
    Combine, Defined, FileReference, Item, NameClass, Namespace, Params, Pattern, Replacement,
    Surface, TypeName,
};
use std::alloc::Global;

/// A surface as one line: patterns by the signs of the compact syntax, names with their namespace in braces, `?` where it
/// is inherited.
#[derive(Drop)]
struct Printer {
    line: String,
    /// Whether nothing was left out for want of memory.
    is_whole: bool,
}

impl Printer {
    fn word(&mut self, word: &str) {
        if self.line.push_str(word).is_err() {
            self.is_whole = false;
        }
    }

    fn bytes(&mut self, bytes: &Bytes) {
        self.word(str::from_utf8(bytes.as_slice()).unwrap_or("no text"));
    }

    fn namespace(&mut self, ns: &Namespace) {
        self.word("{");
        match ns {
            Namespace::Inherited => self.word("?"),
            Namespace::Uri(uri) => self.bytes(uri),
        }
        self.word("}");
    }

    #[cycle(print_class)]
    fn class(&mut self, class: &NameClass) {
        match class {
            NameClass::AnyName => self.word("*"),
            NameClass::NsName(ns) => {
                self.namespace(ns);
                self.word("*");
            }
            NameClass::Name(ns, local) => {
                self.namespace(ns);
                self.bytes(local);
            }
            NameClass::Choice(classes) => {
                self.word("(");
                for class in classes {
                    self.word("|");
                    self.class(class);
                }
                self.word(")");
            }
            NameClass::Except(class, except) => {
                self.class(class);
                self.word("-");
                self.class(except);
            }
        }
    }

    fn type_name(&mut self, name: &TypeName) {
        self.word("{");
        self.bytes(&name.library);
        self.word("}");
        self.bytes(&name.name);
    }

    fn params(&mut self, params: &Params) {
        for param in params.as_slice() {
            self.word(" ");
            self.bytes(&param.name);
            self.word("=");
            self.bytes(&param.value);
        }
    }

    fn file(&mut self, file: &FileReference) {
        self.namespace(&file.namespace);
        self.bytes(&file.uri);
    }

    fn defined(&mut self, name: &Defined, combine: Combine) {
        match name {
            Defined::Start => self.word("start"),
            Defined::Name(name) => self.bytes(name),
        }
        match combine {
            Combine::Alone => self.word("="),
            Combine::Choice => self.word("|="),
            Combine::Interleave => self.word("&="),
        }
    }

    #[cycle(print)]
    fn patterns(&mut self, sign: &str, patterns: &[Pattern]) {
        self.word("(");
        for pattern in patterns {
            self.word(sign);
            self.pattern(pattern);
        }
        self.word(")");
    }

    #[cycle(print)]
    fn inner(&mut self, word: &str, body: &Pattern) {
        self.word(word);
        self.word("(");
        self.pattern(body);
        self.word(")");
    }

    #[cycle(print)]
    fn pattern(&mut self, pattern: &Pattern) {
        match pattern {
            Pattern::Element(class, body) => {
                self.word("element ");
                self.class(class);
                self.inner("", body);
            }
            Pattern::Attribute(class, body) => {
                self.word("attribute ");
                self.class(class);
                self.inner("", body);
            }
            Pattern::List(body) => self.inner("list", body),
            Pattern::Mixed(body) => self.inner("mixed", body),
            Pattern::Optional(body) => self.inner("?", body),
            Pattern::ZeroOrMore(body) => self.inner("*", body),
            Pattern::OneOrMore(body) => self.inner("+", body),
            Pattern::Choice(patterns) => self.patterns("|", patterns.as_slice()),
            Pattern::Group(patterns) => self.patterns(",", patterns.as_slice()),
            Pattern::Interleave(patterns) => self.patterns("&", patterns.as_slice()),
            Pattern::Grammar(items) => self.items(items.as_slice()),
            Pattern::DataExcept(name, params, except) => {
                self.type_name(name);
                self.params(params);
                self.inner("-", except);
            }
            _ => self.leaf(pattern),
        }
    }

    #[cycle(print)]
    fn items(&mut self, items: &[Item]) {
        self.word("[");
        for item in items {
            self.item(item);
            self.word(";");
        }
        self.word("]");
    }

    #[cycle(print)]
    fn item(&mut self, item: &Item) {
        match item {
            Item::Define(name, combine, body) => {
                self.defined(name, *combine);
                self.pattern(body);
            }
            Item::Div(items) => self.items(items.as_slice()),
            Item::Include(file, replacements) => {
                self.word("include ");
                self.file(file);
                self.replacements(replacements.as_slice());
            }
        }
    }

    #[cycle(print)]
    fn replacements(&mut self, replacements: &[Replacement]) {
        self.word("[");
        for replacement in replacements {
            self.replacement(replacement);
            self.word(";");
        }
        self.word("]");
    }

    #[cycle(print)]
    fn replacement(&mut self, replacement: &Replacement) {
        match replacement {
            Replacement::Define(name, combine, body) => {
                self.defined(name, *combine);
                self.pattern(body);
            }
            Replacement::Div(replacements) => self.replacements(replacements.as_slice()),
        }
    }

    fn leaf(&mut self, pattern: &Pattern) {
        match pattern {
            Pattern::Ref(name) => self.bytes(name),
            Pattern::ParentRef(name) => {
                self.word("parent ");
                self.bytes(name);
            }
            Pattern::Empty => self.word("empty"),
            Pattern::Text => self.word("text"),
            Pattern::NotAllowed => self.word("notAllowed"),
            Pattern::Value(name, text) => {
                self.type_name(name);
                self.word("'");
                self.bytes(text);
                self.word("'");
            }
            Pattern::Data(name, params) => {
                self.type_name(name);
                self.params(params);
            }
            Pattern::External(file) => {
                self.word("external ");
                self.file(file);
            }
            _ => self.word("-"),
        }
    }

    fn place(&mut self, word: &str, at: usize) {
        self.word(word);
        if write!(self.line, "{at}").is_err() {
            self.is_whole = false;
        }
    }

    fn prefix(&mut self, word: &str, prefix: &Bytes) {
        self.word(word);
        self.bytes(prefix);
        self.word("'");
    }

    fn lex_fault(&mut self, fault: &LexFault) {
        match fault {
            LexFault::BadEscape(at) => self.place("BadEscape ", *at),
            LexFault::BadLiteral(at) => self.place("BadLiteral ", *at),
            LexFault::BadCharacter(at) => self.place("BadCharacter ", *at),
            LexFault::NoMemory => self.word("no memory in tokens"),
        }
    }

    fn fault(&mut self, fault: &ReadFault) {
        match fault {
            ReadFault::Lex(fault) => self.lex_fault(fault),
            ReadFault::TooDeep(at) => self.place("TooDeep ", *at),
            ReadFault::Syntax(at) => self.place("Syntax ", *at),
            ReadFault::UndeclaredPrefix(prefix) => self.prefix("UndeclaredPrefix '", prefix),
            ReadFault::Twice(prefix) => self.prefix("Twice '", prefix),
            ReadFault::NoMemory => self.word("no memory"),
        }
    }

    fn answer(&mut self, answer: &Result<Surface, ReadFault>) {
        match answer {
            Ok(Surface::Pattern(pattern)) => self.pattern(pattern),
            Ok(Surface::Grammar(items)) => self.items(items.as_slice()),
            Err(fault) => self.fault(fault),
        }
    }
}

fn written(alloc: Global, answer: &Result<Surface, ReadFault>) -> Result<String, NoMemory> {
    let mut printer = Printer {
        line: String::new(alloc),
        is_whole: true,
    };
    printer.answer(answer);
    if printer.is_whole {
        Ok(printer.line)
    } else {
        Err(NoMemory)
    }
}

/// Lets an answer go. That is dear to prove, for its many forms, so it is done here alone.
fn let_go(_answer: Result<Surface, ReadFault>) {}

/// What is read of a schema, or why it isn't.
fn told(alloc: Global, text: &str) -> Result<String, NoMemory> {
    let answer = read(alloc, text);
    let told = written(alloc, &answer);
    let_go(answer);
    told
}

/// Schemas, each with what `told` makes of it behind `=> `, and a blank line between them. The first is empty.
const SCHEMAS: &str = r##"
=> []

x
=> x

\x{65}mpty
=> empty

\start
=> start

\element
=> element

\element | a
=> (|element|a)

start
=> Syntax 5

a } b
=> Syntax 2

# x
## y
a # z
=> a

# x
a ## y
=> a

element a { \x{74}ext }
=> element {?}a(text)

element a { text }
=> element {?}a(text)

\x{65}l\xx{65}ment \x{e9}\x{74} { text }
=> element {?}ét(text)

a \x{}
=> BadEscape 2

a 'b
=> BadLiteral 2

a $ b
=> BadCharacter 2

element element { empty }
=> element {?}element(empty)

element \element { element start { notAllowed } }
=> element {?}element(element {?}start(notAllowed))

attribute text { token }
=> attribute {}text({}token)

element r { element a { empty }, element b { empty } | element c { empty } }
=> Syntax 53

element r { (element a { empty }, element b { empty }) | element c { empty } }
=> element {?}r((|(,element {?}a(empty),element {?}b(empty))|element {?}c(empty)))

(a, b) | c
=> (|(,a,b)|c)

a, b, c
=> (,a,b,c)

a & b+ & c?
=> (&a&+(b)&?(c))

a*
=> *(a)

a**
=> Syntax 2

a,
=> Syntax 2

mixed { a }, list { b }
=> (,mixed(a),list(b))

list { xsd:int+ }
=> list(+({http://www.w3.org/2001/XMLSchema-datatypes}int))

parent text
=> Syntax 7

parent \text
=> parent text

'a' | "b" ~ 'c' | string ' d '
=> (|{}token'a'|{}token'bc'|{}string' d ')

"a" ~ '''b
"c''' ~ """'d"""
=> {}token'ab
"c'd'

token 'a'
=> {}token'a'

xsd:int
=> {http://www.w3.org/2001/XMLSchema-datatypes}int

xsd:int { minInclusive = '5' [a = 'b'] text = '4' ~ '2' } - '7'
=> {http://www.w3.org/2001/XMLSchema-datatypes}int minInclusive=5 text=42-({}token'7')

string { [ a [ b ] ] c = 'd' [ ] e = 'f' }
=> {}string c=d e=f

string - (string 'a' | 'b')
=> {}string-((|{}string'a'|{}token'b'))

string - 'a' | b
=> Syntax 13

string { }
=> {}string

string { a = 'b'
=> Syntax 16

datatypes d = 'u' d:int
=> {u}int

datatypes d = 'u' ~ '''v''' d:int 'x'
=> {uv}int'x'

datatypes xsd = 'u' xsd:int
=> {u}int

datatypes xml = 'u' xml:int
=> {u}int

d:int
=> UndeclaredPrefix 'd'

d:int, )
=> Syntax 7

namespace p = 'u' element p:a { attribute b { text } }
=> element {u}a(attribute {}b(text))

namespace p = inherit element p:a { p:int }
=> UndeclaredPrefix 'p'

namespace p = inherit element p:a { empty }
=> element {?}a(empty)

namespace p = '' element p:* { empty }
=> element {}*(empty)

default namespace = 'u' element a { attribute b { text } }
=> element {u}a(attribute {}b(text))

default namespace p = 'u' element a | p:b { p }
=> element (|{u}a|{u}b)(p)

default namespace = inherit element a { text }
=> element {?}a(text)

element xml:a { text }
=> element {http://www.w3.org/XML/1998/namespace}a(text)

namespace xml = 'http://www.w3.org/XML/1998/namespace' a
=> a

namespace xml = 'u' a
=> Twice 'xml'

namespace xml = inherit a
=> Twice 'xml'

namespace xmlns = 'u' a
=> Twice 'xmlns'

default namespace = 'u' default namespace = 'v' a
=> Twice ''

namespace p = 'u' default namespace p = 'u' a
=> Twice 'p'

datatypes p = 'u' datatypes p = 'u' a
=> Twice 'p'

datatypes p = 'u' namespace p = 'u' a
=> a

namespace p = 'u' namespace p = 'u' a, b | c
=> Syntax 41

element q:a { text }
=> UndeclaredPrefix 'q'

element * - (a | x:*) { empty }
=> UndeclaredPrefix 'x'

element * - (a | xml:*) { empty }
=> element *-(|{?}a|{http://www.w3.org/XML/1998/namespace}*)(empty)

element * - a | b { empty }
=> Syntax 14

attribute a | * { text }
=> attribute (|{}a|*)(text)

external 'f' inherit = xml, parent y, external 'g'
=> (,external {http://www.w3.org/XML/1998/namespace}f,parent y,external {?}g)

default namespace = 'u' external 'f' ~ 'g'
=> external {u}fg

namespace p = 'u' include 'f' inherit = p
=> [include {u}f[];]

include 'f' inherit = q
=> UndeclaredPrefix 'q'

datatypes p = 'u' datatypes p = 'v' q:a
=> Twice 'p'

[ a:b = 'c' ] d
=> d

include 'f' inherit = a = b
=> Syntax 24

grammar { start = a div { a |= b } } 
=> [start=a;[a|=b;];]

grammar { start = parent a }, b
=> (,[start=parent a;],b)

start |= a start &= b \start = c d |= e d &= f
=> [start|=a;start&=b;start=c;d|=e;d&=f;]

div { div { } start = a } b = c
=> [[[];start=a;];b=c;]

include 'f' include 'g' inherit = xml { start &= a div { b = c } n [] }
=> [include {?}f[];include {http://www.w3.org/XML/1998/namespace}g[start&=a;[b=c;];];]

include 'f' { start = a div { b |= c div { d &= e } } } f = g
=> [include {?}f[start=a;[b|=c;[d&=e;];];];f=g;]

include 'f' { include 'g' }
=> Syntax 14

[ a ( b ) { [ = ] } ] [ ] start = [ ] a >> x [ ] ? >> element [ y:z ]
=> [start=?(a);]

element a { text } >> x:y [ z = "w" ] >> text [ ]
=> element {?}a(text)

[ ] [ ] [ ] start = a
=> Syntax 8

[ ] a
=> a

[ ] [ ] a
=> a

[ ( ] ) ] a
=> Syntax 4

[ [ ] a
=> Syntax 7

x [ ] y:z [ ] [ ] w [ ]
=> []

element [ ] a >> b [ ] | [ ] c { [ ] text }
=> element (|{?}a|{?}c)(text)"##;

#[test]
fn schemas_are_read(rt: HostRuntime) {
    let mut rows = 0u32;
    for row in SCHEMAS.split("\n\n") {
        let (schema, want) = row.split_once("\n=> ").unwrap_or((row, "no row"));
        assert!(rt; is_told(told(rt.alloc(), schema), want), "at {schema}");
        rows = rows.saturating_add(1);
    }
    assert!(rt; rows == 92);
}

/// `element a {`, so many `(`, `empty`, so many `)`, and `}`.
fn nested(alloc: Global, depth: usize) -> Result<String, NoMemory> {
    let opening = "(".repeat(alloc, depth)?;
    let closing = ")".repeat(alloc, depth)?;
    Ok(format!(in alloc; "element a {{{opening}empty{closing}}}")?)
}

/// What is told of so many brackets.
fn told_of_nested(alloc: Global, depth: usize) -> Result<String, NoMemory> {
    let schema = nested(alloc, depth)?;
    told(alloc, schema.as_str())
}

#[test]
fn brackets_are_counted(rt: HostRuntime) {
    assert!(rt;
        is_told(told_of_nested(rt.alloc(), 199), "element {?}a(empty)")
            && is_told(told_of_nested(rt.alloc(), 200), "TooDeep 210")
    );
}

const S1: &str =
    "start = element doc { attribute id { xsd:NCName }, element title { text }, element para { (text | element em { text })* }* }";

fn ending_of(answer: &Result<Surface, ReadFault>) -> &'static str {
    match answer {
        Ok(Surface::Pattern(Pattern::Ref(_))) => "name",
        Ok(Surface::Pattern(_)) => "pattern",
        Ok(Surface::Grammar(_)) => "grammar",
        Err(ReadFault::Syntax(_)) => "Syntax",
        Err(ReadFault::Lex(LexFault::BadCharacter(_))) => "BadCharacter",
        Err(_) => "other",
    }
}

/// How reading a text ends.
fn ending(alloc: Global, text: &str) -> &'static str {
    let answer = read(alloc, text);
    let ending = ending_of(&answer);
    let_go(answer);
    ending
}

/// How reading so many bytes of the schema ends.
fn ending_of_front(len: usize) -> &'static str {
    match len {
        0 | 9..=14 => "grammar",
        1..=4 => "name",
        41 => "BadCharacter",
        _ => "Syntax",
    }
}

/// How reading them does end.
fn front_ending(alloc: Global, len: usize) -> &'static str {
    match S1.get(..len) {
        Some(front) => ending(alloc, front),
        None => "no front",
    }
}

#[test]
fn a_schema_of_a_document_is_read(rt: HostRuntime) {
    assert!(rt; ending(rt.alloc(), S1) == "grammar");
}

#[test]
fn fronts_of_a_schema_are_refused(rt: HostRuntime) {
    for len in 0..S1.len() {
        assert!(rt;
            front_ending(rt.alloc(), len) == ending_of_front(len),
            "at {len}"
        );
    }
}

/// The schema of schemas in the XML syntax (ISO/IEC 19757-2, Annex A), with its own content models.
const RELAX_NG: &str = r#"
default namespace rng = "http://relaxng.org/ns/structure/1.0"
namespace local = ""
datatypes xsd = "http://www.w3.org/2001/XMLSchema-datatypes"

start = pattern

pattern =
  element element { (nameQName | nameClass), (common & pattern+) }
  | element attribute { (nameQName | nameClass), (common & pattern?) }
  | element group { common & pattern+ }
  | element interleave { common & pattern+ }
  | element choice { common & pattern+ }
  | element optional { common & pattern+ }
  | element zeroOrMore { common & pattern+ }
  | element oneOrMore { common & pattern+ }
  | element list { common & pattern+ }
  | element mixed { common & pattern+ }
  | element ref { nameNCName, common }
  | element parentRef { nameNCName, common }
  | element empty { common }
  | element value { commonAttributes, type?, xsd:string }
  | element data { type, (common & param*), exceptPattern? }
  | element notAllowed { common }
  | element externalRef { href, common }
  | element grammar { common & grammarContent* }
  | element text { common }

param = element param { commonAttributes, nameNCName, xsd:string }
exceptPattern = element except { common & pattern+ }

grammarContent = start-element | define | element div { common & grammarContent* }
  | element include { href, (common & includeContent*) }
includeContent = define | start-element | element div { common & includeContent* }
start-element = element start { combine?, (common & pattern) }
define = element define { nameNCName, combine?, (common & pattern+) }
combine = attribute combine { "choice" | "interleave" }

nameClass =
  element name { commonAttributes, xsd:QName }
  | element anyName { common & exceptNameClass? }
  | element nsName { common & exceptNameClass? }
  | element choice { common & nameClass+ }
exceptNameClass = element except { common & nameClass+ }

nameQName = attribute name { xsd:QName }
nameNCName = attribute name { xsd:NCName }
href = attribute href { xsd:anyURI { pattern = "[^#]*" } }
type = attribute type { xsd:NCName }
common = commonAttributes & foreignElement*
commonAttributes =
  attribute ns { xsd:string }?,
  attribute datatypeLibrary { xsd:anyURI }?,
  foreignAttribute*
foreignElement = element * - rng:* { (anyAttribute | text | anyElement)* }
foreignAttribute = attribute * - (rng:* | local:*) { text }
anyElement = element * { (anyAttribute | text | anyElement)* }
anyAttribute = attribute * { text }
"#;

#[test]
fn the_schema_of_schemas_is_read(rt: HostRuntime) {
    assert!(rt; ending(rt.alloc(), RELAX_NG) == "grammar");
}

fn parts_of(answer: &Result<Surface, ReadFault>) -> usize {
    match answer {
        Ok(Surface::Grammar(items)) => items.len(),
        Ok(Surface::Pattern(Pattern::Choice(patterns))) => patterns.len(),
        _ => 0,
    }
}

/// How many items a grammar has that is read, or how many alternatives a choice, and 0 for all else.
fn parts(alloc: Global, text: &str) -> usize {
    let answer = read(alloc, text);
    let parts = parts_of(&answer);
    let_go(answer);
    parts
}

/// Whether so many are read of a text.
fn has_parts(alloc: Global, text: Option<String>, count: usize) -> bool {
    match text {
        Some(text) => parts(alloc, text.as_str()) == count,
        None => false,
    }
}

/// So many definitions, each of a name of its own.
fn definitions(alloc: Global, count: usize) -> Option<String> {
    let mut text = String::new(alloc);
    for n in 0..count {
        if write!(text, "d{n} = element a{n} {{ empty }} ").is_err() {
            return None;
        }
    }
    Some(text)
}

fn items(alloc: Global, count: usize) -> Option<String> {
    "a = b ".repeat(alloc, count).ok()
}

fn alternatives(alloc: Global, count: usize) -> Option<String> {
    let more = "a | ".repeat(alloc, count).ok()?;
    format!(in alloc; "{more}a").ok()
}

#[test]
fn long_schemas_are_read(rt: HostRuntime) {
    let alloc = rt.alloc();
    assert!(rt;
        has_parts(alloc, definitions(alloc, 20000), 20000)
            && has_parts(alloc, items(alloc, 100000), 100000)
            && has_parts(alloc, alternatives(alloc, 99999), 100000)
    );
}
