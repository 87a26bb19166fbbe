//! Surfaces as text.

use nx_base::sequence::Bytes;
use rnc_parse::surface::{
    Combine, Defined, FileReference, Item, NameClass, Namespace, Params, Pattern, Replacement,
    Surface, TypeName,
};
use rngx_read::read::XReadFault;

/// A surface as one line: patterns by the signs of the compact syntax, names with their namespace in braces, `?` where it
/// is inherited.
#[derive(Drop)]
pub(crate) struct Printer {
    pub(crate) line: String,
    /// Whether nothing was left out for want of memory.
    pub(crate) is_whole: bool,
}

impl Printer {
    fn word(&mut self, word: &str) {
        if self.line.push_str(word).is_err() {
            self.is_whole = false;
        }
    }

    fn bytes(&mut self, bytes: &Bytes) {
        self.word(str::from_utf8(bytes.as_slice()).unwrap_or("no text"));
    }

    fn namespace(&mut self, ns: &Namespace) {
        self.word("{");
        match ns {
            Namespace::Inherited => self.word("?"),
            Namespace::Uri(uri) => self.bytes(uri),
        }
        self.word("}");
    }

    #[cycle(print_class)]
    fn class(&mut self, class: &NameClass) {
        match class {
            NameClass::AnyName => self.word("*"),
            NameClass::NsName(ns) => {
                self.namespace(ns);
                self.word("*");
            }
            NameClass::Name(ns, local) => {
                self.namespace(ns);
                self.bytes(local);
            }
            NameClass::Choice(classes) => {
                self.word("(");
                for class in classes {
                    self.word("|");
                    self.class(class);
                }
                self.word(")");
            }
            NameClass::Except(class, except) => {
                self.class(class);
                self.word("-");
                self.class(except);
            }
        }
    }

    fn type_name(&mut self, name: &TypeName) {
        self.word("{");
        self.bytes(&name.library);
        self.word("}");
        self.bytes(&name.name);
    }

    fn params(&mut self, params: &Params) {
        for param in params.as_slice() {
            self.word(" ");
            self.bytes(&param.name);
            self.word("=");
            self.bytes(&param.value);
        }
    }

    fn file(&mut self, file: &FileReference) {
        self.namespace(&file.namespace);
        self.bytes(&file.uri);
    }

    fn defined(&mut self, name: &Defined, combine: Combine) {
        match name {
            Defined::Start => self.word("start"),
            Defined::Name(name) => self.bytes(name),
        }
        match combine {
            Combine::Alone => self.word("="),
            Combine::Choice => self.word("|="),
            Combine::Interleave => self.word("&="),
        }
    }

    #[cycle(print)]
    fn patterns(&mut self, sign: &str, patterns: &[Pattern]) {
        self.word("(");
        for pattern in patterns {
            self.word(sign);
            self.pattern(pattern);
        }
        self.word(")");
    }

    #[cycle(print)]
    fn inner(&mut self, word: &str, body: &Pattern) {
        self.word(word);
        self.word("(");
        self.pattern(body);
        self.word(")");
    }

    #[cycle(print)]
    fn pattern(&mut self, pattern: &Pattern) {
        match pattern {
            Pattern::Element(class, body) => {
                self.word("element ");
                self.class(class);
                self.inner("", body);
            }
            Pattern::Attribute(class, body) => {
                self.word("attribute ");
                self.class(class);
                self.inner("", body);
            }
            Pattern::List(body) => self.inner("list", body),
            Pattern::Mixed(body) => self.inner("mixed", body),
            Pattern::Optional(body) => self.inner("?", body),
            Pattern::ZeroOrMore(body) => self.inner("*", body),
            Pattern::OneOrMore(body) => self.inner("+", body),
            Pattern::Choice(patterns) => self.patterns("|", patterns.as_slice()),
            Pattern::Group(patterns) => self.patterns(",", patterns.as_slice()),
            Pattern::Interleave(patterns) => self.patterns("&", patterns.as_slice()),
            Pattern::Grammar(items) => self.items(items.as_slice()),
            Pattern::DataExcept(name, params, except) => {
                self.type_name(name);
                self.params(params);
                self.inner("-", except);
            }
            _ => self.leaf(pattern),
        }
    }

    #[cycle(print)]
    fn items(&mut self, items: &[Item]) {
        self.word("[");
        for item in items {
            self.item(item);
            self.word(";");
        }
        self.word("]");
    }

    #[cycle(print)]
    fn item(&mut self, item: &Item) {
        match item {
            Item::Define(name, combine, body) => {
                self.defined(name, *combine);
                self.pattern(body);
            }
            Item::Div(items) => self.items(items.as_slice()),
            Item::Include(file, replacements) => {
                self.word("include ");
                self.file(file);
                self.replacements(replacements.as_slice());
            }
        }
    }

    #[cycle(print)]
    fn replacements(&mut self, replacements: &[Replacement]) {
        self.word("[");
        for replacement in replacements {
            self.replacement(replacement);
            self.word(";");
        }
        self.word("]");
    }

    #[cycle(print)]
    fn replacement(&mut self, replacement: &Replacement) {
        match replacement {
            Replacement::Define(name, combine, body) => {
                self.defined(name, *combine);
                self.pattern(body);
            }
            Replacement::Div(replacements) => self.replacements(replacements.as_slice()),
        }
    }

    fn leaf(&mut self, pattern: &Pattern) {
        match pattern {
            Pattern::Ref(name) => self.bytes(name),
            Pattern::ParentRef(name) => {
                self.word("parent ");
                self.bytes(name);
            }
            Pattern::Empty => self.word("empty"),
            Pattern::Text => self.word("text"),
            Pattern::NotAllowed => self.word("notAllowed"),
            Pattern::Value(name, text) => {
                self.type_name(name);
                self.word("'");
                self.bytes(text);
                self.word("'");
            }
            Pattern::Data(name, params) => {
                self.type_name(name);
                self.params(params);
            }
            Pattern::External(file) => {
                self.word("external ");
                self.file(file);
            }
            _ => self.word("-"),
        }
    }

    fn place(&mut self, word: &str, at: usize) {
        self.word(word);
        if write!(self.line, "{at}").is_err() {
            self.is_whole = false;
        }
    }

    fn prefix(&mut self, word: &str, prefix: &Bytes) {
        self.word(word);
        self.bytes(prefix);
        self.word("'");
    }

    fn fault(&mut self, fault: &XReadFault) {
        match fault {
            XReadFault::BadMarkup(at) => self.place("BadMarkup ", *at),
            XReadFault::TooDeep(at) => self.place("TooDeep ", *at),
            XReadFault::BadForm(at) => self.place("BadForm ", *at),
            XReadFault::UndeclaredPrefix(prefix) => self.prefix("UndeclaredPrefix '", prefix),
            XReadFault::NoMemory => self.word("no memory"),
        }
    }

    /// What is read, or the refusal.
    pub(crate) fn answer(&mut self, answer: &Result<Surface, XReadFault>) {
        match answer {
            Ok(Surface::Pattern(pattern)) => self.pattern(pattern),
            Ok(Surface::Grammar(items)) => self.items(items.as_slice()),
            Err(fault) => self.fault(fault),
        }
    }
}
