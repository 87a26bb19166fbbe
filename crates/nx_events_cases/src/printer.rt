//! Items as text: the place of each, and what it says. Behind each stands a semicolon.

use nx_base::fault::{Fault, Span};
use nx_base::name::Name;
use nx_events::item::{Event, Item};
use nx_events::prefix::TagPrefix;
use std::alloc::Global;
use std::test::Fail;

/// What was told so far.
#[derive(Drop)]
pub(crate) struct Printer {
    told: String,
    /// Whether nothing was left out, for want of memory or because it is no text.
    is_whole: bool,
}

impl Printer {
    pub(crate) fn new(alloc: Global) -> Printer {
        Printer {
            told: String::new(alloc),
            is_whole: true,
        }
    }

    /// All of it, where it is whole.
    pub(crate) fn finish(self) -> Result<String, Fail> {
        if self.is_whole {
            Ok(self.told)
        } else {
            Err(Fail::new("not whole"))
        }
    }

    pub(crate) fn word(&mut self, word: &str) {
        if self.told.push_str(word).is_err() {
            self.is_whole = false;
        }
    }

    pub(crate) fn text(&mut self, bytes: &[u8]) {
        match str::from_utf8(bytes) {
            Ok(text) => self.word(text),
            Err(_) => self.is_whole = false,
        }
    }

    pub(crate) fn number(&mut self, number: usize) {
        if write!(self.told, "{number}").is_err() {
            self.is_whole = false;
        }
    }

    fn span(&mut self, span: &Span) {
        self.number(span.from);
        self.word("-");
        self.number(span.to);
        self.word(" ");
    }

    pub(crate) fn fault(&mut self, fault: &Fault) {
        let kind = fault.kind;
        self.span(&fault.span);
        if write!(self.told, "{kind:?} ").is_err() {
            self.is_whole = false;
        }
        let (front, end) = fault.detail.pieces();
        self.text(front);
        self.text(end);
        self.word(";");
    }

    fn name(&mut self, name: &Name) {
        self.word("{");
        self.text(name.ns.as_slice());
        self.word("}");
        self.text(name.local.as_slice());
    }

    /// Names, each with a semicolon behind it.
    pub(crate) fn names(&mut self, names: &[Name]) {
        for name in names {
            self.name(name);
            self.word(";");
        }
    }

    fn attribute(&mut self, name: &Name, value: &[u8]) {
        self.word("Att ");
        self.name(name);
        self.word("=");
        self.text(value);
    }

    fn event(&mut self, event: &Event) {
        match event {
            Event::Enter(name) => {
                self.word("Enter ");
                self.name(name);
            }
            Event::EnterLost => self.word("EnterLost"),
            Event::Att(name, value) => self.attribute(name, value.as_slice()),
            Event::TagEnd => self.word("TagEnd"),
            Event::Chars(string) => {
                self.word("Chars ");
                self.text(string.as_slice());
            }
            Event::Leave => self.word("Leave"),
        }
    }

    fn item(&mut self, item: &Item) {
        match item {
            Item::Fault(fault) => self.fault(fault),
            Item::Event(event, span) => {
                self.span(span);
                self.event(event);
                self.word(";");
            }
        }
    }

    pub(crate) fn items(&mut self, items: &[Item]) {
        for item in items {
            self.item(item);
        }
    }

    /// Those of the items that are faults.
    pub(crate) fn faults(&mut self, items: &[Item]) {
        for item in items {
            if let Item::Fault(fault) = item {
                self.fault(fault);
            }
        }
    }

    fn name_or_none(&mut self, name: &Option<Name>) {
        match name {
            Some(name) => self.name(name),
            None => self.word("-"),
        }
    }

    /// The case of a prefix and what is told of it.
    pub(crate) fn prefix(&mut self, prefix: &TagPrefix) {
        match prefix {
            TagPrefix::ElementName => self.word("element"),
            TagPrefix::EndName(written) => {
                self.word("end ");
                self.text(written.as_slice());
            }
            TagPrefix::AttributeName(items) => {
                self.word("name ");
                self.items(items.as_slice());
            }
            TagPrefix::AttributeValue(items, name) => {
                self.word("value ");
                self.name_or_none(name);
                self.word(" ");
                self.items(items.as_slice());
            }
            TagPrefix::Elsewhere => self.word("elsewhere"),
        }
    }
}
