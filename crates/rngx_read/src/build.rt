//! The elements of a schema put together from the items of a text, while what stands in other namespaces is passed over.

ghost use Rattle.std.specs.Prelude.{◌≡◌, ◌+◌, ◌<◌, ◌^◌, ◌++◌, OnOk};
ghost use Rattle.nx_events.specs.PlainAttributes.{attribute_name};
ghost use Rattle.rngx_read.specs.Building as building;
ghost use Rattle.rngx_read.specs.Views.{built_of, frame_of, listed};
ghost use Rattle.rngx_read.specs.Walking.{at_start};

use crate::defaults::bytes_of;
use crate::element::{Attribute, Element, Tag};
use crate::scope::Scope;
use nx_base::memory::NoMemory;
use nx_base::name::{Name, Names};
use nx_base::sequence::{Bytes, Sequence, TryCopy};
use nx_events::item::{Event, Item};
use nx_events::plain_opening::PlainAttribute;
use std::alloc::Global;
use std::mem;

/// The namespace of schemas.
const SCHEMA_NAMESPACE: &[u8] = b"http://relaxng.org/ns/structure/1.0";

/// An open element, as far as it is read.
#[derive(Drop)]
struct Open {
    tag: Tag,
    /// Where its tag begins.
    at: usize,
    /// Its child elements in the schema's namespace.
    children: Vec<Element>,
}

/// Elements that are being put together.
#[derive(Drop)]
pub(crate) struct Builder {
    alloc: Global,
    /// The innermost open element of the schema. Outside of all elements, what holds the root.
    inner: Open,
    /// Those around it, the innermost last.
    outer: Vec<Open>,
    /// How many elements are open that are passed over.
    passed: usize,
    /// The own declarations of the tags that come, the next one last.
    declared: Vec<Names>,
}

/// An element without anything in it, at which these declarations are in force.
fn bare(alloc: Global, local: Bytes, scope: Scope, at: usize) -> Open
    ensures { frame_of result ≡ building.bare local scope }
{
    let tag = Tag {
        local,
        attributes: Sequence::new(alloc),
        scope,
        text: Bytes::new(alloc),
    };
    Open {
        tag,
        at,
        children: Vec::new(alloc),
    }
}

/// Adds copies of bytes at the end. Where that is refused, any text may be there.
fn extend(alloc: Global, text: &mut Bytes, more: &[u8]) -> Result<(), NoMemory>
    ensures { OnOk result (text.new ≡ text.old ++ more.now) }
{
    let mut bytes = mem::replace(text, Bytes::new(alloc)).into_vec();
    bytes.extend_from_slice(more)?;
    *text = Bytes::from_vec(bytes);
    Ok(())
}

impl Builder {
    /// Nothing is read, and these are the own declarations of the tags that come.
    pub(crate) fn new(alloc: Global, declared: Vec<Names>) -> Builder
        ensures { built_of result ≡ (at_start declared.items).built }
    {
        let mut declared = declared;
        declared.reverse();
        Builder {
            alloc,
            inner: bare(alloc, Bytes::new(alloc), Scope::new(), 0),
            outer: Vec::new(alloc),
            passed: 0,
            declared,
        }
    }

    /// The elements that stand outside of all others.
    pub(crate) fn into_elements(self) -> Vec<Element>
        ensures { listed result.items ≡ (built_of self).inner.children }
    {
        let Builder { inner, .. } = self;
        inner.children
    }

    /// The own declarations of the next tag.
    fn next_own(&mut self) -> Names
        ensures next { result ≡ building.next_own (built_of self.old).declared }
        ensures rest { built_of self.new ≡ building.own_taken (built_of self.old) }
    {
        match self.declared.pop() {
            Some(own) => own,
            None => Names::new(self.alloc),
        }
    }

    /// An element begins.
    pub(crate) fn enter(&mut self, name: &Name, at: usize) -> Result<(), NoMemory>
        requires { self.old.passed + 1 < 2 ^ 64 }
        ensures { OnOk result (built_of self.new ≡ building.entered_by self.old.passed name.now (built_of self.old)) }
    {
        let own = self.next_own();
        if self.passed > 0 || name.ns.as_slice() != SCHEMA_NAMESPACE {
            self.passed += 1;
            return Ok(());
        }
        self.open(name, own, at)
    }

    /// An element of the schema begins, which has these declarations of its own.
    fn open(&mut self, name: &Name, own: Names, at: usize) -> Result<(), NoMemory>
        ensures { OnOk result (built_of self.new ≡ building.opened_with name.now own (built_of self.old)) }
    {
        let scope = Scope::inside(self.alloc, &self.inner.tag.scope, own)?;
        let local = name.local.copy()?;
        let inner = bare(self.alloc, local, scope, at);
        let outer = mem::replace(&mut self.inner, inner);
        self.outer.push(outer)?;
        Ok(())
    }

    /// The innermost element has this attribute, whose name one look told.
    pub(crate) fn plain_attribute(&mut self, attribute: &PlainAttribute<'_>) -> Result<(), NoMemory>
        ensures { OnOk result (built_of self.new
            ≡ building.attribute_by self.old.passed (attribute_name attribute.now) attribute.now.value.now (built_of self.old)) }
    {
        if self.passed > 0 || attribute.is_xml {
            return Ok(());
        }
        let local = bytes_of(self.alloc, attribute.local)?;
        let value = bytes_of(self.alloc, attribute.value)?;
        self.inner.tag.attributes.push(Attribute { local, value })
    }

    /// The innermost element has this attribute.
    fn attribute(&mut self, name: &Name, value: &Bytes) -> Result<(), NoMemory>
        ensures { OnOk result (built_of self.new ≡ building.attribute_by self.old.passed name.now value.now (built_of self.old)) }
    {
        if self.passed > 0 || !name.ns.is_empty() {
            return Ok(());
        }
        let local = name.local.copy()?;
        let value = value.copy()?;
        self.inner.tag.attributes.push(Attribute { local, value })
    }

    /// A string stands in the innermost element.
    pub(crate) fn string(&mut self, text: &[u8]) -> Result<(), NoMemory>
        ensures { OnOk result (built_of self.new ≡ building.string_by self.old.passed text.now (built_of self.old)) }
    {
        if self.passed > 0 {
            return Ok(());
        }
        extend(self.alloc, &mut self.inner.tag.text, text)
    }

    /// The innermost element ends.
    pub(crate) fn leave(&mut self) -> Result<(), NoMemory>
        ensures { OnOk result (built_of self.new ≡ building.left_by self.old.passed (built_of self.old)) }
    {
        if self.passed > 0 {
            self.passed -= 1;
            return Ok(());
        }
        let Some(outer) = self.outer.pop() else {
            return Ok(());
        };
        let Open { tag, at, children } = mem::replace(&mut self.inner, outer);
        self.inner.children.push(Element { tag, at, children })?;
        Ok(())
    }

    /// One more item.
    pub(crate) fn add(&mut self, item: &Item) -> Result<(), NoMemory>
        requires { self.old.passed + 1 < 2 ^ 64 }
        ensures { OnOk result (built_of self.new ≡ building.behind_item item.now (built_of self.old)) }
    {
        match item {
            Item::Event(Event::Enter(name), span) => self.enter(name, span.from),
            Item::Event(Event::Att(name, value), _) => self.attribute(name, value),
            Item::Event(Event::Chars(text), _) => self.string(text.as_slice()),
            Item::Event(Event::Leave, _) => self.leave(),
            Item::Event(Event::EnterLost, _) | Item::Event(Event::TagEnd, _) | Item::Fault(_) => {
                Ok(())
            }
        }
    }
}
