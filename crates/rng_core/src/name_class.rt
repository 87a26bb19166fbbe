//! Name classes.
//!
//! A choice of very many names nests to the left, so the calls here go down its left side in a loop. What stands on
//! the right side of a choice, or in an except, is as deep as the brackets of a schema at most: there they recurse.

ghost use Rattle.std.specs.Prelude.{◌≡◌, ◌&&◌, ◌||◌, IfOk};
ghost use Rattle.nx_base.specs.Names.{is_namespace as is_namespace_text, is_local as is_local_text};
ghost use Rattle.nx_base.specs.Names.{is_xml_name as is_name_of_xml, is_attribute_name as is_name_of_attribute};
ghost use Rattle.nx_base.specs.Names.{same_name as same_name_as};
ghost use Rattle.rng_core.specs.Names.{covers, has_name, has_attribute_name};
ghost use Rattle.rng_core.specs.Unmentioned.{borne};
ghost use Rattle.rng_core.specs.Meaning.{class_of};

use nx_base::character::is_nc_name;
use nx_base::equal::Equal;
use nx_base::name::{Name, XMLNS_NAMESPACE};
use nx_base::sequence::Bytes;
use rng_types::word::is_of_chars;

/// A set of names (ISO/IEC 19757-2, section 9.2).
pub enum NameClass {
    /// Every name.
    AnyName,
    /// The names of one namespace.
    NsName(Bytes),
    /// One name.
    Name(Name),
    /// The names of either class.
    Choice(Box<NameClass>, Box<NameClass>),
    /// The names of the first class that aren't in the second.
    Except(Box<NameClass>, Box<NameClass>),
}

impl Drop for NameClass {
    fn drop(mut self) {
        loop {
            match self {
                NameClass::Choice(front, _) => self = Box::into_inner(front),
                NameClass::AnyName => return,
                NameClass::NsName(_) => return,
                NameClass::Name(_) => return,
                NameClass::Except(_, _) => return,
            }
        }
    }
}

/// Whether names can be in a namespace.
pub(crate) fn is_namespace(ns: &[u8]) -> bool
    ensures { result ≡ is_namespace_text ns.now }
{
    is_of_chars(ns) && ns != XMLNS_NAMESPACE.as_bytes()
}

/// Whether bytes are an NCName (Namespaces in XML 1.0, section 3).
fn is_local(local: &[u8]) -> bool
    ensures { result ≡ is_local_text local.now }
{
    match str::from_utf8(local) {
        Ok(text) => is_nc_name(text),
        Err(_) => false,
    }
}

/// Whether a name is one that an element can have.
pub fn is_xml_name(name: &Name) -> bool
    ensures { result ≡ is_name_of_xml name.now }
{
    is_namespace(name.ns.as_slice()) && is_local(name.local.as_slice())
}

/// Whether a name is one that an attribute can have. `xmlns` in no namespace is none: it declares a namespace.
pub fn is_attribute_name(name: &Name) -> bool
    ensures { result ≡ is_name_of_attribute name.now }
{
    is_xml_name(name)
        && !(name.ns.as_slice() == b"".as_slice() && name.local.as_slice() == b"xmlns".as_slice())
}

/// What has a name. An attribute can have each name that an element can, but for `xmlns` in no namespace.
#[derive(Clone, Copy, Debug, PartialEq, Eq)]
pub enum Bearer {
    Element,
    Attribute,
}

/// Whether two names are the same.
pub(crate) fn same_name(a: &Name, b: &Name) -> bool
    ensures { result ≡ same_name_as a.now b.now }
{
    a.ns.as_slice() == b.ns.as_slice() && a.local.as_slice() == b.local.as_slice()
}

impl NameClass {
    /// Whether the class has a name, by what is written in it.
    pub(crate) fn covers(&self, name: &Name) -> bool
        ensures { result ≡ covers (class_of self.now) name.now }
    {
        let mut class = self;
        loop {
            match class {
                NameClass::AnyName => return true,
                NameClass::NsName(ns) => return name.ns.as_slice() == ns.as_slice(),
                NameClass::Name(only) => return same_name(name, only),
                NameClass::Except(all, taken) => return all.covers(name) && !taken.covers(name),
                NameClass::Choice(front, last) => {
                    if last.covers(name) {
                        return true;
                    }
                    class = front;
                }
            }
        }
    }

    /// Whether the class has the name: it is one that a document can have, and the class covers it.
    pub fn has(&self, name: &Name) -> bool
        ensures { result ≡ has_name (class_of self.now) name.now }
    {
        if !self.covers(name) {
            return false;
        }
        is_xml_name(name)
    }

    /// Whether the class has the name as that of an attribute.
    pub fn has_attribute(&self, name: &Name) -> bool
        ensures { result ≡ has_attribute_name (class_of self.now) name.now }
    {
        if !self.covers(name) {
            return false;
        }
        is_attribute_name(name)
    }

    /// Whether the class has the name as one of an element, or of an attribute.
    #[tactic(auto, unfolding(crate::specs::Unmentioned::borne))]
    pub(crate) fn has_as(&self, bearer: Bearer, name: &Name) -> bool
        ensures { result ≡ has_name (borne bearer (class_of self.now)) name.now }
    {
        match bearer {
            Bearer::Element => self.has(name),
            Bearer::Attribute => self.has_attribute(name),
        }
    }
}
