//! Whether two classes or patterns are put together alike.
//!
//! A contract sees where a box stands, so that two values of `NameClass` or `Pat` that are put together alike aren't
//! equal to it: each call here says that both stand for the same class or pattern, which is all that any definition
//! speaks of. Choices, groups and interleaves of very many parts nest to the left, so the calls go down first sides in a
//! loop, and call themselves for second sides.

ghost use Rattle.std.specs.Prelude.{◌≡◌, ◌↔◌, IsTrue};
ghost use Rattle.rng_types.specs.Equality.{same_datatype as same_types, same_excepts as same_lists};
ghost use Rattle.rng_core.specs.Patterns.{typed, literal, ref};
ghost use Rattle.rng_core.specs.Meaning.{class_of, pattern_of};
ghost use Rattle.rng_core.specs.Equality.{same_class, same_pattern};

use crate::grammar::Pat;
use crate::name_class::{NameClass, same_name};
use nx_base::equal::Equal;
use nx_base::sequence::Bytes;
use rng_types::datatype::{Datatype, Excepts};

/// Whether two classes are put together alike.
fn alike_classes(a: &NameClass, b: &NameClass) -> bool
    ensures { result ≡ same_class (class_of a.now) (class_of b.now) }
{
    let mut left = a;
    let mut right = b;
    loop {
        match left {
            NameClass::AnyName => return matches!(right, NameClass::AnyName),
            NameClass::NsName(ns) => {
                let NameClass::NsName(other) = right else {
                    return false;
                };
                return ns.as_slice() == other.as_slice();
            }
            NameClass::Name(name) => {
                let NameClass::Name(other) = right else {
                    return false;
                };
                return same_name(name, other);
            }
            NameClass::Except(all, taken) => {
                let NameClass::Except(other_all, other_taken) = right else {
                    return false;
                };
                return alike_classes(all, other_all) && alike_classes(taken, other_taken);
            }
            NameClass::Choice(front, last) => {
                let NameClass::Choice(other_front, other_last) = right else {
                    return false;
                };
                if !alike_classes(last, other_last) {
                    return false;
                }
                left = front;
                right = other_front;
            }
        }
    }
}

/// Whether two types are the same.
fn same_datatype(a: &Datatype, b: &Datatype) -> bool
    ensures { result ≡ same_types a.now b.now }
{
    a.equals(b)
}

/// Whether two lists of excepts are the same.
fn same_excepts(a: &Excepts, b: &Excepts) -> bool
    ensures { result ≡ same_lists a.now b.now }
{
    a.equals(b)
}

impl Pat {
    /// Whether the pattern is this type beside these excepts.
    fn is_typed(&self, datatype: &Datatype, excepts: &Excepts) -> bool
        ensures { result ≡ same_pattern (typed datatype.now excepts.now) (pattern_of self.now) }
    {
        match self {
            Pat::Typed(other, others) => {
                same_datatype(datatype, other) && same_excepts(excepts, others)
            }
            _ => false,
        }
    }

    /// Whether it is this value.
    fn is_value(&self, datatype: &Datatype, text: &Bytes) -> bool
        ensures { result ≡ same_pattern (literal datatype.now text.now) (pattern_of self.now) }
    {
        match self {
            Pat::Value(other, literal) => {
                same_datatype(datatype, other) && text.as_slice() == literal.as_slice()
            }
            _ => false,
        }
    }

    /// Whether it is this reference.
    fn is_ref(&self, number: u32) -> bool
        ensures { result ≡ same_pattern (ref number) (pattern_of self.now) }
    {
        match self {
            Pat::Ref(other) => number == *other,
            _ => false,
        }
    }
}

/// Whether two patterns are put together alike.
fn alike_patterns(a: &Pat, b: &Pat) -> bool
    ensures { result ≡ same_pattern (pattern_of a.now) (pattern_of b.now) }
{
    let mut left = a;
    let mut right = b;
    loop {
        match (left, right) {
            (Pat::NotAllowed, other) => return matches!(other, Pat::NotAllowed),
            (Pat::Empty, other) => return matches!(other, Pat::Empty),
            (Pat::Text, other) => return matches!(other, Pat::Text),
            (Pat::Typed(datatype, excepts), other) => return other.is_typed(datatype, excepts),
            (Pat::Value(datatype, text), other) => return other.is_value(datatype, text),
            (Pat::Ref(number), other) => return other.is_ref(*number),
            (Pat::List(body), Pat::List(other)) => {
                left = body;
                right = other;
            }
            (Pat::OneOrMore(body), Pat::OneOrMore(other)) => {
                left = body;
                right = other;
            }
            (Pat::Attribute(class, body), Pat::Attribute(other_class, other)) => {
                if !alike_classes(class, other_class) {
                    return false;
                }
                left = body;
                right = other;
            }
            (Pat::Choice(first, second), Pat::Choice(other, behind)) => {
                if !alike_patterns(second, behind) {
                    return false;
                }
                left = first;
                right = other;
            }
            (Pat::Group(first, second), Pat::Group(other, behind)) => {
                if !alike_patterns(second, behind) {
                    return false;
                }
                left = first;
                right = other;
            }
            (Pat::Interleave(first, second), Pat::Interleave(other, behind)) => {
                if !alike_patterns(second, behind) {
                    return false;
                }
                left = first;
                right = other;
            }
            _ => return false,
        }
    }
}

impl NameClass {
    /// Whether both stand for the same class: the same names and namespaces, put together alike.
    pub fn same(&self, other: &NameClass) -> bool
        ensures { IsTrue result ↔ (class_of self.now ≡ class_of other.now) }
    {
        alike_classes(self, other)
    }
}

impl Pat {
    /// Whether both stand for the same pattern.
    pub fn same(&self, other: &Pat) -> bool
        ensures { IsTrue result ↔ (pattern_of self.now ≡ pattern_of other.now) }
    {
        alike_patterns(self, other)
    }
}
