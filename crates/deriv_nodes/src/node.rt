//! Nodes as they are read.

use nx_base::sequence::Bytes;
use rng_core::name_class::NameClass;
use rng_types::datatype::{Datatype, Excepts};

/// A node: what it is, and the numbers of its parts.
#[derive(Clone, Copy)]
pub enum Node<'a> {
    /// Nothing at all matches.
    NotAllowed,
    /// No attributes and no children match.
    Empty,
    /// Any strings match.
    Text,
    /// A string of the type matches, but for the excepts.
    Typed(&'a Datatype, &'a Excepts),
    /// A string of the type that has the literal's value matches.
    Value(&'a Datatype, &'a Bytes),
    /// A string matches whose words match the body.
    List(usize),
    /// An attribute matches with a name in the class and a value that matches the body.
    Attribute(&'a NameClass, usize),
    /// An element matches as the definition of this number says.
    Ref(u32),
    /// One or more parts in order match the body.
    OneOrMore(usize),
    /// What either side matches.
    Choice(usize, usize),
    /// What the one side matches, and then what the other does.
    Group(usize, usize),
    /// What the sides match, shuffled.
    Interleave(usize, usize),
}
