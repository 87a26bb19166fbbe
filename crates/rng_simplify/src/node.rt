//! A schema in one piece: patterns as numbered nodes, so that nothing is as deep in memory as the files and references are.
//!
//! A node's parts have smaller numbers than the node. What is short for something else is written out.

use nx_base::sequence::Bytes;
use rnc_parse::surface::{Combine, Defined, Params, TypeName};
use rng_core::name_class::NameClass;
use std::marker::Model;

/// A node, by its place among the nodes. To a contract it is that place.
#[derive(Clone, Copy, Debug, PartialEq, Eq)]
pub(crate) struct NodeNumber(pub(crate) usize);

impl Model for NodeNumber {
    ghost use Rattle.std.specs.Prelude.{ℕ};

    ghost Value = { ℕ };

    ghost view = { λ number. number.0 };

    ghost inverse = { λ n. record { 0 = n } };
}

/// How two patterns are joined.
#[derive(Clone, Copy, Debug, PartialEq, Eq)]
pub(crate) enum Sign {
    Choice,
    Group,
    Interleave,
}

/// A pattern, whose parts are nodes by their numbers.
#[derive(Drop)]
pub(crate) enum Node {
    /// An element of these names, with this content.
    Element(NameClass, NodeNumber),
    /// An attribute of these names, with this value.
    Attribute(NameClass, NodeNumber),
    /// Words.
    List(NodeNumber),
    /// What the grammar around the node defines under the name.
    Ref(Bytes),
    /// What the grammar around that one defines under the name.
    ParentRef(Bytes),
    Empty,
    Text,
    NotAllowed,
    /// A literal of a datatype.
    Value(TypeName, Bytes),
    /// A datatype with its params, and what is taken away: nothing, where that is not allowed.
    Typed(TypeName, Params, NodeNumber),
    /// A grammar of its own.
    Grammar(Vec<Clause>),
    /// One or more.
    OneOrMore(NodeNumber),
    /// The two joined.
    Joined(Sign, NodeNumber, NodeNumber),
}

/// A definition in a grammar.
#[derive(Drop)]
pub(crate) struct Clause {
    pub(crate) name: Defined,
    pub(crate) combine: Combine,
    pub(crate) body: NodeNumber,
}
