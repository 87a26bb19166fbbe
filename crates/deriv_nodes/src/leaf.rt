//! Leaves of patterns: types with their excepts, values, and the name classes of attributes.

ghost use Rattle.std.specs.Prelude.{◌≡◌};
ghost use Rattle.std.specs.Cmp.{partial_equiv_from_equiv};
ghost use Rattle.std.specs.Hash as fed;
ghost use Rattle.rng_core.specs.Meaning.{class_of, pattern_of};
ghost use Rattle.deriv_nodes.specs.Alike.{class_digest_of, digest_of, same_leaf, leaves_laws, leaves_hash};
ghost use Rattle.deriv_nodes.specs.Reading.{IsData, IsNames, class_in, leaf_at};
ghost use Rattle.deriv_nodes.specs.Seen.{IsDataNode};

use crate::node::Node;
use indexmap::IndexSet;
use rng_core::grammar::Pat;
use rng_core::name_class::NameClass;
use std::hash::{Hash, Hasher};

/// A leaf: a pattern of one node. The name class of an attribute stands here as an attribute of an empty value.
#[derive(Drop)]
pub struct Leaf {
    pub pattern: Pat,
}

/// The local part of a class of one name.
fn class_digest(class: &NameClass) -> &[u8]
    ensures { result.now ≡ class_digest_of (class_of class.now) }
{
    match class {
        NameClass::Name(name) => name.local.as_slice(),
        NameClass::AnyName => b"",
        NameClass::NsName(_) => b"",
        NameClass::Choice(_, _) => b"",
        NameClass::Except(_, _) => b"",
    }
}

impl Leaf {
    /// Bytes that are mostly different where leaves are.
    fn digest(&self) -> &[u8]
        ensures { result.now ≡ digest_of (pattern_of self.now.pattern) }
    {
        match &self.pattern {
            Pat::Value(_, text) => text.as_slice(),
            Pat::Attribute(class, _) => class_digest(class),
            Pat::NotAllowed => b"",
            Pat::Empty => b"",
            Pat::Text => b"",
            Pat::Typed(_, _) => b"",
            Pat::List(_) => b"",
            Pat::Ref(_) => b"",
            Pat::OneOrMore(_) => b"",
            Pat::Choice(_, _) => b"",
            Pat::Group(_, _) => b"",
            Pat::Interleave(_, _) => b"",
        }
    }
}

impl Leaf {
    /// The type or the value as a node.
    fn as_data(&self) -> Node<'_>
        requires { IsData (pattern_of self.now.pattern) }
        ensures { IsDataNode (pattern_of self.now.pattern) result }
    {
        match &self.pattern {
            Pat::Typed(datatype, excepts) => Node::Typed(datatype, excepts),
            Pat::Value(datatype, text) => Node::Value(datatype, text),
            _ => unreachable!(),
        }
    }

    /// The name class.
    fn as_names(&self) -> &NameClass
        requires { IsNames (pattern_of self.now.pattern) }
        ensures { class_of result.now ≡ class_in (pattern_of self.now.pattern) }
    {
        match &self.pattern {
            Pat::Attribute(class, _) => class,
            _ => unreachable!(),
        }
    }
}

impl PartialEq for Leaf {
    ghost eq = { same_leaf };

    ghost laws = { partial_equiv_from_equiv leaves_laws };

    fn eq(&self, other: &Leaf) -> bool {
        self.pattern.same(&other.pattern)
    }
}

impl Eq for Leaf {
    ghost laws = { leaves_laws };
}

impl Hash for Leaf {
    ghost hash_input = { λ leaf. fed.slice fed.u8 (digest_of (pattern_of leaf.pattern)) };

    ghost respects_eq = { leaves_hash };

    fn hash<H: Hasher>(&self, state: &mut H) {
        self.digest().hash(state);
    }
}

/// The type or the value of a number.
pub(crate) fn data_at(leaves: &IndexSet<Leaf>, k: usize) -> Node<'_>
    requires { IsData (leaf_at leaves.now.keys k) }
    ensures { IsDataNode (leaf_at leaves.now.keys k) result }
{
    match leaves.get_index(k) {
        None => unreachable!(),
        Some(leaf) => leaf.as_data(),
    }
}

/// The name class of a number.
pub(crate) fn names_at(leaves: &IndexSet<Leaf>, k: usize) -> &NameClass
    requires { IsNames (leaf_at leaves.now.keys k) }
    ensures { class_of result.now ≡ class_in (leaf_at leaves.now.keys k) }
{
    match leaves.get_index(k) {
        None => unreachable!(),
        Some(leaf) => leaf.as_names(),
    }
}
