//! Whether the text of a string can matter to a node, beside whether it is blank.

ghost use Rattle.std.specs.Prelude.{◌≡◌, ◌<◌, length};
ghost use Rattle.deriv_nodes.specs.Numbers.{at};
ghost use Rattle.deriv_nodes.specs.Telling as s;
ghost use Rattle.deriv_nodes.specs.Telling.{StringsAreAlike};

use crate::node::Node;
use crate::nodes::Nodes;
use nx_base::name::Name;

impl Nodes {
    /// Whether a type, a value or a list stands in the node outside of attributes. Where none does, what is left of it is the
    /// same behind all strings.
    pub fn tells_strings(&self, p: usize) -> bool
        requires { p < length self.now }
        ensures { result ≡ s.tells_strings (at self.now p) }
    {
        match self.node(p) {
            Node::Typed(_, _) => true,
            Node::Value(_, _) => true,
            Node::List(_) => true,
            Node::OneOrMore(body) => self.tells_strings(body),
            Node::Choice(a, b) => self.tells_strings(a) || self.tells_strings(b),
            Node::Group(a, b) => self.tells_strings(a) || self.tells_strings(b),
            Node::Interleave(a, b) => self.tells_strings(a) || self.tells_strings(b),
            Node::NotAllowed => false,
            Node::Empty => false,
            Node::Text => false,
            Node::Attribute(_, _) => false,
            Node::Ref(_) => false,
        }
    }

    /// Whether one stands in an attribute of the name.
    pub fn tells_values(&self, name: &Name, p: usize) -> bool
        requires { p < length self.now }
        ensures { result ≡ s.tells_values name.now (at self.now p) }
    {
        match self.node(p) {
            Node::Attribute(class, body) => {
                class.has_attribute(name) && self.tells_strings(body)
            }
            Node::OneOrMore(body) => self.tells_values(name, body),
            Node::Choice(a, b) => self.tells_values(name, a) || self.tells_values(name, b),
            Node::Group(a, b) => self.tells_values(name, a) || self.tells_values(name, b),
            Node::Interleave(a, b) => self.tells_values(name, a) || self.tells_values(name, b),
            Node::NotAllowed => false,
            Node::Empty => false,
            Node::Text => false,
            Node::Typed(_, _) => false,
            Node::Value(_, _) => false,
            Node::List(_) => false,
            Node::Ref(_) => false,
        }
    }
}

/// A pattern that tells no strings apart is the same behind all of them, and so with values of attributes of one kind. Nothing here
/// runs.
pub fn strings_are_alike()
    ensures { StringsAreAlike }
{}
