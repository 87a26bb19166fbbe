//! How nodes are put together.

ghost use Rattle.std.specs.Prelude.{◌≡◌, ◌++◌};
ghost use Rattle.std.specs.Cmp.{partial_equiv_from_equiv};
ghost use Rattle.std.specs.Hash as fed;
ghost use Rattle.deriv_nodes.specs.Shapes.{form_of, first_of, second_of, same_shape, shapes_laws, shapes_hash};

use std::hash::{Hash, Hasher};

/// How a node is put together: of nodes, which stand before it, and of leaves, by their numbers.
#[derive(Clone, Copy, Debug)]
pub enum Shape {
    /// Nothing at all matches.
    NotAllowed,
    /// No attributes and no children match.
    Empty,
    /// Any strings match.
    Text,
    /// A type with its excepts, or a value: the leaf of this number.
    Data(usize),
    /// A string matches whose words match the body.
    List(usize),
    /// An attribute: its names, which are those of a leaf, and what its value matches.
    Attribute(usize, usize),
    /// An element matches as the definition of this number says.
    Ref(u32),
    /// One or more parts in order match the body.
    OneOrMore(usize),
    /// What either side matches.
    Choice(usize, usize),
    /// What the one side matches, and then what the other does.
    Group(usize, usize),
    /// What the sides match, shuffled.
    Interleave(usize, usize),
}

impl Shape {
    /// A number for each form.
    fn form(&self) -> u8
        ensures { result ≡ form_of self.now }
    {
        match self {
            Shape::NotAllowed => 0,
            Shape::Empty => 1,
            Shape::Text => 2,
            Shape::Data(_) => 3,
            Shape::List(_) => 4,
            Shape::Attribute(_, _) => 5,
            Shape::Ref(_) => 6,
            Shape::OneOrMore(_) => 7,
            Shape::Choice(_, _) => 8,
            Shape::Group(_, _) => 9,
            Shape::Interleave(_, _) => 10,
        }
    }

    /// The first number that stands in it.
    fn first(&self) -> usize
        ensures { result ≡ first_of self.now }
    {
        match self {
            Shape::NotAllowed => 0,
            Shape::Empty => 0,
            Shape::Text => 0,
            Shape::Data(leaf) => *leaf,
            Shape::List(body) => *body,
            Shape::Attribute(leaf, _) => *leaf,
            Shape::Ref(number) => *number as usize,
            Shape::OneOrMore(body) => *body,
            Shape::Choice(a, _) => *a,
            Shape::Group(a, _) => *a,
            Shape::Interleave(a, _) => *a,
        }
    }

    /// The second one.
    fn second(&self) -> usize
        ensures { result ≡ second_of self.now }
    {
        match self {
            Shape::NotAllowed => 0,
            Shape::Empty => 0,
            Shape::Text => 0,
            Shape::Data(_) => 0,
            Shape::List(_) => 0,
            Shape::Attribute(_, body) => *body,
            Shape::Ref(_) => 0,
            Shape::OneOrMore(_) => 0,
            Shape::Choice(_, b) => *b,
            Shape::Group(_, b) => *b,
            Shape::Interleave(_, b) => *b,
        }
    }
}

impl PartialEq for Shape {
    ghost eq = { same_shape };

    ghost laws = { partial_equiv_from_equiv shapes_laws };

    fn eq(&self, other: &Shape) -> bool {
        self.form() == other.form()
            && self.first() == other.first()
            && self.second() == other.second()
    }
}

impl Eq for Shape {
    ghost laws = { shapes_laws };
}

impl Hash for Shape {
    ghost hash_input = { λ s. fed.u8 (form_of s) ++ fed.usize (first_of s) ++ fed.usize (second_of s) };

    ghost respects_eq = { shapes_hash };

    fn hash<H: Hasher>(&self, state: &mut H) {
        state.write_u8(self.form());
        state.write_usize(self.first());
        state.write_usize(self.second());
    }
}
