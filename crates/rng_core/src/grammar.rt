//! Patterns, definitions and grammars.

ghost use Rattle.std.specs.Prelude.{◌≡◌, ◌<◌, ◌≤◌, IfSome};
ghost use Rattle.rng_core.specs.Patterns.{choice};
ghost use Rattle.rng_core.specs.Meaning.{pattern_of};
ghost use Rattle.rng_core.specs.Weights.{weight, waits};

use crate::name_class::NameClass;
use nx_base::sequence::{Bytes, Sequence};
use rng_types::datatype::{Datatype, Excepts};

/// A pattern of the simple form. Simplification bounds a path in it at 8,000 nodes. It is let go in a loop, whatever its
/// shape. What walks over a pattern calls itself for each second side of a path at least, for which 2 MB of stack suffice:
/// a path of second sides alone is copied and compared in 512 KB, and judged in 1 MB.
pub enum Pat {
    /// Nothing at all matches.
    NotAllowed,
    /// No attributes and no children match.
    Empty,
    /// Any strings match.
    Text,
    /// A string of the type matches, but for the excepts.
    Typed(Datatype, Excepts),
    /// A string of the type that has the literal's value matches.
    Value(Datatype, Bytes),
    /// A string matches whose words match the body.
    List(Box<Pat>),
    /// An attribute matches with a name in the class and a value that matches the body.
    Attribute(NameClass, Box<Pat>),
    /// An element matches as the definition of this number says.
    Ref(u32),
    /// One or more parts in order match the body.
    OneOrMore(Box<Pat>),
    /// What either side matches.
    Choice(Box<Pat>, Box<Pat>),
    /// What the one side matches, and then what the other does.
    Group(Box<Pat>, Box<Pat>),
    /// What the sides match, shuffled.
    Interleave(Box<Pat>, Box<Pat>),
}

impl Pat {
    /// What is let go next of what was put aside, and what is left of that: of a choice its second side, and else the parts.
    fn put_aside_last(self) -> Option<(Pat, Pat)>
        ensures { IfSome result (λ next. weight (pattern_of next.0) (pattern_of next.1) ≤ waits (pattern_of self)) }
    {
        match self {
            Pat::NotAllowed => None,
            Pat::Empty => None,
            Pat::Text => None,
            Pat::Typed(_, _) => None,
            Pat::Value(_, _) => None,
            Pat::Ref(_) => None,
            Pat::List(body) => Some((Box::into_inner(body), Pat::Empty)),
            Pat::Attribute(_, body) => Some((Box::into_inner(body), Pat::Empty)),
            Pat::OneOrMore(body) => Some((Box::into_inner(body), Pat::Empty)),
            Pat::Choice(before, second) => Some((Box::into_inner(second), Box::into_inner(before))),
            Pat::Group(before, second) => Some((Box::into_inner(second), Box::into_inner(before))),
            Pat::Interleave(before, second) => Some((
                Box::into_inner(second),
                Box::into_inner(before),
            )),
        }
    }

    /// The first of two sides, where the second one is put aside: the box of the first holds what was put aside before.
    fn put_aside(mut first: Box<Pat>, second: Box<Pat>, aside: Pat) -> (Pat, Pat)
        ensures next { pattern_of result.0 ≡ pattern_of first.value }
        ensures aside { pattern_of result.1 ≡ choice (pattern_of aside) (pattern_of second.value) }
    {
        let next = Box::replace(&mut first, aside);
        (next, Pat::Choice(first, second))
    }

    /// What of a pattern is let go next, and what is put aside until then. The node itself is let go.
    fn let_go(self, aside: Pat) -> Option<(Pat, Pat)>
        ensures { IfSome result (λ next. weight (pattern_of next.0) (pattern_of next.1) < weight (pattern_of self) (pattern_of aside)) }
    {
        match self {
            Pat::NotAllowed => aside.put_aside_last(),
            Pat::Empty => aside.put_aside_last(),
            Pat::Text => aside.put_aside_last(),
            Pat::Typed(_, _) => aside.put_aside_last(),
            Pat::Value(_, _) => aside.put_aside_last(),
            Pat::Ref(_) => aside.put_aside_last(),
            Pat::List(body) => Some((Box::into_inner(body), aside)),
            Pat::Attribute(_, body) => Some((Box::into_inner(body), aside)),
            Pat::OneOrMore(body) => Some((Box::into_inner(body), aside)),
            Pat::Choice(first, second) => Some(Pat::put_aside(first, second, aside)),
            Pat::Group(first, second) => Some(Pat::put_aside(first, second, aside)),
            Pat::Interleave(first, second) => Some(Pat::put_aside(first, second, aside)),
        }
    }
}

// A pattern is let go in a loop, whatever its shape: second sides that are still to be let go hang in the boxes of first
// sides that are empty by then.
impl Drop for Pat {
    fn drop(mut self) {
        let mut aside = Pat::Empty;
        while let Some((next, rest)) = self.let_go(aside) {
            self = next;
            aside = rest;
        }
    }
}

/// An element's names and its content.
#[derive(Drop)]
pub struct Def {
    pub class: NameClass,
    pub content: Pat,
}

/// A list of definitions; a definition's number is its place in it.
pub type Defs = Sequence<Def>;

/// A start pattern, and the definitions that references name.
#[derive(Drop)]
pub struct Grammar {
    pub start: Pat,
    pub defs: Defs,
}
