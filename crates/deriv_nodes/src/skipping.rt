//! What an element's name opens behind children that are left out.

ghost use Rattle.std.specs.Prelude.{◌≡◌, ◌<◌, length, IfOk, map};
ghost use Rattle.rng_core.specs.Meaning.{definition_of};
ghost use Rattle.rng_core.specs.Patterns.{choice, empty};
ghost use Rattle.rng_kept.specs.Openings as s;
ghost use Rattle.rng_kept.specs.Skipping as skipping;
ghost use Rattle.deriv_nodes.specs.Numbers.{at, Later, IsAt};
ghost use Rattle.deriv_nodes.specs.Opened.{openings_at, AreNodes, AreOpened};

use crate::node::Node;
use crate::nodes::Nodes;
use crate::openings::{Open, Place};
use nx_base::memory::NoMemory;
use nx_base::name::Name;
use rng_core::grammar::Def;
use std::alloc::Global;

impl Nodes {
    /// The pattern, or nothing.
    fn or_empty(&mut self, p: usize) -> Result<usize, NoMemory>
        requires { p < length self.old }
        ensures later { Later self.old self.new }
        ensures made { IfOk result (IsAt self.new (choice (at self.old p) empty)) }
    {
        let none = self.empty()?;
        self.choice(p, none)
    }

    /// The ends of what is matched: of one child it is there or left out.
    fn ending(&mut self, p: usize) -> Result<usize, NoMemory>
        requires { p < length self.old }
        ensures later { Later self.old self.new }
        ensures made { IfOk result (IsAt self.new (skipping.ending (at self.old p))) }
    {
        match self.node(p) {
            Node::NotAllowed => Ok(p),
            Node::Empty => Ok(p),
            Node::Text => Ok(p),
            Node::Typed(_, _) => self.or_empty(p),
            Node::Value(_, _) => self.or_empty(p),
            Node::List(_) => self.or_empty(p),
            Node::Attribute(_, _) => self.not_allowed(),
            Node::Ref(_) => self.or_empty(p),
            Node::OneOrMore(body) => {
                let left = self.ending(body)?;
                self.first_of_many(left, body)
            }
            Node::Choice(a, b) => {
                let left = self.ending(a)?;
                let second = self.ending(b)?;
                self.choice_of(left, second)
            }
            Node::Group(a, b) => {
                let left = self.ending(a)?;
                let second = self.ending(b)?;
                self.either_side(left, b, second)
            }
            Node::Interleave(a, b) => {
                let left = self.ending(a)?;
                let second = self.ending(b)?;
                self.interleave_of(left, second)
            }
        }
    }

    /// The openings of an interleave behind children that are left out, of which these are those of the sides.
    fn of_ends(
        &mut self,
        alloc: Global,
        first: &[Open],
        a: usize,
        b: usize,
        second: &[Open],
    ) -> Result<Vec<Open>, NoMemory>
        requires first { AreNodes self.old first.now }
        requires a { a < length self.old }
        requires b { b < length self.old }
        requires second { AreNodes self.old second.now }
        ensures later { Later self.old self.new }
        ensures made { IfOk result (λ made. AreOpened self.new (s.joined
            (map (s.then_interleave (skipping.ending (at self.old b))) (openings_at self.old first.now))
            (map (s.under_interleave (skipping.ending (at self.old a))) (openings_at self.old second.now))) made.items) }
    {
        let a = self.ending(a)?;
        let b = self.ending(b)?;
        self.of_interleave(alloc, first, a, b, second)
    }

    /// The definitions that a name opens behind any children that are left out, each number once.
    pub fn skip_opens(
        &mut self,
        alloc: Global,
        defs: &[Def],
        name: &Name,
        p: usize,
    ) -> Result<Vec<Open>, NoMemory>
        requires { p < length self.old }
        ensures later { Later self.old self.new }
        ensures made { IfOk result (λ made. AreOpened self.new
            (skipping.skip_opens (map definition_of defs.now) name.now (at self.old p)) made.items) }
    {
        match self.node(p) {
            Node::NotAllowed => Ok(Vec::new(alloc)),
            Node::Empty => Ok(Vec::new(alloc)),
            Node::Text => Ok(Vec::new(alloc)),
            Node::Typed(_, _) => Ok(Vec::new(alloc)),
            Node::Value(_, _) => Ok(Vec::new(alloc)),
            Node::List(_) => Ok(Vec::new(alloc)),
            Node::Attribute(_, _) => Ok(Vec::new(alloc)),
            Node::Ref(number) => self.definition_opens(alloc, defs, name, number),
            Node::OneOrMore(body) => {
                let opened = self.skip_opens(alloc, defs, name, body)?;
                self.of_many(alloc, opened.as_slice(), body)
            }
            Node::Choice(a, b) => {
                let first = self.skip_opens(alloc, defs, name, a)?;
                let second = self.skip_opens(alloc, defs, name, b)?;
                self.of_choice(first, second)
            }
            Node::Group(a, b) => {
                let first = self.skip_opens(alloc, defs, name, a)?;
                let first = self.all_placed(alloc, Place::InGroup, first.as_slice(), b)?;
                let second = self.skip_opens(alloc, defs, name, b)?;
                self.of_choice(first, second)
            }
            Node::Interleave(a, b) => {
                let first = self.skip_opens(alloc, defs, name, a)?;
                let second = self.skip_opens(alloc, defs, name, b)?;
                self.of_ends(alloc, first.as_slice(), a, b, second.as_slice())
            }
        }
    }
}
