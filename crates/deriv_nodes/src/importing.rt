//! Patterns as nodes.

ghost use Rattle.std.specs.Prelude.{◌≡◌, ◌<◌, length, IfOk};
ghost use Rattle.rng_core.specs.Meaning.{class_of, pattern_of};
ghost use Rattle.rng_core.specs.Patterns.{attribute};
ghost use Rattle.deriv_pattern.specs.Leaves.{IsInOrder};
ghost use Rattle.deriv_nodes.specs.Numbers.{at, Later, IsAt};
ghost use Rattle.deriv_nodes.specs.Reading.{IsData};

use crate::nodes::Nodes;
use nx_base::memory::NoMemory;
use rng_core::grammar::Pat;
use rng_core::name_class::NameClass;
use std::alloc::Global;

impl Nodes {
    /// The number of an attribute.
    // what is put in isn't inlined into the walk, whose frames are then small
    #[inline(never)]
    fn attribute_of(
        &mut self,
        alloc: Global,
        class: &NameClass,
        body: usize,
    ) -> Result<usize, NoMemory>
        requires { body < length self.old }
        ensures later { Later self.old self.new }
        ensures made { IfOk result (IsAt self.new (attribute (class_of class.now) (at self.old body))) }
    {
        let class = class.copy(alloc)?;
        let empty = Box::new(alloc, Pat::Empty)?;
        self.put_attribute(Pat::Attribute(class, empty), body)
    }

    /// The number of a type or a value.
    #[inline(never)]
    fn data_of(&mut self, alloc: Global, leaf: &Pat) -> Result<usize, NoMemory>
        requires data { IsData (pattern_of leaf.now) }
        requires order { IsInOrder (pattern_of leaf.now) }
        ensures later { Later self.old self.new }
        ensures made { IfOk result (IsAt self.new (pattern_of leaf.now)) }
    {
        self.put_data(leaf.copy(alloc)?)
    }

    /// The number of a pattern's node.
    pub fn imported(&mut self, alloc: Global, pattern: &Pat) -> Result<usize, NoMemory>
        requires { IsInOrder (pattern_of pattern.now) }
        ensures later { Later self.old self.new }
        ensures made { IfOk result (IsAt self.new (pattern_of pattern.now)) }
    {
        match pattern {
            Pat::NotAllowed => self.not_allowed(),
            Pat::Empty => self.empty(),
            Pat::Text => self.text(),
            Pat::Typed(_, _) => self.data_of(alloc, pattern),
            Pat::Value(_, _) => self.data_of(alloc, pattern),
            Pat::List(body) => {
                let body = self.imported(alloc, body)?;
                self.list(body)
            }
            Pat::Attribute(class, body) => {
                let body = self.imported(alloc, body)?;
                self.attribute_of(alloc, class, body)
            }
            Pat::Ref(number) => self.reference(*number),
            Pat::OneOrMore(body) => {
                let body = self.imported(alloc, body)?;
                self.one_or_more(body)
            }
            Pat::Choice(a, b) => {
                let first = self.imported(alloc, a)?;
                let second = self.imported(alloc, b)?;
                self.choice(first, second)
            }
            Pat::Group(a, b) => {
                let first = self.imported(alloc, a)?;
                let second = self.imported(alloc, b)?;
                self.group(first, second)
            }
            Pat::Interleave(a, b) => {
                let first = self.imported(alloc, a)?;
                let second = self.imported(alloc, b)?;
                self.interleave(first, second)
            }
        }
    }
}
