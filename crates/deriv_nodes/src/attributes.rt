//! What is left of a node behind an attribute, and where no attribute comes any more.

ghost use Rattle.std.specs.Prelude.{◌≡◌, ◌<◌, ◌&&◌, length, IfOk, if◌then◌else◌};
ghost use Rattle.rng_core.specs.Patterns.{empty, not_allowed};
ghost use Rattle.rng_kept.specs.Attributes as s;
ghost use Rattle.deriv_pattern.specs.Choosing.{fits_of};
ghost use Rattle.deriv_nodes.specs.Numbers.{at, Later, IsAt};

use crate::node::Node;
use crate::nodes::Nodes;
use deriv_pattern::leaves::is_blank;
use nx_base::memory::NoMemory;
use nx_base::name::Name;
use std::alloc::Global;

impl Nodes {
    /// Whether a value matches as one string, or, where it is blank, as nothing.
    fn value_fits(&mut self, alloc: Global, value: &str, p: usize) -> Result<bool, NoMemory>
        requires { p < length self.old }
        ensures later { Later self.old self.new }
        ensures made { IfOk result (λ found. found ≡ s.value_fits value.now (at self.old p)) }
    {
        let left = self.after(alloc, p, value)?;
        Ok(self.nullable(left) || (is_blank(value.as_bytes()) && self.nullable(p)))
    }

    /// Whether the value matches, or any does.
    fn fits(&mut self, alloc: Global, any: bool, value: &str, p: usize) -> Result<bool, NoMemory>
        requires { p < length self.old }
        ensures later { Later self.old self.new }
        ensures made { IfOk result (λ found. found ≡ fits_of any value.now (at self.old p)) }
    {
        if any {
            Ok(true)
        } else {
            self.value_fits(alloc, value, p)
        }
    }

    /// What is left of an attribute, which has the name or not.
    fn of_attribute(
        &mut self,
        alloc: Global,
        any: bool,
        value: &str,
        named: bool,
        p: usize,
    ) -> Result<usize, NoMemory>
        requires { p < length self.old }
        ensures later { Later self.old self.new }
        ensures made { IfOk result (IsAt self.new
            (if named && fits_of any value.now (at self.old p) then empty else not_allowed)) }
    {
        if !named {
            return self.not_allowed();
        }
        let taken = self.fits(alloc, any, value, p)?;
        self.end(taken)
    }

    /// Behind an attribute of the name, with this value or with any.
    fn behind_attribute(
        &mut self,
        alloc: Global,
        any: bool,
        value: &str,
        name: &Name,
        p: usize,
    ) -> Result<usize, NoMemory>
        requires { p < length self.old }
        ensures later { Later self.old self.new }
        ensures made { IfOk result (IsAt self.new (s.attribute_by (fits_of any value.now) name.now (at self.old p))) }
    {
        match self.node(p) {
            Node::NotAllowed => self.not_allowed(),
            Node::Empty => self.not_allowed(),
            Node::Text => self.not_allowed(),
            Node::Typed(_, _) => self.not_allowed(),
            Node::Value(_, _) => self.not_allowed(),
            Node::List(_) => self.not_allowed(),
            Node::Ref(_) => self.not_allowed(),
            Node::Attribute(class, body) => {
                let named = class.has_attribute(name);
                self.of_attribute(alloc, any, value, named, body)
            }
            Node::OneOrMore(body) => {
                let left = self.behind_attribute(alloc, any, value, name, body)?;
                self.around(left, body)
            }
            Node::Choice(a, b) => {
                let left = self.behind_attribute(alloc, any, value, name, a)?;
                let second = self.behind_attribute(alloc, any, value, name, b)?;
                self.choice_of(left, second)
            }
            Node::Group(a, b) => {
                let left = self.behind_attribute(alloc, any, value, name, a)?;
                let second = self.behind_attribute(alloc, any, value, name, b)?;
                self.one_of_group(left, a, b, second)
            }
            Node::Interleave(a, b) => {
                let left = self.behind_attribute(alloc, any, value, name, a)?;
                let second = self.behind_attribute(alloc, any, value, name, b)?;
                self.one_of_interleave(left, a, b, second)
            }
        }
    }

    /// Behind an attribute.
    pub fn after_attribute(
        &mut self,
        alloc: Global,
        p: usize,
        name: &Name,
        value: &str,
    ) -> Result<usize, NoMemory>
        requires { p < length self.old }
        ensures later { Later self.old self.new }
        ensures made { IfOk result (IsAt self.new (s.after_attribute name.now value.now (at self.old p))) }
    {
        self.behind_attribute(alloc, false, value, name, p)
    }

    /// Behind an attribute of the name, whatever its value.
    pub fn after_any_attribute(
        &mut self,
        alloc: Global,
        p: usize,
        name: &Name,
    ) -> Result<usize, NoMemory>
        requires { p < length self.old }
        ensures later { Later self.old self.new }
        ensures made { IfOk result (IsAt self.new (s.after_any_attribute name.now (at self.old p))) }
    {
        self.behind_attribute(alloc, true, "", name, p)
    }

    /// Where no attribute comes any more: what asks for one is left out.
    pub fn close(&mut self, p: usize) -> Result<usize, NoMemory>
        requires { p < length self.old }
        ensures later { Later self.old self.new }
        ensures made { IfOk result (IsAt self.new (s.close (at self.old p))) }
    {
        match self.node(p) {
            Node::NotAllowed => Ok(p),
            Node::Empty => Ok(p),
            Node::Text => Ok(p),
            Node::Typed(_, _) => Ok(p),
            Node::Value(_, _) => Ok(p),
            Node::List(_) => Ok(p),
            Node::Ref(_) => Ok(p),
            Node::Attribute(_, _) => self.not_allowed(),
            Node::OneOrMore(body) => {
                let left = self.close(body)?;
                self.one_or_more_of(left)
            }
            Node::Choice(a, b) => {
                let left = self.close(a)?;
                let second = self.close(b)?;
                self.choice_of(left, second)
            }
            Node::Group(a, b) => {
                let left = self.close(a)?;
                let second = self.close(b)?;
                self.group_of(left, second)
            }
            Node::Interleave(a, b) => {
                let left = self.close(a)?;
                let second = self.close(b)?;
                self.interleave_of(left, second)
            }
        }
    }

    /// Where attributes that don't come are passed over.
    pub fn drop_attributes(&mut self, p: usize) -> Result<usize, NoMemory>
        requires { p < length self.old }
        ensures later { Later self.old self.new }
        ensures made { IfOk result (IsAt self.new (s.drop (at self.old p))) }
    {
        match self.node(p) {
            Node::NotAllowed => Ok(p),
            Node::Empty => Ok(p),
            Node::Text => Ok(p),
            Node::Typed(_, _) => Ok(p),
            Node::Value(_, _) => Ok(p),
            Node::List(_) => Ok(p),
            Node::Ref(_) => Ok(p),
            Node::Attribute(_, _) => self.empty(),
            Node::OneOrMore(body) => {
                let left = self.drop_attributes(body)?;
                self.one_or_more_of(left)
            }
            Node::Choice(a, b) => {
                let left = self.drop_attributes(a)?;
                let second = self.drop_attributes(b)?;
                self.choice_of(left, second)
            }
            Node::Group(a, b) => {
                let left = self.drop_attributes(a)?;
                let second = self.drop_attributes(b)?;
                self.group_of(left, second)
            }
            Node::Interleave(a, b) => {
                let left = self.drop_attributes(a)?;
                let second = self.drop_attributes(b)?;
                self.interleave_of(left, second)
            }
        }
    }
}
