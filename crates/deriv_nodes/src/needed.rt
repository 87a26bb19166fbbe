//! Elements that a node needs where content is skipped.

ghost use Rattle.std.specs.Prelude.{◌≡◌, ◌<◌, ◌++◌, length, List, Option, IfOk, map, option_map};
ghost use Rattle.nx_base.specs.declared.name.Name.{Name as TheName};
ghost use Rattle.rng_core.specs.Meaning.{definition_of};
ghost use Rattle.rng_kept.specs.Needed as s;
ghost use Rattle.deriv_nodes.specs.Numbers.{at};

use crate::node::Node;
use crate::nodes::Nodes;
use deriv_pattern::needed::{
    common, defined_names, either_found, either_way, in_front, is_nothing, joined,
};
use nx_base::memory::NoMemory;
use nx_base::name::{Name, Names};
use rng_core::grammar::Def;
use std::alloc::Global;

impl Nodes {
    /// The names of which all children that a node matches have an element, in no order, some perhaps twice.
    #[tactic(auto, using(deriv_pattern::proofs::Sole::nothing_common))]
    pub fn child_names(&self, alloc: Global, defs: &[Def], p: usize) -> Result<Names, NoMemory>
        requires { p < length self.now }
        ensures { IfOk result (λ names. names ≡ s.child_names (map definition_of defs.now) (at self.now p)) }
    {
        match self.node(p) {
            Node::NotAllowed => Ok(Names::new(alloc)),
            Node::Empty => Ok(Names::new(alloc)),
            Node::Text => Ok(Names::new(alloc)),
            Node::Typed(_, _) => Ok(Names::new(alloc)),
            Node::Value(_, _) => Ok(Names::new(alloc)),
            Node::List(_) => Ok(Names::new(alloc)),
            Node::Attribute(_, _) => Ok(Names::new(alloc)),
            Node::Ref(number) => defined_names(alloc, defs, number),
            Node::OneOrMore(body) => self.child_names(alloc, defs, body),
            Node::Choice(a, b) => {
                let names = self.child_names(alloc, defs, a)?;
                if names.is_empty() {
                    return Ok(names);
                }
                let others = self.child_names(alloc, defs, b)?;
                Ok(common(names, others.as_slice()))
            }
            Node::Group(a, b) => {
                let first = self.child_names(alloc, defs, a)?;
                let second = self.child_names(alloc, defs, b)?;
                joined(first, second)
            }
            Node::Interleave(a, b) => {
                let one = self.child_names(alloc, defs, a)?;
                let other = self.child_names(alloc, defs, b)?;
                joined(one, other)
            }
        }
    }

    /// What is needed in front of an element behind children that this node matches.
    fn behind(
        &self,
        alloc: Global,
        defs: &[Def],
        p: usize,
        names: Option<Names>,
    ) -> Result<Option<Names>, NoMemory>
        requires { p < length self.now }
        ensures { IfOk result (λ found. found ≡ option_map (λ more. s.child_names (map definition_of defs.now) (at self.now p) ++ more) names) }
    {
        match names {
            Some(more) => {
                let front = self.child_names(alloc, defs, p)?;
                let all = joined(front, more)?;
                Ok(Some(all))
            }
            None => Ok(None),
        }
    }

    /// What is needed in front of an element of a group, by what is needed in its parts: the first, and one behind it.
    #[tactic(auto, using(deriv_pattern::proofs::Sole::nothing_either))]
    #[inline(never)]
    fn one_behind(
        &self,
        alloc: Global,
        defs: &[Def],
        p: usize,
        first: Result<Option<Names>, NoMemory>,
        second: Result<Option<Names>, NoMemory>,
    ) -> Result<Option<Names>, NoMemory>
        requires { p < length self.now }
        ensures { (x y : Option (List TheName)) → IfOk first (λ names. names ≡ x) → IfOk second (λ names. names ≡ y)
            → IfOk result (λ names. names ≡ s.either_way x (option_map (λ more. s.child_names (map definition_of defs.now) (at self.now p) ++ more) y)) }
    {
        let first = first?;
        if is_nothing(&first) {
            return Ok(first);
        }
        let second = self.behind(alloc, defs, p, second?)?;
        Ok(either_way(first, second))
    }

    /// The names of which such children have an element in front of each element of this name, in no order, some perhaps twice;
    /// none where no element of them can have the name.
    pub fn front_names(
        &self,
        alloc: Global,
        defs: &[Def],
        name: &Name,
        p: usize,
    ) -> Result<Option<Names>, NoMemory>
        requires { p < length self.now }
        ensures { IfOk result (λ names. names ≡ s.front_names (map definition_of defs.now) name.now (at self.now p)) }
    {
        match self.node(p) {
            Node::NotAllowed => Ok(None),
            Node::Empty => Ok(None),
            Node::Text => Ok(None),
            Node::Typed(_, _) => Ok(None),
            Node::Value(_, _) => Ok(None),
            Node::List(_) => Ok(None),
            Node::Attribute(_, _) => Ok(None),
            Node::Ref(number) => Ok(in_front(alloc, defs, name, number)),
            Node::OneOrMore(body) => self.front_names(alloc, defs, name, body),
            Node::Choice(a, b) => either_found(
                self.front_names(alloc, defs, name, a),
                self.front_names(alloc, defs, name, b),
            ),
            Node::Group(a, b) => self.one_behind(
                alloc,
                defs,
                a,
                self.front_names(alloc, defs, name, a),
                self.front_names(alloc, defs, name, b),
            ),
            Node::Interleave(a, b) => either_found(
                self.front_names(alloc, defs, name, a),
                self.front_names(alloc, defs, name, b),
            ),
        }
    }

    /// What all content needs that a node matches; none where it matches none.
    pub fn content_names(
        &self,
        alloc: Global,
        defs: &[Def],
        p: usize,
    ) -> Result<Option<Names>, NoMemory>
        requires { p < length self.now }
        ensures { IfOk result (λ names. names ≡ s.content_names (map definition_of defs.now) (at self.now p)) }
    {
        if self.is_not_allowed(p) {
            return Ok(None);
        }
        let names = self.child_names(alloc, defs, p)?;
        Ok(Some(names))
    }
}
