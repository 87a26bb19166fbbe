//! Attributes that a node requires.

ghost use Rattle.std.specs.Prelude.{◌≡◌, ◌<◌, ◌++◌, length, IfOk, OnOk, IsTrue, Contains};
ghost use Rattle.nx_base.specs.declared.name.Name.{Name as TheName};
ghost use Rattle.rng_kept.specs.Required as s;
ghost use Rattle.deriv_pattern.specs.Mentions.{names_of};
ghost use Rattle.deriv_nodes.specs.Numbers.{at};

use crate::node::Node;
use crate::nodes::Nodes;
use deriv_pattern::required::{add_mentioned, has_only};
use nx_base::memory::NoMemory;
use nx_base::name::{Name, Names};
use std::alloc::Global;

impl Nodes {
    /// Whether each list of attributes that is matched has one of the name.
    pub fn needs(&self, alloc: Global, name: &Name, p: usize) -> Result<bool, NoMemory>
        requires { p < length self.now }
        ensures { IfOk result (λ found. found ≡ s.needs name.now (at self.now p)) }
    {
        match self.node(p) {
            Node::NotAllowed => Ok(false),
            Node::Empty => Ok(false),
            Node::Text => Ok(false),
            Node::Typed(_, _) => Ok(false),
            Node::Value(_, _) => Ok(false),
            Node::List(_) => Ok(false),
            Node::Ref(_) => Ok(false),
            Node::Attribute(class, _) => has_only(alloc, class, name),
            Node::OneOrMore(body) => self.needs(alloc, name, body),
            Node::Choice(a, b) => {
                if !self.needs(alloc, name, a)? {
                    return Ok(false);
                }
                self.needs(alloc, name, b)
            }
            Node::Group(a, b) => {
                if self.needs(alloc, name, a)? {
                    return Ok(true);
                }
                self.needs(alloc, name, b)
            }
            Node::Interleave(a, b) => {
                if self.needs(alloc, name, a)? {
                    return Ok(true);
                }
                self.needs(alloc, name, b)
            }
        }
    }

    /// Adds the names of attributes that a node may need.
    fn add_names(&self, names: &mut Names, p: usize) -> Result<(), NoMemory>
        requires { p < length self.now }
        ensures { OnOk result (names.new ≡ names.old ++ names_of (at self.now p)) }
    {
        match self.node(p) {
            Node::NotAllowed => Ok(()),
            Node::Empty => Ok(()),
            Node::Text => Ok(()),
            Node::Typed(_, _) => Ok(()),
            Node::Value(_, _) => Ok(()),
            Node::List(_) => Ok(()),
            Node::Ref(_) => Ok(()),
            Node::Attribute(class, _) => {
                add_mentioned(names, class)?;
                Ok(())
            }
            Node::OneOrMore(body) => {
                self.add_names(names, body)?;
                Ok(())
            }
            Node::Choice(a, _) => {
                self.add_names(names, a)?;
                Ok(())
            }
            Node::Group(a, b) => {
                self.add_names(names, a)?;
                self.add_names(names, b)?;
                Ok(())
            }
            Node::Interleave(a, b) => {
                self.add_names(names, a)?;
                self.add_names(names, b)?;
                Ok(())
            }
        }
    }

    /// Names among which are all that the node needs, in no order, some perhaps twice.
    #[tactic(auto, using(deriv_pattern::proofs::Mentioned::needed_mentioned))]
    pub fn candidates(&self, alloc: Global, p: usize) -> Result<Names, NoMemory>
        requires { p < length self.now }
        ensures { IfOk result (λ names. (n : TheName) → IsTrue (s.needs n (at self.now p)) → Contains names n) }
    {
        let mut names = Names::new(alloc);
        self.add_names(&mut names, p)?;
        Ok(names)
    }
}
