//! Patterns that are put together without what is plainly superfluous.

ghost use Rattle.std.specs.Prelude.{◌≡◌, ◌<◌, length, IfOk, if◌then◌else◌};
ghost use Rattle.rng_core.specs.Patterns.{empty, not_allowed};
ghost use Rattle.rng_kept.specs.SmallPatterns as s;
ghost use Rattle.rng_kept.specs.Nullable.{nullable as is_nullable};
ghost use Rattle.deriv_nodes.specs.Numbers.{at, Later, IsAt};

use crate::node::Node;
use crate::nodes::Nodes;
use nx_base::memory::NoMemory;

impl Nodes {
    /// Whether it is the pattern that nothing matches.
    pub fn is_not_allowed(&self, p: usize) -> bool
        requires { p < length self.now }
        ensures { result ≡ s.is_not_allowed (at self.now p) }
    {
        matches!(self.node(p), Node::NotAllowed)
    }

    /// Whether it is the empty pattern.
    pub(crate) fn is_empty(&self, p: usize) -> bool
        requires { p < length self.now }
        ensures { result ≡ s.is_empty (at self.now p) }
    {
        matches!(self.node(p), Node::Empty)
    }

    /// Whether no attributes and no children match.
    pub fn nullable(&self, p: usize) -> bool
        requires { p < length self.now }
        ensures { result ≡ is_nullable (at self.now p) }
    {
        match self.node(p) {
            Node::Empty => true,
            Node::Text => true,
            Node::OneOrMore(body) => self.nullable(body),
            Node::Choice(a, b) => self.nullable(a) || self.nullable(b),
            // Parts of one whole nest to the left, so that asking the last one first mostly ends at once.
            Node::Group(a, b) => self.nullable(b) && self.nullable(a),
            Node::Interleave(a, b) => self.nullable(b) && self.nullable(a),
            Node::NotAllowed => false,
            Node::Typed(_, _) => false,
            Node::Value(_, _) => false,
            Node::List(_) => false,
            Node::Attribute(_, _) => false,
            Node::Ref(_) => false,
        }
    }

    /// Whether the first pattern is a side of the second, where that is a choice, or all of it.
    fn is_side(&self, q: usize, p: usize) -> bool
        requires q { q < length self.now }
        requires p { p < length self.now }
        ensures { result ≡ s.is_side (at self.now q) (at self.now p) }
    {
        match self.node(p) {
            Node::Choice(a, b) => self.is_side(q, a) || self.same(q, b),
            _ => self.same(q, p),
        }
    }

    /// A choice with one side more, unless it has it.
    fn with_side(&mut self, p: usize, q: usize) -> Result<usize, NoMemory>
        requires p { p < length self.old }
        requires q { q < length self.old }
        ensures later { Later self.old self.new }
        ensures made { IfOk result (IsAt self.new (s.with_side (at self.old p) (at self.old q))) }
    {
        if self.is_not_allowed(p) {
            return Ok(q);
        }
        if self.is_not_allowed(q) {
            return Ok(p);
        }
        if self.is_side(q, p) {
            return Ok(p);
        }
        self.choice(p, q)
    }

    /// A choice with the sides of a second pattern, those alone that it doesn't have.
    pub fn choice_of(&mut self, p: usize, q: usize) -> Result<usize, NoMemory>
        requires p { p < length self.old }
        requires q { q < length self.old }
        ensures later { Later self.old self.new }
        ensures made { IfOk result (IsAt self.new (s.choice_of (at self.old p) (at self.old q))) }
    {
        match self.node(q) {
            Node::Choice(a, b) => {
                let front = self.choice_of(p, a)?;
                self.choice_of(front, b)
            }
            _ => self.with_side(p, q),
        }
    }

    /// What the one matches, and then what the other does.
    pub(crate) fn group_of(&mut self, p: usize, q: usize) -> Result<usize, NoMemory>
        requires p { p < length self.old }
        requires q { q < length self.old }
        ensures later { Later self.old self.new }
        ensures made { IfOk result (IsAt self.new (s.group_of (at self.old p) (at self.old q))) }
    {
        if self.is_not_allowed(p) {
            return Ok(p);
        }
        if self.is_not_allowed(q) {
            return Ok(q);
        }
        if self.is_empty(p) {
            return Ok(q);
        }
        if self.is_empty(q) {
            return Ok(p);
        }
        self.group(p, q)
    }

    /// What the two match, shuffled.
    pub(crate) fn interleave_of(&mut self, p: usize, q: usize) -> Result<usize, NoMemory>
        requires p { p < length self.old }
        requires q { q < length self.old }
        ensures later { Later self.old self.new }
        ensures made { IfOk result (IsAt self.new (s.interleave_of (at self.old p) (at self.old q))) }
    {
        if self.is_not_allowed(p) {
            return Ok(p);
        }
        if self.is_not_allowed(q) {
            return Ok(q);
        }
        if self.is_empty(p) {
            return Ok(q);
        }
        if self.is_empty(q) {
            return Ok(p);
        }
        self.interleave(p, q)
    }

    /// One or more parts that match the body.
    pub(crate) fn one_or_more_of(&mut self, p: usize) -> Result<usize, NoMemory>
        requires { p < length self.old }
        ensures later { Later self.old self.new }
        ensures made { IfOk result (IsAt self.new (s.one_or_more_of (at self.old p))) }
    {
        if self.is_not_allowed(p) {
            return Ok(p);
        }
        self.one_or_more(p)
    }

    /// Whether it is a repetition.
    fn is_repeated(&self, p: usize) -> bool
        requires { p < length self.now }
        ensures { result ≡ s.is_repeated (at self.now p) }
    {
        matches!(self.node(p), Node::OneOrMore(_))
    }

    /// Whether it is a repetition that may be of nothing.
    fn is_star(&self, p: usize) -> bool
        requires { p < length self.now }
        ensures { result ≡ s.is_star (at self.now p) }
    {
        match self.node(p) {
            Node::Choice(a, b) => {
                self.is_repeated(a) && self.is_empty(b) || self.is_empty(a) && self.is_repeated(b)
            }
            _ => false,
        }
    }

    /// As many parts as one likes, or none. Where the part is such a repetition, that is it: nested ones would grow with each attribute that they
    /// take.
    #[tactic(auto, unfolding(rng_kept::specs::SmallPatterns::star))]
    pub(crate) fn star(&mut self, p: usize) -> Result<usize, NoMemory>
        requires { p < length self.old }
        ensures later { Later self.old self.new }
        ensures made { IfOk result (IsAt self.new (s.star (at self.old p))) }
    {
        if self.is_star(p) {
            return Ok(p);
        }
        let some = self.one_or_more(p)?;
        let none = self.empty()?;
        self.choice_of(some, none)
    }

    /// What is left of a leaf behind what it takes or doesn't take.
    pub(crate) fn end(&mut self, taken: bool) -> Result<usize, NoMemory>
        ensures later { Later self.old self.new }
        ensures made { IfOk result (IsAt self.new (if taken then empty else not_allowed)) }
    {
        if taken {
            self.empty()
        } else {
            self.not_allowed()
        }
    }
}
