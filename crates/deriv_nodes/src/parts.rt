//! What is left of a whole, where it is known what is left of its parts.

ghost use Rattle.std.specs.Prelude.{◌≡◌, ◌<◌, length, IfOk};
ghost use Rattle.rng_core.specs.Patterns.{not_allowed};
ghost use Rattle.rng_kept.specs.SmallPatterns.{choice_of, group_of, interleave_of, star};
ghost use Rattle.rng_kept.specs.Attributes as attributes;
ghost use Rattle.deriv_nodes.specs.Numbers.{at, Later, IsAt};

use crate::nodes::Nodes;
use nx_base::memory::NoMemory;

impl Nodes {
    /// Of a repetition: what is left of its first part, and more parts.
    pub(crate) fn first_of_many(&mut self, left: usize, p: usize) -> Result<usize, NoMemory>
        requires left { left < length self.old }
        requires p { p < length self.old }
        ensures later { Later self.old self.new }
        ensures made { IfOk result (IsAt self.new (group_of (at self.old left) (star (at self.old p)))) }
    {
        let more = self.star(p)?;
        self.group_of(left, more)
    }

    /// Of a group whose first side can't be passed over: what is left of that, and the second side.
    pub(crate) fn first_side(&mut self, left: usize, q: usize) -> Result<usize, NoMemory>
        requires left { left < length self.old }
        requires q { q < length self.old }
        ensures later { Later self.old self.new }
        ensures made { IfOk result (IsAt self.new (choice_of (group_of (at self.old left) (at self.old q)) not_allowed)) }
    {
        let front = self.group_of(left, q)?;
        let none = self.not_allowed()?;
        self.choice_of(front, none)
    }

    /// Of a group whose first side may be passed over: the same, or what is left of the second side.
    pub(crate) fn either_side(
        &mut self,
        left: usize,
        q: usize,
        second: usize,
    ) -> Result<usize, NoMemory>
        requires left { left < length self.old }
        requires q { q < length self.old }
        requires second { second < length self.old }
        ensures later { Later self.old self.new }
        ensures made { IfOk result (IsAt self.new (choice_of (group_of (at self.old left) (at self.old q)) (at self.old second))) }
    {
        let front = self.group_of(left, q)?;
        self.choice_of(front, second)
    }

    /// Of a group, where either side may be first: what is left of one, with the other whole.
    pub(crate) fn one_of_group(
        &mut self,
        left: usize,
        p: usize,
        q: usize,
        second: usize,
    ) -> Result<usize, NoMemory>
        requires left { left < length self.old }
        requires p { p < length self.old }
        requires q { q < length self.old }
        requires second { second < length self.old }
        ensures later { Later self.old self.new }
        ensures made { IfOk result (IsAt self.new
            (choice_of (group_of (at self.old left) (at self.old q)) (group_of (at self.old p) (at self.old second)))) }
    {
        let front = self.group_of(left, q)?;
        let back = self.group_of(p, second)?;
        self.choice_of(front, back)
    }

    /// Of an interleave: what is left of one side, with the other whole.
    pub(crate) fn one_of_interleave(
        &mut self,
        left: usize,
        p: usize,
        q: usize,
        second: usize,
    ) -> Result<usize, NoMemory>
        requires left { left < length self.old }
        requires p { p < length self.old }
        requires q { q < length self.old }
        requires second { second < length self.old }
        ensures later { Later self.old self.new }
        ensures made { IfOk result (IsAt self.new
            (choice_of (interleave_of (at self.old left) (at self.old q)) (interleave_of (at self.old p) (at self.old second)))) }
    {
        let front = self.interleave_of(left, q)?;
        let back = self.interleave_of(p, second)?;
        self.choice_of(front, back)
    }

    /// Of a repetition behind an attribute, which may stand in any of its parts.
    pub(crate) fn around(&mut self, rest: usize, p: usize) -> Result<usize, NoMemory>
        requires rest { rest < length self.old }
        requires p { p < length self.old }
        ensures later { Later self.old self.new }
        ensures made { IfOk result (IsAt self.new (attributes.around (at self.old rest) (at self.old p))) }
    {
        let more = self.star(p)?;
        if self.is_empty(rest) {
            return Ok(more);
        }
        let rest = self.group_of(rest, more)?;
        self.group_of(more, rest)
    }
}
