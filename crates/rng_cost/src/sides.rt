//! Which side of each choice is filled, as it is noted.

ghost use Rattle.std.specs.Prelude.{◌≡◌, ◌≤◌, Bool, List, [], ◌∷◌, nat_le, min, IfOk, OnOk};
ghost use Rattle.rng_core.specs.Meaning.{pattern_of};
ghost use Rattle.rng_cost.specs.Least.{least as least_of};
ghost use Rattle.rng_cost.specs.Sides.{sides_of, NotesSides};

use crate::pattern_cost::{OVER, both, element_cost};
use nx_base::memory::NoMemory;
use rng_core::grammar::Pat;
use std::alloc::Global;
use std::marker::Model;

/// For choices of patterns, whether the first side is filled. To a contract it is the list of them, the last noted first.
#[derive(Drop)]
pub(crate) struct Sides {
    noted: Vec<bool>,
}

impl Model for Sides {
    ghost use Rattle.std.specs.Prelude.{List, Bool, reverse};

    ghost Value = { List Bool };

    ghost view = { λ sides. reverse sides.noted.items };
}

impl Sides {
    /// None is noted.
    pub(crate) fn new(alloc: Global) -> Sides
        ensures { result ≡ [] }
    {
        Sides {
            noted: Vec::new(alloc),
        }
    }

    /// Notes one.
    fn push(&mut self, first: bool) -> Result<(), NoMemory>
        ensures { OnOk result (self.new ≡ first ∷ self.old) }
    {
        self.noted.push(first)?;
        Ok(())
    }

    /// Takes what was noted last; true where nothing was.
    pub(crate) fn pop(&mut self) -> bool
        ensures { (first : Bool) (rest : List Bool) → self.old ≡ first ∷ rest → (result ≡ first) × (self.new ≡ rest) }
    {
        match self.noted.pop() {
            Some(first) => first,
            None => true,
        }
    }
}

/// Notes of a choice which side costs less, the first where both cost alike, and answers what it costs.
#[inline(never)]
fn note(sides: &mut Sides, first: u32, second: u32) -> Result<u32, NoMemory>
    ensures cost { IfOk result (λ cost. cost ≡ min first second) }
    ensures noted { OnOk result (sides.new ≡ nat_le first second ∷ sides.old) }
{
    sides.push(first <= second)?;
    Ok(first.min(second))
}

/// Notes of each choice in a pattern which side costs less, the outermost and first ones last, and answers what the pattern costs.
pub(crate) fn note_sides(costs: &[u32], pattern: &Pat, sides: &mut Sides) -> Result<u32, NoMemory>
    ensures cost { IfOk result (λ cost. cost ≡ least_of costs.now (pattern_of pattern.now)) }
    ensures within { IfOk result (λ cost. cost ≤ 10001) }
    ensures noted { OnOk result (NotesSides costs.now (pattern_of pattern.now) sides.old sides.new) }
{
    match pattern {
        Pat::NotAllowed => Ok(OVER),
        Pat::Empty => Ok(0),
        Pat::Text => Ok(0),
        Pat::Typed(_, _) => Ok(1),
        Pat::Value(_, _) => Ok(1),
        Pat::List(_) => Ok(1),
        Pat::Attribute(_, _) => Ok(1),
        Pat::Ref(number) => Ok(element_cost(costs, *number)),
        Pat::OneOrMore(body) => {
            let cost = note_sides(costs, body, sides)?;
            Ok(cost)
        }
        Pat::Choice(a, b) => {
            let second = note_sides(costs, b, sides)?;
            let first = note_sides(costs, a, sides)?;
            let cost = note(sides, first, second)?;
            Ok(cost)
        }
        Pat::Group(a, b) => {
            let second = note_sides(costs, b, sides)?;
            let first = note_sides(costs, a, sides)?;
            Ok(both(first, second))
        }
        Pat::Interleave(a, b) => {
            let second = note_sides(costs, b, sides)?;
            let first = note_sides(costs, a, sides)?;
            Ok(both(first, second))
        }
    }
}
