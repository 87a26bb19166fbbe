//! The least costs of definitions.

ghost use Rattle.std.specs.Prelude.{◌≡◌, ◌↔◌, List, nat_lt, map, IfOk, IsTrue};
ghost use Rattle.std.specs.List.{list_any};
ghost use Rattle.rng_core.specs.Patterns.{Definition};
ghost use Rattle.rng_core.specs.Meaning.{pattern_of, definition_of};
ghost use Rattle.rng_cost.specs.Costs.{IsLarge};
ghost use Rattle.rng_cost.specs.Least.{cost_at as cost_of_content, AreLeast};
ghost use Rattle.rng_cost.specs.Leaves.{leaves, patterns_of};

use crate::cheapest::{Leaves, cheapest_leaves};
use crate::pattern_cost::cost_at;
use crate::rounds::least_costs;
use nx_base::memory::NoMemory;
use rng_core::grammar::{Defs, Pat};
use std::alloc::Global;
use std::marker::Model;

/// The most events that the content of an element may take to fill.
pub const MOST_COST: u32 = 10_000;

/// Whether some cost is more than 10,000.
fn some_over(costs: &[u32]) -> bool
    ensures { result ≡ list_any (λ cost. nat_lt 10000 cost) costs.now }
{
    costs.iter().any(|cost| *cost > MOST_COST)
}

/// The least costs of the contents of definitions, by their numbers. To a contract it is the list of them.
#[derive(Drop)]
pub struct Costs {
    items: Vec<u32>,
}

impl Model for Costs {
    ghost use Rattle.std.specs.Prelude.{ℕ, List};

    ghost Value = { List ℕ };

    ghost view = { λ costs. costs.items.items };
}

impl Costs {
    /// The least costs of the contents of these definitions, in events. A cost of more than 10,000 is 10,001, as is that of a content
    /// that has none.
    pub fn of(alloc: Global, defs: &Defs) -> Result<Costs, NoMemory>
        ensures { IfOk result (λ costs. AreLeast (map definition_of defs.now) costs) }
    {
        let items = least_costs(alloc, defs)?;
        Ok(Costs { items })
    }

    /// Whether the content of some definition takes more than 10,000 events.
    pub fn is_large(&self) -> bool
        ensures { (g : List Definition) → AreLeast g self.now → IsTrue result ↔ IsLarge g }
    {
        some_over(self.items.as_slice())
    }

    /// The cost of a definition's content, by its number; 10,001 where there is no such definition.
    pub fn of_definition(&self, number: u32) -> u32
        ensures { result ≡ cost_of_content self.now number }
    {
        cost_at(self.items.as_slice(), number)
    }

    /// The leaves by which a pattern is filled at the least cost, in order. Each node is looked at once.
    pub fn leaves_of<'a>(&self, alloc: Global, pattern: &'a Pat) -> Result<Leaves<'a>, NoMemory>
        ensures { IfOk result (λ found. patterns_of found ≡ leaves self.now (pattern_of pattern.now)) }
    {
        cheapest_leaves(alloc, self.items.as_slice(), pattern)
    }
}
