//! The least costs of all contents, found in rounds.

ghost use Rattle.std.specs.Prelude.{◌≡◌, ◌<◌, ◌||◌, map, length, replicate, IfOk};
ghost use Rattle.rng_core.specs.Meaning.{pattern_of, definition_of};
ghost use Rattle.rng_cost.specs.Least.{AreLeast};
ghost use Rattle.rng_cost.specs.Rounds.{Settles, Falls};

use crate::pattern_cost::{OVER, least};
use nx_base::memory::NoMemory;
use rng_core::grammar::{Defs, Pat};
use std::alloc::Global;

/// So many costs of which none was found.
fn none_found(alloc: Global, count: usize) -> Result<Vec<u32>, NoMemory>
    ensures { IfOk result (λ costs. costs.items ≡ replicate count 10001) }
{
    let costs = vec![in alloc; OVER; count]?;
    Ok(costs)
}

/// Whether one of the two holds.
fn either(one: bool, other: bool) -> bool
    ensures { result ≡ (one || other) }
{
    one || other
}

/// Looks at the content of a definition, and answers whether its cost fell.
fn settle(costs: &mut Vec<u32>, number: usize, content: &Pat) -> bool
    requires { number < length costs.old.items }
    ensures { Settles costs.old.items costs.new.items number (pattern_of content.now) result }
{
    let cost = least(costs.as_slice(), content);
    if cost < costs[number] {
        costs[number] = cost;
        return true;
    }
    false
}

/// Looks at each content once, and answers whether some cost fell. What an element holds mostly has a later number than the element,
/// so the last content comes first: a content that is looked at behind all that it holds needs no further round.
fn settle_all(costs: &mut Vec<u32>, defs: &Defs) -> bool
    requires { length costs.old.items ≡ length defs.now }
    ensures { Falls (map definition_of defs.now) 0 costs.old.items costs.new.items result }
{
    let defs = defs.as_slice();
    let mut fell = false;
    let mut left = defs.len();
    while left > 0 {
        left -= 1;
        let one = settle(costs, left, &defs[left].content);
        fell = either(one, fell);
    }
    fell
}

/// The least costs of the contents of these definitions.
pub(crate) fn least_costs(alloc: Global, defs: &Defs) -> Result<Vec<u32>, NoMemory>
    ensures { IfOk result (λ costs. AreLeast (map definition_of defs.now) costs.items) }
{
    let mut costs = none_found(alloc, defs.len())?;
    let mut falling = true;
    while falling {
        falling = settle_all(&mut costs, defs);
    }
    Ok(costs)
}
