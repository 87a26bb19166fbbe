//! The least cost of a pattern, by those of the definitions' contents.

ghost use Rattle.std.specs.Prelude.{◌≡◌, ◌≤◌, ◌+◌, min};
ghost use Rattle.rng_core.specs.Patterns.{ref};
ghost use Rattle.rng_core.specs.Meaning.{pattern_of};
ghost use Rattle.rng_cost.specs.Least.{cost_at as cost_of_content, least as least_of};

use rng_core::grammar::Pat;

/// What stands for more than 10,000 events, and for no cost at all.
pub(crate) const OVER: u32 = 10_001;

/// The cost of a definition's content, by its number.
pub(crate) fn cost_at(costs: &[u32], number: u32) -> u32
    ensures { result ≡ cost_of_content costs.now number }
{
    match costs.get(number as usize) {
        Some(cost) => *cost,
        None => OVER,
    }
}

/// The least cost of an element.
pub(crate) fn element_cost(costs: &[u32], number: u32) -> u32
    ensures value { result ≡ least_of costs.now (ref number) }
    ensures within { result ≤ 10001 }
{
    cost_at(costs, number).saturating_add(3).min(OVER)
}

/// The cost of two sides that are both filled.
pub(crate) fn both(first: u32, second: u32) -> u32
    requires first { first ≤ 10001 }
    requires second { second ≤ 10001 }
    ensures { result ≡ min (first + second) 10001 }
{
    (first + second).min(OVER)
}

/// The least cost of a pattern.
pub(crate) fn least(costs: &[u32], pattern: &Pat) -> u32
    ensures value { result ≡ least_of costs.now (pattern_of pattern.now) }
    ensures within { result ≤ 10001 }
{
    match pattern {
        Pat::NotAllowed => OVER,
        Pat::Empty => 0,
        Pat::Text => 0,
        Pat::Typed(_, _) => 1,
        Pat::Value(_, _) => 1,
        Pat::List(_) => 1,
        Pat::Attribute(_, _) => 1,
        Pat::Ref(number) => element_cost(costs, *number),
        Pat::OneOrMore(body) => least(costs, body),
        Pat::Choice(a, b) => {
            let first = least(costs, a);
            let second = least(costs, b);
            first.min(second)
        }
        Pat::Group(a, b) => {
            let first = least(costs, a);
            let second = least(costs, b);
            both(first, second)
        }
        Pat::Interleave(a, b) => {
            let first = least(costs, a);
            let second = least(costs, b);
            both(first, second)
        }
    }
}
