//! How deep patterns are.

use rng_core::grammar::{Def, Grammar, Pat};

/// The most nodes that a path of a pattern may have to be pruned: as many as simplification allows. The walks of pruning call themselves
/// once for each node of a path and take at most 64 bytes of stack for it. Those who follow documents through what is left may take a
/// kilobyte for a node, in the eight megabytes that a program's first thread has.
pub const MOST_NODES_ON_A_PATH: usize = 8_000;

/// Whether no path of the pattern has more nodes than `most`, judged in a stack that doesn't grow past this bound.
fn is_within(pattern: &Pat, most: usize) -> bool {
    if most == 0 {
        return false;
    }
    match pattern {
        Pat::NotAllowed => true,
        Pat::Empty => true,
        Pat::Text => true,
        Pat::Typed(_, _) => true,
        Pat::Value(_, _) => true,
        Pat::Ref(_) => true,
        Pat::List(body) => is_within(body, most - 1),
        Pat::Attribute(_, body) => is_within(body, most - 1),
        Pat::OneOrMore(body) => is_within(body, most - 1),
        Pat::Choice(first, second) => is_within(first, most - 1) && is_within(second, most - 1),
        Pat::Group(first, second) => is_within(first, most - 1) && is_within(second, most - 1),
        Pat::Interleave(first, second) => is_within(first, most - 1) && is_within(second, most - 1),
    }
}

fn is_shallow(pattern: &Pat) -> bool {
    is_within(pattern, MOST_NODES_ON_A_PATH)
}

fn are_shallow(defs: &[Def]) -> bool {
    defs.iter().all(|def| is_shallow(&def.content))
}

/// Whether no pattern of the grammar has a longer path.
pub(crate) fn can_be_walked(grammar: &Grammar) -> bool {
    is_shallow(&grammar.start) && are_shallow(grammar.defs.as_slice())
}
