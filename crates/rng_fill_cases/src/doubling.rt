//! Schemas in which each element holds two of the next. Where c is the cost of one content, that of the content around it is 2c + 6: so ten
//! such elements in a row cost 6 times 1,023, and eleven 6 times 2,047.

use crate::judging::{Judgement, judged};
use crate::reading::{grammar_of, root_of, usable};
use nx_base::memory::NoMemory;
use rng_cost::Costs;
use std::alloc::Global;

/// So many elements, each of which holds two of the next, and an empty one.
fn schema_of(alloc: Global, count: u32) -> Result<String, NoMemory> {
    let mut schema = String::from_str(alloc, "start = e0\n")?;
    for number in 0..count {
        let next = number + 1;
        write!(
            schema,
            "e{number} = element e{number} {{ e{next}, e{next} }}\n"
        )?;
    }
    write!(schema, "e{count} = element e{count} {{ empty }}\n")?;
    Ok(schema)
}

/// What the root's content costs, and whether the schema is large.
fn costs_of(alloc: Global, schema: &str) -> Option<(u32, bool)> {
    let grammar = grammar_of(alloc, schema)?;
    let root = root_of(&grammar)?;
    let costs = Costs::of(alloc, &grammar.defs).ok()?;
    Some((costs.of_definition(root), costs.is_large()))
}

/// What is told of elements of the definitions.
fn judgement(alloc: Global, schema: &str) -> Option<Judgement> {
    let grammar = grammar_of(alloc, schema)?;
    let schema = usable(alloc, grammar)?;
    judged(alloc, schema).ok()
}

fn is_so(alloc: Global, count: u32, costs: (u32, bool), filled: Judgement) -> Option<bool> {
    let schema = schema_of(alloc, count).ok()?;
    let schema = schema.as_str();
    Some(costs_of(alloc, schema)? == costs && judgement(alloc, schema)? == filled)
}

/// Ten such elements cost 6,138, and the schema isn't large.
pub(crate) fn is_just_small(alloc: Global) -> bool {
    is_so(alloc, 10, (6_138, false), Judgement::Filled).unwrap_or(false)
}

/// Eleven would cost 12,282, of which 10,001 is kept, and the schema is large.
pub(crate) fn is_just_large(alloc: Global) -> bool {
    is_so(alloc, 11, (10_001, true), Judgement::Large).unwrap_or(false)
}
