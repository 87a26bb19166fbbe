//! Costs and fillings of the roots of schemas, as text.

ghost use Rattle.rng_core.specs.Soundness.{IsSound};
ghost use Rattle.rng_fill_cases.specs.Usable.{IsUsable};

use crate::filling::element_at;
use crate::reading::{grammar_of, root_of, usable};
use nx_base::memory::NoMemory;
use nx_base::name::Name;
use nx_base::printed_name::push_name;
use nx_base::sequence::Bytes;
use rng_core::grammar::Grammar;
use rng_cost::{Costs, MOST_COST};
use rng_fill::moves::Move;
use std::alloc::Global;

/// What is asked of a schema.
#[derive(Clone, Copy, Debug, PartialEq, Eq)]
pub(crate) enum Asked {
    /// What the content of its root costs.
    Cost,
    /// What its root is filled with.
    Filling,
}

fn tell_cost(told: &mut String, cost: u32) -> Option<()> {
    if cost > MOST_COST {
        told.push_str("more").ok()
    } else {
        write!(told, "{cost}").ok()
    }
}

fn cost_told(alloc: Global, grammar: &Grammar) -> Option<Vec<u8>> {
    let root = root_of(grammar)?;
    let costs = Costs::of(alloc, &grammar.defs).ok()?;
    let mut told = String::new(alloc);
    tell_cost(&mut told, costs.of_definition(root))?;
    Some(told.into_bytes())
}

fn tell_text(told: &mut Vec<u8>, text: &Bytes) -> Result<(), NoMemory> {
    told.push(b'"')?;
    told.extend_from_slice(text.as_slice())?;
    told.push(b'"')?;
    Ok(())
}

fn tell_start(told: &mut Vec<u8>, name: &Name) -> Result<(), NoMemory> {
    told.push(b'<')?;
    push_name(told, name)
}

fn tell_attribute(told: &mut Vec<u8>, name: &Name, value: &Bytes) -> Result<(), NoMemory> {
    told.push(b'@')?;
    push_name(told, name)?;
    told.push(b'=')?;
    tell_text(told, value)
}

fn tell_sign(told: &mut Vec<u8>, sign: &str) -> Result<(), NoMemory> {
    told.extend_from_slice(sign.as_bytes())?;
    Ok(())
}

fn tell_move(told: &mut Vec<u8>, one: &Move) -> Result<(), NoMemory> {
    match one {
        Move::Enter(name) => tell_start(told, name),
        Move::Att(name, value) => tell_attribute(told, name, value),
        Move::TagEnd => tell_sign(told, ">"),
        Move::Chars(text) => tell_text(told, text),
        Move::Leave => tell_sign(told, "</"),
    }
}

/// Moves with a blank between each two.
fn moves_told(alloc: Global, moves: &[Move]) -> Result<Vec<u8>, NoMemory> {
    let mut told = Vec::new(alloc);
    for one in moves {
        if !told.is_empty() {
            told.push(b' ')?;
        }
        tell_move(&mut told, one)?;
    }
    Ok(told)
}

fn root_told(alloc: Global, grammar: &Grammar) -> Option<Vec<u8>>
    requires { IsUsable grammar.now }
{
    let root = root_of(grammar)?;
    match element_at(alloc, grammar, root) {
        Ok(Some(moves)) => moves_told(alloc, moves.as_slice()).ok(),
        _ => None,
    }
}

fn filling_told(alloc: Global, grammar: Grammar) -> Option<Vec<u8>>
    requires { IsSound grammar }
{
    match usable(alloc, grammar) {
        Some(schema) => root_told(alloc, schema.grammar()),
        None => None,
    }
}

fn told(alloc: Global, asked: Asked, grammar: Grammar) -> Option<Vec<u8>>
    requires { IsSound grammar }
{
    match asked {
        Asked::Cost => cost_told(alloc, &grammar),
        Asked::Filling => filling_told(alloc, grammar),
    }
}

/// The answer for the root of a schema in the compact syntax; none where the schema can't be used.
pub(crate) fn answer(alloc: Global, asked: Asked, schema: &str) -> Option<Vec<u8>> {
    match grammar_of(alloc, schema) {
        Some(grammar) => told(alloc, asked, grammar),
        None => None,
    }
}
