//! Pruning.

ghost use Rattle.std.specs.Prelude.{◌≡◌, length, map, IfOk};
ghost use Rattle.rng_core.specs.Meaning.{definition_of, language_of};
ghost use Rattle.rng_core.specs.Soundness.{IsSound};
ghost use Rattle.rng_restrict.specs.Checking.{ChecksGrammar};
ghost use Rattle.rng_kept.specs.Live.{IsLive};
ghost use Rattle.rng_live.specs.Schemas.{schema_language, PrunesGrammar};
ghost use Rattle.rng_live.specs.Pruned.{MatchSame};
ghost use Rattle.rng_live.specs.Leaving.{LeavesDefinition, LeavesAll};

use crate::condition::is_marked_at;
use crate::depth::can_be_walked;
use crate::fault::LiveFault;
use crate::holding::marks_of;
use crate::kept::Kept;
use crate::left::{Life, first_part, left};
use crate::life::conditions_of;
use crate::schema::Schema;
use nx_base::memory::NoMemory;
use rng_core::grammar::{Def, Defs, Grammar};
use std::alloc::Global;

/// What is left of a definition that lives, by its number.
fn left_definition(
    alloc: Global,
    life: &Life,
    kept: &mut Kept,
    def: &Def,
    number: usize,
) -> Result<Def, NoMemory>
    ensures left { IfOk result (λ made. LeavesDefinition life.now.conditions.now life.now.marks.now (length kept.old.seen.items) number
        (definition_of def.now) kept.old.numbers.items kept.new.numbers.items (definition_of made)) }
    ensures steady { length kept.new.seen.items ≡ length kept.old.seen.items }
{
    let root = first_part(life.conditions, number);
    let content = left(alloc, life, kept, &def.content, root)?;
    Ok(Def {
        class: def.class.copy(alloc)?,
        content,
    })
}

/// What is left of the definitions that are kept, in the order of their new numbers. Those that they refer to are kept, too.
fn left_definitions(
    alloc: Global,
    life: &Life,
    kept: &mut Kept,
    defs: &Defs,
) -> Result<Defs, NoMemory>
    requires { length kept.old.seen.items ≡ length defs.now }
    ensures left { IfOk result (λ made. LeavesAll life.now.conditions.now life.now.marks.now (map definition_of defs.now)
        kept.old.numbers.items kept.new.numbers.items (map definition_of made)) }
    ensures steady { length kept.new.seen.items ≡ length kept.old.seen.items }
{
    let mut made = Defs::new(alloc);
    let mut next: usize = 0;
    while next < kept.numbers.len() {
        let number = kept.numbers[next] as usize;
        let Some(def) = defs.get(number) else {
            return Ok(made);
        };
        let one = left_definition(alloc, life, kept, def, number)?;
        made.push(one)?;
        next += 1;
    }
    Ok(made)
}

/// The schema of a grammar: the same with each choice that has one dead side pruned to the other side, and of the definitions
/// those alone that its start then reaches, under new numbers.
///
/// `NothingValid` comes exactly where the start is dead, so that no document is valid. What is dead is found from below: each
/// definition that is found to live wakes the patterns that refer to it, so that the steps are as many as the nodes of the
/// grammar. The walks call themselves as deep as a pattern is: a grammar with a path of more than 8,000 nodes,
/// which simplification refuses, is answered as want of memory.
pub fn prune(alloc: Global, grammar: Grammar) -> Result<Schema, LiveFault>
    requires sound { IsSound grammar }
    requires checked { ChecksGrammar grammar (Ok tt) }
    ensures pruned { PrunesGrammar grammar result }
    ensures live { IfOk result (λ schema. IsLive (schema_language schema)) }
    ensures trees { IfOk result (λ schema. MatchSame (language_of grammar) (schema_language schema)) }
    ensures sound { IfOk result (λ schema. IsSound schema.grammar) }
{
    if !can_be_walked(&grammar) {
        return Err(LiveFault::NoMemory);
    }
    let mut conditions = conditions_of(alloc, &grammar.defs)?;
    let root = conditions.add_pattern(alloc, &grammar.start)?;
    let marks = marks_of(alloc, conditions.items.as_slice())?;
    if !is_marked_at(marks.as_slice(), root) {
        return Err(LiveFault::NothingValid);
    }
    let life = Life {
        conditions: conditions.items.as_slice(),
        marks: marks.as_slice(),
    };
    let mut kept = Kept::new(alloc, grammar.defs.len())?;
    let start = left(alloc, &life, &mut kept, &grammar.start, root)?;
    let defs = left_definitions(alloc, &life, &mut kept, &grammar.defs)?;
    Ok(Schema {
        grammar: Grammar { start, defs },
    })
}
