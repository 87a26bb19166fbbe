//! What a grammar's start reaches, by a work list.

ghost use Rattle.std.specs.Prelude.{◌≡◌, [], length, map, slice_get, IfOk, OnOk};
ghost use Rattle.rng_core.specs.Meaning.{pattern_of, definition_of, definitions_of};
ghost use Rattle.rng_restrict.specs.Finding.{IsMarked, AreReached, with_number, with_references, with_content};

use nx_base::memory::NoMemory;
use rng_core::grammar::{Defs, Grammar, Pat};
use std::alloc::Global;

/// The definitions that were reached so far.
#[derive(Drop)]
struct Reach {
    /// Their numbers, each once, in the order in which they were reached.
    found: Vec<u32>,
    /// Whether each definition of the grammar is among them.
    seen: Vec<bool>,
    ghost marked: { IsMarked found.items seen.items },
}

impl Reach {
    /// None of so many definitions.
    fn new(alloc: Global, count: usize) -> Result<Reach, NoMemory>
        ensures { IfOk result (λ reach. (reach.found.items ≡ []) × (length reach.seen.items ≡ count)) }
    {
        let seen = vec![in alloc; false; count]?;
        Ok(Reach {
            found: Vec::new(alloc),
            seen,
        })
    }

    /// Adds the definition of a number, if there is one and it wasn't reached.
    fn add(&mut self, number: u32) -> Result<(), NoMemory>
        ensures added { OnOk result (self.new.found.items ≡ with_number (length self.old.seen.items) number self.old.found.items) }
        ensures steady { length self.new.seen.items ≡ length self.old.seen.items }
    {
        let place = number as usize;
        if place >= self.seen.len() {
            return Ok(());
        }
        if self.seen[place] {
            return Ok(());
        }
        self.found.push(number)?;
        self.seen[place] = true;
        Ok(())
    }

    /// Adds the definitions that references in a pattern name.
    fn add_all(&mut self, pattern: &Pat) -> Result<(), NoMemory>
        ensures added { OnOk result (self.new.found.items
            ≡ with_references (length self.old.seen.items) (pattern_of pattern.now) self.old.found.items) }
        ensures steady { length self.new.seen.items ≡ length self.old.seen.items }
    {
        match pattern {
            Pat::NotAllowed => Ok(()),
            Pat::Empty => Ok(()),
            Pat::Text => Ok(()),
            Pat::Typed(_, _) => Ok(()),
            Pat::Value(_, _) => Ok(()),
            Pat::List(body) => self.add_all(body),
            Pat::Attribute(_, body) => self.add_all(body),
            Pat::Ref(number) => self.add(*number),
            Pat::OneOrMore(body) => self.add_all(body),
            Pat::Choice(a, b) => {
                self.add_all(a)?;
                self.add_all(b)
            }
            Pat::Group(a, b) => {
                self.add_all(a)?;
                self.add_all(b)
            }
            Pat::Interleave(a, b) => {
                self.add_all(a)?;
                self.add_all(b)
            }
        }
    }

    /// Adds the definitions that the content of one refers to.
    fn follow(&mut self, defs: &Defs, number: u32) -> Result<(), NoMemory>
        ensures added { OnOk result (self.new.found.items
            ≡ with_content (length self.old.seen.items) (slice_get (map definition_of defs.now) number) self.old.found.items) }
        ensures steady { length self.new.seen.items ≡ length self.old.seen.items }
    {
        match defs.get(number as usize) {
            Some(def) => self.add_all(&def.content),
            None => Ok(()),
        }
    }
}

/// The numbers of the definitions that a grammar's start reaches.
pub(crate) fn reached(alloc: Global, grammar: &Grammar) -> Result<Vec<u32>, NoMemory>
    ensures { IfOk result (λ numbers. AreReached (pattern_of grammar.now.start) (definitions_of grammar.now) numbers.items) }
{
    let mut reach = Reach::new(alloc, grammar.defs.len())?;
    reach.add_all(&grammar.start)?;
    let mut next: usize = 0;
    while next < reach.found.len() {
        let number = reach.found[next];
        reach.follow(&grammar.defs, number)?;
        next += 1;
    }
    let Reach { found, seen: _ } = reach;
    Ok(found)
}
