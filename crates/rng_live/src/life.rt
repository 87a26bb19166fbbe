//! Under which conditions the patterns of a grammar live.

ghost use Rattle.std.specs.Prelude.{◌<◌, length, map, IfOk, OnOk};
ghost use Rattle.rng_core.specs.Meaning.{pattern_of, definition_of};
ghost use Rattle.rng_live.specs.declared.condition.Condition.TheVariants.{Known, If, Both, Either};
ghost use Rattle.rng_live.specs.Living.{HasSoundLeaves, HaveSoundLeaves};
ghost use Rattle.rng_live.specs.Spelling.{IsAdded, IsSpelled, IsDefined, AreSpelled};

use crate::condition::Condition;
use crate::naming::has_some_name;
use crate::takes::{has_member, strings, words};
use nx_base::memory::NoMemory;
use rng_core::grammar::{Def, Defs, Pat};
use rng_core::name_class::Bearer;
use std::alloc::Global;

/// Conditions by numbers: first those of the definitions, then those of the patterns in their contents, each of which rests
/// on those of its parts.
#[derive(Drop)]
pub(crate) struct Conditions {
    pub(crate) items: Vec<Condition>,
}

impl Conditions {
    /// Adds a condition, and answers its number.
    fn add(&mut self, condition: Condition) -> Result<usize, NoMemory>
        ensures { IfOk result (IsAdded condition self.old.items.items self.new.items.items) }
    {
        let number = self.items.len();
        self.items.push(condition)?;
        Ok(number)
    }

    // A pattern's conditions are added by calls as deep as the pattern is, so what calls itself holds numbers alone.

    /// Adds a condition that holds always, or never.
    #[inline(never)]
    fn add_known(&mut self, known: bool) -> Result<usize, NoMemory>
        ensures { IfOk result (IsAdded (Known known) self.old.items.items self.new.items.items) }
    {
        self.add(Condition::Known(known))
    }

    /// Adds one that holds where another does, if the flag is set.
    #[inline(never)]
    fn add_if(&mut self, flag: bool, on: usize) -> Result<usize, NoMemory>
        ensures { IfOk result (IsAdded (If flag on) self.old.items.items self.new.items.items) }
    {
        self.add(Condition::If(flag, on))
    }

    /// Adds one that holds where two others do.
    #[inline(never)]
    fn add_both(&mut self, first: usize, second: usize) -> Result<usize, NoMemory>
        ensures { IfOk result (IsAdded (Both first second) self.old.items.items self.new.items.items) }
    {
        self.add(Condition::Both(first, second))
    }

    /// Adds one that holds where one of two others does.
    #[inline(never)]
    fn add_either(&mut self, first: usize, second: usize) -> Result<usize, NoMemory>
        ensures { IfOk result (IsAdded (Either first second) self.old.items.items self.new.items.items) }
    {
        self.add(Condition::Either(first, second))
    }

    /// Adds the conditions of a pattern, the last of which is its own, and answers that one's number.
    pub(crate) fn add_pattern(&mut self, alloc: Global, pattern: &Pat) -> Result<usize, NoMemory>
        requires { HasSoundLeaves (pattern_of pattern.now) }
        ensures { IfOk result (λ number. IsSpelled self.old.items.items self.new.items.items number (pattern_of pattern.now)) }
    {
        match pattern {
            Pat::NotAllowed => {
                let number = self.add_known(false)?;
                Ok(number)
            }
            Pat::Empty => {
                let number = self.add_known(true)?;
                Ok(number)
            }
            Pat::Text => {
                let number = self.add_known(true)?;
                Ok(number)
            }
            Pat::Typed(datatype, excepts) => {
                let number = self.add_known(has_member(datatype, excepts, false))?;
                Ok(number)
            }
            Pat::Value(_, _) => {
                let number = self.add_known(true)?;
                Ok(number)
            }
            Pat::Ref(definition) => {
                let number = self.add_if(true, *definition as usize)?;
                Ok(number)
            }
            Pat::List(body) => {
                let takes = words(alloc, body)?;
                let part = self.add_pattern(alloc, body)?;
                let number = self.add_if(takes.any(), part)?;
                Ok(number)
            }
            Pat::Attribute(class, body) => {
                let named = has_some_name(alloc, class, Bearer::Attribute);
                let takes = strings(alloc, body)?;
                let part = self.add_pattern(alloc, body)?;
                let number = self.add_if(takes.any_if(named), part)?;
                Ok(number)
            }
            Pat::OneOrMore(body) => {
                let part = self.add_pattern(alloc, body)?;
                let number = self.add_if(true, part)?;
                Ok(number)
            }
            Pat::Choice(a, b) => {
                let first = self.add_pattern(alloc, a)?;
                let second = self.add_pattern(alloc, b)?;
                let number = self.add_either(first, second)?;
                Ok(number)
            }
            Pat::Group(a, b) => {
                let first = self.add_pattern(alloc, a)?;
                let second = self.add_pattern(alloc, b)?;
                let number = self.add_both(first, second)?;
                Ok(number)
            }
            Pat::Interleave(a, b) => {
                let first = self.add_pattern(alloc, a)?;
                let second = self.add_pattern(alloc, b)?;
                let number = self.add_both(first, second)?;
                Ok(number)
            }
        }
    }
}

impl Conditions {
    /// Puts the condition of a definition in its place, and adds those of its content.
    fn add_definition(&mut self, alloc: Global, number: usize, def: &Def) -> Result<(), NoMemory>
        requires sound { HasSoundLeaves (definition_of def.now).content }
        requires inside { number < length self.old.items.items }
        ensures { OnOk result (IsDefined self.old.items.items self.new.items.items number (definition_of def.now)) }
    {
        let named = has_some_name(alloc, &def.class, Bearer::Element);
        let root = self.add_pattern(alloc, &def.content)?;
        self.items[number] = Condition::If(named, root);
        Ok(())
    }
}

/// The conditions of a grammar's definitions and of what stands in their contents.
pub(crate) fn conditions_of(alloc: Global, defs: &Defs) -> Result<Conditions, NoMemory>
    requires { HaveSoundLeaves (map definition_of defs.now) }
    ensures { IfOk result (λ made. AreSpelled (map definition_of defs.now) made.items.items) }
{
    let items = vec![in alloc; Condition::Known(false); defs.len()]?;
    let mut conditions = Conditions { items };
    let defs = defs.as_slice();
    for number in 0..defs.len() {
        conditions.add_definition(alloc, number, &defs[number])?;
    }
    Ok(conditions)
}
