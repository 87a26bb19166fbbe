//! Schemas of which only what lives is left.

ghost use Rattle.std.specs.Prelude.{◌≡◌, ◌↔◌, IsTrue, IfOk};
ghost use Rattle.std.specs.List.{list_any};
ghost use Rattle.rng_core.specs.Names.{has_name};
ghost use Rattle.rng_core.specs.Meaning.{class_of};
ghost use Rattle.rng_kept.specs.Standing.{IsKnown};
ghost use Rattle.rng_live.specs.Schemas.{schema_language};
ghost use Rattle.rng_live.specs.Listed.{AreMentioned, AreNamespaces, AreLiterals};

use crate::gathering::{Asked, Values, literals_of, mentions_of};
use nx_base::memory::NoMemory;
use nx_base::name::{Name, Names};
use rng_core::grammar::{Def, Grammar};
use std::alloc::Global;

/// A grammar each pattern of which matches something, and each definition of which its start reaches. `prune` makes it.
#[derive(Drop)]
pub struct Schema {
    pub(crate) grammar: Grammar,
}

/// Whether one of the definitions allows an element of the name.
fn some_allows(defs: &[Def], name: &Name) -> bool
    ensures { result ≡ list_any (λ def. has_name (class_of def.class) name.now) defs.now }
{
    defs.iter().any(|def| def.class.has(name))
}

impl Schema {
    /// The pruned grammar.
    pub fn grammar(&self) -> &Grammar
        ensures { result.now ≡ self.now.grammar }
    {
        &self.grammar
    }

    /// Whether the name is that of an element that one of the definitions allows.
    pub fn knows(&self, name: &Name) -> bool
        ensures { IsTrue result ↔ IsKnown (schema_language self.now) name.now }
    {
        some_allows(self.grammar.defs.as_slice(), name)
    }

    /// The names that the classes of elements and attributes mention, by namespace and then by local part, without doubles.
    pub fn mentioned(&self, alloc: Global) -> Result<Names, NoMemory>
        ensures { IfOk result (AreMentioned (schema_language self.now).definitions) }
    {
        let defs = self.grammar.defs.as_slice();
        let names = mentions_of(alloc, Asked::Names, defs)?;
        Ok(names)
    }

    /// The namespaces that they mention, each as a name with an empty local part, in order and without doubles.
    pub fn namespaces(&self, alloc: Global) -> Result<Names, NoMemory>
        ensures { IfOk result (AreNamespaces (schema_language self.now).definitions) }
    {
        let defs = self.grammar.defs.as_slice();
        let names = mentions_of(alloc, Asked::Namespaces, defs)?;
        Ok(names)
    }

    /// The literals of the value patterns, as they are written, in order and without doubles.
    pub fn values(&self, alloc: Global) -> Result<Values, NoMemory>
        ensures { IfOk result (AreLiterals (schema_language self.now).definitions) }
    {
        let defs = self.grammar.defs.as_slice();
        let texts = literals_of(alloc, defs)?;
        Ok(texts)
    }
}
