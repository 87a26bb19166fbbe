//! The leaves of each content, found once.

ghost use Rattle.std.specs.Prelude.{◌<◌, length, map, IfOk};
ghost use Rattle.rng_core.specs.Meaning.{definition_of};
ghost use Rattle.rng_cost.specs.Leaves.{patterns_of};
ghost use Rattle.rng_fill.specs.Contents.{definitions_in, costs_in, HaveLeaves, AreRead, AreLeavesOf};

use nx_base::memory::NoMemory;
use nx_base::sequence::Sequence;
use rng_core::grammar::{Defs, Pat};
use rng_cost::{Costs, Leaves};
use std::alloc::Global;

/// The definitions of a schema with what each of their contents is filled by. They are made once, and then as many elements are written
/// as one likes: no content is read again for an element.
#[derive(Drop)]
pub struct Contents<'a> {
    pub(crate) alloc: Global,
    pub(crate) defs: &'a Defs,
    /// What each content costs at least. Contracts speak of it.
    pub(crate) costs: &'a Costs,
    /// The leaves of each content, by the definition's number.
    pub(crate) leaves: Sequence<Leaves<'a>>,
}

impl<'a> Contents<'a> {
    /// The contents of these definitions, by their least costs.
    pub fn of(alloc: Global, defs: &'a Defs, costs: &'a Costs) -> Result<Contents<'a>, NoMemory>
        ensures { IfOk result (HaveLeaves (map definition_of defs.now) costs.now) }
    {
        let mut leaves: Sequence<Leaves<'a>> = Sequence::new(alloc);
        for def in defs.as_slice() {
            leaves.push(costs.leaves_of(alloc, &def.content)?)?;
        }
        Ok(Contents {
            alloc,
            defs,
            costs,
            leaves,
        })
    }

    /// The leaves of the content of a definition.
    pub(crate) fn leaves_at(&self, number: u32) -> &[&'a Pat]
        requires read { AreRead self.now }
        requires inside { number < length (definitions_in self.now) }
        ensures { AreLeavesOf (definitions_in self.now) (costs_in self.now) number (patterns_of result.now) }
    {
        match self.leaves.get(number as usize) {
            Some(leaves) => leaves.as_slice(),
            None => unreachable!(),
        }
    }
}
