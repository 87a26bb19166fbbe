//! How elements of a definition begin, kept once it was found.
//!
//! An element may stand some thousand times in what a content is filled with. Its name, its attributes and its string are found for the
//! first of them alone, and copied for the others: so a class of thousands of names, or an attribute with as many values, is not read
//! again for each.

ghost use Rattle.std.specs.Prelude.{◌≡◌, ◌<◌, None, Some, length, replicate, set, slice_get, IfOk, MatchOption};
ghost use Rattle.rng_fill.specs.Contents.{definitions_in, costs_in, AreRead};
ghost use Rattle.rng_fill.specs.Fillable.{CanBeFilled};
ghost use Rattle.rng_fill.specs.Heads.{known_heads, IsHeadOf, AreHeads};

use crate::contents::Contents;
use crate::moves::Moves;
use crate::names::element_name;
use crate::start::beginning;
use nx_base::memory::NoMemory;
use nx_base::name::Name;
use nx_base::sequence::TryCopy;
use std::alloc::Global;

/// How elements of a definition begin.
#[derive(Drop)]
pub(crate) struct Head {
    /// A name of its class, if there is one.
    pub(crate) name: Option<Name>,
    /// Attributes, the end of the start tag, and the string, if there is one.
    pub(crate) moves: Moves,
}

impl TryCopy for Head {
    fn copy(&self) -> Result<Head, NoMemory> {
        let name = match &self.name {
            Some(name) => Some(name.copy()?),
            None => None,
        };
        Ok(Head {
            name,
            moves: self.moves.copy()?,
        })
    }
}

/// How elements of each definition begin, as far as it was asked for.
#[derive(Drop)]
pub struct Heads {
    items: Vec<Option<Head>>,
}

/// So many heads of which none is known.
fn none_known(alloc: Global, count: usize) -> Result<Vec<Option<Head>>, NoMemory>
    ensures { IfOk result (λ items. items.items ≡ replicate count None) }
{
    let mut items = Vec::with_capacity(alloc, count)?;
    while items.len() < count {
        items.push(None)?;
    }
    Ok(items)
}

impl Heads {
    /// The head of a definition, if it is known.
    fn get(&self, number: u32) -> Option<&Head>
        ensures { MatchOption result (Unit {0}) (λ head. slice_get (known_heads self.now) number ≡ Some (Some head.now)) }
    {
        match self.items.get(number as usize) {
            Some(Some(head)) => Some(head),
            _ => None,
        }
    }

    /// Keeps the head of a definition.
    fn keep(&mut self, number: u32, head: Head)
        requires { number < length (known_heads self.old) }
        ensures { known_heads self.new ≡ set (known_heads self.old) number (Some head) }
    {
        self.items[number as usize] = Some(head);
    }
}

impl Contents<'_> {
    /// No head of any definition is known.
    pub fn no_heads(&self) -> Result<Heads, NoMemory>
        ensures { IfOk result (AreHeads (definitions_in self.now) (costs_in self.now)) }
    {
        let items = none_known(self.alloc, self.defs.len())?;
        Ok(Heads { items })
    }

    /// Finds the head of a definition.
    fn found_head(&self, number: u32) -> Result<Head, NoMemory>
        requires read { AreRead self.now }
        requires fit { CanBeFilled (definitions_in self.now) (costs_in self.now) }
        requires inside { number < length (definitions_in self.now) }
        ensures { IfOk result (IsHeadOf (definitions_in self.now) (costs_in self.now) number) }
    {
        let Some(def) = self.defs.get(number as usize) else {
            unreachable!();
        };
        let name = element_name(self.alloc, &def.class)?;
        let moves = beginning(self.alloc, self.leaves_at(number))?;
        Ok(Head { name, moves })
    }

    /// The head of a definition, which is found where it isn't known, and then kept.
    pub(crate) fn head(&self, number: u32, heads: &mut Heads) -> Result<Head, NoMemory>
        requires read { AreRead self.now }
        requires fit { CanBeFilled (definitions_in self.now) (costs_in self.now) }
        requires inside { number < length (definitions_in self.now) }
        requires heads { AreHeads (definitions_in self.now) (costs_in self.now) heads.old }
        ensures head { IfOk result (IsHeadOf (definitions_in self.now) (costs_in self.now) number) }
        ensures heads { AreHeads (definitions_in self.now) (costs_in self.now) heads.new }
    {
        if let Some(head) = heads.get(number) {
            return head.copy();
        }
        let head = self.found_head(number)?;
        let copy = head.copy()?;
        heads.keep(number, copy);
        Ok(head)
    }
}
