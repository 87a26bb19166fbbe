//! The definitions that are kept, and their new numbers.

ghost use Rattle.std.specs.Prelude.{◌≡◌, ◌<◌, ◌^◌, [], Some, length, slice_get, IfOk, OnOk};
ghost use Rattle.rng_restrict.specs.Finding.{IsMarked, with_number};
ghost use Rattle.rng_live.specs.Left.{ArePlaced};

use nx_base::memory::NoMemory;
use std::alloc::Global;

/// The definitions that are kept.
#[derive(Drop)]
pub(crate) struct Kept {
    /// Their old numbers, each once; a definition's new number is its place here.
    pub(crate) numbers: Vec<u32>,
    /// Whether each definition of the grammar is among them.
    pub(crate) seen: Vec<bool>,
    /// The new number of each definition that is among them.
    places: Vec<u32>,
    ghost marked: { IsMarked numbers.items seen.items },
    ghost placed: { ArePlaced numbers.items places.items },
    ghost whole: { length places.items ≡ length seen.items },
    ghost few: { length seen.items < 2 ^ 32 },
}

impl Kept {
    /// None of so many definitions.
    pub(crate) fn new(alloc: Global, count: usize) -> Result<Kept, NoMemory>
        requires { count < 2 ^ 32 }
        ensures { IfOk result (λ kept. (kept.numbers.items ≡ []) × (length kept.seen.items ≡ count)) }
    {
        let seen = vec![in alloc; false; count]?;
        let places = vec![in alloc; 0; count]?;
        Ok(Kept {
            numbers: Vec::new(alloc),
            seen,
            places,
        })
    }

    /// The new number of a definition, which is kept from now on.
    #[inline(never)]
    pub(crate) fn keep(&mut self, number: u32) -> Result<u32, NoMemory>
        ensures kept { OnOk result (self.new.numbers.items ≡ with_number (length self.old.seen.items) number self.old.numbers.items) }
        ensures numbered { number < length self.old.seen.items
            → IfOk result (λ place. slice_get self.new.numbers.items place ≡ Some number) }
        ensures steady { length self.new.seen.items ≡ length self.old.seen.items }
    {
        let old = number as usize;
        if old >= self.seen.len() {
            return Ok(number);
        }
        if self.seen[old] {
            return Ok(self.places[old]);
        }
        let place = self.numbers.len() as u32;
        self.numbers.push(number)?;
        self.seen[old] = true;
        self.places[old] = place;
        Ok(place)
    }
}
