//! What opens at nodes by whatever name, as far as it is kept.

ghost use Rattle.std.specs.Prelude.{◌≡◌, List, IfSome};
ghost use Rattle.rng_core.specs.Patterns.{Pattern};
ghost use Rattle.deriv_nodes.specs.Kept.{AreKept, IsKept};

use crate::openings::Open;
use nx_base::memory::NoMemory;
use std::alloc::Global;

/// Behind how many openings no more nodes are kept: a megabyte of them.
const MOST: usize = 65_536;

/// The place of a node whose openings aren't to be kept: none is kept there.
const PASSED_OVER: u32 = u32::MAX;

/// A node with its openings by whatever name.
#[derive(Drop)]
pub struct OpenedNode {
    node: usize,
    opened: Vec<Open>,
}

/// Nodes with their openings, up to some `MOST` openings, and four bytes for each number up to the last of these nodes. Where a node
/// stands is a guess: whoever takes it looks at the node that stands there, so a wrong one makes no wrong answer, and no clause speaks
/// of places.
#[derive(Drop)]
pub struct KeptOpenings {
    entries: Vec<OpenedNode>,
    places: Vec<u32>,
    openings: usize,
}

impl KeptOpenings {
    /// Nothing kept.
    pub(crate) fn new(alloc: Global) -> KeptOpenings
        ensures { (nodes : List Pattern) → AreKept nodes result.entries.items }
    {
        KeptOpenings {
            entries: Vec::new(alloc),
            places: Vec::new(alloc),
            openings: 0,
        }
    }

    /// Whether so many are kept that no more are to be.
    pub(crate) fn are_many(&self) -> bool {
        self.openings >= MOST
    }

    /// The place of a node, if it is kept.
    fn place_of(&self, p: usize) -> u32 {
        match self.places.as_slice().get(p) {
            Some(place) => *place,
            None => 0,
        }
    }

    /// The openings of a node, if they are kept.
    pub(crate) fn of(&self, p: usize) -> Option<&[Open]>
        ensures { (nodes : List Pattern) → AreKept nodes self.now.entries.items → IfSome result (λ opened. IsKept nodes p opened.now) }
    {
        let first = self.entries.as_slice().get(self.place_of(p) as usize)?;
        if first.node == p {
            Some(first.opened.as_slice())
        } else {
            None
        }
    }

    /// From now on a node is looked for at this place.
    fn put_place(&mut self, p: usize, place: u32) -> Result<(), NoMemory>
        ensures { self.new.entries ≡ self.old.entries }
    {
        while self.places.len() <= p {
            self.places.push(0)?;
        }
        if let Some(guess) = self.places.get_mut(p) {
            *guess = place;
        }
        Ok(())
    }

    /// Whether a node was passed over.
    pub(crate) fn is_passed_over(&self, p: usize) -> bool {
        self.place_of(p) == PASSED_OVER
    }

    /// Passes a node over from now on, if there is memory to note that.
    pub(crate) fn pass_over(&mut self, p: usize)
        ensures { self.new.entries ≡ self.old.entries }
    {
        match self.put_place(p, PASSED_OVER) {
            Ok(()) => {}
            Err(_) => {}
        }
    }

    /// The place of the node that is kept next.
    fn next_place(&self) -> u32 {
        // There are no more of them than openings.
        u32::try_from(self.entries.len()).unwrap_or(PASSED_OVER)
    }

    /// Keeps the openings of a node; NoMemory where there is none for them, and then they may be asked anew.
    pub(crate) fn keep(&mut self, p: usize, opened: Vec<Open>) -> Result<(), NoMemory>
        ensures { (nodes : List Pattern) → AreKept nodes self.old.entries.items → IsKept nodes p opened.items
            → AreKept nodes self.new.entries.items }
    {
        let place = self.next_place();
        self.put_place(p, place)?;
        self.openings = self.openings.saturating_add(opened.len()).saturating_add(1);
        self.entries.push(OpenedNode { node: p, opened })?;
        Ok(())
    }
}
