//! Which declarations names of a URI can have the prefix of.

use nx_base::memory::NoMemory;
use std::alloc::Global;
use std::collections::{BTreeMap, BTreeSet};

/// For each URI the places of the declarations of it in force that no other one hides. What is told is a guess to a contract: who asks
/// looks whether it is so.
#[derive(Drop)]
pub(crate) struct Serving {
    alloc: Global,
    places: BTreeMap<Vec<u8>, BTreeSet<usize>>,
}

impl Serving {
    /// No declarations.
    pub(crate) fn new(alloc: Global) -> Serving {
        Serving {
            alloc,
            places: BTreeMap::new(alloc),
        }
    }

    /// The innermost one of a URI.
    pub(crate) fn innermost(&self, uri: &[u8]) -> Option<usize> {
        self.places.get(uri)?.last().copied()
    }

    /// One more of a URI.
    pub(crate) fn add(&mut self, uri: &[u8], place: usize) -> Result<(), NoMemory> {
        if let Some(places) = self.places.get_mut(uri) {
            places.insert(place)?;
            return Ok(());
        }
        let mut places = BTreeSet::new(self.alloc);
        places.insert(place)?;
        self.places
            .insert(Vec::from_slice(self.alloc, uri)?, places)?;
        Ok(())
    }

    /// One less.
    pub(crate) fn remove(&mut self, uri: &[u8], place: usize) {
        if let Some(places) = self.places.get_mut(uri) {
            places.remove(&place);
        }
    }
}
