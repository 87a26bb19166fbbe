//! Where names stand in a list, known without looking through it.

ghost use Rattle.std.specs.Prelude.{◌≡◌, ◌-◌, ◌<◌, ◌^◌, ◌++◌, ◌∷◌, [], length, take, Some, None, IfSome, IsSome, OnOk, OnErr};
ghost use Rattle.nx_events.specs.Places.{last_place, place_at, PutsAt};

use nx_base::memory::NoMemory;
use std::alloc::Global;
use std::collections::BTreeMap;
use std::marker::Model;

/// A name of a list, and the last place before it that the name has.
#[derive(Drop)]
pub struct Placed {
    pub(crate) name: Vec<u8>,
    pub(crate) around: Option<usize>,
}

/// A list of names. The last place of each is found in the time that a look-up takes in a map.
#[derive(Drop)]
pub struct NamePlaces {
    names: Vec<Placed>,
    last: BTreeMap<Vec<u8>, usize>,
}

impl Model for NamePlaces {
    ghost use Rattle.std.specs.Prelude.{List, ℕ};
    ghost use Rattle.nx_events.specs.Places.{names_in, IsIndexed};

    ghost Value = { List (List ℕ) };

    ghost view = { λ s. names_in s.names.items };

    ghost invariant = { λ s. IsIndexed s.names.items s.last };
}

// Puts a place under a name.
fn put(last: &mut BTreeMap<Vec<u8>, usize>, name: Vec<u8>, place: usize) -> Result<(), NoMemory>
    ensures ok { OnOk result (PutsAt name.items (Some place) last.old last.new) }
    ensures err { OnErr result (last.new.entries ≡ last.old.entries) }
{
    last.insert(name, place)?;
    Ok(())
}

// Puts another place under a name that has one.
fn replace(last: &mut BTreeMap<Vec<u8>, usize>, name: Vec<u8>, place: usize)
    requires { IsSome (place_at last.old name.items) }
    ensures { PutsAt name.items (Some place) last.old last.new }
{
    match last.insert(name, place) {
        Ok(_) => {}
        // A name that is there needs no memory.
        Err(_) => {}
    }
}

// Takes the last place of a name back: its place is the one around again.
fn restore(last: &mut BTreeMap<Vec<u8>, usize>, it: Placed)
    requires { IsSome (place_at last.old it.name.items) }
    ensures { PutsAt it.name.items it.around last.old last.new }
{
    match it.around {
        None => {
            last.remove(it.name.as_slice());
        }
        Some(place) => replace(last, it.name, place),
    }
}

impl NamePlaces {
    /// No names.
    pub fn new(alloc: Global) -> NamePlaces
        ensures { result ≡ [] }
    {
        NamePlaces {
            names: Vec::new(alloc),
            last: BTreeMap::new(alloc),
        }
    }

    /// The last place of a name.
    pub fn last_place(&self, name: &[u8]) -> Option<usize>
        ensures value { result ≡ last_place name.now self.now }
        ensures small { IfSome result (λ n. n < 2 ^ 63) }
    {
        self.last.get(name).copied()
    }

    /// Adds a name at the end.
    pub fn push(&mut self, alloc: Global, name: &[u8]) -> Result<(), NoMemory>
        ensures ok { OnOk result (self.new ≡ self.old ++ name.now ∷ []) }
        ensures err { OnErr result (self.new ≡ self.old) }
    {
        let key = Vec::from_slice(alloc, name)?;
        let place = self.names.len();
        let it = Placed {
            name: Vec::from_slice(alloc, name)?,
            around: self.last.get(name).copied(),
        };
        self.names.push(it)?;
        match put(&mut self.last, key, place) {
            Ok(()) => Ok(()),
            Err(error) => {
                self.names.pop();
                Err(error)
            }
        }
    }

    /// Takes the last name off, if there is one.
    pub fn pop(&mut self)
        ensures { self.new ≡ take (length self.old - 1) self.old }
    {
        if let Some(it) = self.names.pop() {
            restore(&mut self.last, it);
        }
    }
}
