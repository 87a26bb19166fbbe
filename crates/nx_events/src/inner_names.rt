//! The names of those things of a list that aren't looked through.

ghost use Rattle.std.specs.Prelude.{◌≡◌, ◌-◌, ◌<◌, ◌^◌, ◌++◌, ◌∷◌, [], length, take, IfSome, OnOk, OnErr};
ghost use Rattle.nx_events.specs.Places.{last_place};

use crate::name_places::NamePlaces;
use nx_base::memory::NoMemory;
use std::alloc::Global;
use std::marker::Model;

/// A list of names. Most lists have none: such a one takes no memory beside a pointer, and is moved, dropped and asked
/// in a step or two.
#[derive(Drop)]
pub struct InnerNames {
    places: Option<Box<NamePlaces>>,
}

impl Model for InnerNames {
    ghost use Rattle.std.specs.Prelude.{List, ℕ, [], unwrap_or};
    ghost use Rattle.std.specs.Option.{option_map};

    ghost Value = { List (List ℕ) };

    ghost view = { λ s. unwrap_or (option_map (λ places. places.value) s.places) [] };
}

impl InnerNames {
    /// No names.
    pub(crate) fn new() -> InnerNames
        ensures { result ≡ [] }
    {
        InnerNames { places: None }
    }

    /// The last place of a name.
    #[tactic(auto, unfolding(crate::specs::Places::last_place))]
    pub(crate) fn last_place(&self, name: &[u8]) -> Option<usize>
        ensures value { result ≡ last_place name.now self.now }
        ensures small { IfSome result (λ n. n < 2 ^ 63) }
    {
        match &self.places {
            None => None,
            Some(places) => places.last_place(name),
        }
    }

    /// Adds a name at the end.
    // Few documents nest deep enough: callers that seldom call this stay small.
    #[inline(never)]
    pub(crate) fn push(&mut self, alloc: Global, name: &[u8]) -> Result<(), NoMemory>
        ensures ok { OnOk result (self.new ≡ self.old ++ name.now ∷ []) }
        ensures err { OnErr result (self.new ≡ self.old) }
    {
        match &mut self.places {
            Some(places) => places.push(alloc, name),
            None => {
                let mut places = Box::new(alloc, NamePlaces::new(alloc))?;
                places.push(alloc, name)?;
                self.places = Some(places);
                Ok(())
            }
        }
    }

    /// Takes the last name off, if there is one.
    #[inline(never)]
    pub(crate) fn pop(&mut self)
        ensures { self.new ≡ take (length self.old - 1) self.old }
    {
        if let Some(places) = &mut self.places {
            places.pop();
        }
    }
}
