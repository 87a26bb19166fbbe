//! The namespace declarations of one element.

ghost use Rattle.std.specs.Prelude.{◌≡◌, Some, option_copied, IfOk, OnOk};
ghost use Rattle.nx_events.specs.Places.{PutsAt};
ghost use Rattle.rngx_read.specs.Indexing.{IsIndex, uri_at};
ghost use Rattle.rngx_read.specs.Names.{last_bound};

use nx_base::memory::NoMemory;
use nx_base::name::{Name, Names};
use std::alloc::Global;
use std::collections::BTreeMap;
use std::marker::Model;

/// How many declarations are looked through for a prefix. Few elements have more; for those that do a map is kept.
const LOOKED_THROUGH: usize = 32;

/// The declarations of one element, in which the last one of a prefix is found without looking through many. To a contract they are
/// the list of their pairs.
#[derive(Drop)]
pub struct Declarations {
    pairs: Names,
    /// Where the last pair of each prefix stands, if there are many.
    places: Option<BTreeMap<Vec<u8>, usize>>,
}

impl Model for Declarations {
    ghost use Rattle.std.specs.Prelude.{List, IfSome};
    ghost use Rattle.nx_base.specs.declared.name.Name.{Name};
    ghost use Rattle.rngx_read.specs.Indexing.{IsIndex};

    ghost Value = { List Name };

    ghost view = { λ declarations. declarations.pairs };

    ghost invariant = { λ declarations. IfSome declarations.places (λ places. IsIndex declarations.pairs places) };
}

/// The URI of the last pair of the prefix, found by looking through the pairs.
#[tactic(auto, using(crate::proofs::Scopes::bound_here, crate::proofs::Scopes::bound_before, crate::proofs::Scopes::bound_in_none))]
fn last_in<'a>(pairs: &'a [Name], prefix: &[u8]) -> Option<&'a [u8]>
    ensures { option_copied result ≡ last_bound pairs.now prefix.now }
{
    let mut rest = pairs;
    'pairs: while let Some((pair, before)) = rest.split_last() {
        if pair.local.as_slice() == prefix {
            return Some(pair.ns.as_slice());
        }
        rest = before;
    }
    None
}

/// Puts a place under a prefix.
fn put(
    alloc: Global,
    places: &mut BTreeMap<Vec<u8>, usize>,
    prefix: &[u8],
    place: usize,
) -> Result<(), NoMemory>
    ensures { OnOk result (PutsAt prefix.now (Some place) places.old places.new) }
{
    let key = Vec::from_slice(alloc, prefix)?;
    places.insert(key, place)?;
    Ok(())
}

/// Where the last pair of each prefix stands.
fn places_of(alloc: Global, pairs: &[Name]) -> Result<BTreeMap<Vec<u8>, usize>, NoMemory>
    ensures { IfOk result (λ places. IsIndex pairs.now places) }
{
    let mut places = BTreeMap::new(alloc);
    for (place, pair) in pairs.iter().enumerate() {
        put(alloc, &mut places, pair.local.as_slice(), place)?;
    }
    Ok(places)
}

/// The URI of the pair at the place.
fn uri_at(pairs: &[Name], place: Option<usize>) -> Option<&[u8]>
    ensures { option_copied result ≡ uri_at pairs.now place }
{
    match pairs.get(place?) {
        Some(pair) => Some(pair.ns.as_slice()),
        None => None,
    }
}

impl Declarations {
    /// These pairs.
    pub(crate) fn new(alloc: Global, pairs: Names) -> Result<Declarations, NoMemory>
        ensures { IfOk result (λ declarations. declarations ≡ pairs) }
    {
        if pairs.len() <= LOOKED_THROUGH {
            return Ok(Declarations {
                pairs,
                places: None,
            });
        }
        let places = places_of(alloc, pairs.as_slice())?;
        Ok(Declarations {
            pairs,
            places: Some(places),
        })
    }

    /// The URI of the last pair of the prefix.
    #[tactic(auto, using(crate::proofs::Indexing::found_at))]
    pub(crate) fn last_bound(&self, prefix: &[u8]) -> Option<&[u8]>
        ensures { option_copied result ≡ last_bound self.now prefix.now }
    {
        match &self.places {
            None => last_in(self.pairs.as_slice(), prefix),
            Some(places) => uri_at(self.pairs.as_slice(), places.get(prefix).copied()),
        }
    }
}
