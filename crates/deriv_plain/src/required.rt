//! Attributes that every way to go on requires.

ghost use Rattle.std.specs.Prelude.{◌≡◌, IfOk};
ghost use Rattle.std.specs.List.{filter};
ghost use Rattle.rng_kept.specs.Required as required;
ghost use Rattle.rng_live.specs.Calls.{AreRequired};
ghost use Rattle.rng_live.specs.Possible.{ArePossible};
ghost use Rattle.deriv_plain.specs.Ways.{way_of, residual_of};

use crate::ways::OneWay;
use deriv_pattern::required::{candidates, needs};
use nx_base::memory::NoMemory;
use nx_base::name::{Name, Names};
use nx_base::sequence::TryCopy;
use rng_live::sorting::sort_names;
use std::alloc::Global;

/// Names among which are all that are required: those that the first start tag needs.
fn possible_names(alloc: Global, ways: &[OneWay]) -> Result<Names, NoMemory>
    ensures { IfOk result (ArePossible (residual_of ways.now)) }
{
    let mut left = ways;
    while let Some((way, rest)) = left.split_first() {
        if let OneWay::InTag(content, _) = way {
            let names = candidates(alloc, content)?;
            return Ok(names);
        }
        left = rest;
    }
    Ok(Names::new(alloc))
}

/// Whether a way needs an attribute of the name.
fn way_needs(alloc: Global, name: &Name, way: &OneWay) -> Result<bool, NoMemory>
    ensures { IfOk result (λ found. found ≡ required.way_needs name.now (way_of way.now)) }
{
    match way {
        OneWay::Among(_) => Ok(true),
        OneWay::InTag(content, _) => needs(alloc, name, content),
    }
}

/// Whether each way does.
fn all_need(alloc: Global, name: &Name, ways: &[OneWay]) -> Result<bool, NoMemory>
    ensures { IfOk result (λ found. found ≡ required.is_required name.now (residual_of ways.now)) }
{
    let mut left = ways;
    while let Some((way, rest)) = left.split_first() {
        if !way_needs(alloc, name, way)? {
            return Ok(false);
        }
        left = rest;
    }
    Ok(true)
}

/// Those of the names that are required.
fn required_among(alloc: Global, ways: &[OneWay], names: &[Name]) -> Result<Vec<Name>, NoMemory>
    ensures { IfOk result (λ found. found.items ≡ filter (λ name. required.is_required name (residual_of ways.now)) names.now) }
{
    let mut found = Vec::new(alloc);
    let mut left = names;
    while let Some((name, rest)) = left.split_first() {
        if all_need(alloc, name, ways)? {
            found.push(name.copy()?)?;
        }
        left = rest;
    }
    Ok(found)
}

/// The names that are required, in order and each once; none where no start tag is open.
pub(crate) fn required_names(alloc: Global, ways: &[OneWay]) -> Result<Names, NoMemory>
    ensures { IfOk result (AreRequired (residual_of ways.now)) }
{
    let possible = possible_names(alloc, ways)?;
    let mut found = required_among(alloc, ways, possible.as_slice())?;
    sort_names(&mut found);
    Ok(Names::from_vec(found))
}
