//! Offers of names.

ghost use Rattle.std.specs.Prelude.{◌≡◌, [], ◌∷◌, ◌++◌, IfOk, OnOk};
ghost use Rattle.nx_complete.specs.Asking.{asks, named, names_passed, spaces_passed, rest_passed, ListsNames};

use crate::apart::apart_from;
use crate::naming::{Naming, passes};
use nx_base::memory::NoMemory;
use nx_base::name::Name;
use nx_base::offer::{Offer, OfferList};
use nx_base::sequence::{Bytes, Sequence, TryCopy};
use rng_live::matcher::Matcher;
use std::alloc::Global;

// A name, if it may stand here.
fn push_name<M: Matcher>(
    alloc: Global,
    matcher: &mut M,
    here: &M::State,
    naming: &Naming,
    name: &Name,
    offers: &mut Vec<Offer>,
) -> Result<(), NoMemory>
    requires { M.is_state matcher.old here.now }
    ensures later { M.later matcher.old matcher.new }
    ensures offers { OnOk result (offers.new.items ≡ offers.old.items
        ++ names_passed (asks (M.language matcher.old).definitions naming.now (M.means matcher.old here.now)) (name.now ∷ [])) }
{
    if passes(alloc, matcher, here, naming, name)? {
        let name = name.copy()?;
        offers.push(Offer::Name(name))?;
    }
    Ok(())
}

// Those of the names that may stand here.
fn push_names<M: Matcher>(
    alloc: Global,
    matcher: &mut M,
    here: &M::State,
    naming: &Naming,
    names: &[Name],
    offers: &mut Vec<Offer>,
) -> Result<(), NoMemory>
    requires { M.is_state matcher.old here.now }
    ensures later { M.later matcher.old matcher.new }
    ensures offers { OnOk result (offers.new.items ≡ offers.old.items
        ++ names_passed (asks (M.language matcher.old).definitions naming.now (M.means matcher.old here.now)) names.now) }
{
    let mut left = names;
    while let Some((name, rest)) = left.split_first() {
        push_name(alloc, matcher, here, naming, name, offers)?;
        left = rest;
    }
    Ok(())
}

// A namespace, if its name with this local part may stand here.
fn push_space<M: Matcher>(
    alloc: Global,
    matcher: &mut M,
    here: &M::State,
    naming: &Naming,
    local: &Bytes,
    space: &Name,
    offers: &mut Vec<Offer>,
) -> Result<(), NoMemory>
    requires { M.is_state matcher.old here.now }
    ensures later { M.later matcher.old matcher.new }
    ensures offers { OnOk result (offers.new.items ≡ offers.old.items
        ++ spaces_passed (asks (M.language matcher.old).definitions naming.now (M.means matcher.old here.now)) local.now (space.now ∷ [])) }
{
    let name = Name {
        ns: space.ns.copy()?,
        local: local.copy()?,
    };
    if passes(alloc, matcher, here, naming, &name)? {
        offers.push(Offer::AnyIn(name.ns))?;
    }
    Ok(())
}

// Those of the namespaces of which that name may stand here.
fn push_spaces<M: Matcher>(
    alloc: Global,
    matcher: &mut M,
    here: &M::State,
    naming: &Naming,
    local: &Bytes,
    spaces: &[Name],
    offers: &mut Vec<Offer>,
) -> Result<(), NoMemory>
    requires { M.is_state matcher.old here.now }
    ensures later { M.later matcher.old matcher.new }
    ensures offers { OnOk result (offers.new.items ≡ offers.old.items
        ++ spaces_passed (asks (M.language matcher.old).definitions naming.now (M.means matcher.old here.now)) local.now spaces.now) }
{
    let mut left = spaces;
    while let Some((space, rest)) = left.split_first() {
        push_space(alloc, matcher, here, naming, local, space, offers)?;
        left = rest;
    }
    Ok(())
}

// All other namespaces, if this name may stand here.
fn push_rest<M: Matcher>(
    alloc: Global,
    matcher: &mut M,
    here: &M::State,
    naming: &Naming,
    name: &Name,
    offers: &mut Vec<Offer>,
) -> Result<(), NoMemory>
    requires { M.is_state matcher.old here.now }
    ensures later { M.later matcher.old matcher.new }
    ensures offers { OnOk result (offers.new.items ≡ offers.old.items
        ++ rest_passed (asks (M.language matcher.old).definitions naming.now (M.means matcher.old here.now)) name.now) }
{
    if passes(alloc, matcher, here, naming, name)? {
        offers.push(Offer::AnyElse)?;
    }
    Ok(())
}

/// The names that may stand here, in order.
pub(crate) fn offer_names<M: Matcher>(
    alloc: Global,
    matcher: &mut M,
    here: &M::State,
    naming: &Naming,
) -> Result<OfferList, NoMemory>
    requires { M.is_state matcher.old here.now }
    ensures later { M.later matcher.old matcher.new }
    ensures lists { IfOk result (ListsNames (M.language matcher.old).definitions naming.now (M.means matcher.old here.now)) }
{
    let names = matcher.schema().mentioned(alloc)?;
    let spaces = matcher.schema().namespaces(alloc)?;
    let apart = apart_from(alloc, names.as_slice(), naming.others(), spaces.as_slice())?;
    let mut offers = Vec::new(alloc);
    push_names(alloc, matcher, here, naming, names.as_slice(), &mut offers)?;
    push_spaces(
        alloc,
        matcher,
        here,
        naming,
        &apart.local,
        spaces.as_slice(),
        &mut offers,
    )?;
    push_rest(alloc, matcher, here, naming, &apart, &mut offers)?;
    Ok(Sequence::from_vec(offers))
}
