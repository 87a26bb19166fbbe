//! Offers of values, and of an end.

ghost use Rattle.std.specs.Prelude.{◌≡◌, [], ◌∷◌, ◌++◌, IfOk, OnOk};
ghost use Rattle.std.specs.Str.{is_utf8};
ghost use Rattle.nx_complete.specs.Asking.{takes_value, values_passed, ListsValues, end_listed};

use nx_base::memory::NoMemory;
use nx_base::name::Name;
use nx_base::offer::{Offer, OfferList};
use nx_base::sequence::{Bytes, Sequence, TryCopy};
use rng_live::matcher::Matcher;
use std::alloc::Global;
use std::str;

// Whether the bytes are text.
fn is_text(bytes: &[u8]) -> bool
    ensures { result ≡ is_utf8 bytes.now }
{
    match str::from_utf8(bytes) {
        Ok(_) => true,
        Err(_) => false,
    }
}

// Whether the attribute may stand here with this value.
#[tactic(auto, using(crate::proofs::Asked::some_given))]
fn takes_value<M: Matcher>(
    alloc: Global,
    matcher: &mut M,
    here: &M::State,
    name: &Name,
    text: &[u8],
) -> Result<bool, NoMemory>
    requires { M.is_state matcher.old here.now }
    ensures later { M.later matcher.old matcher.new }
    ensures takes { IfOk result (λ b. b ≡ takes_value name.now (M.means matcher.old here.now) text.now) }
{
    if is_text(text) {
        let had = matcher.attribute(alloc, here, name, text)?;
        Ok(had.is_some())
    } else {
        Ok(false)
    }
}

// A literal, if the attribute may stand here with it.
fn push_value<M: Matcher>(
    alloc: Global,
    matcher: &mut M,
    here: &M::State,
    name: &Name,
    text: &Bytes,
    offers: &mut Vec<Offer>,
) -> Result<(), NoMemory>
    requires { M.is_state matcher.old here.now }
    ensures later { M.later matcher.old matcher.new }
    ensures offers { OnOk result (offers.new.items ≡ offers.old.items
        ++ values_passed (takes_value name.now (M.means matcher.old here.now)) (text.now ∷ [])) }
{
    if takes_value(alloc, matcher, here, name, text.as_slice())? {
        let text = text.copy()?;
        offers.push(Offer::Value(text))?;
    }
    Ok(())
}

// Those of the literals with which the attribute may stand here.
fn push_values<M: Matcher>(
    alloc: Global,
    matcher: &mut M,
    here: &M::State,
    name: &Name,
    texts: &[Bytes],
    offers: &mut Vec<Offer>,
) -> Result<(), NoMemory>
    requires { M.is_state matcher.old here.now }
    ensures later { M.later matcher.old matcher.new }
    ensures offers { OnOk result (offers.new.items ≡ offers.old.items
        ++ values_passed (takes_value name.now (M.means matcher.old here.now)) texts.now) }
{
    let mut left = texts;
    while let Some((text, rest)) = left.split_first() {
        push_value(alloc, matcher, here, name, text, offers)?;
        left = rest;
    }
    Ok(())
}

/// The values of an attribute that may stand here, in order; none where it has no name.
pub(crate) fn offer_values<M: Matcher>(
    alloc: Global,
    matcher: &mut M,
    here: &M::State,
    name: &Option<Name>,
) -> Result<OfferList, NoMemory>
    requires { M.is_state matcher.old here.now }
    ensures later { M.later matcher.old matcher.new }
    ensures lists { IfOk result (ListsValues (M.language matcher.old).definitions name.now (M.means matcher.old here.now)) }
{
    let mut offers = Vec::new(alloc);
    if let Some(name) = name {
        let texts = matcher.schema().values(alloc)?;
        push_values(alloc, matcher, here, name, texts.as_slice(), &mut offers)?;
    }
    Ok(Sequence::from_vec(offers))
}

/// The end of the innermost open element, which has this written name, if it may stand here.
#[tactic(auto, using(crate::proofs::Asked::some_given))]
pub(crate) fn offer_end<M: Matcher>(
    alloc: Global,
    matcher: &mut M,
    here: &M::State,
    written: Bytes,
) -> Result<OfferList, NoMemory>
    requires { M.is_state matcher.old here.now }
    ensures later { M.later matcher.old matcher.new }
    ensures lists { IfOk result (λ offers. offers ≡ end_listed written (M.means matcher.old here.now)) }
{
    let mut offers = Vec::new(alloc);
    if matcher.leave(alloc, here)?.is_some() {
        offers.push(Offer::End(written))?;
    }
    Ok(Sequence::from_vec(offers))
}
