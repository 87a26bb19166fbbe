//! What may stand at a place, as lines.

ghost use Rattle.std.specs.Prelude.{◌≡◌, ◌++◌, IfOk, OnOk, codes, length};
ghost use Rattle.std.specs.Fmt.{decimal};
ghost use Rattle.std.specs.List.{flat_map};
ghost use Rattle.nx_script.specs.Escapes.{printed_text};
ghost use Rattle.nx_script.specs.OfferLines.{offer_text, offer_line, offers_text};
ghost use Rattle.nx_base.specs.declared.offer.Offers.TheVariants as offered;

use crate::escape::push_text;
use nx_base::memory::NoMemory;
use nx_base::offer::{Offer, Offers};
use nx_base::printed_name::name_text;
use std::alloc::Global;

/// How many offers there are, and a line for each; or that no schema says anything of the place.
pub(crate) fn offers_text(alloc: Global, offers: &Offers) -> Result<Vec<u8>, NoMemory>
    ensures { IfOk result (λ text. text.items ≡ offers_text offers.now) }
{
    match offers {
        Offers::Nowhere => Ok(Vec::from_slice(alloc, b"offers: none\n")?),
        Offers::List(offers) => listed(alloc, offers.as_slice()),
    }
}

/// How many offers there are, and a line for each.
fn listed(alloc: Global, offers: &[Offer]) -> Result<Vec<u8>, NoMemory>
    ensures { IfOk result (λ text. text.items ≡ offers_text (offered.List offers.now)) }
{
    let count = offers.len();
    let mut text = format!(in alloc; "offers: {count}\n")?.into_bytes();
    for offer in offers {
        push_line(alloc, &mut text, offer)?;
    }
    Ok(text)
}

/// Adds the line of an offer.
fn push_line(alloc: Global, text: &mut Vec<u8>, offer: &Offer) -> Result<(), NoMemory>
    ensures { OnOk result (text.new.items ≡ text.old.items ++ offer_line offer.now) }
{
    push_offer(alloc, text, offer)?;
    text.push(b'\n')?;
    Ok(())
}

/// Adds an offer.
fn push_offer(alloc: Global, text: &mut Vec<u8>, offer: &Offer) -> Result<(), NoMemory>
    ensures { OnOk result (text.new.items ≡ text.old.items ++ offer_text offer.now) }
{
    match offer {
        Offer::Name(name) => { push_kind(alloc, text, "name ", name_text(alloc, name)?.as_slice()) }
        Offer::AnyIn(ns) => push_kind(alloc, text, "any-in ", ns.as_slice()),
        Offer::AnyElse => push_kind(alloc, text, "any-else", b""),
        Offer::Value(literal) => push_kind(alloc, text, "value ", literal.as_slice()),
        Offer::End(written) => push_kind(alloc, text, "end ", written.as_slice()),
    }
}

/// Adds the word of a kind of offers, and a text behind it as it prints.
fn push_kind(alloc: Global, text: &mut Vec<u8>, kind: &str, told: &[u8]) -> Result<(), NoMemory>
    ensures { OnOk result (text.new.items ≡ text.old.items ++ (kind.now ++ printed_text told.now)) }
{
    text.extend_from_slice(kind.as_bytes())?;
    push_text(alloc, text, told)
}
