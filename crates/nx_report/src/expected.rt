//! What is expected at a place.

ghost use Rattle.std.specs.Prelude.{◌≡◌, ◌++◌, [], OnOk, cond, nat_lt, map, codes};
ghost use Rattle.nx_report.specs.Printed.{printed_text};
ghost use Rattle.nx_report.specs.Expected.{of_namespace, offer_text, expected_text};

use crate::list::{OTHERS_TOLD, push_more};
use crate::name::push_quoted_name;
use crate::printed::{push_printed, push_quoted, push_words};
use nx_base::memory::NoMemory;
use nx_base::offer::Offer;
use nx_base::printed_name::name_text;
use std::alloc::Global;

/// Adds of which namespace something is.
fn push_of_namespace(alloc: Global, out: &mut Vec<u8>, ns: &[u8]) -> Result<(), NoMemory>
    ensures { OnOk result (out.new.items ≡ out.old.items ++ of_namespace ns.now) }
{
    if ns.is_empty() {
        return push_words(out, " of no namespace");
    }
    push_words(out, " of namespace ")?;
    push_quoted(alloc, out, ns)
}

/// Adds that any thing of a namespace may stand there.
fn push_any_in(alloc: Global, out: &mut Vec<u8>, thing: &str, ns: &[u8]) -> Result<(), NoMemory>
    ensures { OnOk result (out.new.items ≡ out.old.items ++ (codes "any " ++ thing.now ++ of_namespace ns.now)) }
{
    push_words(out, "any ")?;
    push_words(out, thing)?;
    push_of_namespace(alloc, out, ns)
}

/// Adds that any other thing may stand there.
fn push_any_other(out: &mut Vec<u8>, thing: &str) -> Result<(), NoMemory>
    ensures { OnOk result (out.new.items ≡ out.old.items ++ (codes "any other " ++ thing.now)) }
{
    push_words(out, "any other ")?;
    push_words(out, thing)
}

/// Adds an end tag, by its written name.
fn push_end(alloc: Global, out: &mut Vec<u8>, written: &[u8]) -> Result<(), NoMemory>
    ensures { OnOk result (out.new.items ≡ out.old.items ++ (codes "\"</" ++ printed_text written.now ++ codes ">\"")) }
{
    push_words(out, "\"</")?;
    push_printed(alloc, out, written)?;
    push_words(out, ">\"")
}

/// Adds an offer.
fn push_offer(
    alloc: Global,
    out: &mut Vec<u8>,
    own: &[u8],
    thing: &str,
    offer: &Offer,
) -> Result<(), NoMemory>
    ensures { OnOk result (out.new.items ≡ out.old.items ++ offer_text own.now thing.now offer.now) }
{
    match offer {
        Offer::Name(name) => push_quoted_name(alloc, out, own, name_text(alloc, name)?.as_slice()),
        Offer::AnyIn(ns) => push_any_in(alloc, out, thing, ns.as_slice()),
        Offer::AnyElse => push_any_other(out, thing),
        Offer::Value(literal) => push_quoted(alloc, out, literal.as_slice()),
        Offer::End(written) => push_end(alloc, out, written.as_slice()),
    }
}

/// Adds an offer behind the first of a list, where so many others stand between, if it is still told.
fn push_other_offer(
    alloc: Global,
    out: &mut Vec<u8>,
    own: &[u8],
    thing: &str,
    between: usize,
    offer: &Offer,
) -> Result<(), NoMemory>
    ensures { OnOk result (out.new.items ≡ out.old.items ++ cond (nat_lt between 7) (codes ", " ++ offer_text own.now thing.now offer.now) []) }
{
    if between >= OTHERS_TOLD {
        return Ok(());
    }
    push_words(out, ", ")?;
    push_offer(alloc, out, own, thing, offer)
}

/// Adds what is expected, behind words that introduce it, if anything is. A namespace goes without saying.
#[tactic(auto, using(crate::proofs::Listing::begun))]
pub(crate) fn push_expected(
    alloc: Global,
    out: &mut Vec<u8>,
    introduction: &str,
    own: &[u8],
    thing: &str,
    offers: &[Offer],
) -> Result<(), NoMemory>
    ensures { OnOk result (out.new.items ≡ out.old.items ++ expected_text introduction.now own.now thing.now offers.now) }
{
    let Some((first, others)) = offers.split_first() else {
        return Ok(());
    };
    push_words(out, introduction)?;
    push_offer(alloc, out, own, thing, first)?;
    for (i, offer) in others.iter().enumerate() {
        push_other_offer(alloc, out, own, thing, i, offer)?;
    }
    push_more(alloc, out, others.len().saturating_sub(OTHERS_TOLD))?;
    Ok(())
}
