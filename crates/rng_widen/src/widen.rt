//! The text of a schema file that is handed on.

ghost use Rattle.std.specs.Prelude.{◌≡◌, ◌<◌, IfOk};
ghost use Rattle.rnc_lex.specs.Tokens.{Lexes};
ghost use Rattle.rng_widen.specs.Handed.{wants_memory, in_compact, in_markup, in_text, text_widenings, widenings, handed};
ghost use Rattle.rngx_read.specs.Files.{is_markup};

use crate::compact::widenings_of;
use crate::cutting::{all_tokens, as_text};
use crate::encoding::declared;
use crate::markup::widenings_in;
use crate::put::put_all;
use crate::widening::Widening;
use nx_base::memory::NoMemory;
use nx_base::sequence::Bytes;
use nx_base::steps::Steps;
use nx_scan::border::tokens_join;
use nx_text::text::Text;
use rnc_lex::fault::LexFault;
use rnc_lex::lex::tokens;
use rngx_read::read::is_markup;
use std::alloc::Global;
use std::marker::Brand;
use std::str;
use std::sync::ledger::{Blank, Ledger};

/// Whether the fault is want of memory.
fn wants_memory(fault: LexFault) -> bool
    ensures { result ≡ wants_memory fault }
{
    matches!(fault, LexFault::NoMemory)
}

/// Nothing is put to something wider in a text that isn't tokens.
fn nothing(alloc: Global, text: &str, fault: LexFault) -> Result<Vec<Widening>, NoMemory>
    ensures { Lexes text.now (Err fault) → IfOk result (λ all. all.items ≡ in_compact text.now) }
{
    let _len = text.len();
    if wants_memory(fault) {
        return Err(NoMemory);
    }
    let none = Vec::new(alloc);
    Ok(none)
}

/// What is put to something wider in a text in the compact syntax.
fn in_compact(alloc: Global, text: &str) -> Result<Vec<Widening>, NoMemory>
    ensures { IfOk result (λ all. all.items ≡ in_compact text.now) }
{
    match tokens(alloc, text) {
        Ok(tokens) => widenings_of(alloc, text.len(), tokens.as_slice()),
        Err(fault) => nothing(alloc, text, fault),
    }
}

/// What is put to something wider in a text in the XML syntax. The count of its tokens is for proofs alone.
fn in_cut<L: Ledger>(alloc: Global, text: &Text, blank: Blank) -> Result<Vec<Widening>, NoMemory>
    requires name { blank.name ≡ L.name }
    requires parts { blank.parts ≡ L.parts }
    requires some { 0 < L.parts }
    ensures { IfOk result (λ all. all.items ≡ in_markup text.now) }
{
    tokens_join();
    let mut steps = Steps::<L>::new(blank);
    let len = text.len();
    let tokens = all_tokens(alloc, text, &mut steps)?;
    let found = widenings_in(alloc, tokens.as_slice(), len)?;
    Ok(found)
}

/// The same, of bytes that are a text.
fn in_markup(alloc: Global, text: &Text) -> Result<Vec<Widening>, NoMemory>
    ensures { IfOk result (λ all. all.items ≡ in_markup text.now) }
{
    Ok(in_cut::<Brand>(alloc, text, Blank::new(1))?)
}

/// What is put to something wider in a text.
fn in_text(alloc: Global, text: &str) -> Result<Vec<Widening>, NoMemory>
    ensures { IfOk result (λ all. all.items ≡ in_text (is_markup text.now) text.now) }
{
    if is_markup(text) {
        Ok(in_markup(alloc, &as_text(alloc, text)?)?)
    } else {
        Ok(in_compact(alloc, text)?)
    }
}

/// What is put to something wider in bytes, if they are a text.
fn text_widenings(alloc: Global, bytes: &[u8]) -> Result<Vec<Widening>, NoMemory>
    ensures { IfOk result (λ all. all.items ≡ text_widenings bytes.now) }
{
    match str::from_utf8(bytes) {
        Ok(text) => in_text(alloc, text),
        Err(_) => Ok(Vec::new(alloc)),
    }
}

/// What is put to something wider in the bytes of a schema file, in order: the encoding that its declaration names, and then what there is
/// in the text with that put to UTF-8.
#[tactic(auto, unfolding(crate::specs::Handed::widenings))]
pub fn widenings(alloc: Global, bytes: &[u8]) -> Result<Vec<Widening>, NoMemory>
    ensures { IfOk result (λ all. all.items ≡ widenings bytes.now) }
{
    let mut all = declared(alloc, bytes)?;
    let readable = put_all(alloc, bytes, all.as_slice())?;
    let mut others = text_widenings(alloc, readable.as_slice())?;
    all.append(&mut others)?;
    Ok(all)
}

/// What is handed on in place of these bytes of a schema file.
#[tactic(auto, unfolding(crate::specs::Handed::handed))]
pub fn handed(alloc: Global, bytes: &[u8]) -> Result<Bytes, NoMemory>
    ensures { IfOk result (λ whole. whole ≡ handed bytes.now) }
{
    let widenings = widenings(alloc, bytes)?;
    Ok(put_all(alloc, bytes, widenings.as_slice())?)
}
