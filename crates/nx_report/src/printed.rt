//! Texts of documents as a terminal is shown them.

ghost use Rattle.std.specs.Prelude.{◌≡◌, ◌≤◌, ◌++◌, length, IfOk, OnOk, string_bytes};
ghost use Rattle.std.specs.List.{position_or_len};
ghost use Rattle.nx_report.specs.Printed.{is_control, escape, printed, printed_text, quoted};

use nx_base::memory::NoMemory;
use std::alloc::{AllocError, Global};

/// Whether a byte is a control character.
fn is_control(byte: u8) -> bool
    ensures { result ≡ is_control byte }
{
    byte < 0x20 || byte == 0x7F
}

/// How many bytes at the front print as they are.
fn plain_len(text: &[u8]) -> usize
    ensures value { result ≡ position_or_len is_control text.now }
    ensures bound { result ≤ length text.now }
{
    text.iter().take_while(|byte| !is_control(**byte)).count()
}

/// The escape of a control character.
fn escape(alloc: Global, byte: u8) -> Result<String, AllocError>
    ensures { IfOk result (λ text. string_bytes text ≡ escape byte) }
{
    format!(in alloc; "\\u{{{byte:x}}}")
}

/// Adds a byte of a text as it prints.
fn push_byte(alloc: Global, out: &mut Vec<u8>, byte: u8) -> Result<(), NoMemory>
    ensures { OnOk result (out.new.items ≡ out.old.items ++ printed byte) }
{
    if is_control(byte) {
        out.extend_from_slice(escape(alloc, byte)?.as_bytes())?;
    } else {
        out.push(byte)?;
    }
    Ok(())
}

/// Adds what prints as it is, at the front of a text, and gives what is left of it.
#[tactic(auto, using(crate::proofs::Plain::pushed_plain))]
fn push_plain<'a>(out: &mut Vec<u8>, text: &'a [u8]) -> Result<&'a [u8], NoMemory>
    ensures same { IfOk result (λ left. out.new.items ++ printed_text left.now ≡ out.old.items ++ printed_text text.now) }
    ensures fewer { IfOk result (λ left. length left.now ≤ length text.now) }
{
    let (plain, left) = text.split_at(plain_len(text));
    out.extend_from_slice(plain)?;
    Ok(left)
}

/// Adds a text as it prints. What prints as it is, as most of a text does, is copied at once.
#[tactic(auto, using(crate::proofs::Plain::pushed_byte))]
pub(crate) fn push_printed(alloc: Global, out: &mut Vec<u8>, text: &[u8]) -> Result<(), NoMemory>
    ensures { OnOk result (out.new.items ≡ out.old.items ++ printed_text text.now) }
{
    let mut left = push_plain(out, text)?;
    while let Some((byte, rest)) = left.split_first() {
        push_byte(alloc, out, *byte)?;
        left = push_plain(out, rest)?;
    }
    Ok(())
}

/// Adds a text as it prints, in quotes.
pub(crate) fn push_quoted(alloc: Global, out: &mut Vec<u8>, text: &[u8]) -> Result<(), NoMemory>
    ensures { OnOk result (out.new.items ≡ out.old.items ++ quoted text.now) }
{
    out.push(b'"')?;
    push_printed(alloc, out, text)?;
    out.push(b'"')?;
    Ok(())
}

/// Adds words of our own.
pub(crate) fn push_words(out: &mut Vec<u8>, words: &str) -> Result<(), NoMemory>
    ensures { OnOk result (out.new.items ≡ out.old.items ++ words.now) }
{
    out.extend_from_slice(words.as_bytes())?;
    Ok(())
}
