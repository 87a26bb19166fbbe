//! Texts as they print: some characters as escapes.

ghost use Rattle.std.specs.Prelude.{◌≡◌, ◌≤◌, ◌++◌, length, IfOk, OnOk, string_bytes};
ghost use Rattle.std.specs.List.{position_or_len};
ghost use Rattle.nx_script.specs.Escapes.{is_escaped, escape, printed, printed_text};

use nx_base::memory::NoMemory;
use std::alloc::{AllocError, Global};

/// How many bytes at the front print as they are.
fn plain_len(text: &[u8]) -> usize
    ensures value { result ≡ position_or_len is_escaped text.now }
    ensures bound { result ≤ length text.now }
{
    text.iter().take_while(|byte| !is_escaped(**byte)).count()
}

/// Adds what prints as it is, at the front of a text, and gives what is left of it.
#[tactic(auto, using(crate::proofs::Plain::pushed_plain))]
fn push_plain<'a>(out: &mut Vec<u8>, text: &'a [u8]) -> Result<&'a [u8], NoMemory>
    ensures same { IfOk result (λ left. out.new.items ++ printed_text left.now ≡ out.old.items ++ printed_text text.now) }
    ensures fewer { IfOk result (λ left. length left.now ≤ length text.now) }
{
    let (plain, left) = text.split_at(plain_len(text));
    out.extend_from_slice(plain)?;
    Ok(left)
}

/// Adds a text as it prints. What prints as it is, as most of a text does, is copied at once.
#[tactic(auto, using(crate::proofs::Plain::pushed_byte))]
pub(crate) fn push_text(alloc: Global, out: &mut Vec<u8>, text: &[u8]) -> Result<(), NoMemory>
    ensures { OnOk result (out.new.items ≡ out.old.items ++ printed_text text.now) }
{
    let mut left = push_plain(out, text)?;
    while let Some((byte, rest)) = left.split_first() {
        push_byte(alloc, out, *byte)?;
        left = push_plain(out, rest)?;
    }
    Ok(())
}

/// Adds a byte of a text as it prints.
fn push_byte(alloc: Global, out: &mut Vec<u8>, byte: u8) -> Result<(), NoMemory>
    ensures { OnOk result (out.new.items ≡ out.old.items ++ printed byte) }
{
    if is_escaped(byte) {
        out.extend_from_slice(escape(alloc, byte)?.as_bytes())?;
    } else {
        out.push(byte)?;
    }
    Ok(())
}

/// Whether the byte is a character that prints as an escape.
fn is_escaped(byte: u8) -> bool
    ensures { result ≡ is_escaped byte }
{
    byte < 0x20 || byte == 0x7F || byte == b'\\'
}

/// The escape of a character that is one byte.
fn escape(alloc: Global, byte: u8) -> Result<String, AllocError>
    ensures { IfOk result (λ text. string_bytes text ≡ escape byte) }
{
    format!(in alloc; "\\u{{{byte:x}}}")
}
