//! The texts that letters spell.

ghost use Rattle.std.specs.Prelude.{◌≡◌, ◌∷◌, ◌++◌, OnOk, IfOk};
ghost use Rattle.std.specs.String.{string_bytes};
ghost use Rattle.rnc_lex.specs.Tokens.{utf8};

use crate::letter::Letter;
use nx_base::memory::NoMemory;
use nx_base::sequence::Bytes;
use std::alloc::Global;

/// Adds the letters at the end of a text.
fn append(text: &mut String, letters: &[Letter]) -> Result<(), NoMemory>
    ensures { OnOk result (string_bytes text.new ≡ string_bytes text.old ++ utf8 letters.now) }
{
    for letter in letters {
        text.push(letter.character)?;
    }
    Ok(())
}

/// The text of a letter and those behind it.
pub(crate) fn text_of(alloc: Global, first: Letter, more: &[Letter]) -> Result<String, NoMemory>
    ensures { IfOk result (λ text. string_bytes text ≡ utf8 (first ∷ more.now)) }
{
    let mut text = String::with_capacity(alloc, more.len() + 1)?;
    text.push(first.character)?;
    append(&mut text, more)?;
    Ok(text)
}

/// The same as bytes.
pub(crate) fn bytes_of(alloc: Global, first: Letter, more: &[Letter]) -> Result<Bytes, NoMemory>
    ensures { IfOk result (λ text. text ≡ utf8 (first ∷ more.now)) }
{
    Ok(Bytes::from_vec(text_of(alloc, first, more)?.into_bytes()))
}

/// The text of letters, or of none.
pub(crate) fn bytes_of_all(alloc: Global, letters: &[Letter]) -> Result<Bytes, NoMemory>
    ensures { IfOk result (λ text. text ≡ utf8 letters.now) }
{
    let mut text = String::with_capacity(alloc, letters.len())?;
    append(&mut text, letters)?;
    Ok(Bytes::from_vec(text.into_bytes()))
}
