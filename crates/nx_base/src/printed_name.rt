//! Names as they print.

ghost use Rattle.std.specs.Prelude.{◌≡◌, ◌++◌, IfOk, OnOk, codes, take};
ghost use Rattle.nx_base.specs.PrintedNames.{braced, name_text};

use crate::memory::NoMemory;
use crate::name::Name;
use crate::sequence::{Bytes, Sequence};
use std::alloc::Global;

// Adds a namespace in braces, where there is one.
fn push_namespace(text: &mut Vec<u8>, ns: &[u8]) -> Result<(), NoMemory>
    ensures { OnOk result (text.new.items ≡ text.old.items ++ braced ns.now) }
{
    if ns.is_empty() {
        return Ok(());
    }
    text.push(b'{')?;
    text.extend_from_slice(ns)?;
    text.push(b'}')?;
    Ok(())
}

/// Adds a name as it prints.
pub fn push_name(text: &mut Vec<u8>, name: &Name) -> Result<(), NoMemory>
    ensures { OnOk result (text.new.items ≡ text.old.items ++ name_text name.now) }
{
    push_namespace(text, name.ns.as_slice())?;
    text.extend_from_slice(name.local.as_slice())?;
    Ok(())
}

/// A name as it prints: its local part, behind its namespace in braces where it has one.
pub fn name_text(alloc: Global, name: &Name) -> Result<Bytes, NoMemory>
    ensures { IfOk result (λ text. text ≡ name_text name.now) }
{
    let mut text = Vec::new(alloc);
    push_name(&mut text, name)?;
    Ok(Sequence::from_vec(text))
}
