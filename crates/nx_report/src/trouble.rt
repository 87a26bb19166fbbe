//! What is wrong with a file.

ghost use Rattle.std.specs.Prelude.{◌≡◌, ◌++◌, IfOk, OnOk, string_bytes};
ghost use Rattle.nx_report.specs.Causes.{trouble_text, about_text};
ghost use Rattle.nx_report.specs.declared.trouble.Trouble.TheVariants as troubles;

use crate::cause::cause_text;
use crate::printed::{push_quoted, push_words};
use nx_base::cause::Cause;
use nx_base::memory::NoMemory;
use std::alloc::{AllocError, Global};

/// Why a file can't be used: a document, a schema, or a file of rules.
#[derive(Clone, Copy, Debug, PartialEq, Eq)]
pub enum Trouble {
    /// There is none under its name.
    Absent,
    /// It is no text from this byte offset on.
    NotUtf8(usize),
    /// It names another by a text that is no URI.
    BadUri,
    /// The system could not read it.
    Failed,
    /// There was no memory for it.
    NoMemory,
    /// It is no file of rules for locating schemas.
    BadRules,
    /// It is a file of rules that includes itself.
    RulesLoop,
    /// No schema was located for it.
    NoSchema,
    /// It makes no schema, alone or with those to which it refers.
    Schema(Cause),
}

/// That a file is no text from an offset on.
fn not_utf8(alloc: Global, at: usize) -> Result<String, AllocError>
    ensures { IfOk result (λ text. string_bytes text ≡ trouble_text (troubles.NotUtf8 at)) }
{
    format!(in alloc; "this isn't UTF-8 from byte {at} on")
}

/// Adds what is wrong with a file.
pub(crate) fn push_trouble(
    alloc: Global,
    out: &mut Vec<u8>,
    trouble: Trouble,
) -> Result<(), NoMemory>
    ensures { OnOk result (out.new.items ≡ out.old.items ++ trouble_text trouble) }
{
    match trouble {
        Trouble::Absent => push_words(out, "there is no such file"),
        Trouble::NotUtf8(at) => {
            out.extend_from_slice(not_utf8(alloc, at)?.as_bytes())?;
            Ok(())
        }
        Trouble::BadUri => push_words(out, "this refers to a file by a text that is no URI"),
        Trouble::Failed => push_words(out, "this file can't be read"),
        Trouble::NoMemory => push_words(out, "there is no memory for this"),
        Trouble::BadRules => push_words(out, "this isn't a file of rules that locate schemas"),
        Trouble::RulesLoop => {
            push_words(
                out,
                "this file of rules includes itself, perhaps through others",
            )
        }
        Trouble::NoSchema => push_words(out, "no schema is found for this document"),
        Trouble::Schema(cause) => push_words(out, cause_text(cause)),
    }
}

/// Adds what that is about, where it is known.
pub(crate) fn push_about(alloc: Global, out: &mut Vec<u8>, about: &[u8]) -> Result<(), NoMemory>
    ensures { OnOk result (out.new.items ≡ out.old.items ++ about_text about.now) }
{
    if about.is_empty() {
        return Ok(());
    }
    push_words(out, ": ")?;
    push_quoted(alloc, out, about)
}
