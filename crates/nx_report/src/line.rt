//! Lines about files.

ghost use Rattle.std.specs.Prelude.{◌≡◌, ◌+◌, ◌++◌, IfOk, OnOk, Some, codes, string_bytes};
ghost use Rattle.std.specs.Fmt.{decimal};
ghost use Rattle.nx_report.specs.Kinds.{kind_name};
ghost use Rattle.nx_report.specs.Lines.{place_text, head, fault_line, errors_word, summary_line, trouble_line, message_line};

use crate::kind::kind_name;
use crate::printed::{push_printed, push_words};
use crate::sentence::push_sentence;
use crate::severity::Severity;
use crate::trouble::{Trouble, push_about, push_trouble};
use nx_base::fault::{Fault, Kind};
use nx_base::memory::NoMemory;
use nx_base::offer::Offer;
use nx_position::position::Position;
use std::alloc::{AllocError, Global};

/// A line and a column, counted from 1.
fn position_text(alloc: Global, place: Position) -> Result<String, AllocError>
    ensures { IfOk result (λ text. string_bytes text ≡ place_text (Some place)) }
{
    let line = place.line as u128 + 1;
    let column = place.column as u128 + 1;
    format!(in alloc; ":{line}:{column}")
}

/// Adds a place, where it is known.
fn push_place(alloc: Global, out: &mut Vec<u8>, place: Option<Position>) -> Result<(), NoMemory>
    ensures { OnOk result (out.new.items ≡ out.old.items ++ place_text place) }
{
    match place {
        None => Ok(()),
        Some(place) => {
            out.extend_from_slice(position_text(alloc, place)?.as_bytes())?;
            Ok(())
        }
    }
}

/// Adds what a line begins with.
fn push_head(
    alloc: Global,
    out: &mut Vec<u8>,
    name: &[u8],
    place: Option<Position>,
    severity: Severity,
) -> Result<(), NoMemory>
    ensures { OnOk result (out.new.items ≡ out.old.items ++ head name.now place severity) }
{
    push_printed(alloc, out, name)?;
    push_place(alloc, out, place)?;
    push_words(out, ": ")?;
    push_words(out, severity.word())?;
    push_words(out, ": ")
}

/// Adds the name of a kind in brackets, and the line's end.
fn push_kind(out: &mut Vec<u8>, kind: Kind) -> Result<(), NoMemory>
    ensures { OnOk result (out.new.items ≡ out.old.items ++ (codes " [" ++ kind_name kind ++ codes "]\n")) }
{
    push_words(out, " [")?;
    push_words(out, kind_name(kind))?;
    push_words(out, "]\n")
}

/// Adds the line of a fault of a document, or, where there is no memory, perhaps a part of it: the file as it was named, the place at which the fault begins, a sentence, and the kind. What
/// is expected in its place are the offers of completion there; `NotAllowed`, `UnknownAttribute` and `BadValue` tell them.
pub fn push_fault_line(
    alloc: Global,
    out: &mut Vec<u8>,
    name: &[u8],
    place: Position,
    fault: &Fault,
    expected: &[Offer],
) -> Result<(), NoMemory>
    ensures { OnOk result (out.new.items ≡ out.old.items ++ fault_line name.now place fault.now expected.now) }
{
    push_head(alloc, out, name, Some(place), Severity::Error)?;
    push_sentence(alloc, out, fault, expected)?;
    push_kind(out, fault.kind)
}

/// How many errors there are.
fn errors_text(alloc: Global, count: usize) -> Result<String, AllocError>
    ensures { IfOk result (λ text. string_bytes text ≡ decimal count ++ errors_word count) }
{
    if count == 1 {
        format!(in alloc; "{count} error")
    } else {
        format!(in alloc; "{count} errors")
    }
}

/// Adds the line behind the faults of a document: how many there are. Without memory a part of it may have been added.
pub fn push_summary(
    alloc: Global,
    out: &mut Vec<u8>,
    name: &[u8],
    count: usize,
) -> Result<(), NoMemory>
    ensures { OnOk result (out.new.items ≡ out.old.items ++ summary_line name.now count) }
{
    push_printed(alloc, out, name)?;
    push_words(out, ": ")?;
    out.extend_from_slice(errors_text(alloc, count)?.as_bytes())?;
    push_words(out, "\n")
}

/// Adds why a file can't be used, or, where there is no memory, perhaps a part of that line: a document, a schema or rules. What that is about is the name of a definition, an element or a file, or
/// nothing.
pub fn push_trouble_line(
    alloc: Global,
    out: &mut Vec<u8>,
    name: &[u8],
    place: Option<Position>,
    trouble: Trouble,
    about: &[u8],
) -> Result<(), NoMemory>
    ensures { OnOk result (out.new.items ≡ out.old.items ++ trouble_line name.now place trouble about.now) }
{
    push_head(alloc, out, name, place, Severity::Error)?;
    push_trouble(alloc, out, trouble)?;
    push_about(alloc, out, about)?;
    push_words(out, "\n")
}

/// Adds words about a file. Without memory a part of them may have been added.
pub fn push_message_line(
    alloc: Global,
    out: &mut Vec<u8>,
    name: &[u8],
    place: Option<Position>,
    severity: Severity,
    words: &[u8],
) -> Result<(), NoMemory>
    ensures { OnOk result (out.new.items ≡ out.old.items ++ message_line name.now place severity words.now) }
{
    push_head(alloc, out, name, place, severity)?;
    push_printed(alloc, out, words)?;
    push_words(out, "\n")
}
