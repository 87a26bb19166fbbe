//! Replies written as text.

ghost use Rattle.std.specs.Prelude.{◌≡◌, ◌++◌, IfOk, OnOk, codes, option_map, string_bytes};
ghost use Rattle.nx_host.specs.Out.{WritesInParts, CountsOutFault};
ghost use Rattle.nx_script.specs.OfferLines.{offers_text};
ghost use Rattle.nx_script.specs.Printing.{reply_text, frontier_text, taken_text, refused_text, refusal_text, bad_position_text};
ghost use Rattle.nx_script.specs.Printing.{not_utf8_text, unreadable_text, rules_text, no_view_text};
ghost use Rattle.nx_script.specs.Printing.{located_text, caret_text, position_text};

use crate::cause_name::cause_name;
use crate::fault_line::{write_errors, write_view};
use crate::offer_line::offers_text;
use crate::reply::{Refusal, Reply};
use nx_base::cause::Cause;
use nx_base::locate_fault::LocateFault;
use nx_base::memory::NoMemory;
use nx_base::offer::Offers;
use nx_base::sequence::Bytes;
use nx_host::out::{Out, OutFault};
use std::alloc::{AllocError, Global};

/// Writes what the reply to this line of the script prints. Lines count from 1. Where the output refuses
/// it, a part of the text was written, from its first byte on, or nothing.
pub fn write_reply<O: Out>(
    alloc: Global,
    out: &mut O,
    line: u64,
    reply: &Reply,
) -> Result<(), OutFault>
    ensures written { WritesInParts result (O.told out.old) (reply_text line reply.now) (O.told out.new) }
    ensures faults { CountsOutFault result (O.faults out.old) (O.faults out.new) }
{
    match reply {
        Reply::Silent => Ok(()),
        Reply::Printed(text) => write_text(alloc, out, text.as_slice()),
        Reply::Errors(faults) => write_errors(alloc, out, faults.as_slice()),
        Reply::Frontier { at, len } => write_frontier(alloc, out, *at, *len),
        Reply::Taken(taken) => write_taken(alloc, out, *taken),
        Reply::Located(uri) => write_located(alloc, out, uri),
        Reply::Offered(offers) => write_offers(alloc, out, offers),
        Reply::Caret(at) => write_caret(alloc, out, *at),
        Reply::Stay => out.write(alloc, b"stay\n"),
        Reply::Position { line, column } => write_position(alloc, out, *line, *column),
        Reply::Shown(index, faults) => write_view(alloc, out, *index, faults.as_slice()),
        Reply::Refused(refusal) => write_refusal(alloc, out, line, refusal),
    }
}

/// Writes the text and a line's end, without a copy of the text.
fn write_text<O: Out>(alloc: Global, out: &mut O, text: &[u8]) -> Result<(), OutFault>
    ensures written { WritesInParts result (O.told out.old) (text.now ++ codes "\n") (O.told out.new) }
    ensures faults { CountsOutFault result (O.faults out.old) (O.faults out.new) }
{
    out.write(alloc, text)?;
    out.write(alloc, b"\n")?;
    Ok(())
}

/// Writes the line that tells how far the text is read, all of it at once.
fn write_frontier<O: Out>(alloc: Global, out: &mut O, at: usize, len: usize) -> Result<(), OutFault>
    ensures written { WritesInParts result (O.told out.old) (frontier_text at len) (O.told out.new) }
    ensures faults { CountsOutFault result (O.faults out.old) (O.faults out.new) }
{
    let line = frontier_line(alloc, at, len).map_err(|_| OutFault::NoMemory)?;
    out.write(alloc, line.as_bytes())?;
    Ok(())
}

/// Writes the line that tells how many tokens were taken, all of it at once.
fn write_taken<O: Out>(alloc: Global, out: &mut O, taken: u64) -> Result<(), OutFault>
    ensures written { WritesInParts result (O.told out.old) (taken_text taken) (O.told out.new) }
    ensures faults { CountsOutFault result (O.faults out.old) (O.faults out.new) }
{
    let line = taken_line(alloc, taken).map_err(|_| OutFault::NoMemory)?;
    out.write(alloc, line.as_bytes())?;
    Ok(())
}

/// Writes the lines that tell what may stand at a place, all of them at once.
fn write_offers<O: Out>(alloc: Global, out: &mut O, offers: &Offers) -> Result<(), OutFault>
    ensures written { WritesInParts result (O.told out.old) (offers_text offers.now) (O.told out.new) }
    ensures faults { CountsOutFault result (O.faults out.old) (O.faults out.new) }
{
    let text = offers_text(alloc, offers).map_err(|_| OutFault::NoMemory)?;
    out.write(alloc, text.as_slice())?;
    Ok(())
}

/// Writes the line that tells which schema was located, all of it at once.
fn write_located<O: Out>(alloc: Global, out: &mut O, uri: &Option<Bytes>) -> Result<(), OutFault>
    ensures written { WritesInParts result (O.told out.old) (located_text uri.now) (O.told out.new) }
    ensures faults { CountsOutFault result (O.faults out.old) (O.faults out.new) }
{
    let line = located_line(alloc, uri).map_err(|_| OutFault::NoMemory)?;
    out.write(alloc, line.as_slice())?;
    Ok(())
}

/// Writes the line that tells where the caret is, all of it at once.
fn write_caret<O: Out>(alloc: Global, out: &mut O, at: usize) -> Result<(), OutFault>
    ensures written { WritesInParts result (O.told out.old) (caret_text at) (O.told out.new) }
    ensures faults { CountsOutFault result (O.faults out.old) (O.faults out.new) }
{
    let line = caret_line(alloc, at).map_err(|_| OutFault::NoMemory)?;
    out.write(alloc, line.as_bytes())?;
    Ok(())
}

/// Writes the line that tells the caret's line and column, all of it at once.
fn write_position<O: Out>(
    alloc: Global,
    out: &mut O,
    line: usize,
    column: usize,
) -> Result<(), OutFault>
    ensures written { WritesInParts result (O.told out.old) (position_text line column) (O.told out.new) }
    ensures faults { CountsOutFault result (O.faults out.old) (O.faults out.new) }
{
    let text = position_line(alloc, line, column).map_err(|_| OutFault::NoMemory)?;
    out.write(alloc, text.as_bytes())?;
    Ok(())
}

/// The line that tells which schema was located.
fn located_line(alloc: Global, uri: &Option<Bytes>) -> Result<Vec<u8>, NoMemory>
    ensures { IfOk result (λ line. line.items ≡ located_text uri.now) }
{
    let mut line = Vec::from_slice(alloc, b"schema ")?;
    match uri {
        Some(uri) => line.extend_from_slice(uri.as_slice())?,
        None => line.extend_from_slice(b"none")?,
    }
    line.push(b'\n')?;
    Ok(line)
}

/// The line that tells where the caret is.
fn caret_line(alloc: Global, at: usize) -> Result<String, AllocError>
    ensures { IfOk result (λ line. string_bytes line ≡ caret_text at) }
{
    format!(in alloc; "caret {at}\n")
}

/// The line that tells the caret's line and column.
fn position_line(alloc: Global, line: usize, column: usize) -> Result<String, AllocError>
    ensures { IfOk result (λ text. string_bytes text ≡ position_text line column) }
{
    format!(in alloc; "line {line} column {column}\n")
}

/// The line that tells how far the text is read.
fn frontier_line(alloc: Global, at: usize, len: usize) -> Result<String, AllocError>
    ensures { IfOk result (λ line. string_bytes line ≡ frontier_text at len) }
{
    format!(in alloc; "frontier {at} of {len}\n")
}

/// The line that tells how many tokens were taken.
fn taken_line(alloc: Global, taken: u64) -> Result<String, AllocError>
    ensures { IfOk result (λ line. string_bytes line ≡ taken_text taken) }
{
    format!(in alloc; "taken {taken}\n")
}

/// Writes the line that tells of a refused command, all of it at once.
fn write_refusal<O: Out>(
    alloc: Global,
    out: &mut O,
    line: u64,
    refusal: &Refusal,
) -> Result<(), OutFault>
    ensures written { WritesInParts result (O.told out.old) (refused_text line refusal.now) (O.told out.new) }
    ensures faults { CountsOutFault result (O.faults out.old) (O.faults out.new) }
{
    let text = refused_line(alloc, line, refusal).map_err(|_| OutFault::NoMemory)?;
    out.write(alloc, text.as_slice())?;
    Ok(())
}

/// The line that tells of a refused command.
fn refused_line(alloc: Global, line: u64, refusal: &Refusal) -> Result<Vec<u8>, NoMemory>
    ensures { IfOk result (λ text. text.items ≡ refused_text line refusal.now) }
{
    let mut text = format!(in alloc; "line {line} refused: ")?.into_bytes();
    push_refusal(alloc, &mut text, refusal)?;
    text.push(b'\n')?;
    Ok(text)
}

/// Adds why a command was refused.
fn push_refusal(alloc: Global, text: &mut Vec<u8>, refusal: &Refusal) -> Result<(), NoMemory>
    ensures { OnOk result (text.new.items ≡ text.old.items ++ refusal_text refusal.now) }
{
    match refusal {
        Refusal::BadCommand => text.extend_from_slice(b"BadCommand")?,
        Refusal::BadPosition { at, len } => {
            text.extend_from_slice(bad_position(alloc, *at, *len)?.as_bytes())?
        }
        Refusal::BadUri => text.extend_from_slice(b"BadUri")?,
        Refusal::Absent(uri) => {
            text.extend_from_slice(b"Absent ")?;
            text.extend_from_slice(uri.as_slice())?
        }
        Refusal::NotUtf8(uri, at) => push_not_utf8(alloc, text, uri.as_slice(), *at)?,
        Refusal::Unreadable(why) => push_unreadable(text, *why)?,
        Refusal::BadRules(why) => push_rules_fault(text, why)?,
        Refusal::NoView(index) => text.extend_from_slice(no_view(alloc, *index)?.as_bytes())?,
        Refusal::Failed => text.extend_from_slice(b"Failed")?,
        Refusal::NoMemory => text.extend_from_slice(b"NoMemory")?,
    }
    Ok(())
}

/// Adds the URI of a file that is no text, and where it stops being one.
fn push_not_utf8(alloc: Global, text: &mut Vec<u8>, uri: &[u8], at: usize) -> Result<(), NoMemory>
    ensures { OnOk result (text.new.items ≡ text.old.items ++ not_utf8_text uri.now at) }
{
    text.extend_from_slice(b"NotUtf8 ")?;
    text.extend_from_slice(uri)?;
    text.extend_from_slice(format!(in alloc; " {at}")?.as_bytes())?;
    Ok(())
}

/// Adds why a schema can't be used.
fn push_unreadable(text: &mut Vec<u8>, why: Cause) -> Result<(), NoMemory>
    ensures { OnOk result (text.new.items ≡ text.old.items ++ unreadable_text why) }
{
    text.extend_from_slice(b"Unreadable ")?;
    text.extend_from_slice(cause_name(why).as_bytes())?;
    Ok(())
}

/// Adds what is wrong with a rules file.
fn push_rules_fault(text: &mut Vec<u8>, why: &LocateFault) -> Result<(), NoMemory>
    ensures { OnOk result (text.new.items ≡ text.old.items ++ rules_text why.now) }
{
    match why {
        LocateFault::RulesAbsent(uri) => push_about(text, "BadRules Absent ", uri.as_slice()),
        LocateFault::RulesNotUtf8(uri, _) => push_about(text, "BadRules NotUtf8 ", uri.as_slice()),
        LocateFault::BadRules(uri) => push_about(text, "BadRules Malformed ", uri.as_slice()),
        LocateFault::RulesLoop(uri) => push_about(text, "BadRules Loop ", uri.as_slice()),
        LocateFault::BadUri(_) => push_about(text, "BadUri", b""),
        LocateFault::Failed => push_about(text, "Failed", b""),
        LocateFault::NoMemory => push_about(text, "NoMemory", b""),
    }
}

/// Adds words, and what they are about.
fn push_about(text: &mut Vec<u8>, words: &str, about: &[u8]) -> Result<(), NoMemory>
    ensures { OnOk result (text.new.items ≡ text.old.items ++ (words.now ++ about.now)) }
{
    text.extend_from_slice(words.as_bytes())?;
    text.extend_from_slice(about)?;
    Ok(())
}

/// The number of no view.
fn no_view(alloc: Global, index: u64) -> Result<String, AllocError>
    ensures { IfOk result (λ text. string_bytes text ≡ no_view_text index) }
{
    format!(in alloc; "NoView {index}")
}

/// The number that is no place, and the text's length.
fn bad_position(alloc: Global, at: u64, len: usize) -> Result<String, AllocError>
    ensures { IfOk result (λ text. string_bytes text ≡ bad_position_text at len) }
{
    format!(in alloc; "BadPosition {at} {len}")
}
