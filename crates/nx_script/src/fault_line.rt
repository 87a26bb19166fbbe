//! Faults as lines.

ghost use Rattle.std.specs.Prelude.{◌≡◌, ◌++◌, [], IfOk, OnOk, string_bytes};
ghost use Rattle.nx_host.specs.Out.{WritesInParts, CountsOutFault};
ghost use Rattle.nx_script.specs.FaultLines.{place_text, detail_text, fault_line, fault_lines, errors_text, view_text};

use crate::escape::push_text;
use crate::kind_name::kind_name;
use nx_base::detail::Detail;
use nx_base::fault::{Fault, Span};
use nx_base::memory::NoMemory;
use nx_host::out::{Out, OutFault};
use std::alloc::{AllocError, Global};

/// How many lines are put together before they are written, so that a list of faults isn't printed in memory as a whole.
const MOST_LINES: usize = 64;

/// Writes how many faults there are, and a line for each.
pub(crate) fn write_errors<O: Out>(
    alloc: Global,
    out: &mut O,
    faults: &[Fault],
) -> Result<(), OutFault>
    ensures written { WritesInParts result (O.told out.old) (errors_text faults.now) (O.told out.new) }
    ensures faults { CountsOutFault result (O.faults out.old) (O.faults out.new) }
{
    let count = faults.len();
    let mut text = format!(in alloc; "errors: {count}\n")?.into_bytes();
    write_lines(alloc, out, &mut text, faults)
}

/// Writes the number of a view, how many faults it shows, and a line for each.
pub(crate) fn write_view<O: Out>(
    alloc: Global,
    out: &mut O,
    index: u64,
    faults: &[Fault],
) -> Result<(), OutFault>
    ensures written { WritesInParts result (O.told out.old) (view_text index faults.now) (O.told out.new) }
    ensures faults { CountsOutFault result (O.faults out.old) (O.faults out.new) }
{
    let count = faults.len();
    let mut text = format!(in alloc; "view {index}: {count}\n")?.into_bytes();
    write_lines(alloc, out, &mut text, faults)
}

/// Writes a text, and a line for each fault behind it. What the text is then, is of no use.
fn write_lines<O: Out>(
    alloc: Global,
    out: &mut O,
    text: &mut Vec<u8>,
    faults: &[Fault],
) -> Result<(), OutFault>
    ensures written { WritesInParts result (O.told out.old) (text.old.items ++ fault_lines faults.now) (O.told out.new) }
    ensures faults { CountsOutFault result (O.faults out.old) (O.faults out.new) }
{
    let mut left = faults;
    while left.len() > MOST_LINES {
        let (part, rest) = left.split_at(MOST_LINES);
        write_part(alloc, out, text, part)?;
        left = rest;
    }
    write_part(alloc, out, text, left)
}

/// Writes a text, and a line for each fault behind it, all of it at once; the text is empty then.
fn write_part<O: Out>(
    alloc: Global,
    out: &mut O,
    text: &mut Vec<u8>,
    faults: &[Fault],
) -> Result<(), OutFault>
    ensures written { WritesInParts result (O.told out.old) (text.old.items ++ fault_lines faults.now) (O.told out.new) }
    ensures faults { CountsOutFault result (O.faults out.old) (O.faults out.new) }
    ensures text { OnOk result (text.new.items ≡ []) }
{
    push_lines(alloc, text, faults).map_err(|_| OutFault::NoMemory)?;
    out.write(alloc, text.as_slice())?;
    text.clear();
    Ok(())
}

/// Adds a line for each fault.
fn push_lines(alloc: Global, text: &mut Vec<u8>, faults: &[Fault]) -> Result<(), NoMemory>
    ensures { OnOk result (text.new.items ≡ text.old.items ++ fault_lines faults.now) }
{
    for fault in faults {
        push_line(alloc, text, fault)?;
    }
    Ok(())
}

/// Adds the line of a fault.
fn push_line(alloc: Global, text: &mut Vec<u8>, fault: &Fault) -> Result<(), NoMemory>
    ensures { OnOk result (text.new.items ≡ text.old.items ++ fault_line fault.now) }
{
    text.extend_from_slice(place(alloc, fault.span)?.as_bytes())?;
    text.extend_from_slice(kind_name(fault.kind).as_bytes())?;
    push_detail(alloc, text, &fault.detail)?;
    text.push(b'\n')?;
    Ok(())
}

/// The ends of a span, and what stands behind them.
fn place(alloc: Global, span: Span) -> Result<String, AllocError>
    ensures { IfOk result (λ text. string_bytes text ≡ place_text span) }
{
    let from = span.from;
    let to = span.to;
    format!(in alloc; "{from}-{to} ")
}

/// Adds what a fault tells beside its kind, where it tells anything.
#[tactic(auto, using(crate::proofs::Lines::pieces_printed))]
fn push_detail(alloc: Global, text: &mut Vec<u8>, detail: &Detail) -> Result<(), NoMemory>
    ensures { OnOk result (text.new.items ≡ text.old.items ++ detail_text detail.now) }
{
    if detail.is_empty() {
        return Ok(());
    }
    let (front, end) = detail.pieces();
    text.push(b' ')?;
    push_text(alloc, text, front)?;
    push_text(alloc, text, end)?;
    Ok(())
}
