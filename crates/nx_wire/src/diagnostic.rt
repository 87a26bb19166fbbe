//! Faults of a document, as they are sent.

ghost use Rattle.std.specs.Prelude.{◌≡◌, IfOk};
ghost use Rattle.serde_json.specs.View.{items_view, view};
ghost use Rattle.nx_wire.specs.Diagnostics.{position_data, range_data, severity_number, diagnostic_data, published_data};

use crate::answer::notice;
use nx_base::memory::NoMemory;
use nx_position::change::Range;
use nx_position::position::Position;
use serde_json::{Value, json};
use std::alloc::Global;

/// How grave a diagnostic is, by the protocol's `DiagnosticSeverity`.
#[derive(Clone, Copy, Debug, PartialEq, Eq)]
pub enum Severity {
    Error,
    Warning,
    Information,
}

/// The protocol's number of a severity.
fn severity_number(severity: Severity) -> u64
    ensures { result ≡ severity_number severity }
{
    match severity {
        Severity::Error => 1,
        Severity::Warning => 2,
        Severity::Information => 3,
    }
}

/// A `Position`.
fn position_value(alloc: Global, position: Position) -> Result<Value, NoMemory>
    ensures { IfOk result (λ made. view made ≡ position_data position) }
{
    let line = position.line;
    let column = position.column;
    let made = json!(in alloc; {"line": line, "character": column})?;
    Ok(made)
}

/// A `Range`.
pub fn range_value(alloc: Global, range: Range) -> Result<Value, NoMemory>
    ensures { IfOk result (λ made. view made ≡ range_data range) }
{
    let start = position_value(alloc, range.start)?;
    let end = position_value(alloc, range.end)?;
    let made = json!(in alloc; {"start": start, "end": end})?;
    Ok(made)
}

/// A `Diagnostic`.
pub fn diagnostic(
    alloc: Global,
    range: Range,
    severity: Severity,
    words: &str,
) -> Result<Value, NoMemory>
    ensures { IfOk result (λ made. view made ≡ diagnostic_data range severity words.now) }
{
    let range = range_value(alloc, range)?;
    let number = severity_number(severity);
    let made =
        json!(in alloc; {"range": range, "severity": number, "source": "nxml", "message": words})?;
    Ok(made)
}

/// The notice of a document's diagnostics.
pub fn publish(
    alloc: Global,
    uri: &str,
    version: i64,
    diagnostics: Vec<Value>,
) -> Result<Value, NoMemory>
    ensures { IfOk result (λ made. view made ≡ published_data uri.now version (items_view diagnostics.items)) }
{
    let list = Value::Array(diagnostics);
    let params = json!(in alloc; {"uri": uri, "version": version, "diagnostics": list})?;
    notice(alloc, "textDocument/publishDiagnostics", params)
}
