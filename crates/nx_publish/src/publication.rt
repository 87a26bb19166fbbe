//! The notice of a document's faults.

ghost use Rattle.std.specs.Prelude.{◌≡◌, ◌++◌, [], ◌∷◌, IfOk, OnOk, codes, map, string_bytes};
ghost use Rattle.std.specs.Fmt.{decimal};
ghost use Rattle.serde_json.specs.View.{view};
ghost use Rattle.nx_lines.specs.Cursors.{IsAtPlace};
ghost use Rattle.nx_publish.specs.Published.{count_data, fault_data, fault_range, fault_words, publication, published_list};

use nx_base::fault::Fault;
use nx_base::memory::NoMemory;
use nx_lines::Cursor;
use nx_position::change::Range;
use nx_position::position::{Encoding, Position};
use nx_report::sentence::push_sentence;
use nx_text::text::Text;
use nx_wire::diagnostic::{Severity, diagnostic, publish};
use serde_json::Value;
use std::alloc::Global;

/// How many faults are published.
pub const MOST_PUBLISHED: usize = 1000;

/// What a fault says.
fn fault_words(alloc: Global, fault: &Fault) -> Result<String, NoMemory>
    ensures { IfOk result (λ words. string_bytes words ≡ fault_words fault.now) }
{
    let mut sentence = Vec::new(alloc);
    push_sentence(alloc, &mut sentence, fault, &[])?;
    let words = String::from_utf8_lossy(alloc, sentence.as_slice())?;
    Ok(words)
}

/// Where a fault is. The cursor is left there.
fn fault_range(cursor: &mut Cursor, text: &Text, fault: &Fault) -> Range
    requires { IsAtPlace text.now cursor.old }
    ensures range { result ≡ fault_range cursor.old.encoding text.now fault.now }
    ensures stands { IsAtPlace text.now cursor.new }
    ensures encoding { cursor.new.encoding ≡ cursor.old.encoding }
{
    let start = cursor.move_to(text, fault.span.from);
    let end = cursor.move_to(text, fault.span.to);
    Range { start, end }
}

/// The diagnostic of a fault. The cursor is left at its place.
fn fault_value(
    alloc: Global,
    cursor: &mut Cursor,
    text: &Text,
    fault: &Fault,
) -> Result<Value, NoMemory>
    requires { IsAtPlace text.now cursor.old }
    ensures made { IfOk result (λ made. view made ≡ fault_data cursor.old.encoding text.now fault.now) }
    ensures stands { IsAtPlace text.now cursor.new }
    ensures encoding { cursor.new.encoding ≡ cursor.old.encoding }
{
    let range = fault_range(cursor, text, fault);
    let words = fault_words(alloc, fault)?;
    diagnostic(alloc, range, Severity::Error, words.as_str())
}

/// Adds the diagnostics of faults.
fn push_faults(
    alloc: Global,
    encoding: Encoding,
    text: &Text,
    faults: &[Fault],
    list: &mut Vec<Value>,
) -> Result<(), NoMemory>
    ensures { OnOk result (map view list.new.items ≡ map view list.old.items ++ map (fault_data encoding text.now) faults.now) }
{
    let mut cursor = Cursor::new(encoding);
    let mut rest = faults;
    while let Some((fault, behind)) = rest.split_first() {
        let made = fault_value(alloc, &mut cursor, text, fault)?;
        list.push(made)?;
        rest = behind;
    }
    Ok(())
}

/// How many faults there are, in words.
fn count_words(alloc: Global, count: usize) -> Result<String, NoMemory>
    ensures { IfOk result (λ words. string_bytes words ≡ decimal count ++ codes " errors, of which the first 1000 are listed") }
{
    let words = format!(in alloc; "{count} errors, of which the first 1000 are listed")?;
    Ok(words)
}

/// The diagnostic that says how many faults there are.
fn count_value(alloc: Global, count: usize) -> Result<Value, NoMemory>
    ensures { IfOk result (λ made. view made ≡ count_data count) }
{
    let words = count_words(alloc, count)?;
    let start = Position { line: 0, column: 0 };
    diagnostic(
        alloc,
        Range { start, end: start },
        Severity::Error,
        words.as_str(),
    )
}

/// The diagnostics of faults: of all, or of the first of them and one more that says how many there are.
fn published_list(
    alloc: Global,
    encoding: Encoding,
    text: &Text,
    faults: &[Fault],
) -> Result<Vec<Value>, NoMemory>
    ensures { IfOk result (λ list. map view list.items ≡ published_list encoding text.now faults.now) }
{
    let mut list = Vec::new(alloc);
    if faults.len() <= MOST_PUBLISHED {
        push_faults(alloc, encoding, text, faults, &mut list)?;
        return Ok(list);
    }
    let (first, _others) = faults.split_at(MOST_PUBLISHED);
    push_faults(alloc, encoding, text, first, &mut list)?;
    let count = count_value(alloc, faults.len())?;
    list.push(count)?;
    Ok(list)
}

/// The notice that publishes the faults of a document of this URI, version and text.
pub fn publication(
    alloc: Global,
    encoding: Encoding,
    uri: &str,
    version: i64,
    text: &Text,
    faults: &[Fault],
) -> Result<Value, NoMemory>
    ensures { IfOk result (λ made. view made ≡ publication encoding uri.now version text.now faults.now) }
{
    let list = published_list(alloc, encoding, text, faults)?;
    let made = publish(alloc, uri, version, list)?;
    Ok(made)
}
