//! What is handed on in place of schema files.

use crate::tables::{COMPACT, ENCODED, MARKUP};
use nx_base::memory::NoMemory;
use rng_widen::facet::facet_text;
use rng_widen::schema_type::type_text;
use rng_widen::widen::{handed, widenings};
use rng_widen::widening::{Note, Widening};
use std::alloc::Global;

/// The URI of XML Schema's library, for which `%` stands.
const LIBRARY: &str = "http://www.w3.org/2001/XMLSchema-datatypes";

/// The declaration of the schema's namespace, for which `@` stands.
const NAMESPACE: &str = "xmlns=\"http://relaxng.org/ns/structure/1.0\"";

fn word(line: &mut String, bytes: &[u8]) -> Result<(), NoMemory> {
    line.push_str(str::from_utf8(bytes).unwrap_or("no text"))?;
    Ok(())
}

fn put_note(line: &mut String, note: Note) -> Result<(), NoMemory> {
    match note {
        Note::Type(named, wider) => {
            word(line, type_text(named))?;
            word(line, b" ")?;
            word(line, type_text(wider))
        }
        Note::Facet(facet) => word(line, facet_text(facet)),
        Note::Encoding => word(line, b"encoding"),
    }
}

fn put_notes(line: &mut String, widenings: &[Widening]) -> Result<(), NoMemory> {
    for (i, one) in widenings.iter().enumerate() {
        word(line, if i == 0 { b"" } else { b"; " })?;
        let alloc = *line.allocator();
        word(line, one.from.to_string(alloc)?.as_bytes())?;
        word(line, b" ")?;
        put_note(line, one.note)?;
    }
    Ok(())
}

/// What is handed on in place of a schema file, and what is noted of it.
fn told(alloc: Global, text: &str) -> Result<String, NoMemory> {
    let whole = handed(alloc, text.as_bytes())?;
    let widenings = widenings(alloc, text.as_bytes())?;
    let mut line = String::new(alloc);
    word(&mut line, whole.as_slice())?;
    word(&mut line, b"\n=> ")?;
    if widenings.is_empty() {
        word(&mut line, b"none")?;
    }
    put_notes(&mut line, widenings.as_slice())?;
    Ok(line)
}

/// A row with what `%` and `@` stand for.
fn spelled_out(alloc: Global, row: &str) -> Result<String, NoMemory> {
    let row = row.replace(alloc, "%", LIBRARY)?;
    Ok(row.as_str().replace(alloc, "@", NAMESPACE)?)
}

/// Whether what a row says is so.
fn is_so(alloc: Global, row: &str) -> Result<bool, NoMemory> {
    let row = spelled_out(alloc, row)?;
    let (text, want) = row.as_str().split_once("\n=> ").unwrap_or(("", "no row"));
    Ok(told(alloc, text)?.as_str() == want)
}

fn holds(answer: Result<bool, NoMemory>) -> bool {
    answer.unwrap_or(false)
}

#[test]
fn compact_files_are_handed_on(rt: HostRuntime) {
    let alloc = rt.alloc();
    for row in COMPACT.split("\n\n") {
        assert!(rt; holds(is_so(alloc, row)), "at {row}");
    }
}

#[test]
fn files_in_markup_are_handed_on(rt: HostRuntime) {
    let alloc = rt.alloc();
    for row in MARKUP.split("\n\n") {
        assert!(rt; holds(is_so(alloc, row)), "at {row}");
    }
}

#[test]
fn files_in_other_encodings_are_handed_on(rt: HostRuntime) {
    let alloc = rt.alloc();
    for row in ENCODED.split("\n\n") {
        assert!(rt; holds(is_so(alloc, row)), "at {row}");
    }
}
