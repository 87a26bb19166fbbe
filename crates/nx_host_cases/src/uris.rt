//! Texts of URIs, joined.

use nx_host::uri::{UriFault, WORK_FOLDER, join};
use std::alloc::{AllocError, Global};

// A base, which is the folder of the program's files where it is empty, a text, and the URI or the fault.
const JOINS: &str = "\
|o.xml|file:///work/o.xml
|../a b.xml|file:///a%20b.xml
file:///work/d/x.xml|d/s.rnc|file:///work/d/d/s.rnc
|http://e.org:80/é|http://e.org/%C3%A9
|http://[|Bad
no base|o.xml|Bad";

// Whether a text joins to what the row wants, a URI or a fault.
fn joins_to(alloc: Global, base: &str, text: &str, wanted: &str) -> bool {
    let base = if base.is_empty() { WORK_FOLDER } else { base };
    match join(alloc, base, text) {
        Ok(uri) => uri.as_slice() == wanted.as_bytes(),
        Err(UriFault::Bad) => wanted == "Bad",
        Err(UriFault::NoMemory) => false,
    }
}

// The first part of a row, and the others.
fn cut(row: &str) -> (&str, &str) {
    row.split_once("|").unwrap_or((row, "no row"))
}

fn is_joined(alloc: Global, row: &str) -> bool {
    let (base, rest) = cut(row);
    let (text, wanted) = cut(rest);
    joins_to(alloc, base, text, wanted)
}

#[test]
fn joins(rt: HostRuntime) {
    for row in JOINS.split("\n") {
        assert!(rt; is_joined(rt.alloc(), row), "{row}");
    }
}

fn letters(alloc: Global, count: u32) -> Result<String, AllocError> {
    let mut text = String::new(alloc);
    for _ in 0..count {
        text.push('a')?;
    }
    Ok(text)
}

// Whether the URI of so many letters is so long.
fn is_long(alloc: Global, count: u32, len: usize) -> bool {
    match letters(alloc, count) {
        Ok(text) => joins_long(alloc, text.as_str(), len),
        Err(_) => false,
    }
}

// Whether the URI of a text is so long; with no length, whether there is none.
fn joins_long(alloc: Global, text: &str, len: usize) -> bool {
    match join(alloc, WORK_FOLDER, text) {
        Ok(uri) => len > 0 && uri.len() == len,
        Err(UriFault::Bad) => len == 0,
        Err(UriFault::NoMemory) => false,
    }
}

#[test]
fn joins_long_texts(rt: HostRuntime) {
    assert!(rt; is_long(rt.alloc(), 65_535, 65_548));
    assert!(rt; is_long(rt.alloc(), 65_536, 0));
}
