//! Files that hand on schemas, and what is noted of them.

use nx_base::memory::NoMemory;
use nx_host::files::Files;
use nx_host::memory_files::SureFiles;
use rng_widen::noted::Noted;
use rng_widen::wider_files::WiderFiles;
use std::alloc::Global;

/// A schema with a type that isn't held, and one without.
const WIDE: &[u8] = b"start = element a { xsd:QName }";

const NARROW: &[u8] = b"start = element a { xsd:date }";

fn files(alloc: Global) -> Result<SureFiles, NoMemory> {
    let mut files = SureFiles::new(alloc);
    files.add("file:///wide.rnc", WIDE)?;
    files.add("file:///narrow.rnc", NARROW)?;
    Ok(files)
}

/// Whether this is found under the URI.
fn finds<F: Files>(alloc: Global, files: &mut F, uri: &str, want: &[u8]) -> bool {
    match files.fetch(alloc, uri) {
        Ok(Some(bytes)) => bytes.as_slice() == want,
        Ok(None) => want.is_empty(),
        Err(_) => false,
    }
}

/// Whether it is the note of the schema with a type that isn't held, which has one.
fn is_wide(one: &Noted) -> bool {
    one.uri.as_slice() == b"file:///wide.rnc".as_slice()
        && one.bytes.as_slice() == WIDE
        && one.widenings.len() == 1
}

fn schemas_are_noted(alloc: Global) -> Result<bool, NoMemory> {
    let mut wider = WiderFiles::new(alloc, files(alloc)?, false);
    let first = finds(
        alloc,
        &mut wider,
        "file:///wide.rnc",
        b"start = element a { token     }",
    );
    let second = finds(alloc, &mut wider, "file:///narrow.rnc", NARROW);
    let third = finds(alloc, &mut wider, "file:///none.rnc", b"");
    let noted = wider.take_noted(alloc);
    let again = wider.take_noted(alloc);
    Ok(
        first
            && second
            && third
            && noted.len() == 1
            && noted.iter().all(is_wide)
            && again.is_empty(),
    )
}

fn documents_are_as_they_are(alloc: Global) -> Result<bool, NoMemory> {
    let mut wider = WiderFiles::new(alloc, files(alloc)?, false);
    let found = finds(alloc, &mut wider.files, "file:///wide.rnc", WIDE);
    Ok(found && wider.take_noted(alloc).is_empty())
}

fn nothing_is_changed_strictly(alloc: Global) -> Result<bool, NoMemory> {
    let mut wider = WiderFiles::new(alloc, files(alloc)?, true);
    let found = finds(alloc, &mut wider, "file:///wide.rnc", WIDE);
    Ok(found && wider.take_noted(alloc).is_empty())
}

#[test]
fn fetched_schemas_are_noted(rt: HostRuntime) {
    assert!(rt; schemas_are_noted(rt.alloc()).unwrap_or(false));
}

#[test]
fn what_is_fetched_below_stays(rt: HostRuntime) {
    assert!(rt; documents_are_as_they_are(rt.alloc()).unwrap_or(false));
}

#[test]
fn strict_files_hand_on_what_they_hold(rt: HostRuntime) {
    assert!(rt; nothing_is_changed_strictly(rt.alloc()).unwrap_or(false));
}
