//! What files and output in memory answer, through their traits.

use nx_base::sequence::Bytes;
use nx_host::files::{FileFault, Files};
use nx_host::memory_files::{MemFiles, SureFiles};
use nx_host::memory_out::{MemOut, SureOut};
use nx_host::out::{Out, OutFault};
use std::alloc::Global;

// What a fetch finds: the bytes of `text`, other bytes, none, or a failure.
fn found<F: Files>(files: &mut F, alloc: Global, uri: &str) -> &'static str {
    match files.fetch(alloc, uri) {
        Ok(Some(bytes)) if bytes.as_slice() == b"text".as_slice() => "text",
        Ok(Some(_)) => "other",
        Ok(None) => "none",
        Err(FileFault::Failed) => "failed",
        Err(FileFault::NoMemory) => "no memory",
    }
}

// What becomes of a store of the bytes of `text`.
fn stored<F: Files>(files: &mut F, alloc: Global, uri: &str) -> &'static str {
    let Ok(text) = Vec::from_slice(alloc, b"text") else {
        return "no memory";
    };
    match files.store(alloc, uri, &Bytes::from_vec(text)) {
        Ok(()) => "stored",
        Err(FileFault::Failed) => "failed",
        Err(FileFault::NoMemory) => "no memory",
    }
}

// What `has` says.
fn had<F: Files>(files: &mut F, alloc: Global, uri: &str) -> &'static str {
    match files.has(alloc, uri) {
        Ok(true) => "there",
        Ok(false) => "absent",
        Err(FileFault::Failed) => "failed",
        Err(FileFault::NoMemory) => "no memory",
    }
}

pub(crate) fn finds<F: Files>(files: &mut F, alloc: Global, uri: &str, wanted: &str) -> bool {
    found(files, alloc, uri) == wanted
}

pub(crate) fn stores<F: Files>(files: &mut F, alloc: Global, uri: &str, wanted: &str) -> bool {
    stored(files, alloc, uri) == wanted
}

pub(crate) fn has<F: Files>(files: &mut F, alloc: Global, uri: &str, wanted: &str) -> bool {
    had(files, alloc, uri) == wanted
}

// Whether files that never fail are replaced.
fn sure_are_replaced(alloc: Global) -> bool {
    let mut files = SureFiles::new(alloc);
    files.add("a", b"old").is_ok()
        && finds(&mut files, alloc, "a", "other")
        && stores(&mut files, alloc, "a", "stored")
        && finds(&mut files, alloc, "a", "text")
        && finds(&mut files, alloc, "b", "none")
        && has(&mut files, alloc, "b", "absent")
}

#[test]
fn sure_files(rt: HostRuntime) {
    assert!(rt; sure_are_replaced(rt.alloc()));
}

// Whether the calls that are to fail do, and no other.
fn fail(alloc: Global, files: &mut MemFiles) -> bool {
    files.add("a", b"old").is_ok()
        && has(files, alloc, "a", "there")
        && finds(files, alloc, "a", "failed")
        && stores(files, alloc, "a", "failed")
        && stores(files, alloc, "a", "stored")
        && has(files, alloc, "a", "failed")
        && finds(files, alloc, "a", "text")
}

fn are_failing(alloc: Global) -> bool {
    match MemFiles::new(alloc, &[2, 3, 5]) {
        Ok(mut files) => fail(alloc, &mut files),
        Err(_) => false,
    }
}

#[test]
fn failing_files(rt: HostRuntime) {
    assert!(rt; are_failing(rt.alloc()));
}

// What becomes of a write.
fn written<O: Out>(out: &mut O, alloc: Global, bytes: &[u8]) -> &'static str {
    match out.write(alloc, bytes) {
        Ok(()) => "written",
        Err(OutFault::Failed) => "failed",
        Err(OutFault::NoMemory) => "no memory",
    }
}

fn writes<O: Out>(out: &mut O, alloc: Global, bytes: &[u8], wanted: &str) -> bool {
    written(out, alloc, bytes) == wanted
}

// Whether three writes are taken, and the second of them, too, or not.
fn three_written<O: Out>(out: &mut O, alloc: Global, second: &str) -> bool {
    writes(out, alloc, b"abc", "written")
        && writes(out, alloc, b"def", second)
        && writes(out, alloc, b"ghi", "written")
}

fn sure_holds_all(alloc: Global) -> bool {
    let mut out = SureOut::new(alloc);
    three_written(&mut out, alloc, "written") && out.bytes() == b"abcdefghi".as_slice()
}

fn failing_lacks_one(alloc: Global) -> bool {
    match MemOut::new(alloc, &[2]) {
        Ok(mut out) => {
            three_written(&mut out, alloc, "failed") && out.bytes() == b"abcdghi".as_slice()
        }
        Err(_) => false,
    }
}

#[test]
fn output_in_memory(rt: HostRuntime) {
    assert!(rt; sure_holds_all(rt.alloc()));
    assert!(rt; failing_lacks_one(rt.alloc()));
}
