//! What the disk answers, over real files, and what standard output takes, over a stand-in.

mod failing;

use self::failing::{FailingDisk, Failure};
use crate::memory;
use nx_host::disk::{DiskFiles, StdOut};
use nx_host::files::Files;
use nx_host::out::{Out, OutFault};
use std::alloc::Global;
use std::cell::Cell;
use std::fmt::Display;
use std::fs::Permissions;
use std::io::{Error, ErrorKind};
use std::os::unix::fs::{PermissionsExt, symlink};
use std::process::Abort;
use std::{fs, io, rt};

const FOLDER: &str = "nx_host_disk_test";

const STORED: &str = "file:///work/nx_host_disk_test/a%20b.txt";

// What `fetch` finds, what `has` says, and the URI. `loop` is a link to itself.
const ANSWERS: &str = "\
text there file:///work/nx_host_disk_test/a%20b.txt
none absent file:///work/nx_host_disk_test/a%20b.txt?
none absent file:///work/nx_host_disk_test/a%20b.txt#part
none absent file:///work/nx_host_disk_test/c.txt
none absent file:///work/nx_host_disk_test/none/c.txt
none absent file:///work/nx_host_disk_test/a%20b.txt/c
failed absent file:///work/nx_host_disk_test/a%00.txt
failed absent file:///work/nx_host_disk_test/loop
failed absent file:///work/nx_host_disk_test
failed absent file:///work/
none absent file:///nx_host_disk_test/a%20b.txt
none absent file://host/work/a.txt
none absent http://work/a.txt
none absent file:///work/%FF";

// Where nothing can be stored. What is written to `/dev/full` fails, as on a disk that is full.
const REFUSED: &str = "\
file:///work/nx_host_disk_test
file:///work/nx_host_disk_test/none/c.txt
file:///work/nx_host_disk_test/a%20b.txt?
file:///work/nx_host_disk_test/a%20b.txt#part
file:///work/nx_host_disk_test/loop
file:///work/
file:///dev/full
http://work/a.txt";

// The calls that are generic over files, for the disk's alone: each function that makes such a call is dear to prove.
fn finds(files: &mut DiskFiles<'_, HostRuntime>, alloc: Global, uri: &str, wanted: &str) -> bool {
    memory::finds(files, alloc, uri, wanted)
}

fn stores(files: &mut DiskFiles<'_, HostRuntime>, alloc: Global, uri: &str, wanted: &str) -> bool {
    memory::stores(files, alloc, uri, wanted)
}

fn is_done(answer: io::Result<()>) -> bool {
    answer.is_ok()
}

// Makes the folder of a test anew.
fn makes_folder(rt: &HostRuntime, folder: &str) -> bool {
    let _left_over = fs::remove_dir_all(rt, folder);
    is_done(fs::create_dir(rt, folder))
}

fn removes_folder(rt: &HostRuntime, folder: &str) -> bool {
    is_done(fs::remove_dir_all(rt, folder))
}

// Whether a folder has so many entries.
fn has_entries(rt: &HostRuntime, folder: &str, count: usize) -> bool {
    match fs::read_dir(rt, folder) {
        Ok(entries) => entries.count() == count,
        Err(_) => false,
    }
}

// Makes the folder with a link to itself.
fn makes_loop(rt: &HostRuntime) -> bool {
    makes_folder(rt, FOLDER) && is_done(symlink(rt, "loop", "nx_host_disk_test/loop"))
}

// Whether `has` finds a file, where it is to, and only there.
fn tells_of(files: &mut DiskFiles<'_, HostRuntime>, alloc: Global, uri: &str, has: &str) -> bool {
    (files.has(alloc, uri) == Ok(true)) == (has == "there")
}

// The first word of a row, and the others.
fn cut(row: &str) -> (&str, &str) {
    row.split_once(" ").unwrap_or((row, ""))
}

// Whether both calls answer what the row says.
fn is_answered(files: &mut DiskFiles<'_, HostRuntime>, alloc: Global, row: &str) -> bool {
    let (answer, rest) = cut(row);
    let (has, uri) = cut(rest);
    finds(files, alloc, uri, answer) && tells_of(files, alloc, uri, has)
}

// Asks what the rows say.
fn ask_rows(rt: &impl Abort, files: &mut DiskFiles<'_, HostRuntime>, alloc: Global) {
    for row in ANSWERS.split("\n") {
        assert!(rt; is_answered(files, alloc, row), "{row}");
    }
}

// Tries to store where nothing can be.
fn store_refused(rt: &impl Abort, files: &mut DiskFiles<'_, HostRuntime>, alloc: Global) {
    for uri in REFUSED.split("\n") {
        assert!(rt; stores(files, alloc, uri, "failed"), "{uri}");
    }
}

// Whether a file can be stored.
fn begins(rt: &HostRuntime, files: &mut DiskFiles<'_, HostRuntime>) -> bool {
    makes_loop(rt) && stores(files, rt.alloc(), STORED, "stored")
}

// Whether that file is still there behind the rows, and each failure was counted.
fn ends(rt: &HostRuntime, files: &mut DiskFiles<'_, HostRuntime>) -> bool {
    stores(files, rt.alloc(), "file:///dev/null", "stored")
        && finds(files, rt.alloc(), STORED, "text")
        && files.failures() == 14
        && has_entries(rt, FOLDER, 2)
        && removes_folder(rt, FOLDER)
}

#[test]
fn disk_files(rt: HostRuntime) {
    let mut files = DiskFiles::new(&rt);
    assert!(rt; begins(&rt, &mut files));
    ask_rows(&rt, &mut files, rt.alloc());
    store_refused(&rt, &mut files, rt.alloc());
    assert!(rt; ends(&rt, &mut files));
}

const REPLACED: &str = "nx_host_replaced_test";

const OLD: &str = "nx_host_replaced_test/old.txt";

const OLD_URI: &str = "file:///work/nx_host_replaced_test/old.txt";

const LINK_URI: &str = "file:///work/nx_host_replaced_test/link.txt";

const DANGLING: &str = "nx_host_replaced_test/dangling.txt";

const DANGLING_URI: &str = "file:///work/nx_host_replaced_test/dangling.txt";

const NEW_URI: &str = "file:///work/nx_host_replaced_test/new.txt";

// Writes a file whose text is longer than what is stored, and that its group may write.
fn makes_old(rt: &HostRuntime) -> bool {
    makes_folder(rt, REPLACED)
        && is_done(fs::write(rt, OLD, "a longer text"))
        && sets_mode(rt, OLD, 0o660)
}

fn sets_mode(rt: &HostRuntime, path: &str, mode: u32) -> bool {
    is_done(fs::set_permissions(rt, path, Permissions::from_mode(mode)))
}

// Makes the folder with such a file and links to it and to nothing.
fn makes_replaced(rt: &HostRuntime) -> bool {
    makes_old(rt)
        && is_done(symlink(rt, "old.txt", "nx_host_replaced_test/link.txt"))
        && is_done(symlink(rt, "new.txt", DANGLING))
}

// Whether so many may read and write what is at the path.
fn has_mode(rt: &HostRuntime, path: &str, mode: u32) -> bool {
    match fs::metadata(rt, path) {
        Ok(told) => told.permissions().mode() & 0o777 == mode,
        Err(_) => false,
    }
}

// Whether a store at a URI of the old file replaces it, and nothing else changes.
fn is_replaced(rt: &HostRuntime, alloc: Global, uri: &str) -> bool {
    let mut files = DiskFiles::new(rt);
    makes_replaced(rt)
        && stores(&mut files, alloc, uri, "stored")
        && finds(&mut files, alloc, OLD_URI, "text")
        && has_mode(rt, OLD, 0o660)
        && has_entries(rt, REPLACED, 3)
}

fn is_link(rt: &HostRuntime, path: &str) -> bool {
    match fs::symlink_metadata(rt, path) {
        Ok(told) => told.is_symlink(),
        Err(_) => false,
    }
}

// Whether a store through a link to nothing makes the file that it names, and the link stays.
fn is_made_by_link(rt: &HostRuntime, alloc: Global) -> bool {
    let mut files = DiskFiles::new(rt);
    stores(&mut files, alloc, DANGLING_URI, "stored")
        && is_link(rt, DANGLING)
        && finds(&mut files, alloc, NEW_URI, "text")
        && has_entries(rt, REPLACED, 4)
}

fn are_replaced(rt: &HostRuntime, alloc: Global) -> bool {
    is_replaced(rt, alloc, OLD_URI)
        && is_replaced(rt, alloc, LINK_URI)
        && is_made_by_link(rt, alloc)
        && removes_folder(rt, REPLACED)
}

#[test]
fn files_are_replaced(rt: HostRuntime) {
    assert!(rt; are_replaced(&rt, rt.alloc()));
}

// Whether a store on this disk fails.
fn refuses<R: rt::Files + Print>(disk: &R, alloc: Global, uri: &str) -> bool {
    let mut files = DiskFiles::new(disk);
    memory::stores(&mut files, alloc, uri, "failed")
}

// Whether the old file holds its text.
fn is_old(rt: &HostRuntime) -> bool {
    match fs::read_to_string(rt, OLD) {
        Ok(text) => text.as_str() == "a longer text",
        Err(_) => false,
    }
}

// Whether a store on a disk that fails so leaves the old file, and nothing beside it.
fn leaves_files(rt: &HostRuntime, alloc: Global, failure: Failure) -> bool {
    refuses(&FailingDisk { disk: rt, failure }, alloc, OLD_URI)
        && is_old(rt)
        && has_entries(rt, REPLACED, 3)
}

fn each_leaves_files(rt: &HostRuntime, alloc: Global) -> bool {
    makes_replaced(rt)
        && leaves_files(rt, alloc, Failure::Permissions)
        && leaves_files(rt, alloc, Failure::Write)
        && leaves_files(rt, alloc, Failure::Sync)
        && leaves_files(rt, alloc, Failure::Rename)
        && removes_folder(rt, REPLACED)
}

#[test]
fn failures_leave_files(rt: HostRuntime) {
    assert!(rt; each_leaves_files(&rt, rt.alloc()));
}

const GUARDED: &str = "nx_host_guarded_test";

const SECRET: &str = "nx_host_guarded_test/secret.txt";

const SECRET_URI: &str = "file:///work/nx_host_guarded_test/secret.txt";

// Makes the folder with a file that nobody may read or write.
fn makes_guarded(rt: &HostRuntime) -> bool {
    makes_folder(rt, GUARDED) && is_done(fs::write(rt, SECRET, "text")) && sets_mode(rt, SECRET, 0)
}

// Whether what nobody may read or write is neither found nor replaced.
fn is_guarded(rt: &HostRuntime, alloc: Global) -> bool {
    let mut files = DiskFiles::new(rt);
    finds(&mut files, alloc, SECRET_URI, "failed")
        && stores(&mut files, alloc, SECRET_URI, "failed")
}

// Whether what its owner may read and write, in a folder that nobody may write, is found and not replaced.
fn is_kept(rt: &HostRuntime, alloc: Global) -> bool {
    let mut files = DiskFiles::new(rt);
    sets_mode(rt, SECRET, 0o600)
        && sets_mode(rt, GUARDED, 0o500)
        && stores(&mut files, alloc, SECRET_URI, "failed")
        && finds(&mut files, alloc, SECRET_URI, "text")
        && sets_mode(rt, GUARDED, 0o700)
}

fn is_readable(rt: &HostRuntime, path: &str) -> bool {
    fs::open(rt, path).is_ok()
}

// Root may read and write everything, so nothing is asked where the test runs as root.
fn stay(rt: &HostRuntime, alloc: Global) -> bool {
    is_readable(rt, SECRET) || (is_guarded(rt, alloc) && is_kept(rt, alloc))
}

#[test]
fn guarded_files_stay(rt: HostRuntime) {
    assert!(rt; makes_guarded(&rt) && stay(&rt, rt.alloc()) && removes_folder(&rt, GUARDED));
}

// Takes one byte a call, is interrupted at its second call, and after `limit` bytes fails or takes none.
#[derive(Drop)]
struct Narrow {
    calls: Cell<u64>,
    taken: Cell<u64>,
    limit: u64,
    fails: bool,
}

impl Print for Narrow {
    fn print<D: Display + Drop>(&self, _value: D) -> io::Result<()> {
        Ok(())
    }

    fn println<D: Display + Drop>(&self, _value: D) -> io::Result<()> {
        Ok(())
    }

    fn write_all(&self, _bytes: &[u8]) -> io::Result<()> {
        Ok(())
    }

    fn write_some(&self, bytes: &[u8]) -> io::Result<usize> {
        self.calls.set(self.calls.get().saturating_add(1));
        if self.calls.get() == 2 {
            return Err(Error::from(ErrorKind::Interrupted));
        }
        if self.taken.get() < self.limit && !bytes.is_empty() {
            self.taken.set(self.taken.get().saturating_add(1));
            return Ok(1);
        }
        if self.fails {
            Err(Error::from(ErrorKind::BrokenPipe))
        } else {
            Ok(0)
        }
    }
}

// How many bytes a write takes, whether it answers `Failed`, and how often that is counted.
fn written(alloc: Global, limit: u64, fails: bool) -> (u64, bool, u64) {
    let narrow = Narrow {
        calls: Cell::new(0),
        taken: Cell::new(0),
        limit,
        fails,
    };
    let mut out = StdOut::new(&narrow);
    let answer = out.write(alloc, b"text");
    (
        narrow.taken.get(),
        answer == Err(OutFault::Failed),
        out.failures(),
    )
}

fn takes(alloc: Global, limit: u64, fails: bool, wanted: (u64, bool, u64)) -> bool {
    written(alloc, limit, fails) == wanted
}

fn is_taken(rt: &HostRuntime) -> bool {
    StdOut::new(rt).write(rt.alloc(), b"written\n").is_ok()
}

fn are_taken(alloc: Global) -> bool {
    takes(alloc, 9, true, (4, false, 0))
        && takes(alloc, 2, true, (2, true, 1))
        && takes(alloc, 3, false, (3, true, 1))
}

#[test]
fn standard_output(rt: HostRuntime) {
    assert!(rt; is_taken(&rt) && are_taken(rt.alloc()));
}
