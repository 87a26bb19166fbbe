//! The files of the disk, and standard output. What they hold is told to nobody: of them it is proved
//! that each `Failed` raises their count of faults, and that all else leaves it.

ghost use Rattle.std.specs.Prelude.{◌≡◌, ◌↔◌, ◌⊎◌, IsErr, IsTrue, IfOk};
ghost use Rattle.std.specs.IoError.{error_kind};
ghost use Rattle.nx_host.specs.Disk.{no_map, no_bytes, IsNowhere, FindsNone, FindsNothing};
ghost use Rattle.nx_host.specs.Files.{CountsFault, HasFile, Holds, Stores};

use crate::count::one_more;
use crate::disk_path::{Start, path_from};
use crate::files::{FileFault, Files};
use crate::out::{Out, OutFault};
use crate::replacement::put;
use crate::streams::{read_all, write_whole};
use nx_base::sequence::Bytes;
use std::alloc::Global;
use std::io::ErrorKind;
use std::marker::Model;
use std::os::unix::fs::MetadataExt;
use std::{fs, io, rt};

/// The path of the process's standard output.
const STANDARD_OUTPUT: &str = "/dev/stdout";

/// The files of the disk. `file:///Y` is the path `/Y`, percent-decoded; those that `new` makes take `file:///work/X` for the relative
/// path X. A URI with a query or a fragment names no file. A store puts a new file in
/// the place of the old one when it is whole, so one that fails leaves the old one. To a contract they are
/// their count of faults.
pub struct DiskFiles<'a, R> {
    rt: &'a R,
    start: Start,
    faults: u64,
}

impl<'a, R> Model for DiskFiles<'a, R> {
    ghost use Rattle.std.specs.Prelude.{ℕ};

    ghost Value = { ℕ };

    ghost view = { λ d. d.faults };
}

impl<R> Drop for DiskFiles<'_, R> {
    fn drop(self) {
        let DiskFiles {
            rt: _,
            start: _,
            faults: _,
        } = self;
    }
}

impl<'a, R> DiskFiles<'a, R> {
    /// The files that the runtime reaches, by URIs of which those below `file:///work/` name what lies in the folder of the process.
    pub fn new(rt: &'a R) -> DiskFiles<'a, R>
        ensures { result ≡ 0 }
    {
        DiskFiles {
            rt,
            start: Start::Work,
            faults: 0,
        }
    }

    /// The files that the runtime reaches, seen from the root: no URI stands for another folder, and each file has one.
    pub fn rooted(rt: &'a R) -> DiskFiles<'a, R>
        ensures { result ≡ 0 }
    {
        DiskFiles {
            rt,
            start: Start::Root,
            faults: 0,
        }
    }

    /// How many calls failed.
    pub fn failures(&self) -> u64
        ensures { result ≡ self.now }
    {
        self.faults
    }

    /// Raises the count where the answer is `Failed`.
    fn counted<T>(&mut self, answer: Result<T, FileFault>) -> Result<T, FileFault>
        ensures answer { result ≡ answer }
        ensures faults { CountsFault result self.old self.new }
    {
        if let Err(FileFault::Failed) = &answer {
            self.faults = one_more(self.faults);
        }
        answer
    }
}

impl<R: rt::Files + Print> Files for DiskFiles<'_, R> {
    ghost told = { no_map };

    ghost faults = { λ d. d };

    fn fetch(&mut self, alloc: Global, uri: &str) -> Result<Option<Bytes>, FileFault>
        ensures found { IfOk result (Holds (no_map self.old) uri.now) }
        ensures map { no_map self.new ≡ no_map self.old }
        ensures faults { CountsFault result self.old self.new }
        ensures nowhere { IsNowhere uri.now → FindsNone result }
    {
        let answer = read_file(self.rt, self.start, alloc, uri);
        self.counted(answer)
    }

    fn has(&mut self, alloc: Global, uri: &str) -> Result<bool, FileFault>
        ensures found { IfOk result (HasFile (no_map self.old) uri.now) }
        ensures map { no_map self.new ≡ no_map self.old }
        ensures faults { CountsFault result self.old self.new }
        ensures nowhere { IsNowhere uri.now → FindsNothing result }
    {
        let answer = has_file(self.rt, self.start, alloc, uri);
        self.counted(answer)
    }

    fn store(&mut self, alloc: Global, uri: &str, bytes: &Bytes) -> Result<(), FileFault>
        ensures stored { Stores result (no_map self.old) uri.now bytes.now (no_map self.new) }
        ensures faults { CountsFault result self.old self.new }
        ensures nowhere { IsNowhere uri.now → IsErr result }
    {
        let answer = write_file(self.rt, self.start, alloc, uri, bytes.as_slice());
        self.counted(answer)
    }
}

/// Whether the error says that there is no such file, or that a file stands where a folder should.
fn is_missing(error: &io::Error) -> bool
    ensures { IsTrue result ↔ ((error_kind error.now ≡ ErrorKind.NotFound)
        ⊎ (error_kind error.now ≡ ErrorKind.NotADirectory)) }
{
    matches!(error.kind(), ErrorKind::NotFound | ErrorKind::NotADirectory)
}

/// The bytes of the file that the URI names; none where it names none, and where the file is missing.
fn read_file<R: rt::Files>(
    rt: &R,
    start: Start,
    alloc: Global,
    uri: &str,
) -> Result<Option<Bytes>, FileFault>
    ensures { IsNowhere uri.now → FindsNone result }
{
    match path_from(start, alloc, uri)? {
        Some(path) => read_path(rt, alloc, path.as_str()),
        None => Ok(None),
    }
}

/// Whether the URI names something that is there and is no folder.
fn has_file<R: rt::Files>(rt: &R, start: Start, alloc: Global, uri: &str) -> Result<bool, FileFault>
    ensures { IsNowhere uri.now → FindsNothing result }
{
    match path_from(start, alloc, uri)? {
        Some(path) => has_path(rt, path.as_str()),
        None => Ok(false),
    }
}

/// Puts the bytes into the file that the URI names, in place of what was in it.
fn write_file<R: rt::Files + Print>(
    rt: &R,
    start: Start,
    alloc: Global,
    uri: &str,
    bytes: &[u8],
) -> Result<(), FileFault>
    ensures { IsNowhere uri.now → IsErr result }
{
    match path_from(start, alloc, uri)? {
        Some(path) => write_path(rt, alloc, path.as_str(), bytes),
        None => Err(FileFault::Failed),
    }
}

/// The bytes of the file at the path; none where it is missing.
fn read_path<R: rt::Files>(rt: &R, alloc: Global, path: &str) -> Result<Option<Bytes>, FileFault> {
    match fs::open(rt, path) {
        Ok(mut file) => Ok(Some(Bytes::from_vec(read_all(alloc, &mut file)?))),
        Err(error) if is_missing(&error) => Ok(None),
        Err(error) => Err(error.into()),
    }
}

/// Whether something is at the path that is no folder.
fn has_path<R: rt::Files>(rt: &R, path: &str) -> Result<bool, FileFault> {
    match fs::metadata(rt, path) {
        Ok(metadata) => Ok(!metadata.is_dir()),
        Err(error) if is_missing(&error) => Ok(false),
        Err(error) => Err(error.into()),
    }
}

/// Puts the bytes into the file at the path, in place of what was in it. Where that is the file of the process's standard output,
/// as `/dev/stdout` is, they are written there behind what was, so that nothing is lost of either.
fn write_path<R: rt::Files + Print>(
    rt: &R,
    alloc: Global,
    path: &str,
    bytes: &[u8],
) -> Result<(), FileFault> {
    if is_standard_output(rt, path) {
        write_whole(&mut io::writer(rt), bytes)?;
    } else {
        put(rt, alloc, path, bytes)?;
    }
    Ok(())
}

/// Whether the path leads to the file that the process writes its standard output to.
fn is_standard_output<R: rt::Files>(rt: &R, path: &str) -> bool {
    match (fs::metadata(rt, path), fs::metadata(rt, STANDARD_OUTPUT)) {
        (Ok(named), Ok(own)) => named.dev() == own.dev() && named.ino() == own.ino(),
        _ => false,
    }
}

/// Standard output. To a contract it is its count of faults.
pub struct StdOut<'a, R> {
    rt: &'a R,
    faults: u64,
}

impl<'a, R> Model for StdOut<'a, R> {
    ghost use Rattle.std.specs.Prelude.{ℕ};

    ghost Value = { ℕ };

    ghost view = { λ o. o.faults };
}

impl<R> Drop for StdOut<'_, R> {
    fn drop(self) {
        let StdOut { rt: _, faults: _ } = self;
    }
}

impl<'a, R> StdOut<'a, R> {
    /// The standard output of the runtime.
    pub fn new(rt: &'a R) -> StdOut<'a, R>
        ensures { result ≡ 0 }
    {
        StdOut { rt, faults: 0 }
    }

    /// How many writes failed.
    pub fn failures(&self) -> u64
        ensures { result ≡ self.now }
    {
        self.faults
    }
}

impl<R: Print> Out for StdOut<'_, R> {
    ghost told = { no_bytes };

    ghost faults = { λ o. o };

    fn write(&mut self, _alloc: Global, bytes: &[u8]) -> Result<(), OutFault> {
        match write_whole(&mut io::writer(self.rt), bytes) {
            Ok(()) => Ok(()),
            Err(_) => {
                self.faults = one_more(self.faults);
                Err(OutFault::Failed)
            }
        }
    }
}
