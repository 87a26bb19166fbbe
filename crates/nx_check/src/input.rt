//! Files, beside which what standard input gave is one.

ghost use Rattle.std.specs.Prelude.{◌≡◌, IfOk};
ghost use Rattle.nx_host.specs.Disk.{no_map};
ghost use Rattle.nx_host.specs.Files.{CountsFault, HasFile, Holds, Stores};

use crate::document::STANDARD_INPUT;
use nx_base::sequence::{Bytes, TryCopy};
use nx_host::disk::DiskFiles;
use nx_host::files::{FileFault, Files};
use std::alloc::Global;
use std::rt;

/// The files of the disk, and under the URI `stdin:` what standard input gave, if it was read.
pub struct WithInput<'a, R> {
    disk: DiskFiles<'a, R>,
    input: Option<Bytes>,
}

impl<R> Drop for WithInput<'_, R> {
    fn drop(self) {
        let WithInput { disk: _, input: _ } = self;
    }
}

impl<'a, R> WithInput<'a, R> {
    /// These files, and this as what standard input gave.
    pub fn new(disk: DiskFiles<'a, R>, input: Option<Bytes>) -> WithInput<'a, R> {
        WithInput { disk, input }
    }
}

impl<R: rt::Files + Print> Files for WithInput<'_, R> {
    ghost told = { λ w. no_map w.disk };

    ghost faults = { λ w. w.disk };

    fn fetch(&mut self, alloc: Global, uri: &str) -> Result<Option<Bytes>, FileFault> {
        if uri != STANDARD_INPUT {
            return self.disk.fetch(alloc, uri);
        }
        match &self.input {
            Some(bytes) => Ok(Some(bytes.copy()?)),
            None => Ok(None),
        }
    }

    fn has(&mut self, alloc: Global, uri: &str) -> Result<bool, FileFault> {
        self.disk.has(alloc, uri)
    }

    fn store(&mut self, alloc: Global, uri: &str, bytes: &Bytes) -> Result<(), FileFault> {
        self.disk.store(alloc, uri, bytes)
    }
}
