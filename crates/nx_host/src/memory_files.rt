//! Files in memory.

ghost use Rattle.std.specs.Prelude.{◌≡◌, ◌∷◌, Some, IfOk, OnOk, OnErr};
ghost use Rattle.std.specs.FinMap as fin;
ghost use Rattle.nx_host.specs.Files.{CountsFault, Holds, HasFile, Stores};
ghost use Rattle.nx_host.specs.Calls.{CountsCall, no_calls};
ghost use Rattle.nx_host.specs.MemFiles.{files_in, calls_of};

use crate::calls::Calls;
use crate::file_table::FileTable;
use crate::files::{FileFault, Files};
use nx_base::memory::NoMemory;
use nx_base::sequence::Bytes;
use std::alloc::Global;
use std::marker::Model;

/// Files of which no call fails. To a contract they are the finite map from URI texts to bytes.
#[derive(Drop)]
pub struct SureFiles {
    table: FileTable,
}

impl Model for SureFiles {
    ghost use Rattle.nx_host.specs.Table.{Table, table_code};

    ghost Value = { Table };

    ghost coded = { table_code };

    ghost view = { λ s. s.table };
}

impl SureFiles {
    /// No files.
    pub fn new(alloc: Global) -> SureFiles
        ensures { result ≡ fin.empty }
    {
        SureFiles {
            table: FileTable::new(alloc),
        }
    }

    /// Puts bytes under the URI text, in place of those that were there.
    pub fn add(&mut self, uri: &str, bytes: &[u8]) -> Result<(), NoMemory>
        ensures ok { OnOk result (self.new ≡ fin.insert self.old uri.now bytes.now) }
        ensures err { OnErr result (self.new ≡ self.old) }
    {
        self.table.set(uri, bytes)
    }
}

impl Files for SureFiles {
    ghost told = { λ s. Some (fin.get s) };

    ghost faults = { λ _. 0 };

    fn fetch(&mut self, _alloc: Global, uri: &str) -> Result<Option<Bytes>, FileFault> {
        Ok(self.table.copy_of(uri)?)
    }

    fn has(&mut self, _alloc: Global, uri: &str) -> Result<bool, FileFault> {
        Ok(self.table.has(uri))
    }

    fn store(&mut self, _alloc: Global, uri: &str, bytes: &Bytes) -> Result<(), FileFault>
        ensures stored { Stores result (Some (fin.get self.old)) uri.now bytes.now (Some (fin.get self.new)) }
        ensures faults { CountsFault result 0 0 }
        ensures ok { OnOk result (self.new ≡ fin.insert self.old uri.now bytes.now) }
        ensures err { OnErr result (self.new ≡ self.old) }
    {
        self.table.set(uri, bytes.as_slice())?;
        Ok(())
    }
}

/// Files of which the calls with chosen numbers fail. The calls of `Files` are counted from 1, but for
/// those that answer `NoMemory`. All other calls do as those of `SureFiles`.
#[derive(Drop)]
pub struct MemFiles {
    table: FileTable,
    calls: Calls,
}

impl MemFiles {
    /// No files, and no call made yet. Those with the numbers in `fail` are to fail.
    pub fn new(alloc: Global, fail: &[u64]) -> Result<MemFiles, NoMemory>
        ensures files { IfOk result (λ made. files_in made ≡ fin.empty) }
        ensures calls { IfOk result (λ made. calls_of made ≡ no_calls fail.now) }
    {
        Ok(MemFiles {
            table: FileTable::new(alloc),
            calls: Calls::new(alloc, fail)?,
        })
    }

    /// Puts bytes under the URI text, in place of those that were there. It is no call that is counted.
    pub fn add(&mut self, uri: &str, bytes: &[u8]) -> Result<(), NoMemory>
        ensures ok { OnOk result (files_in self.new ≡ fin.insert (files_in self.old) uri.now bytes.now) }
        ensures calls { calls_of self.new ≡ calls_of self.old }
        ensures err { OnErr result (self.new ≡ self.old) }
    {
        self.table.set(uri, bytes)
    }
}

impl Files for MemFiles {
    ghost told = { λ m. Some (fin.get (files_in m)) };

    ghost faults = { λ m. (calls_of m).faults };

    fn fetch(&mut self, _alloc: Global, uri: &str) -> Result<Option<Bytes>, FileFault>
        ensures found { IfOk result (Holds (Some (fin.get (files_in self.old))) uri.now) }
        ensures map { Some (fin.get (files_in self.new)) ≡ Some (fin.get (files_in self.old)) }
        ensures faults { CountsFault result (calls_of self.old).faults (calls_of self.new).faults }
        ensures counts { CountsCall result (calls_of self.old) (calls_of self.new) }
    {
        if self.calls.fails_next() {
            self.calls.count_fault();
            return Err(FileFault::Failed);
        }
        let found = self.table.copy_of(uri)?;
        self.calls.count();
        Ok(found)
    }

    fn has(&mut self, _alloc: Global, uri: &str) -> Result<bool, FileFault>
        ensures found { IfOk result (HasFile (Some (fin.get (files_in self.old))) uri.now) }
        ensures map { Some (fin.get (files_in self.new)) ≡ Some (fin.get (files_in self.old)) }
        ensures faults { CountsFault result (calls_of self.old).faults (calls_of self.new).faults }
        ensures counts { CountsCall result (calls_of self.old) (calls_of self.new) }
    {
        if self.calls.fails_next() {
            self.calls.count_fault();
            return Err(FileFault::Failed);
        }
        self.calls.count();
        Ok(self.table.has(uri))
    }

    fn store(&mut self, _alloc: Global, uri: &str, bytes: &Bytes) -> Result<(), FileFault>
        ensures stored { Stores result (Some (fin.get (files_in self.old))) uri.now bytes.now
            (Some (fin.get (files_in self.new))) }
        ensures faults { CountsFault result (calls_of self.old).faults (calls_of self.new).faults }
        ensures ok { OnOk result (files_in self.new ≡ fin.insert (files_in self.old) uri.now bytes.now) }
        ensures err { OnErr result (files_in self.new ≡ files_in self.old) }
        ensures counts { CountsCall result (calls_of self.old) (calls_of self.new) }
    {
        if self.calls.fails_next() {
            self.calls.count_fault();
            return Err(FileFault::Failed);
        }
        self.table.set(uri, bytes.as_slice())?;
        self.calls.count();
        Ok(())
    }
}
