//! Files in memory, by their URIs.

ghost use Rattle.std.specs.Prelude.{◌≡◌, IfOk, OnOk, OnErr};
ghost use Rattle.std.specs.FinMap as fin;

use nx_base::memory::NoMemory;
use nx_base::sequence::{Bytes, TryCopy};
use std::alloc::Global;
use std::collections::BTreeMap;
use std::marker::Model;

/// Bytes by URI texts. To a contract it is the finite map from the texts to the bytes.
#[derive(Drop)]
pub(crate) struct FileTable {
    alloc: Global,
    files: BTreeMap<String, Bytes>,
}

impl Model for FileTable {
    ghost use Rattle.std.specs.FinMap as fin;
    ghost use Rattle.nx_host.specs.Table.{Table, table_code, text_entries};

    ghost Value = { Table };

    ghost coded = { table_code };

    ghost view = { λ t. fin.from_entries (text_entries t.files.entries) };
}

impl FileTable {
    /// No files.
    pub(crate) fn new(alloc: Global) -> FileTable
        ensures { result ≡ fin.empty }
    {
        FileTable {
            alloc,
            files: BTreeMap::new(alloc),
        }
    }

    /// A copy of the bytes under the text, or none.
    pub(crate) fn copy_of(&self, uri: &str) -> Result<Option<Bytes>, NoMemory>
        ensures { IfOk result (λ found. found ≡ fin.get self.now uri.now) }
    {
        match self.files.get(uri) {
            Some(bytes) => Ok(Some(bytes.copy()?)),
            None => Ok(None),
        }
    }

    /// Whether bytes are under the text.
    pub(crate) fn has(&self, uri: &str) -> bool
        ensures { result ≡ fin.contains_key self.now uri.now }
    {
        self.files.contains_key(uri)
    }

    /// Puts bytes under the text, in place of those that were there.
    pub(crate) fn set(&mut self, uri: &str, bytes: &[u8]) -> Result<(), NoMemory>
        ensures ok { OnOk result (self.new ≡ fin.insert self.old uri.now bytes.now) }
        ensures err { OnErr result (self.new ≡ self.old) }
    {
        let key = String::from_str(self.alloc, uri)?;
        let bytes = Bytes::from_vec(Vec::from_slice(self.alloc, bytes)?);
        self.files.insert(key, bytes)?;
        Ok(())
    }
}
