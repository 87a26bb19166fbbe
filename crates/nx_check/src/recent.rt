//! Files that know which of them was fetched last.

ghost use Rattle.std.specs.Prelude.{◌≡◌};

use nx_base::sequence::Bytes;
use nx_host::files::{FileFault, Files};
use std::alloc::Global;

/// Files, handed on, and the URI that was fetched last, where there was memory to note it.
#[derive(Drop)]
pub struct Recent<F> {
    pub files: F,
    last: Option<String>,
}

impl<F> Recent<F> {
    /// These files, of which none was fetched yet.
    pub fn new(files: F) -> Recent<F>
        ensures { result.files ≡ files }
    {
        Recent { files, last: None }
    }

    /// The URI that was fetched last.
    pub(crate) fn last(&self) -> Option<&str> {
        match &self.last {
            Some(uri) => Some(uri.as_str()),
            None => None,
        }
    }
}

impl<F: Files> Files for Recent<F> {
    ghost told = { λ r. F.told r.files };

    ghost faults = { λ r. F.faults r.files };

    fn fetch(&mut self, alloc: Global, uri: &str) -> Result<Option<Bytes>, FileFault> {
        self.last = String::from_str(alloc, uri).ok();
        self.files.fetch(alloc, uri)
    }

    fn has(&mut self, alloc: Global, uri: &str) -> Result<bool, FileFault> {
        self.files.has(alloc, uri)
    }

    fn store(&mut self, alloc: Global, uri: &str, bytes: &Bytes) -> Result<(), FileFault> {
        self.files.store(alloc, uri, bytes)
    }
}
