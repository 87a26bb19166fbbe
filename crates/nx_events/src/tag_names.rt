//! Names that came before in a tag.

ghost use Rattle.std.specs.Prelude.{◌≡◌, ◌&&◌, ◌||◌, false, ℕ, List, IfOk, OnOk};
ghost use Rattle.std.specs.Str.{bytes_eq};
ghost use Rattle.nx_events.specs.SeenNames.{has_pair};

use nx_base::memory::NoMemory;
use std::alloc::Global;
use std::collections::BTreeSet;

/// A set of names, each in two parts: a namespace and a local part, or nothing and a written name. In a tag with
/// many attributes it is asked once for each.
#[derive(Drop)]
pub struct TagNames {
    pub(crate) names: BTreeSet<(Vec<u8>, Vec<u8>)>,
}

impl TagNames {
    /// No names.
    pub(crate) fn new(alloc: Global) -> TagNames
        ensures { (first second : List ℕ) → has_pair result.names.keys first second ≡ false }
    {
        TagNames {
            names: BTreeSet::new(alloc),
        }
    }

    /// Adds a name, and says whether it was there.
    pub(crate) fn insert(
        &mut self,
        alloc: Global,
        first: &[u8],
        second: &[u8],
    ) -> Result<bool, NoMemory>
        ensures came { IfOk result (λ came. came ≡ has_pair self.old.names.keys first.now second.now) }
        ensures names { OnOk result ((a b : List ℕ) → has_pair self.new.names.keys a b
            ≡ (has_pair self.old.names.keys a b || (bytes_eq a first.now && bytes_eq b second.now))) }
    {
        let name = (
            Vec::from_slice(alloc, first)?,
            Vec::from_slice(alloc, second)?,
        );
        let added = self.names.insert(name)?;
        Ok(!added)
    }
}
