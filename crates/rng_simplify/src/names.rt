//! Names that are defined, with something for each.

ghost use Rattle.std.specs.Prelude.{◌≡◌, None, is_some, option_copied, OnOk};

use nx_base::memory::NoMemory;
use nx_base::sequence::Bytes;
use rnc_parse::surface::Defined;
use std::alloc::Global;
use std::collections::BTreeMap;

/// What is kept for the start and for names.
#[derive(Drop)]
pub(crate) struct Names<T> {
    alloc: Global,
    start: Option<T>,
    names: BTreeMap<Vec<u8>, T>,
}

impl<T: Drop> Names<T> {
    ghost use Rattle.rnc_parse.specs.declared.surface.Defined.{Defined};
    ghost use Rattle.rnc_parse.specs.declared.surface.Defined.TheVariants as defined;
    ghost use Rattle.rng_simplify.specs.NameTables.{kept_named, kept_for, KeepsOne};

    /// Nothing for any name.
    pub(crate) fn new(alloc: Global) -> Names<T>
        ensures { (name : Defined) → kept_for result name ≡ None }
    {
        Names {
            alloc,
            start: None,
            names: BTreeMap::new(alloc),
        }
    }

    /// What is kept for the name.
    pub(crate) fn get(&self, name: &Defined) -> Option<&T>
        ensures { option_copied result ≡ kept_for self.now name.now }
    {
        match name {
            Defined::Start => self.start.as_ref(),
            Defined::Name(name) => self.named(name),
        }
    }

    /// What is kept for the name of a reference.
    pub(crate) fn named(&self, name: &Bytes) -> Option<&T>
        ensures { option_copied result ≡ kept_named self.now name.now }
    {
        self.names.get(name.as_slice())
    }

    /// Whether something is kept for the name.
    pub(crate) fn has(&self, name: &Defined) -> bool
        ensures { result ≡ is_some (kept_for self.now name.now) }
    {
        self.get(name).is_some()
    }

    /// Keeps this for the name, in the place of what was kept.
    pub(crate) fn add(&mut self, name: &Defined, value: T) -> Result<(), NoMemory>
        ensures { OnOk result (KeepsOne self.old name.now value self.new) }
    {
        match name {
            Defined::Start => self.start = Some(value),
            Defined::Name(name) => self.add_named(name, value)?,
        }
        Ok(())
    }

    /// Keeps this for the name of a reference.
    pub(crate) fn add_named(&mut self, name: &Bytes, value: T) -> Result<(), NoMemory>
        ensures { OnOk result (KeepsOne self.old (defined.Name name.now) value self.new) }
    {
        let key = Vec::from_slice(self.alloc, name.as_slice())?;
        self.names.insert(key, value)?;
        Ok(())
    }
}
