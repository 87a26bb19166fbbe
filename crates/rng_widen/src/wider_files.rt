//! Files whose texts are handed on with types that aren't held put to wider ones.

ghost use Rattle.std.specs.Prelude.{◌≡◌, ◌++◌, [], Option, IfOk, OnOk, OnErr};
ghost use Rattle.nx_host.specs.Files.{FileMap, Holds, HasFile, CountsFault};
ghost use Rattle.rng_widen.specs.Handed.{handed, handed_as, widenings, wider_files};
ghost use Rattle.rng_widen.specs.Notes.{noted_if, noted_as, NotesFetched, HandsOn, AreNoted};

use crate::noted::{Noted, Notes};
use crate::put::put_all;
use crate::widen::widenings;
use nx_base::memory::NoMemory;
use nx_base::sequence::Bytes;
use nx_host::files::{FileFault, Files};
use std::alloc::Global;

/// Files that hand on the schemas that these hold, with types that aren't held put to wider ones. Who wants a text as it is, as that of a
/// document, asks the files themselves. Nothing is stored by way of this.
#[derive(Drop)]
pub struct WiderFiles<F> {
    pub files: F,
    /// Whether texts are handed on as they are, and nothing is noted.
    pub strict: bool,
    noted: Notes,
}

impl<F> WiderFiles<F> {
    /// These files, of which none was fetched yet.
    pub fn new(alloc: Global, files: F, strict: bool) -> WiderFiles<F>
        ensures files { result.files ≡ files }
        ensures strict { result.strict ≡ strict }
        ensures noted { result.noted ≡ [] }
    {
        WiderFiles {
            files,
            strict,
            noted: Notes::new(alloc),
        }
    }

    /// The files in whose texts something was put to something wider since this was asked last, in the order in which they were fetched:
    /// one that was fetched twice is there twice.
    pub fn take_noted(&mut self, alloc: Global) -> Vec<Noted>
        ensures all { result.items ≡ self.old.noted }
        ensures right { AreNoted result.items }
        ensures none { self.new.noted ≡ [] }
        ensures files { self.new.files ≡ self.old.files }
        ensures strict { self.new.strict ≡ self.old.strict }
    {
        self.noted.take(alloc)
    }

    /// What is handed on in place of what was found under the URI.
    #[tactic(auto, using(crate::proofs::Handing::holds_strictly, crate::proofs::Handing::holds_some, crate::proofs::Handing::holds_none))]
    fn hand_found(
        &mut self,
        alloc: Global,
        uri: &str,
        found: Option<Bytes>,
    ) -> Result<Option<Bytes>, NoMemory>
        ensures found { (told : Option FileMap) → Holds told uri.now found → IfOk result (Holds (wider_files self.old.strict told) uri.now) }
        ensures handed { IfOk result (λ whole. whole ≡ handed_as self.old.strict found) }
        ensures noted { OnOk result (self.new.noted ≡ self.old.noted ++ noted_as self.old.strict uri.now found) }
        ensures unnoted { OnErr result (self.new.noted ≡ self.old.noted) }
        ensures files { self.new.files ≡ self.old.files }
        ensures strict { self.new.strict ≡ self.old.strict }
    {
        if self.strict {
            return Ok(found);
        }
        match found {
            Some(bytes) => {
                let whole = self.hand_on(alloc, uri, bytes)?;
                Ok(Some(whole))
            }
            None => Ok(None),
        }
    }

    /// What is handed on in place of these bytes of the file under the URI.
    #[tactic(auto, unfolding(crate::specs::Handed::handed))]
    fn hand_on(&mut self, alloc: Global, uri: &str, bytes: Bytes) -> Result<Bytes, NoMemory>
        ensures handed { IfOk result (λ whole. whole ≡ handed bytes) }
        ensures noted { OnOk result (self.new.noted ≡ self.old.noted ++ noted_if uri.now bytes (widenings bytes)) }
        ensures unnoted { OnErr result (self.new.noted ≡ self.old.noted) }
        ensures files { self.new.files ≡ self.old.files }
        ensures strict { self.new.strict ≡ self.old.strict }
    {
        let widenings = widenings(alloc, bytes.as_slice())?;
        let whole = put_all(alloc, bytes.as_slice(), widenings.as_slice())?;
        self.noted.add(alloc, uri, bytes, widenings)?;
        Ok(whole)
    }
}

impl<F: Files> Files for WiderFiles<F> {
    ghost told = { λ w. wider_files w.strict (F.told w.files) };

    ghost faults = { λ w. F.faults w.files };

    fn fetch(&mut self, alloc: Global, uri: &str) -> Result<Option<Bytes>, FileFault>
        ensures found { IfOk result (Holds (wider_files self.old.strict (F.told self.old.files)) uri.now) }
        ensures map { wider_files self.new.strict (F.told self.new.files) ≡ wider_files self.old.strict (F.told self.old.files) }
        ensures faults { CountsFault result (F.faults self.old.files) (F.faults self.new.files) }
        ensures files { F.told self.new.files ≡ F.told self.old.files }
        ensures strict { self.new.strict ≡ self.old.strict }
        ensures noted { OnOk result (NotesFetched self.old.strict (F.told self.old.files) uri.now self.old.noted self.new.noted) }
        ensures handed { IfOk result (λ whole. HandsOn self.old.strict (F.told self.old.files) uri.now whole self.old.noted self.new.noted) }
        ensures unnoted { OnErr result (self.new.noted ≡ self.old.noted) }
    {
        let found = self.files.fetch(alloc, uri)?;
        let whole = self.hand_found(alloc, uri, found)?;
        Ok(whole)
    }

    fn has(&mut self, alloc: Global, uri: &str) -> Result<bool, FileFault>
        ensures found { IfOk result (HasFile (wider_files self.old.strict (F.told self.old.files)) uri.now) }
        ensures map { wider_files self.new.strict (F.told self.new.files) ≡ wider_files self.old.strict (F.told self.old.files) }
        ensures faults { CountsFault result (F.faults self.old.files) (F.faults self.new.files) }
    {
        self.files.has(alloc, uri)
    }

    fn store(&mut self, _alloc: Global, _uri: &str, _bytes: &Bytes) -> Result<(), FileFault> {
        Err(FileFault::NoMemory)
    }
}
