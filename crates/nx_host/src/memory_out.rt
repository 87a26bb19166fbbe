//! Output to memory.

ghost use Rattle.std.specs.Prelude.{◌≡◌, [], Some, IfOk};
ghost use Rattle.nx_host.specs.Calls.{CountsWrite, no_calls};
ghost use Rattle.nx_host.specs.MemOut.{bytes_in, writes_of, AppendsPart};
ghost use Rattle.nx_host.specs.Out.{CountsOutFault, Writes};

use crate::calls::Calls;
use crate::out::{Out, OutFault};
use nx_base::memory::NoMemory;
use std::alloc::Global;
use std::marker::Model;

/// An output of which no write fails. To a contract it is the list of the bytes written.
#[derive(Drop)]
pub struct SureOut {
    written: Vec<u8>,
}

impl Model for SureOut {
    ghost use Rattle.std.specs.Prelude.{ℕ, List};

    ghost Value = { List ℕ };

    ghost view = { λ o. o.written.items };
}

impl SureOut {
    /// Nothing written yet.
    pub fn new(alloc: Global) -> SureOut
        ensures { result ≡ [] }
    {
        SureOut {
            written: Vec::new(alloc),
        }
    }

    /// The bytes written so far.
    pub fn bytes(&self) -> &[u8]
        ensures { result.now ≡ self.now }
    {
        self.written.as_slice()
    }
}

impl Out for SureOut {
    ghost told = { λ o. Some o };

    ghost faults = { λ _. 0 };

    fn write(&mut self, _alloc: Global, bytes: &[u8]) -> Result<(), OutFault> {
        self.written.extend_from_slice(bytes)?;
        Ok(())
    }
}

/// An output of which the writes with chosen numbers fail. They are counted from 1, but for those that
/// answer `NoMemory`. A write that fails writes half of its bytes, rounded down.
#[derive(Drop)]
pub struct MemOut {
    written: Vec<u8>,
    writes: Calls,
}

impl MemOut {
    /// Nothing written, and no write made yet. Those with the numbers in `fail` are to fail.
    pub fn new(alloc: Global, fail: &[u64]) -> Result<MemOut, NoMemory>
        ensures bytes { IfOk result (λ made. bytes_in made ≡ []) }
        ensures writes { IfOk result (λ made. writes_of made ≡ no_calls fail.now) }
    {
        Ok(MemOut {
            written: Vec::new(alloc),
            writes: Calls::new(alloc, fail)?,
        })
    }

    /// The bytes written so far.
    pub fn bytes(&self) -> &[u8]
        ensures { result.now ≡ bytes_in self.now }
    {
        self.written.as_slice()
    }
}

impl Out for MemOut {
    ghost told = { λ m. Some (bytes_in m) };

    ghost faults = { λ m. (writes_of m).faults };

    fn write(&mut self, _alloc: Global, bytes: &[u8]) -> Result<(), OutFault>
        ensures written { Writes result (Some (bytes_in self.old)) bytes.now (Some (bytes_in self.new)) }
        ensures faults { CountsOutFault result (writes_of self.old).faults (writes_of self.new).faults }
        ensures part { AppendsPart result (bytes_in self.old) bytes.now (bytes_in self.new) }
        ensures counts { CountsWrite result (writes_of self.old) (writes_of self.new) }
    {
        if self.writes.fails_next() {
            self.written.extend_from_slice(&bytes[..bytes.len() / 2])?;
            self.writes.count_fault();
            return Err(OutFault::Failed);
        }
        self.written.extend_from_slice(bytes)?;
        self.writes.count();
        Ok(())
    }
}
