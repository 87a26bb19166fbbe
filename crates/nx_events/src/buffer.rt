//! Bytes in memory that is filled again and again.

ghost use Rattle.std.specs.Prelude.{◌≡◌, ◌==◌, ◌++◌, [], length, IfOk, OnOk, OnErr};
ghost use Rattle.nx_events.specs.Strings.{string_of};

use crate::few_bytes::copy_to_front;
use crate::piece::{push_string, string_of};
use crate::plain::are_plain;
use crate::reading::Reading;
use crate::tag::copy_of;
use nx_base::equal::Equal;
use nx_base::memory::NoMemory;
use nx_base::sequence::{Bytes, TryCopy};
use std::alloc::Global;
use std::marker::Model;

/// Bytes, in memory that serves again for others. To a contract they are the bytes.
#[derive(Drop)]
pub struct Buffer {
    /// The bytes, and behind them what is left of longer ones before: a list that keeps its length is written over by one
    /// copy.
    memory: Vec<u8>,
    len: usize,
}

impl Model for Buffer {
    ghost use Rattle.std.specs.Prelude.{◌≤◌, ℕ, List, length, take};

    ghost Value = { List ℕ };

    ghost view = { λ b. take b.len b.memory.items };

    ghost invariant = { λ b. b.len ≤ length b.memory.items };
}

impl Buffer {
    /// No bytes.
    pub(crate) fn new(alloc: Global) -> Buffer
        ensures { result ≡ [] }
    {
        Buffer {
            memory: Vec::new(alloc),
            len: 0,
        }
    }

    /// The bytes.
    pub(crate) fn as_slice(&self) -> &[u8]
        ensures { result.now ≡ self.now }
    {
        &self.memory[..self.len]
    }

    /// Whether there is no byte.
    pub(crate) fn is_empty(&self) -> bool
        ensures { result ≡ (length self.now == 0) }
    {
        self.len == 0
    }

    // Puts a copy of these bytes, which are more than ever before, in the place of what is there.
    #[inline(never)]
    fn fill_longer(&mut self, bytes: &[u8]) -> Result<(), NoMemory>
        ensures { OnOk result (self.new ≡ bytes.now) }
    {
        self.len = 0;
        self.memory.clear();
        self.memory.extend_from_slice(bytes)?;
        self.len = bytes.len();
        Ok(())
    }

    /// Puts a copy of these bytes in the place of what is there. Where it is refused, anything may be there.
    #[inline(always)]
    pub(crate) fn fill(&mut self, bytes: &[u8]) -> Result<(), NoMemory>
        ensures { OnOk result (self.new ≡ bytes.now) }
    {
        let len = bytes.len();
        if len <= self.memory.len() {
            copy_to_front(self.memory.as_mut_slice(), bytes);
            self.len = len;
            return Ok(());
        }
        self.fill_longer(bytes)
    }

    /// Puts the string of a text in the place of what is there. Where it is refused, anything may be there.
    pub(crate) fn fill_with_string(&mut self, reading: Reading, text: &[u8]) -> Result<(), NoMemory>
        ensures { OnOk result (self.new ≡ string_of reading text.now) }
    {
        // Most texts are one run of plain bytes.
        if are_plain(reading, text) {
            self.fill(text)?;
            return Ok(());
        }
        self.len = 0;
        self.memory.clear();
        push_string(reading, &mut self.memory, text)?;
        self.len = self.memory.len();
        Ok(())
    }

    /// Adds the string of a text at the end.
    pub(crate) fn append_string(&mut self, reading: Reading, text: &[u8]) -> Result<(), NoMemory>
        ensures ok { OnOk result (self.new ≡ self.old ++ string_of reading text.now) }
        ensures err { OnErr result (self.new ≡ self.old) }
    {
        let more = string_of(*self.memory.allocator(), reading, text)?;
        self.memory.truncate(self.len);
        self.memory.extend_from_slice(more.as_slice())?;
        self.len = self.memory.len();
        Ok(())
    }

    /// A copy of the bytes in memory of its own.
    pub(crate) fn to_bytes(&self) -> Result<Bytes, NoMemory>
        ensures { IfOk result (λ copied. copied ≡ self.now) }
    {
        let copied = copy_of(*self.memory.allocator(), self.as_slice())?;
        Ok(copied)
    }
}

impl TryCopy for Buffer {
    fn copy(&self) -> Result<Buffer, NoMemory> {
        Ok(Buffer {
            memory: Vec::from_slice(*self.memory.allocator(), self.as_slice())?,
            len: self.len,
        })
    }
}

impl Equal for Buffer {
    fn equals(&self, other: &Buffer) -> bool {
        self.as_slice() == other.as_slice()
    }
}
