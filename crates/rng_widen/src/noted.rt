//! What was put to something wider in the files that were fetched.

ghost use Rattle.std.specs.Prelude.{◌≡◌, ◌++◌, [], IfOk, OnOk, OnErr};
ghost use Rattle.rng_widen.specs.Handed.{widenings};
ghost use Rattle.rng_widen.specs.Notes.{noted_of, noted_if, AreNoted};

use crate::widening::Widening;
use nx_base::memory::NoMemory;
use nx_base::sequence::{Bytes, Sequence};
use std::alloc::Global;
use std::marker::Model;
use std::mem;

/// A file in whose text something was put to something wider: its URI, its bytes as they are, and what was.
#[derive(Drop)]
pub struct Noted {
    pub uri: Bytes,
    pub bytes: Bytes,
    pub widenings: Sequence<Widening>,
}

/// The note of what was put to something wider in the bytes under the URI.
fn note_of(alloc: Global, uri: &str, bytes: Bytes, found: Vec<Widening>) -> Result<Noted, NoMemory>
    ensures { IfOk result (λ one. one ≡ noted_of uri.now bytes found.items) }
{
    let uri = Bytes::from_vec(Vec::from_slice(alloc, uri.as_bytes())?);
    Ok(Noted {
        uri,
        bytes,
        widenings: Sequence::from_vec(found),
    })
}

/// Notes of files, in the order in which they were fetched.
#[derive(Drop)]
pub struct Notes {
    items: Vec<Noted>,
}

impl Model for Notes {
    ghost use Rattle.std.specs.Prelude.{List};
    ghost use Rattle.rng_widen.specs.declared.noted.Noted.{Noted};
    ghost use Rattle.rng_widen.specs.Notes.{AreNoted};

    ghost Value = { List Noted };

    ghost view = { λ n. n.items.items };

    ghost invariant = { λ n. AreNoted n.items.items };
}

impl Notes {
    /// No notes.
    pub(crate) fn new(alloc: Global) -> Notes
        ensures { result ≡ [] }
    {
        Notes {
            items: Vec::new(alloc),
        }
    }

    /// Adds a note of what was put to something wider in the bytes under the URI, if that is something.
    pub(crate) fn add(
        &mut self,
        alloc: Global,
        uri: &str,
        bytes: Bytes,
        found: Vec<Widening>,
    ) -> Result<(), NoMemory>
        requires { found.items ≡ widenings bytes }
        ensures ok { OnOk result (self.new ≡ self.old ++ noted_if uri.now bytes found.items) }
        ensures err { OnErr result (self.new ≡ self.old) }
    {
        if found.as_slice().is_empty() {
            return Ok(());
        }
        let one = note_of(alloc, uri, bytes, found)?;
        self.items.push(one)?;
        Ok(())
    }

    /// Takes all notes.
    pub(crate) fn take(&mut self, alloc: Global) -> Vec<Noted>
        ensures all { result.items ≡ self.old }
        ensures right { AreNoted result.items }
        ensures none { self.new ≡ [] }
    {
        mem::replace(&mut self.items, Vec::new(alloc))
    }
}
