//! Bytes of names, in the value itself where they are few.

ghost use Rattle.std.specs.Prelude.{◌≡◌, IfOk, OnOk, OnErr};
ghost use Rattle.nx_events.specs.NameBytes.{bytes_of};

use crate::short_bytes::{SHORT, ShortBytes};
use crate::tag::copy_of;
use nx_base::equal::Equal;
use nx_base::memory::NoMemory;
use nx_base::sequence::{Bytes, TryCopy};
use std::alloc::Global;
use std::marker::Model;
use std::rc::RcSlice;

/// Where the bytes of a name stand.
#[derive(Drop)]
pub(crate) enum Held {
    /// In the value itself. Few names are longer.
    Here(ShortBytes),
    /// In one place for all copies.
    Shared(RcSlice<u8>),
}

/// The bytes of a name, in three words. Where they are few, as most names' are, they stand in the value itself; otherwise copies share
/// them. So a copy of the name asks for no memory. To a contract it is the bytes.
#[derive(Drop)]
pub struct NameBytes {
    alloc: Global,
    held: Held,
}

impl Model for NameBytes {
    ghost use Rattle.std.specs.Prelude.{ℕ, List};
    ghost use Rattle.nx_events.specs.NameBytes.{bytes_of};

    ghost Value = { List ℕ };

    ghost view = { λ name. bytes_of name.held };
}

// A copy of many bytes. Few names have so many, so this stays out of the way of the others.
#[inline(never)]
fn held_long(alloc: Global, bytes: &[u8]) -> Result<Held, NoMemory>
    ensures { IfOk result (λ held. bytes_of held ≡ bytes.now) }
{
    Ok(Held::Shared(RcSlice::from_slice(alloc, bytes)?))
}

// A copy of these bytes, where they have room.
fn copy_held(alloc: Global, bytes: &[u8]) -> Result<Held, NoMemory>
    ensures { IfOk result (λ held. bytes_of held ≡ bytes.now) }
{
    if let Some(short) = ShortBytes::of(bytes) {
        return Ok(Held::Here(short));
    }
    held_long(alloc, bytes)
}

impl NameBytes {
    /// A copy of these bytes.
    #[inline(always)]
    pub fn of(alloc: Global, bytes: &[u8]) -> Result<NameBytes, NoMemory>
        ensures { IfOk result (λ name. name ≡ bytes.now) }
    {
        Ok(NameBytes {
            alloc,
            held: copy_held(alloc, bytes)?,
        })
    }

    /// The bytes.
    pub fn as_slice(&self) -> &[u8]
        ensures { result.now ≡ self.now }
    {
        match &self.held {
            Held::Here(short) => short.as_slice(),
            Held::Shared(shared) => shared.as_slice(),
        }
    }

    /// Puts a copy of these bytes in the place of what is there, or leaves that.
    pub(crate) fn fill(&mut self, bytes: &[u8]) -> Result<(), NoMemory>
        ensures ok { OnOk result (self.new ≡ bytes.now) }
        ensures err { OnErr result (self.new ≡ self.old) }
    {
        if let Held::Here(short) = &mut self.held {
            if bytes.len() <= SHORT {
                short.fill(bytes);
                return Ok(());
            }
        }
        self.held = copy_held(self.alloc, bytes)?;
        Ok(())
    }

    /// A copy of the bytes as a list.
    pub fn to_bytes(&self) -> Result<Bytes, NoMemory>
        ensures { IfOk result (λ copied. copied ≡ self.now) }
    {
        let copied = copy_of(self.alloc, self.as_slice())?;
        Ok(copied)
    }
}

impl TryCopy for NameBytes {
    // States are copied by the ten thousand, and their names are most of them.
    #[inline(always)]
    fn copy(&self) -> Result<NameBytes, NoMemory> {
        match &self.held {
            Held::Here(short) => Ok(NameBytes {
                alloc: self.alloc,
                held: Held::Here(short.duplicate()),
            }),
            Held::Shared(shared) => Ok(NameBytes {
                alloc: self.alloc,
                held: Held::Shared(shared.clone()?),
            }),
        }
    }
}

impl Equal for NameBytes {
    fn equals(&self, other: &NameBytes) -> bool {
        self.as_slice() == other.as_slice()
    }
}
