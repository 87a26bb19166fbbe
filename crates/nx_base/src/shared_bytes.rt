//! Bytes that copies share.

ghost use Rattle.std.specs.Prelude.{◌≡◌, [], IfOk};

use crate::memory::NoMemory;
use crate::sequence::{Bytes, TryCopy};
use std::marker::Model;
use std::rc::Rc;

/// Bytes in one place for all copies, so that a copy asks for no memory. To a contract it is the list of them.
#[derive(Drop)]
pub struct SharedBytes {
    /// None where there are none.
    held: Option<Rc<Bytes>>,
}

impl Model for SharedBytes {
    ghost use Rattle.std.specs.Prelude.{ℕ, List, [], option_map, unwrap_or};

    ghost Value = { List ℕ };

    ghost view = { λ shared. unwrap_or (option_map (λ place. place.value) shared.held) [] };
}

impl SharedBytes {
    /// No bytes.
    pub fn new() -> SharedBytes
        ensures { result ≡ [] }
    {
        SharedBytes { held: None }
    }

    /// These bytes.
    pub fn of(bytes: Bytes) -> Result<SharedBytes, NoMemory>
        ensures { IfOk result (λ shared. shared ≡ bytes) }
    {
        if bytes.is_empty() {
            return Ok(SharedBytes::new());
        }
        let alloc = *bytes.items.allocator();
        Ok(SharedBytes {
            held: Some(Rc::new(alloc, bytes)?),
        })
    }

    /// The bytes, in order.
    pub fn as_slice(&self) -> &[u8]
        ensures { result.now ≡ self.now }
    {
        match &self.held {
            Some(bytes) => bytes.as_slice(),
            None => &[],
        }
    }
}

impl TryCopy for SharedBytes {
    fn copy(&self) -> Result<SharedBytes, NoMemory> {
        let held = match &self.held {
            Some(bytes) => Some(bytes.clone()?),
            None => None,
        };
        Ok(SharedBytes { held })
    }
}
