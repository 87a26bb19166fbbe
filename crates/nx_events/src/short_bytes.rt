//! Few bytes, in the value itself.

ghost use Rattle.std.specs.Prelude.{◌≡◌, ◌≤◌, [], length, IfSome};
ghost use Rattle.nx_events.specs.declared.short_bytes.TheConstants.{SHORT};

use crate::few_bytes::copy_to_front;
use std::marker::Model;

/// So many bytes at most stand in the value itself.
pub(crate) const SHORT: usize = 16;

/// Few bytes, in the value itself. To a contract they are the bytes.
#[derive(Drop)]
pub struct ShortBytes {
    // Half a word and in front: with the tag that tells where a name stands it fills one word, and the bytes begin at the next.
    len: u32,
    /// The bytes, and behind them anything.
    memory: [u8; SHORT],
}

impl Model for ShortBytes {
    ghost use Rattle.std.specs.Prelude.{◌≤◌, ℕ, List, length, take};

    ghost Value = { List ℕ };

    ghost view = { λ b. take b.len b.memory };

    ghost invariant = { λ b. b.len ≤ length b.memory };
}

impl ShortBytes {
    /// No bytes.
    pub(crate) fn new() -> ShortBytes
        ensures { result ≡ [] }
    {
        ShortBytes {
            len: 0,
            memory: [0; SHORT],
        }
    }

    /// These bytes; none where they are too many.
    #[inline(always)]
    pub fn of(bytes: &[u8]) -> Option<ShortBytes>
        ensures { IfSome result (λ short. short ≡ bytes.now) }
    {
        if bytes.len() > SHORT {
            return None;
        }
        let mut short = ShortBytes::new();
        short.fill(bytes);
        Some(short)
    }

    /// The bytes.
    pub fn as_slice(&self) -> &[u8]
        ensures { result.now ≡ self.now }
    {
        &self.memory[..self.len as usize]
    }

    /// Puts a copy of these bytes in the place of what is there.
    pub(crate) fn fill(&mut self, bytes: &[u8])
        requires { length bytes.now ≤ SHORT }
        ensures { self.new ≡ bytes.now }
    {
        copy_to_front(&mut self.memory, bytes);
        self.len = bytes.len() as u32;
    }

    /// The same bytes.
    #[inline(always)]
    pub fn duplicate(&self) -> ShortBytes
        ensures { result ≡ self.now }
    {
        ShortBytes {
            len: self.len,
            memory: self.memory,
        }
    }
}
