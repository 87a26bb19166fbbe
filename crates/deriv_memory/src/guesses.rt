//! Where texts are looked for first.
//!
//! The names of a document are few, and they mostly differ in one of four bytes, the first and the last among them, or in their length. So
//! these alone are hashed. They lead to a number, which is a guess, and whoever takes it looks at the text that has it: so no clause speaks
//! of guesses, and none of them can be wrong.

use nx_base::memory::NoMemory;
use std::alloc::Global;

/// How many bits tell the kind of a text.
const KIND_BITS: u32 = 12;

/// A number for each of so many kinds of texts.
const KINDS: usize = 1 << KIND_BITS;

/// The numbers of the texts that were kept first, one for each kind; none before any text is put.
#[derive(Drop)]
pub struct Guesses {
    numbers: Vec<u32>,
}

// A guess in half of its memory. What doesn't fit is a wrong guess.
fn narrowed(guess: usize) -> u32 {
    u32::try_from(guess).unwrap_or(0)
}

// The kind of a text with these bytes. Names that are a letter and a number differ in few bits of them: a product spreads these.
#[inline(always)]
fn kind(length: usize, bytes: [u8; 4]) -> usize {
    let number = u32::from_le_bytes(bytes) ^ (length % 32) as u32;
    // 2^32 parted by the golden ratio
    (number.wrapping_mul(0x9E37_79B1) >> (u32::BITS - KIND_BITS)) as usize
}

// The kind of a text; none where it is empty.
#[inline(always)]
fn kind_of(text: &[u8]) -> Option<usize> {
    let first = text.first()?;
    let quarter = text.get(text.len() / 4)?;
    let half = text.get(text.len() / 2)?;
    let last = text.last()?;
    Some(kind(text.len(), [*first, *quarter, *half, *last]))
}

impl Guesses {
    /// No guesses.
    pub fn new(alloc: Global) -> Guesses {
        Guesses {
            numbers: Vec::new(alloc),
        }
    }

    /// The number that a text may have. The empty one, as no namespace, mostly was kept first.
    #[inline(always)]
    pub fn of(&self, text: &[u8]) -> usize {
        match kind_of(text) {
            Some(kind) => self.at(kind),
            None => 0,
        }
    }

    // The guess for a kind.
    #[inline(always)]
    fn at(&self, kind: usize) -> usize {
        match self.numbers.as_slice().get(kind) {
            Some(number) => *number as usize,
            None => 0,
        }
    }

    // From now on this is the guess for a kind that has none.
    fn put_at(&mut self, kind: usize, number: u32) {
        if let Some(guess) = self.numbers.get_mut(kind) {
            if *guess == 0 {
                *guess = number;
            }
        }
    }

    /// From now on this text is looked for at this number, and so is each other of its kind, unless they have a guess: names that come
    /// often mostly come early.
    pub fn put(&mut self, text: &[u8], number: usize) -> Result<(), NoMemory> {
        while self.numbers.len() < KINDS {
            self.numbers.push(0)?;
        }
        if let Some(kind) = kind_of(text) {
            self.put_at(kind, narrowed(number));
        }
        Ok(())
    }
}
