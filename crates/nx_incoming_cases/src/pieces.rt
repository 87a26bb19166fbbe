//! A reader whose reads bring pieces of chosen lengths.

ghost use Rattle.std.specs.Prelude.{◌≤◌, length};

use std::io::{Error, ErrorKind, Read, Result};

/// A text that comes in pieces, as writes to a pipe do: each read brings as many bytes as its cut says, or as there is room for.
#[derive(Drop)]
pub struct Pieces<'a> {
    text: &'a [u8],
    at: usize,
    /// How many bytes each read brings.
    cuts: &'a [usize],
    reads: usize,
    /// Of which read, counted from 0, the answer is an error.
    fails: usize,
}

impl<'a> Pieces<'a> {
    pub fn new(text: &'a [u8], cuts: &'a [usize], fails: usize) -> Pieces<'a> {
        Pieces {
            text,
            at: 0,
            cuts,
            reads: 0,
            fails,
        }
    }

    /// Puts the next so many bytes of the text into the room, and says how many these are.
    fn bring(&mut self, wanted: usize, room: &mut [u8]) -> usize
        ensures bound { result ≤ length room.new }
    {
        let end = self.at.saturating_add(wanted);
        let Some(piece) = self.text.get(self.at..end) else {
            return 0;
        };
        let count = piece.len().min(room.len());
        room[..count].copy_from_slice(&piece[..count]);
        self.at = self.at.saturating_add(count);
        count
    }
}

impl Read for Pieces<'_> {
    fn read(&mut self, room: &mut [u8]) -> Result<usize> {
        let number = self.reads;
        self.reads = number.saturating_add(1);
        if number == self.fails {
            return Err(Error::from(ErrorKind::BrokenPipe));
        }
        let wanted = self.cuts.get(number).copied().unwrap_or(0);
        let count = self.bring(wanted, room);
        Ok(count)
    }
}
