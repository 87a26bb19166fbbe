//! Bytes of a reader, kept until they are used.

ghost use Rattle.std.specs.Prelude.{◌≡◌, ◌≤◌, [], drop, vec_len, IfOk, IfSome, OnErr};
ghost use Rattle.std.specs.Io.KnownBytes.{Keeps};
ghost use Rattle.std.specs.Io.Buffered.{reader_remaining};
ghost use Rattle.nx_incoming.specs.Incoming.{coming, Takes};

use std::alloc::Global;
use std::io::{self, BufRead, BufReader, Read};

/// How many bytes one read asks for.
pub const ROOM: usize = 65536;

/// A reader, and what was taken from it and isn't used yet.
#[derive(Drop)]
pub struct Incoming<R> {
    reader: BufReader<R>,
    pending: Vec<u8>,
}

impl<R: Read + Drop> Incoming<R> {
    /// Nothing taken yet.
    pub fn new(alloc: Global, reader: R) -> io::Result<Incoming<R>>
        ensures coming { IfOk result (λ made. Keeps (R.remaining reader) (coming R.remaining made)) }
        ensures none { IfOk result (λ made. made.pending.items ≡ []) }
    {
        let reader = BufReader::with_capacity(alloc, ROOM, reader)?;
        Ok(Incoming {
            reader,
            pending: Vec::new(alloc),
        })
    }

    /// What was taken and isn't used yet.
    pub fn pending(&self) -> &[u8]
        ensures { result.now ≡ self.now.pending.items }
    {
        self.pending.as_slice()
    }

    /// Waits until something is there, and takes it: how many bytes that are, and none exactly at the end. Where the read fails, or
    /// there is no memory, what is to come is still to come.
    pub fn fill(&mut self) -> io::Result<usize>
        ensures kept { Keeps (coming R.remaining self.old) (coming R.remaining self.new) }
        ensures taken { IfOk result (λ count. Takes self.old.pending.items count self.new.pending.items) }
        ensures none { OnErr result (self.new.pending.items ≡ self.old.pending.items) }
        ensures end { IfSome (reader_remaining R.remaining self.old.reader) (λ left. IfOk result (λ count. count ≡ 0 → left ≡ [])) }
    {
        let bytes = self.reader.fill_buf()?;
        self.pending.extend_from_slice(bytes)?;
        let count = bytes.len();
        self.reader.consume(count);
        Ok(count)
    }

    /// Lets go of so many bytes that were used, the first ones.
    pub fn use_up(&mut self, count: usize)
        requires { count ≤ vec_len self.old.pending }
        ensures pending { self.new.pending.items ≡ drop count self.old.pending.items }
        ensures reader { self.new.reader ≡ self.old.reader }
    {
        let left = self.pending.len() - count;
        self.pending.rotate_left(count);
        self.pending.truncate(left);
    }
}
