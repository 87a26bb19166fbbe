//! Messages are served out of the bytes that came.

ghost use Rattle.std.specs.Prelude.{◌≡◌, ◌≤◌, length, IfErr, IfOk, OnErr};
ghost use Rattle.nx_protocol.specs.Runs.{ServesBytes, ServesNext, Stops};
ghost use Rattle.nx_protocol.specs.Serving.{state};

use crate::documents::Documents;
use crate::serve::serve_content;
use crate::talk::Talk;
use nx_base::memory::NoMemory;
use nx_wire::frame::{Frame, next_frame};
use std::alloc::Global;

/// Why no more messages are served.
#[derive(Clone, Copy, Debug, PartialEq, Eq)]
pub enum Stop {
    /// What is left is no whole message yet.
    Waiting,
    /// It is no message, whatever comes.
    Garbled,
    /// `exit` came.
    Over,
    /// There was no memory for the next one, and none to say so.
    Starved,
}

/// How far messages are served.
#[derive(Clone, Copy, Debug, PartialEq, Eq)]
pub struct Progress {
    /// How many bytes they take.
    pub used: usize,
    pub stop: Stop,
}

/// Serves the message that bytes begin with: how many bytes it takes, or why none is served.
fn serve_next<D: Documents>(
    alloc: Global,
    talk: &mut Talk,
    documents: &mut D,
    bytes: &[u8],
    out: &mut Vec<u8>,
) -> Result<usize, Stop>
    ensures served { IfOk result (λ used. ServesNext (state talk.old (D.held documents.old)) bytes.now used
        (state talk.new (D.held documents.new)) out.old.items out.new.items) }
    ensures stops { IfErr result (Stops (state talk.old (D.held documents.old)) (state talk.new (D.held documents.new)) bytes.now) }
    ensures silent { OnErr result (out.new.items ≡ out.old.items) }
{
    match next_frame(bytes) {
        Frame::Whole { at, len } => {
            let body = &bytes[at..at + len];
            match serve_content(alloc, talk, documents, body, out) {
                Ok(()) => Ok(at + len),
                Err(NoMemory) => Err(Stop::Starved),
            }
        }
        Frame::Partial => Err(Stop::Waiting),
        Frame::Wrong => Err(Stop::Garbled),
    }
}

/// Serves the messages that bytes begin with, one after another, and adds what they are answered with.
pub fn serve_bytes<D: Documents>(
    alloc: Global,
    talk: &mut Talk,
    documents: &mut D,
    bytes: &[u8],
    out: &mut Vec<u8>,
) -> Progress
    ensures serves { ServesBytes (state talk.old (D.held documents.old)) bytes.now result.used result.stop
        (state talk.new (D.held documents.new)) out.old.items out.new.items }
    ensures within { result.used ≤ length bytes.now }
{
    let mut used = 0;
    while !talk.phase.is_over() {
        let (_served, rest) = bytes.split_at(used);
        match serve_next(alloc, talk, documents, rest, out) {
            Ok(len) => used += len,
            Err(stop) => return Progress { used, stop },
        }
    }
    Progress {
        used,
        stop: Stop::Over,
    }
}
