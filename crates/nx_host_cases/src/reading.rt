//! Reading to the end, piece by piece.

use nx_host::files::FileFault;
use nx_host::streams::{READ_TURNS, read_all};
use std::alloc::Global;
use std::io;
use std::io::{Error, ErrorKind, Read};

// Gives `t` twice, is interrupted between, and then ends, or fails with this kind.
#[derive(Drop)]
struct Pieces {
    calls: u64,
    end: Option<ErrorKind>,
}

impl Read for Pieces {
    fn read(&mut self, buf: &mut [u8]) -> io::Result<usize> {
        self.calls = self.calls.saturating_add(1);
        if self.calls == 2 {
            return Err(Error::from(ErrorKind::Interrupted));
        }
        if self.calls <= 3 && !buf.is_empty() {
            buf[0] = b't';
            return Ok(1);
        }
        match self.end {
            None => Ok(0),
            Some(kind) => Err(Error::from(kind)),
        }
    }
}

// What is read to such an end.
fn told(alloc: Global, end: Option<ErrorKind>) -> &'static str {
    match read_all(alloc, &mut Pieces { calls: 0, end }) {
        Ok(bytes) if bytes.as_slice() == b"tt".as_slice() => "tt",
        Ok(_) => "other",
        Err(FileFault::Failed) => "failed",
        Err(FileFault::NoMemory) => "no memory",
    }
}

fn tells(alloc: Global, end: Option<ErrorKind>, wanted: &str) -> bool {
    told(alloc, end) == wanted
}

fn all_told(alloc: Global) -> bool {
    tells(alloc, None, "tt")
        && tells(alloc, Some(ErrorKind::OutOfMemory), "no memory")
        && tells(alloc, Some(ErrorKind::NotFound), "failed")
}

#[test]
fn reads_to_the_end(rt: HostRuntime) {
    assert!(rt; all_told(rt.alloc()));
    assert!(rt; READ_TURNS == 1_099_511_627_776);
}
