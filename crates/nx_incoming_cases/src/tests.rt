//! What is kept of reads that bring much, little, nothing, or an error.

use crate::pieces::Pieces;
use nx_incoming::incoming::{Incoming, ROOM};
use std::alloc::Global;
use std::test::*;

/// No read fails.
const NEVER: usize = usize::MAX;

#[test]
fn pieces_are_kept_until_they_are_used(rt: HostRuntime) -> Result<(), Fail> {
    let mut incoming = Incoming::new(rt.alloc(), Pieces::new(b"abcdefgh", &[3, 4, 1], NEVER))?;
    assert!(rt; incoming.pending().is_empty());
    assert!(rt; incoming.fill()? == 3);
    assert!(rt; incoming.fill()? == 4);
    assert!(rt; incoming.pending() == b"abcdefg".as_slice());
    take(&mut incoming, 5);
    assert!(rt; incoming.pending() == b"fg".as_slice());
    assert!(rt; incoming.fill()? == 1);
    assert!(rt; incoming.pending() == b"fgh".as_slice());
    assert!(rt; incoming.fill()? == 0);
    assert!(rt; incoming.pending() == b"fgh".as_slice());
    Ok(())
}

/// Lets go of so many bytes, or of all.
fn take(incoming: &mut Incoming<Pieces<'_>>, count: usize) {
    let count = count.min(incoming.pending().len());
    incoming.use_up(count);
}

#[test]
fn a_read_that_fails_loses_nothing(rt: HostRuntime) -> Result<(), Fail> {
    let mut incoming = Incoming::new(rt.alloc(), Pieces::new(b"abcde", &[3, 9, 2], 1))?;
    assert!(rt; incoming.fill()? == 3);
    assert!(rt; incoming.fill().is_err());
    assert!(rt; incoming.pending() == b"abc".as_slice());
    assert!(rt; incoming.fill()? == 2);
    assert!(rt; incoming.pending() == b"abcde".as_slice());
    Ok(())
}

#[test]
fn a_long_text_comes_by_rooms(rt: HostRuntime) -> Result<(), Fail> {
    let text = long_text(rt.alloc())?;
    let mut incoming = Incoming::new(rt.alloc(), text.as_slice())?;
    assert!(rt; incoming.fill()? == ROOM);
    assert!(rt; incoming.fill()? == text.len() - ROOM);
    assert!(rt; incoming.pending() == text.as_slice());
    assert!(rt; incoming.fill()? == 0);
    Ok(())
}

/// 100,000 bytes, no two next to each other the same.
fn long_text(alloc: Global) -> Result<Vec<u8>, Fail> {
    let mut text = Vec::new(alloc);
    for i in 0..100_000u32 {
        text.push((i % 251) as u8)?;
    }
    Ok(text)
}
