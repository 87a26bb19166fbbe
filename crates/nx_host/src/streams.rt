//! Reading and writing to the end, in a bounded number of turns.

ghost use Rattle.std.specs.Prelude.{◌≡◌, IfOk, IfSome, OnOk};
ghost use Rattle.std.specs.Io.KnownBytes.{Appends};

use crate::files::FileFault;
use std::alloc::Global;
use std::io;
use std::io::{ErrorKind, Read, Write};

/// After how many turns a loop of reads or writes gives up.
pub const READ_TURNS: u64 = 1 << 40;

/// How many bytes one read asks for.
const PIECE: usize = 8192;

/// All that is left to read. A read that is interrupted is tried again.
pub fn read_all<R: Read>(alloc: Global, reader: &mut R) -> Result<Vec<u8>, FileFault>
    ensures { IfOk result (λ read. IfSome (R.remaining reader.old) (λ left. read.items ≡ left)) }
{
    let mut read = Vec::new(alloc);
    let mut piece = [0u8; PIECE];
    for _ in 0..READ_TURNS {
        match reader.read(&mut piece) {
            Ok(0) => return Ok(read),
            Ok(count) => read.extend_from_slice(&piece[..count])?,
            Err(error) => {
                if error.kind() != ErrorKind::Interrupted {
                    return Err(error.into());
                }
            }
        }
    }
    Err(FileFault::Failed)
}

/// Writes the bytes whole. A write that is interrupted is tried again, and one that takes nothing is an
/// error.
pub(crate) fn write_whole<W: Write>(writer: &mut W, bytes: &[u8]) -> io::Result<()>
    ensures { OnOk result (Appends (W.contents writer.old) (W.contents writer.new) bytes.now) }
{
    let mut rest = bytes;
    for _ in 0..READ_TURNS {
        if rest.is_empty() {
            return Ok(());
        }
        match writer.write(rest) {
            Ok(0) => return Err(io::Error::from(ErrorKind::WriteZero)),
            Ok(count) => rest = &rest[count..],
            Err(error) => {
                if error.kind() != ErrorKind::Interrupted {
                    return Err(error);
                }
            }
        }
    }
    Err(io::Error::from(ErrorKind::TimedOut))
}
