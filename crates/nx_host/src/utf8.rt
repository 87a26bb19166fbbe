//! Bytes that are text, and bytes that may be none.

ghost use Rattle.std.specs.Prelude.{◌≡◌, IsUtf8};
ghost use Rattle.std.specs.Int.{is_in_range};
ghost use Rattle.nx_host.specs.Utf8.{StopsBeingText};

use nx_base::sequence::Bytes;
use std::str;

/// The text that these bytes are.
pub fn text_of(bytes: &Bytes) -> &str
    requires { IsUtf8 bytes.now }
    ensures { result.now ≡ bytes.now }
{
    match str::from_utf8(bytes.as_slice()) {
        Ok(text) => text,
        Err(_) => unreachable!(),
    }
}

/// The first offset at which the bytes stop being the front of a UTF-8 text (RFC 3629): the greatest
/// number of them that others can follow with which they are one. It is the length where all of them are.
pub fn text_front(bytes: &[u8]) -> usize
    ensures { StopsBeingText bytes.now result }
{
    let Err(error) = str::from_utf8(bytes) else {
        return bytes.len();
    };
    let Some(wrong) = error.error_len() else {
        return bytes.len();
    };
    let at = error.valid_up_to();
    // A byte with which no character begins is wrong itself; behind another it is the next that is wrong.
    if begins_char(bytes[at]) {
        at + wrong
    } else {
        at
    }
}

/// Whether a character of two bytes or more can begin with this byte.
fn begins_char(byte: u8) -> bool
    ensures { result ≡ is_in_range 0xC2 0xF4 byte }
{
    (0xC2..=0xF4).contains(&byte)
}
