//! Runs of bytes that stand for themselves and are no fault, which are most of a text. They are read at once.

ghost use Rattle.std.specs.Prelude.{◌≡◌, ◌≤◌, true, length};
ghost use Rattle.std.specs.Bool.{OnTrue};
ghost use Rattle.std.specs.List.{prefix_len};
ghost use Rattle.nx_events.specs.ByteClasses.{AllBetween, is_plain_or};
ghost use Rattle.nx_events.specs.Plain.{is_plain, is_plain_line, is_plain_in};

use crate::lanes;
use crate::reading::Reading;

// Whether the byte stands for itself wherever it is read.
fn is_plain(b: u8) -> bool
    ensures { result ≡ is_plain b }
{
    b >= 32 && (b < 128 && (b != b'&' && b != b']'))
}

// Whether the byte stands for itself where white space isn't made spaces.
fn is_plain_line(b: u8) -> bool
    ensures { result ≡ is_plain_line b }
{
    is_plain(b) || b == b'\n'
}

// How many bytes at the front stand for themselves where white space isn't made spaces.
fn plain_lines_len(bytes: &[u8]) -> usize
    ensures value { result ≡ prefix_len is_plain_line bytes.now }
    ensures bound { result ≤ length bytes.now }
{
    bytes.iter().take_while(|b| is_plain_line(**b)).count()
}

/// How many bytes at the front stand for themselves in this reading.
pub(crate) fn plain_len(reading: Reading, bytes: &[u8]) -> usize
    ensures value { result ≡ prefix_len (is_plain_in reading) bytes.now }
    ensures bound { result ≤ length bytes.now }
{
    match reading {
        Reading::Plain => plain_lines_len(bytes),
        Reading::Text => plain_lines_len(bytes),
        Reading::Value => bytes.iter().take_while(|b| is_plain(**b)).count(),
    }
}

// Whether the byte stands for itself wherever it is read, or is this one.
fn is_plain_or(also: u8, b: u8) -> bool
    ensures { result ≡ is_plain_or also b }
{
    is_plain(b) || b == also
}

// Whether all bytes stand for themselves or are this one, byte by byte.
fn are_few_plain_or(also: u8, bytes: &[u8]) -> bool
    ensures { OnTrue result (AllBetween (is_plain_or also) bytes.now 0 (length bytes.now)) }
{
    for b in bytes {
        if !is_plain_or(also, *b) {
            return false;
        }
    }
    true
}

// Whether sixteen bytes or more stand for themselves or are this one. Those of the last load may be of the one before it too.
#[inline(always)]
fn are_many_plain_or(also: u8, bytes: &[u8]) -> bool
    requires { 16 ≤ length bytes.now }
    ensures { OnTrue result (AllBetween (is_plain_or also) bytes.now 0 (length bytes.now)) }
{
    let last = bytes.len() - 16;
    let mut at = 0;
    while at < last {
        if !lanes::are_plain_or::<16>(also, bytes, at) {
            return false;
        }
        at += 16;
    }
    lanes::are_plain_or::<16>(also, bytes, last)
}

// Whether all bytes stand for themselves wherever they are read, or are this one.
#[inline(always)]
fn are_plain_or(also: u8, bytes: &[u8]) -> bool
    ensures { OnTrue result (AllBetween (is_plain_or also) bytes.now 0 (length bytes.now)) }
{
    let len = bytes.len();
    if len >= 16 {
        are_many_plain_or(also, bytes)
    } else if len >= 8 {
        lanes::are_plain_or::<8>(also, bytes, 0) & lanes::are_plain_or::<8>(also, bytes, len - 8)
    } else if len >= 4 {
        lanes::are_plain_or::<4>(also, bytes, 0) & lanes::are_plain_or::<4>(also, bytes, len - 4)
    } else {
        are_few_plain_or(also, bytes)
    }
}

/// Whether all bytes stand for themselves in this reading. Of nearly all tokens they do.
pub(crate) fn are_plain(reading: Reading, bytes: &[u8]) -> bool
    ensures { result ≡ true → prefix_len (is_plain_in reading) bytes.now ≡ length bytes.now }
{
    match reading {
        Reading::Plain => are_plain_or(b'\n', bytes),
        Reading::Text => are_plain_or(b'\n', bytes),
        // a space does so in any case
        Reading::Value => are_plain_or(b' ', bytes),
    }
}
