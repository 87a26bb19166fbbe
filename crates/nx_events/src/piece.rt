//! Texts in pieces, and the strings that they stand for.

ghost use Rattle.std.specs.Prelude.{◌≡◌, ◌<◌, ◌≤◌, ◌++◌, [], length, take, OnOk, IfOk};
ghost use Rattle.nx_events.specs.Strings.{line_piece_len, text_piece_len, piece_len, line_string_of, text_string_of, value_string_of};
ghost use Rattle.nx_events.specs.Strings.{piece_string, string_of};

use crate::front::is_space;
use crate::plain::plain_len;
use crate::reading::Reading;
use crate::reference::{push_character, reference_len, referenced};
use crate::utf8::continuation_len;
use nx_base::memory::NoMemory;
use nx_base::sequence::Bytes;
use std::alloc::Global;

// How many bytes the character or the line's end at the front has, or would have if the text went on.
#[tactic(auto, unfolding(crate::specs::Strings::line_piece_len))]
fn line_piece_len(bytes: &[u8]) -> usize
    ensures { result ≡ line_piece_len bytes.now }
{
    match bytes {
        [] => 0,
        [first, rest @ ..] => {
            if *first == b'\r' && !rest.is_empty() && rest[0] == b'\n' {
                2
            } else {
                continuation_len(*first) + 1
            }
        }
    }
}

// How long the piece at the front is where references are read and `]]>` is one piece.
#[tactic(auto, unfolding(crate::specs::Strings::text_piece_len))]
fn text_piece_len(bytes: &[u8]) -> usize
    ensures { result ≡ text_piece_len bytes.now }
{
    match bytes {
        [] => 0,
        [first, rest @ ..] => {
            if *first == b'&' {
                reference_len(rest) + 1
            } else if bytes.starts_with(b"]]>") {
                3
            } else {
                line_piece_len(bytes)
            }
        }
    }
}

fn piece_len(reading: Reading, bytes: &[u8]) -> usize
    ensures { result ≡ piece_len reading bytes.now }
{
    match reading {
        Reading::Plain => line_piece_len(bytes),
        Reading::Text => text_piece_len(bytes),
        Reading::Value => text_piece_len(bytes),
    }
}

/// The piece at the front of a text.
pub(crate) fn front_piece(reading: Reading, bytes: &[u8]) -> &[u8]
    requires { 0 < length bytes.now }
    ensures piece { result.now ≡ take (piece_len reading bytes.now) bytes.now }
    ensures some { 0 < length result.now }
    ensures bound { length result.now ≤ length bytes.now }
{
    &bytes[..piece_len(reading, bytes).min(bytes.len())]
}

// Adds what a piece stands for where references aren't read.
#[tactic(auto, unfolding(crate::specs::Strings::line_string_of))]
fn push_line(out: &mut Vec<u8>, piece: &[u8]) -> Result<(), NoMemory>
    ensures { OnOk result (out.new.items ≡ out.old.items ++ line_string_of piece.now) }
{
    if !piece.is_empty() && piece[0] == b'\r' {
        out.push(b'\n')?;
    } else {
        out.extend_from_slice(piece)?;
    }
    Ok(())
}

// Adds what a piece stands for in character data.
#[tactic(auto, unfolding(crate::specs::Strings::text_string_of))]
fn push_text(out: &mut Vec<u8>, piece: &[u8]) -> Result<(), NoMemory>
    ensures { OnOk result (out.new.items ≡ out.old.items ++ text_string_of piece.now) }
{
    if !piece.is_empty() && piece[0] == b'&' {
        push_character(out, referenced(piece))?;
    } else {
        push_line(out, piece)?;
    }
    Ok(())
}

// Adds what a piece stands for in a value.
#[tactic(auto, unfolding(crate::specs::Strings::value_string_of, nx_base::specs::Characters::is_space))]
fn push_value(out: &mut Vec<u8>, piece: &[u8]) -> Result<(), NoMemory>
    ensures { OnOk result (out.new.items ≡ out.old.items ++ value_string_of piece.now) }
{
    if !piece.is_empty() && is_space(piece[0]) {
        out.push(b' ')?;
    } else {
        push_text(out, piece)?;
    }
    Ok(())
}

fn push_piece(reading: Reading, out: &mut Vec<u8>, piece: &[u8]) -> Result<(), NoMemory>
    ensures { OnOk result (out.new.items ≡ out.old.items ++ piece_string reading piece.now) }
{
    match reading {
        Reading::Plain => push_line(out, piece)?,
        Reading::Text => push_text(out, piece)?,
        Reading::Value => push_value(out, piece)?,
    }
    Ok(())
}

// Adds what the front of a text stands for, a run of plain bytes or one piece, and answers what is left of the text.
fn push_front<'a>(
    reading: Reading,
    out: &mut Vec<u8>,
    bytes: &'a [u8],
) -> Result<&'a [u8], NoMemory>
    requires { 0 < length bytes.now }
    ensures string { IfOk result (λ left. out.new.items ++ string_of reading left.now ≡ out.old.items ++ string_of reading bytes.now) }
    ensures shorter { IfOk result (λ left. length left.now < length bytes.now) }
{
    let n = plain_len(reading, bytes);
    if n > 0 {
        out.extend_from_slice(&bytes[..n])?;
        return Ok(&bytes[n..]);
    }
    let piece = front_piece(reading, bytes);
    push_piece(reading, out, piece)?;
    Ok(&bytes[piece.len()..])
}

/// The string that a text stands for.
pub(crate) fn string_of(alloc: Global, reading: Reading, bytes: &[u8]) -> Result<Bytes, NoMemory>
    ensures { IfOk result (λ string. string ≡ string_of reading bytes.now) }
{
    let mut out = Vec::with_capacity(alloc, bytes.len())?;
    push_string(reading, &mut out, bytes)?;
    Ok(Bytes::from_vec(out))
}

/// Adds the string that a text stands for. Most texts are one run of plain bytes.
pub(crate) fn push_string(reading: Reading, out: &mut Vec<u8>, bytes: &[u8]) -> Result<(), NoMemory>
    ensures { OnOk result (out.new.items ≡ out.old.items ++ string_of reading bytes.now) }
{
    let n = plain_len(reading, bytes);
    out.extend_from_slice(&bytes[..n])?;
    push_further(reading, out, &bytes[n..])?;
    Ok(())
}

// Adds the string of bytes that may be of any kind, a run or a piece at a time.
fn push_further(reading: Reading, out: &mut Vec<u8>, bytes: &[u8]) -> Result<(), NoMemory>
    ensures { OnOk result (out.new.items ≡ out.old.items ++ string_of reading bytes.now) }
{
    let mut rest = bytes;
    while !rest.is_empty() {
        rest = push_front(reading, out, rest)?;
    }
    Ok(())
}
