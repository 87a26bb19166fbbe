//! Where a message stands among bytes: a head of fields as HTTP has them, of which one tells how many bytes of content follow.

ghost use Rattle.std.specs.Prelude.{◌≡◌, ◌≤◌, ℕ, ◌<◌, ◌++◌, All, codes, decimal, length, map, option_map};
ghost use Rattle.std.specs.Prelude.{IfSome, IfNone, IfOk, IsTrue, ◌↔◌, OnErr, OnOk, string_bytes};
ghost use Rattle.std.specs.Char.{is_ascii_digit};
ghost use Rattle.std.specs.List.{prefix_len};
ghost use Rattle.std.specs.Str.Parse.{AllDigits, digits_value};
ghost use Rattle.httparse.specs.Grammar.{HasNoSection, MayBecomeSection};
ghost use Rattle.httparse.specs.Spans.{IsHeaderWithin, header_bytes};
ghost use Rattle.nx_wire.specs.Frames.{FindsFrame, FirstLength, HasLength, IsHead, IsLength, IsLengthName, TellsLength, frame};

use httparse::Status;
use httparse::spans::{EMPTY_HEADER_SPAN, HeaderSpan, parse_headers};
use nx_base::memory::NoMemory;
use std::alloc::Global;

/// How many fields a head may have.
pub const MOST_FIELDS: usize = 16;

/// How many bytes a head may have.
pub const MOST_HEAD: usize = 4096;

/// How many bytes a message's content may have: 1 GiB.
pub const MOST_BODY: usize = 1_073_741_824;

/// How many digits its length may have.
const MOST_DIGITS: usize = 19;

/// The name of the field that tells it.
const LENGTH_NAME: &str = "Content-Length";

/// What stands at the start of bytes.
#[derive(Clone, Copy, Debug, PartialEq, Eq)]
pub enum Frame {
    /// A message, whose content begins at a byte offset and has so many bytes.
    Whole { at: usize, len: usize },
    /// Not yet a message: more has to come.
    Partial,
    /// No message, whatever comes.
    Wrong,
}

/// The message at the start of bytes.
pub fn next_frame(bytes: &[u8]) -> Frame
    ensures { FindsFrame bytes.now result }
{
    let mut fields = [EMPTY_HEADER_SPAN; MOST_FIELDS];
    match parse_headers(bytes, &mut fields) {
        Ok(Status::Complete((at, count))) => frame_behind(bytes, at, &fields[..count]),
        Ok(Status::Partial) => partial_frame(bytes),
        Err(_) => Frame::Wrong,
    }
}

/// The message whose head, with these fields, ends at a byte offset.
fn frame_behind(bytes: &[u8], at: usize, fields: &[HeaderSpan]) -> Frame
    requires head { IsHead bytes.now at (map (header_bytes bytes.now) fields.now) }
    requires within { All (IsHeaderWithin (length bytes.now)) fields.now }
    requires at { at ≤ length bytes.now }
    ensures { FindsFrame bytes.now result }
{
    if at > MOST_HEAD {
        return Frame::Wrong;
    }
    match content_length(bytes, fields) {
        Some(len) => content_behind(bytes, at, len),
        None => Frame::Wrong,
    }
}

/// The message whose content begins at a byte offset and has so many bytes.
fn content_behind(bytes: &[u8], at: usize, len: usize) -> Frame
    requires head { TellsLength bytes.now at len }
    requires at { at ≤ length bytes.now }
    ensures { FindsFrame bytes.now result }
{
    if len > MOST_BODY {
        return Frame::Wrong;
    }
    if len > bytes.len() - at {
        return Frame::Partial;
    }
    Frame::Whole { at, len }
}

/// What bytes are that have no whole head.
fn partial_frame(bytes: &[u8]) -> Frame
    requires none { HasNoSection bytes.now }
    requires unfinished { MayBecomeSection bytes.now }
    ensures { FindsFrame bytes.now result }
{
    if bytes.len() > MOST_HEAD {
        Frame::Wrong
    } else {
        Frame::Partial
    }
}

/// How many bytes of content the fields tell.
fn content_length(bytes: &[u8], fields: &[HeaderSpan]) -> Option<usize>
    requires within { All (IsHeaderWithin (length bytes.now)) fields.now }
    ensures some { IfSome result (λ len. HasLength (map (header_bytes bytes.now) fields.now) len) }
    ensures none { IfNone result ((len : ℕ) → ¬ (HasLength (map (header_bytes bytes.now) fields.now) len)) }
{
    match first_length(bytes, fields) {
        Some(value) => length_in(value),
        None => None,
    }
}

/// The value of the first field that tells a length.
fn first_length<'a>(bytes: &'a [u8], fields: &[HeaderSpan]) -> Option<&'a [u8]>
    requires within { All (IsHeaderWithin (length bytes.now)) fields.now }
    ensures { FirstLength (map (header_bytes bytes.now) fields.now) (option_map (λ value. value.now) result) }
{
    let mut rest = fields;
    while let Some((field, behind)) = rest.split_first() {
        if is_length_name(field.name.of(bytes)) {
            return Some(field.value.of(bytes));
        }
        rest = behind;
    }
    None
}

/// Whether a field of this name tells the length. Names have no case.
fn is_length_name(name: &[u8]) -> bool
    ensures { IsTrue result ↔ IsLengthName name.now }
{
    name.eq_ignore_ascii_case(LENGTH_NAME.as_bytes())
}

/// How many digits stand at the front.
fn leading_digits(bytes: &[u8]) -> usize
    ensures counted { result ≡ prefix_len is_ascii_digit bytes.now }
    ensures within { result ≤ length bytes.now }
{
    bytes
        .iter()
        .take_while(|byte| byte.is_ascii_digit())
        .count()
}

/// The number that a length is written as.
fn length_in(value: &[u8]) -> Option<usize>
    ensures some { IfSome result (IsLength value.now) }
    ensures none { IfNone result ((len : ℕ) → ¬ (IsLength value.now len)) }
{
    let digits = leading_digits(value);
    if digits < value.len() {
        return None;
    }
    if digits > MOST_DIGITS {
        return None;
    }
    if digits < 1 {
        return None;
    }
    Some(number_of(value))
}

/// The number that the digits spell.
fn number_of(digits: &[u8]) -> usize
    requires digits { AllDigits 10 digits.now }
    requires short { length digits.now ≤ 19 }
    ensures { result ≡ digits_value 10 digits.now }
{
    let mut number = 0;
    for digit in digits {
        number = number * 10 + usize::from(*digit - b'0');
    }
    number
}

/// The head of a message whose content has so many bytes.
fn head(alloc: Global, len: usize) -> Result<String, NoMemory>
    ensures { IfOk result (λ text. string_bytes text ≡ codes "Content-Length: " ++ decimal len ++ codes "\r\n\r\n") }
{
    let text = format!(in alloc; "Content-Length: {len}\r\n\r\n")?;
    Ok(text)
}

/// A message with this content.
fn framed(alloc: Global, body: &[u8]) -> Result<Vec<u8>, NoMemory>
    ensures { IfOk result (λ made. made.items ≡ frame body.now) }
{
    let head = head(alloc, body.len())?;
    let mut made = Vec::from_slice(alloc, head.as_bytes())?;
    made.extend_from_slice(body)?;
    Ok(made)
}

/// Adds a message with this content; nothing where there is no memory.
pub fn push_frame(alloc: Global, out: &mut Vec<u8>, body: &[u8]) -> Result<(), NoMemory>
    ensures ok { OnOk result (out.new.items ≡ out.old.items ++ frame body.now) }
    ensures err { OnErr result (out.new.items ≡ out.old.items) }
{
    let made = framed(alloc, body)?;
    out.extend_from_slice(made.as_slice())?;
    Ok(())
}
