//! A tag is read on at once through the characters of one byte that lie in one piece of the text.

ghost use Rattle.std.specs.Prelude.{◌≡◌, ℕ, ◌+◌, ◌<◌, ◌≤◌, length, slice_index, IsTrue, IfSome};
ghost use Rattle.std.specs.Bool.{OnTrue};
ghost use Rattle.std.specs.List.{prefix_len};
ghost use Rattle.std.specs.Str.{IsUtf8};
ghost use Rattle.nx_base.specs.Characters.{is_name_start};
ghost use Rattle.nx_base.specs.Text.{IsPlace};
ghost use Rattle.nx_scan.specs.Tag.{IsReadTo, IsClosedName, IsAttribute, Passes, Stays, is_name_byte, is_value_byte};

use crate::lanes::{LANES, letter_run, name_run, value_run};
use crate::tag::TagState;
use nx_base::character::is_quote;
use nx_text::text::Text;

/// How far a tag is read, and what was read of it.
#[derive(Clone, Copy, Debug, PartialEq, Eq)]
pub(crate) struct TagPart {
    pub(crate) place: usize,
    pub(crate) seen: TagState,
}

/// Whether the byte is a character of its own, with which a name may begin.
#[tactic(auto, unfolding(nx_base::specs::Characters::is_name_start))]
fn is_name_first(byte: u8) -> bool
    ensures low { OnTrue result (byte < 128) }
    ensures first { OnTrue result (IsTrue (is_name_start byte)) }
{
    // Small letters first: most names begin with one.
    byte.is_ascii_lowercase() || matches!(byte, b'A'..=b'Z' | b'_' | b':')
}

/// Whether a name goes on with the byte, which is a character of its own.
#[tactic(auto, unfolding(nx_base::specs::Characters::is_name_char, nx_base::specs::Characters::is_name_start))]
fn is_in_name(byte: u8) -> bool
    ensures { result ≡ is_name_byte byte }
{
    byte.is_ascii_lowercase()
        || matches!(byte, b'A'..=b'Z' | b'0'..=b'9' | b'-' | b'.' | b'_' | b':')
}

/// Whether a value in such quotes goes on with the byte, which is a character of its own.
fn is_in_value(byte: u8, quote: u8) -> bool
    ensures { result ≡ is_value_byte quote byte }
{
    byte < 128 && byte != quote && byte != b'<'
}

/// How many bytes of a name stand in front, looked at one by one.
#[inline(never)]
fn short_name_len(bytes: &[u8]) -> usize
    ensures len { result ≡ prefix_len is_name_byte bytes.now }
    ensures within { result ≤ length bytes.now }
{
    bytes.iter().take_while(|byte| is_in_name(**byte)).count()
}

/// How many bytes of a name stand in front. Most names end in the first lanes.
#[inline(always)]
fn name_len(bytes: &[u8]) -> usize
    ensures len { result ≡ prefix_len is_name_byte bytes.now }
    ensures within { result ≤ length bytes.now }
{
    if bytes.len() < LANES {
        return short_name_len(bytes);
    }
    let run = name_run(bytes);
    if run < LANES {
        return run;
    }
    LANES + short_name_len(&bytes[LANES..])
}

/// How many bytes of a name that `>` may close stand in front.
#[inline(always)]
fn closed_len(bytes: &[u8]) -> usize
    ensures within { result ≤ length bytes.now }
    ensures names { (k : ℕ) → k < result → IsTrue (is_name_byte (slice_index bytes.now k)) }
{
    if bytes.len() >= LANES {
        let letters = letter_run(bytes);
        if letters < LANES && bytes[letters] == b'>' {
            return letters;
        }
    }
    name_len(bytes)
}

/// The index of the `>` that closes a name which begins at `from`; none where something else stands there or behind the name, or one of
/// its characters has more than one byte.
#[inline(always)]
pub(crate) fn closed_name(bytes: &[u8], from: usize) -> Option<usize>
    ensures { IfSome result (IsClosedName bytes.now from) }
{
    if from >= bytes.len() || !is_name_first(bytes[from]) {
        return None;
    }
    let close = from + 1 + closed_len(&bytes[from + 1..]);
    if close < bytes.len() && bytes[close] == b'>' {
        Some(close)
    } else {
        None
    }
}

/// How many bytes of a value in such quotes stand in front, looked at one by one.
fn short_value_len(bytes: &[u8], quote: u8) -> usize
    ensures len { result ≡ prefix_len (is_value_byte quote) bytes.now }
    ensures within { result ≤ length bytes.now }
{
    bytes
        .iter()
        .take_while(|byte| is_in_value(**byte, quote))
        .count()
}

/// How many bytes of a value in such quotes stand in front.
fn value_len(bytes: &[u8], quote: u8) -> usize
    ensures len { result ≡ prefix_len (is_value_byte quote) bytes.now }
    ensures within { result ≤ length bytes.now }
{
    if bytes.len() < LANES {
        return short_value_len(bytes, quote);
    }
    let run = value_run(bytes, quote);
    if run < LANES {
        return run;
    }
    LANES + short_value_len(&bytes[LANES..], quote)
}

/// How many bytes from an index on are characters that leave what was read as it was.
fn stay_len(seen: TagState, piece: &[u8], from: usize) -> usize
    requires { from ≤ length piece.now }
    ensures within { from + result ≤ length piece.now }
    ensures stay { (k : ℕ) → k < result → Stays seen (slice_index piece.now (from + k)) }
{
    let left = &piece[from..];
    match seen {
        TagState::Name => name_len(left),
        TagState::Attribute => name_len(left),
        TagState::EndName => name_len(left),
        TagState::Double => value_len(left, b'"'),
        TagState::Single => value_len(left, b'\''),
        _ => 0,
    }
}

/// The index behind the attribute that begins at another; none where something else stands there, or a character has more than one byte.
fn attribute_end(piece: &[u8], from: usize) -> Option<usize>
    ensures { IfSome result (IsAttribute piece.now from) }
{
    if from >= piece.len() || !is_name_first(piece[from]) {
        return None;
    }
    let equals = from + 1 + name_len(&piece[from + 1..]);
    if equals + 1 >= piece.len() || piece[equals] != b'=' {
        return None;
    }
    let quote = piece[equals + 1];
    if !is_quote(char::from(quote)) {
        return None;
    }
    let close = equals + 2 + value_len(&piece[equals + 2..], quote);
    if close < piece.len() && piece[close] == quote {
        Some(close + 1)
    } else {
        None
    }
}

/// How far a tag is read on at once from an index on, and what was read of it then.
#[derive(Clone, Copy)]
struct Passed {
    to: usize,
    seen: TagState,
}

/// Passes what leaves what was read as it was, and a whole attribute where one may begin.
fn pass_on(seen: TagState, piece: &[u8], from: usize) -> Passed
    requires { from ≤ length piece.now }
    ensures further { from ≤ result.to }
    ensures within { result.to ≤ length piece.now }
    ensures passes { Passes seen piece.now from result.to result.seen }
{
    match seen {
        TagState::Gap => match attribute_end(piece, from) {
            Some(to) => Passed {
                to,
                seen: TagState::Value,
            },
            None => Passed { to: from, seen },
        },
        _ => Passed {
            to: from + stay_len(seen, piece, from),
            seen,
        },
    }
}

/// The tag read on from a place as far as this can be done at once: to the first character that may end it or lose it, to one that
/// has more than one byte, or to the end of the piece in which the place lies. Whoever goes on reads character by character.
pub(crate) fn read_on(text: &Text, place: usize, seen: TagState) -> TagPart
    requires utf8 { IsUtf8 text.now }
    requires place { IsPlace text.now place }
    ensures further { place ≤ result.place }
    ensures on { (at : ℕ) → IsReadTo text.now at place seen → IsReadTo text.now at result.place result.seen }
{
    let piece = text.piece_at(place);
    let mut so_far = seen;
    let mut n = 0;
    while n < piece.len() {
        if piece[n] >= 128 {
            break;
        }
        // which mostly ends the tag
        if piece[n] == b'>' {
            break;
        }
        let next = so_far.then(char::from(piece[n]));
        match next {
            TagState::Start | TagState::Empty | TagState::End | TagState::Lost => break,
            _ => {}
        }
        let passed = pass_on(next, piece, n + 1);
        so_far = passed.seen;
        n = passed.to;
    }
    TagPart {
        place: place + n,
        seen: so_far,
    }
}
