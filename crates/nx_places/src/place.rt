//! The place of a line and a column.

ghost use Rattle.std.specs.Prelude.{◌≡◌, ◌+◌, ◌<◌, ◌≤◌, true, false, length, drop, slice_index};
ghost use Rattle.nx_base.specs.Text.{IsPlace};
ghost use Rattle.nx_position.specs.Positions.{behind_line, bytes_to, content, from_line, is_content, offset_of};

use nx_position::law::positions_lead_to_places;
use nx_position::position::{Encoding, Position, byte_units, content_len};
use nx_text::text::Text;

/// The byte at an offset; 0 behind the end.
fn byte_of(text: &Text, at: usize) -> u8
    ensures { result ≡ slice_index text.now at }
{
    text.byte_at(at).unwrap_or(0)
}

/// Whether a byte is of a line's content.
fn is_content(byte: u8) -> bool
    ensures { result ≡ is_content byte }
{
    byte != b'\n' && byte != b'\r'
}

/// Behind a byte of a line's content, and what stands behind that in one piece and is of it, too.
fn behind_content(text: &Text, at: usize) -> usize
    requires inside { at < length text.now }
    requires content { is_content (slice_index text.now at) ≡ true }
    ensures line { behind_line (drop result text.now) ≡ behind_line (drop at text.now) }
    ensures on { at < result }
    ensures within { result ≤ length text.now }
{
    let _len = text.len();
    let next = at + 1;
    next + content_len(text.piece_at(next))
}

/// Behind the byte that ends a line's content: behind a line feed, or a carriage return with the line feed that follows it.
fn behind_end(text: &Text, at: usize) -> usize
    requires inside { at < length text.now }
    requires end { is_content (slice_index text.now at) ≡ false }
    ensures line { drop result text.now ≡ behind_line (drop at text.now) }
    ensures within { result ≤ length text.now }
{
    let _len = text.len();
    if byte_of(text, at) == b'\n' {
        return at + 1;
    }
    if byte_of(text, at + 1) == b'\n' {
        return at + 2;
    }
    at + 1
}

/// Behind the end of the line in which a place is.
fn behind_line(text: &Text, at: usize) -> usize
    requires within { at ≤ length text.now }
    ensures line { drop result text.now ≡ behind_line (drop at text.now) }
    ensures within { result ≤ length text.now }
{
    let mut here = at;
    while here < text.len() {
        if !is_content(byte_of(text, here)) {
            return behind_end(text, here);
        }
        here = behind_content(text, here);
    }
    here
}

/// Where a line begins; the text's end where it has fewer.
fn start_of_line(text: &Text, line: usize) -> usize
    ensures start { drop result text.now ≡ from_line line text.now }
    ensures within { result ≤ length text.now }
{
    let mut at = 0;
    let mut lines = line;
    while lines > 0 && at < text.len() {
        at = behind_line(text, at);
        lines -= 1;
    }
    at
}

/// The place of a column of the line that begins at a place.
fn column_from(encoding: Encoding, text: &Text, start: usize, column: usize) -> usize
    requires within { start ≤ length text.now }
    ensures place { result ≡ start + bytes_to encoding column (content (drop start text.now)) }
    ensures within { result ≤ length text.now }
{
    let mut at = start;
    let mut left = column;
    while at < text.len() {
        let byte = byte_of(text, at);
        if !is_content(byte) {
            return at;
        }
        let width = byte_units(encoding, byte);
        if width > left {
            return at;
        }
        left -= width;
        at += 1;
    }
    at
}

/// The place of a position. Behind a line's last column it is the line's end, behind the last line the text's.
pub fn place_of(encoding: Encoding, text: &Text, position: Position) -> usize
    ensures offset { result ≡ offset_of encoding text.now position }
    ensures place { IsPlace text.now result }
{
    positions_lead_to_places();
    let start = start_of_line(text, position.line);
    let _len = text.len();
    column_from(encoding, text, start, position.column)
}
