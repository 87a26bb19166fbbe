//! Places of a text by line and column.

ghost use Rattle.std.specs.Prelude.{◌≡◌, ◌<◌, ◌≤◌, ◌^◌, length};
ghost use Rattle.std.specs.Str.{IsUtf8, IsCharBoundary};
ghost use Rattle.std.specs.List.{prefix_len};
ghost use Rattle.nx_position.specs.Positions.{begins_with_feed, ends_line, behind_line, from_line, is_content, byte_units, units, bytes_to, lines_ended, offset_of, position_of};

/// What a column counts.
#[derive(Clone, Copy, Debug, PartialEq, Eq)]
pub enum Encoding {
    /// Bytes.
    Utf8,
    /// 16-bit code units: two for a character above U+FFFF.
    Utf16,
    /// Characters.
    Utf32,
}

/// A line and a column of it, both counted from 0.
#[derive(Clone, Copy, Debug, PartialEq, Eq)]
pub struct Position {
    pub line: usize,
    /// In code units of an encoding.
    pub column: usize,
}

/// Whether a line feed stands first.
fn begins_with_feed(text: &[u8]) -> bool
    ensures { result ≡ begins_with_feed text.now }
{
    match text.first() {
        Some(byte) => *byte == b'\n',
        None => false,
    }
}

/// Whether a line ends with a byte, where these stand behind it.
fn ends_line(byte: u8, rest: &[u8]) -> bool
    ensures { result ≡ ends_line byte rest.now }
{
    byte == b'\n' || (byte == b'\r' && !begins_with_feed(rest))
}

/// What stands behind the first line and its end.
fn behind_line(text: &[u8]) -> &[u8]
    ensures rest { result.now ≡ behind_line text.now }
    ensures bound { length result.now ≤ length text.now }
{
    for (i, byte) in text.iter().enumerate() {
        let rest = &text[i + 1..];
        if ends_line(*byte, rest) {
            return rest;
        }
    }
    &text[text.len()..]
}

/// The text from one of its lines on.
fn from_line(text: &[u8], line: usize) -> &[u8]
    ensures rest { result.now ≡ from_line line text.now }
    ensures bound { length result.now ≤ length text.now }
{
    let mut left = text;
    let mut lines = line;
    while lines > 0 {
        if left.is_empty() {
            return left;
        }
        left = behind_line(left);
        lines -= 1;
    }
    left
}

/// How many bytes the first line has without its end.
pub fn content_len(text: &[u8]) -> usize
    ensures len { result ≡ prefix_len is_content text.now }
    ensures bound { result ≤ length text.now }
{
    text.iter()
        .take_while(|byte| **byte != b'\n' && **byte != b'\r')
        .count()
}

/// How many code units the character takes that begins with a byte; none where none does.
pub fn byte_units(encoding: Encoding, byte: u8) -> usize
    ensures { result ≡ byte_units encoding byte }
{
    match (encoding, byte) {
        (_, 0..=127) => 1,
        (_, 128..=191) => 0,
        (Encoding::Utf8, 192..=223) => 2,
        (Encoding::Utf8, 224..=239) => 3,
        (Encoding::Utf8, 240..=255) => 4,
        (Encoding::Utf16, 192..=239) => 1,
        (Encoding::Utf16, 240..=255) => 2,
        (Encoding::Utf32, _) => 1,
    }
}

/// How many code units the characters take that begin in these bytes.
pub fn units(encoding: Encoding, text: &[u8]) -> usize
    requires { units encoding text.now < 2 ^ 64 }
    ensures { result ≡ units encoding text.now }
{
    let mut count: usize = 0;
    for (i, byte) in text.iter().enumerate() {
        count += byte_units(encoding, *byte);
    }
    count
}

/// How many bytes stand in front of a column.
fn bytes_to(encoding: Encoding, text: &[u8], column: usize) -> usize
    ensures bytes { result ≡ bytes_to encoding column text.now }
    ensures bound { result ≤ length text.now }
{
    let mut left = column;
    for (i, byte) in text.iter().enumerate() {
        let width = byte_units(encoding, *byte);
        if width > left {
            return i;
        }
        left -= width;
    }
    text.len()
}

/// The byte offset of a position.
pub fn offset_of(encoding: Encoding, text: &[u8], position: Position) -> usize
    ensures offset { result ≡ offset_of encoding text.now position }
    ensures bound { result ≤ length text.now }
{
    let from = from_line(text, position.line);
    let line = &from[..content_len(from)];
    text.len() - from.len() + bytes_to(encoding, line, position.column)
}

/// The position of a place.
#[tactic(auto, using(crate::proofs::Lines::few_in_line))]
pub fn position_of(encoding: Encoding, text: &[u8], at: usize) -> Position
    requires utf8 { IsUtf8 text.now }
    requires place { IsCharBoundary text.now at }
    ensures { result ≡ position_of encoding text.now at }
{
    let line = lines_ended(text, at);
    let from = from_line(text, line);
    let start = text.len() - from.len();
    let content = &from[..content_len(from)];
    let front = &content[..content.len().min(at.saturating_sub(start))];
    let column = units(encoding, front);
    Position { line, column }
}

/// How many lines end in the first bytes of a text.
fn lines_ended(text: &[u8], at: usize) -> usize
    requires { at ≤ length text.now }
    ensures lines { result ≡ lines_ended at text.now }
    ensures bound { result ≤ at }
{
    let mut lines: usize = 0;
    for i in 0..at {
        if ends_line(text[i], &text[i + 1..]) {
            lines += 1;
        }
    }
    lines
}
