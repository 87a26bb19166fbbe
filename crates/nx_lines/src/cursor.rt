//! A cursor that goes over a text and knows where it is.

ghost use Rattle.std.specs.Prelude.{◌≡◌, ℕ, ◌+◌, ◌<◌, ◌≤◌, List, length, drop, slice_index, false};
ghost use Rattle.nx_position.specs.Positions.{begins_with_feed, ends_line, is_content, lines_ended, position_of};
ghost use Rattle.nx_lines.specs.Cursors.{IsAtPlace, IsHeld};
ghost use Rattle.nx_lines.specs.Shown.{shown_position, unmarked};

use crate::mark::{MARK_LEN, has_mark};
use nx_position::position::{Encoding, Position, byte_units, content_len, units};
use nx_text::text::Text;

/// A place of a text with its line and column. It is moved from place to place of one text, which is handed to each call and must be the
/// same each time. A move takes as long as the way, and where that crosses lines backwards, as those lines.
#[derive(Clone, Copy, Debug, PartialEq, Eq)]
pub struct Cursor {
    encoding: Encoding,
    at: usize,
    position: Position,
}

/// The byte at an offset; 0 behind the end.
fn byte_of(text: &Text, at: usize) -> u8
    ensures { result ≡ slice_index text.now at }
{
    text.byte_at(at).unwrap_or(0)
}

/// Whether a line feed stands at an offset.
#[tactic(auto, using(crate::proofs::Moves::feed_at))]
fn has_feed_at(text: &Text, at: usize) -> bool
    ensures { result ≡ begins_with_feed (drop at text.now) }
{
    byte_of(text, at) == b'\n'
}

/// Whether a line ends with the byte at this offset: a line feed, or a carriage return that no line feed follows.
fn ends_line_at(text: &Text, at: usize) -> bool
    requires held { IsHeld text.now }
    requires inside { at < length text.now }
    ensures { result ≡ ends_line (slice_index text.now at) (drop (at + 1) text.now) }
{
    match byte_of(text, at) {
        b'\n' => true,
        b'\r' => !has_feed_at(text, at + 1),
        _ => false,
    }
}

/// Whether a byte is of a line's content.
fn is_content(byte: u8) -> bool
    ensures { result ≡ is_content byte }
{
    byte != b'\n' && byte != b'\r'
}

/// Where the line begins that a place is in.
fn start_of_line(text: &Text, at: usize) -> usize
    requires held { IsHeld text.now }
    requires within { at ≤ length text.now }
    ensures within { result ≤ at }
    ensures start { (encoding : Encoding) → position_of encoding text.now result ≡ record { line = lines_ended at text.now; column = 0 } }
{
    let mut start = at;
    while start > 0 && !ends_line_at(text, start - 1) {
        start -= 1;
    }
    start
}

/// The position behind the byte at an offset, in front of which this one is.
fn position_behind(encoding: Encoding, text: &Text, at: usize, position: Position) -> Position
    requires held { IsHeld text.now }
    requires inside { at < length text.now }
    requires place { position ≡ position_of encoding text.now at }
    ensures { result ≡ position_of encoding text.now (at + 1) }
{
    if ends_line_at(text, at) {
        return Position {
            line: position.line + 1,
            column: 0,
        };
    }
    let byte = byte_of(text, at);
    if is_content(byte) {
        Position {
            line: position.line,
            column: position.column + byte_units(encoding, byte),
        }
    } else {
        position
    }
}

/// The position in front of the byte at an offset, which ends no line, where this one is behind it.
fn position_in_front(encoding: Encoding, text: &Text, at: usize, position: Position) -> Position
    requires held { IsHeld text.now }
    requires inside { at < length text.now }
    requires in_line { ends_line (slice_index text.now at) (drop (at + 1) text.now) ≡ false }
    requires place { position ≡ position_of encoding text.now (at + 1) }
    ensures { result ≡ position_of encoding text.now at }
{
    let byte = byte_of(text, at);
    if is_content(byte) {
        Position {
            line: position.line,
            column: position.column - byte_units(encoding, byte),
        }
    } else {
        position
    }
}

/// A position behind the byte order mark, whose code units aren't counted.
fn without_mark(encoding: Encoding, position: Position) -> Position
    ensures { result ≡ unmarked encoding position }
{
    let mark = match encoding {
        Encoding::Utf8 => MARK_LEN,
        Encoding::Utf16 | Encoding::Utf32 => 1,
    };
    if position.line > 0 {
        return position;
    }
    Position {
        line: 0,
        column: position.column.saturating_sub(mark),
    }
}

impl Cursor {
    /// A cursor at the start of a text, whose columns count code units of this encoding.
    pub fn new(encoding: Encoding) -> Cursor
        ensures stands { (text : List ℕ) → IsAtPlace text result }
        ensures encoding { result.encoding ≡ encoding }
    {
        Cursor {
            encoding,
            at: 0,
            position: Position { line: 0, column: 0 },
        }
    }

    /// Goes to a place, or where that lies behind the end, to the end, and tells its position.
    pub fn move_to(&mut self, text: &Text, at: usize) -> Position
        requires { IsAtPlace text.now self.old }
        ensures position { result ≡ position_of self.old.encoding text.now at }
        ensures stands { IsAtPlace text.now self.new }
        ensures encoding { self.new.encoding ≡ self.old.encoding }
    {
        let to = at.min(text.len());
        if to < self.at {
            self.go_back(text, to);
        }
        self.go_on(text, to);
        self.position
    }

    /// The same as people count: a byte order mark at the text's start is no character of the first line.
    pub fn shown_at(&mut self, text: &Text, at: usize) -> Position
        requires { IsAtPlace text.now self.old }
        ensures position { result ≡ shown_position self.old.encoding text.now at }
        ensures stands { IsAtPlace text.now self.new }
        ensures encoding { self.new.encoding ≡ self.old.encoding }
    {
        if has_mark(text) {
            let position = self.move_to(text, at.max(MARK_LEN));
            without_mark(self.encoding, position)
        } else {
            self.move_to(text, at)
        }
    }

    /// Goes on to a place that isn't in front.
    fn go_on(&mut self, text: &Text, to: usize)
        requires held { IsHeld text.now }
        requires place { IsAtPlace text.now self.old }
        requires behind { self.old.at ≤ to }
        requires within { to ≤ length text.now }
        ensures place { IsAtPlace text.now self.new }
        ensures there { self.new.at ≡ to }
        ensures encoding { self.new.encoding ≡ self.old.encoding }
    {
        while self.at < to {
            self.pass_content(text, to);
            if self.at < to {
                self.pass_byte(text);
            }
        }
    }

    /// Passes what stands in the line from here on, up to a place, or as far as it lies in one piece.
    fn pass_content(&mut self, text: &Text, to: usize)
        requires held { IsHeld text.now }
        requires place { IsAtPlace text.now self.old }
        requires behind { self.old.at ≤ to }
        requires within { to ≤ length text.now }
        ensures place { IsAtPlace text.now self.new }
        ensures on { self.old.at ≤ self.new.at }
        ensures bound { self.new.at ≤ to }
        ensures encoding { self.new.encoding ≡ self.old.encoding }
    {
        let piece = text.piece_at(self.at);
        let near = &piece[..piece.len().min(to - self.at)];
        let passed = &near[..content_len(near)];
        self.position.column += units(self.encoding, passed);
        self.at += passed.len();
    }

    /// Passes a byte.
    fn pass_byte(&mut self, text: &Text)
        requires held { IsHeld text.now }
        requires place { IsAtPlace text.now self.old }
        requires inside { self.old.at < length text.now }
        ensures place { IsAtPlace text.now self.new }
        ensures on { self.new.at ≡ self.old.at + 1 }
        ensures encoding { self.new.encoding ≡ self.old.encoding }
    {
        self.position = position_behind(self.encoding, text, self.at, self.position);
        self.at += 1;
    }

    /// Goes back to a place in front or further: to the start of a line, or of the text where the place is nearer to that.
    fn go_back(&mut self, text: &Text, to: usize)
        requires held { IsHeld text.now }
        requires place { IsAtPlace text.now self.old }
        requires in_front { to ≤ self.old.at }
        ensures place { IsAtPlace text.now self.new }
        ensures there { self.new.at ≤ to }
        ensures encoding { self.new.encoding ≡ self.old.encoding }
    {
        if to < self.at - to {
            *self = Cursor::new(self.encoding);
        }
        while self.at > to {
            self.step_back(text);
        }
    }

    /// Goes back over a byte, or where that ends a line, to that line's start.
    fn step_back(&mut self, text: &Text)
        requires held { IsHeld text.now }
        requires place { IsAtPlace text.now self.old }
        requires inside { 0 < self.old.at }
        ensures place { IsAtPlace text.now self.new }
        ensures back { self.new.at < self.old.at }
        ensures encoding { self.new.encoding ≡ self.old.encoding }
    {
        let at = self.at - 1;
        if ends_line_at(text, at) {
            self.position = Position {
                line: self.position.line - 1,
                column: 0,
            };
            self.at = start_of_line(text, at);
        } else {
            self.position = position_in_front(self.encoding, text, at, self.position);
            self.at = at;
        }
    }
}
