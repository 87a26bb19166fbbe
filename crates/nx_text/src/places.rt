//! The column of a place of a text whose line lies in one piece.

ghost use Rattle.std.specs.Prelude.{◌≡◌, ◌≤◌, length, take, nat_lt};
ghost use Rattle.std.specs.List.{suffix_len};
ghost use Rattle.nx_base.specs.Text.{IsPlace};
ghost use Rattle.nx_text.specs.Places.{is_in_line, line_front, column_at};

use unicode_width::UnicodeWidthStr;

/// How many bytes stand behind the last line feed.
fn line_len(front: &[u8]) -> usize
    ensures len { result ≡ suffix_len is_in_line front.now }
    ensures bound { result ≤ length front.now }
{
    front
        .iter()
        .rev()
        .take_while(|byte| **byte != b'\n')
        .count()
}

/// What stands between the last line feed in front of the place, or the start, and the place.
fn front_of_line(text: &str, at: usize) -> &str
    requires { IsPlace text.now at }
    ensures { result.now ≡ line_front text.now at }
{
    let len = line_len(&text.as_bytes()[..at]);
    let start = at - len;
    &text[start..at]
}

/// The columns of a terminal that the place's line takes up to it.
pub(crate) fn column_in(text: &str, at: usize) -> usize
    requires { IsPlace text.now at }
    ensures { result ≡ column_at text.now at }
{
    front_of_line(text, at).width()
}

/// Whether a line feed stands in front of the offset.
pub(crate) fn has_feed(part: &[u8], at: usize) -> bool
    requires { at ≤ length part.now }
    ensures { result ≡ nat_lt (suffix_len is_in_line (take at part.now)) at }
{
    line_len(&part[..at]) < at
}
