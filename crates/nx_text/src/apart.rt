//! Places, characters and the borders of grapheme clusters of a text that lies in two pieces, one behind the other.
//!
//! Whether a place is a border is asked of a cursor over the piece behind it, which looks back into the piece in front
//! where a rule reads so far. So no byte is moved, and nothing is read from the start of the text on.

ghost use Rattle.std.specs.Prelude.{◌≡◌, ◌+◌, ◌<◌, ◌≤◌, ◌^◌, ◌++◌, ◌↔◌, true, length, encode_utf8, IsTrue, IfSome, MatchOption};
ghost use Rattle.nx_base.specs.Text.{IsPlace};
ghost use Rattle.nx_text.specs.Borders.{IsBorder, IsNextBorder, IsPreviousBorder};
ghost use Rattle.nx_text.specs.Reading.{StandsAt, HasNoCharAt};
ghost use Rattle.unicode_segmentation.specs.Grapheme.{is_grapheme_break};
ghost use Rattle.unicode_segmentation.specs.Segments.{breaks_at};

use unicode_segmentation::{GraphemeCursor, GraphemeIncomplete};

/// Whether the offset is a place of the text.
pub(crate) fn is_place(front: &str, back: &str, at: usize) -> bool
    ensures { IsTrue result ↔ IsPlace (front.now ++ back.now) at }
{
    if at < front.len() {
        front.is_char_boundary(at)
    } else {
        back.is_char_boundary(at - front.len())
    }
}

/// The character that begins at a place of one piece.
fn char_in(piece: &str, at: usize) -> Option<char>
    requires { IsPlace piece.now at }
    ensures { MatchOption result (HasNoCharAt piece.now at) (StandsAt piece.now at) }
{
    piece[at..].chars().next()
}

/// The character that begins at a place.
pub(crate) fn char_at(front: &str, back: &str, at: usize) -> Option<char>
    requires fits { length front.now + length back.now < 2 ^ 64 }
    requires place { IsPlace (front.now ++ back.now) at }
    ensures char { MatchOption result (HasNoCharAt (front.now ++ back.now) at) (StandsAt (front.now ++ back.now) at) }
    ensures next_fits { IfSome result (λ c. at + length (encode_utf8 c) < 2 ^ 64) }
{
    if at < front.len() {
        char_in(front, at)
    } else {
        char_in(back, at - front.len())
    }
}

/// Whether the text is broken at a place inside of the piece in front.
fn breaks_in_front(front: &str, back: &str, at: usize) -> bool
    requires fits { length front.now + length back.now < 2 ^ 64 }
    requires place { IsPlace (front.now ++ back.now) at }
    requires inside { at < length front.now }
    ensures { result ≡ breaks_at (is_grapheme_break true) (front.now ++ back.now) at }
{
    let mut cursor = GraphemeCursor::new(at, front.len() + back.len(), true);
    match cursor.is_boundary(front, 0) {
        Ok(breaks) => breaks,
        Err(_) => unreachable!(),
    }
}

/// Whether the text is broken at a place inside of the piece behind, or where that begins.
fn breaks_in_back(front: &str, back: &str, at: usize) -> bool
    requires fits { length front.now + length back.now < 2 ^ 64 }
    requires place { IsPlace (front.now ++ back.now) at }
    requires behind { length front.now ≤ at }
    requires inside { at < length front.now + length back.now }
    ensures { result ≡ breaks_at (is_grapheme_break true) (front.now ++ back.now) at }
{
    let start = front.len();
    let mut cursor = GraphemeCursor::new(at, start + back.len(), true);
    match cursor.is_boundary(back, start) {
        Ok(breaks) => breaks,
        Err(wants) => {
            let GraphemeIncomplete::PreContext(_) = wants else {
                unreachable!()
            };
            cursor.provide_context(front, 0);
            match cursor.is_boundary(back, start) {
                Ok(breaks) => breaks,
                Err(_) => unreachable!(),
            }
        }
    }
}

/// Whether the text is broken at the place.
fn breaks(front: &str, back: &str, at: usize) -> bool
    requires fits { length front.now + length back.now < 2 ^ 64 }
    requires place { IsPlace (front.now ++ back.now) at }
    ensures { result ≡ breaks_at (is_grapheme_break true) (front.now ++ back.now) at }
{
    if at < front.len() {
        breaks_in_front(front, back, at)
    } else if at == front.len() + back.len() {
        true
    } else {
        breaks_in_back(front, back, at)
    }
}

/// Whether the offset is a border of grapheme clusters.
fn is_border(front: &str, back: &str, at: usize) -> bool
    requires { length front.now + length back.now < 2 ^ 64 }
    ensures { IsTrue result ↔ IsBorder (front.now ++ back.now) at }
{
    is_place(front, back, at) && breaks(front, back, at)
}

/// The nearest border of grapheme clusters behind the place.
pub(crate) fn next_border(front: &str, back: &str, at: usize) -> Option<usize>
    requires fits { length front.now + length back.now < 2 ^ 64 }
    requires place { IsPlace (front.now ++ back.now) at }
    ensures { MatchOption result (at ≡ length (front.now ++ back.now)) (IsNextBorder (front.now ++ back.now) at) }
{
    if at == front.len() + back.len() {
        return None;
    }
    let mut next = at + 1;
    while !is_border(front, back, next) {
        next += 1;
    }
    Some(next)
}

/// The nearest border of grapheme clusters in front of the place.
pub(crate) fn previous_border(front: &str, back: &str, at: usize) -> Option<usize>
    requires fits { length front.now + length back.now < 2 ^ 64 }
    requires place { IsPlace (front.now ++ back.now) at }
    ensures { MatchOption result (at ≡ 0) (IsPreviousBorder (front.now ++ back.now) at) }
{
    if at == 0 {
        return None;
    }
    let mut previous = at - 1;
    while !is_border(front, back, previous) {
        previous -= 1;
    }
    Some(previous)
}
