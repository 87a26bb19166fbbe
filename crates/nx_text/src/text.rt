//! A text that is edited at its places.

ghost use Rattle.std.specs.Prelude.{◌≡◌, ◌+◌, ◌<◌, ◌≤◌, ◌^◌, ◌↔◌, [], ◌++◌, length, take, drop, encode_utf8, slice_get, slice_range};
ghost use Rattle.std.specs.Prelude.{IsTrue, IfOk, OnOk, OnErr, OnSome, IfSome, MatchOption};
ghost use Rattle.nx_text.specs.Borders.{IsNextBorder, IsPreviousBorder};
ghost use Rattle.nx_text.specs.Places.{line_at, column_at};
ghost use Rattle.std.specs.Str.{IsUtf8};
ghost use Rattle.nx_base.specs.Text.{IsPlace, edited};
ghost use Rattle.nx_base.specs.Tokens.{bytes_up_to};
ghost use Rattle.nx_text.specs.Changing.{AreChanges, changed};
ghost use Rattle.nx_text.specs.Editing.{Inserts, Deletes, IsRange};
ghost use Rattle.nx_text.specs.Reading.{StandsAt, HasNoCharAt, StandFrom};

use crate::apart::{self, next_border, previous_border};
use crate::change::{make, put_in};
use crate::fill::fill;
use crate::gap_buffer::GapBuffer;
use crate::line_feeds::{count_feeds, feeds_before, move_gaps, push_feeds, take_out};
use crate::places::{column_in, has_feed};
use crate::search::{find_in_both, piece_of_both};
use nx_base::change::Changes;
use nx_base::memory::NoMemory;
use nx_base::sequence::Bytes;
use std::alloc::{AllocError, Global};
use std::marker::Model;
use std::{mem, str};
use thiserror::Error;

/// Why a text refused an edit.
#[derive(Debug, Drop, Error)]
pub enum TextFault {
    /// The byte offset `at` isn't a place of the text, whose length is `len` bytes, or lies behind the
    /// end of what was to be deleted.
    #[error("{at} is no place of a text of {len} bytes")]
    BadPosition { at: usize, len: usize },
    /// There was no memory.
    #[error("out of memory")]
    NoMemory,
}

impl From<AllocError> for TextFault {
    ghost use Rattle.nx_text.specs.declared.text.TextFault.TheVariants.{NoMemory};

    ghost from_gives = { λ _ fault. fault ≡ NoMemory };

    fn from(_error: AllocError) -> TextFault {
        TextFault::NoMemory
    }
}

/// A text. To a contract it is the list of its bytes, which are UTF-8. Its places are byte offsets.
///
/// The bytes lie in one buffer with a gap, which moves to where the text is edited, and the line feeds are listed in
/// another whose gap is at the same place. So an edit takes time as what it puts in or takes out, and as far as it is
/// from the one before it.
#[derive(Drop)]
pub struct Text {
    bytes: GapBuffer<u8>,
    feeds: GapBuffer<usize>,
}

impl Model for Text {
    ghost use Rattle.std.specs.Prelude.{List, ℕ};
    ghost use Rattle.nx_text.specs.Feeds.{IsKept, joined};

    ghost Value = { List ℕ };

    ghost view = { λ t. joined t.bytes };

    ghost invariant = { λ t. IsKept t.bytes t.feeds };
}

/// Bytes that are UTF-8, as a text.
fn as_text(bytes: &[u8]) -> &str
    requires { IsUtf8 bytes.now }
    ensures { result.now ≡ bytes.now }
{
    unsafe { str::from_utf8_unchecked(bytes) }
}

impl Text {
    /// The empty text.
    pub fn new(alloc: Global) -> Text
        ensures { result ≡ [] }
    {
        Text {
            bytes: GapBuffer::new(alloc),
            feeds: GapBuffer::new(alloc),
        }
    }

    /// The text of these bytes, in the memory that they have where it has room for a gap, too: so a file that was read is held once.
    pub fn from_bytes(bytes: Bytes) -> Result<Text, NoMemory>
        requires { IsUtf8 bytes }
        ensures { IfOk result (λ text. text ≡ bytes) }
    {
        let items = bytes.into_vec();
        let mut feeds = GapBuffer::new(*items.allocator());
        feeds.make_room(count_feeds(items.as_slice()), 0)?;
        push_feeds(&mut feeds, 0, items.as_slice());
        let bytes = GapBuffer::from_vec(items, 0)?;
        Ok(Text { bytes, feeds })
    }

    /// What stands in front of the gap, and what stands behind it.
    fn sides(&self) -> (&str, &str)
        ensures text { self.now ≡ result.0.now ++ result.1.now }
        ensures fits { length result.0.now + length result.1.now < 2 ^ 64 }
    {
        (as_text(self.bytes.front()), as_text(self.bytes.back()))
    }

    /// How many bytes the text has.
    pub fn len(&self) -> usize
        ensures bytes { result ≡ length self.now }
        ensures utf8 { IsUtf8 self.now }
    {
        self.bytes.len()
    }

    /// Whether the byte offset `at` is a place: at most the length, and not inside a character.
    pub fn is_place(&self, at: usize) -> bool
        ensures { IsTrue result ↔ IsPlace self.now at }
    {
        let (front, back) = self.sides();
        apart::is_place(front, back, at)
    }

    /// Puts a text in at the place `at`. Refused exactly where that is no place, which is found before
    /// memory is taken.
    pub fn insert(&mut self, at: usize, added: &str) -> Result<(), TextFault>
        ensures { Inserts self.old at added.now result self.new }
    {
        if !self.is_place(at) {
            let len = self.len();
            return Err(TextFault::BadPosition { at, len });
        }
        if self.bytes.len() == 0 && self.bytes.room() < added.len() {
            self.begin(added)?;
            return Ok(());
        }
        self.bytes.make_room(added.len(), 0)?;
        self.feeds.make_room(count_feeds(added.as_bytes()), 0)?;
        move_gaps(&mut self.bytes, &mut self.feeds, at);
        self.bytes.push_all(added.as_bytes());
        push_feeds(&mut self.feeds, at, added.as_bytes());
        Ok(())
    }

    /// Puts a text in where there is none, and no room for it: in memory of its own, so that it is written once.
    fn begin(&mut self, added: &str) -> Result<(), AllocError>
        requires { length self.old ≡ 0 }
        ensures ok { OnOk result (self.new ≡ added.now) }
        ensures err { OnErr result (self.new ≡ self.old) }
    {
        let bytes = self.bytes.with_items(added.as_bytes(), 0)?;
        self.feeds.make_room(count_feeds(added.as_bytes()), 0)?;
        push_feeds(&mut self.feeds, 0, added.as_bytes());
        self.bytes = bytes;
        Ok(())
    }

    /// Deletes the bytes from the place `from` to the place `to`. Refused exactly where one of them is
    /// no place, or `from` lies behind `to`. It takes no memory.
    pub fn delete(&mut self, from: usize, to: usize) -> Result<(), TextFault>
        ensures { Deletes self.old from to result self.new }
    {
        let len = self.len();
        if !self.is_place(from) || from > to {
            return Err(TextFault::BadPosition { at: from, len });
        }
        if !self.is_place(to) {
            return Err(TextFault::BadPosition { at: to, len });
        }
        self.cut(from, to);
        Ok(())
    }

    /// Takes out what stands between two places. Where the gap lies between them it stays; otherwise it moves to the
    /// nearer one.
    fn cut(&mut self, from: usize, to: usize)
        requires { IsRange self.old from to }
        ensures { self.new ≡ edited self.old from to [] }
    {
        let middle = self.bytes.front_len().max(from).min(to);
        move_gaps(&mut self.bytes, &mut self.feeds, middle);
        take_out(&mut self.bytes, &mut self.feeds, from, to - middle);
    }

    /// Makes changes one after another. It takes its memory first: where there is none, the text is as it was.
    pub fn apply(&mut self, changes: &Changes) -> Result<(), NoMemory>
        requires { AreChanges self.old changes.now }
        ensures changed { OnOk result (self.new ≡ changed self.old changes.now) }
        ensures unchanged { OnErr result (self.new ≡ self.old) }
    {
        let Some((bytes, feeds)) = put_in(changes.as_slice()) else {
            return Err(NoMemory);
        };
        self.bytes.make_room(bytes, 0)?;
        self.feeds.make_room(feeds, 0)?;
        let mut left = changes.as_slice();
        while let Some((change, others)) = left.split_first() {
            make(&mut self.bytes, &mut self.feeds, change);
            left = others;
        }
        Ok(())
    }

    /// A copy of the bytes from the place `from` to the place `to`.
    pub fn copy_range(&self, from: usize, to: usize) -> Result<Bytes, NoMemory>
        requires from { IsPlace self.now from }
        requires to { IsPlace self.now to }
        requires ordered { from ≤ to }
        ensures bytes { IfOk result (λ copied. copied ≡ slice_range self.now from to) }
        ensures utf8 { IfOk result IsUtf8 }
    {
        let mut copied = Bytes::from_vec(self.bytes.no_items());
        self.copy_range_into(from, to, &mut copied)?;
        Ok(copied)
    }

    /// Puts the bytes from the place `from` to the place `to` in the place of what a list held, in its room. Where there is no
    /// memory the list may hold anything. It stands out of line: most tokens lie in one piece, and are copied from there.
    #[inline(never)]
    pub fn copy_range_into(&self, from: usize, to: usize, list: &mut Bytes) -> Result<(), NoMemory>
        requires from { IsPlace self.now from }
        requires to { IsPlace self.now to }
        requires ordered { from ≤ to }
        ensures bytes { OnOk result (list.new ≡ slice_range self.now from to) }
        ensures utf8 { OnOk result (IsUtf8 list.new) }
    {
        let empty = Bytes::from_vec(self.bytes.no_items());
        let mut buffer = mem::replace(list, empty).into_vec();
        self.bytes.copy_range(from, to, &mut buffer)?;
        *list = Bytes::from_vec(buffer);
        Ok(())
    }

    /// Puts the first so many bytes of a piece in the place of what a list held, in its room. The whole piece is given, since up to 32 of
    /// its bytes are copied, however few are wanted. Where there is no memory the list may hold anything.
    #[inline(always)]
    pub fn copy_piece_into(
        &self,
        piece: &[u8],
        len: usize,
        list: &mut Bytes,
    ) -> Result<(), NoMemory>
        requires { len ≤ length piece.now }
        ensures { OnOk result (list.new ≡ take len piece.now) }
    {
        let empty = Bytes::from_vec(self.bytes.no_items());
        fill(list, empty, piece, len)?;
        Ok(())
    }

    /// The byte at the byte offset `at`; none exactly where that is at least the length.
    pub fn byte_at(&self, at: usize) -> Option<u8>
        ensures byte { result ≡ slice_get self.now at }
        ensures next_fits { OnSome result (at + 1 < 2 ^ 64) }
    {
        self.bytes.get(at)
    }

    /// The bytes from the byte offset `from` on, as far as they lie in one piece; none exactly where that is the length.
    pub fn piece_at(&self, from: usize) -> &[u8]
        requires { from ≤ length self.now }
        ensures piece { StandFrom self.now from result.now }
        ensures some { from < length self.now → 0 < length result.now }
        ensures fits { from + length result.now < 2 ^ 64 }
    {
        piece_of_both(self.bytes.front(), self.bytes.back(), from)
    }

    /// The first byte offset from `from` on at which the byte stands, or the length.
    pub fn find_byte(&self, from: usize, byte: u8) -> usize
        requires { from ≤ length self.now }
        ensures { result ≡ from + bytes_up_to byte (drop from self.now) }
    {
        find_in_both(self.bytes.front(), self.bytes.back(), from, byte)
    }

    /// The character that begins at the byte offset `at`; none exactly where that is the length, or no
    /// place.
    pub fn char_at(&self, at: usize) -> Option<char>
        ensures char { MatchOption result (HasNoCharAt self.now at) (StandsAt self.now at) }
        ensures next_fits { IfSome result (λ c. at + length (encode_utf8 c) < 2 ^ 64) }
    {
        match self.bytes.get(at) {
            None => None,
            Some(byte) if byte < 128 => Some(char::from(byte)),
            Some(_) => self.long_char_at(at),
        }
    }

    /// The same where a byte stands that is no character of its own.
    fn long_char_at(&self, at: usize) -> Option<char>
        ensures char { MatchOption result (HasNoCharAt self.now at) (StandsAt self.now at) }
        ensures next_fits { IfSome result (λ c. at + length (encode_utf8 c) < 2 ^ 64) }
    {
        let (front, back) = self.sides();
        if !apart::is_place(front, back, at) {
            return None;
        }
        apart::char_at(front, back, at)
    }

    /// The number of the line that the place lies in, counted from 1: one more than the line feeds in front of it.
    pub fn line_of(&self, at: usize) -> usize
        requires { IsPlace self.now at }
        ensures { result ≡ line_at self.now at }
    {
        feeds_before(&self.bytes, &self.feeds, at) + 1
    }

    /// The columns of a terminal that its line takes up to the place.
    pub fn column_of(&mut self, at: usize) -> usize
        requires { IsPlace self.old at }
        ensures column { result ≡ column_at self.old at }
        ensures text { self.new ≡ self.old }
    {
        let gap = self.bytes.front_len();
        if at <= gap {
            return column_in(as_text(self.bytes.front()), at);
        }
        if has_feed(self.bytes.back(), at - gap) {
            return column_in(as_text(self.bytes.back()), at - gap);
        }
        // the line begins in front of the gap
        move_gaps(&mut self.bytes, &mut self.feeds, at);
        column_in(as_text(self.bytes.front()), at)
    }

    /// The nearest border of grapheme clusters behind the place; none exactly where that is the end.
    pub fn next_grapheme(&mut self, at: usize) -> Option<usize>
        requires { IsPlace self.old at }
        ensures next { MatchOption result (at ≡ length self.old) (IsNextBorder self.old at) }
        ensures text { self.new ≡ self.old }
    {
        let (front, back) = self.sides();
        next_border(front, back, at)
    }

    /// The nearest border of grapheme clusters in front of the place; none exactly where that is the start.
    pub fn prev_grapheme(&mut self, at: usize) -> Option<usize>
        requires { IsPlace self.old at }
        ensures previous { MatchOption result (at ≡ 0) (IsPreviousBorder self.old at) }
        ensures text { self.new ≡ self.old }
    {
        let (front, back) = self.sides();
        previous_border(front, back, at)
    }
}
