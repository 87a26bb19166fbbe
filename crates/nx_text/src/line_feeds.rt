//! The line feeds of a text that is kept with a gap.
//!
//! Those in front of the gap are kept by their offsets, those behind it by how far they are from the text's end. So
//! what is put in and taken out at the gap changes no number that is kept.

ghost use Rattle.std.specs.Prelude.{◌≡◌, ◌+◌, ◌-◌, ◌<◌, ◌≤◌, ◌^◌, ◌++◌, List, ℕ, length, take, drop, count_by};
ghost use Rattle.nx_text.specs.Feeds.{IsKept, IsIndex, joined, feeds_of, feeds_from, feeds_to_end};
ghost use Rattle.nx_text.specs.Places.{is_line_feed};
ghost use Rattle.nx_base.specs.Text.{IsPlace};
ghost use Rattle.std.specs.Str.{IsUtf8};

use crate::gap_buffer::GapBuffer;
use crate::search::first_byte;

/// How many of the line feeds stand in front of an offset.
fn feeds_below(feeds: &[usize], at: usize) -> usize
    ensures bound { result ≤ length feeds.now }
    ensures count { (text : List ℕ) → feeds.now ≡ feeds_of text → result ≡ count_by is_line_feed (take at text) }
{
    feeds.partition_point(|feed| *feed < at)
}

/// How many of the line feeds are farther from the end than a number of bytes.
fn feeds_beyond(feeds: &[usize], left: usize) -> usize
    ensures bound { result ≤ length feeds.now }
    ensures count { (text : List ℕ) (at : ℕ) → feeds.now ≡ feeds_to_end text → at ≤ length text →
        left ≡ length text - at → result ≡ count_by is_line_feed (take at text) }
{
    feeds.partition_point(|feed| *feed > left)
}

/// How many line feeds stand in front of an offset of the text.
pub(crate) fn feeds_before(bytes: &GapBuffer<u8>, feeds: &GapBuffer<usize>, at: usize) -> usize
    requires kept { IsKept bytes.now feeds.now }
    requires inside { at ≤ length (joined bytes.now) }
    ensures count { result ≡ count_by is_line_feed (take at (joined bytes.now)) }
    ensures fits { result + 1 < 2 ^ 64 }
{
    if at <= bytes.front_len() {
        feeds_below(feeds.front(), at)
    } else {
        let front = feeds.front().len();
        front + feeds_beyond(feeds.back(), bytes.len() - at)
    }
}

/// Takes feeds from in front of the index's gap to behind it, until there are no more in front than are wanted.
fn lower_gap(bytes: &GapBuffer<u8>, feeds: &mut GapBuffer<usize>, count: usize)
    requires { IsIndex (joined bytes.now) feeds.old }
    ensures index { IsIndex (joined bytes.now) feeds.new }
    ensures room { feeds.new.room ≡ feeds.old.room }
    ensures few { length feeds.new.front ≤ count }
{
    if feeds.front_len() <= count {
        return;
    }
    let len = bytes.len();
    let mut moved = feeds.take();
    while count < moved.front_len() {
        let feed = moved.pop();
        moved.push_back(len - feed);
    }
    *feeds = moved;
}

/// Takes feeds from behind the index's gap to in front of it, until there are as many in front as are wanted.
fn raise_gap(bytes: &GapBuffer<u8>, feeds: &mut GapBuffer<usize>, count: usize)
    requires index { IsIndex (joined bytes.now) feeds.old }
    requires few { length feeds.old.front ≤ count }
    requires all { count ≤ length (feeds_of (joined bytes.now)) }
    ensures index { IsIndex (joined bytes.now) feeds.new }
    ensures room { feeds.new.room ≡ feeds.old.room }
    ensures count { length feeds.new.front ≡ count }
{
    if feeds.front_len() == count {
        return;
    }
    let len = bytes.len();
    let mut moved = feeds.take();
    while moved.front_len() < count {
        let left = moved.pop_back();
        moved.push(len - left);
    }
    *feeds = moved;
}

/// Moves both gaps to a place.
pub(crate) fn move_gaps(bytes: &mut GapBuffer<u8>, feeds: &mut GapBuffer<usize>, at: usize)
    requires kept { IsKept bytes.old feeds.old }
    requires place { IsPlace (joined bytes.old) at }
    ensures kept { IsKept bytes.new feeds.new }
    ensures front { bytes.new.front ≡ take at (joined bytes.old) }
    ensures back { bytes.new.back ≡ drop at (joined bytes.old) }
    ensures gap { length bytes.new.front ≡ at }
    ensures room { bytes.new.room ≡ bytes.old.room }
    ensures feeds_room { feeds.new.room ≡ feeds.old.room }
{
    let count = feeds_before(bytes, feeds, at);
    lower_gap(bytes, feeds, count);
    raise_gap(bytes, feeds, count);
    bytes.move_gap(at);
}

/// How many bytes are counted at once: fewer than 256, so that their count is a byte, and a multiple of what a register holds.
const CHUNK: usize = 192;

/// How many line feeds there are in so few bytes that their count is a byte.
fn count_few(bytes: &[u8]) -> u8
    requires { length bytes.now ≤ 192 }
    ensures { result ≡ count_by is_line_feed bytes.now }
{
    let mut count: u8 = 0;
    for (i, byte) in bytes.iter().enumerate() {
        if *byte == b'\n' {
            count += 1;
        }
    }
    count
}

/// How many line feeds a text has.
pub(crate) fn count_feeds(text: &[u8]) -> usize
    ensures { result ≡ count_by is_line_feed text.now }
{
    let mut count: usize = 0;
    let mut left = text;
    while left.len() > CHUNK {
        count += usize::from(count_few(&left[..CHUNK]));
        left = &left[CHUNK..];
    }
    count + usize::from(count_few(left))
}

/// Puts the line feeds of what was put in at an offset in at the index's gap.
pub(crate) fn push_feeds(feeds: &mut GapBuffer<usize>, at: usize, added: &[u8])
    requires room { count_by is_line_feed added.now ≤ feeds.old.room }
    requires fits { at + length added.now < 2 ^ 64 }
    ensures front { feeds.new.front ≡ feeds.old.front ++ feeds_from at added.now }
    ensures back { feeds.new.back ≡ feeds.old.back }
    ensures room { feeds.old.room ≤ feeds.new.room + count_by is_line_feed added.now }
{
    let mut left = added;
    while let Some(before) = first_byte(left, b'\n') {
        feeds.push(at + (added.len() - left.len()) + before);
        left = &left[before + 1..];
    }
}

/// Takes the bytes from an offset up to the gap out, and as many behind it.
pub(crate) fn take_out(
    bytes: &mut GapBuffer<u8>,
    feeds: &mut GapBuffer<usize>,
    from: usize,
    behind: usize,
)
    requires kept { IsKept bytes.old feeds.old }
    requires front { from ≤ length bytes.old.front }
    requires back { behind ≤ length bytes.old.back }
    requires front_utf8 { IsUtf8 (take from bytes.old.front) }
    requires back_utf8 { IsUtf8 (drop behind bytes.old.back) }
    ensures kept { IsKept bytes.new feeds.new }
    ensures front { bytes.new.front ≡ take from bytes.old.front }
    ensures back { bytes.new.back ≡ drop behind bytes.old.back }
    ensures room { bytes.old.room ≤ bytes.new.room }
    ensures feeds_room { feeds.old.room ≤ feeds.new.room }
{
    let kept = feeds_below(feeds.front(), from);
    let dropped = feeds_beyond(feeds.back(), bytes.back().len() - behind);
    feeds.keep_front(kept);
    feeds.drop_back(dropped);
    bytes.keep_front(from);
    bytes.drop_back(behind);
}
