//! The token at a place.

ghost use Rattle.std.specs.Prelude.{◌≡◌, ◌+◌, ◌-◌, ◌<◌, ◌≤◌, ◌^◌, ◌==◌, ◌&&◌, length, drop, slice_index, slice_range, IfOk, OnOk, IfSome};
ghost use Rattle.std.specs.Bool.{OnTrue};
ghost use Rattle.std.specs.Str.{IsUtf8};
ghost use Rattle.nx_base.specs.Characters.{is_space};
ghost use Rattle.nx_base.specs.Text.{IsPlace};
ghost use Rattle.nx_base.specs.Tokens.{CutAt, cut, cut_as, bytes_up_to, begins_with, begins_declaration, order_mark, first_token};
ghost use Rattle.nx_base.specs.Tokens.{markup, instruction, doctype, closed, unclosed, bad_rest, tag, tags, end_of};
ghost use Rattle.nx_text.specs.Reading.{StandFrom};
ghost use Rattle.nx_scan.specs.Ending.{EndsAt};

use crate::doctype::doctype_end;
use crate::mark::{byte_is, find_past, stands_at};
use crate::tag::TagState;
use crate::tag_part::{closed_name, read_on};
use nx_base::character::is_space;
use nx_base::memory::NoMemory;
use nx_base::sequence::Bytes;
use nx_base::steps::Steps;
use nx_base::token::{Token, TokenKind};
use nx_text::search::up_to_byte;
use nx_text::text::Text;
use std::alloc::Global;
use std::sync::ledger::Ledger;

/// The kind of a token, and the byte offset at which it ends.
#[derive(Clone, Copy, Debug, PartialEq, Eq)]
pub(crate) struct End {
    pub(crate) kind: TokenKind,
    pub(crate) place: usize,
}

impl End {
    fn new(kind: TokenKind, place: usize) -> End
        ensures kind { result.kind ≡ kind }
        ensures place { result.place ≡ place }
    {
        End { kind, place }
    }
}

/// A token that no mark ends.
fn unclosed_end(text: &Text, at: usize) -> End
    requires { at ≤ length text.now }
    ensures { EndsAt text.now at (unclosed (drop at text.now)) result }
{
    End {
        kind: TokenKind::Unclosed,
        place: text.len(),
    }
}

/// A token that ends with the first such mark which begins `skip` bytes on or later.
fn closed_end(text: &Text, at: usize, kind: TokenKind, skip: usize, mark: &[u8]) -> End
    requires utf8 { IsUtf8 text.now }
    requires within { at + skip ≤ length text.now }
    requires fits { at + skip < 2 ^ 64 }
    requires some { 0 < length mark.now }
    requires last { slice_index mark.now (length mark.now - 1) ≡ 62 }
    ensures { EndsAt text.now at (closed kind mark.now skip (drop at text.now)) result }
{
    match find_past(text, at + skip, mark) {
        Some(place) => End { kind, place },
        None => unclosed_end(text, at),
    }
}

/// A document type declaration.
fn declared_type_end(text: &Text, at: usize) -> End
    requires utf8 { IsUtf8 text.now }
    requires within { at + 9 ≤ length text.now }
    requires fits { at + 9 < 2 ^ 64 }
    ensures { EndsAt text.now at (doctype (drop at text.now)) result }
{
    match doctype_end(text, at + 9) {
        Some(place) => End {
            kind: TokenKind::Doctype,
            place,
        },
        None => unclosed_end(text, at),
    }
}

/// Whether white space stands at the byte offset `at`.
fn space_at(text: &Text, at: usize) -> bool
    ensures space { result ≡ is_space (slice_index text.now at) }
    ensures within { OnTrue result (at < length text.now) }
    ensures fits { OnTrue result (at + 1 < 2 ^ 64) }
{
    match text.byte_at(at) {
        Some(byte) => is_space(char::from(byte)),
        None => false,
    }
}

/// Whether `<?xml` and white space stand at `at`.
fn begins_declaration(text: &Text, at: usize) -> bool
    requires { at ≤ length text.now }
    ensures begins { result ≡ begins_declaration (drop at text.now) }
    ensures within { OnTrue result (at + 6 ≤ length text.now) }
    ensures fits { OnTrue result (at + 6 < 2 ^ 64) }
{
    if stands_at(text, at, b"<?xml") {
        space_at(text, at + 5)
    } else {
        false
    }
}

/// An XML declaration or a processing instruction. `<?` stands at `at`.
fn instruction_end(text: &Text, at: usize) -> End
    requires utf8 { IsUtf8 text.now }
    requires within { at + 2 ≤ length text.now }
    requires fits { at + 2 < 2 ^ 64 }
    ensures { EndsAt text.now at (instruction (drop at text.now)) result }
{
    if begins_declaration(text, at) {
        closed_end(text, at, TokenKind::Decl, 6, b"?>")
    } else {
        closed_end(text, at, TokenKind::Pi, 2, b"?>")
    }
}

/// A token that is none of the others, from the first character on through which none can stand: up to
/// the next `<`, through the next `>`, or to the end.
fn bad_end(text: &Text, from: usize) -> End
    requires utf8 { IsUtf8 text.now }
    requires within { from ≤ length text.now }
    ensures { EndsAt text.now from (cut_as TokenKind.Bad (bad_rest (drop from text.now))) result }
{
    let len = text.len();
    for place in from..len {
        if byte_is(text, place, b'<') {
            return End::new(TokenKind::Bad, place);
        }
        if byte_is(text, place, b'>') {
            return End::new(TokenKind::Bad, place + 1);
        }
    }
    End::new(TokenKind::Bad, len)
}

/// A tag, or a Bad token. A `<` stands at `at`.
fn tag_end(text: &Text, at: usize) -> End
    requires utf8 { IsUtf8 text.now }
    requires within { at < length text.now }
    requires fits { at + 1 < 2 ^ 64 }
    requires open { slice_index text.now at ≡ 60 }
    ensures { EndsAt text.now at (tag tags (drop at text.now)) result }
{
    let mut part = read_on(text, at + 1, TagState::Open);
    while let Some(c) = text.char_at(part.place) {
        let next = part.seen.then(c);
        let behind = part.place + c.len_utf8();
        match next {
            TagState::Start => return End::new(TokenKind::Start, behind),
            TagState::Empty => return End::new(TokenKind::Empty, behind),
            TagState::End => return End::new(TokenKind::End, behind),
            TagState::Lost => return bad_end(text, part.place),
            _ => {}
        }
        part = read_on(text, behind, next);
    }
    bad_end(text, part.place)
}

/// A token that begins with `<`, which stands at `at`, by its mark.
fn marked_end(text: &Text, at: usize) -> End
    requires utf8 { IsUtf8 text.now }
    requires within { at < length text.now }
    requires fits { at + 1 < 2 ^ 64 }
    requires open { slice_index text.now at ≡ 60 }
    ensures { EndsAt text.now at (markup (drop at text.now)) result }
{
    if stands_at(text, at, b"<!--") {
        closed_end(text, at, TokenKind::Comment, 4, b"-->")
    } else if stands_at(text, at, b"<![CDATA[") {
        closed_end(text, at, TokenKind::Cdata, 9, b"]]>")
    } else if stands_at(text, at, b"<!DOCTYPE") {
        declared_type_end(text, at)
    } else if stands_at(text, at, b"<?") {
        instruction_end(text, at)
    } else {
        tag_end(text, at)
    }
}

/// A token that begins with `<`, which stands at `at`.
#[inline(never)]
fn markup_end(text: &Text, at: usize) -> End
    requires utf8 { IsUtf8 text.now }
    requires within { at < length text.now }
    requires fits { at + 1 < 2 ^ 64 }
    requires open { slice_index text.now at ≡ 60 }
    ensures { EndsAt text.now at (markup (drop at text.now)) result }
{
    if byte_is(text, at + 1, b'!') {
        marked_end(text, at)
    } else if byte_is(text, at + 1, b'?') {
        marked_end(text, at)
    } else {
        tag_end(text, at)
    }
}

/// A token that begins with `<`, which stands at `at` with these bytes behind it. Most are tags that are a name alone, `<name>` or
/// `</name>`, where all its characters have one byte and stand here, and are read at once.
#[inline(always)]
fn markup_end_in(text: &Text, at: usize, behind: &[u8]) -> End
    requires utf8 { IsUtf8 text.now }
    requires within { at < length text.now }
    requires open { slice_index text.now at ≡ 60 }
    requires behind { StandFrom text.now (at + 1) behind.now }
    requires fits { at + 1 + length behind.now < 2 ^ 64 }
    ensures { EndsAt text.now at (markup (drop at text.now)) result }
{
    if !behind.is_empty() && behind[0] == b'/' {
        match closed_name(behind, 1) {
            Some(close) => End::new(TokenKind::End, at + 1 + close + 1),
            None => markup_end(text, at),
        }
    } else {
        match closed_name(behind, 0) {
            Some(close) => End::new(TokenKind::Start, at + 1 + close + 1),
            None => markup_end(text, at),
        }
    }
}

/// Whether a byte order mark stands at `at`. It is asked once for a text, so it stands out of the way of all other tokens.
#[inline(never)]
fn is_order_mark(text: &Text, at: usize) -> bool
    requires { at ≤ length text.now }
    ensures stands { result ≡ begins_with order_mark (drop at text.now) }
    ensures within { OnTrue result (at + 3 ≤ length text.now) }
{
    stands_at(text, at, &[0xEF, 0xBB, 0xBF])
}

/// Whether a byte order mark begins the text, and `at` is there.
fn at_order_mark(text: &Text, at: usize) -> bool
    requires { at ≤ length text.now }
    ensures begins { result ≡ (at == 0 && begins_with order_mark (drop at text.now)) }
    ensures within { OnTrue result (at + 3 ≤ length text.now) }
{
    if at == 0 {
        is_order_mark(text, at)
    } else {
        false
    }
}

/// Character data that goes on from `from` at the least, where no `<` was found before it.
#[inline(never)]
fn text_end(text: &Text, from: usize) -> End
    requires { from ≤ length text.now }
    ensures kind { result.kind ≡ TokenKind.Text }
    ensures first { result.place ≡ from + bytes_up_to 60 (drop from text.now) }
{
    End::new(TokenKind::Text, text.find_byte(from, b'<'))
}

/// The token at a place in front of the end, where these bytes stand. They tell all of most tokens; what they don't tell is looked for
/// in the text.
#[inline(always)]
fn token_end(text: &Text, at: usize, piece: &[u8]) -> End
    requires utf8 { IsUtf8 text.now }
    requires within { at < length text.now }
    requires piece { StandFrom text.now at piece.now }
    requires some { 0 < length piece.now }
    requires fits { at + length piece.now < 2 ^ 64 }
    ensures { EndsAt text.now at (first_token (at == 0) (drop at text.now)) result }
{
    if at_order_mark(text, at) {
        return End {
            kind: TokenKind::Bom,
            place: 3,
        };
    }
    if piece[0] == b'<' {
        return markup_end_in(text, at, &piece[1..]);
    }
    let len = up_to_byte(piece, b'<');
    if len < piece.len() {
        End::new(TokenKind::Text, at + len)
    } else {
        text_end(text, at + len)
    }
}

/// Puts the bytes from one place to another in the place of what a list held, where these bytes stand at the first.
#[inline(always)]
fn copy_from_piece(
    text: &Text,
    at: usize,
    piece: &[u8],
    to: usize,
    list: &mut Bytes,
) -> Result<(), NoMemory>
    requires from { IsPlace text.now at }
    requires to { IsPlace text.now to }
    requires ordered { at ≤ to }
    requires piece { StandFrom text.now at piece.now }
    ensures { OnOk result (list.new ≡ slice_range text.now at to) }
{
    let len = to - at;
    if len <= piece.len() {
        text.copy_piece_into(piece, len, list)
    } else {
        text.copy_range_into(at, to, list)
    }
}

/// The token that is cut at the place `at`; none exactly at the length. It counts one step, and reads each
/// byte of the token a bounded number of times.
pub fn scan_token<L: Ledger>(
    alloc: Global,
    text: &Text,
    at: usize,
    steps: &mut Steps<L>,
) -> Result<Option<Token>, NoMemory>
    requires { IsPlace text.now at }
    ensures token { IfOk result (CutAt text.now at) }
    ensures utf8 { IfOk result (λ found. IfSome found (λ token. IsUtf8 token.bytes)) }
    ensures border { IfOk result (λ found. IfSome found (λ token. IsPlace text.now (end_of token))) }
    ensures step { steps.new ≡ steps.old + 1 }
{
    if at == text.len() {
        steps.tick();
        return Ok(None);
    }
    let mut token = Token {
        kind: TokenKind::Text,
        from: at,
        bytes: Bytes::new(alloc),
    };
    scan_token_into(text, at, &mut token, steps)?;
    Ok(Some(token))
}

/// Puts the token that is cut at the place `at`, which isn't the length, in the place of another, its bytes in the room of those. So
/// whoever cuts many tokens takes memory for the longest of them alone. It counts one step, and reads each byte of the token a bounded
/// number of times. Where there is no memory the token may be anything.
pub fn scan_token_into<L: Ledger>(
    text: &Text,
    at: usize,
    token: &mut Token,
    steps: &mut Steps<L>,
) -> Result<(), NoMemory>
    requires place { IsPlace text.now at }
    requires rest { at < length text.now }
    ensures token { OnOk result (token.new ≡ cut text.now at) }
    ensures utf8 { OnOk result (IsUtf8 token.new.bytes) }
    ensures border { OnOk result (IsPlace text.now (end_of token.new)) }
    ensures step { steps.new ≡ steps.old + 1 }
{
    steps.tick();
    // A length that is read is known to be that of UTF-8, and to fit.
    let _len = text.len();
    let piece = text.piece_at(at);
    let end = token_end(text, at, piece);
    token.kind = end.kind;
    token.from = at;
    copy_from_piece(text, at, piece, end.place, &mut token.bytes)?;
    Ok(())
}
