//! Tags, one by one.

ghost use Rattle.std.specs.Prelude.{◌≡◌, ◌<◌, length, IfOk, option_map};
ghost use Rattle.nx_base.specs.Text.{IsPlace};
ghost use Rattle.nx_base.specs.Tokens.{cut};
ghost use Rattle.nx_move.specs.Tags.{tag_kind};
ghost use Rattle.nx_move.specs.Walks.{IsPiece, NextPiece, NextTag};

use nx_base::memory::NoMemory;
use nx_base::steps::Steps;
use nx_base::token::{Token, TokenKind};
use nx_scan::scan::scan_token;
use nx_text::text::Text;
use std::alloc::Global;
use std::sync::ledger::Ledger;

/// The kinds of tags.
#[derive(Clone, Copy, Debug, PartialEq, Eq)]
pub enum TagKind {
    Start,
    Empty,
    End,
}

/// A tag of a text, from the byte offset `from` to `to`.
#[derive(Clone, Copy, Debug, PartialEq, Eq)]
pub struct Tag {
    pub kind: TagKind,
    pub from: usize,
    pub to: usize,
}

/// Which tokens are tags.
fn kind_of(kind: TokenKind) -> Option<TagKind>
    ensures { result ≡ tag_kind kind }
{
    match kind {
        TokenKind::Start => Some(TagKind::Start),
        TokenKind::Empty => Some(TagKind::Empty),
        TokenKind::End => Some(TagKind::End),
        TokenKind::Bom
        | TokenKind::Text
        | TokenKind::Comment
        | TokenKind::Pi
        | TokenKind::Cdata
        | TokenKind::Doctype
        | TokenKind::Decl
        | TokenKind::Bad
        | TokenKind::Unclosed => None,
    }
}

/// The tag that a token of this kind is, between two byte offsets; none where it is no tag.
fn tag_between(kind: TokenKind, from: usize, to: usize) -> Option<Tag>
    ensures { result ≡ option_map (λ kind. record { kind = kind; from = from; to = to }) (tag_kind kind) }
{
    match kind_of(kind) {
        Some(kind) => Some(Tag { kind, from, to }),
        None => None,
    }
}

/// A token as far as its tags are concerned: the tag that it is, if it is one, and the byte offset at which it ends.
#[derive(Clone, Copy, Debug, PartialEq, Eq)]
pub(crate) struct Piece {
    pub(crate) tag: Option<Tag>,
    pub(crate) to: usize,
}

/// The token that was cut at a border.
fn piece_of(text: &Text, at: usize, token: &Token) -> Piece
    requires place { IsPlace text.now at }
    requires rest { at < length text.now }
    requires token { token.now ≡ cut text.now at }
    ensures { IsPiece text.now at result }
{
    // It is UTF-8, so tokens end at places.
    let _end = text.len();
    let len = token.bytes.len();
    let to = at + len;
    Piece {
        tag: tag_between(token.kind, at, to),
        to,
    }
}

/// The token at a border; none exactly at the end.
pub(crate) fn next_piece<L: Ledger>(
    alloc: Global,
    text: &Text,
    at: usize,
    steps: &mut Steps<L>,
) -> Result<Option<Piece>, NoMemory>
    requires { IsPlace text.now at }
    ensures { IfOk result (NextPiece text.now at) }
{
    match scan_token(alloc, text, at, steps)? {
        Some(token) => Ok(Some(piece_of(text, at, &token))),
        None => Ok(None),
    }
}

/// The first tag from a border on; none exactly where there is none.
pub(crate) fn next_tag<L: Ledger>(
    alloc: Global,
    text: &Text,
    from: usize,
    steps: &mut Steps<L>,
) -> Result<Option<Tag>, NoMemory>
    requires { IsPlace text.now from }
    ensures { IfOk result (NextTag text.now from) }
{
    let mut place = from;
    loop {
        let Some(piece) = next_piece(alloc, text, place, steps)? else {
            return Ok(None);
        };
        place = piece.to;
        if let Some(tag) = piece.tag {
            return Ok(Some(tag));
        }
    }
}
