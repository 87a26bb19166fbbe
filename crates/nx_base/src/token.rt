//! Tokens of a text.

use crate::sequence::Bytes;

/// The kinds of tokens that a text is cut into.
#[derive(Clone, Copy, Debug, PartialEq, Eq)]
pub enum TokenKind {
    /// A byte order mark, at 0 only.
    Bom,
    /// Character data, up to the next `<`.
    Text,
    /// A start tag.
    Start,
    /// An empty-element tag.
    Empty,
    /// An end tag.
    End,
    /// A comment.
    Comment,
    /// A processing instruction.
    Pi,
    /// A CDATA section.
    Cdata,
    /// A document type declaration.
    Doctype,
    /// An XML declaration.
    Decl,
    /// Markup that is none of these.
    Bad,
    /// Markup that reaches the end of the text without its own end.
    Unclosed,
}

/// The bytes from the byte offset `from` on that one token covers.
#[derive(Drop)]
pub struct Token {
    pub kind: TokenKind,
    pub from: usize,
    pub bytes: Bytes,
}
