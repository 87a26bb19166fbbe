//! Tokens of the compact syntax (ISO/IEC 19757-2, Annex C).

use nx_base::sequence::{Bytes, Sequence};

/// The words that are keywords where they aren't escaped.
#[derive(Clone, Copy, Debug, PartialEq, Eq)]
pub enum Keyword {
    Attribute,
    Default,
    Datatypes,
    Div,
    Element,
    Empty,
    External,
    Grammar,
    Include,
    Inherit,
    List,
    Mixed,
    Namespace,
    NotAllowed,
    Parent,
    Start,
    String,
    Text,
    Token,
}

/// The marks of the syntax.
#[derive(Clone, Copy, Debug, PartialEq, Eq)]
pub enum Symbol {
    /// `{`
    LeftBrace,
    /// `}`
    RightBrace,
    /// `(`
    LeftParenthesis,
    /// `)`
    RightParenthesis,
    /// `[`
    LeftBracket,
    /// `]`
    RightBracket,
    /// `=`
    Equals,
    /// `|=`
    BarEquals,
    /// `&=`
    AmpersandEquals,
    /// `,`
    Comma,
    /// `|`
    Bar,
    /// `&`
    Ampersand,
    /// `?`
    QuestionMark,
    /// `*`
    Star,
    /// `+`
    Plus,
    /// `-`
    Minus,
    /// `~`
    Tilde,
    /// `>>`
    Follows,
}

/// What a token is. Its texts are UTF-8, as they stand after escapes.
#[derive(Drop)]
pub enum Lexeme {
    /// An NCName that is no keyword, or that stands behind a `\`.
    Identifier(Bytes),
    /// A keyword.
    Keyword(Keyword),
    /// `a:b`, a prefix and a local name.
    PrefixedName(Bytes, Bytes),
    /// `a:*`, the names of a prefix's namespace.
    NamespaceWildcard(Bytes),
    /// What stands between a literal's quotes.
    Literal(Bytes),
    /// A mark.
    Symbol(Symbol),
}

/// A token, and the byte offset at which it begins in the text as it is written, where escapes have their full length.
#[derive(Drop)]
pub struct RncToken {
    pub at: usize,
    pub lexeme: Lexeme,
}

/// The tokens of a text, in order.
pub type RncTokens = Sequence<RncToken>;
