//! The signs between particles, and the marks behind them.

ghost use Rattle.std.specs.Prelude.{◌≡◌, option_copied};
ghost use Rattle.rnc_parse.specs.ReadingPatterns.{sign_of, sign_symbol, repeat_of};

use rnc_lex::token::{Lexeme, Symbol};

/// A sign between particles.
#[derive(Clone, Copy)]
pub(crate) enum Sign {
    /// `,`
    Group,
    /// `|`
    Choice,
    /// `&`
    Interleave,
}

/// A mark behind a primary.
#[derive(Clone, Copy)]
pub(crate) enum Repeat {
    /// `?`
    Optional,
    /// `*`
    ZeroOrMore,
    /// `+`
    OneOrMore,
}

/// The sign that a token is.
pub(crate) fn sign_of(token: Option<&Lexeme>) -> Option<Sign>
    ensures { result ≡ sign_of (option_copied token.entry) }
{
    match token {
        Some(Lexeme::Symbol(Symbol::Comma)) => Some(Sign::Group),
        Some(Lexeme::Symbol(Symbol::Bar)) => Some(Sign::Choice),
        Some(Lexeme::Symbol(Symbol::Ampersand)) => Some(Sign::Interleave),
        _ => None,
    }
}

/// How a sign is written.
pub(crate) fn sign_symbol(sign: Sign) -> Symbol
    ensures { result ≡ sign_symbol sign }
{
    match sign {
        Sign::Group => Symbol::Comma,
        Sign::Choice => Symbol::Bar,
        Sign::Interleave => Symbol::Ampersand,
    }
}

/// The mark that a token is.
pub(crate) fn repeat_of(token: Option<&Lexeme>) -> Option<Repeat>
    ensures { result ≡ repeat_of (option_copied token.entry) }
{
    match token {
        Some(Lexeme::Symbol(Symbol::QuestionMark)) => Some(Repeat::Optional),
        Some(Lexeme::Symbol(Symbol::Star)) => Some(Repeat::ZeroOrMore),
        Some(Lexeme::Symbol(Symbol::Plus)) => Some(Repeat::OneOrMore),
        _ => None,
    }
}
