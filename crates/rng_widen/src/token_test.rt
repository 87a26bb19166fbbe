//! Tests of tokens of the compact syntax.

ghost use Rattle.std.specs.Prelude.{◌≡◌, option_copied};
ghost use Rattle.rng_widen.specs.CompactTokens.{begins, is_left_brace, is_right_brace, is_left_bracket, is_left_parenthesis, is_equals};
ghost use Rattle.rng_widen.specs.CompactTokens.{is_tilde, is_literal, opens_bracket, closes_bracket, is_datatypes, name_of};

use rnc_lex::keyword::spelling;
use rnc_lex::token::{Keyword, Lexeme, RncToken, Symbol};

pub(crate) fn is_left_brace(token: &Lexeme) -> bool
    ensures { result ≡ is_left_brace token.now }
{
    matches!(token, Lexeme::Symbol(Symbol::LeftBrace))
}

pub(crate) fn is_right_brace(token: &Lexeme) -> bool
    ensures { result ≡ is_right_brace token.now }
{
    matches!(token, Lexeme::Symbol(Symbol::RightBrace))
}

pub(crate) fn is_left_bracket(token: &Lexeme) -> bool
    ensures { result ≡ is_left_bracket token.now }
{
    matches!(token, Lexeme::Symbol(Symbol::LeftBracket))
}

pub(crate) fn is_left_parenthesis(token: &Lexeme) -> bool
    ensures { result ≡ is_left_parenthesis token.now }
{
    matches!(token, Lexeme::Symbol(Symbol::LeftParenthesis))
}

pub(crate) fn is_equals(token: &Lexeme) -> bool
    ensures { result ≡ is_equals token.now }
{
    matches!(token, Lexeme::Symbol(Symbol::Equals))
}

pub(crate) fn is_tilde(token: &Lexeme) -> bool
    ensures { result ≡ is_tilde token.now }
{
    matches!(token, Lexeme::Symbol(Symbol::Tilde))
}

pub(crate) fn is_literal(token: &Lexeme) -> bool
    ensures { result ≡ is_literal token.now }
{
    matches!(token, Lexeme::Literal(_))
}

/// Whether a bracket of any kind is opened.
pub(crate) fn opens_bracket(token: &Lexeme) -> bool
    ensures { result ≡ opens_bracket token.now }
{
    matches!(
        token,
        Lexeme::Symbol(Symbol::LeftBrace | Symbol::LeftParenthesis | Symbol::LeftBracket)
    )
}

/// Whether a bracket of any kind is closed.
pub(crate) fn closes_bracket(token: &Lexeme) -> bool
    ensures { result ≡ closes_bracket token.now }
{
    matches!(
        token,
        Lexeme::Symbol(Symbol::RightBrace | Symbol::RightParenthesis | Symbol::RightBracket)
    )
}

pub(crate) fn is_datatypes(token: &Lexeme) -> bool
    ensures { result ≡ is_datatypes token.now }
{
    matches!(token, Lexeme::Keyword(Keyword::Datatypes))
}

/// A name, also one that is a keyword elsewhere.
pub(crate) fn name_of(token: &Lexeme) -> Option<&[u8]>
    ensures { option_copied result ≡ name_of token.now }
{
    match token {
        Lexeme::Identifier(name) => Some(name.as_slice()),
        Lexeme::Keyword(keyword) => Some(spelling(*keyword).as_bytes()),
        _ => None,
    }
}

pub(crate) fn begins_tilde(tokens: &[RncToken]) -> bool
    ensures { result ≡ begins is_tilde tokens.now }
{
    match tokens.split_first() {
        Some((token, _)) => is_tilde(&token.lexeme),
        None => false,
    }
}

pub(crate) fn begins_literal(tokens: &[RncToken]) -> bool
    ensures { result ≡ begins is_literal tokens.now }
{
    match tokens.split_first() {
        Some((token, _)) => is_literal(&token.lexeme),
        None => false,
    }
}

pub(crate) fn begins_bracket(tokens: &[RncToken]) -> bool
    ensures { result ≡ begins is_left_bracket tokens.now }
{
    match tokens.split_first() {
        Some((token, _)) => is_left_bracket(&token.lexeme),
        None => false,
    }
}
