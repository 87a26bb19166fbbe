//! The marks.

ghost use Rattle.std.specs.Prelude.{◌≡◌};
ghost use Rattle.rnc_lex.specs.Reading.{single_symbol, double_symbol};

use crate::token::Symbol;

/// The mark of one character, if it is one.
#[tactic(auto, unfolding(crate::specs::Reading::single_symbol))]
pub(crate) fn single_symbol(c: char) -> Option<Symbol>
    ensures { result ≡ single_symbol c }
{
    match c {
        '{' => Some(Symbol::LeftBrace),
        '}' => Some(Symbol::RightBrace),
        '(' => Some(Symbol::LeftParenthesis),
        ')' => Some(Symbol::RightParenthesis),
        '[' => Some(Symbol::LeftBracket),
        ']' => Some(Symbol::RightBracket),
        '=' => Some(Symbol::Equals),
        ',' => Some(Symbol::Comma),
        '|' => Some(Symbol::Bar),
        '&' => Some(Symbol::Ampersand),
        '?' => Some(Symbol::QuestionMark),
        '*' => Some(Symbol::Star),
        '+' => Some(Symbol::Plus),
        '-' => Some(Symbol::Minus),
        '~' => Some(Symbol::Tilde),
        _ => None,
    }
}

/// The mark of two characters, if they are one.
#[tactic(auto, unfolding(crate::specs::Reading::double_symbol))]
pub(crate) fn double_symbol(c: char, next: char) -> Option<Symbol>
    ensures { result ≡ double_symbol c next }
{
    match (c, next) {
        ('|', '=') => Some(Symbol::BarEquals),
        ('&', '=') => Some(Symbol::AmpersandEquals),
        ('>', '>') => Some(Symbol::Follows),
        _ => None,
    }
}
