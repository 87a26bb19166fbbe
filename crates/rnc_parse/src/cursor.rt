//! The tokens that are still to be read.

ghost use Rattle.std.specs.Prelude.{◌≡◌, option_copied, map, length};
ghost use Rattle.rnc_parse.specs.Reading.{Finds, first, behind, stands, behind_symbol};
ghost use Rattle.rnc_parse.specs.ReadingParts.{goes_on};

use crate::stop::Stop;
use rnc_lex::token::{Lexeme, RncToken, Symbol};
use std::marker::Model;

/// The tokens that are still to be read. Where reading stops, nothing is said of what is left.
#[derive(Drop)]
pub(crate) struct Cursor<'a> {
    rest: &'a [RncToken],
}

impl<'a> Model for Cursor<'a> {
    ghost use Rattle.std.specs.Prelude.{List, map};
    ghost use Rattle.rnc_lex.specs.declared.token.Lexeme.{Lexeme};
    ghost use Rattle.rnc_lex.specs.declared.token.RncToken.{RncToken};

    ghost Value = { List Lexeme };

    ghost view = { λ c. map (λ (t : RncToken). t.lexeme) c.rest.now };
}

impl<'a> Cursor<'a> {
    /// All of these tokens.
    pub(crate) fn new(rest: &'a [RncToken]) -> Self
        ensures { result ≡ map (λ t. t.lexeme) rest.now }
    {
        Cursor { rest }
    }

    /// Another cursor, at the same tokens.
    pub(crate) fn ahead(&self) -> Cursor<'a>
        ensures { result ≡ self.now }
    {
        Cursor { rest: self.rest }
    }

    /// How many tokens are left.
    pub(crate) fn len(&self) -> usize
        ensures { result ≡ length self.now }
    {
        self.rest.len()
    }

    /// The first token.
    #[tactic(auto, unfolding(crate::specs::Reading::first))]
    pub(crate) fn first(&self) -> Option<&'a Lexeme>
        ensures { option_copied result ≡ first self.now }
    {
        match self.rest {
            [token, ..] => Some(&token.lexeme),
            [] => None,
        }
    }

    /// The token behind the first.
    #[tactic(auto, unfolding(crate::specs::Reading::first, crate::specs::Reading::behind))]
    pub(crate) fn second(&self) -> Option<&'a Lexeme>
        ensures { option_copied result ≡ first (behind self.now) }
    {
        match self.rest {
            [_, token, ..] => Some(&token.lexeme),
            _ => None,
        }
    }

    /// Goes past the first token, if there is one.
    #[tactic(auto, unfolding(crate::specs::Reading::behind))]
    pub(crate) fn advance(&mut self)
        ensures { self.new ≡ behind self.old }
    {
        if let [_, rest @ ..] = self.rest {
            self.rest = rest;
        }
    }

    /// Whether the symbol is the first token.
    pub(crate) fn stands(&self, symbol: Symbol) -> bool
        ensures { result ≡ stands symbol self.now }
    {
        match self.first() {
            Some(Lexeme::Symbol(other)) => symbol == *other,
            _ => false,
        }
    }

    /// Whether more stands in front of the brace that closes.
    pub(crate) fn goes_on(&self) -> bool
        ensures { result ≡ goes_on self.now }
    {
        self.first().is_some() && !self.stands(Symbol::RightBrace)
    }

    /// Goes past the symbol.
    #[tactic(auto, unfolding(crate::specs::Reading::behind_symbol))]
    pub(crate) fn expect(&mut self, symbol: Symbol) -> Result<(), Stop>
        ensures { Finds (λ _. tt) self.new result (behind_symbol symbol self.old) }
    {
        if !self.stands(symbol) {
            return Err(Stop::Syntax);
        }
        self.advance();
        Ok(())
    }
}
