//! Annotations, which reading passes over.

ghost use Rattle.std.specs.Prelude.{◌≡◌, option_copied, reverse};
ghost use Rattle.rnc_parse.specs.Reading.{Finds, first};
ghost use Rattle.rnc_parse.specs.ReadingAnnotations.{bracket_of, behind_bracket, LeavesClosers, is_element_name, is_follower, group_at};
ghost use Rattle.rnc_parse.specs.ReadingAnnotations.{opening_at, follower_at, follow_at};

use crate::cursor::Cursor;
use crate::stop::Stop;
use rnc_lex::token::{Lexeme, Symbol};
use std::alloc::Global;

/// What a token is among brackets.
#[derive(Clone, Copy)]
pub(crate) enum Bracket {
    /// No bracket.
    Plain,
    /// One that opens, told by the one that closes it.
    Opens(Symbol),
    /// One that closes.
    Closes(Symbol),
}

/// What a token is among brackets.
fn bracket_of(token: &Lexeme) -> Bracket
    ensures { result ≡ bracket_of token.now }
{
    match token {
        Lexeme::Symbol(Symbol::LeftBrace) => Bracket::Opens(Symbol::RightBrace),
        Lexeme::Symbol(Symbol::LeftParenthesis) => Bracket::Opens(Symbol::RightParenthesis),
        Lexeme::Symbol(Symbol::LeftBracket) => Bracket::Opens(Symbol::RightBracket),
        Lexeme::Symbol(Symbol::RightBrace) => Bracket::Closes(Symbol::RightBrace),
        Lexeme::Symbol(Symbol::RightParenthesis) => Bracket::Closes(Symbol::RightParenthesis),
        Lexeme::Symbol(Symbol::RightBracket) => Bracket::Closes(Symbol::RightBracket),
        _ => Bracket::Plain,
    }
}

/// Whether the token may name an annotation among items.
pub(crate) fn is_element_name(token: Option<&Lexeme>) -> bool
    ensures { result ≡ is_element_name (option_copied token.entry) }
{
    matches!(
        token,
        Some(Lexeme::Identifier(_) | Lexeme::PrefixedName(_, _))
    )
}

/// Whether the token may name an annotation that follows.
fn is_follower(token: Option<&Lexeme>) -> bool
    ensures { result ≡ is_follower (option_copied token.entry) }
{
    matches!(token, Some(Lexeme::Keyword(_))) || is_element_name(token)
}

/// Goes past a token, with the brackets that are to come behind it, the next one last.
fn pass(closers: &mut Vec<Symbol>, token: &Lexeme) -> Result<(), Stop>
    ensures { LeavesClosers (reverse closers.new.items) result (behind_bracket (bracket_of token.now) (reverse closers.old.items)) }
{
    match bracket_of(token) {
        Bracket::Plain => Ok(()),
        Bracket::Opens(closer) => {
            closers.push(closer)?;
            Ok(())
        }
        Bracket::Closes(closer) => match closers.pop() {
            Some(next) if next == closer => Ok(()),
            _ => Err(Stop::Syntax),
        },
    }
}

/// Goes past a group.
#[tactic(auto, unfolding(crate::specs::ReadingAnnotations::group_at))]
pub(crate) fn group(alloc: Global, cursor: &mut Cursor<'_>) -> Result<(), Stop>
    ensures { Finds (λ _. tt) cursor.new result (group_at cursor.old) }
{
    cursor.expect(Symbol::LeftBracket)?;
    let mut closers = Vec::new(alloc);
    closers.push(Symbol::RightBracket)?;
    while let Some(token) = cursor.first() {
        pass(&mut closers, token)?;
        cursor.advance();
        if closers.is_empty() {
            return Ok(());
        }
    }
    Err(Stop::Syntax)
}

/// Goes past a group, if one is there.
#[tactic(auto, unfolding(crate::specs::ReadingAnnotations::opening_at))]
pub(crate) fn opening(alloc: Global, cursor: &mut Cursor<'_>) -> Result<(), Stop>
    ensures { Finds (λ _. tt) cursor.new result (opening_at cursor.old) }
{
    if cursor.stands(Symbol::LeftBracket) {
        return group(alloc, cursor);
    }
    Ok(())
}

/// Goes past `>>`, a name and a group.
#[tactic(auto, unfolding(crate::specs::ReadingAnnotations::follower_at))]
fn follower(alloc: Global, cursor: &mut Cursor<'_>) -> Result<(), Stop>
    ensures { Finds (λ _. tt) cursor.new result (follower_at cursor.old) }
{
    cursor.expect(Symbol::Follows)?;
    if !is_follower(cursor.first()) {
        return Err(Stop::Syntax);
    }
    cursor.advance();
    group(alloc, cursor)
}

/// Goes past all that follows.
#[tactic(auto, unfolding(crate::specs::ReadingAnnotations::follow_at))]
pub(crate) fn follow(alloc: Global, cursor: &mut Cursor<'_>) -> Result<(), Stop>
    ensures { Finds (λ _. tt) cursor.new result (follow_at cursor.old) }
{
    while cursor.stands(Symbol::Follows) {
        follower(alloc, cursor)?;
    }
    Ok(())
}
