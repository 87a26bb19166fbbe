//! What stands in front of a token of the compact syntax.

ghost use Rattle.std.specs.Prelude.{◌≡◌, ◌<◌, IfOk};
ghost use Rattle.rng_widen.specs.CompactPlaces.{opens_class, type_of_name, takes_type, behind_mark, behind_type};
ghost use Rattle.rng_widen.specs.CompactPlaces.{behind_keyword, behind_param, behind_typed};
ghost use Rattle.rng_widen.specs.CompactPlaces.{behind_name, behind_token, behind_class, behind_stand, annotated, is_except, passed_behind};
ghost use Rattle.rng_widen.specs.CompactPlaces.{behind_unpassed, behind, outermost};

use crate::head::is_schemas;
use crate::schema_type::{SchemaType, type_named};
use crate::token_test::{
    closes_bracket, is_equals, is_left_brace, is_left_bracket, is_left_parenthesis, is_right_brace,
    opens_bracket,
};
use nx_base::memory::NoMemory;
use rnc_lex::token::{Keyword, Lexeme, RncToken, Symbol};

/// Where a token stands, by what is in front of it.
#[derive(Clone, Copy, Debug, PartialEq, Eq)]
pub enum Stand {
    /// A pattern begins.
    Pattern,
    /// Behind `{`: a pattern begins, or items of a grammar do.
    Braced,
    /// In a name class.
    Class,
    /// Behind the `-` of a datatype.
    Except,
    /// Behind `>>`.
    Follower,
    /// Behind this type of XML Schema's library.
    Typed(SchemaType),
    /// Among the params of this type, behind an annotation or not.
    Params(SchemaType, bool),
    /// Anywhere else.
    Other,
}

/// What is in front of a token.
#[derive(Clone, Copy, Debug, PartialEq, Eq)]
pub struct Context {
    pub stand: Stand,
    /// How many brackets are open of an annotation, or of what is excepted. Both are passed over.
    pub passed: usize,
}

/// What is in front of the body of a file.
pub(crate) fn outermost() -> Context
    ensures { result ≡ outermost }
{
    Context {
        stand: Stand::Braced,
        passed: 0,
    }
}

/// Whether a name class follows.
fn opens_class(keyword: Keyword) -> bool
    ensures { result ≡ opens_class keyword }
{
    matches!(keyword, Keyword::Element | Keyword::Attribute)
}

/// The type of a name in a file of these tokens.
pub(crate) fn type_of_name(file: &[RncToken], token: &Lexeme) -> Option<SchemaType>
    ensures { result ≡ type_of_name file.now token.now }
{
    match token {
        Lexeme::PrefixedName(prefix, local) => {
            if is_schemas(file, prefix.as_slice()) {
                type_named(local.as_slice())
            } else {
                None
            }
        }
        _ => None,
    }
}

/// Whether a type may stand there.
fn takes_type(stand: Stand) -> bool
    ensures { result ≡ takes_type stand }
{
    matches!(stand, Stand::Pattern | Stand::Braced)
}

/// Behind a mark.
fn behind_mark(symbol: Symbol) -> Stand
    ensures { result ≡ behind_mark symbol }
{
    match symbol {
        Symbol::LeftBrace => Stand::Braced,
        Symbol::LeftParenthesis
        | Symbol::Equals
        | Symbol::BarEquals
        | Symbol::AmpersandEquals
        | Symbol::Comma
        | Symbol::Bar
        | Symbol::Ampersand => Stand::Pattern,
        Symbol::Minus => Stand::Except,
        Symbol::Follows => Stand::Follower,
        Symbol::RightBrace
        | Symbol::RightParenthesis
        | Symbol::LeftBracket
        | Symbol::RightBracket
        | Symbol::QuestionMark
        | Symbol::Star
        | Symbol::Plus
        | Symbol::Tilde => Stand::Other,
    }
}

/// Behind a type, if it is one.
fn behind_type(found: Option<SchemaType>) -> Stand
    ensures { result ≡ behind_type found }
{
    match found {
        Some(named) => Stand::Typed(named),
        None => Stand::Other,
    }
}

/// Behind a name, where a type may stand or not.
fn behind_name(file: &[RncToken], is_type: bool, name: &Lexeme) -> Stand
    ensures { result ≡ behind_name file.now is_type name.now }
{
    if is_type {
        behind_type(type_of_name(file, name))
    } else {
        Stand::Other
    }
}

/// Behind a keyword.
fn behind_keyword(keyword: Keyword) -> Stand
    ensures { result ≡ behind_keyword keyword }
{
    if opens_class(keyword) {
        Stand::Class
    } else {
        Stand::Other
    }
}

/// Behind a token of a pattern, or between patterns.
fn behind_token(file: &[RncToken], before: Stand, token: &Lexeme) -> Stand
    ensures { result ≡ behind_token file.now before token.now }
{
    match token {
        Lexeme::Symbol(symbol) => behind_mark(*symbol),
        Lexeme::Keyword(keyword) => behind_keyword(*keyword),
        Lexeme::PrefixedName(_, _) => behind_name(file, takes_type(before), token),
        Lexeme::Identifier(_) | Lexeme::NamespaceWildcard(_) | Lexeme::Literal(_) => Stand::Other,
    }
}

/// Behind a token of a name class.
fn behind_class(token: &Lexeme) -> Stand
    ensures { result ≡ behind_class token.now }
{
    if is_left_brace(token) {
        Stand::Braced
    } else if is_equals(token) {
        Stand::Pattern
    } else {
        Stand::Class
    }
}

/// Behind a token among the params of a type.
fn behind_param(named: SchemaType, token: &Lexeme) -> Stand
    ensures { result ≡ behind_param named token.now }
{
    if is_right_brace(token) {
        Stand::Other
    } else {
        Stand::Params(named, false)
    }
}

/// Behind a token that stands behind a type.
fn behind_typed(file: &[RncToken], named: SchemaType, token: &Lexeme) -> Stand
    ensures { result ≡ behind_typed file.now named token.now }
{
    if is_left_brace(token) {
        Stand::Params(named, false)
    } else {
        behind_token(file, Stand::Other, token)
    }
}

/// Behind a token, outside of annotations.
fn behind_stand(file: &[RncToken], before: Stand, token: &Lexeme) -> Stand
    ensures { result ≡ behind_stand file.now before token.now }
{
    match before {
        Stand::Class => behind_class(token),
        Stand::Params(named, _) => behind_param(named, token),
        Stand::Typed(named) => behind_typed(file, named, token),
        Stand::Except | Stand::Follower => Stand::Other,
        Stand::Other => behind_token(file, Stand::Other, token),
        Stand::Pattern => behind_token(file, Stand::Pattern, token),
        Stand::Braced => behind_token(file, Stand::Braced, token),
    }
}

/// Behind an annotation.
fn annotated(stand: Stand) -> Stand
    ensures { result ≡ annotated stand }
{
    match stand {
        Stand::Params(named, _) => Stand::Params(named, true),
        other => other,
    }
}

/// Whether something is excepted here.
fn is_except(stand: Stand) -> bool
    ensures { result ≡ is_except stand }
{
    matches!(stand, Stand::Except)
}

/// How many brackets are open behind a token, where so many are open of what is passed over.
fn passed_behind(passed: usize, token: &Lexeme) -> Result<usize, NoMemory>
    ensures { IfOk result (λ now. now ≡ passed_behind passed token.now) }
{
    if opens_bracket(token) {
        match passed.checked_add(1) {
            Some(more) => Ok(more),
            None => Err(NoMemory),
        }
    } else if closes_bracket(token) {
        Ok(passed.saturating_sub(1))
    } else {
        Ok(passed)
    }
}

/// Behind a token that isn't passed over.
fn behind_unpassed(file: &[RncToken], before: Stand, token: &Lexeme) -> Context
    ensures { result ≡ behind_unpassed file.now before token.now }
{
    if is_left_bracket(token) {
        Context {
            stand: annotated(before),
            passed: 1,
        }
    } else if is_except(before) && is_left_parenthesis(token) {
        Context {
            stand: Stand::Other,
            passed: 1,
        }
    } else {
        Context {
            stand: behind_stand(file, before, token),
            passed: 0,
        }
    }
}

/// What is in front of the token behind this one, in a file of these tokens.
#[tactic(auto, unfolding(crate::specs::CompactPlaces::behind))]
pub(crate) fn behind(
    file: &[RncToken],
    context: Context,
    token: &Lexeme,
) -> Result<Context, NoMemory>
    ensures { IfOk result (λ now. now ≡ behind file.now context token.now) }
{
    if context.passed == 0 {
        return Ok(behind_unpassed(file, context.stand, token));
    }
    let passed = passed_behind(context.passed, token)?;
    Ok(Context {
        stand: context.stand,
        passed,
    })
}
