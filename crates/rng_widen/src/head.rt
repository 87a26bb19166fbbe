//! The declarations at the head of a file in the compact syntax, and the prefixes of types that they bind.

ghost use Rattle.std.specs.Prelude.{◌≡◌, option_copied};
ghost use Rattle.rng_widen.specs.CompactHead.{begins_declaration, is_value, is_before, is_body, behind_first, behind_head, body};
ghost use Rattle.rng_widen.specs.CompactHead.{is_library, begins_library, gives_library, is_named, binds_named, binds, bound_from, is_schemas};
ghost use Rattle.rng_widen.specs.declared.head.Head.TheVariants as heads;

use crate::token_test::{begins_tilde, is_datatypes, is_equals, is_tilde, name_of};
use rnc_lex::token::{Keyword, Lexeme, RncToken};

/// XML Schema's library.
pub(crate) const SCHEMA_LIBRARY: &[u8] = b"http://www.w3.org/2001/XMLSchema-datatypes";

/// Its prefix without a declaration.
const XSD: &[u8] = b"xsd";

/// Where a token stands, as far as declarations go.
#[derive(Clone, Copy, Debug, PartialEq, Eq)]
pub enum Head {
    /// In front of a declaration or of the body.
    Before,
    /// In a declaration, in front of its `=`.
    Named,
    /// In front of what is declared.
    Valued,
    /// In the body.
    Body,
}

fn begins_declaration(token: &Lexeme) -> bool
    ensures { result ≡ begins_declaration token.now }
{
    matches!(
        token,
        Lexeme::Keyword(Keyword::Namespace | Keyword::Default | Keyword::Datatypes)
    )
}

/// Whether something may be declared to be this.
fn is_value(token: &Lexeme) -> bool
    ensures { result ≡ is_value token.now }
{
    matches!(
        token,
        Lexeme::Literal(_) | Lexeme::Keyword(Keyword::Inherit)
    )
}

fn is_before(head: Head) -> bool
    ensures { result ≡ is_before head }
{
    matches!(head, Head::Before)
}

fn is_body(head: Head) -> bool
    ensures { result ≡ is_body head }
{
    matches!(head, Head::Body)
}

/// Behind a token that begins a declaration or the body, or joins a literal to the last one.
fn behind_first(token: &Lexeme) -> Head
    ensures { result ≡ behind_first token.now }
{
    if begins_declaration(token) {
        Head::Named
    } else if is_tilde(token) {
        Head::Valued
    } else {
        Head::Body
    }
}

/// Where the token behind this one stands.
fn behind_head(head: Head, token: &Lexeme) -> Head
    ensures { result ≡ behind_head head token.now }
{
    match head {
        Head::Before => behind_first(token),
        Head::Named => {
            if is_equals(token) {
                Head::Valued
            } else {
                Head::Named
            }
        }
        Head::Valued => {
            if is_value(token) {
                Head::Before
            } else {
                Head::Body
            }
        }
        Head::Body => Head::Body,
    }
}

/// The tokens behind the declarations.
pub(crate) fn body(file: &[RncToken]) -> &[RncToken]
    ensures { result.now ≡ body file.now }
{
    let mut head = Head::Before;
    let mut rest = file;
    'tokens: while let Some((token, after)) = rest.split_first() {
        let next = behind_head(head, &token.lexeme);
        if is_body(next) {
            return rest;
        }
        head = next;
        rest = after;
    }
    rest
}

/// Whether the token is the literal of the library.
fn is_library(token: &Lexeme) -> bool
    ensures { result ≡ is_library token.now }
{
    match token {
        Lexeme::Literal(text) => text.as_slice() == SCHEMA_LIBRARY,
        _ => false,
    }
}

/// Whether the tokens begin with the literal of the library, to which none is joined.
fn begins_library(tokens: &[RncToken]) -> bool
    ensures { result ≡ begins_library tokens.now }
{
    match tokens.split_first() {
        Some((token, rest)) => is_library(&token.lexeme) && !begins_tilde(rest),
        None => false,
    }
}

/// Whether the tokens begin with `=` and that.
fn gives_library(tokens: &[RncToken]) -> bool
    ensures { result ≡ gives_library tokens.now }
{
    match tokens.split_first() {
        Some((token, rest)) => is_equals(&token.lexeme) && begins_library(rest),
        None => false,
    }
}

fn is_named(prefix: &[u8], name: Option<&[u8]>) -> bool
    ensures { result ≡ is_named prefix.now (option_copied name.entry) }
{
    match name {
        Some(name) => name == prefix,
        None => false,
    }
}

/// Whether a declaration behind its word binds the prefix to the library; none where it binds another prefix.
fn binds_named(prefix: &[u8], tokens: &[RncToken]) -> Option<bool>
    ensures { result ≡ binds_named prefix.now tokens.now }
{
    match tokens.split_first() {
        Some((token, rest)) => {
            if is_named(prefix, name_of(&token.lexeme)) {
                Some(gives_library(rest))
            } else {
                None
            }
        }
        None => None,
    }
}

/// The same of a declaration, if one of a library begins here.
fn binds(prefix: &[u8], head: Head, tokens: &[RncToken]) -> Option<bool>
    ensures { result ≡ binds prefix.now head tokens.now }
{
    match tokens.split_first() {
        Some((token, rest)) => {
            if is_before(head) && is_datatypes(&token.lexeme) {
                binds_named(prefix, rest)
            } else {
                None
            }
        }
        None => None,
    }
}

/// Whether the first declaration of the prefix binds it to the library; none where there is none.
fn bound(prefix: &[u8], file: &[RncToken]) -> Option<bool>
    ensures { result ≡ bound_from prefix.now heads.Before file.now }
{
    let mut head = Head::Before;
    let mut rest = file;
    'tokens: while let Some((token, after)) = rest.split_first() {
        let next = behind_head(head, &token.lexeme);
        if is_body(next) {
            return None;
        }
        if let Some(found) = binds(prefix, head, rest) {
            return Some(found);
        }
        head = next;
        rest = after;
    }
    None
}

/// Whether the prefix stands for XML Schema's library in a file of these tokens.
#[tactic(auto, unfolding(crate::specs::CompactHead::is_schemas))]
pub(crate) fn is_schemas(file: &[RncToken], prefix: &[u8]) -> bool
    ensures { result ≡ is_schemas file.now prefix.now }
{
    match bound(prefix, file) {
        Some(is) => is,
        None => prefix == XSD,
    }
}
