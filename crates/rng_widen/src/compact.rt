//! What is put to something wider in a schema file in the compact syntax.

ghost use Rattle.std.specs.Prelude.{◌≡◌, ◌++◌, true, IfOk, OnOk, option_copied};
ghost use Rattle.rng_widen.specs.Types.{wider_type};
ghost use Rattle.rng_widen.specs.CompactWidenings.{place_of, is_token, named_with, word_of, wider_by, type_widening, behind_literals, behind_param};
ghost use Rattle.rng_widen.specs.CompactWidenings.{facet_of, facet_by, facet_widening, widening_by, widening_at, listed, widenings_of};

use crate::context::{Context, Stand, behind, outermost, type_of_name};
use crate::facet::{Facet, facet_named, is_left_out_of};
use crate::head::body;
use crate::schema_type::{SchemaType, type_text, wider_type};
use crate::token_test::{begins_bracket, begins_literal, is_equals, is_literal, is_tilde};
use crate::widening::{Note, Widening};
use nx_base::memory::NoMemory;
use nx_base::sequence::Bytes;
use rnc_lex::token::{Lexeme, RncToken};
use std::alloc::Global;

/// The place of the first token, or the end.
fn place_of(tokens: &[RncToken], end: usize) -> usize
    ensures { result ≡ place_of tokens.now end }
{
    match tokens.split_first() {
        Some((token, _)) => token.at,
        None => end,
    }
}

fn is_token(named: SchemaType) -> bool
    ensures { result ≡ is_token named }
{
    matches!(named, SchemaType::Token)
}

/// How the type by which another is checked is written in the place of that.
fn word_of(alloc: Global, token: &Lexeme, named: SchemaType) -> Result<Bytes, NoMemory>
    ensures { IfOk result (λ word. word ≡ word_of token.now named) }
{
    match token {
        Lexeme::PrefixedName(prefix, _) => Ok(named_with(alloc, prefix.as_slice(), named)?),
        _ => Ok(Bytes::new(alloc)),
    }
}

/// The name of a type with this prefix, or the keyword `token`.
fn named_with(alloc: Global, prefix: &[u8], named: SchemaType) -> Result<Bytes, NoMemory>
    ensures { IfOk result (λ word. word ≡ named_with prefix.now named) }
{
    if is_token(named) {
        return Ok(Bytes::from_vec(Vec::from_slice(alloc, b"token")?));
    }
    let mut word = Vec::from_slice(alloc, prefix)?;
    word.push(b':')?;
    word.extend_from_slice(type_text(named))?;
    Ok(Bytes::from_vec(word))
}

/// A type that isn't held, from its token up to the next.
fn wider(
    alloc: Global,
    end: usize,
    token: &RncToken,
    rest: &[RncToken],
    named: SchemaType,
) -> Result<Option<Widening>, NoMemory>
    ensures { IfOk result (λ found. found ≡ wider_by end token.now rest.now named (wider_type named)) }
{
    match wider_type(named) {
        None => Ok(None),
        Some(wider) => Ok(Some(Widening {
            from: token.at,
            to: place_of(rest, end),
            word: word_of(alloc, &token.lexeme, wider)?,
            note: Note::Type(named, wider),
        })),
    }
}

/// A type that isn't held, unless a literal follows.
#[tactic(auto, unfolding(crate::specs::CompactWidenings::type_widening))]
fn type_widening(
    alloc: Global,
    file: &[RncToken],
    end: usize,
    token: &RncToken,
    rest: &[RncToken],
) -> Result<Option<Widening>, NoMemory>
    ensures { IfOk result (λ found. found ≡ type_widening file.now end token.now rest.now) }
{
    if begins_literal(rest) {
        return Ok(None);
    }
    match type_of_name(file, &token.lexeme) {
        None => Ok(None),
        Some(named) => Ok(wider(alloc, end, token, rest, named)?),
    }
}

/// What is behind literals that are joined by `~`, of which there is at least one.
fn behind_literals(tokens: &[RncToken]) -> Option<&[RncToken]>
    ensures { option_copied result ≡ behind_literals true tokens.now }
{
    let mut needed = true;
    let mut rest = tokens;
    'tokens: while let Some((token, behind)) = rest.split_first() {
        if needed {
            if !is_literal(&token.lexeme) {
                return None;
            }
        } else if !is_tilde(&token.lexeme) {
            return Some(rest);
        }
        needed = !needed;
        rest = behind;
    }
    if needed { None } else { Some(rest) }
}

/// What is behind `=` and a literal.
fn behind_param(tokens: &[RncToken]) -> Option<&[RncToken]>
    ensures { option_copied result ≡ behind_param tokens.now }
{
    match tokens.split_first() {
        Some((token, rest)) => {
            if is_equals(&token.lexeme) {
                behind_literals(rest)
            } else {
                None
            }
        }
        None => None,
    }
}

/// The facet of this name.
fn facet_of(token: &Lexeme) -> Option<Facet>
    ensures { result ≡ facet_of token.now }
{
    match token {
        Lexeme::Identifier(name) => facet_named(name.as_slice()),
        _ => None,
    }
}

/// A facet, from its name up to the token behind its value.
fn left_out(
    alloc: Global,
    end: usize,
    token: &RncToken,
    facet: Facet,
    behind: Option<&[RncToken]>,
) -> Option<Widening>
    ensures { result ≡ facet_by end token.now facet (option_copied behind.entry) }
{
    match behind {
        None => None,
        Some(rest) => Some(Widening {
            from: token.at,
            to: place_of(rest, end),
            word: Bytes::new(alloc),
            note: Note::Facet(facet),
        }),
    }
}

/// A facet that is left out.
#[tactic(auto, unfolding(crate::specs::CompactWidenings::facet_widening))]
fn facet_widening(
    alloc: Global,
    named: SchemaType,
    end: usize,
    token: &RncToken,
    rest: &[RncToken],
) -> Option<Widening>
    ensures { result ≡ facet_widening named end token.now rest.now }
{
    match facet_of(&token.lexeme) {
        None => None,
        Some(facet) => {
            if is_left_out_of(named, facet) {
                left_out(alloc, end, token, facet, behind_param(rest))
            } else {
                None
            }
        }
    }
}

/// What is put to something wider at a token, by what is in front of it and behind it.
fn widening_by(
    alloc: Global,
    file: &[RncToken],
    end: usize,
    stand: Stand,
    token: &RncToken,
    rest: &[RncToken],
) -> Result<Option<Widening>, NoMemory>
    ensures { IfOk result (λ found. found ≡ widening_by file.now end stand token.now rest.now) }
{
    match stand {
        Stand::Pattern => Ok(type_widening(alloc, file, end, token, rest)?),
        Stand::Braced => {
            if begins_bracket(rest) {
                return Ok(None);
            }
            Ok(type_widening(alloc, file, end, token, rest)?)
        }
        Stand::Params(named, false) => Ok(facet_widening(alloc, named, end, token, rest)),
        Stand::Params(_, true)
        | Stand::Class
        | Stand::Except
        | Stand::Follower
        | Stand::Typed(_)
        | Stand::Other => Ok(None),
    }
}

/// What is put to something wider at a token, unless that is passed over.
fn widening_at(
    alloc: Global,
    file: &[RncToken],
    end: usize,
    context: Context,
    token: &RncToken,
    rest: &[RncToken],
) -> Result<Option<Widening>, NoMemory>
    ensures { IfOk result (λ found. found ≡ widening_at file.now end context token.now rest.now) }
{
    if context.passed == 0 {
        return Ok(widening_by(alloc, file, end, context.stand, token, rest)?);
    }
    Ok(None)
}

/// Adds what was found.
pub(crate) fn add(all: &mut Vec<Widening>, found: Option<Widening>) -> Result<(), NoMemory>
    ensures { OnOk result (all.new.items ≡ all.old.items ++ listed found) }
{
    match found {
        Some(one) => {
            all.push(one)?;
            Ok(())
        }
        None => Ok(()),
    }
}

/// What is put to something wider in a file of `end` bytes with these tokens.
#[tactic(auto, unfolding(crate::specs::CompactWidenings::widenings_of))]
pub(crate) fn widenings_of(
    alloc: Global,
    end: usize,
    file: &[RncToken],
) -> Result<Vec<Widening>, NoMemory>
    ensures { IfOk result (λ all. all.items ≡ widenings_of end file.now) }
{
    let mut all = Vec::new(alloc);
    let mut context = outermost();
    let mut rest = body(file);
    'tokens: while let Some((token, after)) = rest.split_first() {
        let found = widening_at(alloc, file, end, context, token, after)?;
        add(&mut all, found)?;
        let next = behind(file, context, &token.lexeme)?;
        context = next;
        rest = after;
    }
    Ok(all)
}
