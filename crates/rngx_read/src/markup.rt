//! The markup of a text: its tokens, and the namespace declarations of its tags.

ghost use Rattle.std.specs.Prelude.{◌≡◌, ◌+◌, ◌<◌, ◌≤◌, ◌^◌, ◌++◌, length, IfOk, OnOk};
ghost use Rattle.std.specs.List.{flat_map};
ghost use Rattle.nx_base.specs.Tokens.{tokens_of, AreTokensOf};
ghost use Rattle.nx_events.specs.InForce.{pairs_of};
ghost use Rattle.nx_events.specs.Items.{own_bindings};
ghost use Rattle.rngx_read.specs.Elements.{declared_of_token};
ghost use Rattle.rngx_read.specs.Marking.{AreTextTokens, as_start, has_xmlns};

use nx_base::memory::NoMemory;
use nx_base::name::Names;
use nx_base::sequence::TryCopy;
use nx_base::steps::Steps;
use nx_base::token::{Token, TokenKind};
use nx_events::in_force::scope;
use nx_events::reader::{begin, take};
use nx_scan::border::{tokens_are_of_kind, tokens_fit, tokens_go_on};
use nx_scan::scan::scan_token;
use nx_text::text::Text;
use std::alloc::Global;
use std::sync::ledger::Ledger;

/// The bytes as a text.
pub(crate) fn as_text(alloc: Global, bytes: &str) -> Result<Text, NoMemory>
    ensures { IfOk result (λ text. text ≡ bytes.now) }
{
    let mut text = Text::new(alloc);
    match text.insert(0, bytes) {
        Ok(()) => Ok(text),
        Err(_) => Err(NoMemory),
    }
}

/// All tokens of the text.
pub(crate) fn all_tokens<L: Ledger>(
    alloc: Global,
    text: &Text,
    steps: &mut Steps<L>,
) -> Result<Vec<Token>, NoMemory>
    ensures tokens { IfOk result (λ tokens. tokens.items ≡ tokens_of text.now) }
    ensures texts { IfOk result (λ tokens. AreTextTokens tokens.items) }
    ensures steps { steps.old ≤ steps.new }
{
    tokens_fit();
    tokens_are_of_kind();
    tokens_go_on();
    let len = text.len();
    let mut tokens = Vec::new(alloc);
    let mut at = 0;
    while at < len {
        let Some(token) = scan_token(alloc, text, at, steps)? else {
            return Err(NoMemory);
        };
        at += token.bytes.len();
        tokens.push(token)?;
    }
    Ok(tokens)
}

/// The token as a start tag of the same bytes.
fn as_start(token: &Token) -> Result<Token, NoMemory>
    ensures { IfOk result (λ start. start ≡ as_start token.now) }
{
    Ok(Token {
        kind: TokenKind::Start,
        from: token.from,
        bytes: token.bytes.copy()?,
    })
}

/// Whether `xmlns` stands in the bytes, without which nothing in a tag declares.
#[tactic(auto, unfolding(crate::specs::Marking::has_xmlns))]
fn has_xmlns(bytes: &[u8]) -> bool
    ensures { result ≡ has_xmlns bytes.now }
{
    let mut rest = bytes;
    while let Some((first, behind)) = rest.split_first() {
        if *first == b'x' && rest.starts_with(b"xmlns") {
            return true;
        }
        rest = behind;
    }
    false
}

/// The own declarations of a tag: those in force behind a start tag of its bytes that stands alone. Most tags have none.
#[tactic(auto, using(crate::proofs::Declaring::own_are, crate::proofs::Declaring::none_are))]
fn own_of(alloc: Global, tag: &Token) -> Result<Names, NoMemory>
    requires { tag.now.from + length tag.now.bytes < 2 ^ 64 }
    ensures { IfOk result (λ own. own ≡ pairs_of (own_bindings tag.now)) }
{
    if !has_xmlns(tag.bytes.as_slice()) {
        return Ok(Names::new(alloc));
    }
    let start = as_start(tag)?;
    let mut state = begin(alloc)?;
    take(alloc, &mut state, &start)?;
    scope(alloc, &state)
}

/// Adds the own declarations of a token, if it is a tag that begins an element.
fn declare(alloc: Global, token: &Token, declared: &mut Vec<Names>) -> Result<(), NoMemory>
    requires { token.now.from + length token.now.bytes < 2 ^ 64 }
    ensures { OnOk result (declared.new.items ≡ declared.old.items ++ declared_of_token token.now) }
{
    match token.kind {
        TokenKind::Start | TokenKind::Empty => declared.push(own_of(alloc, token)?)?,
        TokenKind::Bom
        | TokenKind::Decl
        | TokenKind::Doctype
        | TokenKind::Comment
        | TokenKind::Pi
        | TokenKind::Cdata
        | TokenKind::Text
        | TokenKind::Bad
        | TokenKind::Unclosed
        | TokenKind::End => {}
    }
    Ok(())
}

/// The own declarations of each tag that begins an element, in order, among the tokens of a text of `len` bytes.
pub(crate) fn declared_of(
    alloc: Global,
    tokens: &[Token],
    len: usize,
) -> Result<Vec<Names>, NoMemory>
    requires { AreTokensOf len tokens.now }
    ensures { IfOk result (λ declared. declared.items ≡ flat_map declared_of_token tokens.now) }
{
    // the place of each token's end is at most `len`, so that it is a number of the machine
    let _ = len;
    let mut declared = Vec::new(alloc);
    let mut rest = tokens;
    'tokens: while let Some((token, behind)) = rest.split_first() {
        declare(alloc, token, &mut declared)?;
        rest = behind;
    }
    Ok(declared)
}
