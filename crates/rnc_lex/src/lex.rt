//! A text read into tokens.

ghost use Rattle.std.specs.Prelude.{◌≡◌, ◌++◌, length, IfOk, OnOk};
ghost use Rattle.rnc_lex.specs.Tokens.{Lexes};
ghost use Rattle.rnc_lex.specs.Laws.{HaveUtf8Texts, Rise, TextsHaveOneAnswer, TextsHaveAnAnswer};
ghost use Rattle.rnc_lex.specs.Reading.{Finds, listed, tokens_of, lexed};

use crate::fault::LexFault;
use crate::front::front_of;
use crate::letter::{Letter, letters};
use crate::token::{Lexeme, RncToken, RncTokens};
use nx_base::memory::NoMemory;
use std::alloc::Global;

/// The tokens of a text; or its first bad escape or character that isn't a Char; or the first place at which a
/// literal isn't closed or no token begins. It takes time and memory in proportion to the text.
pub fn tokens(alloc: Global, text: &str) -> Result<RncTokens, LexFault>
    ensures lexes { Lexes text.now result }
    ensures utf8 { IfOk result HaveUtf8Texts }
    ensures rise { IfOk result (Rise (length text.now)) }
{
    lexed(alloc, text)
}

/// A text is one list of tokens and has no fault, or has one fault at one place.
pub fn texts_have_one_answer()
    ensures { TextsHaveOneAnswer }
{}

/// Each text is tokens, or has a fault.
pub fn texts_have_an_answer()
    ensures { TextsHaveAnAnswer }
{}

/// The tokens of the text's letters.
#[tactic(auto, unfolding(crate::specs::Reading::lexed))]
fn lexed(alloc: Global, text: &str) -> Result<RncTokens, LexFault>
    ensures { Finds (λ tokens. tokens) result (lexed text.now) }
{
    tokens_of(alloc, &letters(alloc, text)?)
}

/// The tokens of letters.
#[tactic(auto, unfolding(crate::specs::Reading::tokens_of))]
fn tokens_of(alloc: Global, letters: &[Letter]) -> Result<RncTokens, LexFault>
    ensures { Finds (λ tokens. tokens) result (tokens_of letters.now) }
{
    let mut tokens = RncTokens::new(alloc);
    let mut rest = letters;
    while let Some((first, behind)) = rest.split_first() {
        let front = front_of(alloc, *first, behind)?;
        add(&mut tokens, first.at, front.lexeme)?;
        rest = &behind[front.more..];
    }
    Ok(tokens)
}

/// Adds a token, if it is one.
fn add(tokens: &mut RncTokens, at: usize, lexeme: Option<Lexeme>) -> Result<(), NoMemory>
    ensures { OnOk result (tokens.new ≡ tokens.old ++ listed at lexeme) }
{
    match lexeme {
        Some(lexeme) => tokens.push(RncToken { at, lexeme }),
        None => Ok(()),
    }
}
