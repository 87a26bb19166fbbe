//! What stands at the front of letters: a token, or what is passed over.

ghost use Rattle.std.specs.Prelude.{◌≡◌, ◌≤◌, length, IfOk, None};
ghost use Rattle.rnc_lex.specs.Reading.{Finds, comment_len, marked, marked_single, front_of};

use crate::fault::LexFault;
use crate::letter::Letter;
use crate::literal::literal;
use crate::name::{begins_nc_name, escaped_name, named};
use crate::symbol::{double_symbol, single_symbol};
use crate::token::Lexeme;
use nx_base::character::{is_quote, is_space};
use std::alloc::Global;

/// A token, or what is passed over, and how many letters it has behind its first.
#[derive(Drop)]
pub(crate) struct Front {
    pub(crate) lexeme: Option<Lexeme>,
    pub(crate) more: usize,
}

/// What stands at the front, by the first letter.
#[tactic(auto, unfolding(crate::specs::Reading::front_of))]
pub(crate) fn front_of(alloc: Global, first: Letter, behind: &[Letter]) -> Result<Front, LexFault>
    ensures found { Finds (λ front. front) result (front_of first behind.now) }
    ensures within { IfOk result (λ front. front.more ≤ length behind.now) }
{
    if is_space(first.character) {
        Ok(passed(0))
    } else if first.character == '#' {
        Ok(passed(comment_len(behind)))
    } else if is_quote(first.character) {
        literal(alloc, first, behind)
    } else if first.character == '\\' {
        escaped_name(alloc, first, behind)
    } else if begins_nc_name(first.character) {
        named(alloc, first, behind)
    } else {
        marked(first, behind)
    }
}

/// So many letters behind the first are passed over with it.
fn passed(more: usize) -> Front
    ensures lexeme { result.lexeme ≡ None }
    ensures more { result.more ≡ more }
{
    Front { lexeme: None, more }
}

/// How many letters stand before the end of the line.
fn comment_len(letters: &[Letter]) -> usize
    ensures counted { result ≡ comment_len letters.now }
    ensures within { result ≤ length letters.now }
{
    letters
        .iter()
        .take_while(|letter| letter.character != '\n')
        .count()
}

/// A mark of two characters, or of one.
#[tactic(auto, unfolding(crate::specs::Reading::marked))]
fn marked(first: Letter, behind: &[Letter]) -> Result<Front, LexFault>
    ensures found { Finds (λ front. front) result (marked first behind.now) }
    ensures within { IfOk result (λ front. front.more ≤ length behind.now) }
{
    match behind.split_first() {
        Some((next, _)) => match double_symbol(first.character, next.character) {
            Some(mark) => Ok(Front {
                lexeme: Some(Lexeme::Symbol(mark)),
                more: 1,
            }),
            None => marked_single(first),
        },
        None => marked_single(first),
    }
}

/// A mark of one character.
#[tactic(auto, unfolding(crate::specs::Reading::marked_single))]
fn marked_single(first: Letter) -> Result<Front, LexFault>
    ensures found { Finds (λ front. front) result (marked_single first) }
    ensures alone { IfOk result (λ front. front.more ≡ 0) }
{
    match single_symbol(first.character) {
        Some(mark) => Ok(Front {
            lexeme: Some(Lexeme::Symbol(mark)),
            more: 0,
        }),
        None => Err(LexFault::BadCharacter(first.at)),
    }
}
