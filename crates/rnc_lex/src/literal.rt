//! Literals.

ghost use Rattle.std.specs.Prelude.{◌≡◌, ◌≤◌, ◌+◌, length, IfOk, IfSome};
ghost use Rattle.std.specs.Bool.{OnTrue};
ghost use Rattle.rnc_lex.specs.Reading.{Finds, begins_two, begins_three, before_three, is_in_line, line_len, literal, long_literal};
ghost use Rattle.rnc_lex.specs.Reading.{short_literal};

use crate::fault::LexFault;
use crate::front::Front;
use crate::letter::Letter;
use crate::text::bytes_of_all;
use crate::token::Lexeme;
use std::alloc::Global;

/// The literal that begins with this quote.
#[tactic(auto, unfolding(crate::specs::Reading::literal))]
pub(crate) fn literal(alloc: Global, first: Letter, behind: &[Letter]) -> Result<Front, LexFault>
    ensures found { Finds (λ front. front) result (literal first behind.now) }
    ensures within { IfOk result (λ front. front.more ≤ length behind.now) }
{
    if begins_two(first.character, behind) {
        long_literal(alloc, first, &behind[2..])
    } else {
        short_literal(alloc, first, behind)
    }
}

/// Whether two such quotes stand at the front.
#[tactic(auto, unfolding(crate::specs::Reading::begins_two))]
fn begins_two(quote: char, letters: &[Letter]) -> bool
    ensures begins { result ≡ begins_two quote letters.now }
    ensures two { OnTrue result (2 ≤ length letters.now) }
{
    match letters {
        [first, second, ..] => first.character == quote && second.character == quote,
        _ => false,
    }
}

/// Whether three stand there.
#[tactic(auto, unfolding(crate::specs::Reading::begins_three))]
fn begins_three(quote: char, letters: &[Letter]) -> bool
    ensures begins { result ≡ begins_three quote letters.now }
    ensures three { OnTrue result (3 ≤ length letters.now) }
{
    match letters.split_first() {
        Some((first, behind)) => first.character == quote && begins_two(quote, behind),
        None => false,
    }
}

/// How many letters stand before the first three such quotes in a row.
fn before_three(quote: char, letters: &[Letter]) -> Option<usize>
    ensures found { result ≡ before_three quote letters.now }
    ensures within { IfSome result (λ n. n + 3 ≤ length letters.now) }
{
    for i in 0..letters.len() {
        if begins_three(quote, &letters[i..]) {
            return Some(i);
        }
    }
    None
}

/// The literal that three quotes began, from what is behind them.
#[tactic(auto, unfolding(crate::specs::Reading::long_literal))]
fn long_literal(alloc: Global, first: Letter, inside: &[Letter]) -> Result<Front, LexFault>
    ensures found { Finds (λ front. front) result (long_literal first inside.now) }
    ensures within { IfOk result (λ front. front.more ≤ length inside.now + 2) }
{
    match before_three(first.character, inside) {
        Some(len) => Ok(Front {
            lexeme: Some(Lexeme::Literal(bytes_of_all(alloc, &inside[..len])?)),
            more: len + 5,
        }),
        None => Err(LexFault::BadLiteral(first.at)),
    }
}

/// How many letters at the front may stand between two such quotes.
fn line_len(quote: char, letters: &[Letter]) -> usize
    ensures counted { result ≡ line_len quote letters.now }
    ensures within { result ≤ length letters.now }
{
    letters
        .iter()
        .take_while(|letter| is_in_line(quote, **letter))
        .count()
}

/// Whether the letter may stand between two such quotes: an escaped newline may, a written one may not.
fn is_in_line(quote: char, letter: Letter) -> bool
    ensures { result ≡ is_in_line quote letter }
{
    letter.character != quote && !(letter.character == '\n' && letter.written)
}

/// The literal that one quote began, from what is behind it.
#[tactic(auto, unfolding(crate::specs::Reading::short_literal))]
fn short_literal(alloc: Global, first: Letter, behind: &[Letter]) -> Result<Front, LexFault>
    ensures found { Finds (λ front. front) result (short_literal first behind.now) }
    ensures within { IfOk result (λ front. front.more ≤ length behind.now) }
{
    let (inside, rest) = behind.split_at(line_len(first.character, behind));
    match rest.split_first() {
        Some((last, _)) => {
            if last.character == first.character {
                Ok(Front {
                    lexeme: Some(Lexeme::Literal(bytes_of_all(alloc, inside)?)),
                    more: inside.len() + 1,
                })
            } else {
                Err(LexFault::BadLiteral(first.at))
            }
        }
        None => Err(LexFault::BadLiteral(first.at)),
    }
}
