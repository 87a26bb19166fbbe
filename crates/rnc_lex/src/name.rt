//! Names: identifiers, keywords, prefixed names and the names of a namespace.

ghost use Rattle.std.specs.Prelude.{◌≡◌, ◌≤◌, ◌∷◌, length, IfOk, ◌+◌};
ghost use Rattle.std.specs.List.{prefix_len};
ghost use Rattle.std.specs.String.{string_bytes};
ghost use Rattle.rnc_lex.specs.Tokens.{begins_nc_name as begins_name, is_nc_name_char as is_name_part, utf8};
ghost use Rattle.rnc_lex.specs.Reading.{Finds, name_len, named, after_name, qualified, plain, prefixed, escaped_name, word_of};

use crate::fault::LexFault;
use crate::front::Front;
use crate::keyword::keyword_of;
use crate::letter::Letter;
use crate::text::{bytes_of, text_of};
use crate::token::Lexeme;
use nx_base::character::{is_name_char, is_name_start};
use nx_base::memory::NoMemory;
use nx_base::sequence::Bytes;
use std::alloc::Global;

/// Whether an NCName may begin with the character (Namespaces in XML 1.0, section 3).
pub(crate) fn begins_nc_name(c: char) -> bool
    ensures { result ≡ begins_name c }
{
    is_name_start(c) && c != ':'
}

/// Whether it may stand in an NCName. Most characters of names are ASCII, and are judged first.
#[tactic(auto, unfolding(nx_base::specs::Characters::is_name_char, nx_base::specs::Characters::is_name_start), using(std::proofs::lemmas::Bool::Decides::nat_tests))]
fn is_nc_name_char(c: char) -> bool
    ensures { result ≡ is_name_part c }
{
    if c.is_ascii() {
        c.is_ascii_alphanumeric() || matches!(c, '-' | '.' | '_')
    } else {
        is_name_char(c)
    }
}

/// How many letters at the front may stand in an NCName.
fn name_len(letters: &[Letter]) -> usize
    ensures counted { result ≡ name_len letters.now }
    ensures within { result ≤ length letters.now }
{
    letters
        .iter()
        .take_while(|letter| is_nc_name_char(letter.character))
        .count()
}

/// The token of the name that begins with this letter.
#[tactic(auto, unfolding(crate::specs::Reading::named))]
pub(crate) fn named(alloc: Global, first: Letter, behind: &[Letter]) -> Result<Front, LexFault>
    ensures found { Finds (λ front. front) result (named first behind.now) }
    ensures within { IfOk result (λ front. front.more ≤ length behind.now) }
{
    let (more, rest) = behind.split_at(name_len(behind));
    match rest.split_first() {
        Some((colon, behind)) => {
            if colon.character == ':' {
                qualified(alloc, first, more, behind)
            } else {
                plain(alloc, first, more)
            }
        }
        None => plain(alloc, first, more),
    }
}

/// The token of this name, with a `:` and these letters behind it.
#[tactic(auto, unfolding(crate::specs::Reading::qualified))]
fn qualified(
    alloc: Global,
    first: Letter,
    more: &[Letter],
    behind: &[Letter],
) -> Result<Front, LexFault>
    ensures found { Finds (λ front. front) result (qualified first more.now behind.now) }
    ensures within { IfOk result (λ front. front.more ≤ length more.now + 1 + length behind.now) }
{
    match behind.split_first() {
        Some((next, rest)) => {
            if next.character == '*' {
                Ok(Front {
                    lexeme: Some(Lexeme::NamespaceWildcard(bytes_of(alloc, first, more)?)),
                    more: more.len() + 2,
                })
            } else if begins_nc_name(next.character) {
                prefixed(alloc, first, more, *next, rest)
            } else {
                plain(alloc, first, more)
            }
        }
        None => plain(alloc, first, more),
    }
}

/// The token of this name as a prefix, and of the local name that begins with `next`.
#[tactic(auto, unfolding(crate::specs::Reading::prefixed))]
fn prefixed(
    alloc: Global,
    first: Letter,
    more: &[Letter],
    next: Letter,
    rest: &[Letter],
) -> Result<Front, LexFault>
    ensures found { Finds (λ front. front) result (prefixed first more.now next rest.now) }
    ensures within { IfOk result (λ front. front.more ≤ length more.now + 2 + length rest.now) }
{
    let len = name_len(rest);
    let prefix = bytes_of(alloc, first, more)?;
    let local = bytes_of(alloc, next, &rest[..len])?;
    Ok(Front {
        lexeme: Some(Lexeme::PrefixedName(prefix, local)),
        more: more.len() + 2 + len,
    })
}

/// The token of a name that is no prefix.
#[tactic(auto, unfolding(crate::specs::Reading::plain))]
fn plain(alloc: Global, first: Letter, more: &[Letter]) -> Result<Front, LexFault>
    ensures found { Finds (λ front. front) result (plain first more.now) }
    ensures all { IfOk result (λ front. front.more ≡ length more.now) }
{
    Ok(Front {
        lexeme: Some(word_of(text_of(alloc, first, more)?)),
        more: more.len(),
    })
}

/// A keyword, or an identifier.
#[tactic(auto, unfolding(crate::specs::Reading::word_of))]
fn word_of(text: String) -> Lexeme
    ensures { result ≡ word_of (string_bytes text) }
{
    match keyword_of(text.as_str()) {
        Some(keyword) => Lexeme::Keyword(keyword),
        None => Lexeme::Identifier(Bytes::from_vec(text.into_bytes())),
    }
}

/// The identifier behind a `\`, keyword or not.
#[tactic(auto, unfolding(crate::specs::Reading::escaped_name))]
pub(crate) fn escaped_name(
    alloc: Global,
    first: Letter,
    behind: &[Letter],
) -> Result<Front, LexFault>
    ensures found { Finds (λ front. front) result (escaped_name first behind.now) }
    ensures within { IfOk result (λ front. front.more ≤ length behind.now) }
{
    match behind.split_first() {
        Some((next, rest)) => {
            if begins_nc_name(next.character) {
                let len = name_len(rest);
                let name = bytes_of(alloc, *next, &rest[..len])?;
                Ok(Front {
                    lexeme: Some(Lexeme::Identifier(name)),
                    more: 1 + len,
                })
            } else {
                Err(LexFault::BadCharacter(first.at))
            }
        }
        None => Err(LexFault::BadCharacter(first.at)),
    }
}
