//! Texts between quotes, with their escapes.

ghost use Rattle.std.specs.Prelude.{◌≡◌, ◌<◌, ◌≤◌, length, IfOk};
ghost use Rattle.std.specs.List.{prefix_len};
ghost use Rattle.std.specs.Str.Parse.{AllDigits, digits_value};
ghost use Rattle.nx_script.specs.Reading.{Finds, onto, is_hex_digit, escaped_by, closed_at, code_at, braced_at, scalar_at, escape_at};
ghost use Rattle.nx_script.specs.Reading.{piece_at, pieces_at, after_quote};

use crate::read::ScriptFault;
use std::alloc::Global;

/// The most digits that the code of a character may have between its braces.
const MOST_HEX_DIGITS: usize = 6;

/// What follows the quote at the front.
#[tactic(auto, unfolding(crate::specs::Reading::after_quote))]
pub(crate) fn after_quote(bytes: &[u8]) -> Result<&[u8], ScriptFault>
    ensures { Finds (λ rest. rest.now) result (after_quote bytes.now) }
{
    match bytes {
        [b'"', rest @ ..] => Ok(rest),
        _ => Err(ScriptFault::BadCommand),
    }
}

/// The text that the pieces up to a quote mean, and what follows the quote.
pub(crate) fn pieces(alloc: Global, bytes: &[u8]) -> Result<(Vec<u8>, &[u8]), ScriptFault>
    ensures { Finds (λ x. (x.0.items, x.1.now)) result (pieces_at bytes.now) }
{
    let mut text = Vec::new(alloc);
    let mut rest = bytes;
    while let [first, after @ ..] = rest {
        if *first == b'"' {
            return Ok((text, after));
        }
        rest = piece(&mut text, rest)?;
    }
    Err(ScriptFault::BadCommand)
}

/// Adds what the first piece means to the text, and answers what follows the piece.
#[tactic(auto, unfolding(crate::specs::Reading::piece_at))]
fn piece<'a>(text: &mut Vec<u8>, bytes: &'a [u8]) -> Result<&'a [u8], ScriptFault>
    ensures found { Finds (λ rest. (text.new.items, rest.now)) result (onto text.old.items (piece_at bytes.now)) }
    ensures shorter { IfOk result (λ rest. length rest.now < length bytes.now) }
{
    match bytes {
        [] => Err(ScriptFault::BadCommand),
        [b'\\', escape @ ..] => escaped(text, escape),
        [byte, rest @ ..] => {
            text.push(*byte)?;
            Ok(rest)
        }
    }
}

/// Adds what an escape means to the text, its backslash left out, and answers what follows the escape.
#[tactic(auto, unfolding(crate::specs::Reading::escape_at))]
fn escaped<'a>(text: &mut Vec<u8>, escape: &'a [u8]) -> Result<&'a [u8], ScriptFault>
    ensures found { Finds (λ rest. (text.new.items, rest.now)) result (onto text.old.items (escape_at escape.now)) }
    ensures shorter { IfOk result (λ rest. length rest.now ≤ length escape.now) }
{
    match escape {
        [] => Err(ScriptFault::BadCommand),
        [b'u', code @ ..] => scalar(text, code),
        [letter, rest @ ..] => {
            text.push(escaped_by(*letter).ok_or(ScriptFault::BadCommand)?)?;
            Ok(rest)
        }
    }
}

/// The byte that the letter behind a backslash stands for.
#[tactic(auto, unfolding(crate::specs::Reading::escaped_by))]
fn escaped_by(letter: u8) -> Option<u8>
    ensures { result ≡ escaped_by letter }
{
    match letter {
        b'n' => Some(b'\n'),
        b't' => Some(b'\t'),
        b'r' => Some(b'\r'),
        b'\\' => Some(b'\\'),
        b'"' => Some(b'"'),
        _ => None,
    }
}

/// Adds the character whose code stands in braces to the text, and answers what follows the braces.
#[tactic(auto, unfolding(crate::specs::Reading::scalar_at))]
fn scalar<'a>(text: &mut Vec<u8>, bytes: &'a [u8]) -> Result<&'a [u8], ScriptFault>
    ensures found { Finds (λ rest. (text.new.items, rest.now)) result (onto text.old.items (scalar_at bytes.now)) }
    ensures shorter { IfOk result (λ rest. length rest.now ≤ length bytes.now) }
{
    let (code, rest) = braced(bytes)?;
    let character = char::from_u32(code).ok_or(ScriptFault::BadCommand)?;
    text.extend_from_slice(character.encode_utf8(&mut [0; 4]).as_bytes())?;
    Ok(rest)
}

/// The number that hexadecimal digits in braces spell, and what follows the braces.
#[tactic(auto, unfolding(crate::specs::Reading::braced_at))]
fn braced(bytes: &[u8]) -> Result<(u32, &[u8]), ScriptFault>
    ensures found { Finds (λ x. (x.0, x.1.now)) result (braced_at bytes.now) }
    ensures shorter { IfOk result (λ x. length x.1.now ≤ length bytes.now) }
{
    match bytes {
        [b'{', inside @ ..] => code(inside),
        _ => Err(ScriptFault::BadCommand),
    }
}

/// The number that hexadecimal digits spell behind an opening brace, and what follows the closing brace.
#[tactic(auto, unfolding(crate::specs::Reading::code_at))]
fn code(bytes: &[u8]) -> Result<(u32, &[u8]), ScriptFault>
    ensures found { Finds (λ x. (x.0, x.1.now)) result (code_at bytes.now) }
    ensures shorter { IfOk result (λ x. length x.1.now ≤ length bytes.now) }
{
    let count = leading_hex_digits(bytes);
    if count == 0 || count > MOST_HEX_DIGITS {
        return Err(ScriptFault::BadCommand);
    }
    let (digits, behind) = bytes.split_at(count);
    closed(code_of(digits), behind)
}

/// The code, and what follows the brace that is closed behind it.
#[tactic(auto, unfolding(crate::specs::Reading::closed_at))]
fn closed(code: u32, bytes: &[u8]) -> Result<(u32, &[u8]), ScriptFault>
    ensures found { Finds (λ x. (x.0, x.1.now)) result (closed_at code bytes.now) }
    ensures shorter { IfOk result (λ x. length x.1.now ≤ length bytes.now) }
{
    match bytes {
        [b'}', rest @ ..] => Ok((code, rest)),
        _ => Err(ScriptFault::BadCommand),
    }
}

/// How many hexadecimal digits stand at the front.
fn leading_hex_digits(bytes: &[u8]) -> usize
    ensures counted { result ≡ prefix_len is_hex_digit bytes.now }
    ensures within { result ≤ length bytes.now }
{
    bytes
        .iter()
        .take_while(|byte| char::from(**byte).is_digit(16))
        .count()
}

/// The number that the hexadecimal digits spell.
fn code_of(digits: &[u8]) -> u32
    requires digits { AllDigits 16 digits.now }
    requires short { length digits.now ≤ 6 }
    ensures { result ≡ digits_value 16 digits.now }
{
    let mut code = 0u32;
    for digit in digits {
        code = code * 16 + char::from(*digit).to_digit(16).unwrap();
    }
    code
}
