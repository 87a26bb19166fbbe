//! What the characters at the front of a text are: a letter, or a fault.

ghost use Rattle.std.specs.Prelude.{◌≡◌, ◌+◌, ◌<◌, ◌≤◌, ◌==◌, ◌^◌, length, slice_index};
ghost use Rattle.std.specs.Bool.{OnTrue};
ghost use Rattle.std.specs.List.{prefix_len};
ghost use Rattle.std.specs.Char.{is_ascii_hexdigit};
ghost use Rattle.std.specs.Str.Parse.{digits_value};
ghost use Rattle.nx_base.specs.CharacterCodes.{char_of_code};
ghost use Rattle.rnc_lex.specs.Reading.{is_x, of_char, escaped, behind_backslash, first_letter};

use nx_base::character::is_char;
use nx_base::character_code::{char_of_code, code_of_digits};

/// What the characters at the front are.
#[derive(Clone, Copy, Debug, PartialEq, Eq)]
pub(crate) enum First {
    /// A letter of this character, whether it is written, and how many further characters stand for it, each one byte.
    Letter(char, bool, usize),
    /// An escape that denotes no Char.
    BrokenEscape,
    /// A character that isn't a Char.
    NoChar,
}

/// What a character and the text behind it begin with.
#[tactic(auto, unfolding(crate::specs::Reading::first_letter))]
pub(crate) fn first_letter(first: char, behind: &[u8]) -> First
    ensures { result ≡ first_letter first behind.now }
{
    if first == '\r' {
        First::Letter('\n', true, usize::from(stands_at(behind, 0, b'\n')))
    } else if first == '\\' {
        behind_backslash(behind)
    } else if is_char(first) {
        First::Letter(first, true, 0)
    } else {
        First::NoChar
    }
}

/// What a `\` and the text behind it begin with: itself, unless `x`s and `{` follow it.
#[tactic(auto, unfolding(crate::specs::Reading::behind_backslash))]
fn behind_backslash(behind: &[u8]) -> First
    ensures { result ≡ behind_backslash behind.now }
{
    let xs = leading_xs(behind);
    if 0 < xs && stands_at(behind, xs, b'{') {
        escaped(xs + 1, &behind[xs + 1..])
    } else {
        First::Letter('\\', true, 0)
    }
}

/// What an escape stands for, by what is behind its `{`, which is so many bytes behind its `\`.
#[tactic(auto, unfolding(crate::specs::Reading::escaped))]
fn escaped(before: usize, inside: &[u8]) -> First
    requires { before + length inside.now < 2 ^ 64 }
    ensures { result ≡ escaped before inside.now }
{
    let count = leading_digits(inside);
    if 0 < count && stands_at(inside, count, b'}') {
        of_char(before + count + 1, char_of(&inside[..count]))
    } else {
        First::BrokenEscape
    }
}

/// An escape of so many characters behind its `\`, with the Char that it denotes.
fn of_char(more: usize, denoted: Option<char>) -> First
    ensures { result ≡ of_char more denoted }
{
    match denoted {
        Some(c) => First::Letter(c, false, more),
        None => First::BrokenEscape,
    }
}

/// Whether the byte stands at the index.
fn stands_at(bytes: &[u8], i: usize, byte: u8) -> bool
    requires { 0 < byte }
    ensures found { result ≡ (slice_index bytes.now i == byte) }
    ensures within { OnTrue result (i < length bytes.now) }
{
    match bytes.get(i) {
        Some(found) => *found == byte,
        None => false,
    }
}

/// How many `x` stand at the front.
fn leading_xs(bytes: &[u8]) -> usize
    ensures counted { result ≡ prefix_len is_x bytes.now }
    ensures within { result ≤ length bytes.now }
{
    bytes.iter().take_while(|byte| **byte == b'x').count()
}

/// How many hexadecimal digits stand at the front.
fn leading_digits(bytes: &[u8]) -> usize
    ensures counted { result ≡ prefix_len is_ascii_hexdigit bytes.now }
    ensures within { result ≤ length bytes.now }
{
    bytes
        .iter()
        .take_while(|byte| byte.is_ascii_hexdigit())
        .count()
}

/// The Char that hexadecimal digits denote, if they denote one.
fn char_of(digits: &[u8]) -> Option<char>
    ensures { result ≡ char_of_code (digits_value 16 digits.now) }
{
    char_of_code(code_of_digits(digits, 16))
}
