//! How many bytes at the front of a text are of one kind, and where the first of a kind stands.

ghost use Rattle.std.specs.Prelude.{◌≡◌, ◌≤◌, ◌==◌, length, slice_index};
ghost use Rattle.std.specs.List.{prefix_len, position_or_len, list_all};
ghost use Rattle.std.specs.Char.{is_ascii_digit, is_ascii_hexdigit};
ghost use Rattle.nx_base.specs.Characters.{is_space, is_quote};
ghost use Rattle.nx_events.specs.Tags.{is_between, ends_name};

use crate::lanes::{first_byte, first_low, first_quote};
use nx_base::character::is_quote;

/// Whether the byte is white space of XML.
#[tactic(auto, unfolding(nx_base::specs::Characters::is_space))]
pub(crate) fn is_space(b: u8) -> bool
    ensures { result ≡ is_space b }
{
    b == b'\t' || b == b'\n' || b == b'\r' || b == b' '
}

/// Whether the first byte is white space.
#[tactic(auto, unfolding(nx_base::specs::Characters::is_space))]
pub(crate) fn begins_with_space(bytes: &[u8]) -> bool
    ensures { result ≡ is_space (slice_index bytes.now 0) }
{
    match bytes {
        [] => false,
        [first, ..] => is_space(*first),
    }
}

/// Whether all bytes are decimal digits.
pub(crate) fn are_digits(bytes: &[u8]) -> bool
    ensures { result ≡ list_all is_ascii_digit bytes.now }
{
    bytes.iter().all(|b| b.is_ascii_digit())
}

/// Whether all bytes are white space.
pub(crate) fn are_spaces(bytes: &[u8]) -> bool
    ensures { result ≡ list_all is_space bytes.now }
{
    bytes.iter().all(|b| is_space(*b))
}

/// Whether the byte may stand behind an attribute of a tag.
pub(crate) fn is_between(b: u8) -> bool
    ensures { result ≡ is_between b }
{
    is_space(b) || b == b'/' || b == b'>'
}

/// Whether the byte may stand behind a name in a tag. No such byte is behind `>` in ASCII, as letters are: for these one
/// comparison tells.
#[tactic(auto, unfolding(nx_base::specs::Characters::is_space))]
pub(crate) fn ends_name(b: u8) -> bool
    ensures { result ≡ ends_name b }
{
    if b > b'>' {
        return false;
    }
    is_between(b) || b == b'='
}

/// How many decimal digits stand at the front.
pub(crate) fn digits_len(bytes: &[u8]) -> usize
    ensures value { result ≡ prefix_len is_ascii_digit bytes.now }
    ensures bound { result ≤ length bytes.now }
{
    bytes.iter().take_while(|b| b.is_ascii_digit()).count()
}

/// How many hexadecimal digits stand at the front.
pub(crate) fn hexdigits_len(bytes: &[u8]) -> usize
    ensures value { result ≡ prefix_len is_ascii_hexdigit bytes.now }
    ensures bound { result ≤ length bytes.now }
{
    bytes.iter().take_while(|b| b.is_ascii_hexdigit()).count()
}

/// How many white space characters stand at the front.
pub(crate) fn spaces_len(bytes: &[u8]) -> usize
    ensures value { result ≡ prefix_len is_space bytes.now }
    ensures bound { result ≤ length bytes.now }
{
    bytes.iter().take_while(|b| is_space(**b)).count()
}

/// Where the name at the front of a part of a tag ends.
pub(crate) fn name_end(bytes: &[u8]) -> usize
    ensures value { result ≡ position_or_len ends_name bytes.now }
    ensures bound { result ≤ length bytes.now }
{
    // In most names stand letters alone, all of which are behind `>` in ASCII: what isn't, ends the name.
    if bytes.len() >= 16 {
        let first = first_low::<16>(bytes);
        if first < 16 && ends_name(bytes[first]) {
            return first;
        }
    }
    for (i, b) in bytes.iter().enumerate() {
        if ends_name(*b) {
            return i;
        }
    }
    bytes.len()
}

/// Where the first quote stands, or the length.
pub(crate) fn quote_place(bytes: &[u8]) -> usize
    ensures value { result ≡ position_or_len is_quote bytes.now }
    ensures bound { result ≤ length bytes.now }
{
    // The names of most attributes are short.
    if bytes.len() >= 8 {
        let first = first_quote::<8>(bytes);
        if first < 8 {
            return first;
        }
    }
    for (i, b) in bytes.iter().enumerate() {
        if is_quote(char::from(*b)) {
            return i;
        }
    }
    bytes.len()
}

/// Where the first such byte stands, or the length.
pub(crate) fn byte_place(bytes: &[u8], byte: u8) -> usize
    ensures value { result ≡ position_or_len (λ b. b == byte) bytes.now }
    ensures bound { result ≤ length bytes.now }
{
    // What is looked for mostly stands near: most values and prefixes are short.
    if bytes.len() >= 8 {
        let first = first_byte::<8>(bytes, byte);
        if first < 8 {
            return first;
        }
    }
    for (i, b) in bytes.iter().enumerate() {
        if *b == byte {
            return i;
        }
    }
    bytes.len()
}
