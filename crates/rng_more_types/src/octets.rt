//! Octets in hexadecimal digits and in base64. They are compared digit by digit, and never made.

ghost use Rattle.std.specs.Prelude.{◌≡◌, ◌≤◌, ◌<◌, ◌∷◌, [], ◌%◌, ◌==◌, ◌&&◌, true, length, IfSome, IfNone};
ghost use Rattle.std.specs.List.{list_all, position_or_len};
ghost use Rattle.std.specs.Char.{is_ascii_hexdigit};
ghost use Rattle.std.specs.Str.{bytes_eq};
ghost use Rattle.rng_more_types.specs.Spaces.{unspaced};
ghost use Rattle.rng_more_types.specs.Octets.{is_hex as is_hex_text, octets_of_hex, is_base64_digit as is_digit_of_base64, is_filler};
ghost use Rattle.rng_more_types.specs.Octets.{digits_of, last_from, is_ending as is_right_ending, is_base64 as is_base64_text, octets_of_base64, fillers_of};

use crate::spaces::{is_space, without_leading_space};

/// Whether all bytes are hexadecimal digits.
fn all_hex_digits(text: &[u8]) -> bool
    ensures { result ≡ list_all is_ascii_hexdigit text.now }
{
    text.iter().all(|byte| byte.is_ascii_hexdigit())
}

/// Whether a text is an even number of hexadecimal digits.
#[tactic(auto, unfolding(crate::specs::Octets::is_hex))]
pub(crate) fn is_hex(text: &[u8]) -> bool
    ensures { result ≡ is_hex_text text.now }
{
    text.len() % 2 == 0 && all_hex_digits(text)
}

/// How many octets such digits are.
pub(crate) fn count_hex(text: &[u8]) -> usize
    requires { is_hex_text text.now ≡ true }
    ensures { result ≡ length (octets_of_hex text.now) }
{
    text.len() / 2
}

/// Whether two such texts are the same octets.
pub(crate) fn is_same_hex(a: &[u8], b: &[u8]) -> bool
    requires first { is_hex_text a.now ≡ true }
    requires second { is_hex_text b.now ≡ true }
    ensures { result ≡ bytes_eq (octets_of_hex a.now) (octets_of_hex b.now) }
{
    a.eq_ignore_ascii_case(b)
}

/// Whether a byte is one of the 64 digits of base64 (RFC 2045, section 6.8).
fn is_base64_digit(byte: u8) -> bool
    ensures { result ≡ is_digit_of_base64 byte }
{
    byte.is_ascii_alphanumeric() || byte == b'+' || byte == b'/'
}

/// How many bytes stand before the first `=`, or in all where there is none.
fn filler_place(text: &[u8]) -> usize
    ensures place { result ≡ position_or_len is_filler text.now }
    ensures within { result ≤ length text.now }
{
    text.iter().take_while(|byte| **byte != b'=').count()
}

/// How many bytes are no white space.
fn count_unspaced(text: &[u8]) -> usize
    ensures { result ≡ length (unspaced text.now) }
{
    text.iter().filter(|byte| !is_space(**byte)).count()
}

/// Whether all bytes but white space are digits.
fn all_base64_digits(text: &[u8]) -> bool
    ensures { result ≡ list_all is_digit_of_base64 (unspaced text.now) }
{
    text.iter()
        .filter(|byte| !is_space(**byte))
        .all(|byte| is_base64_digit(*byte))
}

/// Whether all bytes but white space are `=`.
fn all_fillers(text: &[u8]) -> bool
    ensures { result ≡ list_all is_filler (unspaced text.now) }
{
    text.iter()
        .filter(|byte| !is_space(**byte))
        .all(|byte| *byte == b'=')
}

/// The last byte that is no white space, or 0 where there is none.
fn last_unspaced(text: &[u8]) -> u8
    ensures { result ≡ last_from 0 (unspaced text.now) }
{
    let mut last = 0;
    let mut rest = text;
    while let Some((first, more)) = rest.split_first() {
        if !is_space(*first) {
            last = *first;
        }
        rest = more;
    }
    last
}

/// Whether a digit may stand before so many `=` at the end: its spare bits are zeros.
fn is_ending(last: u8, fillers: usize) -> bool
    ensures { result ≡ is_right_ending last fillers }
{
    match fillers {
        0 => true,
        1 => b"AEIMQUYcgkosw048".contains(&last),
        2 => b"AQgw".contains(&last),
        _ => false,
    }
}

/// Whether so many characters, the digits first and then the fillers, are groups of four.
fn are_groups(count: usize, digits: &[u8], fillers: &[u8]) -> bool
    ensures { result ≡ (count % 4 == 0 && (list_all is_digit_of_base64 (unspaced digits.now) && (list_all is_filler (unspaced fillers.now)
        && is_right_ending (last_from 0 (unspaced digits.now)) (length (unspaced fillers.now))))) }
{
    count % 4 == 0
        && all_base64_digits(digits)
        && all_fillers(fillers)
        && is_ending(last_unspaced(digits), count_unspaced(fillers))
}

/// Whether the characters of a text are groups of four digits, the last one filled up by `=`.
pub(crate) fn is_base64(text: &[u8]) -> bool
    ensures { result ≡ is_base64_text (unspaced text.now) }
{
    let (digits, fillers) = text.split_at(filler_place(text));
    are_groups(count_unspaced(text), digits, fillers)
}

/// How many octets such a text is.
pub(crate) fn count_base64(text: &[u8]) -> usize
    requires { is_base64_text (unspaced text.now) ≡ true }
    ensures { result ≡ length (octets_of_base64 (unspaced text.now)) }
{
    let (digits, _) = text.split_at(filler_place(text));
    let count = count_unspaced(digits);
    count - count.div_ceil(4)
}

/// The first byte that is no white space, and what follows it.
fn next_unspaced(text: &[u8]) -> Option<(u8, &[u8])>
    ensures none { IfNone result (unspaced text.now ≡ []) }
    ensures some { IfSome result (λ x. unspaced text.now ≡ x.0 ∷ unspaced x.1.now) }
    ensures shorter { IfSome result (λ x. length x.1.now < length text.now) }
{
    match without_leading_space(text) {
        [first, rest @ ..] => Some((*first, rest)),
        [] => None,
    }
}

/// Whether two texts have the same characters but white space.
fn are_same_unspaced(a: &[u8], b: &[u8]) -> bool
    ensures { result ≡ bytes_eq (unspaced a.now) (unspaced b.now) }
{
    let mut left = a;
    let mut right = b;
    while let Some((first, more)) = next_unspaced(left) {
        match next_unspaced(right) {
            Some((second, others)) => {
                if first != second {
                    return false;
                }
                left = more;
                right = others;
            }
            None => return false,
        }
    }
    next_unspaced(right).is_none()
}

/// Whether two texts in base64 are the same octets. As spare bits are zeros, they are where the characters are the same.
pub(crate) fn is_same_base64(a: &[u8], b: &[u8]) -> bool
    requires first { is_base64_text (unspaced a.now) ≡ true }
    requires second { is_base64_text (unspaced b.now) ≡ true }
    ensures { result ≡ bytes_eq (octets_of_base64 (unspaced a.now)) (octets_of_base64 (unspaced b.now)) }
{
    are_same_unspaced(a, b)
}
