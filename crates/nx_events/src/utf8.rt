//! The character at the front of a text.

ghost use Rattle.std.specs.Prelude.{◌≡◌, ◌+◌, ◌-◌, ◌*◌, ◌<◌, length};
ghost use Rattle.std.specs.Char.{is_ascii_lowercase};
ghost use Rattle.std.specs.Str.{continuation_len, lead_bits};
ghost use Rattle.nx_base.specs.Characters.{is_char, is_name_start, is_name_char};
ghost use Rattle.nx_events.specs.Utf8.{with_following, front_char, front_char_len};

use nx_base::character;

// The bits of a character so far, and those of its next byte.
fn next_bits(bits: u32, byte: u8) -> u32
    requires { bits < 0x100_0000 }
    ensures { result ≡ bits * 64 + (byte - 128) }
{
    bits * 64 + u32::from(byte.saturating_sub(128))
}

// The bits of a first byte and of one, two or three that follow.
fn with_one(bits: u32, bytes: &[u8]) -> u32
    requires { bits < 0x100_0000 }
    ensures { result ≡ with_following 1 bits bytes.now }
{
    match bytes {
        [] => bits,
        [byte, ..] => next_bits(bits, *byte),
    }
}

fn with_two(bits: u32, bytes: &[u8]) -> u32
    requires { bits < 0x1_0000 }
    ensures { result ≡ with_following 2 bits bytes.now }
{
    match bytes {
        [] => bits,
        [byte, rest @ ..] => with_one(next_bits(bits, *byte), rest),
    }
}

fn with_three(bits: u32, bytes: &[u8]) -> u32
    requires { bits < 0x100 }
    ensures { result ≡ with_following 3 bits bytes.now }
{
    match bytes {
        [] => bits,
        [byte, rest @ ..] => with_two(next_bits(bits, *byte), rest),
    }
}

/// The code of the character at the front, and 0 where there is none.
#[tactic(auto, unfolding(crate::specs::Utf8::front_char))]
pub(crate) fn front_char(bytes: &[u8]) -> u32
    ensures { result ≡ front_char bytes.now }
{
    match bytes {
        [] => 0,
        [byte, rest @ ..] => {
            let byte = *byte;
            if byte < 128 {
                u32::from(byte)
            } else if byte < 224 {
                with_one(u32::from(byte.saturating_sub(192)), rest)
            } else if byte < 240 {
                with_two(u32::from(byte) - 224, rest)
            } else {
                with_three(u32::from(byte) - 240, rest)
            }
        }
    }
}

/// How many bytes follow the first byte of a character.
pub(crate) fn continuation_len(byte: u8) -> usize
    ensures { result ≡ continuation_len byte }
{
    if byte < 128 {
        0
    } else if byte < 224 {
        1
    } else if byte < 240 {
        2
    } else {
        3
    }
}

/// Whether the code is one of a character that XML allows.
#[tactic(auto, unfolding(nx_base::specs::Characters::is_char))]
pub(crate) fn is_char(code: u32) -> bool
    ensures { result ≡ is_char code }
{
    match char::from_u32(code) {
        Some(c) => character::is_char(c),
        None => false,
    }
}

// Whether the code is that of a small letter from a to z, as most in names are: they are asked for first.
fn is_small_letter(code: u32) -> bool
    ensures { result ≡ is_ascii_lowercase code }
{
    97 <= code && code <= 122
}

/// Whether a name may begin with the character of this code.
#[tactic(auto, unfolding(nx_base::specs::Characters::is_name_start))]
pub(crate) fn is_name_start(code: u32) -> bool
    ensures { result ≡ is_name_start code }
{
    if is_small_letter(code) {
        return true;
    }
    match char::from_u32(code) {
        Some(c) => character::is_name_start(c),
        None => false,
    }
}

/// Whether the character of this code may stand in a name.
#[tactic(auto, unfolding(nx_base::specs::Characters::is_name_char, nx_base::specs::Characters::is_name_start))]
pub(crate) fn is_name_char(code: u32) -> bool
    ensures { result ≡ is_name_char code }
{
    if is_small_letter(code) {
        return true;
    }
    match char::from_u32(code) {
        Some(c) => character::is_name_char(c),
        None => false,
    }
}
