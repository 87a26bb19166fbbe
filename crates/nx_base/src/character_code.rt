//! Characters that are written by the digits of their codes.

ghost use Rattle.std.specs.Prelude.{◌≡◌, ◌+◌, ◌*◌, ◌<◌, ◌≤◌, min};
ghost use Rattle.std.specs.Char.{digit_value};
ghost use Rattle.std.specs.Str.Parse.{digits_value};
ghost use Rattle.nx_base.specs.CharacterCodes.{char_of_code};

use crate::character::is_char;

/// The first code beyond those of Unicode.
pub const BEYOND_UNICODE: u32 = 0x11_0000;

/// What a byte counts as a digit: 0 to 9 for digits, 10 to 35 for letters of either case, and 36 for any
/// other byte.
fn digit_value(byte: u8) -> u32
    ensures { result ≡ digit_value byte }
{
    match byte {
        b'0'..=b'9' => u32::from(byte) - 48,
        b'A'..=b'Z' => u32::from(byte) - 55,
        b'a'..=b'z' => u32::from(byte) - 87,
        _ => 36,
    }
}

/// The number that digits of a base from 1 to 16 write, and the first one beyond Unicode where it is greater.
pub fn code_of_digits(digits: &[u8], base: u32) -> u32
    requires some { 0 < base }
    requires small { base ≤ 16 }
    ensures { result ≡ min (digits_value base digits.now) 0x11_0000 }
{
    let mut code: u32 = 0;
    for digit in digits {
        code = (code * base + digit_value(*digit)).min(BEYOND_UNICODE);
    }
    code
}

/// The character of a code; none where there is none, or XML doesn't allow it (XML 1.0, 2.2).
#[tactic(auto, unfolding(crate::specs::Characters::is_char, crate::specs::CharacterCodes::char_of_code))]
pub fn char_of_code(code: u32) -> Option<char>
    ensures { result ≡ char_of_code code }
{
    match char::from_u32(code) {
        Some(c) => { if is_char(c) { Some(c) } else { None } }
        None => None,
    }
}
