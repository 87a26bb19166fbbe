//! References: `&`, a name or the number of a character, and `;` (XML 1.0, 4.1 and 4.6).

ghost use Rattle.std.specs.Prelude.{◌≡◌, ◌+◌, ◌-◌, ◌*◌, ◌<◌, ◌≤◌, [], ◌++◌, length, take, drop, min, ◌^◌, OnOk};
ghost use Rattle.std.specs.Str.Parse.{digits_value};
ghost use Rattle.nx_base.specs.CharacterCodes.{char_of_code};
ghost use Rattle.nx_events.specs.References.{name_chars_len, name_len, behind_mark, reference_body_len, reference_len, numbered};
ghost use Rattle.nx_events.specs.References.{character_named, referenced, spelled};

use crate::front::{digits_len, hexdigits_len};
use crate::utf8::{continuation_len, front_char, is_name_char, is_name_start};
use nx_base::character_code::{char_of_code, code_of_digits};
use nx_base::memory::NoMemory;

/// How many bytes the name characters at the front have.
pub(crate) fn name_chars_len(bytes: &[u8]) -> usize
    ensures value { result ≡ name_chars_len 0 bytes.now }
    ensures bound { result ≤ length bytes.now }
{
    let mut i = 0;
    while i < bytes.len() {
        if !is_name_char(front_char(&bytes[i..])) {
            return i;
        }
        i = (i + 1 + continuation_len(bytes[i])).min(bytes.len());
    }
    i
}

/// How many bytes the longest name at the front has, and 0 where there is none.
#[tactic(auto, unfolding(crate::specs::References::name_len))]
pub(crate) fn name_len(bytes: &[u8]) -> usize
    ensures value { result ≡ name_len bytes.now }
    ensures bound { result ≤ length bytes.now }
{
    if is_name_start(front_char(bytes)) {
        name_chars_len(bytes)
    } else {
        0
    }
}

fn behind_mark(mark: usize, n: usize) -> usize
    requires { mark + n < 2 ^ 64 }
    ensures { result ≡ behind_mark mark n }
{
    if n == 0 { 0 } else { mark + n }
}

// How long that which may stand between `&` and `;` is at the front, and 0 where there is none.
#[tactic(auto, unfolding(crate::specs::References::reference_body_len))]
fn reference_body_len(bytes: &[u8]) -> usize
    ensures value { result ≡ reference_body_len bytes.now }
    ensures bound { result ≤ length bytes.now }
{
    if bytes.starts_with(b"#x") {
        behind_mark(2, hexdigits_len(&bytes[2..]))
    } else if bytes.starts_with(b"#") {
        behind_mark(1, digits_len(&bytes[1..]))
    } else {
        name_len(bytes)
    }
}

/// How many bytes behind a `&` belong to its reference.
#[tactic(auto, unfolding(crate::specs::References::reference_len))]
pub(crate) fn reference_len(bytes: &[u8]) -> usize
    ensures value { result ≡ reference_len bytes.now }
    ensures bound { result ≤ length bytes.now }
{
    let n = reference_body_len(bytes);
    if 0 < n && n < bytes.len() && bytes[n] == b';' {
        n + 1
    } else {
        0
    }
}

// The character of the number that digits write.
fn denoted(digits: &[u8], base: u32) -> Option<char>
    requires some { 0 < base }
    requires small { base ≤ 16 }
    ensures { result ≡ char_of_code (digits_value base digits.now) }
{
    char_of_code(code_of_digits(digits, base))
}

// The character of what stands between `&` and `;`.
#[tactic(auto, unfolding(crate::specs::References::character_named))]
fn character_named(body: &[u8]) -> Option<char>
    ensures { result ≡ character_named body.now }
{
    if body == b"lt".as_slice() {
        Some('<')
    } else if body == b"gt".as_slice() {
        Some('>')
    } else if body == b"amp".as_slice() {
        Some('&')
    } else if body == b"apos".as_slice() {
        Some('\'')
    } else if body == b"quot".as_slice() {
        Some('"')
    } else {
        numbered(body)
    }
}

// The Char that `#x` and hexadecimal digits, or `#` and digits, denote.
#[tactic(auto, unfolding(crate::specs::References::numbered))]
fn numbered(body: &[u8]) -> Option<char>
    ensures { result ≡ numbered body.now }
{
    if body.starts_with(b"#x") {
        denoted(&body[2..], 16)
    } else if body.starts_with(b"#") {
        denoted(&body[1..], 10)
    } else {
        None
    }
}

/// The character that a reference, from its `&` through its `;`, stands for.
#[tactic(auto, unfolding(crate::specs::References::referenced))]
pub(crate) fn referenced(reference: &[u8]) -> Option<char>
    ensures { result ≡ referenced reference.now }
{
    if reference.len() < 2 {
        return character_named(&[]);
    }
    character_named(&reference[1..reference.len() - 1])
}

/// Adds the bytes of a character, if there is one.
#[tactic(auto, unfolding(crate::specs::References::spelled))]
pub(crate) fn push_character(out: &mut Vec<u8>, character: Option<char>) -> Result<(), NoMemory>
    ensures { OnOk result (out.new.items ≡ out.old.items ++ spelled character) }
{
    if let Some(c) = character {
        let mut buffer = [0; 4];
        out.extend_from_slice(c.encode_utf8(&mut buffer).as_bytes())?;
    }
    Ok(())
}
