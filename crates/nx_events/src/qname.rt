//! Qualified names (Namespaces in XML 1.0, sections 3 and 4).

ghost use Rattle.std.specs.Prelude.{◌≡◌, ◌≤◌, ◌<◌, true, false, length, MatchOption};
ghost use Rattle.std.specs.Bool.{OnTrue};
ghost use Rattle.std.specs.Char.{is_ascii_alphabetic};
ghost use Rattle.std.specs.List.{list_all};
ghost use Rattle.std.specs.Str.{chars};
ghost use Rattle.nx_events.specs.ByteClasses.{AllBetween};
ghost use Rattle.nx_events.specs.Names.{begins_unprefixed, goes_on_unprefixed, is_ncname, prefix_of, local_of, is_qname};
ghost use Rattle.nx_events.specs.PlainNames.{is_plain_start, is_plain_further, is_plain_name};

use crate::front::byte_place;
use crate::lanes;
use crate::utf8::{continuation_len, front_char, is_name_char, is_name_start};

#[tactic(auto, unfolding(crate::specs::Names::begins_unprefixed))]
fn begins_unprefixed(c: u32) -> bool
    ensures { result ≡ begins_unprefixed c }
{
    is_name_start(c) && c != 58
}

#[tactic(auto, unfolding(crate::specs::Names::goes_on_unprefixed))]
fn goes_on_unprefixed(c: u32) -> bool
    ensures { result ≡ goes_on_unprefixed c }
{
    is_name_char(c) && c != 58
}

// Whether all characters may stand in a name and none is a colon.
fn go_on_unprefixed(name: &[u8]) -> bool
    ensures { result ≡ list_all goes_on_unprefixed (chars name.now) }
{
    let mut rest = name;
    while !rest.is_empty() {
        let len = continuation_len(rest[0]) + 1;
        if rest.len() < len {
            return true;
        }
        if !goes_on_unprefixed(front_char(rest)) {
            return false;
        }
        rest = &rest[len..];
    }
    true
}

// Whether the byte is a letter of ASCII or `_`.
fn is_plain_start(b: u8) -> bool
    ensures { result ≡ is_plain_start b }
{
    b.is_ascii_alphabetic() || b == b'_'
}

// Whether the byte is a letter of ASCII, `_`, a digit, `-` or `.`. Small letters, of which most names are, are asked for first.
fn is_plain_further(b: u8) -> bool
    ensures { result ≡ is_plain_further b }
{
    if b.is_ascii_lowercase() {
        return true;
    }
    is_plain_start(b) || (b.is_ascii_digit() || (b == b'-' || b == b'.'))
}

// Whether all bytes are letters of ASCII, where two loads tell that, as of most names.
#[inline(always)]
fn are_letters(bytes: &[u8]) -> bool
    ensures { OnTrue result (AllBetween is_ascii_alphabetic bytes.now 0 (length bytes.now)) }
{
    let len = bytes.len();
    if len < 4 || len > 16 {
        false
    } else if len < 8 {
        lanes::are_letters::<4>(bytes, 0) & lanes::are_letters::<4>(bytes, len - 4)
    } else {
        lanes::are_letters::<8>(bytes, 0) & lanes::are_letters::<8>(bytes, len - 8)
    }
}

// Whether all bytes are letters of ASCII, `_`, digits, `-` or `.`.
#[inline(always)]
fn are_plain_further(bytes: &[u8]) -> bool
    ensures { OnTrue result (AllBetween is_plain_further bytes.now 0 (length bytes.now)) }
{
    if are_letters(bytes) {
        return true;
    }
    for b in bytes {
        if !is_plain_further(*b) {
            return false;
        }
    }
    true
}

/// Whether a letter of ASCII or `_` and then such ones, digits, `-` and `.` alone stand in the name, as in nearly all. Then it is one
/// without a colon, and its characters needn't be read.
#[inline(always)]
pub(crate) fn is_plain_name(name: &[u8]) -> bool
    ensures { result ≡ true → is_plain_name name.now ≡ true }
{
    if name.is_empty() {
        return false;
    }
    // behind the last digit all such bytes are letters and `_`
    name[0] > b'9' && are_plain_further(name)
}

/// Whether the name is one without a colon.
pub fn is_ncname(name: &[u8]) -> bool
    ensures { result ≡ is_ncname name.now }
{
    if is_plain_name(name) {
        return true;
    }
    if name.is_empty() {
        return false;
    }
    let len = continuation_len(name[0]) + 1;
    if name.len() < len {
        return false;
    }
    begins_unprefixed(front_char(name)) && go_on_unprefixed(&name[len..])
}

/// What stands before the first colon, and nothing where there is none.
#[tactic(auto, unfolding(crate::specs::Names::prefix_of))]
pub(crate) fn prefix_of(name: &[u8]) -> &[u8]
    ensures { result.now ≡ prefix_of name.now }
{
    let colon = byte_place(name, b':');
    if colon < name.len() {
        &name[..colon]
    } else {
        &[]
    }
}

/// A qualified name, parted at its first colon.
#[derive(Clone, Copy)]
pub struct QName<'a> {
    /// What stands before the colon, and nothing where there is none.
    pub prefix: &'a [u8],
    /// What stands behind the colon, or all where there is none.
    pub local: &'a [u8],
}

/// The name in its parts, where it has the form of a qualified name.
#[tactic(auto, unfolding(crate::specs::Names::is_qname, crate::specs::Names::prefix_of, crate::specs::Names::local_of))]
pub fn parted(name: &[u8]) -> Option<QName<'_>>
    ensures { MatchOption result (is_qname name.now ≡ false) (λ parts. (is_qname name.now ≡ true)
        × (parts.prefix.now ≡ prefix_of name.now) × (parts.local.now ≡ local_of name.now)) }
{
    if is_plain_name(name) {
        return Some(QName {
            prefix: &[],
            local: name,
        });
    }
    let colon = byte_place(name, b':');
    if colon == name.len() {
        return if is_ncname(name) {
            Some(QName {
                prefix: &[],
                local: name,
            })
        } else {
            None
        };
    }
    let prefix = &name[..colon];
    let local = &name[colon + 1..];
    if is_ncname(prefix) && is_ncname(local) {
        Some(QName { prefix, local })
    } else {
        None
    }
}

/// Whether the name has the form of a qualified name.
pub(crate) fn is_qname(name: &[u8]) -> bool
    ensures { result ≡ is_qname name.now }
{
    parted(name).is_some()
}
