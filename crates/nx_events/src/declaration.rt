//! The XML declaration (XML 1.0, 2.8 and 4.3.3), read from left to right: each step gives what is left behind it.

ghost use Rattle.std.specs.Prelude.{◌≡◌, ◌==◌, codes, option_copied};
ghost use Rattle.nx_events.specs.XmlDeclaration.{after_spaces, after_some_spaces, after_word, after_equals, is_version, is_encoding};
ghost use Rattle.nx_events.specs.XmlDeclaration.{is_yes_or_no, word_of, may_be, after_value, after_spaced_word, after_setting};
ghost use Rattle.nx_events.specs.XmlDeclaration.{after_optional_setting, after_settings, is_xml_declaration};

use crate::front::{are_digits, begins_with_space, byte_place, spaces_len};
use nx_base::character::is_quote;

/// A setting of the XML declaration.
#[derive(Clone, Copy)]
pub enum Setting {
    Version,
    Encoding,
    Standalone,
}

fn after_spaces(bytes: &[u8]) -> &[u8]
    ensures { result.now ≡ after_spaces bytes.now }
{
    &bytes[spaces_len(bytes)..]
}

/// What is left behind S+.
#[tactic(auto, unfolding(crate::specs::XmlDeclaration::after_some_spaces))]
pub(crate) fn after_some_spaces(bytes: &[u8]) -> Option<&[u8]>
    ensures { option_copied result ≡ after_some_spaces bytes.now }
{
    if begins_with_space(bytes) {
        Some(after_spaces(bytes))
    } else {
        None
    }
}

#[tactic(auto, unfolding(crate::specs::XmlDeclaration::after_word))]
fn after_word<'a>(word: &[u8], bytes: &'a [u8]) -> Option<&'a [u8]>
    ensures { option_copied result ≡ after_word word.now bytes.now }
{
    if bytes.starts_with(word) {
        Some(&bytes[word.len()..])
    } else {
        None
    }
}

/// What is left behind Eq.
#[tactic(auto, unfolding(crate::specs::XmlDeclaration::after_equals))]
pub(crate) fn after_equals(bytes: &[u8]) -> Option<&[u8]>
    ensures { option_copied result ≡ after_equals bytes.now }
{
    let rest = after_word(b"=", after_spaces(bytes))?;
    Some(after_spaces(rest))
}

#[tactic(auto, unfolding(crate::specs::XmlDeclaration::is_version))]
fn is_version(value: &[u8]) -> bool
    ensures { result ≡ is_version value.now }
{
    value.starts_with(b"1.") && value.len() > 2 && are_digits(&value[2..])
}

#[tactic(auto, unfolding(crate::specs::XmlDeclaration::is_encoding))]
fn is_encoding(value: &[u8]) -> bool
    ensures { result ≡ is_encoding value.now }
{
    value.eq_ignore_ascii_case(b"UTF-8") || value.eq_ignore_ascii_case(b"US-ASCII")
}

#[tactic(auto, unfolding(crate::specs::XmlDeclaration::is_yes_or_no))]
fn is_yes_or_no(value: &[u8]) -> bool
    ensures { result ≡ is_yes_or_no value.now }
{
    value == b"yes".as_slice() || value == b"no".as_slice()
}

impl Setting {
    fn may_be(self, value: &[u8]) -> bool
        ensures { result ≡ may_be self value.now }
    {
        match self {
            Setting::Version => is_version(value),
            Setting::Encoding => is_encoding(value),
            Setting::Standalone => is_yes_or_no(value),
        }
    }

    // What stands behind S+ and the setting's word.
    #[tactic(auto, unfolding(crate::specs::XmlDeclaration::after_spaced_word))]
    fn after_spaced_word(self, bytes: &[u8]) -> Option<&[u8]>
        ensures { option_copied result ≡ after_spaced_word self bytes.now }
    {
        let rest = after_some_spaces(bytes)?;
        match self {
            Setting::Version => after_word(b"version", rest),
            Setting::Encoding => after_word(b"encoding", rest),
            Setting::Standalone => after_word(b"standalone", rest),
        }
    }

    // What stands behind a value in quotes that the setting may have.
    #[tactic(auto, unfolding(crate::specs::XmlDeclaration::after_value))]
    fn after_value(self, bytes: &[u8]) -> Option<&[u8]>
        ensures { option_copied result ≡ after_value self bytes.now }
    {
        if bytes.is_empty() || !is_quote(char::from(bytes[0])) {
            return None;
        }
        let rest = &bytes[1..];
        let len = byte_place(rest, bytes[0]);
        if len < rest.len() && self.may_be(&rest[..len]) {
            Some(&rest[len + 1..])
        } else {
            None
        }
    }

    // What stands behind the whole setting.
    #[tactic(auto, unfolding(crate::specs::XmlDeclaration::after_setting))]
    fn after(self, bytes: &[u8]) -> Option<&[u8]>
        ensures { option_copied result ≡ after_setting self bytes.now }
    {
        let named = self.after_spaced_word(bytes)?;
        let valued = after_equals(named)?;
        self.after_value(valued)
    }

    #[tactic(auto, unfolding(crate::specs::XmlDeclaration::after_optional_setting))]
    fn after_optional(self, bytes: &[u8]) -> Option<&[u8]>
        ensures { option_copied result ≡ after_optional_setting self bytes.now }
    {
        if self.after_spaced_word(bytes).is_some() {
            self.after(bytes)
        } else {
            Some(bytes)
        }
    }
}

#[tactic(auto, unfolding(crate::specs::XmlDeclaration::after_settings))]
fn after_settings(bytes: &[u8]) -> Option<&[u8]>
    ensures { option_copied result ≡ after_settings bytes.now }
{
    let opened = after_word(b"<?xml", bytes)?;
    let versioned = Setting::Version.after(opened)?;
    let encoded = Setting::Encoding.after_optional(versioned)?;
    Setting::Standalone.after_optional(encoded)
}

/// Whether the bytes are an XML declaration.
#[tactic(auto, unfolding(crate::specs::XmlDeclaration::is_xml_declaration))]
pub(crate) fn is_xml_declaration(bytes: &[u8]) -> bool
    ensures { result ≡ is_xml_declaration bytes.now }
{
    match after_settings(bytes) {
        None => false,
        Some(rest) => after_spaces(rest) == b"?>".as_slice(),
    }
}
