//! White space, and the words between.

ghost use Rattle.std.specs.Prelude.{◌≡◌, ◌≤◌, [], ◌∷◌, length, IfSome, IfNone};
ghost use Rattle.std.specs.List.{prefix_len, position_or_len};
ghost use Rattle.std.specs.Str.{IsUtf8};
ghost use Rattle.nx_base.specs.Characters.{is_space as is_space_code};
ghost use Rattle.rng_types.specs.Spaces.{words};

use nx_base::character::is_space;

/// How many bytes of white space there are at the start.
fn leading_space(bytes: &[u8]) -> usize
    ensures count { result ≡ prefix_len is_space_code bytes.now }
    ensures within { result ≤ length bytes.now }
{
    bytes
        .iter()
        .take_while(|byte| is_space(char::from(**byte)))
        .count()
}

/// How many bytes there are before the first white space, or in all where there is none.
fn word_length(bytes: &[u8]) -> usize
    ensures count { result ≡ position_or_len is_space_code bytes.now }
    ensures within { result ≤ length bytes.now }
{
    bytes
        .iter()
        .take_while(|byte| !is_space(char::from(**byte)))
        .count()
}

/// The first word of a text, and what follows it; none where the text has no word.
pub fn first_word(text: &str) -> Option<(&str, &str)>
    ensures none { IfNone result (words text.now ≡ []) }
    ensures some { IfSome result (λ found. words text.now ≡ found.0.now ∷ words found.1.now) }
    ensures word_is_text { IfSome result (λ found. IsUtf8 found.0.now) }
    ensures rest_is_text { IfSome result (λ found. IsUtf8 found.1.now) }
{
    let from = leading_space(text.as_bytes());
    if from == text.len() {
        return None;
    }
    let rest = &text[from..];
    let length = word_length(rest.as_bytes());
    Some((&rest[..length], &rest[length..]))
}

/// The same of bytes, which may be no text.
pub(crate) fn first_word_of(bytes: &[u8]) -> Option<(&[u8], &[u8])>
    ensures none { IfNone result (words bytes.now ≡ []) }
    ensures some { IfSome result (λ found. words bytes.now ≡ found.0.now ∷ words found.1.now) }
{
    let from = leading_space(bytes);
    if from == bytes.len() {
        return None;
    }
    let rest = &bytes[from..];
    let length = word_length(rest);
    Some((&rest[..length], &rest[length..]))
}
