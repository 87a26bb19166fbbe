//! The words of a detail.

ghost use Rattle.std.specs.Prelude.{◌≡◌, ◌≤◌, false, length};
ghost use Rattle.nx_report.specs.Words.{ends_word, in_braces_behind, word_len, first_word, behind_word};

/// Whether a byte ends a word.
fn ends_word(in_braces: bool, byte: u8) -> bool
    ensures { result ≡ ends_word in_braces byte }
{
    !in_braces && byte == b' '
}

/// Whether braces are open behind a byte.
fn in_braces_behind(in_braces: bool, byte: u8) -> bool
    ensures { result ≡ in_braces_behind in_braces byte }
{
    if in_braces {
        byte != b'}'
    } else {
        byte == b'{'
    }
}

/// How many bytes the first word has.
fn word_len(text: &[u8]) -> usize
    ensures len { result ≡ word_len false text.now }
    ensures bound { result ≤ length text.now }
{
    let mut in_braces = false;
    for (i, byte) in text.iter().enumerate() {
        if ends_word(in_braces, *byte) {
            return i;
        }
        in_braces = in_braces_behind(in_braces, *byte);
    }
    text.len()
}

/// The first word, and what stands behind it: nothing, or a space and the other words.
pub(crate) fn split_word(text: &[u8]) -> (&[u8], &[u8])
    ensures word { result.0.now ≡ first_word text.now }
    ensures rest { result.1.now ≡ behind_word text.now }
{
    text.split_at(word_len(text))
}
