//! White space at the ends of texts, and zeros at the end of digits.

ghost use Rattle.std.specs.Prelude.{◌≡◌, ◌≤◌, length, drop};
ghost use Rattle.std.specs.List.{prefix_len};
ghost use Rattle.rng_more_types.specs.Spaces.{is_space as is_space_code, trimmed as trimmed_text, without_trailing};
ghost use Rattle.rng_more_types.specs.Literals.{is_zero_digit};

/// Whether a byte is white space (XML 1.0, section 2.3).
pub(crate) fn is_space(byte: u8) -> bool
    ensures { result ≡ is_space_code byte }
{
    byte == b' ' || byte == b'\t' || byte == b'\n' || byte == b'\r'
}

/// How many bytes of white space there are at the start.
fn leading_space(text: &[u8]) -> usize
    ensures count { result ≡ prefix_len is_space_code text.now }
    ensures within { result ≤ length text.now }
{
    text.iter().take_while(|byte| is_space(**byte)).count()
}

/// A text without white space at its start.
pub(crate) fn without_leading_space(text: &[u8]) -> &[u8]
    ensures { result.now ≡ drop (prefix_len is_space_code text.now) text.now }
{
    let spaces = leading_space(text);
    &text[spaces..]
}

/// A text without white space at its end.
fn without_trailing_space(text: &[u8]) -> &[u8]
    ensures { result.now ≡ without_trailing is_space_code text.now }
{
    let mut left = text;
    while let Some((last, front)) = left.split_last() {
        if !is_space(*last) {
            return left;
        }
        left = front;
    }
    left
}

/// A text without white space at its ends.
#[tactic(auto, unfolding(crate::specs::Spaces::trimmed))]
pub(crate) fn trimmed(text: &[u8]) -> &[u8]
    ensures { result.now ≡ trimmed_text text.now }
{
    without_trailing_space(without_leading_space(text))
}

/// Digits without the zeros at their end.
pub(crate) fn without_trailing_zeros(digits: &[u8]) -> &[u8]
    ensures { result.now ≡ without_trailing is_zero_digit digits.now }
{
    let mut left = digits;
    while let Some((last, front)) = left.split_last() {
        if *last != b'0' {
            return left;
        }
        left = front;
    }
    left
}
