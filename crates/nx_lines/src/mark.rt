//! The byte order mark in front of a text.

ghost use Rattle.std.specs.Prelude.{◌≡◌, ◌-◌};
ghost use Rattle.nx_lines.specs.Shown.{begins_with_mark};

use nx_text::text::Text;

/// How many bytes U+FEFF takes in UTF-8.
pub(crate) const MARK_LEN: usize = 3;

/// Whether a byte order mark stands first.
pub(crate) fn has_mark(text: &Text) -> bool
    ensures { result ≡ begins_with_mark text.now }
{
    text.byte_at(0).unwrap_or(0) == 0xEF
        && text.byte_at(1).unwrap_or(0) == 0xBB
        && text.byte_at(2).unwrap_or(0) == 0xBF
}
