//! Document type declarations, XML 1.0 section 2.8, as far as their end.

ghost use Rattle.std.specs.Prelude.{◌≡◌, ◌+◌, ◌-◌, ◌<◌, ◌≤◌, ◌^◌, length, drop, slice_index, IfSome, false, ◌==◌, ◌&&◌, ◌||◌, not};
ghost use Rattle.std.specs.Bool.{OnTrue};
ghost use Rattle.std.specs.Option.{option_map};
ghost use Rattle.nx_base.specs.Tokens.{begins_with, piece, in_subset, doctype_bytes};

use crate::mark::{find_past, stands_at};
use nx_base::character::is_quote;
use nx_text::text::Text;

/// Whether the subset is open and the mark stands at `at`.
fn stands_in_subset(text: &Text, at: usize, subset: bool, mark: &[u8]) -> bool
    requires { at ≤ length text.now }
    ensures stands { result ≡ (subset && begins_with mark.now (drop at text.now)) }
    ensures within { OnTrue result (at + length mark.now ≤ length text.now) }
    ensures fits { OnTrue result (at + length mark.now < 2 ^ 64) }
{
    if subset {
        stands_at(text, at, mark)
    } else {
        false
    }
}

/// Where the piece at `at` ends: a quoted text, in the subset also a comment or a processing instruction,
/// otherwise a byte. None where it has no end.
fn piece_end(text: &Text, at: usize, byte: u8, subset: bool) -> Option<usize>
    requires within { at < length text.now }
    requires byte { slice_index text.now at ≡ byte }
    requires next { at + 1 < 2 ^ 64 }
    ensures end { result ≡ option_map (λ n. at + n) (piece subset (drop at text.now)) }
    ensures within { IfSome result (λ end. (at < end) × (end ≤ length text.now)) }
{
    if is_quote(char::from(byte)) {
        find_past(text, at + 1, &[byte])
    } else if stands_in_subset(text, at, subset, b"<!--") {
        find_past(text, at + 4, b"-->")
    } else if stands_in_subset(text, at, subset, b"<?") {
        find_past(text, at + 2, b"?>")
    } else {
        Some(at + 1)
    }
}

/// Whether the byte ends the declaration.
fn closes(byte: u8, subset: bool) -> bool
    ensures { result ≡ (byte == 62 && not subset) }
{
    byte == b'>' && !subset
}

/// Whether the subset is open behind a piece that begins with this byte.
fn subset_behind(subset: bool, byte: u8) -> bool
    ensures { result ≡ in_subset subset byte }
{
    match byte {
        b'[' => true,
        b']' => false,
        _ => subset,
    }
}

/// Where the declaration ends of which the part behind `<!DOCTYPE` begins at `from`.
pub(crate) fn doctype_end(text: &Text, from: usize) -> Option<usize>
    requires { from ≤ length text.now }
    ensures end { result ≡ option_map (λ n. from + n) (doctype_bytes false 0 (drop from text.now)) }
    ensures close { IfSome result (λ end. (from < end) × (end ≤ length text.now) × (slice_index text.now (end - 1) ≡ 62)) }
{
    let mut at = from;
    let mut subset = false;
    while let Some(byte) = text.byte_at(at) {
        if closes(byte, subset) {
            return Some(at + 1);
        }
        at = piece_end(text, at, byte, subset)?;
        subset = subset_behind(subset, byte);
    }
    None
}
