//! Marks in a text, as `-->`: bytes that end a token, or begin one.

ghost use Rattle.std.specs.Prelude.{◌≡◌, ◌+◌, ◌-◌, ◌<◌, ◌≤◌, ◌^◌, [], ◌∷◌, length, drop, slice_index, IsTrue, IfSome};
ghost use Rattle.std.specs.Bool.{OnTrue};
ghost use Rattle.std.specs.Option.{option_map};
ghost use Rattle.nx_base.specs.Tokens.{begins_with, bytes_before};

use nx_text::text::Text;

/// Whether the byte stands at the byte offset `at`.
#[tactic(auto, using(crate::proofs::Marks::byte_is_here))]
pub(crate) fn byte_is(text: &Text, at: usize, byte: u8) -> bool
    ensures { result ≡ begins_with (byte ∷ []) (drop at text.now) }
{
    text.byte_at(at) == Some(byte)
}

/// Whether the mark stands at the byte offset `at`.
pub(crate) fn stands_at(text: &Text, at: usize, mark: &[u8]) -> bool
    requires { at ≤ length text.now }
    ensures stands { result ≡ begins_with mark.now (drop at text.now) }
    ensures within { OnTrue result (at + length mark.now ≤ length text.now) }
    ensures fits { OnTrue result (at + length mark.now < 2 ^ 64) }
{
    if mark.len() > text.len() - at {
        return false;
    }
    for (i, byte) in mark.iter().enumerate() {
        if !byte_is(text, at + i, *byte) {
            return false;
        }
    }
    true
}

/// The first byte offset from `from` on at which the mark stands.
fn find(text: &Text, from: usize, mark: &[u8]) -> Option<usize>
    requires { from ≤ length text.now }
    ensures first { result ≡ option_map (λ n. from + n) (bytes_before mark.now (drop from text.now)) }
    ensures stands { IfSome result (λ at. IsTrue (begins_with mark.now (drop at text.now))) }
    ensures within { IfSome result (λ at. (from ≤ at) × (at + length mark.now ≤ length text.now)) }
    ensures fits { IfSome result (λ at. at + length mark.now < 2 ^ 64) }
{
    for at in from..text.len() {
        if stands_at(text, at, mark) {
            return Some(at);
        }
    }
    None
}

/// Where the first such mark ends that begins at `from` or later.
pub(crate) fn find_past(text: &Text, from: usize, mark: &[u8]) -> Option<usize>
    requires within { from ≤ length text.now }
    requires some { 0 < length mark.now }
    ensures end { result ≡ option_map (λ n. from + n + length mark.now) (bytes_before mark.now (drop from text.now)) }
    ensures within { IfSome result (λ end. (from < end) × (end ≤ length text.now)) }
    ensures last { IfSome result (λ end. slice_index text.now (end - 1) ≡ slice_index mark.now (length mark.now - 1)) }
{
    let at = find(text, from, mark)?;
    Some(at + mark.len())
}
