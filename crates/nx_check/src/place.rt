//! Where it is asked what may stand in the place of what is wrong.

ghost use Rattle.std.specs.Prelude.{◌≡◌};
ghost use Rattle.nx_check.specs.Places.{asked_place, back_over, has};

use nx_base::fault::{Fault, Kind};
use nx_text::text::Text;

/// A part of what stands in front of an attribute's value.
#[derive(Clone, Copy, Debug, PartialEq, Eq)]
pub enum Part {
    /// A quote, and the equals sign with spaces around it.
    Between,
    /// The name.
    Name,
}

impl Part {
    /// Whether the byte is of such a part.
    fn has(self, byte: u8) -> bool
        ensures { result ≡ has self byte }
    {
        let between = matches!(byte, b'"' | b'\'' | b'=' | b' ' | b'\t' | b'\n' | b'\r');
        match self {
            Part::Between => between,
            Part::Name => !between && byte != b'<' && byte != b'/',
        }
    }
}

/// The byte offset at which it is asked what may stand in the place of what is wrong: behind the `<` of an element, and at the name of an
/// attribute or the start of its value.
pub(crate) fn asked_place(text: &Text, fault: &Fault) -> usize
    ensures { result ≡ asked_place text.now fault.now }
{
    let from = fault.span.from;
    match fault.kind {
        Kind::NotAllowed => from.saturating_add(1),
        Kind::UnknownAttribute => {
            back_over(text, back_over(text, from, Part::Between), Part::Name)
        }
        _ => from,
    }
}

/// Where a part begins that ends at the byte offset.
fn back_over(text: &Text, end: usize, part: Part) -> usize
    ensures { result ≡ back_over part text.now end }
{
    let mut at = end;
    while at > 0 {
        match text.byte_at(at - 1) {
            Some(byte) if part.has(byte) => at -= 1,
            _ => return at,
        }
    }
    at
}
