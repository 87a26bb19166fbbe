//! Open elements, as the writer keeps them.

ghost use Rattle.std.specs.Prelude.{◌≡◌};

use nx_base::sequence::Bytes;
use std::marker::Model;

/// The name that a start tag has, and how many declarations in force stand around it. To a contract it is nx_events' open element.
#[derive(Drop)]
pub struct OpenTag {
    written: Bytes,
    outer: usize,
}

impl Model for OpenTag {
    ghost use Rattle.nx_events.specs.declared.state.OpenElement.{OpenElement};

    ghost Value = { OpenElement };

    ghost view = { λ tag. record { written = tag.written; outer = tag.outer } };
}

impl OpenTag {
    /// A tag of this name, inside of so many declarations.
    pub fn new(written: Bytes, outer: usize) -> OpenTag
        ensures { result ≡ record { written = written; outer = outer } }
    {
        OpenTag { written, outer }
    }

    /// The name as it is written.
    pub fn written(&self) -> &[u8]
        ensures { result.now ≡ self.now.written }
    {
        self.written.as_slice()
    }

    /// How many declarations in force stand around it.
    pub fn outer(&self) -> usize
        ensures { result ≡ self.now.outer }
    {
        self.outer
    }
}
