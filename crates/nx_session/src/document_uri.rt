//! The URI of a document.

ghost use Rattle.std.specs.Prelude.{◌≡◌, IsAscii};

use nx_base::sequence::Bytes;
use nx_host::utf8::text_of;
use std::marker::Model;

/// The URI of a document, as `url` prints it, which is ASCII.
#[derive(Drop)]
pub(crate) struct DocumentUri {
    printed: Bytes,
}

impl Model for DocumentUri {
    ghost use Rattle.std.specs.Prelude.{ℕ, List, IsAscii};

    ghost Value = { List ℕ };

    ghost view = { λ u. u.printed };

    ghost invariant = { λ u. IsAscii u.printed };
}

impl DocumentUri {
    /// The URI that is printed so.
    pub(crate) fn new(printed: Bytes) -> DocumentUri
        requires { IsAscii printed }
        ensures { result ≡ printed }
    {
        DocumentUri { printed }
    }

    /// The URI as text.
    pub(crate) fn as_str(&self) -> &str
        ensures text { result.now ≡ self.now }
        ensures ascii { IsAscii self.now }
    {
        text_of(&self.printed)
    }
}
