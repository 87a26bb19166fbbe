//! The documents that a client has open.

ghost use Rattle.std.specs.Prelude.{◌≡◌, ℕ, List, All, IsUtf8, None, Some, OnErr, OnOk};
ghost use Rattle.nx_protocol.specs.Changes.{changed_document};
ghost use Rattle.nx_protocol.specs.Documents.{DocumentMap, Puts, document};

use nx_base::memory::NoMemory;
use nx_position::change::Change;
use nx_position::position::Encoding;

/// Documents by their URIs, as the client writes those.
pub trait Documents {
    /// What is under each URI.
    ghost held: { Self → DocumentMap };

    /// A text is under the URI from now on, in the place of one that was; none where there is no memory.
    fn open_text(&mut self, uri: &str, version: i64, text: &str) -> Result<(), NoMemory>
        ensures ok { OnOk result (Puts (held self.old) uri.now (Some (document version text.now)) (held self.new)) }
        ensures err { OnErr result (Puts (held self.old) uri.now None (held self.new)) };

    /// The text under the URI is changed, and has this version; where there is no memory, none is under it any more.
    fn change_text(
        &mut self,
        encoding: Encoding,
        uri: &str,
        version: i64,
        changes: &[Change],
    ) -> Result<(), NoMemory>
        requires { All (λ change. IsUtf8 change.text) changes.now }
        ensures ok { OnOk result (Puts (held self.old) uri.now
            (changed_document encoding (held self.old uri.now) (Some version) (Some changes.now)) (held self.new)) }
        ensures err { OnErr result (Puts (held self.old) uri.now None (held self.new)) };

    /// Nothing is under the URI any more.
    fn forget(&mut self, uri: &str)
        ensures { Puts (held self.old) uri.now None (held self.new) };

    /// Nothing is under any URI any more.
    fn forget_all(&mut self)
        ensures { (uri : List ℕ) → held self.new uri ≡ None };
}
