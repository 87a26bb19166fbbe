//! URI texts, joined to a base.

ghost use Rattle.std.specs.Prelude.{◌≡◌, Err, IfOk, IsAscii, IsUtf8};
ghost use Rattle.nx_host.specs.declared.uri.UriFault.TheVariants.{Bad};
ghost use Rattle.nx_host.specs.Uri.{Joins, IsBadUri, JoinsIsDecided, TextsJoinOrAreBad};

use nx_base::sequence::Bytes;
use std::alloc::{AllocError, Global};
use url::{ParseError, Url};

/// The greatest length of a URI text, in bytes.
pub const URI_LIMIT: usize = 65_535;

/// The folder in which the program's files lie, as a URI.
pub const WORK_FOLDER: &str = "file:///work/";

/// Why a text gave no URI.
#[derive(Clone, Copy, Debug, PartialEq, Eq)]
pub enum UriFault {
    /// The text is longer than `URI_LIMIT`, or is no URI.
    Bad,
    /// There was no memory, or the URI came to 4 GB.
    NoMemory,
}

/// The URI that the text denotes against the base, as `url` prints it (URL Standard, sections 4.4
/// and 4.5).
pub fn join(alloc: Global, base: &str, text: &str) -> Result<Bytes, UriFault>
    ensures joined { IfOk result (Joins base.now text.now) }
    ensures ascii { IfOk result IsAscii }
    ensures utf8 { IfOk result IsUtf8 }
    ensures bad { result ≡ Err Bad → IsBadUri base.now text.now }
{
    if text.len() > URI_LIMIT {
        return Err(UriFault::Bad);
    }
    let base = Url::parse(alloc, base)?;
    let joined = base.join(text)?;
    let bytes = Vec::from_slice(alloc, joined.as_str().as_bytes())?;
    Ok(Bytes::from_vec(bytes))
}

impl From<ParseError> for UriFault {
    ghost use Rattle.nx_host.specs.Uri.{FaultOf};

    ghost from_gives = { FaultOf };

    fn from(error: ParseError) -> UriFault {
        match error {
            ParseError::OutOfMemory | ParseError::Overflow => UriFault::NoMemory,
            _ => UriFault::Bad,
        }
    }
}

impl From<AllocError> for UriFault {
    ghost use Rattle.std.specs.Prelude.{◌≡◌};
    ghost use Rattle.nx_host.specs.declared.uri.UriFault.TheVariants.{NoMemory};

    ghost from_gives = { λ _ fault. fault ≡ NoMemory };

    fn from(_error: AllocError) -> UriFault {
        UriFault::NoMemory
    }
}

/// No text denotes a URI and is a bad one, and no text denotes two URIs.
pub fn joins_is_decided()
    ensures { JoinsIsDecided }
{}

/// Each text denotes a URI against a base, or it is a bad one.
pub fn texts_join_or_are_bad()
    ensures { TextsJoinOrAreBad }
{}
