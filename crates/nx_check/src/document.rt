//! The documents that words name.

ghost use Rattle.std.specs.Prelude.{◌≡◌, IsAscii, IsUtf8, IfOk, IfErr, OnOk, Err};
ghost use Rattle.nx_host.specs.PathUri.{uri_of_path};
ghost use Rattle.nx_host.specs.Files.{Holds, CountsFault};
ghost use Rattle.nx_host.specs.Uri.{IsBadUri};
ghost use Rattle.nx_host.specs.declared.uri.UriFault.TheVariants.{Bad};
ghost use Rattle.nx_session.specs.Editor.{files_state, work_folder};
ghost use Rattle.nx_check.specs.Naming.{Names, IsDocument, fetched_at, IsTextAlone};
ghost use Rattle.nx_check.specs.Reasons.{Stops};
ghost use Rattle.nx_check.specs.Words.{Asked};

use crate::reason::Reason;
use nx_base::memory::NoMemory;
use nx_base::sequence::Bytes;
use nx_host::files::{FileFault, Files};
use nx_host::path_uri::path_uri;
use nx_host::uri::{self, UriFault, WORK_FOLDER};
use nx_host::utf8::{text_front, text_of};
use std::alloc::Global;
use std::str;

/// The URI under which what standard input gives is fetched.
pub const STANDARD_INPUT: &str = "stdin:";

/// The word that names standard input.
const INPUT_WORD: &str = "-";

/// A document: its URI, and its text.
#[derive(Drop)]
pub struct Document {
    pub uri: Bytes,
    pub bytes: Bytes,
}

impl Document {
    /// The URI as text.
    pub(crate) fn uri(&self) -> &str
        requires { IsAscii self.now.uri }
        ensures { result.now ≡ self.now.uri }
    {
        text_of(&self.uri)
    }
}

/// The URI of the file that a word names which is written in this folder.
pub(crate) fn uri_of(alloc: Global, folder: &[u8], word: &str) -> Result<Bytes, UriFault>
    ensures named { IfOk result (Names folder.now word.now) }
    ensures ascii { IfOk result IsAscii }
    ensures utf8 { IfOk result IsUtf8 }
    ensures bad { result ≡ Err Bad → IsBadUri work_folder (uri_of_path folder.now word.now) }
{
    let Ok(text) = path_uri(alloc, folder, word.as_bytes()) else {
        return Err(UriFault::NoMemory);
    };
    uri::join(alloc, WORK_FOLDER, text_of(&text))
}

/// The document that a word names which is written in this folder.
pub(crate) fn fetch_document<F: Files>(
    alloc: Global,
    folder: &[u8],
    word: &str,
    files: &mut F,
) -> Result<Document, Reason>
    ensures document { IfOk result (IsDocument folder.now word.now (F.told files.old)) }
    ensures ascii { IfOk result (λ document. IsAscii document.uri) }
    ensures stays { OnOk result (files_state (F.told files.new) (F.faults files.new) ≡ files_state (F.told files.old) (F.faults files.old)) }
    ensures stops { IfErr result (λ reason. (asked : Asked) → Stops asked folder.now word.now
        (files_state (F.told files.old) (F.faults files.old)) (files_state (F.told files.new) (F.faults files.new)) reason) }
    ensures map { F.told files.new ≡ F.told files.old }
{
    let uri = match uri_of(alloc, folder, word) {
        Ok(uri) => uri,
        Err(UriFault::Bad) => return Err(Reason::BadWord),
        Err(UriFault::NoMemory) => return Err(Reason::NoMemory),
    };
    match fetch(alloc, word, &uri, files)? {
        Some(bytes) => text_alone(uri, bytes),
        None => Err(Reason::Absent),
    }
}

/// What the files hold where the document of this word and URI is fetched.
fn fetch<F: Files>(
    alloc: Global,
    word: &str,
    uri: &Bytes,
    files: &mut F,
) -> Result<Option<Bytes>, FileFault>
    requires { IsUtf8 uri.now }
    ensures found { IfOk result (Holds (F.told files.old) (fetched_at word.now uri.now)) }
    ensures map { F.told files.new ≡ F.told files.old }
    ensures faults { CountsFault result (F.faults files.old) (F.faults files.new) }
{
    if word == INPUT_WORD {
        files.fetch(alloc, STANDARD_INPUT)
    } else {
        files.fetch(alloc, text_of(uri))
    }
}

/// The document of this URI with these bytes, where they are text.
fn text_alone(uri: Bytes, bytes: Bytes) -> Result<Document, Reason>
    ensures { IsTextAlone uri bytes result }
{
    match str::from_utf8(bytes.as_slice()) {
        Ok(_) => Ok(Document { uri, bytes }),
        Err(_) => {
            let at = text_front(bytes.as_slice());
            Err(Reason::NotUtf8(at))
        }
    }
}
