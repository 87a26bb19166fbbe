//! The script's text, fetched by the word that names it.

ghost use Rattle.std.specs.Prelude.{◌≡◌, IfOk, string_bytes};
ghost use Rattle.nx_session.specs.Editor.{files_state};
ghost use Rattle.nx_run.specs.Script.{FetchesScript, IsTextAlone, refusal_line};

use nx_base::memory::NoMemory;
use nx_base::sequence::Bytes;
use nx_host::files::{FileFault, Files};
use nx_host::uri::{self, UriFault, WORK_FOLDER};
use nx_host::utf8::{text_front, text_of};
use std::alloc::Global;
use std::str;

/// Why a script is refused.
#[derive(Clone, Copy, Debug, PartialEq, Eq)]
pub enum ScriptRefusal {
    /// The word is no URI.
    BadUri,
    /// There is no such file.
    Absent,
    /// The file is no UTF-8 text from this byte offset on.
    NotUtf8(usize),
    /// The files could not fetch it.
    Failed,
}

/// Why there is no script to play.
#[derive(Clone, Copy, Debug, PartialEq, Eq)]
pub enum FetchFault {
    Refused(ScriptRefusal),
    NoMemory,
}

impl From<UriFault> for FetchFault {
    ghost use Rattle.std.specs.Prelude.{◌≡◌};
    ghost use Rattle.nx_run.specs.Script.{fetch_fault_of_uri};

    ghost from_gives = { λ given fault. fault ≡ fetch_fault_of_uri given };

    fn from(fault: UriFault) -> FetchFault {
        match fault {
            UriFault::Bad => FetchFault::Refused(ScriptRefusal::BadUri),
            UriFault::NoMemory => FetchFault::NoMemory,
        }
    }
}

impl From<FileFault> for FetchFault {
    ghost use Rattle.std.specs.Prelude.{◌≡◌};
    ghost use Rattle.nx_run.specs.Script.{fetch_fault_of_files};

    ghost from_gives = { λ given fault. fault ≡ fetch_fault_of_files given };

    fn from(fault: FileFault) -> FetchFault {
        match fault {
            FileFault::Failed => FetchFault::Refused(ScriptRefusal::Failed),
            FileFault::NoMemory => FetchFault::NoMemory,
        }
    }
}

impl ScriptRefusal {
    /// The line that is written for it.
    pub fn line(&self, alloc: Global) -> Result<String, NoMemory>
        ensures { IfOk result (λ line. string_bytes line ≡ refusal_line self.now) }
    {
        let line = match self {
            ScriptRefusal::BadUri => String::from_str(alloc, "script refused: BadUri\n"),
            ScriptRefusal::Absent => String::from_str(alloc, "script refused: Absent\n"),
            ScriptRefusal::NotUtf8(at) => format!(in alloc; "script refused: NotUtf8 {at}\n"),
            ScriptRefusal::Failed => String::from_str(alloc, "script refused: Failed\n"),
        };
        Ok(line?)
    }
}

/// The script under the URI that the word denotes.
pub fn fetch_script<F: Files>(alloc: Global, word: &str, files: &mut F) -> Result<Bytes, FetchFault>
    ensures { FetchesScript word.now (files_state (F.told files.old) (F.faults files.old))
        (files_state (F.told files.new) (F.faults files.new)) result }
{
    let uri = uri::join(alloc, WORK_FOLDER, word)?;
    match files.fetch(alloc, text_of(&uri))? {
        Some(script) => text_alone(script),
        None => Err(FetchFault::Refused(ScriptRefusal::Absent)),
    }
}

/// The bytes, where they are text.
fn text_alone(bytes: Bytes) -> Result<Bytes, FetchFault>
    ensures { IsTextAlone bytes result }
{
    match str::from_utf8(bytes.as_slice()) {
        Ok(_) => Ok(bytes),
        Err(_) => {
            let at = text_front(bytes.as_slice());
            Err(FetchFault::Refused(ScriptRefusal::NotUtf8(at)))
        }
    }
}
