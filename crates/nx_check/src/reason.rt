//! Why documents aren't checked, and how that is told.

ghost use Rattle.std.specs.Prelude.{◌≡◌, ◌++◌, OnOk, IfOk};
ghost use Rattle.nx_check.specs.Reasons.{wants_memory};
ghost use Rattle.nx_check.specs.Telling.{folder_front, shown, rules_name, rules_trouble, schema_name, schema_trouble, reason_name, reason_trouble, reason_line};

use nx_base::locate_fault::LocateFault;
use nx_base::memory::NoMemory;
use nx_base::sequence::Bytes;
use nx_host::files::FileFault;
use nx_host::path_uri::path_uri;
use nx_host::uri::UriFault;
use nx_report::line::push_trouble_line;
use nx_report::trouble::Trouble;
use nx_script::reply::Refusal;
use std::alloc::{AllocError, Global};

/// Why a document isn't checked.
#[derive(Drop)]
pub enum Reason {
    /// The word that names it isn't that of a file.
    BadWord,
    /// There is no such file.
    Absent,
    /// It is no text from this byte offset on.
    NotUtf8(usize),
    /// What should lead to its schema, the reference in its `xml-model` or the word of the rules, is no URI.
    BadReference,
    /// The rules by which its schema is located can't be followed.
    Rules(LocateFault),
    /// Its schema, of this URI text, can't be used.
    Schema(Bytes, Refusal),
    /// The files failed.
    Failed,
    NoMemory,
}

impl From<NoMemory> for Reason {
    ghost use Rattle.std.specs.Prelude.{◌≡◌};
    ghost use Rattle.nx_check.specs.declared.reason.Reason.TheVariants as reasons;

    ghost from_gives = { λ _ reason. reason ≡ reasons.NoMemory };

    fn from(_error: NoMemory) -> Reason {
        Reason::NoMemory
    }
}

impl From<AllocError> for Reason {
    ghost use Rattle.std.specs.Prelude.{◌≡◌};
    ghost use Rattle.nx_check.specs.declared.reason.Reason.TheVariants as reasons;

    ghost from_gives = { λ _ reason. reason ≡ reasons.NoMemory };

    fn from(_error: AllocError) -> Reason {
        Reason::NoMemory
    }
}

impl From<UriFault> for Reason {
    ghost use Rattle.std.specs.Prelude.{◌≡◌};
    ghost use Rattle.nx_check.specs.Reasons.{reason_of_uri};

    ghost from_gives = { λ fault reason. reason ≡ reason_of_uri fault };

    /// What should lead to a schema is no URI.
    fn from(fault: UriFault) -> Reason {
        match fault {
            UriFault::Bad => Reason::BadReference,
            UriFault::NoMemory => Reason::NoMemory,
        }
    }
}

impl From<FileFault> for Reason {
    ghost use Rattle.std.specs.Prelude.{◌≡◌};
    ghost use Rattle.nx_check.specs.Reasons.{reason_of_files};

    ghost from_gives = { λ fault reason. reason ≡ reason_of_files fault };

    fn from(fault: FileFault) -> Reason {
        match fault {
            FileFault::Failed => Reason::Failed,
            FileFault::NoMemory => Reason::NoMemory,
        }
    }
}

impl Reason {
    /// Whether it is want of memory.
    pub(crate) fn wants_memory(&self) -> bool
        ensures { result ≡ wants_memory self.now }
    {
        matches!(
            self,
            Reason::NoMemory
                | Reason::Rules(LocateFault::NoMemory)
                | Reason::Schema(_, Refusal::NoMemory)
        )
    }

    /// The line that is written for the document that a word names, in this folder.
    pub(crate) fn line(&self, alloc: Global, folder: &[u8], word: &[u8]) -> Result<Bytes, NoMemory>
        ensures { IfOk result (λ line. line ≡ reason_line folder.now word.now self.now) }
    {
        let name = self.name(alloc, folder, word)?;
        let mut line = Vec::new(alloc);
        push_trouble_line(alloc, &mut line, name.as_slice(), None, self.trouble(), &[])?;
        Ok(Bytes::from_vec(line))
    }

    /// The name of the file that it is about.
    fn name(&self, alloc: Global, folder: &[u8], word: &[u8]) -> Result<Vec<u8>, NoMemory>
        ensures { IfOk result (λ name. name.items ≡ reason_name folder.now word.now self.now) }
    {
        match self {
            Reason::Rules(fault) => rules_name(alloc, folder, word, fault),
            Reason::Schema(text, cause) => schema_name(alloc, folder, text, cause),
            _ => Ok(Vec::from_slice(alloc, word)?),
        }
    }

    fn trouble(&self) -> Trouble
        ensures { result ≡ reason_trouble self.now }
    {
        match self {
            Reason::BadWord | Reason::BadReference => Trouble::BadUri,
            Reason::Absent => Trouble::Absent,
            Reason::NotUtf8(at) => Trouble::NotUtf8(*at),
            Reason::Rules(fault) => rules_trouble(fault),
            Reason::Schema(_, cause) => schema_trouble(cause),
            Reason::Failed => Trouble::Failed,
            Reason::NoMemory => Trouble::NoMemory,
        }
    }
}

/// The name of the file that a fault of rules is about.
fn rules_name(
    alloc: Global,
    folder: &[u8],
    word: &[u8],
    fault: &LocateFault,
) -> Result<Vec<u8>, NoMemory>
    ensures { IfOk result (λ name. name.items ≡ rules_name folder.now word.now fault.now) }
{
    match fault {
        LocateFault::RulesAbsent(uri)
        | LocateFault::RulesNotUtf8(uri, _)
        | LocateFault::BadRules(uri)
        | LocateFault::RulesLoop(uri) => shown(alloc, folder, uri.as_slice()),
        _ => Ok(Vec::from_slice(alloc, word)?),
    }
}

fn rules_trouble(fault: &LocateFault) -> Trouble
    ensures { result ≡ rules_trouble fault.now }
{
    match fault {
        LocateFault::RulesAbsent(_) => Trouble::Absent,
        LocateFault::RulesNotUtf8(_, at) => Trouble::NotUtf8(*at),
        LocateFault::BadRules(_) => Trouble::BadRules,
        LocateFault::RulesLoop(_) => Trouble::RulesLoop,
        LocateFault::BadUri(_) => Trouble::BadUri,
        LocateFault::Failed => Trouble::Failed,
        LocateFault::NoMemory => Trouble::NoMemory,
    }
}

/// The name of the file that a refusal of a schema is about.
fn schema_name(
    alloc: Global,
    folder: &[u8],
    text: &Bytes,
    cause: &Refusal,
) -> Result<Vec<u8>, NoMemory>
    ensures { IfOk result (λ name. name.items ≡ schema_name folder.now text.now cause.now) }
{
    match cause {
        Refusal::Absent(uri) | Refusal::NotUtf8(uri, _) => shown(alloc, folder, uri.as_slice()),
        _ => shown(alloc, folder, text.as_slice()),
    }
}

fn schema_trouble(cause: &Refusal) -> Trouble
    ensures { result ≡ schema_trouble cause.now }
{
    match cause {
        Refusal::Absent(_) => Trouble::Absent,
        Refusal::NotUtf8(_, at) => Trouble::NotUtf8(*at),
        Refusal::BadUri => Trouble::BadUri,
        Refusal::Unreadable(cause) => Trouble::Schema(*cause),
        Refusal::NoMemory => Trouble::NoMemory,
        _ => Trouble::Failed,
    }
}

/// The name by which a URI is shown in this folder.
pub(crate) fn shown(alloc: Global, folder: &[u8], uri: &[u8]) -> Result<Vec<u8>, NoMemory>
    ensures { IfOk result (λ name. name.items ≡ shown folder.now uri.now) }
{
    let mut front = path_uri(alloc, folder, &[])?;
    front.push(b'/')?;
    match uri.strip_prefix(front.as_slice()) {
        Some(rest) => {
            let mut name = Vec::new(alloc);
            percent_encoding::percent_decode(rest).append_to(&mut name)?;
            Ok(name)
        }
        None => Ok(Vec::from_slice(alloc, uri)?),
    }
}
