//! One document after another, by the words that name them.

ghost use Rattle.std.specs.Prelude.{◌≡◌, IfOk, IfErr, IfSome, IsAscii, IsUtf8, OnOk};
ghost use Rattle.nx_recover.specs.Faults.{AreFaultsOf};
ghost use Rattle.nx_session.specs.Editor.{files_state, schema_of};
ghost use Rattle.nx_check.specs.Files.{ChecksFile, IsToldOf};
ghost use Rattle.nx_check.specs.Reasons.{Stops, StopsSource};
ghost use Rattle.nx_check.specs.Schemas.{HoldsSchema, HoldTheirs};
ghost use Rattle.nx_check.specs.Words.{asked_of_call};

use crate::document::{Document, fetch_document};
use crate::kept::{Kept, editor_for, keep};
use crate::reason::Reason;
use crate::recent::Recent;
use crate::report::report;
use crate::source::source_of;
use crate::told::{Told, Verdict};
use crate::trouble::tell;
use crate::words::Call;
use nx_base::fault::Faults;
use nx_base::memory::NoMemory;
use nx_base::sequence::{Bytes, TryCopy};
use nx_base::steps::Steps;
use nx_host::files::Files;
use nx_script::command::Command;
use nx_script::reply::{Refusal, Reply};
use nx_session::session::Session;
use nx_views::view::View;
use std::alloc::Global;
use std::sync::ledger::Ledger;

/// Checks the document that a word names, and says what became of it.
pub(crate) fn check_file<F: Files, L: Ledger>(
    alloc: Global,
    call: &Call<'_>,
    folder: &[u8],
    word: &str,
    kept: &mut Vec<Kept>,
    files: &mut Recent<F>,
    steps: &mut Steps<L>,
) -> Told
    requires { HoldTheirs (F.told files.old.files) kept.old.items }
    ensures checks { ChecksFile (asked_of_call call.now) folder.now (files_state (F.told files.old.files) (F.faults files.old.files)) word.now
        result (files_state (F.told files.new.files) (F.faults files.new.files)) }
    ensures theirs { HoldTheirs (F.told files.new.files) kept.new.items }
{
    match checked(alloc, call, folder, word, kept, files, steps) {
        Ok(told) => told,
        Err(reason) => tell(alloc, folder, word, &reason, files, steps),
    }
}

/// What is told of a document that is checked, or why it isn't.
fn checked<F: Files, L: Ledger>(
    alloc: Global,
    call: &Call<'_>,
    folder: &[u8],
    word: &str,
    kept: &mut Vec<Kept>,
    files: &mut F,
    steps: &mut Steps<L>,
) -> Result<Told, Reason>
    requires { HoldTheirs (F.told files.old) kept.old.items }
    ensures checks { IfOk result (λ told. ChecksFile (asked_of_call call.now) folder.now (files_state (F.told files.old) (F.faults files.old)) word.now
        told (files_state (F.told files.new) (F.faults files.new))) }
    ensures stops { IfErr result (Stops (asked_of_call call.now) folder.now word.now (files_state (F.told files.old) (F.faults files.old))
        (files_state (F.told files.new) (F.faults files.new))) }
    ensures theirs { HoldTheirs (F.told files.new) kept.new.items }
{
    let document = fetch_document(alloc, folder, word, files)?;
    let source = source_of(alloc, call, folder, word, &document, files, steps)?;
    let one = editor_of(alloc, kept, source, files, steps)?;
    Ok(read(alloc, call.quiet, word, kept, one, document, files, steps)?)
}

/// An editor for the documents of this schema.
fn editor_of<F: Files, L: Ledger>(
    alloc: Global,
    kept: &mut Vec<Kept>,
    source: Option<Bytes>,
    files: &mut F,
    steps: &mut Steps<L>,
) -> Result<Kept, Reason>
    requires theirs { HoldTheirs (F.told files.old) kept.old.items }
    requires utf8 { IfSome source IsUtf8 }
    ensures holds { IfOk result (λ one. HoldsSchema (F.told files.old) source one.session.editor.schema) }
    ensures source { IfOk result (λ one. one.source ≡ source) }
    ensures theirs { HoldTheirs (F.told files.old) kept.new.items }
    ensures stays { OnOk result (files_state (F.told files.new) (F.faults files.new) ≡ files_state (F.told files.old) (F.faults files.old)) }
    ensures map { F.told files.new ≡ F.told files.old }
    ensures refused { IfErr result (StopsSource source (files_state (F.told files.old) (F.faults files.old))
        (files_state (F.told files.new) (F.faults files.new))) }
{
    let text = match &source {
        Some(text) => text.copy()?,
        None => Bytes::new(alloc),
    };
    match editor_for(alloc, kept, source, files, steps) {
        Ok(one) => Ok(one),
        Err(Refusal::Failed) => Err(Reason::Failed),
        Err(Refusal::NoMemory) => Err(Reason::NoMemory),
        Err(cause) => Err(Reason::Schema(text, cause)),
    }
}

/// What is told of a document behind the editor's reading it. The editor is kept.
fn read<F: Files, L: Ledger>(
    alloc: Global,
    quiet: bool,
    word: &str,
    kept: &mut Vec<Kept>,
    one: Kept,
    document: Document,
    files: &mut F,
    steps: &mut Steps<L>,
) -> Result<Told, NoMemory>
    requires ascii { IsAscii document.uri }
    requires utf8 { IsUtf8 document.bytes }
    requires theirs { HoldTheirs (F.told files.old) kept.old.items }
    requires holds { HoldsSchema (F.told files.old) one.source one.session.editor.schema }
    ensures told { IfOk result (IsToldOf quiet (schema_of one.session.editor) document.bytes word.now) }
    ensures theirs { HoldTheirs (F.told files.new) kept.new.items }
    ensures stays { files_state (F.told files.new) (F.faults files.new) ≡ files_state (F.told files.old) (F.faults files.old) }
{
    let mut one = one;
    let told = read_by(alloc, quiet, word, &mut one.session, document, files, steps);
    keep(kept, one);
    told
}

/// What is told of a document behind the reading of this editor.
fn read_by<F: Files, L: Ledger>(
    alloc: Global,
    quiet: bool,
    word: &str,
    session: &mut Session,
    document: Document,
    files: &mut F,
    steps: &mut Steps<L>,
) -> Result<Told, NoMemory>
    requires ascii { IsAscii document.uri }
    requires utf8 { IsUtf8 document.bytes }
    ensures told { IfOk result (IsToldOf quiet (schema_of session.old.editor) document.bytes word.now) }
    ensures schema { session.new.editor.schema ≡ session.old.editor.schema }
    ensures stays { files_state (F.told files.new) (F.faults files.new) ≡ files_state (F.told files.old) (F.faults files.old) }
{
    let faults = faults_of(alloc, session, document, files, steps)?;
    let text = report(alloc, quiet, word, session, faults.as_slice(), files, steps)?;
    Ok(Told {
        verdict: Verdict::Checked(faults.len()),
        text,
    })
}

/// The faults of a document, which the editor holds from now on.
fn faults_of<F: Files, L: Ledger>(
    alloc: Global,
    session: &mut Session,
    document: Document,
    files: &mut F,
    steps: &mut Steps<L>,
) -> Result<Faults, NoMemory>
    requires ascii { IsAscii document.uri }
    requires utf8 { IsUtf8 document.bytes }
    ensures faults { IfOk result (AreFaultsOf (schema_of session.old.editor) document.bytes) }
    ensures text { OnOk result (session.new.editor.text ≡ document.bytes) }
    ensures schema { session.new.editor.schema ≡ session.old.editor.schema }
    ensures stays { files_state (F.told files.new) (F.faults files.new) ≡ files_state (F.told files.old) (F.faults files.old) }
{
    let mut views: Vec<Box<dyn View>> = Vec::new(alloc);
    match session.hold_text(document.uri, document.bytes, &mut views) {
        Reply::Silent => {}
        _ => return Err(NoMemory),
    }
    match session.apply(&Command::Errors, files, &mut views, steps) {
        Reply::Errors(faults) => Ok(faults),
        _ => Err(NoMemory),
    }
}
