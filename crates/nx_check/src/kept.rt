//! Editors that are kept from one document to the next, each for the documents of one schema.

ghost use Rattle.std.specs.Prelude.{◌≡◌, ◌<◌, true, Option, Some, length, IfOk, IfErr, IfSome, IsUtf8, OnOk};
ghost use Rattle.std.specs.List.{slice_index_or};
ghost use Rattle.nx_host.specs.Files.{FileMap};
ghost use Rattle.nx_session.specs.Editor.{files_state};
ghost use Rattle.nx_session.specs.Schemas.{IsRefusedSchema};
ghost use Rattle.nx_check.specs.Schemas.{HoldsSchema, HoldTheirs, FindsKept, RefusesSource};

use nx_base::memory::NoMemory;
use nx_base::sequence::{Bytes, TryCopy};
use nx_base::steps::Steps;
use nx_host::files::Files;
use nx_script::command::Command;
use nx_script::reply::{Refusal, Reply};
use nx_session::session::Session;
use nx_views::view::View;
use std::alloc::Global;
use std::sync::ledger::Ledger;

/// How many editors are kept at most. Where one more is to be kept, that goes which was used longest ago.
const MOST_KEPT: usize = 16;

/// An editor for the documents of the schema of this URI text, or of none.
#[derive(Drop)]
pub struct Kept {
    pub source: Option<Bytes>,
    pub session: Session,
}

/// An editor for the documents of this schema: one that was kept, or a new one.
pub(crate) fn editor_for<F: Files, L: Ledger>(
    alloc: Global,
    kept: &mut Vec<Kept>,
    source: Option<Bytes>,
    files: &mut F,
    steps: &mut Steps<L>,
) -> Result<Kept, Refusal>
    requires theirs { HoldTheirs (F.told files.old) kept.old.items }
    requires utf8 { IfSome source IsUtf8 }
    ensures holds { IfOk result (λ one. HoldsSchema (F.told files.old) source one.session.editor.schema) }
    ensures source { IfOk result (λ one. one.source ≡ source) }
    ensures theirs { HoldTheirs (F.told files.old) kept.new.items }
    ensures stays { OnOk result (files_state (F.told files.new) (F.faults files.new) ≡ files_state (F.told files.old) (F.faults files.old)) }
    ensures map { F.told files.new ≡ F.told files.old }
    ensures refused { IfErr result (RefusesSource source (files_state (F.told files.old) (F.faults files.old))
        (files_state (F.told files.new) (F.faults files.new))) }
{
    match take(kept, &source) {
        Some(one) => Ok(one),
        None => new_editor(alloc, source, files, steps),
    }
}

/// Keeps an editor for later documents, where there is memory for it.
pub(crate) fn keep(kept: &mut Vec<Kept>, one: Kept)
    ensures { (told : Option FileMap) → HoldTheirs told kept.old.items → HoldsSchema told one.source one.session.editor.schema
        → HoldTheirs told kept.new.items }
{
    make_room(kept);
    // Where there is no room for it, it is dropped, and made again when it is wanted.
    let _kept = kept.push(one);
}

/// Lets that editor go which was used longest ago, where there are as many as are kept at most.
fn make_room(kept: &mut Vec<Kept>)
    ensures { (told : Option FileMap) → HoldTheirs told kept.old.items → HoldTheirs told kept.new.items }
{
    if kept.len() >= MOST_KEPT {
        drop(kept.remove(0));
    }
}

/// Takes the editor for this schema, if it was kept.
fn take(kept: &mut Vec<Kept>, source: &Option<Bytes>) -> Option<Kept>
    ensures { (told : Option FileMap) → HoldTheirs told kept.old.items → FindsKept told source.now result kept.new.items }
{
    let place = find(kept.as_slice(), source)?;
    Some(kept.remove(place))
}

/// Where the editor for this schema stands.
fn find(kept: &[Kept], source: &Option<Bytes>) -> Option<usize>
    ensures { IfSome result (λ place. (place < length kept.now) × ((one : Kept) → (slice_index_or kept.now place one).source ≡ source.now)) }
{
    for (place, one) in kept.iter().enumerate() {
        if is_same(&one.source, source) {
            return Some(place);
        }
    }
    None
}

/// Whether two schemas are one, by the texts of their URIs.
fn is_same(first: &Option<Bytes>, second: &Option<Bytes>) -> bool
    ensures { result ≡ true → first.now ≡ second.now }
{
    match (first, second) {
        (None, None) => true,
        (Some(first), Some(second)) => first.as_slice() == second.as_slice(),
        _ => false,
    }
}

/// A new editor that holds its documents against this schema.
fn new_editor<F: Files, L: Ledger>(
    alloc: Global,
    source: Option<Bytes>,
    files: &mut F,
    steps: &mut Steps<L>,
) -> Result<Kept, Refusal>
    requires { IfSome source IsUtf8 }
    ensures holds { IfOk result (λ one. HoldsSchema (F.told files.old) source one.session.editor.schema) }
    ensures source { IfOk result (λ one. one.source ≡ source) }
    ensures stays { OnOk result (files_state (F.told files.new) (F.faults files.new) ≡ files_state (F.told files.old) (F.faults files.old)) }
    ensures map { F.told files.new ≡ F.told files.old }
    ensures refused { IfErr result (RefusesSource source (files_state (F.told files.old) (F.faults files.old))
        (files_state (F.told files.new) (F.faults files.new))) }
{
    let session = Session::new(alloc, None)?;
    match source {
        Some(text) => with_schema(alloc, session, text, files, steps),
        None => Ok(Kept {
            source: None,
            session,
        }),
    }
}

/// The editor, which holds its documents against the schema of this URI text from now on.
fn with_schema<F: Files, L: Ledger>(
    alloc: Global,
    session: Session,
    text: Bytes,
    files: &mut F,
    steps: &mut Steps<L>,
) -> Result<Kept, Refusal>
    requires { IsUtf8 text }
    ensures holds { IfOk result (λ one. HoldsSchema (F.told files.old) (Some text) one.session.editor.schema) }
    ensures source { IfOk result (λ one. one.source ≡ Some text) }
    ensures stays { OnOk result (files_state (F.told files.new) (F.faults files.new) ≡ files_state (F.told files.old) (F.faults files.old)) }
    ensures map { F.told files.new ≡ F.told files.old }
    ensures refused { IfErr result (IsRefusedSchema text (files_state (F.told files.old) (F.faults files.old))
        (files_state (F.told files.new) (F.faults files.new))) }
{
    let mut session = session;
    match hold(alloc, &mut session, &text, files, steps) {
        Ok(()) => Ok(Kept {
            source: Some(text),
            session,
        }),
        Err(cause) => {
            // By a call: where a value goes out of scope, each path to its end holds the drops of all its parts.
            drop(session);
            Err(cause)
        }
    }
}

/// Holds the documents of an editor against the schema of this URI text from now on.
fn hold<F: Files, L: Ledger>(
    alloc: Global,
    session: &mut Session,
    text: &Bytes,
    files: &mut F,
    steps: &mut Steps<L>,
) -> Result<(), Refusal>
    requires { IsUtf8 text.now }
    ensures holds { OnOk result (HoldsSchema (F.told files.old) (Some text.now) session.new.editor.schema) }
    ensures stays { OnOk result (files_state (F.told files.new) (F.faults files.new) ≡ files_state (F.told files.old) (F.faults files.old)) }
    ensures map { F.told files.new ≡ F.told files.old }
    ensures refused { IfErr result (IsRefusedSchema text.now (files_state (F.told files.old) (F.faults files.old))
        (files_state (F.told files.new) (F.faults files.new))) }
{
    let mut views: Vec<Box<dyn View>> = Vec::new(alloc);
    let command = Command::SchemaFile(text.copy()?);
    match session.apply(&command, files, &mut views, steps) {
        Reply::Silent => Ok(()),
        Reply::Refused(cause) => Err(cause),
        _ => unreachable!(),
    }
}
