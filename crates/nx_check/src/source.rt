//! Where the schema of a document is.

ghost use Rattle.std.specs.Prelude.{◌≡◌, [], None, IfOk, IfErr, IfSome, IsAscii, IsUtf8, OnOk};
ghost use Rattle.nx_locate.specs.NamedSchemas.{named_schema};
ghost use Rattle.nx_session.specs.Editor.{files_state};
ghost use Rattle.nx_check.specs.Naming.{IsDocument};
ghost use Rattle.nx_check.specs.Reasons.{Stops};
ghost use Rattle.nx_check.specs.Sources.{HasRules, HasSource, IsFoundBy, IsLocated, LacksRulesBeside};
ghost use Rattle.nx_check.specs.Words.{asked_of_call};

use crate::document::{Document, uri_of};
use crate::reason::Reason;
use crate::words::Call;
use nx_base::locate_fault::LocateFault;
use nx_base::sequence::{Bytes, TryCopy};
use nx_base::steps::Steps;
use nx_host::files::Files;
use nx_host::path_uri::path_uri;
use nx_host::uri;
use nx_host::utf8::text_of;
use nx_locate::locate;
use nx_locate::xml_model::named_schema;
use nx_text::text::Text;
use std::alloc::Global;
use std::sync::ledger::Ledger;

/// The file of rules that is looked for beside a document.
const RULES_BESIDE: &str = "schemas.xml";

/// The URI text of the document's schema, if it has one: that of the words, else what its `xml-model` names, else what rules locate.
pub(crate) fn source_of<F: Files, L: Ledger>(
    alloc: Global,
    call: &Call<'_>,
    folder: &[u8],
    word: &str,
    document: &Document,
    files: &mut F,
    steps: &mut Steps<L>,
) -> Result<Option<Bytes>, Reason>
    requires ascii { IsAscii document.now.uri }
    requires document { IsDocument folder.now word.now (F.told files.old) document.now }
    ensures source { IfOk result (HasSource (asked_of_call call.now) folder.now (files_state (F.told files.old) (F.faults files.old)) document.now) }
    ensures utf8 { IfOk result (λ source. IfSome source IsUtf8) }
    ensures stays { OnOk result (files_state (F.told files.new) (F.faults files.new) ≡ files_state (F.told files.old) (F.faults files.old)) }
    ensures stops { IfErr result (Stops (asked_of_call call.now) folder.now word.now (files_state (F.told files.old) (F.faults files.old))
        (files_state (F.told files.new) (F.faults files.new))) }
{
    match call.schema {
        Some(given) => Ok(Some(path_uri(alloc, folder, given.as_bytes())?)),
        None => found_source(alloc, call, folder, word, document, files, steps),
    }
}

/// The URI of the schema that the document names, or that rules locate for it, where the words name none.
fn found_source<F: Files, L: Ledger>(
    alloc: Global,
    call: &Call<'_>,
    folder: &[u8],
    word: &str,
    document: &Document,
    files: &mut F,
    steps: &mut Steps<L>,
) -> Result<Option<Bytes>, Reason>
    requires ascii { IsAscii document.now.uri }
    requires document { IsDocument folder.now word.now (F.told files.old) document.now }
    requires not_given { (asked_of_call call.now).schema ≡ None }
    ensures source { IfOk result (IsFoundBy (named_schema document.now.bytes) (asked_of_call call.now) folder.now
        (files_state (F.told files.old) (F.faults files.old)) document.now) }
    ensures utf8 { IfOk result (λ source. IfSome source IsUtf8) }
    ensures stays { OnOk result (files_state (F.told files.new) (F.faults files.new) ≡ files_state (F.told files.old) (F.faults files.old)) }
    ensures stops { IfErr result (Stops (asked_of_call call.now) folder.now word.now (files_state (F.told files.old) (F.faults files.old))
        (files_state (F.told files.new) (F.faults files.new))) }
{
    // The editor that reads the document makes a text of its own, of the document's very bytes.
    let text = Text::from_bytes(document.bytes.copy()?)?;
    match named_schema(alloc, &text, steps)? {
        Some(href) => Ok(Some(uri::join(alloc, document.uri(), text_of(&href))?)),
        None => located_source(alloc, call, folder, word, document, &text, files, steps),
    }
}

/// The URI of the schema that rules locate for the document, where neither it nor the words name one.
fn located_source<F: Files, L: Ledger>(
    alloc: Global,
    call: &Call<'_>,
    folder: &[u8],
    word: &str,
    document: &Document,
    text: &Text,
    files: &mut F,
    steps: &mut Steps<L>,
) -> Result<Option<Bytes>, Reason>
    requires ascii { IsAscii document.now.uri }
    requires document { IsDocument folder.now word.now (F.told files.old) document.now }
    requires not_given { (asked_of_call call.now).schema ≡ None }
    requires not_named { named_schema document.now.bytes ≡ None }
    requires text { text.now ≡ document.now.bytes }
    ensures source { IfOk result (IsLocated (asked_of_call call.now) folder.now (files_state (F.told files.old) (F.faults files.old)) document.now) }
    ensures utf8 { IfOk result (λ source. IfSome source IsUtf8) }
    ensures stays { OnOk result (files_state (F.told files.new) (F.faults files.new) ≡ files_state (F.told files.old) (F.faults files.old)) }
    ensures stops { IfErr result (Stops (asked_of_call call.now) folder.now word.now (files_state (F.told files.old) (F.faults files.old))
        (files_state (F.told files.new) (F.faults files.new))) }
{
    let rules = rules_of(alloc, call, folder, word, document, files)?;
    let rules = match &rules {
        Some(uri) => Some(text_of(uri)),
        None => None,
    };
    match locate(alloc, rules, document.uri(), text, files, steps) {
        Ok(found) => Ok(found),
        Err(LocateFault::Failed) => Err(Reason::Failed),
        Err(fault) => Err(Reason::Rules(fault)),
    }
}

/// The URI of the rules for the document, if there are some, where neither it nor the words name a schema.
fn rules_of<F: Files>(
    alloc: Global,
    call: &Call<'_>,
    folder: &[u8],
    word: &str,
    document: &Document,
    files: &mut F,
) -> Result<Option<Bytes>, Reason>
    requires ascii { IsAscii document.now.uri }
    requires document { IsDocument folder.now word.now (F.told files.old) document.now }
    requires not_given { (asked_of_call call.now).schema ≡ None }
    requires not_named { named_schema document.now.bytes ≡ None }
    ensures rules { IfOk result (HasRules (asked_of_call call.now).rules folder.now (files_state (F.told files.old) (F.faults files.old)) document.now) }
    ensures utf8 { IfOk result (λ rules. IfSome rules IsUtf8) }
    ensures stays { OnOk result (files_state (F.told files.new) (F.faults files.new) ≡ files_state (F.told files.old) (F.faults files.old)) }
    ensures stops { IfErr result (Stops (asked_of_call call.now) folder.now word.now (files_state (F.told files.old) (F.faults files.old))
        (files_state (F.told files.new) (F.faults files.new))) }
{
    match call.rules {
        Some(given) => Ok(Some(uri_of(alloc, folder, given)?)),
        None => rules_beside(alloc, document, files),
    }
}

/// The URI of the rules that lie beside the document, if some do.
fn rules_beside<F: Files>(
    alloc: Global,
    document: &Document,
    files: &mut F,
) -> Result<Option<Bytes>, Reason>
    requires ascii { IsAscii document.now.uri }
    ensures rules { IfOk result (HasRules None [] (files_state (F.told files.old) (F.faults files.old)) document.now) }
    ensures utf8 { IfOk result (λ rules. IfSome rules IsUtf8) }
    ensures stays { OnOk result (files_state (F.told files.new) (F.faults files.new) ≡ files_state (F.told files.old) (F.faults files.old)) }
    ensures stops { IfErr result (LacksRulesBeside document.now (files_state (F.told files.old) (F.faults files.old))
        (files_state (F.told files.new) (F.faults files.new))) }
{
    let uri = uri::join(alloc, document.uri(), RULES_BESIDE)?;
    if files.has(alloc, text_of(&uri))? {
        Ok(Some(uri))
    } else {
        Ok(None)
    }
}
