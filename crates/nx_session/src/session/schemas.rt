//! Commands on the schema that the document is held against.

ghost use Rattle.std.specs.Prelude.{◌≡◌, ℕ, List, Option, None, Ok, Err, IsUtf8, IfSome, IfErr, OnOk, OnErr};
ghost use Rattle.nx_host.specs.Files.{FileMap};
ghost use Rattle.nx_script.specs.Replies.{reply_of, RefusalIsText, ReplyIsText};
ghost use Rattle.nx_session.specs.Editor.{files_state, with_schema};
ghost use Rattle.nx_marks.specs.Starting.{started};
ghost use Rattle.nx_session.specs.Marks.{BeginsMarks};
ghost use Rattle.nx_session.specs.Reading.{grammar_of, followed, rules_for};
ghost use Rattle.nx_session.specs.Schemas.{UsesGrammar, IsRefusedFor, SchemaAnswers, HoldsFile, SchemaFileStep, HoldStep};
ghost use Rattle.rng_core.specs.Soundness.{IsSound};
ghost use Rattle.rng_core.specs.declared.grammar.Grammar.{Grammar};
ghost use Rattle.rng_kept.specs.Live.{IsLive};
ghost use Rattle.rng_restrict.specs.Checking.{ChecksGrammar};
ghost use Rattle.rng_simplify.specs.Simplified.{Answers};

use super::Session;
use super::reading::begun;
use deriv_pool::pool::Pool;
use nx_base::cause::Cause;
use nx_base::memory::NoMemory;
use nx_base::sequence::Bytes;
use nx_base::steps::Steps;
use nx_host::files::Files;
use nx_host::uri::{self, WORK_FOLDER};
use nx_host::utf8::text_of;
use nx_recover::recover::Recover;
use nx_script::reply::{Refusal, Reply};
use rng_core::grammar::Grammar;
use rng_live::fault::LiveFault;
use rng_live::prune::prune;
use rng_live::schema::Schema;
use rng_restrict::check::check;
use rng_restrict::fault::RestrictFault;
use rng_simplify::fault::SchemaFault;
use rng_simplify::simplify::simplify;
use std::alloc::Global;
use std::mem;
use std::sync::ledger::Ledger;

/// Why a schema is refused that the files don't define.
fn undefined(fault: SchemaFault) -> Refusal
    ensures why { (told : Option FileMap) (uri : List ℕ) (before after : ℕ) → Answers told uri before after (Err fault)
        → IsRefusedFor told uri before after result }
    ensures text { (told : Option FileMap) (uri : List ℕ) (before after : ℕ) → Answers told uri before after (Err fault)
        → RefusalIsText result }
{
    match fault {
        SchemaFault::Absent(uri) => Refusal::Absent(uri),
        SchemaFault::NotUtf8(uri, at) => Refusal::NotUtf8(uri, at),
        SchemaFault::BadUri(_) => Refusal::BadUri,
        SchemaFault::Failed => Refusal::Failed,
        SchemaFault::NoMemory => Refusal::NoMemory,
        SchemaFault::Unreadable(why) => Refusal::Unreadable(why),
    }
}

/// Why a schema is refused whose grammar breaks a restriction.
fn restricted(fault: RestrictFault) -> Refusal
    ensures why { (whole : Grammar) → ChecksGrammar whole (Err fault) → UsesGrammar whole (Err result) }
{
    match fault {
        RestrictFault::Path => Refusal::Unreadable(Cause::Path),
        RestrictFault::Mixture => Refusal::Unreadable(Cause::Mixture),
        RestrictFault::AttributeOverlap => Refusal::Unreadable(Cause::AttributeOverlap),
        RestrictFault::WildcardOnce => Refusal::Unreadable(Cause::WildcardOnce),
        RestrictFault::InterleaveOverlap => Refusal::Unreadable(Cause::InterleaveOverlap),
        RestrictFault::TextTwice => Refusal::Unreadable(Cause::TextTwice),
        RestrictFault::NoMemory => Refusal::NoMemory,
    }
}

/// What documents can use of a grammar that breaks no restriction.
fn pruned(alloc: Global, grammar: Grammar) -> Result<Schema, Refusal>
    requires sound { IsSound grammar }
    requires checked { ChecksGrammar grammar (Ok tt) }
    ensures { UsesGrammar grammar result }
{
    match prune(alloc, grammar) {
        Ok(schema) => Ok(schema),
        Err(LiveFault::NothingValid) => Err(Refusal::Unreadable(Cause::NothingValid)),
        Err(LiveFault::NoMemory) => Err(Refusal::NoMemory),
    }
}

/// What documents can use of the grammar.
fn usable(alloc: Global, grammar: Grammar) -> Result<Schema, Refusal>
    requires { IsSound grammar }
    ensures { UsesGrammar grammar result }
{
    match check(alloc, &grammar) {
        Ok(()) => pruned(alloc, grammar),
        Err(fault) => Err(restricted(fault)),
    }
}

/// The schema of the file under the URI.
fn schema_at<F: Files, L: Ledger>(
    alloc: Global,
    uri: &str,
    files: &mut F,
    steps: &mut Steps<L>,
) -> Result<Schema, Refusal>
    ensures answers { SchemaAnswers (F.told files.old) uri.now (F.faults files.old) (F.faults files.new) result }
    ensures map { F.told files.new ≡ F.told files.old }
    ensures text { IfErr result RefusalIsText }
{
    match simplify(alloc, uri, files, steps) {
        Ok(grammar) => usable(alloc, grammar),
        Err(fault) => Err(undefined(fault)),
    }
}

impl Session {
    /// Holds the document against the schema of the file from now on.
    pub(super) fn hold_schema_file<F: Files, L: Ledger>(
        &mut self,
        uri_text: &Bytes,
        files: &mut F,
        steps: &mut Steps<L>,
    ) -> Result<Reply, Refusal>
        requires { IsUtf8 uri_text.now }
        ensures step { SchemaFileStep uri_text.now self.old.editor (files_state (F.told files.old) (F.faults files.old)) (reply_of result)
            self.new.editor (files_state (F.told files.new) (F.faults files.new)) }
        ensures marks { BeginsMarks self.old (reply_of result) self.new }
        ensures text { ReplyIsText (reply_of result) }
    {
        let uri = uri::join(self.alloc, WORK_FOLDER, text_of(uri_text))?;
        self.hold_file(text_of(&uri), files, steps)?;
        Ok(Reply::Silent)
    }

    /// Holds the document against no schema from now on.
    pub(super) fn hold_none(&mut self) -> Result<Reply, Refusal>
        ensures step { HoldStep None self.old.editor (reply_of result) self.new.editor }
        ensures marks { BeginsMarks self.old (reply_of result) self.new }
        ensures text { ReplyIsText (reply_of result) }
    {
        self.hold_schema(None)?;
        Ok(Reply::Silent)
    }

    /// Holds the document against the schema of the file under the URI from now on.
    pub(super) fn hold_file<F: Files, L: Ledger>(
        &mut self,
        uri: &str,
        files: &mut F,
        steps: &mut Steps<L>,
    ) -> Result<(), Refusal>
        ensures held { OnOk result (HoldsFile uri.now self.old.editor (files_state (F.told files.old) (F.faults files.old))
            self.new.editor (files_state (F.told files.new) (F.faults files.new))) }
        ensures marks { OnOk result (self.new.marks ≡ started (rules_for self.new.editor.schema).first) }
        ensures refused { IfErr result (IsRefusedFor (F.told files.old) uri.now (F.faults files.old) (F.faults files.new)) }
        ensures stays { OnErr result (self.new ≡ self.old) }
        ensures map { F.told files.new ≡ F.told files.old }
        ensures text { IfErr result RefusalIsText }
    {
        let schema = schema_at(self.alloc, uri, files, steps)?;
        let matcher = Pool::new(self.alloc, schema)?;
        self.hold_schema(Some(matcher))?;
        Ok(())
    }

    /// Follows the document with this matcher from now on, or with none. The old one stays until the new one has begun.
    pub(super) fn hold_schema(&mut self, matcher: Option<Pool>) -> Result<(), NoMemory>
        requires live { IfSome (followed matcher) IsLive }
        requires sound { IfSome (grammar_of matcher) IsSound }
        ensures held { OnOk result (self.new.editor ≡ with_schema self.old.editor (grammar_of matcher)) }
        ensures marks { OnOk result (self.new.marks ≡ started (rules_for self.new.editor.schema).first) }
        ensures stays { OnErr result (self.new ≡ self.old) }
    {
        let _len = self.text.len();
        let mut machine = Recover::new(matcher);
        // Old and new ones are dropped by calls: else each path would hold the drops of all their parts.
        match begun(self.alloc, &mut machine) {
            Ok(marks) => {
                drop(mem::replace(&mut self.machine, machine));
                drop(mem::replace(&mut self.marks, marks));
                Ok(())
            }
            Err(fault) => {
                drop(machine);
                Err(fault)
            }
        }
    }
}
