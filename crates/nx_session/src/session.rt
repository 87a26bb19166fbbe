//! The editor between two commands: what it holds, and which of its parts carries out a command.

ghost use Rattle.std.specs.Prelude.{◌≡◌, codes, length, map, is_some, IfOk, None};
ghost use Rattle.nx_marks.specs.Starting.{started};
ghost use Rattle.nx_script.specs.Commands.{HasFitTexts};
ghost use Rattle.nx_script.specs.Replies.{reply_of, ReplyIsText};
ghost use Rattle.nx_session.specs.Editor.{new_editor, files_state, world};
ghost use Rattle.nx_session.specs.Held.{IsWellHeld};
ghost use Rattle.nx_session.specs.Marks.{MarksAreRight, MarksStep};
ghost use Rattle.nx_session.specs.Reading.{rules_for};
ghost use Rattle.nx_session.specs.Step.{Step};
ghost use Rattle.nx_session.specs.TagFaults.{TakesOneFault, KeepsNoFaults};
ghost use Rattle.nx_session.specs.Viewing.{ViewsAreText};

mod asking;
mod documents;
mod editing;
mod locating;
mod moving;
mod reading;
mod schemas;
mod tagging;
mod telling;
mod validating;
mod viewing;

use crate::document_uri::DocumentUri;
use crate::law::tags_touch_few_faults;
use deriv_pool::pool::Pool;
use nx_base::memory::NoMemory;
use nx_base::sequence::Bytes;
use nx_base::steps::Steps;
use nx_host::files::Files;
use nx_marks::law::meanings_are_right;
use nx_marks::marks::Marks;
use nx_recover::recover::Recover;
use nx_script::command::Command;
use nx_script::reply::{Refusal, Reply};
use nx_text::text::Text;
use nx_views::view::View;
use reading::begun;
use std::alloc::Global;
use std::marker::Model;
use std::sync::ledger::Ledger;

/// The URI of a document that was opened from nowhere.
const UNTITLED: &str = "file:///work/untitled.xml";

/// An editor. To a contract it is its text, its caret, its document's URI, the grammar that the document is held against, the URI
/// text of the rules by which schemas are located, how far the text is read, and how many tokens the last command took that read it;
/// and beside that the marks, each with what its state means.
#[derive(Drop)]
pub struct Session {
    alloc: Global,
    text: Text,
    /// A place of the text, as a byte offset.
    caret: usize,
    document: DocumentUri,
    /// The URI text of the rules by which schemas are located.
    locating: Option<Bytes>,
    /// Reads the text for its faults.
    machine: Recover<Pool>,
    /// What is kept of its reading: the marks, with the faults between them.
    marks: Marks<Recover<Pool>>,
}

impl Model for Session {
    ghost use Rattle.nx_session.specs.Editor.{SessionState};
    ghost use Rattle.std.specs.Prelude.{IfSome, IsUtf8};
    ghost use Rattle.nx_marks.specs.Chain.{frontier_of};
    ghost use Rattle.nx_session.specs.Reading.{grammar_of, meant, IsWellKept, IsKept};
    ghost use Rattle.rng_core.specs.contracts.grammar.Pat as pat;
    ghost use Rattle.rng_core.specs.contracts.name_class.NameClass as class;
    ghost use Rattle.std.specs.Coded.{codes};
    ghost use Rattle.deriv_states.specs.Codes.{residual_code};
    ghost use Rattle.nx_base.specs.contracts.fault.Fault as fault;
    ghost use Rattle.nx_events.specs.contracts.state.EventState as events;

    ghost Value = { SessionState };

    ghost coded = { Prim.hlevel (codes, pat.the_row.coded, class.the_row.coded, fault.the_row.coded, events.the_row.coded, residual_code) };

    ghost view = { λ s. record {
      editor = record {
        text = s.text;
        caret = s.caret;
        document = s.document;
        schema = grammar_of s.machine.matcher;
        locating = s.locating;
        frontier = frontier_of s.marks.kept;
        taken = s.marks.taken;
      };
      marks = meant s.machine.matcher s.marks.kept;
    } };

    ghost invariant = { λ s. IsKept s.text s.caret s.machine.matcher s.marks.kept };
}

/// `UNTITLED`, as the URI of a document.
fn untitled_uri(alloc: Global) -> Result<DocumentUri, NoMemory>
    ensures { IfOk result (λ uri. uri ≡ codes "file:///work/untitled.xml") }
{
    let printed = Vec::from_slice(alloc, UNTITLED.as_bytes())?;
    Ok(DocumentUri::new(Bytes::from_vec(printed)))
}

impl Session {
    /// An editor of the empty text, which is given the URI text of the rules by which schemas are located, or none.
    pub fn new(alloc: Global, rules: Option<Bytes>) -> Result<Session, NoMemory>
        ensures editor { IfOk result (λ session. session.editor ≡ new_editor rules) }
        ensures marks { IfOk result (λ session. session.marks ≡ started (rules_for None).first) }
        ensures right { IfOk result MarksAreRight }
        ensures held { IfOk result IsWellHeld }
    {
        let document = untitled_uri(alloc)?;
        let mut machine = Recover::new(None);
        match begun(alloc, &mut machine) {
            Ok(marks) => {
                let session = Session {
                    alloc,
                    text: Text::new(alloc),
                    caret: 0,
                    document,
                    locating: rules,
                    machine,
                    marks,
                };
                session.reads_right();
                Ok(session)
            }
            Err(fault) => {
                // By a call: where a value goes out of scope, each path to its end holds the drops of all its parts.
                drop(machine);
                Err(fault)
            }
        }
    }

    /// How many bytes the text has.
    pub fn len(&self) -> usize
        ensures { result ≡ length self.now.editor.text }
    {
        self.text.len()
    }

    /// The text.
    pub fn text(&self) -> &Text
        ensures { result.now ≡ self.now.editor.text }
    {
        &self.text
    }

    /// The caret, as a byte offset of the text.
    pub fn caret(&self) -> usize
        ensures { result ≡ self.now.editor.caret }
    {
        self.caret
    }

    /// Whether the document is held against a schema.
    pub fn has_schema(&self) -> bool
        ensures { result ≡ is_some self.now.editor.schema }
    {
        self.machine.matcher.is_some()
    }

    /// One step of the editor. A refused command leaves the text, the caret, the document's URI, the schema and the rules.
    pub fn apply<F: Files, L: Ledger>(
        &mut self,
        command: &Command,
        files: &mut F,
        views: &mut Vec<Box<dyn View>>,
        steps: &mut Steps<L>,
    ) -> Reply
        requires { HasFitTexts command.now }
        ensures step { Step (world self.old.editor (files_state (F.told files.old) (F.faults files.old))
            (map (λ b. state b) views.old.items) steps.old) command.now result
            (world self.new.editor (files_state (F.told files.new) (F.faults files.new)) (map (λ b. state b) views.new.items) steps.new) }
        ensures marks { MarksStep self.old command.now result self.new }
        ensures right { MarksAreRight self.new }
        ensures held { IsWellHeld self.new }
        ensures finish { TakesOneFault self.old.editor command.now result self.new.editor }
        ensures rename { KeepsNoFaults self.old.editor command.now result self.new.editor }
        ensures text { ViewsAreText (map (λ b. state b) views.old.items) → ReplyIsText result }
        ensures views { ViewsAreText (map (λ b. state b) views.old.items) → ViewsAreText (map (λ b. state b) views.new.items) }
    {
        tags_touch_few_faults();
        self.reads_right();
        let answer = self.answer(command, files, views, steps);
        self.reads_right();
        match answer {
            Ok(reply) => reply,
            Err(cause) => Reply::Refused(cause),
        }
    }

    /// Between two commands the marks are right, the caret stands at a place, and the schema is live and sound.
    fn reads_right(&self)
        ensures right { MarksAreRight self.now }
        ensures held { IsWellHeld self.now }
    {
        meanings_are_right::<Recover<Pool>>();
        let _len = self.text.len();
    }

    /// What the part of the editor that carries out the command answers.
    fn answer<F: Files, L: Ledger>(
        &mut self,
        command: &Command,
        files: &mut F,
        views: &mut Vec<Box<dyn View>>,
        steps: &mut Steps<L>,
    ) -> Result<Reply, Refusal>
        requires { HasFitTexts command.now }
        ensures step { Step (world self.old.editor (files_state (F.told files.old) (F.faults files.old))
            (map (λ b. state b) views.old.items) steps.old) command.now
            (reply_of result) (world self.new.editor (files_state (F.told files.new) (F.faults files.new))
            (map (λ b. state b) views.new.items) steps.new) }
        ensures marks { MarksStep self.old command.now (reply_of result) self.new }
        ensures text { ViewsAreText (map (λ b. state b) views.old.items) → ReplyIsText (reply_of result) }
        ensures views { ViewsAreText (map (λ b. state b) views.old.items) → ViewsAreText (map (λ b. state b) views.new.items) }
    {
        match command {
            Command::Nothing => Ok(Reply::Silent),
            Command::OpenFile(uri) => self.open_file(uri, files, views),
            Command::Save(uri) => self.save(uri, files),
            Command::Insert(at, added) => self.insert(*at, added, views),
            Command::Delete(from, to) => self.delete(*from, *to, views),
            Command::Print => self.print(),
            Command::Errors => self.errors(views, steps),
            Command::Slice(count) => self.slice(*count, steps),
            Command::Stats => Ok(Reply::Taken(self.marks.taken())),
            Command::SchemaFile(uri) => self.hold_schema_file(uri, files, steps),
            Command::SchemaNone => self.hold_none(),
            Command::SchemaAuto => self.locate_schema(files, steps),
            Command::Complete(at) => self.complete(*at, steps),
            Command::Goto(at) => self.go_to(*at),
            Command::Move(way) => self.move_along(*way, steps),
            Command::Next => self.next(),
            Command::Previous => self.previous(),
            Command::Position => self.position(),
            Command::View(index) => self.show_view(*index, views),
            Command::Close(index) => self.close_view(*index, views),
            Command::Make(seed, pieces) => self.make(*seed, *pieces, views),
            Command::Finish(at) => self.finish(*at, views, steps),
            Command::Split(at) => self.split(*at, views, steps),
            Command::Pair(at, name) => self.pair(*at, name, views, steps),
            Command::Rename(at, name) => self.rename(*at, name, views, steps),
        }
    }
}
