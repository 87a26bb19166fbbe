//! A script played turn by turn.

ghost use Rattle.std.specs.Prelude.{◌≡◌, ◌||◌, map, option_map, IfOk, if◌then◌else◌};
ghost use Rattle.nx_script.specs.Replies.{ReplyIsText};
ghost use Rattle.nx_session.specs.Editor.{files_state, new_editor, world};
ghost use Rattle.nx_session.specs.Viewing.{ViewsAreText};
ghost use Rattle.nx_words.specs.Call.{call_line};
ghost use Rattle.nx_run.specs.Output.{out_state};
ghost use Rattle.nx_run.specs.Surroundings.{surroundings};
ghost use Rattle.nx_run.specs.Turns.{turn_of};
ghost use Rattle.nx_run.specs.Play.{IsPlayOf, TurnStep, wants_memory, is_refusal};

use crate::status::Status;
use crate::turns::{Turn, Turns};
use nx_base::memory::NoMemory;
use nx_base::sequence::Bytes;
use nx_base::steps::Steps;
use nx_host::files::Files;
use nx_host::out::Out;
use nx_script::read::ScriptFault;
use nx_script::reply::{Refusal, Reply};
use nx_script::write::write_reply;
use nx_session::session::Session;
use nx_views::view::View;
use nx_words::call::Call;
use std::alloc::Global;
use std::sync::ledger::Ledger;

/// Which refusals the replies so far had.
#[derive(Clone, Copy)]
struct Tally {
    memory: bool,
    refusal: bool,
}

impl Tally {
    fn note(&mut self, reply: &Reply)
        ensures memory { self.new.memory ≡ self.old.memory || wants_memory reply.now }
        ensures refusal { self.new.refusal ≡ self.old.refusal || is_refusal reply.now }
    {
        self.memory = self.memory || matches!(reply, Reply::Refused(Refusal::NoMemory));
        self.refusal = self.refusal || matches!(reply, Reply::Refused(_));
    }

    fn status(&self) -> Status
        ensures { result ≡ if self.now.memory then Status.Memory
            else (if self.now.refusal then Status.Refused else Status.Done) }
    {
        match (self.memory, self.refusal) {
            (true, _) => Status::Memory,
            (false, true) => Status::Refused,
            (false, false) => Status::Done,
        }
    }
}

/// The editor's answer to a turn.
fn answer<F: Files, L: Ledger>(
    alloc: Global,
    session: &mut Session,
    turn: Turn<'_>,
    files: &mut F,
    views: &mut Vec<Box<dyn View>>,
    steps: &mut Steps<L>,
) -> Reply
    ensures step { TurnStep (world session.old.editor (files_state (F.told files.old) (F.faults files.old))
        (map (λ b. state b) views.old.items) steps.old) (turn_of turn.entry) result
        (world session.new.editor (files_state (F.told files.new) (F.faults files.new)) (map (λ b. state b) views.new.items) steps.new) }
    ensures text { ViewsAreText (map (λ b. state b) views.old.items) → ReplyIsText result }
    ensures views { ViewsAreText (map (λ b. state b) views.old.items) → ViewsAreText (map (λ b. state b) views.new.items) }
{
    match turn.command(alloc) {
        Ok(command) => session.apply(&command, files, views, steps),
        Err(ScriptFault::BadCommand) => Reply::Refused(Refusal::BadCommand),
        Err(ScriptFault::NoMemory) => Reply::Refused(Refusal::NoMemory),
    }
}

/// A copy of a text, where there is one.
fn copied(alloc: Global, text: Option<&str>) -> Result<Option<Bytes>, NoMemory>
    ensures { IfOk result (λ copy. copy ≡ option_map (λ text. text.now) text.entry) }
{
    match text {
        Some(text) => Ok(Some(Bytes::from_vec(Vec::from_slice(alloc, text.as_bytes())?))),
        None => Ok(None),
    }
}

/// A new editor, which is given the URI text of rules, or none.
fn new_session(alloc: Global, rules: Option<&str>) -> Result<Session, NoMemory>
    ensures { IfOk result (λ session. session.editor ≡ new_editor (option_map (λ text. text.now) rules.entry)) }
{
    let rules = copied(alloc, rules)?;
    Session::new(alloc, rules)
}

/// Plays the turns of the script with a new editor. The caller keeps it, since each way out holds the drops of all that is owned here,
/// and those of an editor are many.
fn play_turns<F: Files, O: Out, L: Ledger>(
    alloc: Global,
    session: &mut Session,
    call: &Call<'_>,
    script: &str,
    files: &mut F,
    out: &mut O,
    views: &mut Vec<Box<dyn View>>,
    steps: &mut Steps<L>,
) -> Status
    requires { session.old.editor ≡ new_editor (call_line call.now).rules }
    ensures { IsPlayOf (call_line call.now) script.now
        (surroundings (files_state (F.told files.old) (F.faults files.old)) (map (λ b. state b) views.old.items) steps.old)
        (surroundings (files_state (F.told files.new) (F.faults files.new)) (map (λ b. state b) views.new.items) steps.new)
        (out_state (O.told out.old) (O.faults out.old)) (out_state (O.told out.new) (O.faults out.new)) result }
{
    let mut tally = Tally {
        memory: false,
        refusal: false,
    };
    let mut turns = Turns::new(call.schema, script);
    while let Some((number, turn)) = turns.take_next() {
        let reply = answer(alloc, session, turn, files, views, steps);
        tally.note(&reply);
        let written = write_reply(alloc, out, number, &reply);
        drop(reply);
        match written {
            Ok(()) => {}
            Err(fault) => return Status::from(fault),
        }
    }
    tally.status()
}

/// Plays the script from a new editor, and writes the text of each reply. The schema that the words name is held before the first
/// line, as by a line with the number 0; the text of the rules is the editor's.
pub fn play<F: Files, O: Out, L: Ledger>(
    alloc: Global,
    call: &Call<'_>,
    script: &str,
    files: &mut F,
    out: &mut O,
    views: &mut Vec<Box<dyn View>>,
    steps: &mut Steps<L>,
) -> Status
    ensures { IsPlayOf (call_line call.now) script.now
        (surroundings (files_state (F.told files.old) (F.faults files.old)) (map (λ b. state b) views.old.items) steps.old)
        (surroundings (files_state (F.told files.new) (F.faults files.new)) (map (λ b. state b) views.new.items) steps.new)
        (out_state (O.told out.old) (O.faults out.old)) (out_state (O.told out.new) (O.faults out.new)) result }
{
    match new_session(alloc, call.rules) {
        Ok(mut session) => {
            let status = play_turns(alloc, &mut session, call, script, files, out, views, steps);
            drop(session);
            status
        }
        Err(NoMemory) => Status::Memory,
    }
}
