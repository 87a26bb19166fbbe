//! The run of a script, from the program's words to the bytes written.

ghost use Rattle.std.specs.Prelude.{◌≡◌, List, ℕ, map};
ghost use Rattle.nx_session.specs.Editor.{files_state};
ghost use Rattle.nx_run.specs.Output.{out_state};
ghost use Rattle.nx_run.specs.Surroundings.{surroundings};
ghost use Rattle.nx_run.specs.Run.{IsRunOf, SaysLine};
ghost use Rattle.nx_run.specs.Script.{refusal_line};

use crate::play::play;
use crate::script::{FetchFault, ScriptRefusal, fetch_script};
use crate::status::Status;
use nx_base::memory::NoMemory;
use nx_base::sequence::Bytes;
use nx_base::steps::Steps;
use nx_host::files::Files;
use nx_host::out::Out;
use nx_host::utf8::text_of;
use nx_views::view::View;
use nx_words::call::read_call;
use nx_words::text::texts_of;
use std::alloc::Global;
use std::sync::ledger::Ledger;

/// The line that is written where the words are out of form.
const USAGE: &str = "usage: nxml [--schema URI] [--rules URI] SCRIPT\n";

/// Runs the script that the words name, and writes what it asks for. The words are those behind the
/// program's name, `[--schema URI] [--rules URI] SCRIPT`. Each listing of faults is shown to the views. The
/// steps rise by the tokens that were cut.
pub fn run<F: Files, O: Out, L: Ledger>(
    alloc: Global,
    words: &[Bytes],
    files: &mut F,
    out: &mut O,
    views: &mut Vec<Box<dyn View>>,
    steps: &mut Steps<L>,
) -> Status
    requires { Unit {0} }
    ensures { IsRunOf words.now (surroundings (files_state (F.told files.old) (F.faults files.old))
        (map (λ b. state b) views.old.items) steps.old)
        (surroundings (files_state (F.told files.new) (F.faults files.new)) (map (λ b. state b) views.new.items) steps.new)
        (out_state (O.told out.old) (O.faults out.old)) (out_state (O.told out.new) (O.faults out.new)) result }
{
    let texts = match texts_of(alloc, words) {
        Ok(Some(texts)) => texts,
        Ok(None) => return write_line(alloc, USAGE, Status::Words, out),
        Err(NoMemory) => return Status::Memory,
    };
    let call = match read_call(alloc, texts.as_slice()) {
        Ok(Some(call)) => call,
        Ok(None) => return write_line(alloc, USAGE, Status::Words, out),
        Err(NoMemory) => return Status::Memory,
    };
    match fetch_script(alloc, call.script, files) {
        Ok(script) => play(alloc, &call, text_of(&script), files, out, views, steps),
        Err(FetchFault::Refused(cause)) => refuse(alloc, cause, out),
        Err(FetchFault::NoMemory) => Status::Memory,
    }
}

/// Writes why the script can't be read, and answers the status that the run ends with.
fn refuse<O: Out>(alloc: Global, cause: ScriptRefusal, out: &mut O) -> Status
    ensures { SaysLine (refusal_line cause) Status.Script result (out_state (O.told out.old) (O.faults out.old))
        (out_state (O.told out.new) (O.faults out.new)) }
{
    match cause.line(alloc) {
        Ok(line) => write_line(alloc, line.as_str(), Status::Script, out),
        Err(NoMemory) => Status::Memory,
    }
}

/// Writes a line that ends the run, and answers the status that the run ends with.
fn write_line<O: Out>(alloc: Global, line: &str, status: Status, out: &mut O) -> Status
    ensures { SaysLine line.now status result (out_state (O.told out.old) (O.faults out.old))
        (out_state (O.told out.new) (O.faults out.new)) }
{
    match out.write(alloc, line.as_bytes()) {
        Ok(()) => status,
        Err(fault) => Status::from(fault),
    }
}
