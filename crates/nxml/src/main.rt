//! The program `nxml`: it runs a script of editing commands over the files of the machine, to standard
//! output.
//!
//! The run is nx_run's. What stands here hands it the machine's objects and the process's words, and ends
//! with its status.
#![tactic(auto)]

ghost use Rattle.std.specs.Prelude.{◌≡◌, ◌<◌};

use nx_base::memory::NoMemory;
use nx_base::sequence::Bytes;
use nx_base::steps::Steps;
use nx_host::disk::{DiskFiles, StdOut};
use nx_host::process::process_words;
use nx_run::run::run;
use nx_run::status::Status;
use nx_views::pane::{FaultPane, LimitedPane};
use nx_views::view::View;
use std::marker::Brand;
use std::process::ExitCode;
use std::sync::ledger::{Blank, Ledger};

/// The most faults that the second view takes before it closes.
const MOST_SHOWN: u64 = 1000;

fn main(rt: HostRuntime) -> ExitCode {
    let status = match run_words(&rt) {
        Ok(status) => status,
        Err(NoMemory) => Status::Memory,
    };
    ExitCode::from(status.code())
}

/// The run of the script that the process's words name.
fn run_words(rt: &HostRuntime) -> Result<Status, NoMemory> {
    let words = process_words(rt)?;
    run_here::<Brand>(rt, words.as_slice(), Blank::new(1))
}

/// The run over the machine's files and output, with two views. Its count of tokens is for the proof alone, and takes
/// nothing.
fn run_here<L: Ledger>(rt: &HostRuntime, words: &[Bytes], blank: Blank) -> Result<Status, NoMemory>
    requires name { blank.name ≡ L.name }
    requires parts { blank.parts ≡ L.parts }
    requires some { 0 < L.parts }
{
    let mut files = DiskFiles::new(rt);
    let mut out = StdOut::new(rt);
    let alloc = rt.alloc();
    let mut views: Vec<Box<dyn View>> = Vec::new(alloc);
    views.push(Box::new(alloc, FaultPane::new(alloc))?)?;
    views.push(Box::new(alloc, LimitedPane::new(alloc, MOST_SHOWN))?)?;
    let mut steps = Steps::<L>::new(blank);
    Ok(run(alloc, words, &mut files, &mut out, &mut views, &mut steps))
}
