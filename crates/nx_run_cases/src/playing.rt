//! Runs in memory: what they write and how they end.

ghost use Rattle.std.specs.Prelude.{◌≡◌, ◌<◌};

use crate::documents::files_with;
use nx_base::memory::NoMemory;
use nx_base::sequence::Bytes;
use nx_base::steps::Steps;
use nx_host::files::Files;
use nx_host::memory_out::SureOut;
use nx_host::out::Out;
use nx_run::run::run;
use nx_run::status::Status;
use nx_views::pane::{FaultPane, LimitedPane};
use nx_views::view::View;
use std::alloc::{AllocError, Global};
use std::marker::Brand;
use std::sync::ledger::{Blank, Ledger};

pub(crate) fn words_of(alloc: Global, texts: &[&str]) -> Result<Vec<Bytes>, NoMemory> {
    let mut words = Vec::new(alloc);
    for text in texts {
        words.push(Bytes::from_vec(Vec::from_slice(alloc, text.as_bytes())?))?;
    }
    Ok(words)
}

/// A run whose count of tokens nobody asks for; none where there is no memory for the words or the views.
pub(crate) fn run_words<F: Files, O: Out>(
    alloc: Global,
    texts: &[&str],
    files: &mut F,
    out: &mut O,
) -> Option<Status> {
    let words = words_of(alloc, texts).ok()?;
    let blank = Blank::new(1);
    run_counting::<F, O, Brand>(alloc, words.as_slice(), files, out, blank).ok()
}

fn run_counting<F: Files, O: Out, L: Ledger>(
    alloc: Global,
    words: &[Bytes],
    files: &mut F,
    out: &mut O,
    blank: Blank,
) -> Result<Status, AllocError>
    requires name { blank.name ≡ L.name }
    requires parts { blank.parts ≡ L.parts }
    requires some { 0 < L.parts }
{
    let mut views: Vec<Box<dyn View>> = Vec::new(alloc);
    views.push(Box::new(alloc, FaultPane::new(alloc))?)?;
    views.push(Box::new(alloc, LimitedPane::new(alloc, 1000))?)?;
    let mut steps = Steps::<L>::new(blank);
    Ok(run(alloc, words, files, out, &mut views, &mut steps))
}

/// Whether a run wrote and ended as a row says.
pub(crate) fn is_as_told(
    written: &[u8],
    ended: Option<Status>,
    output: &str,
    status: Status,
) -> bool {
    written == output.as_bytes() && ended == Some(status)
}

/// Whether a run with these words writes and ends so.
pub(crate) fn runs<F: Files>(
    alloc: Global,
    texts: &[&str],
    files: &mut F,
    output: &str,
    status: Status,
) -> bool {
    let mut out = SureOut::new(alloc);
    let ended = run_words(alloc, texts, files, &mut out);
    is_as_told(out.bytes(), ended, output, status)
}

/// The same beside the documents, where this is the script.
pub(crate) fn plays(
    alloc: Global,
    texts: &[&str],
    script: &[u8],
    output: &str,
    status: Status,
) -> bool {
    match files_with(alloc, script) {
        Ok(mut files) => runs(alloc, texts, &mut files, output, status),
        Err(NoMemory) => false,
    }
}
