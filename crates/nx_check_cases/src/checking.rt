//! Checks in memory: what they write and how they end.

ghost use Rattle.std.specs.Prelude.{◌≡◌, ◌<◌};

use crate::documents::FOLDER;
use nx_base::memory::NoMemory;
use nx_base::sequence::Bytes;
use nx_base::steps::Steps;
use nx_check::check::check;
use nx_check::recent::Recent;
use nx_check::status::Status;
use nx_host::files::Files;
use nx_host::memory_out::SureOut;
use nx_host::out::Out;
use std::alloc::Global;
use std::marker::Brand;
use std::sync::ledger::{Blank, Ledger};

fn bytes_of(alloc: Global, text: &str) -> Result<Bytes, NoMemory> {
    Ok(Bytes::from_vec(Vec::from_slice(alloc, text.as_bytes())?))
}

fn words_of(alloc: Global, texts: &[&str]) -> Result<Vec<Bytes>, NoMemory> {
    let mut words = Vec::new(alloc);
    for text in texts {
        words.push(bytes_of(alloc, text)?)?;
    }
    Ok(words)
}

/// A check whose count of tokens nobody asks for; none where there is no memory for the words.
pub(crate) fn check_words<F: Files, O: Out>(
    alloc: Global,
    texts: &[&str],
    files: &mut Recent<F>,
    out: &mut O,
) -> Option<Status> {
    let words = words_of(alloc, texts).ok()?;
    let folder = bytes_of(alloc, FOLDER).ok()?;
    let blank = Blank::new(1);
    Some(check_counting::<F, O, Brand>(alloc, words.as_slice(), &folder, files, out, blank))
}

fn check_counting<F: Files, O: Out, L: Ledger>(
    alloc: Global,
    words: &[Bytes],
    folder: &Bytes,
    files: &mut Recent<F>,
    out: &mut O,
    blank: Blank,
) -> Status
    requires name { blank.name ≡ L.name }
    requires parts { blank.parts ≡ L.parts }
    requires some { 0 < L.parts }
{
    let mut steps = Steps::<L>::new(blank);
    check(alloc, words, folder, files, out, &mut steps)
}

/// Whether a check wrote and ended as a row says.
pub(crate) fn is_as_told(
    written: &[u8],
    ended: Option<Status>,
    output: &str,
    status: Status,
) -> bool {
    written == output.as_bytes() && ended == Some(status)
}

/// Whether a check with these words writes and ends so.
pub(crate) fn checks<F: Files>(
    alloc: Global,
    texts: &[&str],
    files: &mut Recent<F>,
    output: &str,
    status: Status,
) -> bool {
    let mut out = SureOut::new(alloc);
    let ended = check_words(alloc, texts, files, &mut out);
    is_as_told(out.bytes(), ended, output, status)
}
