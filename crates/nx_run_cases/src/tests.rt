//! Whole runs over files and outputs in memory, against what the script's user is promised.

use crate::documents::{SCRIPT, files_with};
use crate::playing::{is_as_told, plays, run_words};
use crate::rows::{
    ASKED, COMPLETED, EDITED, MARKED, MISNAMED, NO_TEXT, Row, TAGGED, VALIDATED, WALKED,
};
use nx_host::files::Files;
use nx_host::memory_files::SureFiles;
use nx_host::memory_out::SureOut;
use nx_run::status::Status;
use std::alloc::Global;
use std::process::Abort;
use std::test::Fail;

fn all_play<R: Abort>(rt: &R, alloc: Global, rows: &[Row]) {
    for (words, script, output, status) in rows {
        assert!(rt;
            plays(alloc, *words, script.as_bytes(), *output, *status),
            "{script:?}"
        );
    }
}

#[test]
fn scripts_print(rt: HostRuntime) {
    let alloc = rt.alloc();
    all_play(&rt, alloc, &EDITED);
    all_play(&rt, alloc, &VALIDATED);
    all_play(&rt, alloc, &WALKED);
    all_play(&rt, alloc, &COMPLETED);
    all_play(&rt, alloc, &TAGGED);
    all_play(&rt, alloc, &MARKED);
    all_play(&rt, alloc, &ASKED);
}

#[test]
fn what_is_no_script_is_refused(rt: HostRuntime) {
    for (texts, output, status) in &MISNAMED {
        assert!(rt;
            plays(rt.alloc(), *texts, NO_TEXT, *output, *status),
            "{output:?}"
        );
    }
}

/// One byte of the last character's two is there.
#[test]
fn a_script_that_is_cut_in_a_character_is_refused(rt: HostRuntime) {
    assert!(rt;
        plays(
            rt.alloc(),
            &["run.nxs"],
            b"insert 0 \"\xC3",
            "script refused: NotUtf8 11\n",
            Status::Script
        )
    );
}

/// The output up to the first line that refuses a command for want of memory.
fn before_want_of_memory(output: &[u8]) -> &[u8] {
    let mut seen = 0;
    for line in output.split_inclusive(|byte| *byte == b'\n') {
        if line.ends_with(b"refused: NoMemory\n") {
            break;
        }
        seen = line.len().saturating_add(seen);
    }
    if seen < output.len() {
        &output[..seen]
    } else {
        output
    }
}

/// Whether a run wrote what the row says up to where memory was wanting, and told that.
fn told_of_memory(written: &[u8], ended: Option<Status>, output: &str, status: Status) -> bool {
    let told = before_want_of_memory(written);
    if ended.is_none() || ended == Some(Status::Memory) {
        output.as_bytes().starts_with(told)
    } else {
        is_as_told(told, ended, output, status)
    }
}

/// Whether a script with these words, beside the documents, does so.
fn tells_of_memory(
    alloc: Global,
    words: &[&str],
    script: &str,
    output: &str,
    status: Status,
) -> bool {
    let Ok(mut files) = files_with(alloc, script.as_bytes()) else {
        return true;
    };
    let mut out = SureOut::new(alloc);
    let ended = run_words(alloc, words, &mut files, &mut out);
    told_of_memory(out.bytes(), ended, output, status)
}

fn all_tell_of_memory<R: Abort>(rt: &R, alloc: Global, rows: &[Row]) {
    for (words, script, output, status) in rows {
        assert!(rt;
            tells_of_memory(alloc, *words, *script, *output, *status),
            "{script:?}"
        );
    }
}

/// With ample memory this is the sure run; it tells more where an allocation is made to fail.
#[test]
fn want_of_memory_is_told(rt: HostRuntime) {
    let alloc = rt.alloc();
    all_tell_of_memory(&rt, alloc, &EDITED);
    all_tell_of_memory(&rt, alloc, &TAGGED);
    all_tell_of_memory(&rt, alloc, &COMPLETED);
    all_tell_of_memory(&rt, alloc, &ASKED);
}

/// Whether the files hold this text under the URI.
fn holds(alloc: Global, files: &mut SureFiles, uri: &str, text: &str) -> bool {
    match files.fetch(alloc, uri) {
        Ok(Some(bytes)) => bytes.as_slice() == text.as_bytes(),
        _ => false,
    }
}

/// A text is stored twice, of which the second time something is taken away.
const STORED: &str = "insert 0 \"xy\"\nsave \"a b.xml\"\ndelete 1 2\nsave \"o.xml\"\n";

#[test]
fn saved_texts_are_there(rt: HostRuntime) -> Result<(), Fail> {
    let alloc = rt.alloc();
    let script = STORED;
    let mut files = files_with(alloc, script.as_bytes())?;
    let mut out = SureOut::new(alloc);
    let _ended = run_words(alloc, &["run.nxs"], &mut files, &mut out);
    assert!(rt; holds(alloc, &mut files, "file:///work/a%20b.xml", "xy"));
    assert!(rt; holds(alloc, &mut files, "file:///work/o.xml", "x"));
    assert!(rt; holds(alloc, &mut files, SCRIPT, script));
    Ok(())
}
