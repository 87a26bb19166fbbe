//! Outputs that fail: each write of a script in turn.

use crate::documents::files_with;
use crate::playing::{is_as_told, run_words};
use crate::rows::{
    ASKED, COMPLETED, EDITED, MARKED, MISNAMED, NO_TEXT, Row, TAGGED, VALIDATED, WALKED,
};
use nx_host::memory_out::MemOut;
use nx_run::status::Status;
use std::alloc::Global;
use std::process::Abort;

/// Whether a run of which a write failed wrote a front of what is wanted, and stopped there.
pub(crate) fn stopped(
    written: &[u8],
    ended: Option<Status>,
    output: &str,
    status: Status,
) -> &'static str {
    if ended == Some(Status::Output) && output.as_bytes().starts_with(written) {
        "stopped"
    } else if is_as_told(written, ended, output, status) {
        "as told"
    } else {
        "otherwise"
    }
}

/// What becomes of a script with these words where the write with this number fails.
fn played_failing(
    alloc: Global,
    texts: &[&str],
    script: &[u8],
    output: &str,
    status: Status,
    number: u64,
) -> &'static str {
    let Ok(mut files) = files_with(alloc, script) else {
        return "no memory";
    };
    let Ok(mut out) = MemOut::new(alloc, &[number]) else {
        return "no memory";
    };
    let ended = run_words(alloc, texts, &mut files, &mut out);
    stopped(out.bytes(), ended, output, status)
}

/// Whether a script stops at each of its writes where that fails, and at no later one.
fn stops_at_writes(
    alloc: Global,
    texts: &[&str],
    script: &[u8],
    output: &str,
    status: Status,
) -> bool {
    for number in 1..20u64 {
        let answer = played_failing(alloc, texts, script, output, status, number);
        if answer != "stopped" {
            return answer == "as told";
        }
    }
    false
}

fn all_stop<R: Abort>(rt: &R, alloc: Global, rows: &[Row]) {
    for (words, script, output, status) in rows {
        assert!(rt;
            stops_at_writes(alloc, *words, script.as_bytes(), *output, *status),
            "{script:?}"
        );
    }
}

#[test]
fn scripts_stop_at_writes(rt: HostRuntime) {
    let alloc = rt.alloc();
    all_stop(&rt, alloc, &EDITED);
    all_stop(&rt, alloc, &VALIDATED);
    all_stop(&rt, alloc, &WALKED);
    all_stop(&rt, alloc, &COMPLETED);
    all_stop(&rt, alloc, &TAGGED);
    all_stop(&rt, alloc, &MARKED);
    all_stop(&rt, alloc, &ASKED);
}

/// A write that fails where no script is played is told, too.
#[test]
fn refused_words_and_scripts_stop(rt: HostRuntime) {
    for (texts, output, status) in &MISNAMED {
        assert!(rt;
            stops_at_writes(rt.alloc(), *texts, NO_TEXT, *output, *status),
            "{output:?}"
        );
    }
}
