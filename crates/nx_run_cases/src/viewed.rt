//! Runs with other views than the program's.

ghost use Rattle.std.specs.Prelude.{◌≡◌, ◌<◌};

use crate::documents::files_with;
use crate::playing::{is_as_told, words_of};
use nx_base::sequence::Bytes;
use nx_base::steps::Steps;
use nx_host::memory_files::SureFiles;
use nx_host::memory_out::SureOut;
use nx_run::run::run;
use nx_run::status::Status;
use nx_views::pane::{FaultPane, LimitedPane, RefusingPane};
use nx_views::view::View;
use std::alloc::{AllocError, Global};
use std::marker::Brand;
use std::sync::ledger::{Blank, Ledger};

/// The views that a run is given.
#[derive(Clone, Copy)]
enum Panes {
    /// One of all faults, and one that takes two.
    Narrow,
    /// One that refuses its first put for want of memory.
    Refusing,
    None,
}

/// Scripts, with which views, what they print and how they end.
const SHOWN: [(Panes, &str, &str, Status); 3] = [
    (
        Panes::Narrow,
        "schema \"s1.rnc\"\ninsert 0 \"<doc id='a'><!-- x\"\nerrors\nview 1\n",
        "errors: 3\n12-18 Unclosed\n18-18 UnclosedElement doc\n18-18 Incomplete doc needs title\nline 4 refused: NoView 1\n",
        Status::Refused,
    ),
    (
        Panes::Refusing,
        "insert 0 \"<a>\"\nerrors\nerrors\nview 0\n",
        "line 2 refused: NoMemory\nerrors: 1\n3-3 UnclosedElement a\nview 0: 1\n3-3 UnclosedElement a\n",
        Status::Memory,
    ),
    (
        Panes::None,
        "schema \"s1.rnc\"\ninsert 0 \"<doc id='a'><title>T</title><para>x<em>y</em></para></doc>\"\nerrors\n",
        "errors: 0\n",
        Status::Done,
    ),
];

fn push_panes(
    alloc: Global,
    views: &mut Vec<Box<dyn View>>,
    panes: Panes,
) -> Result<(), AllocError> {
    match panes {
        Panes::Narrow => {
            views.push(Box::new(alloc, FaultPane::new(alloc))?)?;
            views.push(Box::new(alloc, LimitedPane::new(alloc, 2))?)?;
        }
        Panes::Refusing => views.push(Box::new(alloc, RefusingPane::new(alloc, 1))?)?,
        Panes::None => {}
    }
    Ok(())
}

fn run_showing<L: Ledger>(
    alloc: Global,
    words: &[Bytes],
    files: &mut SureFiles,
    out: &mut SureOut,
    panes: Panes,
    blank: Blank,
) -> Result<Status, AllocError>
    requires name { blank.name ≡ L.name }
    requires parts { blank.parts ≡ L.parts }
    requires some { 0 < L.parts }
{
    let mut views: Vec<Box<dyn View>> = Vec::new(alloc);
    push_panes(alloc, &mut views, panes)?;
    let mut steps = Steps::<L>::new(blank);
    Ok(run(alloc, words, files, out, &mut views, &mut steps))
}

/// How the run of the script ends, none where there is no memory for its words or its views.
fn ended_showing(
    alloc: Global,
    files: &mut SureFiles,
    out: &mut SureOut,
    panes: Panes,
) -> Option<Status> {
    let words = words_of(alloc, &["run.nxs"]).ok()?;
    let blank = Blank::new(1);
    run_showing::<Brand>(alloc, words.as_slice(), files, out, panes, blank).ok()
}

/// Whether a script with these views prints this, and ends so.
fn shows(alloc: Global, panes: Panes, script: &str, output: &str, status: Status) -> bool {
    let Ok(mut files) = files_with(alloc, script.as_bytes()) else {
        return false;
    };
    let mut out = SureOut::new(alloc);
    let ended = ended_showing(alloc, &mut files, &mut out, panes);
    is_as_told(out.bytes(), ended, output, status)
}

#[test]
fn views_close_and_refuse(rt: HostRuntime) {
    for (panes, script, output, status) in &SHOWN {
        assert!(rt;
            shows(rt.alloc(), *panes, *script, *output, *status),
            "{output:?}"
        );
    }
}
