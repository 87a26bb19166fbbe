//! A session by its own calls; what its commands reply is tested by whole runs.

ghost use Rattle.std.specs.Prelude.{◌≡◌, ◌<◌};

use nx_base::memory::NoMemory;
use nx_base::steps::Steps;
use nx_host::memory_files::SureFiles;
use nx_script::read::read_line;
use nx_session::session::Session;
use nx_views::pane::FaultPane;
use nx_views::view::View;
use std::alloc::Global;
use std::marker::Brand;
use std::process::Abort;
use std::sync::ledger::{Blank, Ledger};
use std::test::Fail;

/// Lines, how long the text is behind each, where the caret is, and whether a schema is held.
const LINES: [(&str, usize, usize, bool); 40] = [
    ("insert 0 \"é<b>\"", 5, 0, false),
    ("slice 1", 5, 0, false),
    ("goto 3", 5, 3, false),
    ("goto 1", 5, 3, false),
    ("goto 6", 5, 3, false),
    ("delete 2 3", 4, 2, false),
    ("stats", 4, 2, false),
    ("errors", 4, 2, false),
    ("where", 4, 2, false),
    ("previous", 4, 0, false),
    ("previous", 4, 0, false),
    ("next", 4, 2, false),
    ("insert 2 \"é\"", 6, 2, false),
    ("insert 0 \"é\"", 8, 4, false),
    ("goto 8", 8, 8, false),
    ("next", 8, 8, false),
    ("delete 2 6", 4, 4, false),
    ("view 0", 4, 4, false),
    ("close 0", 4, 4, false),
    ("close 1", 4, 4, false),
    ("open \"d.xml\"", 5, 0, false),
    ("next", 5, 1, false),
    ("open \"none.xml\"", 5, 1, false),
    ("schema \"d.rnc\"", 5, 1, true),
    ("errors", 5, 1, true),
    ("complete 2", 5, 1, true),
    ("complete 6", 5, 1, true),
    ("schema \"d.xml\"", 5, 1, true),
    ("make 7 1", 76, 0, true),
    ("schema none", 76, 0, false),
    ("open \"d.xml\"", 5, 0, false),
    ("insert 0 \"<a>é</a>\"", 14, 0, false),
    ("goto 5", 14, 5, false),
    ("finish 4", 14, 5, false),
    ("pair 5 \"p:q\"", 25, 5, false),
    ("rename 0 \"bcd\"", 29, 7, false),
    ("split 7", 29, 7, false),
    ("finish 7", 35, 7, false),
    ("pair 0 \"x\"", 35, 7, false),
    ("# nothing", 35, 7, false),
];

/// Carries one line out; its reply is looked at by whole runs.
fn apply_line<L: Ledger>(
    alloc: Global,
    session: &mut Session,
    files: &mut SureFiles,
    views: &mut Vec<Box<dyn View>>,
    steps: &mut Steps<L>,
    line: &str,
) -> bool {
    match read_line(alloc, line) {
        Ok(command) => {
            session.apply(&command, files, views, steps);
            true
        }
        Err(_) => false,
    }
}

/// Whether a session tells this of itself.
fn tells(session: &Session, len: usize, caret: usize, has_schema: bool) -> bool {
    session.len() == len && session.caret() == caret && session.has_schema() == has_schema
}

fn files_of(alloc: Global) -> Result<SureFiles, NoMemory> {
    let mut files = SureFiles::new(alloc);
    files.add("file:///work/d.xml", b"<d/>\n")?;
    files.add("file:///work/d.rnc", b"element d { empty }")?;
    Ok(files)
}

fn one_view(alloc: Global) -> Result<Vec<Box<dyn View>>, NoMemory> {
    let mut views: Vec<Box<dyn View>> = Vec::new(alloc);
    views.push(Box::new(alloc, FaultPane::new(alloc))?)?;
    Ok(views)
}

/// Carries the lines out, and compares what the session tells of itself behind each. All that the loop holds is borrowed, so that
/// no way out of it lets anything go.
fn all_behind<R: Abort, L: Ledger>(
    rt: &R,
    alloc: Global,
    session: &mut Session,
    files: &mut SureFiles,
    views: &mut Vec<Box<dyn View>>,
    steps: &mut Steps<L>,
) {
    for (line, len, caret, has_schema) in &LINES {
        assert!(rt;
            apply_line(alloc, session, files, views, steps, *line)
                && tells(session, *len, *caret, *has_schema),
            "behind {line}"
        );
    }
}

/// The same beside the files and one view.
fn plays_in<R: Abort, L: Ledger>(
    rt: &R,
    alloc: Global,
    session: &mut Session,
    steps: &mut Steps<L>,
) -> Result<(), NoMemory> {
    let mut files = files_of(alloc)?;
    let mut views = one_view(alloc)?;
    all_behind(rt, alloc, session, &mut files, &mut views, steps);
    Ok(())
}

/// Lets a session go. That is dear to prove, for all that it holds, so it is done here alone.
fn let_go(_session: Session) {}

fn plays<R: Abort, L: Ledger>(rt: &R, alloc: Global, blank: Blank) -> Result<(), NoMemory>
    requires name { blank.name ≡ L.name }
    requires parts { blank.parts ≡ L.parts }
    requires some { 0 < L.parts }
{
    let mut steps = Steps::<L>::new(blank);
    let mut session = Session::new(alloc, None)?;
    let answer = plays_in(rt, alloc, &mut session, &mut steps);
    let_go(session);
    answer
}

#[test]
fn sessions_keep_a_text_and_a_caret(rt: HostRuntime) -> Result<(), Fail> {
    plays::<_, Brand>(&rt, rt.alloc(), Blank::new(1))?;
    Ok(())
}
