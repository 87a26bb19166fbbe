//! Files that fail: each call on files of a script in turn.

use crate::documents::{RULES, SCRIPT, add_all};
use crate::playing::runs;
use nx_host::memory_files::{MemFiles, SureFiles};
use nx_run::status::Status;
use std::alloc::Global;

/// Whether a run with these words, beside the documents, writes and ends so where the call on files with this number fails.
fn fails_at(
    alloc: Global,
    number: u64,
    texts: &[&str],
    script: &str,
    output: &str,
    status: Status,
) -> bool {
    match MemFiles::new(alloc, &[number]) {
        Ok(mut files) => {
            add_all(&mut files, script) && runs(alloc, texts, &mut files, output, status)
        }
        Err(_) => false,
    }
}

/// A schema is held, and one that includes the same.
const INCLUDING: &str =
    "schema \"s1.rnc\"\nschema \"m.rnc\"\ninsert 0 \"<doc id='a'><title>T</title><para>x<em>y</em></para></doc>\"\nerrors\n";

const RUN: &[&str] = &["run.nxs"];

const FILING: &str = "insert 0 \"x\"\nsave \"o.xml\"\nopen \"run.nxs\"\ndelete 1 59\nprint\n";

const STORING: &str = "insert 0 \"x\"\nsave \"o.xml\"\n";

const STORING_AND_PRINTING: &str = "insert 0 \"x\"\nsave \"o.xml\"\nprint\n";

const LOCATING: &str = "open \"d/book.xml\"\nschema auto\nerrors\n";

const BY_RULES: &[&str] = &["--rules", "d/schemas.xml", "run.nxs"];

/// Words and a script, each call on files that fails in turn until there is no such call, what is printed and how the run ends. The
/// script is fetched first. A schema that is held stays, and so does a text. Rules are fetched behind the document, then a file beside the
/// document is asked for, and the schema is fetched.
const FAILING: [(&[&str], &str, u64, &str, Status); 21] = [
    (RUN, STORING, 1, "script refused: Failed\n", Status::Script),
    (RUN, STORING, 2, "line 2 refused: Failed\n", Status::Refused),
    (RUN, STORING, 3, "", Status::Done),
    (
        RUN,
        STORING_AND_PRINTING,
        1,
        "script refused: Failed\n",
        Status::Script,
    ),
    (
        RUN,
        STORING_AND_PRINTING,
        2,
        "line 2 refused: Failed\nx\n",
        Status::Refused,
    ),
    (RUN, STORING_AND_PRINTING, 3, "x\n", Status::Done),
    (RUN, FILING, 1, "script refused: Failed\n", Status::Script),
    (
        RUN,
        FILING,
        2,
        "line 2 refused: Failed\ni\n",
        Status::Refused,
    ),
    (
        RUN,
        FILING,
        3,
        "line 3 refused: Failed\nline 4 refused: BadPosition 59 1\nx\n",
        Status::Refused,
    ),
    (RUN, FILING, 4, "i\n", Status::Done),
    (
        RUN,
        INCLUDING,
        1,
        "script refused: Failed\n",
        Status::Script,
    ),
    (
        RUN,
        INCLUDING,
        2,
        "line 1 refused: Failed\nerrors: 0\n",
        Status::Refused,
    ),
    (
        RUN,
        INCLUDING,
        3,
        "line 2 refused: Failed\nerrors: 0\n",
        Status::Refused,
    ),
    (
        RUN,
        INCLUDING,
        4,
        "line 2 refused: Failed\nerrors: 0\n",
        Status::Refused,
    ),
    (RUN, INCLUDING, 5, "errors: 0\n", Status::Done),
    (
        BY_RULES,
        LOCATING,
        1,
        "script refused: Failed\n",
        Status::Script,
    ),
    (
        BY_RULES,
        LOCATING,
        2,
        "line 1 refused: Failed\nschema none\nerrors: 1\n0-0 NoRoot\n",
        Status::Refused,
    ),
    (
        BY_RULES,
        LOCATING,
        3,
        "line 2 refused: Failed\nerrors: 0\n",
        Status::Refused,
    ),
    (
        BY_RULES,
        LOCATING,
        4,
        "line 2 refused: Failed\nerrors: 0\n",
        Status::Refused,
    ),
    (
        BY_RULES,
        LOCATING,
        5,
        "line 2 refused: Failed\nerrors: 0\n",
        Status::Refused,
    ),
    (
        BY_RULES,
        LOCATING,
        6,
        "schema file:///work/d/docbook.rnc\nerrors: 0\n",
        Status::Done,
    ),
];

#[test]
fn failing_files_are_told(rt: HostRuntime) {
    for (words, script, number, output, status) in &FAILING {
        assert!(rt;
            fails_at(rt.alloc(), *number, *words, *script, *output, *status),
            "call {number} of {script:?}"
        );
    }
}

/// Whether that script is told that the rules are malformed where they are these bytes.
fn is_malformed(alloc: Global, rules: &[u8]) -> bool {
    let mut files = SureFiles::new(alloc);
    files.add(SCRIPT, LOCATING.as_bytes()).is_ok()
        && files.add("file:///work/d/book.xml", b"<book/>\n").is_ok()
        && files.add("file:///work/d/schemas.xml", rules).is_ok()
        && runs(
            alloc,
            BY_RULES,
            &mut files,
            "line 2 refused: BadRules Malformed file:///work/d/schemas.xml\nerrors: 0\n",
            Status::Refused,
        )
}

/// The same of the first bytes of the rules.
fn is_front_malformed(alloc: Global, len: usize) -> bool {
    match RULES.get(..len) {
        Some(front) => is_malformed(alloc, front),
        None => false,
    }
}

/// Rules that are cut off anywhere are malformed.
#[test]
fn rules_that_are_cut_off_are_refused(rt: HostRuntime) {
    for len in 0..RULES.len() {
        assert!(rt; is_front_malformed(rt.alloc(), len), "{len} bytes");
    }
}
