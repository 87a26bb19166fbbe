//! Schemas that break a restriction of ISO/IEC 19757-2, section 10, and schemas that come near to it.

use crate::playing::{is_as_told, run_words};
use nx_base::memory::NoMemory;
use nx_host::memory_files::SureFiles;
use nx_host::memory_out::SureOut;
use nx_run::status::Status;
use std::alloc::Global;

/// Each prohibited path (10.2) but those of excepts, which simplification refuses; forms of contents that don't stand beside one another
/// (10.3), of attributes that overlap and wildcards that aren't repeated (10.4), and of interleaves (10.5); and the cause.
const BROKEN: [(&str, &str); 35] = [
    (
        "element a { attribute x { attribute y { text } } }",
        "line 1 refused: Unreadable Path\n",
    ),
    (
        "element a { attribute x { element b { empty } } }",
        "line 1 refused: Unreadable Path\n",
    ),
    (
        "element a { (attribute x { text }, element b { empty })+ }",
        "line 1 refused: Unreadable Path\n",
    ),
    (
        "element a { (attribute x { text } & element b { empty })+ }",
        "line 1 refused: Unreadable Path\n",
    ),
    (
        "element a { list { list { \"x\" } } }",
        "line 1 refused: Unreadable Path\n",
    ),
    (
        "element a { list { element b { empty } } }",
        "line 1 refused: Unreadable Path\n",
    ),
    (
        "element a { list { attribute x { text } } }",
        "line 1 refused: Unreadable Path\n",
    ),
    (
        "element a { list { text } }",
        "line 1 refused: Unreadable Path\n",
    ),
    (
        "element a { list { \"x\" & \"y\" } }",
        "line 1 refused: Unreadable Path\n",
    ),
    (
        "start = attribute x { text }",
        "line 1 refused: Unreadable Path\n",
    ),
    ("start = xsd:int", "line 1 refused: Unreadable Path\n"),
    ("start = \"x\"", "line 1 refused: Unreadable Path\n"),
    ("start = text", "line 1 refused: Unreadable Path\n"),
    (
        "start = list { \"x\" }",
        "line 1 refused: Unreadable Path\n",
    ),
    (
        "start = element a { empty }, element b { empty }",
        "line 1 refused: Unreadable Path\n",
    ),
    (
        "start = element a { empty } & element b { empty }",
        "line 1 refused: Unreadable Path\n",
    ),
    (
        "start = element a { empty }+",
        "line 1 refused: Unreadable Path\n",
    ),
    ("start = empty", "line 1 refused: Unreadable Path\n"),
    (
        "element a { element b { empty }, xsd:int }",
        "line 1 refused: Unreadable Mixture\n",
    ),
    (
        "element a { element b { empty } & xsd:int }",
        "line 1 refused: Unreadable Mixture\n",
    ),
    (
        "element a { text, \"x\" }",
        "line 1 refused: Unreadable Mixture\n",
    ),
    (
        "element a { xsd:int, xsd:int }",
        "line 1 refused: Unreadable Mixture\n",
    ),
    (
        "element a { list { \"x\" }, text }",
        "line 1 refused: Unreadable Mixture\n",
    ),
    (
        "element a { xsd:int+ }",
        "line 1 refused: Unreadable Mixture\n",
    ),
    (
        "element a { attribute x { text, xsd:int } }",
        "line 1 refused: Unreadable Mixture\n",
    ),
    (
        "element a { attribute x { text }, attribute x { text } }",
        "line 1 refused: Unreadable AttributeOverlap\n",
    ),
    (
        "element a { attribute x { text } & attribute x { text } }",
        "line 1 refused: Unreadable AttributeOverlap\n",
    ),
    (
        "element a { attribute x { text }, (attribute y { text } | attribute x { text }) }",
        "line 1 refused: Unreadable AttributeOverlap\n",
    ),
    (
        "element a { attribute x { text }, attribute * { text }+ }",
        "line 1 refused: Unreadable AttributeOverlap\n",
    ),
    (
        "element a { attribute * { text } }",
        "line 1 refused: Unreadable WildcardOnce\n",
    ),
    (
        "namespace n = \"u\"\nelement a { attribute n:* { text } }",
        "line 1 refused: Unreadable WildcardOnce\n",
    ),
    (
        "element a { element b { empty } & element b { text } }",
        "line 1 refused: Unreadable InterleaveOverlap\n",
    ),
    (
        "element a { element b { empty }+ & (element c { empty }, element b { empty }) }",
        "line 1 refused: Unreadable InterleaveOverlap\n",
    ),
    (
        "element a { text & mixed { element b { empty } } }",
        "line 1 refused: Unreadable TextTwice\n",
    ),
    (
        "element a { text & (element b { empty }, text) }",
        "line 1 refused: Unreadable TextTwice\n",
    ),
];

/// These break none.
const ALLOWED: [&str; 8] = [
    "element a { list { xsd:int, xsd:int } }",
    "element a { attribute * { text }+ }",
    "element a { attribute x { text } | attribute x { text } }",
    "element a { xsd:int | element b { empty } }",
    "element a { text, text }",
    "start = element a { empty } | element b { empty }",
    "element a { text & attribute x { text } }",
    "element a { (attribute x { text } | element b { empty })+ }",
];

/// The script, and this schema beside it.
fn schema_files(alloc: Global, schema: &str) -> Result<SureFiles, NoMemory> {
    let mut files = SureFiles::new(alloc);
    files.add("file:///work/run.nxs", b"schema \"x.rnc\"\n")?;
    files.add("file:///work/x.rnc", schema.as_bytes())?;
    Ok(files)
}

/// Whether this is printed of the schema, and the run ends so.
fn is_told(alloc: Global, schema: &str, output: &str, status: Status) -> bool {
    let Ok(mut files) = schema_files(alloc, schema) else {
        return false;
    };
    let mut out = SureOut::new(alloc);
    let ended = run_words(alloc, &["run.nxs"], &mut files, &mut out);
    is_as_told(out.bytes(), ended, output, status)
}

#[test]
fn what_breaks_a_restriction_is_refused(rt: HostRuntime) {
    for (schema, output) in &BROKEN {
        assert!(rt;
            is_told(rt.alloc(), *schema, *output, Status::Refused),
            "{schema:?}"
        );
    }
}

#[test]
fn what_breaks_none_is_accepted(rt: HostRuntime) {
    for schema in &ALLOWED {
        assert!(rt;
            is_told(rt.alloc(), *schema, "", Status::Done),
            "{schema:?}"
        );
    }
}
