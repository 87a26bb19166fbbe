//! The words of some command lines.

use nx_words::call::read_call;
use std::test::Fail;

/// The words, one on a line, and the script, the schema and the rules that they name. `-` stands for none.
const LINES: [(&[&str], &str, &str, &str); 6] = [
    (&["--schema=s1.rnc", "run.nxs"], "run.nxs", "s1.rnc", "-"),
    (
        &["run.nxs", "--schema", "none.rnc"],
        "run.nxs",
        "none.rnc",
        "-",
    ),
    (
        &["--rules", "r.xml", "--schema=a=b", "x"],
        "x",
        "a=b",
        "r.xml",
    ),
    (&["--", "-x.nxs"], "-x.nxs", "-", "-"),
    (&["--rules=--r", "x"], "-", "-", "-"),
    (
        &["--schema", "a", "--schema", "b", "run.nxs"],
        "-",
        "-",
        "-",
    ),
];

#[test]
fn reads_the_words(rt: HostRuntime) -> Result<(), Fail> {
    for (words, script, schema, rules) in LINES {
        let call = read_call(rt.alloc(), words).ok().ok_or("no memory")?;
        let read = match &call {
            Some(call) => (
                call.script,
                call.schema.unwrap_or("-"),
                call.rules.unwrap_or("-"),
            ),
            None => ("-", "-", "-"),
        };
        assert!(rt; read.0 == script && read.1 == schema && read.2 == rules);
    }
    Ok(())
}

#[test]
fn refuses_other_words(rt: HostRuntime) -> Result<(), Fail> {
    const OTHERS: [&[&str]; 9] = [
        &[],
        &["a", "b"],
        &["--help"],
        &["-h"],
        &["--rules"],
        &["--"],
        &["x", "--"],
        &["--schema=", "x"],
        &["--", "x", "--rules=r"],
    ];
    for words in OTHERS {
        let call = read_call(rt.alloc(), words).ok().ok_or("no memory")?;
        assert!(rt; call.is_none());
    }
    Ok(())
}
