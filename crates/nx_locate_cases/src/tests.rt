//! Each row of the tables against what is located, and what no table has: files that fail or are cut, patterns of many stars.

use crate::located::{RULES, located, uri_of};
use crate::tables::CASES;
use nx_base::memory::NoMemory;
use nx_host::memory_files::{MemFiles, SureFiles};
use std::alloc::Global;
use std::test::Fail;

/// A name, and what follows the blank behind it.
fn name_and_text(line: &str) -> (&str, &str) {
    line.split_once(" ").unwrap_or((line, ""))
}

/// A rules file of these rules, or what follows `!`.
fn contents(alloc: Global, text: &str) -> Result<String, NoMemory> {
    match text.strip_prefix("!") {
        Some(raw) => Ok(String::from_str(alloc, raw)?),
        None => Ok(format!(in alloc;
            "<locatingRules xmlns=\"http://thaiopensource.com/ns/locating-rules/1.0\">{text}</locatingRules>"
        )?),
    }
}

fn add_file(alloc: Global, files: &mut SureFiles, line: &str) -> Result<(), NoMemory> {
    let (name, text) = name_and_text(line);
    let uri = uri_of(alloc, name)?;
    let held = contents(alloc, text)?;
    files.add(uri.as_str(), held.as_str().as_bytes())?;
    Ok(())
}

/// Adds a document for which something else is located, with that.
fn compare_document(
    alloc: Global,
    files: &mut SureFiles,
    line: &str,
    want: &str,
    wrong: &mut String,
) -> Result<(), NoMemory> {
    let (name, text) = name_and_text(line);
    let uri = uri_of(alloc, name)?;
    let got = located(alloc, true, uri.as_str(), text, files)?;
    if got.as_str() != want {
        let got = got.as_str();
        write!(wrong, "{line}: {got} and not {want}\n")?;
    }
    Ok(())
}

/// Adds those of a case.
fn compare_case(alloc: Global, case: &str, wrong: &mut String) -> Result<(), NoMemory> {
    let mut files = SureFiles::new(alloc);
    for line in case.lines().skip(1) {
        let line = line.strip_prefix("  ").unwrap_or(line);
        match line.split_once(" => ") {
            Some((document, want)) => compare_document(alloc, &mut files, document, want, wrong)?,
            None => add_file(alloc, &mut files, line)?,
        }
    }
    Ok(())
}

#[test]
fn locates(rt: HostRuntime) -> Result<(), Fail> {
    let mut wrong = String::new(rt.alloc());
    for case in CASES.split("\n\n") {
        compare_case(rt.alloc(), case, &mut wrong)?;
    }
    assert_eq!(rt; wrong.as_str(), "");
    Ok(())
}

/// Whether this is answered.
fn is_answered(answer: Result<String, NoMemory>, wanted: &str) -> bool {
    match answer {
        Ok(answer) => answer.as_str() == wanted,
        Err(NoMemory) => false,
    }
}

/// What is located without rules, where a call on files would fail.
fn without_rules(alloc: Global) -> Result<String, NoMemory> {
    let mut files = MemFiles::new(alloc, &[1])?;
    located(alloc, false, "file:///work/a", "<a/>", &mut files)
}

/// Without rules there is no schema, and no file is asked for.
#[test]
fn locates_nothing_without_rules(rt: HostRuntime) {
    assert!(rt; is_answered(without_rules(rt.alloc()), "none"));
}

const DOCUMENT: &str = "file:///work/d/b.xml";

const INCLUDES: &str = "<locatingRules xmlns='http://thaiopensource.com/ns/locating-rules/1.0'>\
<include rules='a.xml'/></locatingRules>";

const TRANSFORMS: &str = "<locatingRules xmlns='http://thaiopensource.com/ns/locating-rules/1.0'>\
<transformURI fromPattern='*.xml' toPattern='*.rnc'/></locatingRules>";

/// What is located where the call with this number fails: two files are fetched, and one is asked for.
fn with_failing(alloc: Global, call: u64) -> Result<String, NoMemory> {
    let mut files = MemFiles::new(alloc, &[call])?;
    files.add(RULES, INCLUDES.as_bytes())?;
    files.add("file:///work/d/a.xml", TRANSFORMS.as_bytes())?;
    files.add("file:///work/d/b.rnc", b"")?;
    located(alloc, true, DOCUMENT, "<b/>", &mut files)
}

#[test]
fn fails_with_its_files(rt: HostRuntime) {
    for call in 1..4 {
        assert!(rt;
            is_answered(with_failing(rt.alloc(), call), "failed"),
            "call {call}"
        );
    }
    assert!(rt; is_answered(with_failing(rt.alloc(), 4), "schema d/b.rnc"));
}

/// What is located by a rules file of these bytes.
fn by_rules(alloc: Global, held: &[u8], document: &str) -> Result<String, NoMemory> {
    let mut files = SureFiles::new(alloc);
    files.add(RULES, held)?;
    located(alloc, true, document, "<b/>", &mut files)
}

/// A rules file that is cut before its end has no rules.
#[test]
fn refuses_files_that_are_cut(rt: HostRuntime) {
    let whole = TRANSFORMS.as_bytes();
    for len in 0..whole.len() {
        let answer = by_rules(rt.alloc(), &whole[..len], DOCUMENT);
        assert!(rt; is_answered(answer, "bad rules d/s.xml"), "{len}");
    }
}

#[test]
fn refuses_bytes_that_are_no_text(rt: HostRuntime) {
    let answer = by_rules(rt.alloc(), b"<a>\xE2\x82A</a>", DOCUMENT);
    assert!(rt; is_answered(answer, "not utf8 at 5 d/s.xml"));
}

/// A rule with a pattern of thirty stars.
fn many_stars(alloc: Global) -> Result<String, NoMemory> {
    let stars = "*a".repeat(alloc, 30)?;
    contents(
        alloc,
        format!(in alloc; "<uri uri='x.rnc' pattern='{stars}b'/>")?.as_str(),
    )
}

/// A name of ten thousand bytes and this end.
fn long_name(alloc: Global, end: &str) -> Result<String, NoMemory> {
    let name = "a".repeat(alloc, 10_000)?;
    Ok(format!(in alloc; "file:///work/d/{name}{end}")?)
}

/// What that rule locates for such a name.
fn by_many_stars(alloc: Global, end: &str) -> Result<String, NoMemory> {
    let rules = many_stars(alloc)?;
    let name = long_name(alloc, end)?;
    by_rules(alloc, rules.as_str().as_bytes(), name.as_str())
}

/// Against a name of ten thousand bytes, which it doesn't fit, a pattern of thirty stars ends at once.
#[test]
fn holds_many_stars_against_a_long_name(rt: HostRuntime) {
    assert!(rt;
        is_answered(by_many_stars(rt.alloc(), ""), "none")
            && is_answered(by_many_stars(rt.alloc(), "b"), "schema d/x.rnc")
    );
}
