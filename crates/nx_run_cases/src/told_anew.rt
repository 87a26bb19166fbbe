//! What is told behind an edit is what is told of the edited text in a new session.

use crate::documents::files_with;
use crate::playing::run_words;
use nx_host::memory_out::SureOut;
use nx_run::status::Status;
use std::alloc::Global;

/// Forty elements in one: 167 bytes.
const FORTY: &str =
    "<a><b/><b/><b/><b/><b/><b/><b/><b/><b/><b/><b/><b/><b/><b/><b/><b/><b/><b/><b/><b/>\
     <b/><b/><b/><b/><b/><b/><b/><b/><b/><b/><b/><b/><b/><b/><b/><b/><b/><b/><b/><b/></a>";

/// What a script prints that isn't refused anything.
fn printed(alloc: Global, script: &str) -> Option<SureOut> {
    let mut files = files_with(alloc, script.as_bytes()).ok()?;
    let mut out = SureOut::new(alloc);
    match run_words(alloc, &["run.nxs"], &mut files, &mut out) {
        Some(Status::Done) => Some(out),
        _ => None,
    }
}

/// The text is read, and `<` is put in at the place.
fn edited(alloc: Global, at: usize) -> Option<String> {
    format!(in alloc;
        "schema \"b.rnc\"\ninsert 0 \"{FORTY}\"\nerrors\ninsert {at} \"<\"\nerrors\n"
    ).ok()
}

/// The text is put in with `<` at the place.
fn anew(alloc: Global, at: usize) -> Option<String> {
    let front = FORTY.get(..at)?;
    let back = FORTY.get(at..)?;
    format!(in alloc; "schema \"b.rnc\"\ninsert 0 \"{front}<{back}\"\nerrors\n").ok()
}

/// Whether the first script prints a list without faults, and then what the second one prints.
fn tells_the_same(alloc: Global, edited: &str, anew: &str) -> bool {
    match (printed(alloc, edited), printed(alloc, anew)) {
        (Some(edited), Some(anew)) => {
            edited.bytes().strip_prefix(b"errors: 0\n".as_slice()) == Some(anew.bytes())
        }
        _ => false,
    }
}

fn tells_as_anew(alloc: Global, at: usize) -> bool {
    match (edited(alloc, at), anew(alloc, at)) {
        (Some(edited), Some(anew)) => tells_the_same(alloc, edited.as_str(), anew.as_str()),
        _ => false,
    }
}

#[test]
fn an_edit_anywhere_is_told_as_anew(rt: HostRuntime) {
    assert!(rt; FORTY.len() == 167);
    for at in 0..168usize {
        assert!(rt; tells_as_anew(rt.alloc(), at), "{at}");
    }
}

/// A document as a user has it.
const DOCUMENT: &str =
    "<?xml version=\"1.0\" encoding=\"UTF-8\"?>\n<?xml-stylesheet type='text/css' href='s.css'?>\n<!-- c -->\n<doc id='a'>\n  \
<title>A &amp; B</title>\n  <para>x &#233; <![CDATA[<y>]]></para>\n</doc>\n";

/// A part of the document as a text of a script.
fn escaped(alloc: Global, from: usize, to: usize) -> Option<String> {
    let part = DOCUMENT.get(from..to)?;
    let quotes = part.replace(alloc, "\"", "\\\"").ok()?;
    quotes.replace(alloc, "\n", "\\n").ok()
}

/// The document's first bytes are put in in two parts, and read in between.
fn in_two_parts(alloc: Global, at: usize, len: usize) -> Option<String> {
    let front = escaped(alloc, 0, at)?;
    let back = escaped(alloc, at, len)?;
    format!(in alloc;
        "schema \"s1.rnc\"\ninsert 0 \"{front}\"\nerrors\ninsert {at} \"{back}\"\nerrors\n"
    ).ok()
}

/// They are put in at once.
fn at_once(alloc: Global, len: usize) -> Option<String> {
    let whole = escaped(alloc, 0, len)?;
    format!(in alloc; "schema \"s1.rnc\"\ninsert 0 \"{whole}\"\nerrors\n").ok()
}

/// Whether what is printed of the two parts ends with that list.
fn ends_with_list(alloc: Global, at: usize, len: usize, list: &[u8]) -> bool {
    let Some(script) = in_two_parts(alloc, at, len) else {
        return false;
    };
    match printed(alloc, script.as_str()) {
        Some(out) => out.bytes().ends_with(list),
        None => false,
    }
}

/// Whether the list is the same wherever those bytes are cut.
fn all_cuts_end_with(alloc: Global, len: usize, list: &[u8]) -> bool {
    for at in 0..=len {
        if !ends_with_list(alloc, at, len, list) {
            return false;
        }
    }
    list.starts_with(b"errors: ")
}

fn tells_fronts_alike(alloc: Global, len: usize) -> bool {
    let Some(script) = at_once(alloc, len) else {
        return false;
    };
    match printed(alloc, script.as_str()) {
        Some(out) => all_cuts_end_with(alloc, len, out.bytes()),
        None => false,
    }
}

/// A list begins with a line of its own, so an output that ends with one has it last.
#[test]
fn a_front_in_two_parts_is_told_as_one(rt: HostRuntime) {
    assert!(rt; DOCUMENT.len() == 185);
    for len in 0..186usize {
        assert!(rt; tells_fronts_alike(rt.alloc(), len), "{len}");
    }
}
