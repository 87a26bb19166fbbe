//! The schemas that documents name themselves.

ghost use Rattle.std.specs.Prelude.{◌≡◌, ◌<◌};

use crate::located::text_of;
use nx_base::memory::NoMemory;
use nx_base::sequence::Bytes;
use nx_base::steps::Steps;
use nx_locate::named_schema;
use std::alloc::Global;
use std::marker::Brand;
use std::sync::ledger::{Blank, Ledger};
use std::test::Fail;

// What a document names, or `-`, and the document, in which `~` is a line's end.
const NAMED: &str = "\
a.rnc <?xml-model href=\"a.rnc\"?><a/>
a.rng <?xml-model href='a.rng'?><a/>
a <?xml-model href=\"a\" type=\"application/relax-ng-compact-syntax\"?><a/>
a <?xml-model type='application/xml' href='a' schematypens='http://relaxng.org/ns/structure/1.0'?><a/>
- <?xml-model href=\"a\" type=\"application/xml\"?><a/>
- <?xml-model href=\"a.sch\" type=\"application/xml\" schematypens=\"http://purl.oclc.org/dsdl/schematron\"?><a/>
- <?xml-model href=\"a\"?><a/>
- <?xml-model type=\"application/relax-ng-compact-syntax\"?><a/>
b.rnc <?xml-model href=\"a.xsd\"?><?xml-model href=\"b.rnc\"?><?xml-model href=\"c.rnc\"?><a/>
a.rnc <?xml version=\"1.0\"?>~<!-- c --><!DOCTYPE a []>~<?p href=\"b.rnc\"?><?xml-model~\thref~=~\"a.rnc\"~?>~<a/>
a&b<.rnc <?xml-model href=\"a&amp;b&#60;.rnc\"?><a/>
\"'.rnc <?xml-model href=\"&quot;&apos;.rnc\"?><a/>
a>b.rnc <?xml-model href=\"a>b.rnc\"?><a/>
é%20.rnc <?xml-model href=\"é%20.rnc\" title=\"é\"?><a/>
- <a/><?xml-model href=\"a.rnc\"?>
- <a><?xml-model href=\"a.rnc\"?></a>
- </a><?xml-model href=\"a.rnc\"?>
a.rnc <?xml-model href=\"a.rnc\"?>
a.rnc x<?xml-model href=\"a.rnc\"?><a/>
- <?xml-models href=\"a.rnc\"?><a/>
- <?XML-MODEL href=\"a.rnc\"?><a/>
- <?xml-model HREF=\"a.rnc\"?><a/>
- <?xml-model?><a/>
- <?xml-model href=\"a.rnc?><a/>
- <?xml-model href=a.rnc?><a/>
- <?xml-model href=\"a.rnc\"type=\"b\"?><a/>
- <?xml-model href=\"a.rnc\" href=\"b.rnc\"?><a/>
- <?xml-model href=\"a.rnc\" type?><a/>
- <?xml-model href=\"&a;.rnc\"?><a/>
- <?xml-model href=\"a<b.rnc\"?><a/>
- <?xml-model href=\"a.rnc\"/><b c=\"\"?><a/>
- <?xml-model href=\"a.rnc\"/><!-- -->?><a/>
- <?xml-model href=\"a.rnc\"><a/>
b.rnc <?xml-model href=\"a.rnc\" href=\"c.rnc\"?><?xml-model href=\"b.rnc\"?><a/>
- <!-- <?xml-model href=\"a.rnc\"?> --><a/>
- ";

/// The reference that a text names.
fn named<L: Ledger>(alloc: Global, text: &String, blank: Blank) -> Result<Option<Bytes>, NoMemory>
    requires name { blank.name ≡ L.name }
    requires parts { blank.parts ≡ L.parts }
    requires some { 0 < L.parts }
{
    let text = text_of(alloc, text.as_str())?;
    let mut steps = Steps::<L>::new(blank);
    named_schema(alloc, &text, &mut steps)
}

/// The document of a row.
fn document(alloc: Global, written: &str) -> Result<String, NoMemory> {
    let mut text = String::new(alloc);
    for part in written.split("~") {
        if !text.is_empty() {
            text.push('\n')?;
        }
        text.push_str(part)?;
    }
    Ok(text)
}

/// Whether a row's document names what the row says.
fn is_named(alloc: Global, row: &str) -> Result<bool, NoMemory> {
    let (wanted, written) = row.split_once(" ").unwrap_or((row, ""));
    let text = document(alloc, written)?;
    match named::<Brand>(alloc, &text, Blank::new(1))? {
        Some(href) => Ok(href.as_slice() == wanted.as_bytes()),
        None => Ok(wanted == "-"),
    }
}

#[test]
fn documents_name_schemas(rt: HostRuntime) -> Result<(), Fail> {
    for row in NAMED.split("\n") {
        let holds = is_named(rt.alloc(), row)?;
        assert!(rt; holds, "{row}");
    }
    Ok(())
}
