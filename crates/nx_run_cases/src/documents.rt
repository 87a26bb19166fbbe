//! The files beside a script.

use nx_base::memory::NoMemory;
use nx_host::memory_files::{MemFiles, SureFiles};
use std::alloc::Global;

pub(crate) const SCRIPT: &str = "file:///work/run.nxs";

/// Documents, of which two are no text, rules and schemas.
const DOCUMENTS: [(&str, &[u8]); 46] = [
    ("file:///work/b.xml", b"a\xE2\x82A"),
    ("file:///work/c.xml", b"a\xE2\x82"),
    ("file:///work/d.xml", b"<d/>\n"),
    ("file:///work/s1.rnc", SECTIONS),
    ("file:///work/m.rnc", b"include \"s1.rnc\"\n"),
    ("file:///work/e.rnc", b"element n { string \"\" }"),
    ("file:///work/a.rnc", b"element a { empty }"),
    ("file:///work/b.rnc", b"element a { element b { empty }* }"),
    (
        "file:///work/n.rnc",
        b"element n { xsd:int { minInclusive = \"5\" maxInclusive = \"4\" } }",
    ),
    (
        "file:///work/u.rnc",
        b"default namespace = \"u\"\nstart = element a { element b { empty }* }",
    ),
    (
        "file:///work/mixed.rnc",
        b"element r { element a { empty }, element b { empty } | element c { empty } }",
    ),
    (
        "file:///work/sides.rnc",
        b"element r { (element a { empty }, element b { empty }) | element c { empty } }",
    ),
    (
        "file:///work/any.rnc",
        b"element r { element * { text } & element x { text } }",
    ),
    (
        "file:///work/five.rnc",
        b"element n { xsd:int { minInclusive = \"5\" } }",
    ),
    (
        "file:///work/ahead.rnc",
        b"element n { xsd:date \"2002-10-10+13:00\" }",
    ),
    ("file:///work/date.rnc", b"element n { xsd:date }"),
    (
        "file:///work/midnight.rnc",
        b"element n { xsd:dateTime \"2000-12-31T24:00:00Z\" }",
    ),
    (
        "file:///work/octet.rnc",
        b"element n { xsd:base64Binary { length = \"1\" } }",
    ),
    (
        "file:///work/nothing.rnc",
        b"element n { xsd:hexBinary { length = \"0\" minLength = \"1\" } }",
    ),
    (
        "file:///work/xy.rnc",
        b"element a { attribute x { text }, attribute y { text } }",
    ),
    (
        "file:///work/true.rnc",
        b"element b { xsd:boolean \"true\" }",
    ),
    ("file:///work/gone.rnc", b"start = external \"http://[\""),
    (
        "file:///work/on.rnc",
        b"element a { attribute x { \"on\" | \"off\" } }",
    ),
    ("file:///work/star.rnc", b"element * { empty }"),
    (
        "file:///work/others.rnc",
        b"namespace n = \"u\"\nelement n:* - n:a { empty }\n",
    ),
    (
        "file:///work/endless.rnc",
        b"start = element a { b? }\nb = element b { b }\n",
    ),
    ("file:///work/own.xml", b"<own/>\n"),
    ("file:///work/own.rnc", b"element own { empty }"),
    (
        "file:///work/gone.xml",
        b"<locatingRules xmlns='http://thaiopensource.com/ns/locating-rules/1.0'><default uri='none.rnc'/></locatingRules>",
    ),
    (
        "file:///work/bad.xml",
        b"<locatingRules xmlns='http://thaiopensource.com/ns/locating-rules/1.0'><default uri='http://['/></locatingRules>",
    ),
    ("file:///work/r.xml", LOOPING_RULES),
    ("file:///work/d/schemas.xml", RULES),
    ("file:///work/d/docbook.rnc", b"element book { empty }"),
    (
        "file:///work/d/book.xml",
        b"<!DOCTYPE book SYSTEM \"book.dtd\" [ <!-- it's > --> ]>\n<book/>\n",
    ),
    (
        "file:///work/l.rnc",
        b"element abcdefghijklmnopq { element b { empty }* }",
    ),
    ("file:///work/long.rnc", LONG_NAMES),
    (
        "file:///work/either.rnc",
        b"element a { element b { empty } | element c { empty } }",
    ),
    (
        "file:///work/row.rnc",
        b"element a { element b { empty }, element c { empty }?, element d { empty }, element e { empty } }",
    ),
    ("file:///work/s1.rng", SECTIONS_IN_MARKUP),
    (
        "file:///work/bogus.rng",
        b"<element name=\"a\" xmlns=\"http://relaxng.org/ns/structure/1.0\"><bogus/></element>",
    ),
    ("file:///work/cut.rng", b"<grammar"),
    (
        "file:///work/m.rng",
        b"<grammar xmlns=\"http://relaxng.org/ns/structure/1.0\"><include href=\"s1.rnc\"/></grammar>",
    ),
    ("file:///work/both.rnc", b"include \"s1.rng\""),
    ("file:///work/e/schemas.xml", RULES_OF_MARKUP),
    (
        "file:///work/e/page.rng",
        b"<element name=\"page\" xmlns=\"http://relaxng.org/ns/structure/1.0\"><empty/></element>",
    ),
    ("file:///work/e/page.xml", b"<page/>\n"),
];

const LOOPING_RULES: &[u8] =
    b"<locatingRules xmlns=\"http://thaiopensource.com/ns/locating-rules/1.0\"><include rules=\"r.xml\"/></locatingRules>";

pub(crate) const RULES: &[u8] =
    b"<locatingRules xmlns=\"http://thaiopensource.com/ns/locating-rules/1.0\">\n\
<transformURI fromPattern=\"*.xml\" toPattern=\"*.rnc\"/>\n\
<uri pattern=\"*.xsl\" typeId=\"XSLT\"/>\n\
<namespace ns=\"http://www.w3.org/1999/xhtml\" uri=\"xhtml.rnc\"/>\n\
<documentElement localName=\"book\" typeId=\"DocBook\"/>\n\
<typeId id=\"DocBook\" uri=\"docbook.rnc\"/>\n\
</locatingRules>";

/// Rules that name files in the XML syntax.
const RULES_OF_MARKUP: &[u8] =
    b"<locatingRules xmlns=\"http://thaiopensource.com/ns/locating-rules/1.0\">\n\
<transformURI fromPattern=\"*.xml\" toPattern=\"*.rng\"/>\n\
<uri pattern=\"*.rng\" typeId=\"RELAX NG\"/>\n\
<typeId id=\"RELAX NG\" uri=\"../m.rng\"/>\n\
</locatingRules>";

/// Names of 15, 16 and 17 bytes, and a longer value.
const LONG_NAMES: &[u8] =
    b"element abcdefghijklmno { element abcdefghijklmnop { element abcdefghijklmnopq { \
attribute abcdefghijklmnopq { \"on\" | \"a longer value\" }, element b { empty } }+ }+ }";

const SECTIONS: &[u8] =
    b"start = element doc { attribute id { xsd:NCName }, element title { text }, element para { (text | element em { text })* }* }";

/// A schema in the XML syntax, of a `doc` that holds a `title` alone.
const SECTIONS_IN_MARKUP: &[u8] =
    b"<grammar xmlns=\"http://relaxng.org/ns/structure/1.0\" datatypeLibrary=\"http://www.w3.org/2001/XMLSchema-datatypes\">\
<start><element name=\"doc\"><attribute name=\"id\"><data type=\"NCName\"/></attribute>\
<element name=\"title\"><text/></element></element></start></grammar>";

/// The script, and documents beside it.
pub(crate) fn files_with(alloc: Global, script: &[u8]) -> Result<SureFiles, NoMemory> {
    let mut files = SureFiles::new(alloc);
    files.add(SCRIPT, script)?;
    for (uri, bytes) in &DOCUMENTS {
        files.add(*uri, *bytes)?;
    }
    Ok(files)
}

/// Adds the script, and documents beside it, and answers whether it could.
pub(crate) fn add_all(files: &mut MemFiles, script: &str) -> bool {
    if files.add(SCRIPT, script.as_bytes()).is_err() {
        return false;
    }
    for (uri, bytes) in &DOCUMENTS {
        if files.add(*uri, *bytes).is_err() {
            return false;
        }
    }
    true
}
