//! Lines, worked out by hand.

use crate::line::{push_fault_line, push_message_line, push_summary, push_trouble_line};
use crate::sentence::push_sentence;
use crate::severity::Severity;
use crate::trouble::Trouble;
use nx_base::cause::Cause;
use nx_base::detail::Detail;
use nx_base::fault::{Fault, Kind, Span};
use nx_base::memory::NoMemory;
use nx_base::name::Name;
use nx_base::offer::Offer;
use nx_base::sequence::Bytes;
use nx_position::position::Position;
use std::alloc::Global;

/// A kind, a detail, and what they say where nothing is expected.
const SENTENCES: [(Kind, &str, &str); 37] = [
    (
        Kind::BadMarkup,
        "",
        "this is no markup that XML knows; in text \"<\" is written \"&lt;\"",
    ),
    (Kind::BadChar, "", "XML allows no such character"),
    (
        Kind::BadReference,
        "",
        "this is no reference that is known; in text \"&\" is written \"&amp;\"",
    ),
    (
        Kind::BadText,
        "",
        "\"]]>\" may not stand in text; it is written \"]]&gt;\"",
    ),
    (
        Kind::BadComment,
        "",
        "a comment may neither hold \"--\" nor end with \"-\" in front of its end",
    ),
    (
        Kind::BadPi,
        "",
        "a processing instruction begins with a name that has no \":\" and isn't \"xml\", with a space behind it",
    ),
    (
        Kind::BadDecl,
        "",
        "the XML declaration isn't of its form, or names an encoding other than UTF-8 and US-ASCII",
    ),
    (Kind::Unclosed, "", "this has no end"),
    (
        Kind::Misplaced,
        "",
        "an XML declaration may stand at the very start of a document only, and one document type in front of its root",
    ),
    (
        Kind::TextOutside,
        "",
        "text may not stand outside of the root element",
    ),
    (
        Kind::MissingEnd,
        "p:b",
        "element \"p:b\" has no end tag: that of an element around it stands first",
    ),
    (
        Kind::ExtraEnd,
        "b",
        "no element \"b\" is open that this tag could end",
    ),
    (Kind::UnclosedElement, "b", "element \"b\" has no end tag"),
    (
        Kind::SecondRoot,
        "b",
        "element \"b\" is a second root; a document has one",
    ),
    (Kind::NoRoot, "", "the document has no element"),
    (
        Kind::BadName,
        "a:b:c",
        "\"a:b:c\" is no name: it may have one \":\", with a name on both sides",
    ),
    (
        Kind::UndeclaredPrefix,
        "p",
        "prefix \"p\" isn't declared; it needs an attribute \"xmlns:p\"",
    ),
    (
        Kind::DuplicateAttribute,
        "id",
        "attribute \"id\" stands twice in this tag",
    ),
    (
        Kind::BadBinding,
        "xmlns:xml",
        "\"xmlns:xml\" may not declare this namespace",
    ),
    (
        Kind::Unknown,
        "para",
        "the schema knows no element \"para\"",
    ),
    (
        Kind::Unknown,
        "{urn:x}para",
        "the schema knows no element \"{urn:x}para\"",
    ),
    (
        Kind::Unknown,
        "{urn:\u{1b}[2J}a",
        "the schema knows no element \"{urn:\\u{1b}[2J}a\"",
    ),
    (
        Kind::NotAllowed,
        "{urn:x}para",
        "element \"para\" may not stand here",
    ),
    (
        Kind::NotYet,
        "para needs title",
        "element \"para\" may not stand here yet: needs \"title\"",
    ),
    (
        Kind::NotYet,
        "para",
        "element \"para\" may not stand here yet",
    ),
    (
        Kind::NotYet,
        "{urn:x y}p needs {urn:x y}t {urn:z}i s",
        "element \"p\" may not stand here yet: needs \"t\", \"{urn:z}i\", \"{}s\"",
    ),
    (
        Kind::UnknownAttribute,
        "{urn:x}k",
        "attribute \"{urn:x}k\" may not stand here",
    ),
    (Kind::BadValue, "", "this text may not stand here"),
    (
        Kind::BadValue,
        "k",
        "attribute \"k\" may not have this value",
    ),
    (
        Kind::MissingAttributes,
        "id",
        "this tag lacks attribute \"id\"",
    ),
    (
        Kind::MissingAttributes,
        "{urn:a b}x y",
        "this tag lacks attributes \"{urn:a b}x\", \"y\"",
    ),
    (
        Kind::MissingAttributes,
        "{http://www.w3.org/XML/1998/namespace}lang",
        "this tag lacks attribute \"xml:lang\"",
    ),
    (Kind::TextNotAllowed, "", "text may not stand here"),
    (Kind::Incomplete, "{a}b}s", "element \"s\" isn't complete"),
    (
        Kind::Incomplete,
        "s needs a b c d e f g h",
        "element \"s\" isn't complete: needs \"a\", \"b\", \"c\", \"d\", \"e\", \"f\", \"g\", \"h\"",
    ),
    (
        Kind::Incomplete,
        "s needs a b c d e f g h i",
        "element \"s\" isn't complete: needs \"a\", \"b\", \"c\", \"d\", \"e\", \"f\", \"g\", \"h\" and 1 more",
    ),
    (
        Kind::Incomplete,
        "s needs a b c d e f g h i j k l",
        "element \"s\" isn't complete: needs \"a\", \"b\", \"c\", \"d\", \"e\", \"f\", \"g\", \"h\" and 4 more",
    ),
];

fn bytes_of(alloc: Global, text: &str) -> Result<Bytes, NoMemory> {
    Ok(Bytes::from_vec(Vec::from_slice(alloc, text.as_bytes())?))
}

fn fault_of(alloc: Global, kind: Kind, detail: &str) -> Result<Fault, NoMemory> {
    Ok(Fault {
        span: Span { from: 0, to: 1 },
        kind,
        detail: Detail::of(bytes_of(alloc, detail)?)?,
    })
}

fn name_of(alloc: Global, ns: &str, local: &str) -> Result<Offer, NoMemory> {
    Ok(Offer::Name(Name {
        ns: bytes_of(alloc, ns)?,
        local: bytes_of(alloc, local)?,
    }))
}

fn says(
    alloc: Global,
    kind: Kind,
    detail: &str,
    expected: &[Offer],
    wanted: &str,
) -> Result<bool, NoMemory> {
    let mut out = Vec::new(alloc);
    push_sentence(alloc, &mut out, &fault_of(alloc, kind, detail)?, expected)?;
    Ok(out.as_slice() == wanted.as_bytes())
}

#[test]
fn kinds_have_sentences(rt: HostRuntime) {
    for row in SENTENCES.iter() {
        let (kind, detail, wanted) = *row;
        assert!(rt; says(rt.alloc(), kind, detail, &[], wanted).expect(&rt, "memory"));
    }
}

/// Elements, a wildcard and an end tag.
fn elements(alloc: Global) -> Result<Vec<Offer>, NoMemory> {
    let mut offers = Vec::new(alloc);
    offers.push(name_of(alloc, "urn:x", "a")?)?;
    offers.push(name_of(alloc, "", "b")?)?;
    offers.push(Offer::AnyIn(bytes_of(alloc, "urn:z")?))?;
    offers.push(Offer::AnyElse)?;
    offers.push(Offer::End(bytes_of(alloc, "q:s")?))?;
    Ok(offers)
}

/// Attributes and a wildcard.
fn attributes(alloc: Global) -> Result<Vec<Offer>, NoMemory> {
    let mut offers = Vec::new(alloc);
    offers.push(name_of(alloc, "", "id")?)?;
    offers.push(name_of(alloc, "http://www.w3.org/XML/1998/namespace", "lang")?)?;
    offers.push(Offer::AnyIn(bytes_of(alloc, "")?))?;
    offers.push(Offer::AnyElse)?;
    Ok(offers)
}

/// So many values, 0, 1, 2 and so on.
fn values(alloc: Global, count: u8) -> Result<Vec<Offer>, NoMemory> {
    let mut offers = Vec::new(alloc);
    for i in 0..count {
        offers.push(Offer::Value(Bytes::from_vec(format!(in alloc; "{i}")?.into_bytes())))?;
    }
    Ok(offers)
}

#[test]
fn what_is_expected_is_told(rt: HostRuntime) {
    let alloc = rt.alloc();
    let offers = elements(alloc).expect(&rt, "memory");
    let wanted =
        "element \"p\" may not stand here; here may stand \"a\", \"{}b\", any element of namespace \"urn:z\", any other element, \"</q:s>\"";
    assert!(rt;
        says(
            alloc,
            Kind::NotAllowed,
            "{urn:x}p",
            offers.as_slice(),
            wanted
        )
        .expect(&rt, "memory")
    );
    assert!(rt;
        says(
            alloc,
            Kind::TextNotAllowed,
            "",
            offers.as_slice(),
            "text may not stand here"
        )
        .expect(&rt, "memory")
    );
    let offers = attributes(alloc).expect(&rt, "memory");
    let wanted =
        "attribute \"k\" may not stand here; here may stand \"id\", \"xml:lang\", any attribute of no namespace, any other attribute";
    assert!(rt;
        says(
            alloc,
            Kind::UnknownAttribute,
            "k",
            offers.as_slice(),
            wanted
        )
        .expect(&rt, "memory")
    );
}

#[test]
fn long_lists_are_cut(rt: HostRuntime) {
    let alloc = rt.alloc();
    let offers = values(alloc, 1).expect(&rt, "memory");
    assert!(rt;
        says(
            alloc,
            Kind::BadValue,
            "",
            offers.as_slice(),
            "this text may not stand here; it may be \"0\""
        )
        .expect(&rt, "memory")
    );
    let offers = values(alloc, 8).expect(&rt, "memory");
    let wanted =
        "attribute \"k\" may not have this value; it may be \"0\", \"1\", \"2\", \"3\", \"4\", \"5\", \"6\", \"7\"";
    assert!(rt; says(alloc, Kind::BadValue, "k", offers.as_slice(), wanted).expect(&rt, "memory"));
    let offers = values(alloc, 20).expect(&rt, "memory");
    let wanted =
        "attribute \"k\" may not have this value; it may be \"0\", \"1\", \"2\", \"3\", \"4\", \"5\", \"6\", \"7\" and 12 more";
    assert!(rt; says(alloc, Kind::BadValue, "k", offers.as_slice(), wanted).expect(&rt, "memory"));
}

/// Lines of each form.
fn lines(alloc: Global) -> Result<Vec<u8>, NoMemory> {
    let mut out = Vec::new(alloc);
    let fault = fault_of(alloc, Kind::NotYet, "para needs title")?;
    let place = Position {
        line: 11,
        column: 4,
    };
    push_fault_line(alloc, &mut out, b"guide.xml", place, &fault, &[])?;
    push_summary(alloc, &mut out, b"guide.xml", 1)?;
    push_summary(alloc, &mut out, b"a\nb.xml", 3)?;
    let loops = Trouble::Schema(Cause::RefLoop);
    push_trouble_line(alloc, &mut out, b"manual.rnc", None, loops, b"inline")?;
    let syntax = Trouble::Schema(Cause::Syntax);
    let last = Position {
        line: usize::MAX,
        column: 0,
    };
    push_trouble_line(alloc, &mut out, b"manual.rnc", Some(last), syntax, b"")?;
    push_trouble_line(alloc, &mut out, b"b.xml", None, Trouble::NotUtf8(70), b"")?;
    push_trouble_line(alloc, &mut out, b"b.xml", None, Trouble::Absent, b"")?;
    let note = b"xsd:QName is checked\x07 as xsd:token";
    push_message_line(alloc, &mut out, b"r.rnc", Some(place), Severity::Note, note)?;
    push_message_line(alloc, &mut out, b"r.rnc", None, Severity::Warning, b"-")?;
    Ok(out)
}

const LINES: &str = "\
guide.xml:12:5: error: element \"para\" may not stand here yet: needs \"title\" [NotYet]
guide.xml: 1 error
a\\u{a}b.xml: 3 errors
manual.rnc: error: a definition leads back to itself without an element between: \"inline\"
manual.rnc:18446744073709551616:1: error: this isn't the compact syntax of RELAX NG
b.xml: error: this isn't UTF-8 from byte 70 on
b.xml: error: there is no such file
r.rnc:12:5: note: xsd:QName is checked\\u{7} as xsd:token
r.rnc: warning: -
";

#[test]
fn lines_have_their_forms(rt: HostRuntime) {
    let out = lines(rt.alloc()).expect(&rt, "memory");
    assert!(rt; out.as_slice() == LINES.as_bytes());
}
