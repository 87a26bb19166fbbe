//! Faults in the words of those who write documents.

ghost use Rattle.std.specs.Prelude.{◌≡◌, ◌++◌, [], OnOk, codes, drop};
ghost use Rattle.nx_report.specs.Expected.{expected_text};
ghost use Rattle.nx_report.specs.Names.{namespace_of, quoted_name};
ghost use Rattle.nx_report.specs.Printed.{printed_text, quoted};
ghost use Rattle.nx_report.specs.Words.{first_word, words, words_behind};
ghost use Rattle.nx_report.specs.Sentences.{element_name, needs, lacking, wrong_value, sentence_of, sentence};

use crate::expected::push_expected;
use crate::list::{push_names, push_names_behind};
use crate::name::{namespace_of, push_quoted_name};
use crate::printed::{push_printed, push_quoted, push_words};
use crate::word::split_word;
use nx_base::fault::{Fault, Kind};
use nx_base::memory::NoMemory;
use nx_base::offer::Offer;
use std::alloc::Global;

/// Adds what a fault says, in a sentence without an end. What is expected in its place, the offers of completion there, is told by
/// `NotAllowed`, `UnknownAttribute` and `BadValue` alone.
pub fn push_sentence(
    alloc: Global,
    out: &mut Vec<u8>,
    fault: &Fault,
    expected: &[Offer],
) -> Result<(), NoMemory>
    ensures { OnOk result (out.new.items ≡ out.old.items ++ sentence fault.now expected.now) }
{
    let detail = fault.detail.to_bytes(alloc)?;
    push_sentence_of(alloc, out, fault.kind, detail.as_slice(), expected)
}

/// Adds what a kind of faults says.
fn push_sentence_of(
    alloc: Global,
    out: &mut Vec<u8>,
    kind: Kind,
    detail: &[u8],
    expected: &[Offer],
) -> Result<(), NoMemory>
    ensures { OnOk result (out.new.items ≡ out.old.items ++ sentence_of kind detail.now expected.now) }
{
    match kind {
        Kind::BadMarkup => push_words(
            out,
            "this is no markup that XML knows; in text \"<\" is written \"&lt;\"",
        ),
        Kind::BadChar => push_words(out, "XML allows no such character"),
        Kind::BadReference => push_words(
            out,
            "this is no reference that is known; in text \"&\" is written \"&amp;\"",
        ),
        Kind::BadText => push_words(
            out,
            "\"]]>\" may not stand in text; it is written \"]]&gt;\"",
        ),
        Kind::BadComment => push_words(
            out,
            "a comment may neither hold \"--\" nor end with \"-\" in front of its end",
        ),
        Kind::BadPi => push_words(
            out,
            "a processing instruction begins with a name that has no \":\" and isn't \"xml\", with a space behind it",
        ),
        Kind::BadDecl => push_words(
            out,
            "the XML declaration isn't of its form, or names an encoding other than UTF-8 and US-ASCII",
        ),
        Kind::Unclosed => push_words(out, "this has no end"),
        Kind::Misplaced => push_words(
            out,
            "an XML declaration may stand at the very start of a document only, and one document type in front of its root",
        ),
        Kind::TextOutside => push_words(out, "text may not stand outside of the root element"),
        Kind::MissingEnd => push_about(
            alloc,
            out,
            "element ",
            detail,
            " has no end tag: that of an element around it stands first",
        ),
        Kind::ExtraEnd => {
            push_about(
                alloc,
                out,
                "no element ",
                detail,
                " is open that this tag could end",
            )
        }
        Kind::UnclosedElement => push_about(alloc, out, "element ", detail, " has no end tag"),
        Kind::SecondRoot => push_about(
            alloc,
            out,
            "element ",
            detail,
            " is a second root; a document has one",
        ),
        Kind::NoRoot => push_words(out, "the document has no element"),
        Kind::BadName => push_about(
            alloc,
            out,
            "",
            detail,
            " is no name: it may have one \":\", with a name on both sides",
        ),
        Kind::UndeclaredPrefix => push_undeclared(alloc, out, detail),
        Kind::DuplicateAttribute => {
            push_about(
                alloc,
                out,
                "attribute ",
                detail,
                " stands twice in this tag",
            )
        }
        Kind::BadBinding => push_about(alloc, out, "", detail, " may not declare this namespace"),
        Kind::Unknown => push_unknown(alloc, out, detail),
        Kind::NotAllowed => push_not_allowed(alloc, out, detail, expected),
        Kind::NotYet => push_needing(alloc, out, detail, " may not stand here yet"),
        Kind::UnknownAttribute => push_unknown_attribute(alloc, out, detail, expected),
        Kind::BadValue => push_bad_value(alloc, out, detail, expected),
        Kind::MissingAttributes => push_lacking(alloc, out, detail),
        Kind::TextNotAllowed => push_words(out, "text may not stand here"),
        Kind::Incomplete => push_needing(alloc, out, detail, " isn't complete"),
    }
}

/// Adds words with a part of the document in quotes between them.
fn push_about(
    alloc: Global,
    out: &mut Vec<u8>,
    opening: &str,
    detail: &[u8],
    closing: &str,
) -> Result<(), NoMemory>
    ensures { OnOk result (out.new.items ≡ out.old.items ++ (opening.now ++ quoted detail.now ++ closing.now)) }
{
    push_words(out, opening)?;
    push_quoted(alloc, out, detail)?;
    push_words(out, closing)
}

/// Adds that a prefix isn't declared.
fn push_undeclared(alloc: Global, out: &mut Vec<u8>, prefix: &[u8]) -> Result<(), NoMemory>
    ensures { OnOk result (out.new.items ≡ out.old.items
        ++ (codes "prefix " ++ quoted prefix.now ++ codes " isn't declared; it needs an attribute \"xmlns:" ++ printed_text prefix.now ++ codes "\"")) }
{
    push_about(
        alloc,
        out,
        "prefix ",
        prefix,
        " isn't declared; it needs an attribute \"xmlns:",
    )?;
    push_printed(alloc, out, prefix)?;
    push_words(out, "\"")
}

/// Adds that the schema knows no element of a name.
fn push_unknown(alloc: Global, out: &mut Vec<u8>, name: &[u8]) -> Result<(), NoMemory>
    ensures { OnOk result (out.new.items ≡ out.old.items ++ (codes "the schema knows no element " ++ quoted_name [] name.now)) }
{
    push_words(out, "the schema knows no element ")?;
    push_quoted_name(alloc, out, b"", name)
}

/// Adds an element by its name, without the namespace.
fn push_element(alloc: Global, out: &mut Vec<u8>, name: &[u8]) -> Result<(), NoMemory>
    ensures { OnOk result (out.new.items ≡ out.old.items ++ (codes "element " ++ element_name name.now)) }
{
    push_words(out, "element ")?;
    push_quoted_name(alloc, out, namespace_of(name), name)
}

/// Adds that an element may not stand here, and what may.
fn push_not_allowed(
    alloc: Global,
    out: &mut Vec<u8>,
    name: &[u8],
    expected: &[Offer],
) -> Result<(), NoMemory>
    ensures { OnOk result (out.new.items ≡ out.old.items ++ (codes "element " ++ element_name name.now ++ codes " may not stand here"
        ++ expected_text (codes "; here may stand ") (namespace_of name.now) (codes "element") expected.now)) }
{
    push_element(alloc, out, name)?;
    push_words(out, " may not stand here")?;
    push_expected(
        alloc,
        out,
        "; here may stand ",
        namespace_of(name),
        "element",
        expected,
    )
}

/// Adds that an attribute may not stand here, and which may.
fn push_unknown_attribute(
    alloc: Global,
    out: &mut Vec<u8>,
    name: &[u8],
    expected: &[Offer],
) -> Result<(), NoMemory>
    ensures { OnOk result (out.new.items ≡ out.old.items ++ (codes "attribute " ++ quoted_name [] name.now ++ codes " may not stand here"
        ++ expected_text (codes "; here may stand ") [] (codes "attribute") expected.now)) }
{
    push_words(out, "attribute ")?;
    push_quoted_name(alloc, out, b"", name)?;
    push_words(out, " may not stand here")?;
    push_expected(alloc, out, "; here may stand ", b"", "attribute", expected)
}

/// Adds that an attribute may not have its value.
fn push_wrong_attribute(alloc: Global, out: &mut Vec<u8>, name: &[u8]) -> Result<(), NoMemory>
    ensures { OnOk result (out.new.items ≡ out.old.items ++ (codes "attribute " ++ quoted_name [] name.now ++ codes " may not have this value")) }
{
    push_words(out, "attribute ")?;
    push_quoted_name(alloc, out, b"", name)?;
    push_words(out, " may not have this value")
}

/// Adds that a value may not stand where it does: of the attribute of this name, or where that is nothing, of a text.
fn push_wrong_value(alloc: Global, out: &mut Vec<u8>, name: &[u8]) -> Result<(), NoMemory>
    ensures { OnOk result (out.new.items ≡ out.old.items ++ wrong_value name.now) }
{
    if name.is_empty() {
        return push_words(out, "this text may not stand here");
    }
    push_wrong_attribute(alloc, out, name)
}

/// Adds that a value may not stand where it does, and which may.
fn push_bad_value(
    alloc: Global,
    out: &mut Vec<u8>,
    name: &[u8],
    expected: &[Offer],
) -> Result<(), NoMemory>
    ensures { OnOk result (out.new.items ≡ out.old.items
        ++ (wrong_value name.now ++ expected_text (codes "; it may be ") [] (codes "value") expected.now)) }
{
    push_wrong_value(alloc, out, name)?;
    push_expected(alloc, out, "; it may be ", b"", "value", expected)
}

/// What stands behind the next of some words.
#[tactic(auto, using(crate::proofs::Words::words_are))]
fn skip_word(rest: &[u8]) -> &[u8]
    ensures { words_behind result.now ≡ drop 1 (words_behind rest.now) }
{
    match rest.split_first() {
        None => rest,
        Some((_space, words)) => split_word(words).1,
    }
}

/// Adds which elements are needed, if any are.
#[tactic(auto, using(crate::proofs::Words::words_are))]
fn push_needs(alloc: Global, out: &mut Vec<u8>, detail: &[u8]) -> Result<(), NoMemory>
    ensures { OnOk result (out.new.items ≡ out.old.items ++ needs detail.now) }
{
    let (name, rest) = split_word(detail);
    push_names_behind(alloc, out, ": needs ", namespace_of(name), skip_word(rest))
}

/// Adds what is wrong with an element, and which ones it needs.
fn push_needing(
    alloc: Global,
    out: &mut Vec<u8>,
    detail: &[u8],
    wrong: &str,
) -> Result<(), NoMemory>
    ensures { OnOk result (out.new.items ≡ out.old.items ++ (codes "element " ++ element_name (first_word detail.now) ++ wrong.now ++ needs detail.now)) }
{
    push_element(alloc, out, split_word(detail).0)?;
    push_words(out, wrong)?;
    push_needs(alloc, out, detail)
}

/// Adds an attribute by its name.
fn push_attribute(alloc: Global, out: &mut Vec<u8>, name: &[u8]) -> Result<(), NoMemory>
    ensures { OnOk result (out.new.items ≡ out.old.items ++ (codes "attribute " ++ quoted_name [] name.now)) }
{
    push_words(out, "attribute ")?;
    push_quoted_name(alloc, out, b"", name)
}

/// Adds one attribute, or several, by their names.
fn push_attributes(alloc: Global, out: &mut Vec<u8>, names: &[u8]) -> Result<(), NoMemory>
    ensures { OnOk result (out.new.items ≡ out.old.items ++ lacking (words names.now)) }
{
    let (first, others) = split_word(names);
    match others.split_first() {
        None => push_attribute(alloc, out, first),
        Some(_) => push_names(alloc, out, "attributes ", b"", names),
    }
}

/// Adds that a tag lacks attributes.
fn push_lacking(alloc: Global, out: &mut Vec<u8>, names: &[u8]) -> Result<(), NoMemory>
    ensures { OnOk result (out.new.items ≡ out.old.items ++ (codes "this tag lacks " ++ lacking (words names.now))) }
{
    push_words(out, "this tag lacks ")?;
    push_attributes(alloc, out, names)
}
