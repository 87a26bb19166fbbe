//! Ways from places, and where each leads.

ghost use Rattle.std.specs.Prelude.{◌≡◌, ◌<◌};

use nx_base::steps::Steps;
use nx_base::way::Way;
use nx_base::way::Way::{BackUp, Backward, Down, Forward, Up};
use nx_move::moving::go;
use nx_text::text::Text;
use std::alloc::Global;
use std::marker::Brand;
use std::process::Abort;
use std::sync::ledger::{Blank, Ledger};
use std::test::Fail;

/// Texts, places, ways, and where each leads.
const MOVES: [(&str, usize, Way, Option<usize>); 90] = [
    ("<a><b/>t<c>u</c></a>", 3, Forward, Some(7)),
    ("<a><b/>t<c>u</c></a>", 7, Forward, Some(16)),
    ("<a><b/>t<c>u</c></a>", 16, Forward, None),
    ("<a><b/>t<c>u</c></a>", 16, Up, Some(20)),
    ("<a><b/>t<c>u</c></a>", 20, Backward, Some(0)),
    ("<a><b/>t<c>u</c></a>", 0, Down, Some(3)),
    ("<a><b/>t<c>u</c></a>", 3, BackUp, Some(0)),
    ("<a><b/>t<c>u</c></a>", 0, Forward, Some(20)),
    ("<a><b/>t<c>u</c></a>", 0, Up, None),
    ("<a><b/>t<c>u</c></a>", 1, Forward, Some(7)),
    ("<a><b/>t<c>u</c></a>", 1, Up, Some(20)),
    ("<a><b/>t<c>u</c></a>", 3, Down, Some(11)),
    ("<a><b/>t<c>u</c></a>", 3, Up, Some(20)),
    ("<a><b/>t<c>u</c></a>", 5, Forward, Some(16)),
    ("<a><b/>t<c>u</c></a>", 5, Backward, None),
    ("<a><b/>t<c>u</c></a>", 1, Backward, None),
    ("<a><b/>t<c>u</c></a>", 0, Backward, None),
    ("<a><b/>t<c>u</c></a>", 8, Backward, Some(3)),
    ("<a><b/>t<c>u</c></a>", 11, BackUp, Some(8)),
    ("<a><b/>t<c>u</c></a>", 11, Up, Some(16)),
    ("<a><b/>t<c>u</c></a>", 12, Backward, None),
    ("<a><b/>t<c>u</c></a>", 16, Backward, Some(8)),
    ("<a><b/>t<c>u</c></a>", 18, Up, None),
    ("<a><b/>t<c>u</c></a>", 18, BackUp, Some(0)),
    ("<a><b/>t<c>u</c></a>", 18, Backward, Some(8)),
    ("<a><b/>t<c>u</c></a>", 20, BackUp, None),
    ("<a><b/>t<c>u</c></a>", 20, Forward, None),
    ("<a><b/>t<c>u</c></a>", 20, Up, None),
    ("<a><b/>t<c>u</c></a>", 20, Down, None),
    ("</a><b>x</b></c><d>", 0, Forward, None),
    ("</a><b>x</b></c><d>", 0, Up, Some(4)),
    ("</a><b>x</b></c><d>", 0, Down, None),
    ("</a><b>x</b></c><d>", 4, Forward, Some(12)),
    ("</a><b>x</b></c><d>", 4, Up, Some(16)),
    ("</a><b>x</b></c><d>", 4, Backward, None),
    ("</a><b>x</b></c><d>", 12, Forward, None),
    ("</a><b>x</b></c><d>", 12, Backward, Some(4)),
    ("</a><b>x</b></c><d>", 16, Forward, None),
    ("</a><b>x</b></c><d>", 16, Down, Some(19)),
    ("</a><b>x</b></c><d>", 16, Backward, None),
    ("</a><b>x</b></c><d>", 16, BackUp, None),
    ("</a><b>x</b></c><d>", 19, BackUp, Some(16)),
    ("</a><b>x</b></c><d>", 19, Backward, None),
    ("</a><b>x</b></c><d>", 19, Up, None),
    ("<a><b></a></c>", 0, Forward, Some(14)),
    ("<a><b></a></c>", 3, Forward, Some(10)),
    ("<a><b></a></c>", 6, Up, Some(10)),
    ("<a><b></a></c>", 6, BackUp, Some(3)),
    ("<a><b></a></c>", 10, Backward, Some(3)),
    ("<a><b></a></c>", 10, BackUp, Some(0)),
    ("<a><b></a></c>", 14, Backward, Some(0)),
    (
        "<a><!--<b>--><?p <c>?><![CDATA[</a>]]></a>",
        0,
        Forward,
        Some(42),
    ),
    (
        "<a><!--<b>--><?p <c>?><![CDATA[</a>]]></a>",
        0,
        Down,
        Some(3),
    ),
    (
        "<a><!--<b>--><?p <c>?><![CDATA[</a>]]></a>",
        3,
        Forward,
        None,
    ),
    (
        "<a><!--<b>--><?p <c>?><![CDATA[</a>]]></a>",
        3,
        Up,
        Some(42),
    ),
    ("<a><!--<b>--><?p <c>?><![CDATA[</a>]]></a>", 3, Down, None),
    (
        "<a><!--<b>--><?p <c>?><![CDATA[</a>]]></a>",
        10,
        Up,
        Some(42),
    ),
    (
        "<a><!--<b>--><?p <c>?><![CDATA[</a>]]></a>",
        22,
        BackUp,
        Some(0),
    ),
    (
        "<a><!--<b>--><?p <c>?><![CDATA[</a>]]></a>",
        42,
        Backward,
        Some(0),
    ),
    ("<a <b></b>", 0, Forward, Some(10)),
    ("<a <b></b>", 0, Up, None),
    ("<a <b></b>", 0, Down, Some(6)),
    ("<a <b></b>", 10, Backward, Some(3)),
    ("<a <b></b>", 10, BackUp, None),
    ("<a/><b><!-- </b>", 0, Forward, Some(4)),
    ("<a/><b><!-- </b>", 0, Down, Some(7)),
    ("<a/><b><!-- </b>", 4, Forward, None),
    ("<a/><b><!-- </b>", 4, Backward, Some(0)),
    ("<a/><b><!-- </b>", 7, Up, None),
    ("<a/><b><!-- </b>", 16, BackUp, Some(4)),
    ("<a/><b><!-- </b>", 16, Backward, None),
    ("", 0, Forward, None),
    ("", 0, Backward, None),
    ("", 0, Up, None),
    ("", 0, BackUp, None),
    ("", 0, Down, None),
    ("é<a>é</a>", 0, Forward, Some(11)),
    ("é<a>é</a>", 2, Forward, Some(11)),
    ("é<a>é</a>", 5, Up, Some(11)),
    ("é<a>é</a>", 5, BackUp, Some(2)),
    ("é<a>é</a>", 11, Backward, Some(2)),
    (
        "<?xml version='1.0'?><!DOCTYPE a [<!ELEMENT a ANY>]><a/>",
        0,
        Forward,
        Some(56),
    ),
    (
        "<?xml version='1.0'?><!DOCTYPE a [<!ELEMENT a ANY>]><a/>",
        0,
        Down,
        None,
    ),
    (
        "<?xml version='1.0'?><!DOCTYPE a [<!ELEMENT a ANY>]><a/>",
        56,
        Backward,
        Some(52),
    ),
    ("<a/><b/><c><d/></c>", 0, Down, Some(11)),
    ("<a/><b/><c><d/></c>", 8, Forward, Some(19)),
    ("<a/><b/><c><d/></c>", 8, Backward, Some(4)),
    ("<a/><b/><c><d/></c>", 11, Down, None),
    ("<a/><b/><c><d/></c>", 15, Backward, Some(11)),
    ("<a/><b/><c><d/></c>", 19, Backward, Some(8)),
];

/// Where a way leads.
fn reached<L: Ledger>(
    alloc: Global,
    words: &str,
    at: usize,
    way: Way,
    steps: &mut Steps<L>,
) -> Result<Option<usize>, Fail> {
    let mut text = Text::new(alloc);
    text.insert(0, words)?;
    let at_place = text.is_place(at);
    if !at_place {
        return Err("no place".into());
    }
    Ok(go(alloc, &text, at, way, steps)?)
}

/// Whether all ways lead where the table says.
fn all_lead<R: Abort, L: Ledger>(rt: &R, alloc: Global, blank: Blank) -> Result<(), Fail>
    requires name { blank.name ≡ L.name }
    requires parts { blank.parts ≡ L.parts }
    requires some { 0 < L.parts }
{
    let mut steps = Steps::<L>::new(blank);
    let mut wrong = String::new(alloc);
    for (words, at, way, want) in &MOVES {
        let found = reached(alloc, words, *at, *way, &mut steps)?;
        if found != *want {
            write!(wrong, "{words} {at} {way:?}: {found:?}\n")?;
        }
    }
    assert_eq!(rt; wrong.as_str(), "");
    Ok(())
}

#[test]
fn ways_lead(rt: HostRuntime) -> Result<(), Fail> {
    all_lead::<_, Brand>(&rt, rt.alloc(), Blank::new(1))
}
