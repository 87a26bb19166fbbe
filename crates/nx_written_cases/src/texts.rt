//! What is written inside of one open element.

ghost use Rattle.std.specs.Prelude.{◌≡◌, true};
ghost use Rattle.nx_base.specs.Trees.{IsWritable, AreWritable};
ghost use Rattle.rng_fill.specs.Moves.{event_of, events_of};

use nx_base::memory::NoMemory;
use nx_base::name::Name;
use nx_base::sequence::Bytes;
use nx_written::{Declaration, OpenTag, write_rest};
use rng_core::name_class::{is_attribute_name, is_xml_name};
use rng_fill::{Move, Moves};
use rng_types::word::is_of_chars;
use std::alloc::Global;
use std::test::Fail;

/// The declarations in force inside of `doc`, each a prefix and a URI; the events behind it, each a letter, a namespace, a local part and a
/// text; and what is written.
type Row = (
    &'static [(&'static str, &'static str)],
    &'static [(&'static str, &'static str, &'static str, &'static str)],
    &'static str,
);

const ROWS: [Row; 15] = [
    // an empty element, and the end of what is open
    (
        &[],
        &[
            ("E", "", "title", ""),
            (">", "", "", ""),
            ("/", "", "", ""),
            ("/", "", "", ""),
        ],
        "<title/></doc>",
    ),
    // the default namespace serves
    (
        &[("", "u")],
        &[
            ("E", "u", "b", ""),
            (">", "", "", ""),
            ("/", "", "", ""),
            ("/", "", "", ""),
        ],
        "<b/></doc>",
    ),
    // no namespace below a default one
    (
        &[("", "u")],
        &[
            ("E", "", "b", ""),
            (">", "", "", ""),
            ("/", "", "", ""),
            ("/", "", "", ""),
        ],
        "<b xmlns=''/></doc>",
    ),
    // a prefix in force
    (
        &[("p", "u")],
        &[
            ("E", "u", "b", ""),
            (">", "", "", ""),
            ("/", "", "", ""),
            ("/", "", "", ""),
        ],
        "<p:b/></doc>",
    ),
    // a prefix that another declaration hides
    (
        &[("p", "u"), ("p", "v")],
        &[
            ("E", "u", "b", ""),
            (">", "", "", ""),
            ("/", "", "", ""),
            ("/", "", "", ""),
        ],
        "<n0:b xmlns:n0='u'/></doc>",
    ),
    // the least number that none in force has
    (
        &[("n0", "x"), ("n2", "y")],
        &[
            ("E", "u", "b", ""),
            (">", "", "", ""),
            ("/", "", "", ""),
            ("/", "", "", ""),
        ],
        "<n1:b xmlns:n1='u'/></doc>",
    ),
    // one of them is free again behind its element, and those above are passed over each time
    (
        &[("n2", "x"), ("n1", "x"), ("n02", "y")],
        &[
            ("E", "u", "b", ""),
            (">", "", "", ""),
            ("E", "v", "c", ""),
            ("A", "w", "d", "1"),
            (">", "", "", ""),
            ("/", "", "", ""),
            ("/", "", "", ""),
            ("E", "u", "b", ""),
            (">", "", "", ""),
            ("E", "w", "c", ""),
            (">", "", "", ""),
            ("/", "", "", ""),
            ("/", "", "", ""),
            ("/", "", "", ""),
        ],
        "<n0:b xmlns:n0='u'><n3:c xmlns:n3='v' n4:d='1' xmlns:n4='w'/></n0:b><n0:b xmlns:n0='u'><n3:c xmlns:n3='w'/></n0:b></doc>",
    ),
    // two declarations of one namespace: the default serves the element, and the other the attribute
    (
        &[("p", "u"), ("", "u")],
        &[
            ("E", "u", "b", ""),
            ("A", "u", "c", "1"),
            (">", "", "", ""),
            ("/", "", "", ""),
            ("/", "", "", ""),
        ],
        "<b p:c='1'/></doc>",
    ),
    // the innermost one that isn't hidden
    (
        &[("p", "u"), ("q", "u"), ("q", "v")],
        &[
            ("E", "u", "b", ""),
            (">", "", "", ""),
            ("/", "", "", ""),
            ("/", "", "", ""),
        ],
        "<p:b/></doc>",
    ),
    // attributes, each with the declaration that it needs; the default doesn't serve them
    (
        &[("", "u")],
        &[
            ("E", "u", "b", ""),
            ("A", "", "c", "1"),
            ("A", "u", "d", "2"),
            ("A", "u", "e", "3"),
            (">", "", "", ""),
            ("/", "", "", ""),
            ("/", "", "", ""),
        ],
        "<b c='1' n0:d='2' xmlns:n0='u' n0:e='3'/></doc>",
    ),
    // what is declared in an element is over behind it
    (
        &[],
        &[
            ("E", "u", "b", ""),
            (">", "", "", ""),
            ("E", "u", "c", ""),
            (">", "", "", ""),
            ("/", "", "", ""),
            ("/", "", "", ""),
            ("E", "v", "d", ""),
            (">", "", "", ""),
            ("/", "", "", ""),
            ("/", "", "", ""),
        ],
        "<n0:b xmlns:n0='u'><n0:c/></n0:b><n0:d xmlns:n0='v'/></doc>",
    ),
    // the prefix xml needs no declaration
    (
        &[],
        &[
            ("E", "", "b", ""),
            ("A", "http://www.w3.org/XML/1998/namespace", "lang", "en"),
            (">", "", "", ""),
            ("/", "", "", ""),
            ("/", "", "", ""),
        ],
        "<b xml:lang='en'/></doc>",
    ),
    // strings and values
    (
        &[],
        &[
            ("E", "", "b", ""),
            ("A", "", "c", "a\tb'<>&\"\n"),
            (">", "", "", ""),
            ("T", "", "", "x]]>y\r&z\u{e9}"),
            ("/", "", "", ""),
            ("/", "", "", ""),
        ],
        "<b c='a&#9;b&apos;&lt;&gt;&amp;\"&#10;'>x]]&gt;y&#13;&amp;z\u{e9}</b></doc>",
    ),
    // a string in front of an element, and one behind it
    (
        &[],
        &[
            ("T", "", "", "a"),
            ("E", "", "b", ""),
            (">", "", "", ""),
            ("/", "", "", ""),
            ("T", "", "", "c"),
            ("/", "", "", ""),
        ],
        "a<b/>c</doc>",
    ),
    // the end alone
    (&[], &[("/", "", "", "")], "</doc>"),
];

/// The one open element of these rows.
const DOC: [(&str, usize); 1] = [("doc", 0)];

/// Three open elements, of which the inner two declare what is free again behind them.
const NESTED: [(&str, usize); 3] = [("r", 0), ("a", 1), ("b", 2)];

/// Behind these elements the least numbers come again, also where one that is higher was declared around one that is lower.
const FREE_AGAIN: Row = (
    &[("", "d"), ("n1", "u1"), ("n0", "u0")],
    &[
        ("/", "", "", ""),
        ("/", "", "", ""),
        ("E", "", "c", ""),
        (">", "", "", ""),
        ("E", "v", "e", ""),
        (">", "", "", ""),
        ("E", "w", "f", ""),
        (">", "", "", ""),
        ("/", "", "", ""),
        ("/", "", "", ""),
        ("/", "", "", ""),
        ("/", "", "", ""),
    ],
    "</b></a><c xmlns=''><n0:e xmlns:n0='v'><n1:f xmlns:n1='w'/></n0:e></c></r>",
);

fn bytes(alloc: Global, text: &str) -> Result<Bytes, NoMemory> {
    Ok(Bytes::from_vec(Vec::from_slice(alloc, text.as_bytes())?))
}

fn name(alloc: Global, ns: &str, local: &str) -> Result<Name, NoMemory> {
    Ok(Name {
        ns: bytes(alloc, ns)?,
        local: bytes(alloc, local)?,
    })
}

fn event(
    alloc: Global,
    row: &(&'static str, &'static str, &'static str, &'static str),
) -> Result<Move, NoMemory> {
    match row.0 {
        "E" => Ok(Move::Enter(name(alloc, row.1, row.2)?)),
        "A" => Ok(Move::Att(name(alloc, row.1, row.2)?, bytes(alloc, row.3)?)),
        ">" => Ok(Move::TagEnd),
        "T" => Ok(Move::Chars(bytes(alloc, row.3)?)),
        _ => Ok(Move::Leave),
    }
}

/// Whether an event can be written.
fn is_writable(event: &Move) -> bool
    ensures { result ≡ true → IsWritable (event_of event.now) }
{
    match event {
        Move::Enter(name) => is_xml_name(name),
        Move::Att(name, value) => is_attribute_name(name) && is_of_chars(value.as_slice()),
        Move::TagEnd => true,
        Move::Chars(text) => is_of_chars(text.as_slice()),
        Move::Leave => true,
    }
}

/// Whether all events can be written.
fn are_writable(events: &[Move]) -> bool
    ensures { result ≡ true → AreWritable (events_of events.now) }
{
    let mut rest = events;
    'events: while let Some((first, behind)) = rest.split_first() {
        if !is_writable(first) {
            return false;
        }
        rest = behind;
    }
    true
}

/// What is written where these elements are open, each with how many declarations stand in front of its own.
fn written(alloc: Global, tags: &[(&'static str, usize)], row: &Row) -> Result<Bytes, NoMemory> {
    let mut scope: Vec<Declaration> = Vec::new(alloc);
    for pair in row.0 {
        scope.push(Declaration::new(bytes(alloc, pair.0)?, bytes(alloc, pair.1)?))?;
    }
    let mut open_tags: Vec<OpenTag> = Vec::new(alloc);
    for tag in tags {
        open_tags.push(OpenTag::new(bytes(alloc, tag.0)?, tag.1))?;
    }
    let mut events: Moves = Moves::new(alloc);
    for it in row.1 {
        events.push(event(alloc, it)?)?;
    }
    if are_writable(events.as_slice()) {
        return write_rest(alloc, open_tags, scope, events.as_slice());
    }
    // No row's text is empty.
    Ok(Bytes::new(alloc))
}

#[test]
fn writes_what_is_left(rt: HostRuntime) -> Result<(), Fail> {
    for row in &ROWS {
        let text = written(rt.alloc(), &DOC, row).ok().ok_or("no memory")?;
        assert!(rt; text.as_slice() == row.2.as_bytes());
    }
    Ok(())
}

#[test]
fn numbers_are_free_again(rt: HostRuntime) -> Result<(), Fail> {
    let text = written(rt.alloc(), &NESTED, &FREE_AGAIN)
        .ok()
        .ok_or("no memory")?;
    assert!(rt; text.as_slice() == FREE_AGAIN.2.as_bytes());
    Ok(())
}
