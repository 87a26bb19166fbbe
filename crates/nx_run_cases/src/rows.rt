//! Scripts, what they print and how their runs end, each worked out by hand.

use nx_run::status::Status;

/// The words of the call, the script, what is printed and how the run ends.
pub(crate) type Row = (&'static [&'static str], &'static str, &'static str, Status);

const RUN: &[&str] = &["run.nxs"];

/// Texts that are edited, stored and read without a schema.
pub(crate) const EDITED: [Row; 29] = [
    (
        RUN,
        "schema \"s1.rnc\"\ninsert 0 \"<doc id='a'><title>T</title><para>x<em>y</em></para></doc>\"\nerrors\n",
        "errors: 0\n",
        Status::Done,
    ),
    (
        RUN,
        "insert 0 \"ab\"\ndelete 0 1\nprint\n",
        "b\n",
        Status::Done,
    ),
    (
        RUN,
        "insert 0 \"ab\"\ninsert 5 \"x\"\nerase\nprint",
        "line 2 refused: BadPosition 5 2\nline 3 refused: BadCommand\nab\n",
        Status::Refused,
    ),
    (
        RUN,
        "save \"http://[\"\n",
        "line 1 refused: BadUri\n",
        Status::Refused,
    ),
    (
        RUN,
        "insert 0 \"é\"\ninsert 2 \"x\"\ninsert 1 \"x\"\ndelete 3 2\nprint\n",
        "line 3 refused: BadPosition 1 3\nline 4 refused: BadPosition 3 3\néx\n",
        Status::Refused,
    ),
    (RUN, "print", "\n", Status::Done),
    (RUN, "insert 0 \"x\"\nsave \"o.xml\"", "", Status::Done),
    (RUN, "", "", Status::Done),
    (
        RUN,
        "# a comment\r\n \t\ninsert 0 \"a\\n\\t\\\"\\\\\"\r\nprint\r",
        "a\n\t\"\\\n",
        Status::Done,
    ),
    (
        RUN,
        "insert 0 \"abc\nprint\ninsert 1000000000000000000 \"x\"\n",
        "line 1 refused: BadCommand\n\nline 3 refused: BadCommand\n",
        Status::Refused,
    ),
    (
        RUN,
        "insert 999999999999999999 \"x\"\ndelete 0 1\ninsert 0 \"\"\nprint",
        "line 1 refused: BadPosition 999999999999999999 0\nline 2 refused: BadPosition 1 0\n\n",
        Status::Refused,
    ),
    (
        RUN,
        "insert 0 \"xy\"\nsave \"a b.xml\"\ndelete 1 2\nsave \"o.xml\"\n",
        "",
        Status::Done,
    ),
    (
        RUN,
        "insert 0 \"<a><b></a>\"\nerrors\n",
        "errors: 1\n6-10 MissingEnd b\n",
        Status::Done,
    ),
    (
        RUN,
        "insert 0 \"<a x='1' x='2'>&nbsp;</a>\"\nerrors\n",
        "errors: 2\n9-14 DuplicateAttribute x\n15-21 BadReference\n",
        Status::Done,
    ),
    (
        RUN,
        "insert 0 \"<a><b </a>\"\nerrors\n",
        "errors: 1\n3-6 BadMarkup\n",
        Status::Done,
    ),
    (
        RUN,
        "insert 0 \"abc\nerrors 1\nslice 0\n",
        "line 1 refused: BadCommand\nline 2 refused: BadCommand\nfrontier 0 of 0\n",
        Status::Refused,
    ),
    (
        RUN,
        "insert 0 \"<a><b/></a>\"\nslice 1\nslice 1\nstats\nerrors\nstats\ninsert 11 \"x\"\nerrors\nstats\nslice 99\nstats\n",
        "frontier 3 of 11\nfrontier 7 of 11\ntaken 1\nerrors: 0\ntaken 1\nerrors: 1\n11-12 TextOutside\ntaken 4\nfrontier 12 of 12\ntaken 0\n",
        Status::Done,
    ),
    (
        RUN,
        "insert 0 \"<a/><b/>\"\nerrors\n",
        "errors: 1\n4-8 SecondRoot b\n",
        Status::Done,
    ),
    (
        RUN,
        "insert 0 \"<p:a/>\"\nerrors\n",
        "errors: 1\n0-6 UndeclaredPrefix p\n",
        Status::Done,
    ),
    (
        RUN,
        "open \"b.xml\"\nerrors\n",
        "line 1 refused: NotUtf8 file:///work/b.xml 3\nerrors: 1\n0-0 NoRoot\n",
        Status::Refused,
    ),
    (
        RUN,
        "open \"c.xml\"\n",
        "line 1 refused: NotUtf8 file:///work/c.xml 3\n",
        Status::Refused,
    ),
    (
        RUN,
        "insert 0 \"<doc id='a'><title>T\"\nerrors\n",
        "errors: 2\n20-20 UnclosedElement title\n20-20 UnclosedElement doc\n",
        Status::Done,
    ),
    (
        RUN,
        "insert 0 \"<doc id='a'><!-- x\"\nerrors\n",
        "errors: 2\n12-18 Unclosed\n18-18 UnclosedElement doc\n",
        Status::Done,
    ),
    (
        RUN,
        "insert 0 \"<?xml version=\\\"1.0\\\" encoding=\\\"UTF-8\\\"?>\\n<?xml-stylesheet type='text/css' href='s.css'?>\\n<!-- c -->\\n<doc id='a'>\\n  <title>A &amp; B</title>\\n  <para>x &#233; <![CDATA[<y>]]></para>\\n</doc>\\n\"\nerrors\n",
        "errors: 0\n",
        Status::Done,
    ),
    (
        RUN,
        "insert 0 \"<a><b></a>\"\nerrors\ndelete 3 6\nerrors\ninsert 7 \"<\\u{e9}/>\"\nerrors\nprint\n",
        "errors: 1\n6-10 MissingEnd b\nerrors: 0\nerrors: 1\n7-12 SecondRoot é\n<a></a><é/>\n",
        Status::Done,
    ),
    (
        RUN,
        "open \"d.xml\"\nopen \"none.xml\"\nopen \"http://[\"\nopen \"b.xml\"\nerrors\nprint\nopen \"run.nxs\"\nopen \"d.xml\"\nprint\n",
        "line 2 refused: Absent file:///work/none.xml\nline 3 refused: BadUri\nline 4 refused: NotUtf8 file:///work/b.xml 3\nerrors: 0\n<d/>\n\n<d/>\n\n",
        Status::Refused,
    ),
    (
        RUN,
        "open \"d.xml\"\ninsert 0 \"<!--\\u{10ffff}-->\"\nsave \"o.xml\"\nopen \"o.xml\"\nerrors\nerrors 1\nopen d.xml\n",
        "errors: 0\nline 6 refused: BadCommand\nline 7 refused: BadCommand\n",
        Status::Refused,
    ),
    (
        RUN,
        "schema \"s1.rnc\"\ninsert 0 \"<doc id='a'><title>T\"\nfinish 20\nerrors\nfinish 28\nerrors\n",
        "errors: 1\n28-28 UnclosedElement doc\nerrors: 0\n",
        Status::Done,
    ),
    (
        RUN,
        "insert 0 \"<d><p>ab</p></d>\"\nsplit 7\nrename 3 \"q\"\npair 3 \"x\"\nprint\nfinish 0\n",
        "<d><x></x><q>a</q><p>b</p></d>\nstay\n",
        Status::Done,
    ),
];

/// Documents that are held against schemas.
pub(crate) const VALIDATED: [Row; 43] = [
    (
        RUN,
        "schema \"s1.rnc\"\nerrors\n",
        "errors: 1\n0-0 NoRoot\n",
        Status::Done,
    ),
    (
        RUN,
        "schema \"s1.rnc\"\ninsert 0 \"<doc id='a'><para/></doc>\"\nerrors\n",
        "errors: 1\n12-19 NotYet para needs title\n",
        Status::Done,
    ),
    (
        RUN,
        "schema \"s1.rnc\"\ninsert 0 \"<doc id='a'><title/><foo><em>x</em></foo></doc>\"\nerrors\n",
        "errors: 1\n20-25 Unknown foo\n",
        Status::Done,
    ),
    (
        RUN,
        "schema \"s1.rnc\"\ninsert 0 \"<doc><title/></doc>\"\nerrors\n",
        "errors: 1\n0-5 MissingAttributes id\n",
        Status::Done,
    ),
    (
        RUN,
        "schema \"s1.rnc\"\ninsert 0 \"<doc id='1a'><title/></doc>\"\nerrors\n",
        "errors: 1\n9-11 BadValue id\n",
        Status::Done,
    ),
    (
        RUN,
        "schema \"s1.rnc\"\ninsert 0 \"<doc id='a'><title>T</doc>\"\nerrors\n",
        "errors: 1\n20-26 MissingEnd title\n",
        Status::Done,
    ),
    (
        RUN,
        "schema \"e.rnc\"\ninsert 0 \"<n> </n>\"\nerrors\ndelete 3 4\nerrors\n",
        "errors: 1\n3-4 TextNotAllowed\nerrors: 0\n",
        Status::Done,
    ),
    (
        RUN,
        "schema \"a.rnc\"\ninsert 0 \"<a> <b/> </a>\"\nerrors\n",
        "errors: 1\n4-8 Unknown b\n",
        Status::Done,
    ),
    (
        RUN,
        "schema \"e.rnc\"\nschema \"n.rnc\"\ninsert 0 \"<n></n>\"\nerrors\n",
        "line 2 refused: Unreadable NothingValid\nerrors: 0\n",
        Status::Refused,
    ),
    (
        RUN,
        "schema \"s1.rnc\"\ninsert 0 \"<doc id='a'><title>T</title></doc>\"\nerrors\ninsert 20 \"]]>\"\nerrors\n",
        "errors: 0\nerrors: 1\n20-23 BadText\n",
        Status::Done,
    ),
    (
        RUN,
        "schema \"u.rnc\"\ninsert 0 \"<a xmlns='u'><b/><b/></a>\"\nerrors\ndelete 10 11\ninsert 10 \"v\"\nslice 1\nslice 1\nslice 1\nerrors\n",
        "errors: 0\nfrontier 13 of 25\nfrontier 17 of 25\nfrontier 21 of 25\nerrors: 1\n0-13 Unknown {v}a\n",
        Status::Done,
    ),
    (
        RUN,
        "schema \"mixed.rnc\"\nschema \"sides.rnc\"\ninsert 0 \"<r><c/></r>\"\nerrors\n",
        "line 1 refused: Unreadable Syntax\nerrors: 0\n",
        Status::Refused,
    ),
    (
        RUN,
        "schema \"any.rnc\"\n",
        "line 1 refused: Unreadable InterleaveOverlap\n",
        Status::Refused,
    ),
    (
        RUN,
        "schema \"s1.rnc\"\ninsert 0 \"<doc id='a'><title>T\"\nerrors\n",
        "errors: 2\n20-20 UnclosedElement title\n20-20 UnclosedElement doc\n",
        Status::Done,
    ),
    (
        RUN,
        "schema \"s1.rnc\"\ninsert 0 \"<doc id='a'><!-- x\"\nerrors\n",
        "errors: 3\n12-18 Unclosed\n18-18 UnclosedElement doc\n18-18 Incomplete doc needs title\n",
        Status::Done,
    ),
    (
        RUN,
        "schema \"s1.rnc\"\ninsert 0 \"<doc id='a'><title/><em>x</em></doc>\"\nerrors\n",
        "errors: 1\n20-24 NotAllowed em\n",
        Status::Done,
    ),
    (
        RUN,
        "schema \"s1.rnc\"\ninsert 0 \"<doc id='a'>x<title/></doc>\"\nerrors\n",
        "errors: 1\n12-13 TextNotAllowed\n",
        Status::Done,
    ),
    (
        RUN,
        "schema \"s1.rnc\"\ninsert 0 \"<?xml version=\\\"1.0\\\" encoding=\\\"UTF-8\\\"?>\\n<?xml-stylesheet type='text/css' href='s.css'?>\\n<!-- c -->\\n<doc id='a'>\\n  <title>A &amp; B</title>\\n  <para>x &#233; <![CDATA[<y>]]></para>\\n</doc>\\n\"\nerrors\n",
        "errors: 0\n",
        Status::Done,
    ),
    (
        RUN,
        "schema \"five.rnc\"\ninsert 0 \"<n> +007 </n>\"\nerrors\ndelete 3 9\ninsert 3 \"4\"\nerrors\n",
        "errors: 0\nerrors: 1\n3-4 BadValue\n",
        Status::Done,
    ),
    (
        RUN,
        "schema \"five.rnc\"\ninsert 0 \"<n> </n>\"\nerrors\n",
        "errors: 1\n4-8 Incomplete n\n",
        Status::Done,
    ),
    (
        RUN,
        "schema \"ahead.rnc\"\ninsert 0 \"<n>2002-10-09-11:00</n>\"\nerrors\ndelete 13 19\nerrors\n",
        "errors: 0\nerrors: 1\n3-13 BadValue\n",
        Status::Done,
    ),
    (
        RUN,
        "schema \"date.rnc\"\ninsert 0 \"<n>2023-02-29</n>\"\nerrors\n",
        "errors: 1\n3-13 BadValue\n",
        Status::Done,
    ),
    (
        RUN,
        "schema \"midnight.rnc\"\ninsert 0 \"<n>2001-01-01T01:00:00.0+01:00</n>\"\nerrors\n",
        "errors: 0\n",
        Status::Done,
    ),
    (
        RUN,
        "schema \"octet.rnc\"\ninsert 0 \"<n>QQ==</n>\"\nerrors\n",
        "errors: 0\n",
        Status::Done,
    ),
    (
        RUN,
        "schema \"octet.rnc\"\ninsert 0 \"<n>QR==</n>\"\nerrors\n",
        "errors: 1\n3-7 BadValue\n",
        Status::Done,
    ),
    (
        RUN,
        "schema \"nothing.rnc\"\nerrors\n",
        "line 1 refused: Unreadable NothingValid\nerrors: 1\n0-0 NoRoot\n",
        Status::Refused,
    ),
    (
        RUN,
        "schema \"xy.rnc\"\ninsert 0 \"<a y='1' x='2'/>\"\nerrors\n",
        "errors: 0\n",
        Status::Done,
    ),
    (
        RUN,
        "schema \"xy.rnc\"\ninsert 0 \"<a y='1' x='2'></a>\"\nerrors\n",
        "errors: 0\n",
        Status::Done,
    ),
    (
        RUN,
        "schema \"true.rnc\"\ninsert 0 \"<b>1</b>\"\nerrors\ninsert 4 \"1\"\nerrors\n",
        "errors: 0\nerrors: 1\n3-5 BadValue\n",
        Status::Done,
    ),
    (
        RUN,
        "insert 0 \"<a><b/></a>\"\nschema \"a.rnc\"\nslice 2\nstats\nschema none\nslice 1\nschema \"a.rnc\"\nstats\nerrors\nschema none\nerrors\n",
        "frontier 7 of 11\ntaken 2\nfrontier 3 of 11\ntaken 0\nerrors: 1\n3-7 Unknown b\nerrors: 0\n",
        Status::Done,
    ),
    (
        RUN,
        "schema \"a.rnc\"\nschema \"http://[\"\nschema \"none.rnc\"\nschema \"b.xml\"\nschema \"gone.rnc\"\nschema \"d.xml\"\ninsert 0 \"<n/>\"\nerrors\n",
        "line 2 refused: BadUri\nline 3 refused: Absent file:///work/none.rnc\nline 4 refused: NotUtf8 file:///work/b.xml 3\nline 5 refused: BadUri\nline 6 refused: Unreadable BadForm\nerrors: 1\n0-4 Unknown n\n",
        Status::Refused,
    ),
    (
        RUN,
        "schema auto\nschema \"m.rnc\"\ninsert 0 \"<doc id='a'><title/></doc>\"\nerrors\n",
        "schema none\nerrors: 0\n",
        Status::Done,
    ),
    (
        RUN,
        "schema \"long.rnc\"\ninsert 0 \"<abcdefghijklmno><abcdefghijklmnop><abcdefghijklmnopq abcdefghijklmnopq='a longer value'><b/>\
</abcdefghijklmnopq><abcdefghijklmnopq abcdefghijklmnopq='on'><b/></abcdefghijklmnopq></abcdefghijklmnop></abcdefghijklmno>\"\nerrors\n",
        "errors: 0\n",
        Status::Done,
    ),
    (
        RUN,
        "schema \"long.rnc\"\ninsert 0 \"<abcdefghijklmno><abcdefghijklmnop><abcdefghijklmnopq abcdefghijklmnopq='on'>\
</abcdefghijklmnopq></abcdefghijklmnop></abcdefghijklmno>\"\nerrors\n",
        "errors: 1\n77-97 Incomplete abcdefghijklmnopq needs b\n",
        Status::Done,
    ),
    (
        RUN,
        "schema \"long.rnc\"\ninsert 0 \"<abcdefghijklmno><abcdefghijklmnopq abcdefghijklmnopq='on'>\
</abcdefghijklmnopq></abcdefghijklmno>\"\nerrors\n",
        "errors: 3\n17-59 NotAllowed abcdefghijklmnopq\n59-79 Incomplete abcdefghijklmnopq needs b\n79-97 Incomplete abcdefghijklmno needs abcdefghijklmnop\n",
        Status::Done,
    ),
    (
        RUN,
        "schema \"either.rnc\"\ninsert 0 \"<a></a>\"\nerrors\n",
        "errors: 1\n3-7 Incomplete a\n",
        Status::Done,
    ),
    (
        RUN,
        "schema \"row.rnc\"\ninsert 0 \"<a><e/></a>\"\nerrors\n",
        "errors: 1\n3-7 NotYet e needs b d\n",
        Status::Done,
    ),
    (
        RUN,
        "schema \"s1.rng\"\ninsert 0 \"<doc><title/></doc>\"\nerrors\n",
        "errors: 1\n0-5 MissingAttributes id\n",
        Status::Done,
    ),
    (
        RUN,
        "schema \"bogus.rng\"\n",
        "line 1 refused: Unreadable BadForm\n",
        Status::Refused,
    ),
    (
        RUN,
        "schema \"cut.rng\"\n",
        "line 1 refused: Unreadable BadMarkup\n",
        Status::Refused,
    ),
    (
        RUN,
        "schema \"m.rng\"\ninsert 0 \"<doc id='1a'><title/><para/></doc>\"\nerrors\n",
        "errors: 1\n9-11 BadValue id\n",
        Status::Done,
    ),
    (
        RUN,
        "schema \"both.rnc\"\ninsert 0 \"<doc id='a'><title/><para/></doc>\"\nerrors\n",
        "errors: 1\n20-27 Unknown para\n",
        Status::Done,
    ),
    (
        &["--schema", "s1.rng", "run.nxs"],
        "schema \"bogus.rng\"\ninsert 0 \"<doc id='a'><title/></doc>\"\nerrors\n",
        "line 1 refused: Unreadable BadForm\nerrors: 0\n",
        Status::Refused,
    ),
];

/// Carets that go from place to place, views that are asked, and large documents that are made.
pub(crate) const WALKED: [Row; 9] = [
    (
        RUN,
        "insert 0 \"<a><b/>t<c>u</c></a>\"\ngoto 3\nmove forward\nmove forward\nmove forward\nmove up\nmove backward\nmove down\nmove back-up\n",
        "caret 7\ncaret 16\nstay\ncaret 20\ncaret 0\ncaret 3\ncaret 0\n",
        Status::Done,
    ),
    (
        RUN,
        "errors\nview 0\nclose 0\nerrors\nview 1\nview 0",
        "errors: 1\n0-0 NoRoot\nview 0: 1\n0-0 NoRoot\nerrors: 1\n0-0 NoRoot\nline 5 refused: NoView 1\nview 0: 1\n0-0 NoRoot\n",
        Status::Refused,
    ),
    (
        RUN,
        "insert 0 \"e\\u{301}x\"\nnext\nwhere\nnext\nnext\nprevious\n",
        "caret 3\nline 1 column 1\ncaret 4\nstay\ncaret 3\n",
        Status::Done,
    ),
    (
        RUN,
        "insert 0 \"é\\n一x\"\ngoto 1\ngoto 6\nwhere\nprevious\nprevious\nprevious\nprevious\n",
        "line 2 refused: BadPosition 1 7\nline 2 column 2\ncaret 3\ncaret 2\ncaret 0\nstay\n",
        Status::Refused,
    ),
    (
        RUN,
        "insert 0 \"<a>\"\nerrors\ninsert 0 \"  \"\nview 0\n",
        "errors: 1\n3-3 UnclosedElement a\nview 0: 1\n5-5 UnclosedElement a\n",
        Status::Done,
    ),
    (
        RUN,
        "errors\nopen \"run.nxs\"\nview 1\nmake 0 0\nview 1\nclose 2\nclose 1\nview 1\nerrors\nview 1\n",
        "errors: 1\n0-0 NoRoot\nview 1: 1\n82-82 NoRoot\nview 1: 1\n34-34 NoRoot\nline 6 refused: NoView 2\nview 1: 1\n34-34 NoRoot\nerrors: 0\nline 10 refused: NoView 1\n",
        Status::Refused,
    ),
    (
        RUN,
        "make 7 1\nprint\n",
        "<doc id='g'><title>7</title><!--0--><para>w<em>1282168116</em></para>\n</doc>\n",
        Status::Done,
    ),
    (
        RUN,
        "make 0 2\ndelete 0 28\nprint\nmake 2147483648 1\n",
        "<!--0--><para>w<em>12345</em></para>\n<para>w<em>1406932606</em></para>\n</doc>\nline 4 refused: BadCommand\n",
        Status::Refused,
    ),
    (
        RUN,
        "make 7 2000\nschema \"s1.rnc\"\nerrors\n",
        "errors: 0\n",
        Status::Done,
    ),
];

/// What may stand at places.
pub(crate) const COMPLETED: [Row; 11] = [
    (
        RUN,
        "schema \"s1.rnc\"\ninsert 0 \"<doc id='a'><\"\ncomplete 13\ninsert 12 \"<title/>\"\ncomplete 21\ninsert 21 \"/\"\ncomplete 22\ncomplete 2\n",
        "offers: 1\nname title\noffers: 1\nname para\noffers: 1\nend doc\noffers: 1\nname doc\n",
        Status::Done,
    ),
    (
        RUN,
        "schema \"endless.rnc\"\ninsert 0 \"<a><\"\ncomplete 4\ninsert 4 \"/\"\ncomplete 5\n",
        "offers: 0\noffers: 1\nend a\n",
        Status::Done,
    ),
    (
        RUN,
        "schema \"s1.rnc\"\ninsert 0 \"<doc \"\ncomplete 5\n",
        "offers: 1\nname id\n",
        Status::Done,
    ),
    (
        RUN,
        "schema \"on.rnc\"\ninsert 0 \"<a x='\"\ncomplete 6\n",
        "offers: 2\nvalue off\nvalue on\n",
        Status::Done,
    ),
    (
        RUN,
        "schema \"star.rnc\"\ninsert 0 \"<\"\ncomplete 1\n",
        "offers: 1\nany-else\n",
        Status::Done,
    ),
    (
        RUN,
        "schema \"others.rnc\"\ninsert 0 \"<\"\ncomplete 1\n",
        "offers: 1\nany-in u\n",
        Status::Done,
    ),
    (
        RUN,
        "schema \"s1.rnc\"\ninsert 0 \"<doc id='a'>x\"\ncomplete 13\ncomplete 0\n",
        "offers: none\noffers: none\n",
        Status::Done,
    ),
    (
        RUN,
        "insert 0 \"é<\"\ncomplete 3\ncomplete 1\nschema \"s1.rnc\"\ncomplete 4\nschema none\ncomplete 999999999999999999\n",
        "offers: none\nline 3 refused: BadPosition 1 3\nline 5 refused: BadPosition 4 3\nline 7 refused: BadPosition 999999999999999999 3\n",
        Status::Refused,
    ),
    (
        RUN,
        "schema \"s1.rnc\"\ninsert 0 \"<doc id='a'><title/><foo><\"\ncomplete 26\ncomplete 21\ncomplete 11\n",
        "offers: none\noffers: 1\nname para\noffers: none\n",
        Status::Done,
    ),
    (
        RUN,
        "schema \"xy.rnc\"\ninsert 0 \"<a y='1' \"\ncomplete 9\ncomplete 3\n",
        "offers: 1\nname x\noffers: 2\nname x\nname y\n",
        Status::Done,
    ),
    (
        RUN,
        "schema \"b.rnc\"\ninsert 0 \"<a><b/><b/><b/><b/><b/><b/><b/><b/><b/><b/><b/><b/><b/><b/><b/><b/><b/><b/><b/>\
         <b/><b/><b/><b/><b/><b/><b/><b/><b/><b/><b/><b/><b/><b/><b/><b/><b/><b/><b/></a>\"\ncomplete 157\nerrors\ncomplete 157\ncomplete 156\n\
         insert 71 \"<!--x-->\"\ncomplete 165\ncomplete 5\ngoto 3\ninsert 3 \"<\"\ncomplete 4\n",
        "offers: 1\nend a\nerrors: 0\noffers: 1\nend a\noffers: 1\nname b\noffers: 1\nend a\noffers: 1\nname b\noffers: 1\nname b\n",
        Status::Done,
    ),
];

/// Commands on tags.
pub(crate) const TAGGED: [Row; 7] = [
    (
        RUN,
        "insert 0 \"<a>é</a>\"\nfinish 4\npair 10 \"b\"\npair 3 \"a:b:c\"\ngoto 5\npair 5 \"p:q\"\nrename 0 \"long\"\nprint\nwhere\n",
        "line 2 refused: BadPosition 4 9\nline 3 refused: BadPosition 10 9\nline 4 refused: BadCommand\n<long>é<p:q></p:q></long>\nline 1 column 7\n",
        Status::Refused,
    ),
    (
        RUN,
        "insert 0 \"<a>x&lt;y</a>\"\nfinish 0\nfinish 2\nfinish 6\nfinish 13\nfinish 8\nprint\n",
        "stay\nstay\nstay\nstay\n<a>x&lt;</a>y</a>\n",
        Status::Done,
    ),
    (
        RUN,
        "insert 0 \"<a><b c<!-- x\"\nfinish 7\npair 7 \"b\"\nfinish 13\nfinish 3\nprint\n",
        "stay\nstay\nstay\n<a></a><b c<!-- x\n",
        Status::Done,
    ),
    (
        RUN,
        "insert 0 \"<a>x\\r\\ny]]</a>\"\npair 5 \"b\"\nsplit 5\nfinish 5\npair 4 \"b\"\nprint\n",
        "stay\nstay\nstay\n<a>x<b></b>\r\ny]]</a>\n",
        Status::Done,
    ),
    (
        RUN,
        "insert 0 \"<a xmlns:p='u'><p:b c='1'>xy</p:b><d xmlns='v'>z</d></a>\"\nsplit 14\nsplit 15\nsplit 47\nsplit 27\nprint\nerrors\n",
        "stay\nstay\nstay\n<a xmlns:p='u'><p:b c='1'>x</p:b><p:b>y</p:b><d xmlns='v'>z</d></a>\nerrors: 0\n",
        Status::Done,
    ),
    (
        RUN,
        "insert 0 \"<a><b></a><c></d></c><e/><f></f>\"\nrename 0 \"x\"\nrename 3 \"x\"\nrename 6 \"x\"\nrename 10 \"x\"\nrename 11 \"x\"\nrename 21 \"x\"\nrename 25 \"long\"\nprint\n",
        "stay\nstay\nstay\nstay\nstay\n<a><b></a><c></d></c><x/><long></long>\n",
        Status::Done,
    ),
    (
        RUN,
        "insert 0 \"<a xmlns='u' xmlns:p='u'><b>x</b></a>\"\nerrors\nrename 25 \"p:b\"\nrename 0 \"p:a\"\nprint\nerrors\nrename 27 \"q:b\"\nerrors\n",
        "errors: 0\n<p:a xmlns='u' xmlns:p='u'><p:b>x</p:b></p:a>\nerrors: 0\nerrors: 1\n27-32 UndeclaredPrefix q\n",
        Status::Done,
    ),
];

/// Edits of what was read, and how many tokens are read again: by hand, marks stand behind each sixteenth tag.
pub(crate) const MARKED: [Row; 6] = [
    (
        RUN,
        "make 7 20000\nschema \"s1.rnc\"\nerrors\ninsert 32 \"x\"\nerrors\nstats\n",
        "errors: 0\nerrors: 0\ntaken 27\n",
        Status::Done,
    ),
    (
        RUN,
        "make 7 20000\nschema \"s1.rnc\"\nerrors\ninsert 19 \"x\"\nerrors\nstats\n",
        "errors: 0\nerrors: 0\ntaken 27\n",
        Status::Done,
    ),
    (
        RUN,
        "schema \"b.rnc\"\ninsert 0 \"<a><b/><b/><b/><b/><b/><b/><b/><b/><b/><b/><b/><b/><b/><b/><b/><b/><b/><b/><b/><b/>\
         <b/><b/><b/><b/><b/><b/><b/><b/><b/><b/><b/><b/><b/><b/><b/><b/><b/><b/><b/><b/></a>\"\nerrors\nstats\n\
         insert 71 \"<!--x-->\"\nerrors\nstats\ninsert 2 \" xmlns:q='u'\"\nerrors\nstats\n",
        "errors: 0\ntaken 42\nerrors: 0\ntaken 17\nerrors: 0\ntaken 43\n",
        Status::Done,
    ),
    (
        RUN,
        "schema \"b.rnc\"\ninsert 0 \"<a><b/><b/><b/><b/><b/><b/><b/><b/><b/><b/><b/><b/><b/><b/><b/><b/><b/><b/><b/><b/>\
         <b/><b/><b/><b/><b/><b/><b/><b/><b/><b/><b/><b/><b/><b/><b/><b/><b/><b/><b/><b/>xyz\"\nerrors\n\
         insert 71 \"<!--x-->\"\nerrors\nstats\n",
        "errors: 2\n163-166 TextNotAllowed\n166-166 UnclosedElement a\nerrors: 2\n171-174 TextNotAllowed\n174-174 UnclosedElement a\ntaken 17\n",
        Status::Done,
    ),
    (
        RUN,
        "schema \"l.rnc\"\ninsert 0 \"<abcdefghijklmnopq><b/><b/><b/><b/><b/><b/><b/><b/><b/><b/><b/><b/><b/><b/><b/><b/><b/><b/><b/><b/>\
         <b/><b/><b/><b/><b/><b/><b/><b/><b/><b/><b/><b/><b/><b/><b/><b/><b/><b/><b/><b/></abcdefghijklmnopq>\"\nerrors\nstats\n\
         insert 87 \"<!--x-->\"\nerrors\nstats\n",
        "errors: 0\ntaken 42\nerrors: 0\ntaken 17\n",
        Status::Done,
    ),
    (
        RUN,
        "insert 0 \"<abcdefghijklmnopq><b/><b/><b/><b/><b/><b/><b/><b/><b/><b/><b/><b/><b/><b/><b/><b/><b/><b/><b/><b/>\
         <b/><b/><b/><b/><b/><b/><b/><b/><b/><b/><b/><b/><b/><b/><b/><b/><b/><b/><b/><b/></abcdefghijklmnopq>\"\nerrors\n\
         delete 17 18\nerrors\nstats\n",
        "errors: 0\nerrors: 2\n178-198 ExtraEnd abcdefghijklmnopq\n198-198 UnclosedElement abcdefghijklmnop\ntaken 42\n",
        Status::Done,
    ),
];

/// Words with options, and schemas that are located by rules.
pub(crate) const ASKED: [Row; 17] = [
    (
        &["--schema=s1.rnc", "run.nxs"],
        "errors\n",
        "errors: 1\n0-0 NoRoot\n",
        Status::Done,
    ),
    (
        &["run.nxs", "--schema", "none.rnc"],
        "",
        "line 0 refused: Absent file:///work/none.rnc\n",
        Status::Refused,
    ),
    (
        &["--rules", "r.xml", "--schema", "s1.rnc", "--", "run.nxs"],
        "insert 0 \"<foo/>\"\nerrors\nschema none\nerrors\nerase",
        "errors: 1\n0-6 Unknown foo\nerrors: 0\nline 5 refused: BadCommand\n",
        Status::Refused,
    ),
    (
        &["run.nxs", "--schema=http://["],
        "insert 0 \"<foo/>\"\nerrors\nprint 1\n",
        "line 0 refused: BadUri\nerrors: 0\nline 3 refused: BadCommand\n",
        Status::Refused,
    ),
    (
        &["--schema=n.rnc", "run.nxs"],
        "stats\n",
        "line 0 refused: Unreadable NothingValid\ntaken 0\n",
        Status::Refused,
    ),
    (
        &["run.nxs", "--rules=http://["],
        "stats\n",
        "taken 0\n",
        Status::Done,
    ),
    (
        &["--rules", "r.xml", "run.nxs"],
        "schema auto\n",
        "line 1 refused: BadRules Loop file:///work/r.xml\n",
        Status::Refused,
    ),
    (
        &["--rules", "d/schemas.xml", "run.nxs"],
        "open \"d/book.xml\"\nschema auto\nerrors\n",
        "schema file:///work/d/docbook.rnc\nerrors: 0\n",
        Status::Done,
    ),
    (
        &["--rules", "d/schemas.xml", "run.nxs"],
        "open \"own.xml\"\nschema auto\ninsert 1 \"x\"\nerrors\n",
        "schema file:///work/own.rnc\nerrors: 1\n0-7 Unknown xown\n",
        Status::Done,
    ),
    (
        &["--rules", "d/schemas.xml", "run.nxs"],
        "schema \"own.rnc\"\nschema auto\ninsert 0 \"<x/>\"\nerrors\n",
        "schema none\nerrors: 0\n",
        Status::Done,
    ),
    (
        &["--rules", "e/schemas.xml", "run.nxs"],
        "open \"e/page.xml\"\nschema auto\nerrors\nopen \"e/page.rng\"\nschema auto\nerrors\n",
        "schema file:///work/e/page.rng\nerrors: 0\n\
         schema file:///work/m.rng\nerrors: 1\n0-65 Unknown {http://relaxng.org/ns/structure/1.0}element\n",
        Status::Done,
    ),
    (
        &["--rules", "none.xml", "run.nxs"],
        "schema auto\n",
        "line 1 refused: BadRules Absent file:///work/none.xml\n",
        Status::Refused,
    ),
    (
        &["--rules", "b.xml", "run.nxs"],
        "schema auto\n",
        "line 1 refused: BadRules NotUtf8 file:///work/b.xml\n",
        Status::Refused,
    ),
    (
        &["--rules", "own.xml", "run.nxs"],
        "schema auto\n",
        "line 1 refused: BadRules Malformed file:///work/own.xml\n",
        Status::Refused,
    ),
    (
        &["--rules=http://[", "run.nxs"],
        "schema \"own.rnc\"\nschema auto\ninsert 0 \"<x/>\"\nerrors\n",
        "line 2 refused: BadUri\nerrors: 1\n0-4 Unknown x\n",
        Status::Refused,
    ),
    (
        &["--rules", "gone.xml", "run.nxs"],
        "schema \"own.rnc\"\nschema auto\ninsert 0 \"<x/>\"\nerrors\n",
        "line 2 refused: Absent file:///work/none.rnc\nerrors: 1\n0-4 Unknown x\n",
        Status::Refused,
    ),
    (
        &["--rules", "bad.xml", "run.nxs"],
        "schema auto\n",
        "line 1 refused: BadUri\n",
        Status::Refused,
    ),
];

/// Words that name no script that can be read, and what is printed. The script that is there is no text.
pub(crate) const MISNAMED: [(&[&str], &str, Status); 10] = [
    (&[], USAGE_LINE, Status::Words),
    (&["--help"], USAGE_LINE, Status::Words),
    (&["run.nxs", "more"], USAGE_LINE, Status::Words),
    (&[""], USAGE_LINE, Status::Words),
    (&["--rules"], USAGE_LINE, Status::Words),
    (
        &["--schema", "a", "--schema", "b", "run.nxs"],
        USAGE_LINE,
        Status::Words,
    ),
    (
        &["--", "-x.nxs"],
        "script refused: Absent\n",
        Status::Script,
    ),
    (&["none.nxs"], "script refused: Absent\n", Status::Script),
    (&["http://["], "script refused: BadUri\n", Status::Script),
    (&["run.nxs"], "script refused: NotUtf8 3\n", Status::Script),
];

/// The bytes of that script.
pub(crate) const NO_TEXT: &[u8] = b"p\xE2\x82";

const USAGE_LINE: &str = "usage: nxml [--schema URI] [--rules URI] SCRIPT\n";
