//! Texts by their tokens, and what they give.

/// The faults of texts.
pub(crate) const FAULTS: [(&str, &str); 46] = [
    ("s<a>|s<b>|e</a>", "6-10 MissingEnd b;"),
    (
        "s<a>|s<b>|s<c>|e</a>",
        "9-13 MissingEnd c;9-13 MissingEnd b;",
    ),
    (
        "s<a x='1' x='2'>|t&nbsp;|e</a>",
        "9-14 DuplicateAttribute x;15-21 BadReference ;",
    ),
    ("s<a>|b<b |e</a>", "3-6 BadMarkup ;"),
    ("b</|m<a/>", "0-2 BadMarkup ;"),
    ("m<a/>|m<b/>", "4-8 SecondRoot b;"),
    ("m<a/>|s<b>|tx|m<c/>|e</b>", "4-7 SecondRoot b;"),
    ("m<p:a/>", "0-6 UndeclaredPrefix p;"),
    ("", "0-0 NoRoot ;"),
    ("c<!---->", "7-7 NoRoot ;"),
    ("s<a>|u<!-- x", "3-9 Unclosed ;9-9 UnclosedElement a;"),
    ("m<a/>|u<![CDATA[ x", "4-15 Unclosed ;"),
    (
        "s<a>|s<b>|tT",
        "7-7 UnclosedElement b;7-7 UnclosedElement a;",
    ),
    ("s<a>|t\u{1}\u{2}|e</a>", "3-4 BadChar ;"),
    ("s<a>|tx\u{ffff}y|e</a>", "4-7 BadChar ;"),
    (
        "m<a x='&#0;&#xD800;&#110000000;'/>",
        "6-10 BadReference ;10-18 BadReference ;18-30 BadReference ;",
    ),
    (
        "s<a>|t&x &#; & &;|e</a>",
        "3-4 BadReference ;6-7 BadReference ;10-11 BadReference ;12-13 BadReference ;",
    ),
    ("s<a>|t]]]>]]>|e</a>", "4-7 BadText ;"),
    ("s<a>|t]]|c<!---->|t>]]>|e</a>", "13-16 BadText ;"),
    ("c<!-- a--b -->|m<a/>", "0-13 BadComment ;"),
    ("c<!--a--->|m<a/>", "0-9 BadComment ;"),
    (
        "p<?xMl?>|p<??>|p<?a:b?>|p<?a+?>|p<?a?>|m<a/>",
        "0-7 BadPi ;7-11 BadPi ;11-18 BadPi ;18-24 BadPi ;",
    ),
    ("x<?xml version='2.0'?>|m<a/>", "0-21 BadDecl ;"),
    (
        "x<?xml version='1.0' standalone='no' encoding='UTF-8'?>|m<a/>",
        "0-54 BadDecl ;",
    ),
    (
        "x<?xml version = \"1.1\" encoding='us-ascii' standalone='yes' ?>|m<a/>",
        "",
    ),
    (
        "c<!---->|x<?xml version='1.0'?>|m<a/>|D<!DOCTYPE a>",
        "7-28 Misplaced ;32-44 Misplaced ;",
    ),
    (
        "tx|m<a/>|d<![CDATA[]]>|t&#32;",
        "0-1 TextOutside ;5-17 TextOutside ;17-22 TextOutside ;",
    ),
    ("m<a/>|e</a>", "4-8 ExtraEnd a;"),
    (
        "m<a:1 :b='' c:d:e='' xmlns:f:g='h'/>",
        "20-33 BadName xmlns:f:g;0-35 BadName a:1;5-10 BadName :b;11-19 BadName c:d:e;",
    ),
    (
        "m<a b:c='' xmlns:b='u' xmlns:d='u' d:c=''/>",
        "34-40 DuplicateAttribute d:c;",
    ),
    ("s<a xmlns:b='u'>|e</a>|m<b:a/>", "19-25 SecondRoot b:a;"),
    (
        "s<a xmlns:p='u'>|m<p:b xmlns:p=''/>|e</a>",
        "20-30 BadBinding xmlns:p;",
    ),
    (
        "m<xmlns:a xml:b='' xmlns:xml='u' xmlns:c='http://www.w3.org/XML/1998/namespace' xmlns='http://www.w3.org/2000/xmlns/'/>",
        "18-31 BadBinding xmlns:xml;32-78 BadBinding xmlns:c;79-116 BadBinding xmlns;0-118 UndeclaredPrefix xmlns;",
    ),
    ("B\u{feff}|x<?xml version='1.0'?>|m<a/>", ""),
    ("D<!DOCTYPE a>|D<!DOCTYPE a>|m<a/>", "12-24 Misplaced ;"),
    ("s<a>|e</b>|e</a>", "3-7 ExtraEnd b;"),
    (
        "m<a p:x='1' q:y=''/>",
        "3-10 UndeclaredPrefix p;11-17 UndeclaredPrefix q;",
    ),
    (
        "c<!--\u{1}-->|p<?a \u{2}?>|m<a x='\u{3}'/>",
        "4-5 BadChar ;12-13 BadChar ;21-22 BadChar ;",
    ),
    (
        "x<?xml version='1.0' encoding='UTF-16'?>|m<a/>",
        "0-39 BadDecl ;",
    ),
    (
        "m<a xmlns:p='u' xmlns:p='v' xmlns:xmlns='u'/>",
        "15-26 DuplicateAttribute xmlns:p;27-42 BadBinding xmlns:xmlns;",
    ),
    // Names of 15, 16 and 17 bytes.
    (
        "s<abcdefghijklmno>|s<abcdefghijklmnop>|s<abcdefghijklmnopq>|tT",
        "55-55 UnclosedElement abcdefghijklmnopq;55-55 UnclosedElement abcdefghijklmnop;55-55 UnclosedElement abcdefghijklmno;",
    ),
    (
        "s<abcdefghijklmnop>|s<abcdefghijklmnopq>|e</abcdefghijklmnop>",
        "37-56 MissingEnd abcdefghijklmnopq;",
    ),
    (
        "s<a>|s<b>|e</b>|s<abcdefghijklmnopq>|e</abcdefghijklmnopq>|s<c>|e</a>",
        "52-56 MissingEnd c;",
    ),
    (
        "m<a abcdefghijklmno='' abcdefghijklmnop='' abcdefghijklmnopq='' abcdefghijklmnopq=''/>",
        "63-83 DuplicateAttribute abcdefghijklmnopq;",
    ),
    (
        "m<a xmlns:abcdefghijklmnopq=''/>",
        "3-29 BadBinding xmlns:abcdefghijklmnopq;",
    ),
    (
        "m<abcdefghijklmnopq:a/>",
        "0-22 UndeclaredPrefix abcdefghijklmnopq;",
    ),
];

/// All items of texts.
pub(crate) const EVENTS: [(&str, &str); 6] = [
    (
        "s<p:a xmlns:p='u' x='1' p:x=\"a &lt; b\tc\">|ta&#65;\r\nb|c<!---->|d<![CDATA[&\r]]>|e</p:a>",
        "0-40 Enter {u}a;20-21 Att {}x=1;28-38 Att {u}x=a < b c;0-40 TagEnd;40-70 Chars aA\nb&\n;70-76 Leave;",
    ),
    (
        "s<a xmlns='u'>|s<b xmlns=''>|m<c/>|e</b>|m<d/>|e</a>",
        "0-13 Enter {u}a;0-13 TagEnd;13-25 Enter {}b;13-25 TagEnd;25-29 Enter {}c;25-29 TagEnd;25-29 Leave;29-33 Leave;33-37 Enter {u}d;33-37 TagEnd;33-37 Leave;37-41 Leave;",
    ),
    (
        "m<a x='1\r\n2&#13;&#10;3\r4'/>",
        "0-26 Enter {}a;6-23 Att {}x=1 2\r\n3 4;0-26 TagEnd;0-26 Leave;",
    ),
    (
        "s<a>|tx|e</b>|ty|e</a>",
        "0-3 Enter {}a;0-3 TagEnd;4-8 ExtraEnd b;3-9 Chars xy;9-13 Leave;",
    ),
    (
        "s<a>|tx|s<b q:c='&d;' xmlns:q=''>|e</a>|s<c>",
        "0-3 Enter {}a;0-3 TagEnd;3-4 Chars x;12-15 BadReference ;17-27 BadBinding xmlns:q;4-28 Enter {}b;7-16 UndeclaredPrefix q;4-28 TagEnd;28-32 MissingEnd b;28-32 Leave;28-32 Leave;32-35 SecondRoot c;32-35 EnterLost;32-35 TagEnd;35-35 UnclosedElement c;35-35 Leave;",
    ),
    (
        "m<abcdefghijklmnopq:a xmlns:abcdefghijklmnopq='u' abcdefghijklmnopq:b=''/>",
        "0-73 Enter {u}a;70-70 Att {u}b=;0-73 TagEnd;0-73 Leave;",
    ),
];

/// How many elements are open behind tokens, whether a run is pending, and its string.
pub(crate) const STATES: [(&str, &str); 11] = [
    ("", "0"),
    ("s<a>", "1"),
    ("s<a>|tx", "1 pending x"),
    ("s<a>|tx|c<!--y-->|d<![CDATA[z&]]>", "1 pending xz&"),
    ("s<a>|tx&#33;|e</b>", "1 pending x!"),
    ("s<a>|d<![CDATA[]]>", "1 pending"),
    ("s<a>|t&no;", "1 pending"),
    ("s<a>|tx|s<b>", "2"),
    ("s<a>|s<b>|tx|e</a>", "0"),
    ("s<a>|tx|m<b/>", "1"),
    ("tx|m<a/>|ty", "0"),
];

/// Tokens behind which the same is known, and others.
pub(crate) const SAME: [(&str, &str); 7] = [
    ("s<a>", "s<a >"),
    ("s<a>|tx|s<b>", "s<a>|s<b>"),
    ("s<a>|tx", "s<a >|tx"),
    ("c<!---->", "p<?a?>"),
    (
        "s<a>|s<b>",
        "s<a>|s<abcdefghijklmnopq>|e</abcdefghijklmnopq>|s<b>",
    ),
    (
        "s<a>|s<abcdefghijklmnopq>|e</abcdefghijklmnopq>|s<b>",
        "s<a>|s<b>",
    ),
    (
        "s<abcdefghijklmnop>|s<abcdefghijklmnopq>",
        "s<abcdefghijklmnop >|s<abcdefghijklmnopq >",
    ),
];

pub(crate) const OTHER: [(&str, &str); 11] = [
    ("s<a>", "s<b>"),
    ("s<a>", "s<a>|tx"),
    ("s<a>|tx", "s<a>|ty"),
    ("s<a>|tx", "s<a>|d<![CDATA[x]]>"),
    ("s<a>|tx|c<!---->", "s<a>|tx"),
    ("s<a>", "s<a xmlns:p='u'>"),
    ("", "c<!---->"),
    ("c<!---->", "D<!DOCTYPE a>"),
    ("s<abcdefghijklmnop>", "s<abcdefghijklmnopq>"),
    ("s<abcdefghijklmnop>", "s<abcdefghijklmnoq>"),
    ("s<abcdefghijklmnopq>", "s<abcdefghijklmnopr>"),
];

/// What is being written at the end of a tag's text behind tokens, and what the tag says so far. Places are those of the tag.
pub(crate) const PREFIXES: [(&str, &str, &str); 69] = [
    ("", "<", "element"),
    ("", "<1", "element"),
    ("", "<-", "element"),
    ("", "<a", "element"),
    ("", "<p:a", "element"),
    ("", "<:", "element"),
    ("", "<\u{e9}", "element"),
    ("", "<\u{d7}", "elsewhere"),
    ("", "</", "end "),
    ("s<a>|s<p:b>", "</", "end p:b"),
    ("s<a>|s<b>|e</b>", "</x", "end a"),
    ("", "</1", "end "),
    ("s<a>", "</a ", "elsewhere"),
    ("", "</ ", "elsewhere"),
    ("", "<a ", "name 0-3 Enter {}a;"),
    ("", "<a b", "name 0-3 Enter {}a;"),
    ("", "<a \n\tb-1", "name 0-5 Enter {}a;"),
    ("", "<a 1", "name 0-3 Enter {}a;"),
    ("", "<a b ", "elsewhere"),
    ("", "<a b c", "elsewhere"),
    ("", "<a b=", "elsewhere"),
    ("", "<a b =", "elsewhere"),
    ("", "<a =", "elsewhere"),
    ("", "<a ='", "elsewhere"),
    ("", "<1 b", "elsewhere"),
    ("", "< ", "elsewhere"),
    ("", "<a b='", "value {}b 0-3 Enter {}a;"),
    ("", "<a b = \"", "value {}b 0-3 Enter {}a;"),
    ("", "<a b='x", "value {}b 0-3 Enter {}a;"),
    ("", "<a b=\"x", "value {}b 0-3 Enter {}a;"),
    ("", "<a b=\"x'", "value {}b 0-3 Enter {}a;"),
    ("", "<a b='&x", "value {}b 0-3 Enter {}a;"),
    ("", "<a b='<", "elsewhere"),
    ("", "<a b='<' c", "elsewhere"),
    ("", "<a b=x", "elsewhere"),
    ("", "<a 1='", "elsewhere"),
    ("", "<a b='x'", "elsewhere"),
    ("", "<a b='x'c", "elsewhere"),
    ("", "<a b='x'/", "elsewhere"),
    ("", "<a b='x' ", "name 0-9 Enter {}a;6-7 Att {}b=x;"),
    ("", "<a b='x' c", "name 0-9 Enter {}a;6-7 Att {}b=x;"),
    (
        "",
        "<a b='x'\tc='y'\n",
        "name 0-15 Enter {}a;6-7 Att {}b=x;12-13 Att {}c=y;",
    ),
    ("", "<a b='1' b='", "value - 0-9 Enter {}a;6-7 Att {}b=1;"),
    (
        "",
        "<a b='1' b='2' c='",
        "value {}c 0-15 Enter {}a;6-7 Att {}b=1;9-14 DuplicateAttribute b;",
    ),
    ("", "<a xmlns='u' ", "name 0-13 Enter {u}a;"),
    ("", "<a xmlns='", "value - 0-3 Enter {}a;"),
    ("", "<a xmlns:q='", "value - 0-3 Enter {}a;"),
    ("", "<a xmlns:p='u' p:b='", "value {u}b 0-15 Enter {}a;"),
    ("", "<a p:b='", "value - 0-3 Enter {}a;"),
    (
        "",
        "<a xml:b='",
        "value {http://www.w3.org/XML/1998/namespace}b 0-3 Enter {}a;",
    ),
    (
        "",
        "<p:a xmlns:p='u",
        "value - 0-5 UndeclaredPrefix p;0-5 EnterLost;",
    ),
    ("", "<p:a xmlns:p='u' ", "name 0-17 Enter {u}a;"),
    (
        "",
        "<a xmlns:p='u' xmlns:q='u' p:b='' q:b='",
        "value - 0-34 Enter {}a;32-32 Att {u}b=;",
    ),
    ("", "<a:b:c d", "name 0-7 BadName a:b:c;0-7 EnterLost;"),
    (
        "",
        "<a b='&#65;&x;' c",
        "name 11-14 BadReference ;0-16 Enter {}a;6-14 Att {}b=A;",
    ),
    (
        "",
        "<a b='\u{1}' c",
        "name 6-7 BadChar ;0-9 Enter {}a;6-7 Att {}b=\u{1};",
    ),
    (
        "",
        "<a xmlns:p='' c='",
        "value {}c 3-13 BadBinding xmlns:p;0-14 Enter {}a;",
    ),
    (
        "s<a xmlns:p='u'>",
        "<p:b p:c='",
        "value {u}c 0-5 Enter {u}b;",
    ),
    ("s<a>|tx", "<b ", "name 0-3 Enter {}b;"),
    ("m<a/>", "<b ", "name 0-3 SecondRoot b;0-3 EnterLost;"),
    ("", "<a/", "elsewhere"),
    ("", "<a /", "elsewhere"),
    ("", "<a>", "elsewhere"),
    ("", "<!", "elsewhere"),
    ("", "<!-- ", "elsewhere"),
    ("", "<![CDATA[", "elsewhere"),
    ("", "<?x", "elsewhere"),
    ("s<abcdefghijklmnopq>", "</", "end abcdefghijklmnopq"),
    (
        "",
        "<a abcdefghijklmnopq='",
        "value {}abcdefghijklmnopq 0-3 Enter {}a;",
    ),
];

/// The namespace declarations in force behind texts: of each the URI in braces, and the prefix.
pub(crate) const SCOPES: [(&str, &str); 14] = [
    ("", ""),
    ("s<a>", ""),
    ("s<a xmlns='u' x='1' xmlns:p='v'>", "{u};{v}p;"),
    ("s<a xmlns:p='v' xmlns='u'>|tx", "{v}p;{u};"),
    (
        "s<p:a xmlns:p='v'>|s<b xmlns:p='w' xmlns=''>",
        "{v}p;{w}p;{};",
    ),
    ("s<a xmlns:p='v'>|s<b xmlns:q='w'>|e</b>", "{v}p;"),
    ("s<a xmlns:p='v'>|s<b xmlns:q='w'>|s<c>|e</b>", "{v}p;"),
    ("s<a xmlns:p='v'>|m<b xmlns:q='w'/>", "{v}p;"),
    ("s<a xmlns:p='&#118;&lt;'>", "{v<}p;"),
    (
        "s<a xmlns:xml='http://www.w3.org/XML/1998/namespace' xmlns:p='v'>",
        "{v}p;",
    ),
    ("s<a xmlns:xmm='u'>|s<b xmlns:x='v'>", "{u}xmm;{v}x;"),
    ("m<a xmlns='u'/>", ""),
    ("s<a xmlns:p='v'>|e</a>", ""),
    ("s<a xmlns:p='v'>|e</a>|s<b xmlns:q='w'>", "{w}q;"),
];
