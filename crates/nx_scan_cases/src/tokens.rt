//! Texts and their tokens, cut from each border in turn.

ghost use Rattle.std.specs.Prelude.{◌≡◌, ◌<◌};

use nx_base::sequence::Bytes;
use nx_base::steps::Steps;
use nx_base::token::TokenKind::{
    Bad, Bom, Cdata, Comment, Decl, Doctype, Empty, End, Pi, Start, Unclosed,
};
use nx_base::token::{Token, TokenKind};
use nx_scan::scan::{scan_token, scan_token_into};
use nx_text::text::Text;
use std::alloc::Global;
use std::marker::Brand;
use std::process::Abort;
use std::sync::ledger::{Blank, Ledger};
use std::test::Fail;

type Row = &'static [(TokenKind, &'static str)];

const CHARS: TokenKind = TokenKind::Text;

/// Texts as their tokens: each kind and its bytes.
const ROWS: [Row; 103] = [
    &[],
    &[(Start, "<a>"), (Start, "<b>"), (End, "</a>")],
    &[(Start, "<a x='1' x='2'>"), (CHARS, "&nbsp;"), (End, "</a>")],
    &[(Start, "<a>"), (Bad, "<b "), (End, "</a>")],
    &[(Empty, "<a/>"), (Empty, "<b/>")],
    &[(Empty, "<p:a/>")],
    &[
        (Start, "<doc id='a'>"),
        (Start, "<title>"),
        (CHARS, "T]]>"),
        (End, "</title>"),
        (End, "</doc>"),
    ],
    &[
        (
            Doctype,
            "<!DOCTYPE book SYSTEM \"book.dtd\" [ <!-- it's > --> ]>",
        ),
        (CHARS, "\n"),
        (Empty, "<book/>"),
        (CHARS, "\n"),
    ],
    &[(Start, "<doc id='a'>"), (Unclosed, "<!-- x")],
    &[
        (Start, "<a>"),
        (Empty, "<b/>"),
        (CHARS, "t"),
        (Start, "<c>"),
        (CHARS, "u"),
        (End, "</c>"),
        (End, "</a>"),
    ],
    &[
        (Decl, "<?xml version=\"1.0\" encoding=\"UTF-8\"?>"),
        (CHARS, "\n"),
        (Pi, "<?xml-stylesheet type='text/css' href='s.css'?>"),
        (CHARS, "\n"),
        (Comment, "<!-- c -->"),
        (CHARS, "\n"),
        (Start, "<doc id='a'>"),
        (CHARS, "\n  "),
        (Start, "<title>"),
        (CHARS, "A &amp; B"),
        (End, "</title>"),
        (CHARS, "\n  "),
        (Start, "<para>"),
        (CHARS, "x &#233; "),
        (Cdata, "<![CDATA[<y>]]>"),
        (End, "</para>"),
        (CHARS, "\n"),
        (End, "</doc>"),
        (CHARS, "\n"),
    ],
    &[(Bom, "\u{FEFF}")],
    &[(Bom, "\u{FEFF}"), (CHARS, "\u{FEFF}")],
    &[(Bom, "\u{FEFF}"), (Decl, "<?xml ?>")],
    &[(CHARS, "a\u{FEFF}")],
    &[(CHARS, "a>b]]>&;\u{0}")],
    &[(CHARS, ">")],
    &[(Start, "<é>"), (CHARS, "é")],
    &[(Start, "<a\n\tx = \"'>/\"\r y='\"'  >")],
    &[(Start, "<_.-1\u{B7}>")],
    &[(Start, "<a x=\"\u{0}\">")],
    &[(Empty, "<a x=''/>")],
    &[(Empty, "<:/>"), (CHARS, "/>")],
    &[(End, "</a>")],
    &[(End, "</a \t\n>"), (CHARS, "x")],
    &[(End, "</\u{10000}:>")],
    &[(Comment, "<!---->"), (CHARS, "->")],
    &[(Comment, "<!--a--b-->")],
    &[(Comment, "<!-->-->")],
    &[(Comment, "<!-- < & ]]> -->"), (Comment, "<!---->")],
    &[(Cdata, "<![CDATA[]]>")],
    &[(Cdata, "<![CDATA[]]]]>"), (CHARS, ">")],
    &[(Cdata, "<![CDATA[ ]] > ]>]]>")],
    &[(Doctype, "<!DOCTYPE>")],
    &[(Doctype, "<!DOCTYPE a '>[' \"]'>\" >")],
    &[
        (
            Doctype,
            "<!DOCTYPE a [ <?x ]> '?> <!-- ]> \" --> \"]>\" [ ' ' ] >",
        ),
        (CHARS, "]>"),
    ],
    &[(Doctype, "<!DOCTYPE <!-- >"), (CHARS, " -->")],
    &[(Doctype, "<!DOCTYPE a ]>")],
    &[(Decl, "<?xml\n?>")],
    &[(Decl, "<?xml x?y?>"), (CHARS, "?>")],
    &[(Decl, "<?xml ? >?>")],
    &[(Pi, "<??>"), (CHARS, ">")],
    &[(Pi, "<?xml?>")],
    &[(Pi, "<?xmlx ?>")],
    &[(Pi, "<?a > <b> ?>")],
    &[(Pi, "<?XML ?>")],
    &[(Bad, "<"), (Start, "<a>")],
    &[(Bad, "<1>"), (CHARS, "x")],
    &[(Bad, "< a>")],
    &[(Bad, "<>"), (CHARS, ">")],
    &[(Bad, "</>")],
    &[(Bad, "</ a>")],
    &[(Bad, "</a b>")],
    &[(Bad, "</a/>")],
    &[(Bad, "<a/ >")],
    &[(Bad, "<a//>")],
    &[(Bad, "<a x>"), (CHARS, "='1'>")],
    &[(Bad, "<a x=y>")],
    &[(Bad, "<a x='"), (Bad, "<'>")],
    &[(Bad, "<a x='1'y='2'>")],
    &[(Bad, "<a =''>")],
    &[(Bad, "<a\u{D7}>")],
    &[(Bad, "<!a>")],
    &[(Bad, "<!-a>")],
    &[(Bad, "<![CDATA ]]>")],
    &[(Bad, "<!doctype a>")],
    &[(Bad, "<")],
    &[(Bad, "<a")],
    &[(Bad, "<a/")],
    &[(Bad, "</a")],
    &[(Bad, "<a x")],
    &[(Bad, "<a x=")],
    &[(Bad, "<a x='b>")],
    &[(Unclosed, "<!--")],
    &[(Unclosed, "<!-->")],
    &[(Unclosed, "<!--->")],
    &[(Unclosed, "<![CDATA[")],
    &[(Unclosed, "<![CDATA[]]")],
    &[(Unclosed, "<![CDATA[]>]]")],
    &[(Unclosed, "<!DOCTYPE")],
    &[(Unclosed, "<!DOCTYPE a")],
    &[(Unclosed, "<!DOCTYPE a \"'>")],
    &[(Unclosed, "<!DOCTYPE a '")],
    &[(Unclosed, "<!DOCTYPE a 'x\">")],
    &[(Unclosed, "<!DOCTYPE a [ ]")],
    &[(Unclosed, "<!DOCTYPE [")],
    &[(Unclosed, "<!DOCTYPE [ '>' <!-- > --> >")],
    &[(Unclosed, "<!DOCTYPE a [ > ")],
    &[(Unclosed, "<!DOCTYPE [<!-- ]>")],
    &[(Unclosed, "<!DOCTYPE [<!-->")],
    &[(Unclosed, "<!DOCTYPE [ <!-- -- > ]>")],
    &[(Unclosed, "<!DOCTYPE [<? ]>")],
    &[(Unclosed, "<!DOCTYPE [<?>")],
    &[(Unclosed, "<!DOCTYPE [ <?a ? > ]>")],
    &[(Unclosed, "<!DOCTYPE [ ' ]>")],
    &[(Unclosed, "<!DOCTYPE [ \" ' ]>")],
    &[(Unclosed, "<!DOCTYPE [ <!-- ' --> \" ]>")],
    &[(Unclosed, "<?xml ")],
    &[(Unclosed, "<?xml ?")],
    &[(Unclosed, "<?xml x >")],
    &[(Unclosed, "<?")],
    &[(Unclosed, "<?>")],
    &[(Unclosed, "<?a ?")],
];

/// Texts with tokens that are longer than what is looked at or copied at once, just as long, or a byte shorter or longer.
const LONG: [Row; 3] = [
    &[
        (Start, "<aNameOfMoreThanSixteenLetters>"),
        (
            CHARS,
            "a text of more bytes than are looked at by sixteen at once, so that the others are looked for in another way, up to its last: here",
        ),
        (End, "</aNameOfMoreThanSixteenLetters>"),
    ],
    &[
        (Start, "<sixteen.letters>"),
        (CHARS, "as many bytes as two stores hold"),
        (Empty, "<or_1-more/>"),
        (CHARS, "those are thirty-two bytes, here"),
        (End, "</sixteen.letters>"),
        (CHARS, "\n"),
    ],
    &[
        (Start, "<a>"),
        (CHARS, "fifteen letters"),
        (Start, "<b>"),
        (CHARS, "sixteen letters."),
        (End, "</b>"),
        (CHARS, "seventeen letters"),
        (End, "</a>"),
        (
            CHARS,
            "so many bytes as are looked at by sixteen at once, which are one hundred and twenty-eight, before others are asked for a bracket",
        ),
    ],
];

/// Whether these are the text's tokens, cut at each border in turn, also where each is put into the room of the one before it.
fn is_cut<R: Abort, L: Ledger>(rt: &R, alloc: Global, tokens: Row, blank: Blank) -> Result<(), Fail>
    requires name { blank.name ≡ L.name }
    requires parts { blank.parts ≡ L.parts }
    requires some { 0 < L.parts }
{
    let mut text = Text::new(alloc);
    for (_, bytes) in tokens {
        let end = text.len();
        text.insert(end, bytes)?;
    }
    let mut steps = Steps::<L>::new(blank);
    let mut next = Token {
        kind: CHARS,
        from: 0,
        bytes: Bytes::new(alloc),
    };
    let mut at = 0;
    for (kind, bytes) in tokens {
        if !text.is_place(at) || at >= text.len() {
            panic!(rt; "no place in front of {bytes}");
        }
        let Ok(Some(token)) = scan_token(alloc, &text, at, &mut steps) else {
            panic!(rt; "no token in front of {bytes}");
        };
        assert_eq!(rt;
            (token.kind, token.from),
            (*kind, at),
            "the kind and place of {bytes}"
        );
        assert_eq!(rt;
            token.bytes.as_slice(),
            bytes.as_bytes(),
            "the bytes of {bytes}"
        );
        if scan_token_into(&text, at, &mut next, &mut steps).is_err() {
            panic!(rt; "no memory for {bytes}");
        }
        assert_eq!(rt;
            (next.kind, next.from, next.bytes.as_slice()),
            (*kind, at, bytes.as_bytes()),
            "{bytes} in the room of another token"
        );
        at = at.saturating_add(token.bytes.len());
    }
    assert_eq!(rt; at, text.len());
    Ok(())
}

#[test]
fn cuts_texts(rt: HostRuntime) -> Result<(), Fail> {
    for tokens in ROWS {
        is_cut::<_, Brand>(&rt, rt.alloc(), tokens, Blank::new(1))?;
    }
    Ok(())
}

#[test]
fn cuts_texts_with_long_tokens(rt: HostRuntime) -> Result<(), Fail> {
    for tokens in LONG {
        is_cut::<_, Brand>(&rt, rt.alloc(), tokens, Blank::new(1))?;
    }
    Ok(())
}
