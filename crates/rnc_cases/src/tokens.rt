//! Texts of the compact syntax, and their tokens or their one fault.

use crate::is_told;
use nx_base::memory::NoMemory;
use nx_base::sequence::Bytes;
use rnc_lex::fault::LexFault;
use rnc_lex::lex::tokens;
use rnc_lex::token::{Lexeme, RncToken};
use std::alloc::Global;

fn spelled(bytes: &Bytes) -> &str {
    str::from_utf8(bytes.as_slice()).unwrap_or("no text")
}

/// Adds a token in short, and answers whether it could: a name as it is, a literal in angle brackets, a keyword or mark as
/// its variant, and its place.
fn tell_token(all: &mut String, token: &RncToken) -> bool {
    let at = token.at;
    match &token.lexeme {
        Lexeme::Identifier(name) => write!(all, "{}@{at} ", spelled(name)).is_ok(),
        Lexeme::Keyword(word) => write!(all, "{word:?}@{at} ").is_ok(),
        Lexeme::PrefixedName(prefix, local) => {
            write!(all, "{}:{}@{at} ", spelled(prefix), spelled(local)).is_ok()
        }
        Lexeme::NamespaceWildcard(prefix) => write!(all, "{}:*@{at} ", spelled(prefix)).is_ok(),
        Lexeme::Literal(text) => write!(all, "<{}>@{at} ", spelled(text)).is_ok(),
        Lexeme::Symbol(mark) => write!(all, "{mark:?}@{at} ").is_ok(),
    }
}

fn tell_tokens(all: &mut String, tokens: &[RncToken]) -> bool {
    for token in tokens {
        if !tell_token(all, token) {
            return false;
        }
    }
    true
}

/// Adds a text's tokens, or its fault, and answers whether it could.
fn tell(alloc: Global, all: &mut String, text: &str) -> bool {
    match tokens(alloc, text) {
        Ok(tokens) => tell_tokens(all, tokens.as_slice()),
        Err(fault) => write!(all, "{fault:?}").is_ok(),
    }
}

/// A text's tokens, or its fault.
fn told(alloc: Global, text: &str) -> Result<String, NoMemory> {
    let mut all = String::new(alloc);
    if tell(alloc, &mut all, text) {
        Ok(all)
    } else {
        Err(NoMemory)
    }
}

/// Texts, and what `told` makes of them.
#[rattlefmt::skip]
const ROWS: [(&str, &str); 84] = [
    ("", ""),
    ("\u{FEFF}", ""),
    ("\u{FEFF}a", "a@3 "),
    (" \t\r\n# x \" \\x{22} é", ""),
    ("## x\ra", "a@5 "),
    ("#\\x{A}a", "a@6 "),
    ("#\\x{D}a\nb", "b@8 "),
    ("a#b c\r\nd", "a@0 d@7 "),
    ("element a { text }", "Element@0 a@8 LeftBrace@10 Text@12 RightBrace@17 "),
    ("element a { \\x{74}ext }", "Element@0 a@8 LeftBrace@10 Text@12 RightBrace@22 "),
    ("element a {(((empty)))}", "Element@0 a@8 LeftBrace@10 LeftParenthesis@11 LeftParenthesis@12 LeftParenthesis@13 Empty@14 RightParenthesis@19 RightParenthesis@20 RightParenthesis@21 RightBrace@22 "),
    ("attribute default datatypes div", "Attribute@0 Default@10 Datatypes@18 Div@28 "),
    ("element empty external grammar", "Element@0 Empty@8 External@14 Grammar@23 "),
    ("include inherit list mixed namespace", "Include@0 Inherit@8 List@16 Mixed@21 Namespace@27 "),
    ("notAllowed parent start string text token", "NotAllowed@0 Parent@11 Start@18 String@24 Text@31 Token@36 "),
    ("elements Element elemen", "elements@0 Element@9 elemen@17 "),
    ("\\element \\a", "element@0 a@9 "),
    ("\\x{5C}element", "element@0 "),
    ("xx \\x \\xx \\xyz", "xx@0 x@3 xx@6 xyz@10 "),
    ("_.-1\u{B7} é a-b", "_.-1\u{B7}@0 é@7 a-b@10 "),
    ("a:b text:element _:_", "a:b@0 text:element@4 _:_@17 "),
    ("a:* text:* a :b", "BadCharacter(13)"),
    ("a:*b:*", "a:*@0 b:*@3 "),
    ("a:b*", "a:b@0 Star@3 "),
    ("a: b", "BadCharacter(1)"),
    ("a : b", "BadCharacter(2)"),
    ("a:b:c", "BadCharacter(3)"),
    ("xsd:", "BadCharacter(3)"),
    ("xsd::a", "BadCharacter(3)"),
    ("\\a:b", "BadCharacter(2)"),
    ("a\\x{3A}b \\x{61}\\x{62}", "a:b@0 ab@9 "),
    ("\"a\" 'b' \"'\" '\"' \"\" ''", "<a>@0 <b>@4 <'>@8 <\">@12 <>@16 <>@19 "),
    ("\"\"\"a\"\"b\n\"\"\" '''\r\n'''", "<a\"\"b\n>@0 <\n>@12 "),
    ("\"\"\"\"\"\" ''''''", "<>@0 <>@7 "),
    ("\"a\"\"b\"", "<a>@0 <b>@3 "),
    ("\"\"\"a\"\"\"\"\"", "<a>@0 <>@7 "),
    ("\"a\\x{A}b\" 'a\\x{D}b'", "<a\nb>@0 <a\rb>@10 "),
    ("\\x{22}a\\x{22}b", "<a>@0 b@13 "),
    ("\"a\\x{22}b", "<a>@0 b@8 "),
    ("\"#\" \"\\\\\" '\\xyz'", "<#>@0 <\\\\>@4 <\\xyz>@9 "),
    ("\"é\\x{1F600}\"", "<é\u{1F600}>@0 "),
    ("{}()[]", "LeftBrace@0 RightBrace@1 LeftParenthesis@2 RightParenthesis@3 LeftBracket@4 RightBracket@5 "),
    ("=|=&=,|&", "Equals@0 BarEquals@1 AmpersandEquals@3 Comma@5 Bar@6 Ampersand@7 "),
    ("?*+ -~>>", "QuestionMark@0 Star@1 Plus@2 Minus@4 Tilde@5 Follows@6 "),
    ("||= |==", "Bar@0 BarEquals@1 BarEquals@4 Equals@6 "),
    ("\\x{7C}=\\x{3E}>", "BarEquals@0 Follows@7 "),
    ("\\x{41}\\xx{0000000000000000000041}", "AA@0 "),
    ("\\xxx{e9}\\x{EFFFF}", "é\u{EFFFF}@0 "),
    ("\\x{9}a\\x{D}\\x{A}\\x{20}", "a@5 "),
    (" \\x{}", "BadEscape(1)"),
    ("a\\x{41", "BadEscape(1)"),
    ("\\x{", "BadEscape(0)"),
    ("\\xxx{}", "BadEscape(0)"),
    ("\\x{4 1}", "BadEscape(0)"),
    ("\\x{g}", "BadEscape(0)"),
    ("\\x{-1}", "BadEscape(0)"),
    ("\\x{0}", "BadEscape(0)"),
    ("\\x{D800}", "BadEscape(0)"),
    ("\\x{FFFE}", "BadEscape(0)"),
    ("\\x{110000}", "BadEscape(0)"),
    ("\\x{100000041}", "BadEscape(0)"),
    ("\\x{10000000000000041}", "BadEscape(0)"),
    ("# \\x{}", "BadEscape(2)"),
    ("\" \\x{}", "BadEscape(2)"),
    ("$ \\x{}", "BadEscape(2)"),
    ("\\x{41\r}", "BadEscape(0)"),
    ("a \"", "BadLiteral(2)"),
    ("'a", "BadLiteral(0)"),
    ("\"a\nb\"", "BadLiteral(0)"),
    ("'a\r\nb'", "BadLiteral(0)"),
    ("\"\"\"a\"\"", "BadLiteral(0)"),
    ("'''a\"\"\"", "BadLiteral(0)"),
    ("\"\"\"a\"", "BadLiteral(0)"),
    ("\"a'", "BadLiteral(0)"),
    ("\u{FEFF}'", "BadLiteral(3)"),
    ("é \\x{22}", "BadLiteral(3)"),
    ("\u{0}", "BadCharacter(0)"),
    ("# é\u{1}", "BadCharacter(4)"),
    ("\"\u{FFFF}", "BadCharacter(1)"),
    ("$", "BadCharacter(0)"),
    (">", "BadCharacter(0)"),
    ("> >", "BadCharacter(0)"),
    ("\\ a", "BadCharacter(0)"),
    ("a \\", "BadCharacter(2)"),
];

#[test]
fn reads_texts(rt: HostRuntime) {
    for (text, expected) in &ROWS {
        assert!(rt; is_told(told(rt.alloc(), *text), *expected), "{text}");
    }
}

/// The smallest schema that the project's examples use.
const SCHEMA: &str =
    "start = element doc { attribute id { xsd:NCName }, element title { text }, element para { (text | element em { text })* }* }";

/// The fault of a front of it.
fn fault_wanted(front: &str) -> Option<LexFault> {
    if front.ends_with("xsd:") {
        Some(LexFault::BadCharacter(front.len().saturating_sub(1)))
    } else {
        None
    }
}

/// Whether so many bytes of it have that fault.
fn is_front_read(alloc: Global, len: usize) -> bool {
    match SCHEMA.get(..len) {
        Some(front) => tokens(alloc, front).err() == fault_wanted(front),
        None => false,
    }
}

#[test]
fn reads_fronts(rt: HostRuntime) {
    for len in 0..SCHEMA.len() {
        assert!(rt; is_front_read(rt.alloc(), len), "{len} bytes");
    }
}
