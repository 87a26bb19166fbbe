//! Lines of a script, right and wrong, and what each is read as.

use nx_base::sequence::Bytes;
use nx_base::way::Way;
use nx_script::command::Command;
use nx_script::line::split_line;
use nx_script::read::{ScriptFault, read_line};
use std::alloc::Global;
use std::test::Fail;

/// Words alone.
fn word(alloc: Global, words: &str) -> Result<String, Fail> {
    Ok(String::from_str(alloc, words)?)
}

/// A word and a number.
fn numbered(alloc: Global, word: &str, number: u64) -> Result<String, Fail> {
    Ok(format!(in alloc; "{word} {number}")?)
}

/// A word and two numbers.
fn numbered_twice(alloc: Global, word: &str, first: u64, second: u64) -> Result<String, Fail> {
    Ok(format!(in alloc; "{word} {first} {second}")?)
}

/// A word and a text.
fn quoted(alloc: Global, word: &str, text: &Bytes) -> Result<String, Fail> {
    let text = std::str::from_utf8(text.as_slice())?;
    Ok(format!(in alloc; "{word} {text}")?)
}

/// A word, a number and a text.
fn quoted_at(alloc: Global, word: &str, at: u64, text: &Bytes) -> Result<String, Fail> {
    let text = std::str::from_utf8(text.as_slice())?;
    Ok(format!(in alloc; "{word} {at} {text}")?)
}

/// The name of a way.
fn name_of(way: Way) -> &'static str {
    match way {
        Way::Forward => "Forward",
        Way::Backward => "Backward",
        Way::Up => "Up",
        Way::BackUp => "BackUp",
        Way::Down => "Down",
    }
}

/// A command as a word of its name and its numbers and texts, with their escapes gone.
fn named(alloc: Global, command: &Command) -> Result<String, Fail> {
    match command {
        Command::Nothing => word(alloc, "nothing"),
        Command::OpenFile(uri) => quoted(alloc, "open", uri),
        Command::Save(uri) => quoted(alloc, "save", uri),
        Command::Insert(at, added) => quoted_at(alloc, "insert", *at, added),
        Command::Delete(from, to) => numbered_twice(alloc, "delete", *from, *to),
        Command::Print => word(alloc, "print"),
        Command::Errors => word(alloc, "errors"),
        Command::Slice(count) => numbered(alloc, "slice", *count),
        Command::Stats => word(alloc, "stats"),
        Command::SchemaFile(uri) => quoted(alloc, "schema", uri),
        Command::SchemaNone => word(alloc, "no schema"),
        Command::SchemaAuto => word(alloc, "located schema"),
        Command::Complete(at) => numbered(alloc, "complete", *at),
        Command::Goto(at) => numbered(alloc, "goto", *at),
        Command::Move(way) => word(alloc, name_of(*way)),
        Command::Next => word(alloc, "next"),
        Command::Previous => word(alloc, "previous"),
        Command::Position => word(alloc, "position"),
        Command::View(index) => numbered(alloc, "view", *index),
        Command::Close(index) => numbered(alloc, "close", *index),
        Command::Make(seed, pieces) => numbered_twice(alloc, "make", *seed, *pieces),
        Command::Finish(at) => numbered(alloc, "finish", *at),
        Command::Split(at) => numbered(alloc, "split", *at),
        Command::Pair(at, name) => quoted_at(alloc, "pair", *at, name),
        Command::Rename(at, name) => quoted_at(alloc, "rename", *at, name),
    }
}

/// What a line is read as.
fn told(alloc: Global, line: &str) -> Result<String, Fail> {
    match read_line(alloc, line) {
        Ok(command) => named(alloc, &command),
        Err(ScriptFault::BadCommand) => word(alloc, "bad"),
        Err(ScriptFault::NoMemory) => word(alloc, "no memory"),
    }
}

/// Lines, and what `told` makes of them.
const LINES: [(&str, &str); 137] = [
    ("", "nothing"),
    (" \t ", "nothing"),
    ("#", "nothing"),
    ("\t #insert 0", "nothing"),
    ("print", "print"),
    (" \tprint\t ", "print"),
    ("print #", "bad"),
    ("print\r", "bad"),
    ("Print", "bad"),
    ("prints", "bad"),
    ("erase", "bad"),
    ("errors", "errors"),
    ("errors 1", "bad"),
    ("slice 0", "slice 0"),
    ("slice", "bad"),
    ("slice 1 2", "bad"),
    ("stats", "stats"),
    ("stats 1", "bad"),
    ("open \"b.xml\"", "open b.xml"),
    ("open b.xml", "bad"),
    ("insert 0 \"ab\"", "insert 0 ab"),
    ("insert \t 12\t\"x\" ", "insert 12 x"),
    ("insert 3 \"\"", "insert 3 "),
    ("insert 0 \" # é\tx \"", "insert 0  # é\tx "),
    ("insert 0 \"\\n\\t\\r\\\\\\\"\"", "insert 0 \n\t\r\\\""),
    ("insert 0 \"\\u{41}\\u{e9}x\"", "insert 0 Aéx"),
    ("insert 0 \"\\u{01F600}\"", "insert 0 😀"),
    ("insert 0 \"\\u{10ffff}\\u{0}\"", "insert 0 \u{10ffff}\0"),
    ("insert 0 \"\\u{110000}\"", "bad"),
    ("insert 0 \"\\u{D800}\"", "bad"),
    ("insert 0 \"\\u{0000041}\"", "bad"),
    ("insert 0 \"\\u{}\"", "bad"),
    ("insert 0 \"\\u{4g}\"", "bad"),
    ("insert 0 \"\\u{41\"", "bad"),
    ("insert 0 \"\\u41\"", "bad"),
    ("insert 0 \"\\U{41}\"", "bad"),
    ("insert 0 \"\\x\"", "bad"),
    ("insert 0 \"\\\"", "bad"),
    ("insert 0 \"\\", "bad"),
    ("insert 0 \"abc", "bad"),
    ("insert 0 abc", "bad"),
    ("insert 0\"x\"", "bad"),
    ("insert 0 \"x\"y", "bad"),
    ("insert0 \"x\"", "bad"),
    ("insert \"x\"", "bad"),
    ("insert 0", "bad"),
    ("insert +1 \"x\"", "bad"),
    ("insert 1a \"x\"", "bad"),
    (
        "insert 999999999999999999 \"x\"",
        "insert 999999999999999999 x",
    ),
    ("insert 000000000000000007 \"x\"", "insert 7 x"),
    ("insert 0000000000000000007 \"x\"", "bad"),
    ("delete 3 2", "delete 3 2"),
    ("delete 3", "bad"),
    ("delete 3 2 1", "bad"),
    ("save \"o.xml\"", "save o.xml"),
    ("save o.xml", "bad"),
    ("save", "bad"),
    ("schema \"s1.rnc\"", "schema s1.rnc"),
    ("\tschema\t\"none\" ", "schema none"),
    ("schema none", "no schema"),
    ("schema \t none\t", "no schema"),
    ("schema none 1", "bad"),
    ("schema nonesuch", "bad"),
    ("schemanone", "bad"),
    ("schema s1.rnc", "bad"),
    ("schema", "bad"),
    ("schema \"auto\"", "schema auto"),
    ("schema auto", "located schema"),
    (" schema\tauto ", "located schema"),
    ("schema auto 1", "bad"),
    ("schema none auto", "bad"),
    ("schema autos", "bad"),
    ("schema Auto", "bad"),
    ("complete 5", "complete 5"),
    ("complete \t 0 ", "complete 0"),
    ("complete", "bad"),
    ("complete 5 6", "bad"),
    ("complete -5", "bad"),
    ("complete \"5\"", "bad"),
    ("complete5", "bad"),
    ("completes 5", "bad"),
    ("goto 3", "goto 3"),
    ("goto", "bad"),
    ("goto -1", "bad"),
    ("go to 1", "bad"),
    ("move forward", "Forward"),
    ("move backward", "Backward"),
    ("move up", "Up"),
    ("move back-up", "BackUp"),
    ("\tmove\tdown\t", "Down"),
    ("move", "bad"),
    ("move back", "bad"),
    ("move back up", "bad"),
    ("move upward", "bad"),
    ("move Up", "bad"),
    ("move up down", "bad"),
    ("move \"up\"", "bad"),
    ("moveup", "bad"),
    ("next", "next"),
    ("next 1", "bad"),
    (" previous ", "previous"),
    ("prev", "bad"),
    ("where", "position"),
    ("where 0", "bad"),
    ("view 0", "view 0"),
    ("view", "bad"),
    ("view 0 1", "bad"),
    ("close 999999999999999999", "close 999999999999999999"),
    ("close", "bad"),
    ("make 7 1", "make 7 1"),
    ("make 2147483647 200000", "make 2147483647 200000"),
    ("make 2147483648 1", "bad"),
    ("make 7 200001", "bad"),
    ("make 0 0", "make 0 0"),
    ("make 7", "bad"),
    ("make 7 1 1", "bad"),
    ("finish 20", "finish 20"),
    ("finish", "bad"),
    ("finish 1 2", "bad"),
    ("split 7", "split 7"),
    ("split -1", "bad"),
    ("pair 3 \"x\"", "pair 3 x"),
    ("\tpair \t 3\t\"p:q\" ", "pair 3 p:q"),
    ("pair 3 x", "bad"),
    ("pair 3 \"\"", "bad"),
    ("pair 3 \"a:b:c\"", "bad"),
    ("pair 3 \":a\"", "bad"),
    ("pair 3 \"a:\"", "bad"),
    ("pair 3 \"1a\"", "bad"),
    ("pair 3 \"a:1\"", "bad"),
    ("pair 3 \"a b\"", "bad"),
    ("pair \"x\"", "bad"),
    ("rename 0 \"\\u{e9}-.1\"", "rename 0 é-.1"),
    ("rename 0 \"_:\\u{4e00}\\u{b7}\"", "rename 0 _:一·"),
    ("rename 3 \"q\" 1", "bad"),
    ("rename 3", "bad"),
    ("renames 3 \"q\"", "bad"),
];

#[test]
fn lines_are_read(rt: HostRuntime) -> Result<(), Fail> {
    for (line, want) in &LINES {
        let got = told(rt.alloc(), *line)?;
        assert_eq!(rt; got.as_str(), *want, "at {line}");
    }
    Ok(())
}

/// The lines of a script, each in brackets.
fn bracketed(alloc: Global, script: &str) -> Result<String, Fail> {
    let mut lines = String::new(alloc);
    let mut rest = script;
    for _ in 0..script.len() {
        if rest.is_empty() {
            break;
        }
        let (line, after) = split_line(rest);
        lines.push('[')?;
        lines.push_str(line)?;
        lines.push(']')?;
        rest = after;
    }
    Ok(lines)
}

/// Scripts, and what `bracketed` makes of them.
const SCRIPTS: [(&str, &str); 10] = [
    ("", ""),
    ("a", "[a]"),
    ("a\n", "[a]"),
    ("a\nb", "[a][b]"),
    ("a\n\n", "[a][]"),
    ("\n", "[]"),
    ("\r", "[]"),
    ("a\r\nb\r", "[a][b]"),
    ("a\r\r\n", "[a\r]"),
    ("a\rb", "[a\rb]"),
];

#[test]
fn scripts_are_cut(rt: HostRuntime) -> Result<(), Fail> {
    for (script, want) in &SCRIPTS {
        let got = bracketed(rt.alloc(), *script)?;
        assert_eq!(rt; got.as_str(), *want);
    }
    Ok(())
}
