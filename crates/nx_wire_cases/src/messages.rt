//! Messages as clients send them.

use nx_position::position::Encoding;
use nx_wire::document::{content_changes_in, text_in, uri_in, version_in};
use nx_wire::encoding::encoding_in;
use nx_wire::envelope::{Kind, id_in, kind_of, method_in};
use nx_wire::read::value_in;
use serde_json::Value;
use std::alloc::Global;
use std::test::*;

const INITIALIZE: &str =
    "{\"jsonrpc\":\"2.0\",\"id\":1,\"method\":\"initialize\",\"params\":{\"processId\":null,\"rootUri\":null,\
\"capabilities\":{\"general\":{\"positionEncodings\":[\"utf-7\",\"utf-32\",\"utf-8\"]}}}}";

const OPEN: &str =
    "{\"jsonrpc\":\"2.0\",\"method\":\"textDocument/didOpen\",\"params\":{\"textDocument\":{\"uri\":\"file:///a.xml\",\
\"languageId\":\"xml\",\"version\":3,\"text\":\"<a/>\"}}}";

const CHANGE: &str =
    "{\"jsonrpc\":\"2.0\",\"method\":\"textDocument/didChange\",\"params\":{\"textDocument\":{\"uri\":\"file:///a.xml\",\
\"version\":2},\"contentChanges\":[{\"range\":{\"start\":{\"line\":3,\"character\":5},\"end\":{\"line\":3,\"character\":6}},\
\"rangeLength\":1,\"text\":\"\\u00e9\\ud83d\\ude00\"},{\"text\":\"b\"}]}}";

/// The message that a text writes.
fn message(alloc: Global, text: &str) -> Result<Value, Fail> {
    let read = value_in(alloc, text.as_bytes())?;
    Ok(read.ok_or("no JSON")?)
}

/// What a message is that a text writes.
fn kind(alloc: Global, text: &str) -> Result<Kind, Fail> {
    let read = message(alloc, text)?;
    Ok(kind_of(&read))
}

/// The parameters of a message that a text writes.
fn params(alloc: Global, text: &str) -> Result<Value, Fail> {
    let read = message(alloc, text)?;
    let params = read.get("params").ok_or("no parameters")?;
    Ok(params.clone()?)
}

#[test]
fn messages_are_of_four_kinds(rt: HostRuntime) -> Result<(), Fail> {
    let alloc = rt.alloc();
    assert!(rt; kind(alloc, INITIALIZE)? == Kind::Request);
    assert!(rt; kind(alloc, OPEN)? == Kind::Notice);
    assert!(rt; kind(alloc, "{\"id\":\"a\",\"result\":[null]}")? == Kind::Answer);
    assert!(rt; kind(alloc, "{\"id\":null,\"method\":\"shutdown\"}")? == Kind::Wrong);
    assert!(rt; kind(alloc, "{\"method\":1}")? == Kind::Wrong);
    assert!(rt; kind(alloc, "[]")? == Kind::Wrong);
    Ok(())
}

#[test]
fn content_is_json_or_not(rt: HostRuntime) -> Result<(), Fail> {
    let alloc = rt.alloc();
    assert!(rt; value_in(alloc, b"{")?.is_none());
    assert!(rt; value_in(alloc, b"{\"text\":\"\\ud83d\"}")?.is_none());
    assert!(rt; value_in(alloc, b"\"\xff\"")?.is_none());
    let read = message(alloc, INITIALIZE)?;
    assert!(rt; method_in(&read) == Some("initialize"));
    assert!(rt; id_in(&read).is_some());
    Ok(())
}

#[test]
fn encodings_are_agreed_upon(rt: HostRuntime) -> Result<(), Fail> {
    let alloc = rt.alloc();
    let listed = params(alloc, INITIALIZE)?;
    assert!(rt; encoding_in(&listed) == Encoding::Utf32);
    let silent = message(alloc, "{\"capabilities\":{}}")?;
    assert!(rt; encoding_in(&silent) == Encoding::Utf16);
    Ok(())
}

#[test]
fn documents_are_told(rt: HostRuntime) -> Result<(), Fail> {
    let opened = params(rt.alloc(), OPEN)?;
    assert!(rt; uri_in(&opened) == Some("file:///a.xml"));
    assert!(rt; version_in(&opened) == Some(3));
    assert!(rt; text_in(&opened) == Some("<a/>"));
    Ok(())
}

#[test]
fn changes_are_told(rt: HostRuntime) -> Result<(), Fail> {
    let alloc = rt.alloc();
    let changed = params(alloc, CHANGE)?;
    let changes = content_changes_in(alloc, &changed)?.ok_or("no changes")?;
    assert!(rt; changes.len() == 2);
    let first = changes.first().ok_or("a change")?;
    let part = first.part.ok_or("a part")?;
    assert!(rt; part.start.line == 3 && part.end.column == 6);
    assert!(rt; first.text.as_slice() == "é😀".as_bytes());
    assert!(rt; changes.last().ok_or("a change")?.part.is_none());
    let wrong = message(
        alloc,
        "{\"contentChanges\":[{\"range\":null,\"text\":\"\"}]}",
    )?;
    assert!(rt; content_changes_in(alloc, &wrong)?.is_none());
    Ok(())
}
