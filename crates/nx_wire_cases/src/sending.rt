//! Messages as they are sent, to the byte.

use nx_position::change::Range;
use nx_position::position::{Encoding, Position};
use nx_wire::answer::{Refusal, answer, error_answer};
use nx_wire::capabilities::initialize_result;
use nx_wire::diagnostic::{Severity, diagnostic, publish};
use nx_wire::send::push_message;
use serde_json::Value;
use std::alloc::Global;
use std::test::*;

/// A message as it is sent.
fn sent(alloc: Global, message: &Value) -> Result<Vec<u8>, Fail> {
    let mut out = Vec::new(alloc);
    push_message(alloc, &mut out, message)?;
    Ok(out)
}

#[test]
fn answers_are_sent(rt: HostRuntime) -> Result<(), Fail> {
    let alloc = rt.alloc();
    let id = Value::try_from_str(alloc, "a")?;
    let made = answer(alloc, &id, Value::Null)?;
    let text = sent(alloc, &made)?;
    assert!(rt;
        text.as_slice()
            == b"Content-Length: 40\r\n\r\n{\"id\":\"a\",\"jsonrpc\":\"2.0\",\"result\":null}".as_slice()
    );
    Ok(())
}

#[test]
fn refusals_are_sent(rt: HostRuntime) -> Result<(), Fail> {
    let alloc = rt.alloc();
    let made = error_answer(alloc, &Value::from(7u64), Refusal::MethodNotFound)?;
    let text = sent(alloc, &made)?;
    assert!(rt;
        text.as_slice()
            == b"Content-Length: 83\r\n\r\n\
{\"error\":{\"code\":-32601,\"message\":\"the method isn't known\"},\"id\":7,\"jsonrpc\":\"2.0\"}"
                .as_slice()
    );
    Ok(())
}

#[test]
fn abilities_are_told(rt: HostRuntime) -> Result<(), Fail> {
    let alloc = rt.alloc();
    let made = initialize_result(alloc, Encoding::Utf8)?;
    let text = made.to_string(alloc)?;
    assert!(rt;
        text.as_str()
            == "{\"capabilities\":{\"positionEncoding\":\"utf-8\",\"textDocumentSync\":{\"change\":2,\"openClose\":true}},\
\"serverInfo\":{\"name\":\"nxml-server\"}}"
    );
    Ok(())
}

#[test]
fn faults_are_told(rt: HostRuntime) -> Result<(), Fail> {
    let alloc = rt.alloc();
    let start = Position { line: 1, column: 2 };
    let end = Position { line: 1, column: 4 };
    let fault = diagnostic(alloc, Range { start, end }, Severity::Error, "no \"a\"")?;
    let mut list = Vec::new(alloc);
    list.push(fault)?;
    let text = publish(alloc, "file:///a", 5, list)?.to_string(alloc)?;
    assert!(rt;
        text.as_str()
            == "{\"jsonrpc\":\"2.0\",\"method\":\"textDocument/publishDiagnostics\",\"params\":{\
\"diagnostics\":[{\"message\":\"no \\\"a\\\"\",\"range\":{\"end\":{\"character\":4,\"line\":1},\"start\":{\"character\":2,\"line\":1}},\
\"severity\":1,\"source\":\"nxml\"}],\"uri\":\"file:///a\",\"version\":5}}"
    );
    Ok(())
}
