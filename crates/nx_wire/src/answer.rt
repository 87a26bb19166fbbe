//! The messages that are sent back.

ghost use Rattle.std.specs.Prelude.{◌≡◌, IfOk};
ghost use Rattle.serde_json.specs.View.{view};
ghost use Rattle.nx_wire.specs.Answers.{answer_data, error_data, notice_data, request_data, error_code, error_words};

use nx_base::memory::NoMemory;
use serde_json::{Value, json};
use std::alloc::Global;

/// Why a request isn't done, by the codes of JSON-RPC 2.0 and of the protocol.
#[derive(Clone, Copy, Debug, PartialEq, Eq)]
pub enum Refusal {
    /// The message is no JSON.
    ParseError,
    /// It is no request.
    InvalidRequest,
    /// The server doesn't know the method.
    MethodNotFound,
    /// The method's parameters can't be read.
    InvalidParams,
    /// There was no memory.
    InternalError,
    /// `initialize` comes first.
    ServerNotInitialized,
    /// The server doesn't hold the text that the client holds.
    ContentModified,
}

/// The code of a refusal.
pub fn error_code(refusal: Refusal) -> i64
    ensures { result ≡ error_code refusal }
{
    match refusal {
        Refusal::ParseError => -32700,
        Refusal::InvalidRequest => -32600,
        Refusal::MethodNotFound => -32601,
        Refusal::InvalidParams => -32602,
        Refusal::InternalError => -32603,
        Refusal::ServerNotInitialized => -32002,
        Refusal::ContentModified => -32801,
    }
}

/// What a refusal says.
pub fn error_words(refusal: Refusal) -> &'static str
    ensures { result.now ≡ error_words refusal }
{
    match refusal {
        Refusal::ParseError => "the message is no JSON",
        Refusal::InvalidRequest => "the message is no request",
        Refusal::MethodNotFound => "the method isn't known",
        Refusal::InvalidParams => "the parameters aren't those of the method",
        Refusal::InternalError => "there is no memory",
        Refusal::ServerNotInitialized => "the server isn't initialized",
        Refusal::ContentModified => "the text of the document isn't known",
    }
}

/// The answer to the request with an id.
pub fn answer(alloc: Global, id: &Value, given: Value) -> Result<Value, NoMemory>
    ensures { IfOk result (λ made. view made ≡ answer_data (view id.now) (view given)) }
{
    let made = json!(in alloc; {"jsonrpc": "2.0", "id": id, "result": given})?;
    Ok(made)
}

/// The answer that refuses the request with an id.
pub fn error_answer(alloc: Global, id: &Value, refusal: Refusal) -> Result<Value, NoMemory>
    ensures { IfOk result (λ made. view made ≡ error_data (view id.now) refusal) }
{
    let code = error_code(refusal);
    let words = error_words(refusal);
    let made =
        json!(in alloc; {"jsonrpc": "2.0", "id": id, "error": {"code": code, "message": words}})?;
    Ok(made)
}

/// A notice.
pub fn notice(alloc: Global, method: &str, params: Value) -> Result<Value, NoMemory>
    ensures { IfOk result (λ made. view made ≡ notice_data method.now (view params)) }
{
    let made = json!(in alloc; {"jsonrpc": "2.0", "method": method, "params": params})?;
    Ok(made)
}

/// A request with a number for its id.
pub fn request(alloc: Global, id: u64, method: &str, params: Value) -> Result<Value, NoMemory>
    ensures { IfOk result (λ made. view made ≡ request_data id method.now (view params)) }
{
    let made = json!(in alloc; {"jsonrpc": "2.0", "id": id, "method": method, "params": params})?;
    Ok(made)
}
