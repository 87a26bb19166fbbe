//! The methods that are known.

ghost use Rattle.std.specs.Prelude.{◌≡◌};
ghost use Rattle.serde_json.specs.View.{view};
ghost use Rattle.nx_protocol.specs.Methods.{request_named, notice_named, request_of, notice_of};

use nx_wire::envelope::method_in;
use serde_json::Value;

/// What a request asks for.
#[derive(Clone, Copy, Debug, PartialEq, Eq)]
pub enum RequestMethod {
    Initialize,
    Shutdown,
    /// What isn't known.
    Other,
}

/// What a notice tells.
#[derive(Clone, Copy, Debug, PartialEq, Eq)]
pub enum NoticeMethod {
    DidOpen,
    DidChange,
    DidClose,
    Exit,
    /// For which nothing is done: `initialized`, `textDocument/didSave`, and what isn't known.
    Other,
}

fn request_named(name: &str) -> RequestMethod
    ensures { result ≡ request_named name.now }
{
    match name {
        "initialize" => RequestMethod::Initialize,
        "shutdown" => RequestMethod::Shutdown,
        _ => RequestMethod::Other,
    }
}

fn notice_named(name: &str) -> NoticeMethod
    ensures { result ≡ notice_named name.now }
{
    match name {
        "textDocument/didOpen" => NoticeMethod::DidOpen,
        "textDocument/didChange" => NoticeMethod::DidChange,
        "textDocument/didClose" => NoticeMethod::DidClose,
        "exit" => NoticeMethod::Exit,
        _ => NoticeMethod::Other,
    }
}

/// What a message asks for that is a request.
pub fn request_of(message: &Value) -> RequestMethod
    ensures { result ≡ request_of (view message.now) }
{
    match method_in(message) {
        Some(name) => request_named(name),
        None => RequestMethod::Other,
    }
}

/// What a message tells that is a notice.
pub fn notice_of(message: &Value) -> NoticeMethod
    ensures { result ≡ notice_of (view message.now) }
{
    match method_in(message) {
        Some(name) => notice_named(name),
        None => NoticeMethod::Other,
    }
}
