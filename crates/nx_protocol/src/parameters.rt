//! What the parameters of a message say.

ghost use Rattle.std.specs.Prelude.{◌≡◌, All, IsUtf8, IfOk, IfSome, option_map};
ghost use Rattle.serde_json.specs.View.{view};
ghost use Rattle.nx_protocol.specs.Parameters.{params_of, uri_of, version_of, text_of, changes_of, encoding_of};

use nx_base::memory::NoMemory;
use nx_position::change::Change;
use nx_position::position::Encoding;
use nx_wire::document::{content_changes_in, text_in, uri_in, version_in};
use nx_wire::encoding::encoding_in;
use serde_json::Value;
use std::alloc::Global;

fn params_of(message: &Value) -> Option<&Value>
    ensures { option_map (λ params. view params.now) result ≡ params_of (view message.now) }
{
    message.get("params")
}

/// The URI of the document that a message is about.
pub fn uri_of(message: &Value) -> Option<&str>
    ensures { option_map (λ uri. uri.now) result ≡ uri_of (view message.now) }
{
    uri_in(params_of(message)?)
}

/// The version of that document.
pub fn version_of(message: &Value) -> Option<i64>
    ensures { result ≡ version_of (view message.now) }
{
    version_in(params_of(message)?)
}

/// The text of that document.
pub fn text_of(message: &Value) -> Option<&str>
    ensures { option_map (λ text. text.now) result ≡ text_of (view message.now) }
{
    text_in(params_of(message)?)
}

/// The changes of that document's text, where each of them can be read.
pub fn changes_of(alloc: Global, message: &Value) -> Result<Option<Vec<Change>>, NoMemory>
    ensures changes { IfOk result (λ found. option_map (λ changes. changes.items) found ≡ changes_of (view message.now)) }
    ensures utf8 { IfOk result (λ found. IfSome found (λ changes. All (λ change. IsUtf8 change.text) changes.items)) }
{
    match params_of(message) {
        Some(params) => {
            let changes = content_changes_in(alloc, params)?;
            Ok(changes)
        }
        None => Ok(None),
    }
}

/// What columns count for the client that begins with a message.
pub fn encoding_of(message: &Value) -> Encoding
    ensures { result ≡ encoding_of (view message.now) }
{
    match params_of(message) {
        Some(params) => encoding_in(params),
        None => Encoding::Utf16,
    }
}
