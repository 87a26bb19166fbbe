//! Which document a message is about, and what it says of it.

ghost use Rattle.std.specs.Prelude.{◌≡◌, All, IsUtf8, IfOk, IfSome, option_map};
ghost use Rattle.serde_json.specs.View.{view};
ghost use Rattle.nx_wire.specs.Documents.{uri_in, version_in, text_in, content_changes_in};

use crate::change::changes_in;
use crate::value::{integer_at, text_at};
use nx_base::memory::NoMemory;
use nx_position::change::Change;
use serde_json::Value;
use std::alloc::Global;

/// The URI of the parameters' document.
pub fn uri_in(params: &Value) -> Option<&str>
    ensures { option_map (λ uri. uri.now) result ≡ uri_in (view params.now) }
{
    text_at(params.get("textDocument")?, "uri")
}

/// The version of the parameters' document.
pub fn version_in(params: &Value) -> Option<i64>
    ensures { result ≡ version_in (view params.now) }
{
    integer_at(params.get("textDocument")?, "version")
}

/// The text of the parameters' document.
pub fn text_in(params: &Value) -> Option<&str>
    ensures { option_map (λ text. text.now) result ≡ text_in (view params.now) }
{
    text_at(params.get("textDocument")?, "text")
}

/// The changes that the parameters list, where each of them can be read.
pub fn content_changes_in(alloc: Global, params: &Value) -> Result<Option<Vec<Change>>, NoMemory>
    ensures changes { IfOk result (λ found. option_map (λ changes. changes.items) found ≡ content_changes_in (view params.now)) }
    ensures utf8 { IfOk result (λ found. IfSome found (λ changes. All (λ change. IsUtf8 change.text) changes.items)) }
{
    match params.get("contentChanges").and_then(Value::as_array) {
        Some(values) => {
            let changes = changes_in(alloc, values.as_slice())?;
            Ok(changes)
        }
        None => Ok(None),
    }
}
