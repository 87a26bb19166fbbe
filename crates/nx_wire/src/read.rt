//! What the content of a message says.

ghost use Rattle.std.specs.Prelude.{◌≡◌, IfOk, option_map};
ghost use Rattle.serde_json.specs.View.{view};
ghost use Rattle.nx_wire.specs.Contents.{Reads};

use nx_base::memory::NoMemory;
use serde_json::Value;
use std::alloc::Global;
use std::str;

/// The value that the content of a message writes; none where it is no JSON.
pub fn value_in(alloc: Global, body: &[u8]) -> Result<Option<Value>, NoMemory>
    ensures { IfOk result (λ found. Reads body.now (option_map view found)) }
{
    let Ok(text) = str::from_utf8(body) else {
        return Ok(None);
    };
    match Value::from_str(alloc, text) {
        Ok(value) => Ok(Some(value)),
        Err(error) => {
            if error.is_memory() {
                Err(NoMemory)
            } else {
                Ok(None)
            }
        }
    }
}
