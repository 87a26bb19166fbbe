//! What the server can do, as it tells its client at the start.

ghost use Rattle.std.specs.Prelude.{◌≡◌, IfOk};
ghost use Rattle.serde_json.specs.View.{view};
ghost use Rattle.nx_wire.specs.Capabilities.{capabilities_data, info_data, initialized_data, sync_data};

use crate::encoding::encoding_name;
use nx_base::memory::NoMemory;
use nx_position::position::Encoding;
use serde_json::{Value, json};
use std::alloc::Global;

/// The protocol's number of changes that are sent in parts.
const INCREMENTAL: u64 = 2;

/// How documents are to be told: opened and closed, and changed in parts.
fn sync_value(alloc: Global) -> Result<Value, NoMemory>
    ensures { IfOk result (λ made. view made ≡ sync_data) }
{
    let made = json!(in alloc; {"openClose": true, "change": INCREMENTAL})?;
    Ok(made)
}

/// The `ServerCapabilities` with this encoding.
fn capabilities_value(alloc: Global, encoding: Encoding) -> Result<Value, NoMemory>
    ensures { IfOk result (λ made. view made ≡ capabilities_data encoding) }
{
    let sync = sync_value(alloc)?;
    let name = encoding_name(encoding);
    let made = json!(in alloc; {"positionEncoding": name, "textDocumentSync": sync})?;
    Ok(made)
}

/// What the server is called.
fn info_value(alloc: Global) -> Result<Value, NoMemory>
    ensures { IfOk result (λ made. view made ≡ info_data) }
{
    let made = json!(in alloc; {"name": "nxml-server"})?;
    Ok(made)
}

/// The `InitializeResult` with this encoding.
pub fn initialize_result(alloc: Global, encoding: Encoding) -> Result<Value, NoMemory>
    ensures { IfOk result (λ made. view made ≡ initialized_data encoding) }
{
    let able = capabilities_value(alloc, encoding)?;
    let info = info_value(alloc)?;
    let made = json!(in alloc; {"capabilities": able, "serverInfo": info})?;
    Ok(made)
}
