//! Messages as they are sent.

ghost use Rattle.std.specs.Prelude.{◌≡◌, OnErr, OnOk};
ghost use Rattle.serde_json.specs.View.{view};
ghost use Rattle.nx_wire.specs.Sent.{Sends};

use crate::frame::push_frame;
use nx_base::memory::NoMemory;
use serde_json::Value;
use std::alloc::Global;

/// Adds a message that says a value; nothing where there is no memory.
pub fn push_message(alloc: Global, out: &mut Vec<u8>, message: &Value) -> Result<(), NoMemory>
    ensures ok { OnOk result (Sends out.old.items (view message.now) out.new.items) }
    ensures err { OnErr result (out.new.items ≡ out.old.items) }
{
    let text = message.to_string(alloc)?;
    push_frame(alloc, out, text.as_bytes())?;
    Ok(())
}
