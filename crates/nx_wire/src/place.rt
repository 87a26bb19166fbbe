//! Places and parts of a text, as messages tell them.

ghost use Rattle.std.specs.Prelude.{◌≡◌, option_and_then};
ghost use Rattle.serde_json.specs.Find.{get};
ghost use Rattle.serde_json.specs.View.{view};
ghost use Rattle.nx_wire.specs.Places.{position_in, range_in};

use crate::value::number_at;
use nx_position::change::Range;
use nx_position::position::Position;
use serde_json::Value;

/// What a value says as a `Position`.
pub fn position_in(value: &Value) -> Option<Position>
    ensures { result ≡ position_in (view value.now) }
{
    let line = number_at(value, "line")?;
    let column = number_at(value, "character")?;
    Some(Position {
        line: line as usize,
        column: column as usize,
    })
}

/// What the value under a key says as a `Position`.
pub fn position_at(value: &Value, key: &str) -> Option<Position>
    ensures { result ≡ option_and_then position_in (get key.now (view value.now)) }
{
    position_in(value.get(key)?)
}

/// What a value says as a `Range`.
pub fn range_in(value: &Value) -> Option<Range>
    ensures { result ≡ range_in (view value.now) }
{
    let start = position_at(value, "start")?;
    let end = position_at(value, "end")?;
    Some(Range { start, end })
}
