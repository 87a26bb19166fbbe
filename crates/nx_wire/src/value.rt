//! What stands under a key of a value.

ghost use Rattle.std.specs.Prelude.{◌≡◌, option_map, option_and_then};
ghost use Rattle.serde_json.specs.Find.{get};
ghost use Rattle.serde_json.specs.View.{view};
ghost use Rattle.nx_wire.specs.Values.{integer_at, number_at, text_at};

use serde_json::Value;

/// The number under a key, where that is a whole one from 0 up to 2^64 - 1.
pub fn number_at(value: &Value, key: &str) -> Option<u64>
    ensures { result ≡ number_at key.now (view value.now) }
{
    value.get(key).and_then(Value::as_u64)
}

/// The number under a key, where that is a whole one from -2^63 up to 2^63 - 1.
pub fn integer_at(value: &Value, key: &str) -> Option<i64>
    ensures { result ≡ integer_at key.now (view value.now) }
{
    value.get(key).and_then(Value::as_i64)
}

/// The text under a key.
pub fn text_at<'a>(value: &'a Value, key: &str) -> Option<&'a str>
    ensures { option_map (λ text. text.now) result ≡ text_at key.now (view value.now) }
{
    value.get(key).and_then(Value::as_str)
}

/// The value under a key.
pub fn value_at<'a>(value: &'a Value, key: &str) -> Option<&'a Value>
    ensures { option_map (λ found. view found.now) result ≡ get key.now (view value.now) }
{
    value.get(key)
}
