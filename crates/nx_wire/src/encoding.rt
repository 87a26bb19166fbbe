//! What columns count, as client and server agree upon it.

ghost use Rattle.std.specs.Prelude.{◌≡◌, option_map};
ghost use Rattle.serde_json.specs.View.{items_view, view};
ghost use Rattle.nx_wire.specs.Encodings.{encoding_named, encoding_of, first_encoding, encoding_in, encodings_in, encoding_name};

use nx_position::position::Encoding;
use serde_json::Value;

/// The encoding of a name of `PositionEncodingKind`.
fn encoding_named(name: &str) -> Option<Encoding>
    ensures { result ≡ encoding_named name.now }
{
    match name {
        "utf-8" => Some(Encoding::Utf8),
        "utf-16" => Some(Encoding::Utf16),
        "utf-32" => Some(Encoding::Utf32),
        _ => None,
    }
}

/// The encoding that a value names.
fn encoding_of(value: &Value) -> Option<Encoding>
    ensures { result ≡ encoding_of (view value.now) }
{
    encoding_named(value.as_str()?)
}

/// The first of these that is known; UTF-16, which each client knows, where none is.
fn first_encoding(values: &[Value]) -> Encoding
    ensures { result ≡ first_encoding (items_view values.now) }
{
    let mut rest = values;
    while let Some((value, behind)) = rest.split_first() {
        if let Some(encoding) = encoding_of(value) {
            return encoding;
        }
        rest = behind;
    }
    Encoding::Utf16
}

/// The encoding that is agreed upon with a client of these parameters of `initialize`.
pub fn encoding_in(params: &Value) -> Encoding
    ensures { result ≡ encoding_in (view params.now) }
{
    match encodings_in(params) {
        Some(values) => first_encoding(values.as_slice()),
        None => Encoding::Utf16,
    }
}

/// The encodings that a client lists, the one first that it likes best.
fn encodings_in(params: &Value) -> Option<&Vec<Value>>
    ensures { option_map (λ values. items_view values.now.items) result ≡ encodings_in (view params.now) }
{
    let general = params.get("capabilities")?.get("general")?;
    general.get("positionEncodings")?.as_array()
}

/// The name of an encoding.
pub fn encoding_name(encoding: Encoding) -> &'static str
    ensures { result.now ≡ encoding_name encoding }
{
    match encoding {
        Encoding::Utf8 => "utf-8",
        Encoding::Utf16 => "utf-16",
        Encoding::Utf32 => "utf-32",
    }
}
