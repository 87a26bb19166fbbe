//! What a message is, by JSON-RPC 2.0: a request, a notice, an answer, or none of these.

ghost use Rattle.std.specs.Prelude.{◌≡◌, ◌||◌, codes, option_map};
ghost use Rattle.serde_json.specs.View.{view};
ghost use Rattle.nx_wire.specs.Envelopes.{answer_by, call_by, has_key, id_in, is_id, kind_of, method_in};

use crate::value::text_at;
use serde_json::Value;

/// What a message is.
#[derive(Clone, Copy, Debug, PartialEq, Eq)]
pub enum Kind {
    /// It has a method and an id, and is answered.
    Request,
    /// It has a method and no id, and isn't.
    Notice,
    /// It has no method, and a result or an error.
    Answer,
    /// None of these.
    Wrong,
}

/// The method that a message calls.
pub fn method_in(message: &Value) -> Option<&str>
    ensures { option_map (λ method. method.now) result ≡ method_in (view message.now) }
{
    text_at(message, "method")
}

/// The id of a message, where that is a whole number or a text.
pub fn id_in(message: &Value) -> Option<&Value>
    ensures { option_map (λ id. view id.now) result ≡ id_in (view message.now) }
{
    match message.get("id") {
        Some(id) if is_id(id) => Some(id),
        _ => None,
    }
}

/// Whether a value is one that stands as an id.
fn is_id(value: &Value) -> bool
    ensures { result ≡ is_id (view value.now) }
{
    value.is_i64() || value.is_string()
}

/// What a message with a method is: one that is a text or not, with an id or not, and one that can be read or not.
fn call_by(text: bool, id: bool, read: bool) -> Kind
    ensures { result ≡ call_by text id read }
{
    match (text, id, read) {
        (true, false, _) => Kind::Notice,
        (true, true, true) => Kind::Request,
        _ => Kind::Wrong,
    }
}

/// What a message without a method is.
fn answer_by(answers: bool) -> Kind
    ensures { result ≡ answer_by answers }
{
    if answers { Kind::Answer } else { Kind::Wrong }
}

/// Whether something stands under a key.
fn has_key(message: &Value, key: &str) -> bool
    ensures { result ≡ has_key key.now (view message.now) }
{
    message.get(key).is_some()
}

/// Whether a message has a result or an error.
fn answers(message: &Value) -> bool
    ensures { result ≡ (has_key (codes "result") (view message.now) || has_key (codes "error") (view message.now)) }
{
    has_key(message, "result") || has_key(message, "error")
}

/// What a message is.
pub fn kind_of(message: &Value) -> Kind
    ensures { result ≡ kind_of (view message.now) }
{
    if has_key(message, "method") {
        let text = method_in(message).is_some();
        let id = has_key(message, "id");
        let read = id_in(message).is_some();
        call_by(text, id, read)
    } else {
        answer_by(answers(message))
    }
}
