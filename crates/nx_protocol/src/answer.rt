//! What is sent back.

ghost use Rattle.std.specs.Prelude.{◌≡◌, IfOk, OnErr, OnOk};
ghost use Rattle.serde_json.specs.Data.{null};
ghost use Rattle.serde_json.specs.View.{view};
ghost use Rattle.nx_wire.specs.Answers.{error_data};
ghost use Rattle.nx_wire.specs.Envelopes.{kind_of};
ghost use Rattle.nx_wire.specs.Sent.{Sends};
ghost use Rattle.nx_protocol.specs.Answers.{answer_to_request, id_of, result_of, shown_data, starved_answer_to_kind, starved_data, unread_data};
ghost use Rattle.nx_protocol.specs.Serving.{SendsMaybe};

use crate::method::RequestMethod;
use crate::parameters::encoding_of;
use crate::talk::Phase;
use nx_base::memory::NoMemory;
use nx_wire::answer::{Refusal, answer, error_answer, notice};
use nx_wire::capabilities::initialize_result;
use nx_wire::envelope::{Kind, id_in, kind_of};
use nx_wire::send::push_message;
use serde_json::{Value, json};
use std::alloc::Global;

/// What is shown where a notice doesn't say what it has to say.
const UNREAD: &str =
    "a message about a document can't be read; close the document and open it again";

/// What is shown where there was no memory for a notice.
const STARVED: &str = "there is no memory; close the document and open it again";

/// The protocol's number of messages that tell errors.
const ERROR: u64 = 1;

/// What a request that is done is answered with.
fn result_of(alloc: Global, method: RequestMethod, message: &Value) -> Result<Value, NoMemory>
    ensures { IfOk result (λ made. view made ≡ result_of method (view message.now)) }
{
    match method {
        RequestMethod::Initialize => {
            let made = initialize_result(alloc, encoding_of(message))?;
            Ok(made)
        }
        RequestMethod::Shutdown => Ok(Value::Null),
        RequestMethod::Other => Ok(Value::Null),
    }
}

/// The id of a message, or what stands for none.
fn id_of<'a>(message: &'a Value, nothing: &'a Value) -> &'a Value
    requires { view nothing.now ≡ null }
    ensures { view result.now ≡ id_of (view message.now) }
{
    match id_in(message) {
        Some(id) => id,
        None => nothing,
    }
}

/// The answer to a request.
fn answer_to_request(
    alloc: Global,
    phase: Phase,
    method: RequestMethod,
    message: &Value,
) -> Result<Value, NoMemory>
    ensures { IfOk result (λ made. view made ≡ answer_to_request phase method (view message.now)) }
{
    let nothing = Value::Null;
    let id = id_of(message, &nothing);
    match phase.refusal_of(method) {
        Some(refusal) => {
            let made = error_answer(alloc, id, refusal)?;
            Ok(made)
        }
        None => {
            let given = result_of(alloc, method, message)?;
            let made = answer(alloc, id, given)?;
            Ok(made)
        }
    }
}

/// Adds the answer to a request.
pub(crate) fn push_answer(
    alloc: Global,
    phase: Phase,
    method: RequestMethod,
    message: &Value,
    out: &mut Vec<u8>,
) -> Result<(), NoMemory>
    ensures ok { OnOk result (Sends out.old.items (answer_to_request phase method (view message.now)) out.new.items) }
    ensures err { OnErr result (out.new.items ≡ out.old.items) }
{
    let made = answer_to_request(alloc, phase, method, message)?;
    push_message(alloc, out, &made)?;
    Ok(())
}

/// Adds the answer that refuses a message.
pub(crate) fn push_refusal(
    alloc: Global,
    message: &Value,
    refusal: Refusal,
    out: &mut Vec<u8>,
) -> Result<(), NoMemory>
    ensures ok { OnOk result (Sends out.old.items (error_data (id_of (view message.now)) refusal) out.new.items) }
    ensures err { OnErr result (out.new.items ≡ out.old.items) }
{
    let nothing = Value::Null;
    let id = id_of(message, &nothing);
    let made = error_answer(alloc, id, refusal)?;
    push_message(alloc, out, &made)?;
    Ok(())
}

/// Adds the answer that refuses a message of which the id isn't known.
pub(crate) fn push_unnamed(
    alloc: Global,
    refusal: Refusal,
    out: &mut Vec<u8>,
) -> Result<(), NoMemory>
    ensures ok { OnOk result (Sends out.old.items (error_data null refusal) out.new.items) }
    ensures err { OnErr result (out.new.items ≡ out.old.items) }
{
    let made = error_answer(alloc, &Value::Null, refusal)?;
    push_message(alloc, out, &made)?;
    Ok(())
}

/// The notice that shows words to the user, as an error.
fn shown(alloc: Global, words: &str) -> Result<Value, NoMemory>
    ensures { IfOk result (λ made. view made ≡ shown_data words.now) }
{
    let params = json!(in alloc; {"type": ERROR, "message": words})?;
    let made = notice(alloc, "window/showMessage", params)?;
    Ok(made)
}

/// Adds what is shown where a notice doesn't say what it has to say.
pub(crate) fn push_unread(alloc: Global, out: &mut Vec<u8>) -> Result<(), NoMemory>
    ensures ok { OnOk result (Sends out.old.items unread_data out.new.items) }
    ensures err { OnErr result (out.new.items ≡ out.old.items) }
{
    let made = shown(alloc, UNREAD)?;
    push_message(alloc, out, &made)?;
    Ok(())
}

/// Adds what is shown where there was no memory for a notice.
fn push_starved(alloc: Global, out: &mut Vec<u8>) -> Result<(), NoMemory>
    ensures ok { OnOk result (Sends out.old.items starved_data out.new.items) }
    ensures err { OnErr result (out.new.items ≡ out.old.items) }
{
    let made = shown(alloc, STARVED)?;
    push_message(alloc, out, &made)?;
    Ok(())
}

/// Adds what is sent back for a message where there is no memory to serve it.
pub(crate) fn push_starved_answer(
    alloc: Global,
    message: &Value,
    out: &mut Vec<u8>,
) -> Result<(), NoMemory>
    ensures ok { OnOk result (SendsMaybe out.old.items (starved_answer_to_kind (kind_of (view message.now)) (view message.now)) out.new.items) }
    ensures err { OnErr result (out.new.items ≡ out.old.items) }
{
    match kind_of(message) {
        Kind::Request => push_refusal(alloc, message, Refusal::InternalError, out),
        Kind::Notice => push_starved(alloc, out),
        Kind::Answer => Ok(()),
        Kind::Wrong => push_refusal(alloc, message, Refusal::InternalError, out),
    }
}
