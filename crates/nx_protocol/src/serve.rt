//! One message is served.

ghost use Rattle.std.specs.Prelude.{◌≡◌, None, Some, OnErr, OnOk, cond};
ghost use Rattle.serde_json.specs.Data.{null};
ghost use Rattle.serde_json.specs.View.{view};
ghost use Rattle.nx_wire.specs.Answers.{error_data};
ghost use Rattle.nx_wire.specs.Sent.{Sends};
ghost use Rattle.nx_protocol.specs.Answers.{answer_to_notice, answer_to_request};
ghost use Rattle.nx_protocol.specs.Documents.{Follows, FollowsOrLoses};
ghost use Rattle.nx_protocol.specs.Notices.{document_behind, rule_where};
ghost use Rattle.nx_protocol.specs.Serving.{Fails, FailsContent, FailsKind, SendsMaybe, Serves, ServesContent, ServesKind, ServesOrStarves, state};
ghost use Rattle.nx_protocol.specs.Talks.{is_running, talk_behind_notice, talk_behind_request};

use crate::answer::{push_answer, push_refusal, push_starved_answer, push_unnamed, push_unread};
use crate::documents::Documents;
use crate::method::{NoticeMethod, RequestMethod, notice_of, request_of};
use crate::notice::hear;
use crate::talk::Talk;
use nx_base::memory::NoMemory;
use nx_position::position::Encoding;
use nx_wire::answer::Refusal;
use nx_wire::envelope::{Kind, kind_of};
use nx_wire::read::value_in;
use serde_json::Value;
use std::alloc::Global;

/// Answers a request.
fn serve_request(
    alloc: Global,
    talk: &mut Talk,
    method: RequestMethod,
    message: &Value,
    out: &mut Vec<u8>,
) -> Result<(), NoMemory>
    ensures talk { OnOk result (talk.new ≡ talk_behind_request method talk.old (view message.now)) }
    ensures answer { OnOk result (Sends out.old.items (answer_to_request talk.old.phase method (view message.now)) out.new.items) }
    ensures talk_stays { OnErr result (talk.new ≡ talk.old) }
    ensures silent { OnErr result (out.new.items ≡ out.old.items) }
{
    push_answer(alloc, talk.phase, method, message, out)?;
    *talk = talk.behind_request(method, message);
    Ok(())
}

/// Has documents opened, changed or closed by a notice, where that is heard, and tells where it can't be read.
fn hear_notice<D: Documents>(
    alloc: Global,
    heard: bool,
    encoding: Encoding,
    documents: &mut D,
    method: NoticeMethod,
    message: &Value,
    out: &mut Vec<u8>,
) -> Result<(), NoMemory>
    ensures held { OnOk result (Follows (rule_where heard method encoding (view message.now)) (D.held documents.old) (D.held documents.new)) }
    ensures answer { OnOk result (SendsMaybe out.old.items (cond heard (answer_to_notice method (view message.now)) None) out.new.items) }
    ensures lost { OnErr result (FollowsOrLoses (rule_where heard method encoding (view message.now)) (D.held documents.old)
        (D.held documents.new)) }
    ensures silent { OnErr result (out.new.items ≡ out.old.items) }
{
    if !heard {
        return Ok(());
    }
    let read = hear(alloc, encoding, documents, method, message)?;
    if read {
        return Ok(());
    }
    push_unread(alloc, out)?;
    Ok(())
}

/// Serves a notice.
fn serve_notice<D: Documents>(
    alloc: Global,
    talk: &mut Talk,
    documents: &mut D,
    method: NoticeMethod,
    message: &Value,
    out: &mut Vec<u8>,
) -> Result<(), NoMemory>
    ensures talk { OnOk result (talk.new ≡ talk_behind_notice method talk.old) }
    ensures held { OnOk result (Follows (rule_where (is_running talk.old.phase) method talk.old.encoding (view message.now))
        (D.held documents.old) (D.held documents.new)) }
    ensures answer { OnOk result (SendsMaybe out.old.items (cond (is_running talk.old.phase) (answer_to_notice method (view message.now)) None)
        out.new.items) }
    ensures talk_stays { OnErr result (talk.new ≡ talk.old) }
    ensures lost { OnErr result (FollowsOrLoses (rule_where (is_running talk.old.phase) method talk.old.encoding (view message.now))
        (D.held documents.old) (D.held documents.new)) }
    ensures silent { OnErr result (out.new.items ≡ out.old.items) }
{
    let heard = talk.phase.is_running();
    hear_notice(alloc, heard, talk.encoding, documents, method, message, out)?;
    *talk = talk.behind_notice(method);
    Ok(())
}

/// Serves a message of this kind.
fn serve_kind<D: Documents>(
    alloc: Global,
    talk: &mut Talk,
    documents: &mut D,
    kind: Kind,
    message: &Value,
    out: &mut Vec<u8>,
) -> Result<(), NoMemory>
    ensures ok { OnOk result (ServesKind kind (state talk.old (D.held documents.old)) (view message.now)
        (state talk.new (D.held documents.new)) out.old.items out.new.items) }
    ensures err { OnErr result (FailsKind kind (state talk.old (D.held documents.old)) (view message.now)
        (state talk.new (D.held documents.new))) }
    ensures silent { OnErr result (out.new.items ≡ out.old.items) }
{
    match kind {
        Kind::Request => {
            let method = request_of(message);
            serve_request(alloc, talk, method, message, out)?;
            Ok(())
        }
        Kind::Notice => {
            let method = notice_of(message);
            serve_notice(alloc, talk, documents, method, message, out)?;
            Ok(())
        }
        Kind::Answer => Ok(()),
        Kind::Wrong => {
            push_refusal(alloc, message, Refusal::InvalidRequest, out)?;
            Ok(())
        }
    }
}

/// Serves a message.
fn serve_message<D: Documents>(
    alloc: Global,
    talk: &mut Talk,
    documents: &mut D,
    message: &Value,
    out: &mut Vec<u8>,
) -> Result<(), NoMemory>
    ensures ok { OnOk result (Serves (state talk.old (D.held documents.old)) (Some (view message.now))
        (state talk.new (D.held documents.new)) out.old.items out.new.items) }
    ensures err { OnErr result (Fails (state talk.old (D.held documents.old)) (Some (view message.now))
        (state talk.new (D.held documents.new))) }
    ensures silent { OnErr result (out.new.items ≡ out.old.items) }
{
    let kind = kind_of(message);
    serve_kind(alloc, talk, documents, kind, message, out)?;
    Ok(())
}

/// Serves a message, or says that there was no memory for it. It fails where there is none even for that.
pub fn serve<D: Documents>(
    alloc: Global,
    talk: &mut Talk,
    documents: &mut D,
    message: &Value,
    out: &mut Vec<u8>,
) -> Result<(), NoMemory>
    ensures ok { OnOk result (ServesOrStarves (state talk.old (D.held documents.old)) (Some (view message.now))
        (state talk.new (D.held documents.new)) out.old.items out.new.items) }
    ensures err { OnErr result (Fails (state talk.old (D.held documents.old)) (Some (view message.now))
        (state talk.new (D.held documents.new))) }
    ensures silent { OnErr result (out.new.items ≡ out.old.items) }
{
    match serve_message(alloc, talk, documents, message, out) {
        Ok(()) => Ok(()),
        Err(NoMemory) => {
            push_starved_answer(alloc, message, out)?;
            Ok(())
        }
    }
}

/// Serves what is no JSON: no text is known any more, since it may have been about any.
fn serve_garbled<D: Documents>(
    alloc: Global,
    talk: &Talk,
    documents: &mut D,
    out: &mut Vec<u8>,
) -> Result<(), NoMemory>
    ensures held { Follows (document_behind talk.now None) (D.held documents.old) (D.held documents.new) }
    ensures answer { OnOk result (Sends out.old.items (error_data null Refusal.ParseError) out.new.items) }
    ensures silent { OnErr result (out.new.items ≡ out.old.items) }
{
    if talk.phase.is_running() {
        documents.forget_all();
    }
    push_unnamed(alloc, Refusal::ParseError, out)
}

/// Serves the message of a content, or says that there was no memory for it. It fails where there is none even for that.
pub fn serve_content<D: Documents>(
    alloc: Global,
    talk: &mut Talk,
    documents: &mut D,
    body: &[u8],
    out: &mut Vec<u8>,
) -> Result<(), NoMemory>
    ensures ok { OnOk result (ServesContent (state talk.old (D.held documents.old)) body.now
        (state talk.new (D.held documents.new)) out.old.items out.new.items) }
    ensures err { OnErr result (FailsContent (state talk.old (D.held documents.old)) body.now
        (state talk.new (D.held documents.new))) }
    ensures silent { OnErr result (out.new.items ≡ out.old.items) }
{
    match value_in(alloc, body) {
        Ok(Some(message)) => {
            serve(alloc, talk, documents, &message, out)?;
            Ok(())
        }
        Ok(None) => {
            serve_garbled(alloc, talk, documents, out)?;
            Ok(())
        }
        Err(NoMemory) => {
            documents.forget_all();
            push_unnamed(alloc, Refusal::InternalError, out)?;
            Ok(())
        }
    }
}
