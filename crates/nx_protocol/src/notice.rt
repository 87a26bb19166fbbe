//! Documents are opened, changed and closed.

ghost use Rattle.std.specs.Prelude.{◌≡◌, ◌&&◌, All, IsUtf8, IfOk, IfSome, OnErr, OnOk, None, option_map};
ghost use Rattle.serde_json.specs.View.{view};
ghost use Rattle.nx_protocol.specs.Answers.{is_read};
ghost use Rattle.nx_protocol.specs.Changes.{changed_document, changed_there, closed, opened, told_document};
ghost use Rattle.nx_protocol.specs.Documents.{Follows, FollowsOrLoses, Puts};
ghost use Rattle.nx_protocol.specs.Notices.{document_behind_notice};
ghost use Rattle.nx_protocol.specs.Parameters.{changes_of, text_of, uri_of, version_of};

use crate::documents::Documents;
use crate::method::NoticeMethod;
use crate::parameters::{changes_of, text_of, uri_of, version_of};
use nx_base::memory::NoMemory;
use nx_position::change::Change;
use nx_position::position::Encoding;
use serde_json::Value;
use std::alloc::Global;

/// What is told as a document's version and text is put under a URI.
fn put<D: Documents>(
    documents: &mut D,
    uri: &str,
    version: Option<i64>,
    text: Option<&str>,
) -> Result<(), NoMemory>
    ensures ok { OnOk result (Puts (D.held documents.old) uri.now (told_document version (option_map (λ text. text.now) text.entry))
        (D.held documents.new)) }
    ensures err { OnErr result (Puts (D.held documents.old) uri.now None (D.held documents.new)) }
{
    let Some(version) = version else {
        documents.forget(uri);
        return Ok(());
    };
    let Some(text) = text else {
        documents.forget(uri);
        return Ok(());
    };
    documents.open_text(uri, version, text)?;
    Ok(())
}

/// The text under a URI is changed as it is told.
fn change<D: Documents>(
    encoding: Encoding,
    documents: &mut D,
    uri: &str,
    version: Option<i64>,
    changes: Option<Vec<Change>>,
) -> Result<(), NoMemory>
    requires { IfSome changes (λ changes. All (λ change. IsUtf8 change.text) changes.items) }
    ensures ok { OnOk result (Puts (D.held documents.old) uri.now
        (changed_document encoding (D.held documents.old uri.now) version (option_map (λ changes. changes.items) changes))
        (D.held documents.new)) }
    ensures err { OnErr result (Puts (D.held documents.old) uri.now None (D.held documents.new)) }
{
    let Some(changes) = changes else {
        documents.forget(uri);
        return Ok(());
    };
    let Some(version) = version else {
        documents.forget(uri);
        return Ok(());
    };
    documents.change_text(encoding, uri, version, changes.as_slice())?;
    Ok(())
}

/// Whether all three hold.
fn are_all(first: bool, second: bool, third: bool) -> bool
    ensures { result ≡ (first && second && third) }
{
    first && second && third
}

/// `textDocument/didOpen`, with what it says.
fn did_open<D: Documents>(
    documents: &mut D,
    uri: Option<&str>,
    version: Option<i64>,
    text: Option<&str>,
) -> Result<(), NoMemory>
    ensures held { OnOk result (Follows (opened (option_map (λ uri. uri.now) uri.entry) version (option_map (λ text. text.now) text.entry))
        (D.held documents.old) (D.held documents.new)) }
    ensures lost { OnErr result (FollowsOrLoses (opened (option_map (λ uri. uri.now) uri.entry) version (option_map (λ text. text.now) text.entry))
        (D.held documents.old) (D.held documents.new)) }
{
    match uri {
        Some(uri) => {
            put(documents, uri, version, text)?;
            Ok(())
        }
        None => {
            documents.forget_all();
            Ok(())
        }
    }
}

/// `textDocument/didChange`, with what it says.
fn did_change<D: Documents>(
    encoding: Encoding,
    documents: &mut D,
    uri: Option<&str>,
    version: Option<i64>,
    changes: Option<Vec<Change>>,
) -> Result<(), NoMemory>
    requires { IfSome changes (λ changes. All (λ change. IsUtf8 change.text) changes.items) }
    ensures held { OnOk result (Follows (changed_there encoding (option_map (λ uri. uri.now) uri.entry) version (option_map (λ changes. changes.items) changes))
        (D.held documents.old) (D.held documents.new)) }
    ensures lost { OnErr result (FollowsOrLoses (changed_there encoding (option_map (λ uri. uri.now) uri.entry) version (option_map (λ changes. changes.items) changes))
        (D.held documents.old) (D.held documents.new)) }
{
    match uri {
        Some(uri) => {
            change(encoding, documents, uri, version, changes)?;
            Ok(())
        }
        None => {
            documents.forget_all();
            Ok(())
        }
    }
}

/// No document is under the URI any more, or none at all where it isn't known which.
fn close<D: Documents>(documents: &mut D, uri: Option<&str>)
    ensures { Follows (closed (option_map (λ uri. uri.now) uri.entry)) (D.held documents.old) (D.held documents.new) }
{
    match uri {
        Some(uri) => documents.forget(uri),
        None => documents.forget_all(),
    }
}

/// `textDocument/didOpen`. Whether it says what it has to say.
fn hear_open<D: Documents>(documents: &mut D, message: &Value) -> Result<bool, NoMemory>
    ensures held { OnOk result (Follows (opened (uri_of (view message.now)) (version_of (view message.now)) (text_of (view message.now)))
        (D.held documents.old) (D.held documents.new)) }
    ensures lost { OnErr result (FollowsOrLoses (opened (uri_of (view message.now)) (version_of (view message.now)) (text_of (view message.now)))
        (D.held documents.old) (D.held documents.new)) }
    ensures read { IfOk result (λ read. read ≡ is_read NoticeMethod.DidOpen (view message.now)) }
{
    let uri = uri_of(message);
    let version = version_of(message);
    let text = text_of(message);
    did_open(documents, uri, version, text)?;
    Ok(are_all(uri.is_some(), version.is_some(), text.is_some()))
}

/// `textDocument/didChange`. Whether it says what it has to say.
fn hear_change<D: Documents>(
    alloc: Global,
    encoding: Encoding,
    documents: &mut D,
    message: &Value,
) -> Result<bool, NoMemory>
    ensures held { OnOk result (Follows (changed_there encoding (uri_of (view message.now)) (version_of (view message.now)) (changes_of (view message.now)))
        (D.held documents.old) (D.held documents.new)) }
    ensures lost { OnErr result (FollowsOrLoses (changed_there encoding (uri_of (view message.now)) (version_of (view message.now)) (changes_of (view message.now)))
        (D.held documents.old) (D.held documents.new)) }
    ensures read { IfOk result (λ read. read ≡ is_read NoticeMethod.DidChange (view message.now)) }
{
    let uri = uri_of(message);
    let version = version_of(message);
    match changes_of(alloc, message) {
        Ok(changes) => {
            let read = are_all(uri.is_some(), version.is_some(), changes.is_some());
            did_change(encoding, documents, uri, version, changes)?;
            Ok(read)
        }
        Err(NoMemory) => {
            close(documents, uri);
            Err(NoMemory)
        }
    }
}

/// `textDocument/didClose`. Whether it says what it has to say.
fn hear_close<D: Documents>(documents: &mut D, message: &Value) -> bool
    ensures held { Follows (closed (uri_of (view message.now))) (D.held documents.old) (D.held documents.new) }
    ensures read { result ≡ is_read NoticeMethod.DidClose (view message.now) }
{
    let uri = uri_of(message);
    close(documents, uri);
    uri.is_some()
}

/// Has documents opened, changed or closed by a notice. Whether that says what it has to say.
pub(crate) fn hear<D: Documents>(
    alloc: Global,
    encoding: Encoding,
    documents: &mut D,
    method: NoticeMethod,
    message: &Value,
) -> Result<bool, NoMemory>
    ensures held { OnOk result (Follows (document_behind_notice method encoding (view message.now)) (D.held documents.old) (D.held documents.new)) }
    ensures lost { OnErr result (FollowsOrLoses (document_behind_notice method encoding (view message.now)) (D.held documents.old)
        (D.held documents.new)) }
    ensures read { IfOk result (λ read. read ≡ is_read method (view message.now)) }
{
    match method {
        NoticeMethod::DidOpen => {
            let read = hear_open(documents, message)?;
            Ok(read)
        }
        NoticeMethod::DidChange => {
            let read = hear_change(alloc, encoding, documents, message)?;
            Ok(read)
        }
        NoticeMethod::DidClose => Ok(hear_close(documents, message)),
        NoticeMethod::Exit => Ok(true),
        NoticeMethod::Other => Ok(true),
    }
}
