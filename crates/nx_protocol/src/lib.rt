//! The Language Server Protocol 3.17, as far as it is about the order of messages and the texts of documents.
//!
//! A client opens a document with its text, tells each change of it as a part that is replaced, and closes it. So what a server holds has to
//! be what the client holds. `Documents` is what holds texts by their URIs; `serve` takes one message: it answers it, and has the documents
//! opened, changed or closed. Where a change can't be read, or there is no memory for it, the document's text isn't known any more, and
//! nothing is held under its URI until the client sends it whole.
//!
//! What a message does stands in specs/: Talks (the order), Notices and Changes (the text under a URI), Answers (what is sent back), over
//! Parameters and Methods; Serving and Runs put them together.
#![tactic(auto)]

mod answer;
pub mod by_uri;
pub mod bytes;
pub mod documents;
pub mod law;
pub mod method;
mod notice;
pub mod parameters;
pub mod serve;
pub mod talk;
