//! What a well-formed document is, by nesting: a grammar over the list of its tokens (XML 1.0), with
//! the constraints on names and namespace declarations (Namespaces in XML 1.0) at each token.
//!
//! Cutting a text into tokens is the scanner's, and nx_events turns tokens into events and faults by a
//! state and a fold. Here stands the definition that both are measured against, and the laws that a
//! text has no fault exactly where it is a document, whose tree its events are. Nothing here runs.
//!
//! This is the well-formedness of XML 1.0 without what lies in a document type:
//! - a document type is a token that begins with `<!DOCTYPE` and ends where its marks say; nothing
//!   inside of it is asked or used, so that `<!DOCTYPE><a/>` has no fault, and types and defaults of
//!   attributes that are declared there don't count;
//! - references stand for a character by its number, or for one of the five predefined entities; each
//!   other is a fault, even where a document type declares that entity;
//! - an XML declaration may name UTF-8 or US-ASCII as its encoding, and each other is a fault; the
//!   encoding that it names isn't compared with the bytes, which are UTF-8, so that a text that calls
//!   itself US-ASCII may hold other characters.
#![tactic(auto)]

pub mod law;
