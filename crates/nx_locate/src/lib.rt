//! The schema of a document, by locating rules.
//!
//! Rules stand in files that are read as documents without a schema: the children of the root `locatingRules` are rules, in order.
//! A rule applies to a document by its URI, by its document element, or always, and leads to a schema; the first rule that yields
//! one wins. `locate` goes through these steps.
//!
//! 1. `load`: the first rules file and all that it includes are fetched, depth first, and read (`rules_file`, `read`). Their rules
//!    make one list, in which an include is replaced by the rules of its file (`rule`).
//! 2. `document_element`: the text is read up to its first element that isn't lost.
//! 3. `leading`: rules are held against both, in order. `uri_pattern` says what a pattern is held against and what it makes, and
//!    `pattern` holds it against a text.
//!
//! For `<transformURI fromPattern="*.xml" toPattern="*.rnc"/>`, `<documentElement localName="book" typeId="DocBook"/>` and
//! `<typeId id="DocBook" uri="docbook.rnc"/>` in `d/schemas.xml`, the document `d/book.xml` and the text `<book/>`: the first rule
//! makes `d/book.rnc`, and yields it where that file is there. Otherwise the second rule applies, and its type leads to
//! `d/docbook.rnc`.
//!
//! What `locate` answers stands in specs/Locates.antt. To believe it one reads that file and the five on which it stands: Rules,
//! RulesFiles, DocumentElements, Leading and Patterns; that it is one answer says Unambiguous. All other files of specs/ say what the
//! parts of the code do, for the proof.
#![tactic(auto)]

pub mod document_element;
pub mod law;
mod leading;
mod load;
pub mod locating;
mod pattern;
mod read;
pub mod rule;
mod rules_file;
mod uri_pattern;
pub mod xml_model;

pub use locating::locate;
pub use nx_base::locate_fault::LocateFault;
pub use xml_model::named_schema;
