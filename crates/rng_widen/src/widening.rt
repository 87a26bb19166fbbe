//! What is put to something wider in the text of a schema file.

use crate::facet::Facet;
use crate::schema_type::SchemaType;
use nx_base::sequence::Bytes;

/// What the schema says, and what is held of it.
#[derive(Clone, Copy, Debug, PartialEq, Eq)]
pub enum Note {
    /// The first type is checked as the second.
    Type(SchemaType, SchemaType),
    /// The facet isn't checked.
    Facet(Facet),
    /// The file is ASCII, and is read as UTF-8 in place of the encoding that its declaration names, of which ASCII is a part, too.
    Encoding,
}

/// The bytes from the byte offset `from` of a text to `to`, and the word that is put there, with blanks in place of the other bytes.
#[derive(Drop)]
pub struct Widening {
    pub from: usize,
    pub to: usize,
    pub word: Bytes,
    pub note: Note,
}
