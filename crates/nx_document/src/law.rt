//! Laws of well-formed documents: of XML 1.0 without what lies in a document type, of which nothing is
//! asked or used. Nothing here runs.

ghost use Rattle.nx_document.specs.WellFormed.{WellFormedIsDocument, DocumentsHaveNoFault, DocumentsHaveOneTree};
ghost use Rattle.nx_document.specs.WellFormed.{DocumentsHaveProperNames, DocumentsAreWritable, UnprefixedNamesAgree};
ghost use Rattle.nx_document.specs.ApartStrings.{DocumentsHaveApartStrings};
ghost use Rattle.nx_document.specs.LegalReadings.{LegalIsReadWithoutFault, LegalTagsHaveLegalValues};

/// A text holds no fault exactly where its tokens are a document, and its events are then those of the
/// document's tree.
///
/// A document is one by XML 1.0 without what lies in a document type: nothing inside of that is asked
/// or used, references to other entities than the five predefined ones are faults even where it
/// declares them, and the encoding that an XML declaration names, UTF-8 or US-ASCII, isn't compared with
/// the bytes.
pub fn well_formed_is_document()
    ensures { WellFormedIsDocument }
{}

/// Any tokens that are a document have no fault, and the events of its tree; also where they aren't
/// those of a text. What lies in a document type plays no part.
pub fn documents_have_no_fault()
    ensures { DocumentsHaveNoFault }
{}

/// Tokens are a document of one tree at most: a document type adds nothing to it.
pub fn documents_have_one_tree()
    ensures { DocumentsHaveOneTree }
{}

/// The tree of a text has names that a document can have, and attributes with distinct names that
/// attributes can have.
pub fn documents_have_proper_names()
    ensures { DocumentsHaveProperNames }
{}

/// Its strings, too, are of characters that XML allows.
pub fn documents_are_writable()
    ensures { DocumentsAreWritable }
{}

/// No string among the children of an element of a document is empty, and no two stand side by side:
/// text, CDATA sections and references are joined, also over comments and processing instructions.
pub fn documents_have_apart_strings()
    ensures { DocumentsHaveApartStrings }
{}

/// Bytes are legal, as a document asks it of its text, tags, sections, comments and instructions,
/// exactly where reading them part by part, by the cases of XML 1.0, finds no fault. References to
/// other entities than the five predefined ones are faults there, whatever a document type declares.
pub fn legal_is_read_without_fault()
    ensures { LegalIsReadWithoutFault }
{}

/// A tag that is spelled by the grammar is legal exactly where each value that is written in it is: all
/// else in a tag is of characters that XML allows, and without references.
pub fn legal_tags_have_legal_values()
    ensures { LegalTagsHaveLegalValues }
{}

/// Names without a colon are one notion, of the bytes of a name and of its characters.
pub fn unprefixed_names_agree()
    ensures { UnprefixedNamesAgree }
{}
