//! Laws of what completes a document, each a function that does nothing.

ghost use Rattle.nx_fill.specs.Laws.{FillingsFill, LaterTextsComplete, RestsComplete};

/// What a text without a fault has at a tag's place, behind the same text, may be completed there: the start of each element that it begins,
/// and the end of the innermost one.
pub fn later_texts_complete()
    ensures { LaterTextsComplete }
{}

/// Against a live schema, what is left in front of a place behind which nothing has a fault tells all the events that complete the document.
pub fn rests_complete()
    ensures { RestsComplete }
{}

/// Against a schema that lives and is sound, an offer is filled by what is left in front of its place.
pub fn fillings_fill()
    ensures { FillingsFill }
{}
