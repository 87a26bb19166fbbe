//! The law of where a document type declaration ends. Nothing here runs.

ghost use Rattle.nx_scan.specs.Doctype.{DoctypeEnds};

/// A declaration ends after the first `>` outside of its subset, quoted texts, comments and processing
/// instructions passed.
pub fn doctype_ends()
    ensures { DoctypeEnds }
{}
