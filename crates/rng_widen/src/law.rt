//! Laws of what is handed on. Nothing here runs.

ghost use Rattle.rng_widen.specs.Laws.{OtherTextsStay, TextsKeepTheirLength, TokensTell, FaultsTellNothing, FilesTellTheirs};
ghost use Rattle.rng_widen.specs.Laws.{TypesAreCheckedByHeldOnes, HeldTypesStay, HeldFacetsStay, WiderTypesAreWider, SomeFormTakesAll};

/// A text in which nothing is put to something wider is handed on as it is.
pub fn other_texts_stay()
    ensures { OtherTextsStay }
{}

/// What is handed on has as many bytes.
pub fn texts_keep_their_length()
    ensures { TextsKeepTheirLength }
{}

/// In the compact syntax the tokens of a text tell what is put to something wider.
pub fn tokens_tell()
    ensures { TokensTell }
{}

/// Nothing is in a text that isn't tokens.
pub fn faults_tell_nothing()
    ensures { FaultsTellNothing }
{}

/// Files that hand on the same hold the same.
pub fn files_tell_theirs()
    ensures { FilesTellTheirs }
{}

/// Each type is checked by one that is held.
pub fn types_are_checked_by_held_ones()
    ensures { TypesAreCheckedByHeldOnes }
{}

/// A type that is held is checked as it is.
pub fn held_types_stay()
    ensures { HeldTypesStay }
{}

/// Of a type that is held no facet is left out that it takes.
pub fn held_facets_stay()
    ensures { HeldFacetsStay }
{}

/// The type by which another is checked takes all texts of that one: every text, or names and lists of names as an entity's are.
pub fn wider_types_are_wider()
    ensures wider { WiderTypesAreWider }
    ensures takes_all { SomeFormTakesAll }
{}
