//! Laws of commands on tags: what is given where tags are put in, and where a name is another. Nothing here runs.

ghost use Rattle.nx_tags.specs.Answers.{AnswersAreOne};
ghost use Rattle.nx_tags.specs.Fitting.{EndsFitWhereTagsNest};
ghost use Rattle.nx_tags.specs.Given.{FinishingGives, PairingGives, SplittingGives};
ghost use Rattle.nx_tags.specs.Renamed.{RenamingGives, RenamingKeepsEvents};

/// A command on the tags of a text has one answer.
pub fn answers_are_one()
    ensures { AnswersAreOne }
{}

/// The end tag of the innermost open element, put in at a free place, leaves the other tokens and ends that element alone.
pub fn finishing_gives()
    ensures { FinishingGives }
{}

/// The tags of a name, put in at a free place, leave the other tokens and make an element without content.
pub fn pairing_gives()
    ensures { PairingGives }
{}

/// The end tag of the innermost open element and another start tag of it, put in where it may be split, leave the other tokens, end the
/// element and begin it anew in the same scope.
pub fn splitting_gives()
    ensures { SplittingGives }
{}

/// Another name for an element leaves every token and item, moved with the text, but what the element is called.
pub fn renaming_gives()
    ensures { RenamingGives }
{}

/// Where the other name resolves to the same one, the events are the same, and the faults are those before, moved with the text.
pub fn renaming_keeps_events()
    ensures { RenamingKeepsEvents }
{}

/// An end tag is that of a start tag with what nests between them exactly where it closes what the start tag opened, and no token up to it
/// gives the fault of an end tag that is missing, or of one that is extra.
pub fn ends_fit_where_tags_nest()
    ensures { EndsFitWhereTagsNest }
{}
