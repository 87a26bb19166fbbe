//! Laws of languages that are one but for the numbers of their definitions. Nothing here runs.

ghost use Rattle.nx_numbering.specs.Answers.{NumbersBreakTheSame, NumbersHaveSameFaults, NumbersHaveSameOffers, NumbersLiveAlike, NumbersMatchAlike};
ghost use Rattle.nx_numbering.specs.Schemas.{FilesDefineOneLanguage, PruningLeavesOneLanguage};

use nx_host::uri::joins_is_decided;

/// Such languages match the same attributes and children.
pub fn numbers_match_alike()
    ensures { NumbersMatchAlike }
{}

/// They break the same restrictions, and the same one first.
pub fn numbers_break_the_same()
    ensures { NumbersBreakTheSame }
{}

/// Where the one has valid documents, so has the other.
pub fn numbers_live_alike()
    ensures { NumbersLiveAlike }
{}

/// Each text has the same lists of faults against such languages.
pub fn numbers_have_same_faults()
    ensures { NumbersHaveSameFaults }
{}

/// At each place of a text the same may stand.
pub fn numbers_have_same_offers()
    ensures { NumbersHaveSameOffers }
{}

/// What pruning leaves of such languages are such languages.
pub fn pruning_leaves_one_language()
    ensures { PruningLeavesOneLanguage }
{}

/// The grammars that files define are such languages, whatever numbers they were given.
pub fn files_define_one_language()
    ensures { FilesDefineOneLanguage }
{
    joins_is_decided();
}
