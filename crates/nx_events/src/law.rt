//! Laws of events and faults, by which the layers above know where they lie and that they move with the text. Nothing here runs.

ghost use Rattle.nx_events.specs.Balance.{DepthIsDifference, EntersAndLeavesBalance};
ghost use Rattle.nx_events.specs.DeclarationForm.{DeclarationsAreSpelled};
ghost use Rattle.nx_events.specs.MarkupForm.{CommentsAreJudged, InstructionsAreJudged};
ghost use Rattle.nx_events.specs.Moves.{ItemsMoveWithTokens, StatesHoldNoPlace, ItemsMoveWithEnd};
ghost use Rattle.nx_events.specs.Spelling.{TagsAreRead};
ghost use Rattle.nx_events.specs.OpenTags.{StatesAreKnown};
ghost use Rattle.nx_events.specs.QualifiedNames.{QNamesAreSpelled};
ghost use Rattle.nx_events.specs.OpenItems.{StartTagsGoOn};
ghost use Rattle.nx_events.specs.Prefixes.{PrefixesAreTold};
ghost use Rattle.nx_events.specs.SpelledTags.{TagsAreSpelled};
ghost use Rattle.nx_events.specs.StringsRead.{StringsAreRead};
ghost use Rattle.nx_events.specs.TextRuns.{RunsGiveTheirChars, CharsComeFromRuns, EndTagsEndInnermostFirst};
ghost use Rattle.nx_events.specs.Texts.{TokensGiveText, FirstStateIsText, EndsGiveText, AllTokensGiveText};
ghost use Rattle.nx_events.specs.TreeEvents.{TreeEventsStayApart};
ghost use Rattle.nx_events.specs.Spans.{ItemsLieInTokens, ItemsLieInText, RunsGrowByTokens};

/// What a start tag or an empty-element tag spells is what is read in it: its name, and its attributes with
/// their places.
pub fn tags_are_read()
    ensures { TagsAreRead }
{}

/// The items of a token lie between the begin of the run that was pending and the token's end.
#[tactic(auto, using(crate::specs::ItemsLie::items_lie_in_tokens))]
pub fn items_lie_in_tokens()
    ensures { ItemsLieInTokens }
{}

/// Those of the end of a text lie between the begin of that run and the end.
#[tactic(auto, using(crate::specs::ItemsLie::items_lie_in_text))]
pub fn items_lie_in_text()
    ensures { ItemsLieInText }
{}

/// A token farther on gives the same items, as much farther on.
#[tactic(auto, using(crate::specs::ItemsMove::items_move_with_tokens))]
pub fn items_move_with_tokens()
    ensures { ItemsMoveWithTokens }
{}

/// A token farther on leads to the same state.
#[tactic(auto, using(crate::specs::ItemsMove::states_hold_no_place))]
pub fn states_hold_no_place()
    ensures { StatesHoldNoPlace }
{}

/// A longer text gives the same items at its end, as much farther on.
#[tactic(auto, using(crate::specs::ItemsMove::items_move_with_end))]
pub fn items_move_with_end()
    ensures { ItemsMoveWithEnd }
{}

/// A pending run reaches back farther by a token's length at most.
#[tactic(auto, using(crate::specs::RunsGrow::back_grows))]
pub fn runs_grow_by_tokens()
    ensures { RunsGrowByTokens }
{}

/// What a token enters and leaves is the difference of the numbers of open elements before and behind it.
#[tactic(auto, using(crate::proofs::Balance::depth_is_difference))]
pub fn depth_is_difference()
    ensures { DepthIsDifference }
{}

/// So all items of a text leave each element that they enter, and none before it was entered.
pub fn enters_and_leaves_balance()
    ensures { EntersAndLeavesBalance }
{}

/// A token that is UTF-8 and of its kind gives names, strings and details that are UTF-8, and leads from a
/// state whose names and strings are UTF-8 to another such.
pub fn tokens_give_text()
    ensures { TokensGiveText }
{}

/// The first state is such a state.
pub fn first_state_is_text()
    ensures { FirstStateIsText }
{}

/// The end of a text gives such items.
pub fn ends_give_text()
    ensures { EndsGiveText }
{}

/// So all tokens of a text do.
pub fn all_tokens_give_text()
    ensures { AllTokensGiveText }
{}

/// Of bytes that are UTF-8, those are taken for an XML declaration that its grammar spells.
pub fn declarations_are_spelled()
    ensures { DeclarationsAreSpelled }
{}

/// Bytes that are UTF-8 are read as exactly one string with exactly one list of faults: those that their parts give,
/// one by one.
pub fn strings_are_read()
    ensures { StringsAreRead }
{}

/// Each token that is a tag is spelled by the grammar: its name, its attributes and what closes it. Those are what is
/// read in it.
pub fn tags_are_spelled()
    ensures { TagsAreSpelled }
{}

/// The tokens of a text, as far as they were taken, leave exactly one list of open start tags and one run of character
/// data, and these make the state: its elements, its scope, its pending run and its flags.
pub fn states_are_known()
    ensures { StatesAreKnown }
{}

/// The run that is pending behind tokens gives the strings of its tokens joined, with the span from the first one's start
/// to the last one's end.
pub fn runs_give_their_chars()
    ensures { RunsGiveTheirChars }
{}

/// Each Chars among the items of a text is that of such a run. In `<a>x<!--y-->z</a>` it is `xz`, from 3 to 13.
pub fn chars_come_from_runs()
    ensures { CharsComeFromRuns }
{}

/// An end tag tells the start tags that are left open inside of its element, the innermost first.
pub fn end_tags_end_innermost_first()
    ensures { EndTagsEndInnermostFirst }
{}

/// The events of trees stay apart among those of texts.
pub fn tree_events_stay_apart()
    ensures { TreeEventsStayApart }
{}

/// A comment is bad exactly where its content has `--`, or `-` at its end.
pub fn comments_are_judged()
    ensures { CommentsAreJudged }
{}

/// A processing instruction is good exactly where a target of its own stands at its front.
pub fn instructions_are_judged()
    ensures { InstructionsAreJudged }
{}

/// A name is a QName exactly where its grammar says so, in one way at most, and its prefix and local part are those
/// of that way.
pub fn qnames_are_spelled()
    ensures { QNamesAreSpelled }
{}

/// A start tag gives the run before it, what it gives as far as it is written, and its end.
pub fn start_tags_go_on()
    ensures { StartTagsGoOn }
{}

/// Of each text that begins with `<` exactly one case of the prefixes of a tag is told.
pub fn prefixes_are_told()
    ensures { PrefixesAreTold }
{}
