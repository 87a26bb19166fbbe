//! Laws of locating rules. Nothing here runs.

ghost use Rattle.nx_locate.specs.Unambiguous.{LocatedIsTheAnswer, RulesGiveOneOutcome};

use nx_host::uri::joins_is_decided;

/// The rules of files give one outcome for a document at most: a schema, none, or a text that is no reference.
pub fn rules_give_one_outcome()
    ensures { RulesGiveOneOutcome }
{
    joins_is_decided();
}

/// Where a schema or none is located, by files that tell what they hold, every answer is that one, but for files that fail and want of
/// memory: so what is located isn't refused for a cause in the rules. Of rules files with several such causes, which one is told is free.
pub fn located_is_the_answer()
    ensures { LocatedIsTheAnswer }
{
    joins_is_decided();
}
