//! Laws of fillings. Nothing here runs.

ghost use Rattle.rng_fill.specs.Matched.{LeavesMatch};
ghost use Rattle.rng_fill.specs.Laws.{FilledWhereNotLarge, FilledInOneWay, TypedAreUnmixed, PrunedAreUnmixed, LeavesAreDistinct};

use rng_core::law::sound_excepts_suit;

/// What the leaves of a pattern match, one after another, the pattern matches, whatever the costs by which they were chosen.
pub fn leaves_match()
    ensures { LeavesMatch }
{}

/// The definitions of a live and sound grammar that aren't large, and whose contents are unmixed, can be filled by their least costs.
pub fn filled_where_not_large()
    ensures { FilledWhereNotLarge }
{
    sound_excepts_suit();
}

/// Whether definitions can be filled is a fact: it may be told from what is only known to be there.
pub fn filled_in_one_way()
    ensures { FilledInOneWay }
{}

/// A content that has a content type is unmixed.
pub fn typed_are_unmixed()
    ensures { TypedAreUnmixed }
{}

/// The contents of a pruned grammar are unmixed, where the grammar was checked.
pub fn pruned_are_unmixed()
    ensures { PrunedAreUnmixed }
{}

/// The attributes of the leaves of a content have distinct names, where its attributes are apart.
pub fn leaves_are_distinct()
    ensures { LeavesAreDistinct }
{}
