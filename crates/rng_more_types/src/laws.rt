//! Laws of these types. Nothing here runs.

ghost use Rattle.rng_more_types.specs.Laws.{LiteralIsDecided, SameIsDecided, SameIsReflexive, SameIsSymmetric, SameIsTransitive};
ghost use Rattle.rng_more_types.specs.Laws.{SameHaveSameOctets, OctetsAreSmall, BlankIsEmpty, EmptyIsBlank, MomentIsSomething, SameAreBlankAlike};
ghost use Rattle.rng_more_types.specs.Laws.{UnspacedIsSame, EndsDontMatter, CandidatesAreLiterals, CandidatesDiffer};

/// The answers about what a type accepts and which texts have the same value are right.
pub fn answers_are_right()
    ensures literal { LiteralIsDecided }
    ensures same { SameIsDecided }
{}

/// To have the same value is an equivalence, and the same value has as many octets.
pub fn same_is_an_equivalence()
    ensures reflexive { SameIsReflexive }
    ensures symmetric { SameIsSymmetric }
    ensures transitive { SameIsTransitive }
    ensures octets { SameHaveSameOctets }
{}

/// Octets are numbers below 256.
pub fn octets_are_small()
    ensures { OctetsAreSmall }
{}

/// A blank text stands for no octets, and no other does; it is no date or time. Texts of the same value are both blank or both
/// not.
pub fn blank_is_empty()
    ensures empty { BlankIsEmpty }
    ensures blank { EmptyIsBlank }
    ensures something { MomentIsSomething }
    ensures alike { SameAreBlankAlike }
{}

/// White space can be left out, and stand at the ends.
pub fn white_space_does_not_matter()
    ensures unspaced { UnspacedIsSame }
    ensures ends { EndsDontMatter }
{}

/// Each type has 130 literals of different values, those of octets with any number of octets but none.
pub fn candidates_exist()
    ensures literals { CandidatesAreLiterals }
    ensures differ { CandidatesDiffer }
{}
