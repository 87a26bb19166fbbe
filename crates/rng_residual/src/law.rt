//! Laws of residuals, each a function that does nothing.

ghost use Rattle.rng_residual.specs.Derivatives.{DerivesStrings, DerivesAttributes};
ghost use Rattle.rng_residual.specs.Merging.{MergedTakeTheSame};
ghost use Rattle.rng_residual.specs.Moves.{FramesStand, KnownIsTold, KnownFramesBegin, MovesStand, FrontsAreViable, StandingGoesOn};
ghost use Rattle.rng_residual.specs.Moves.{AnswersTellMoves, RestsAreTaken, TagsAreTold, MissingPartsGoOn};
ghost use Rattle.rng_residual.specs.Openings.{OpensExactly};
ghost use Rattle.rng_residual.specs.Needed.{SoleIsExact, NeededIsExact, NothingIsListed};
ghost use Rattle.rng_residual.specs.Required.{OnlyIsExact, RequiredIsExact};
ghost use Rattle.rng_residual.specs.Restricted.{RestrictedIsApart};
ghost use Rattle.rng_residual.specs.Solid.{TestsAreSolid};
ghost use Rattle.rng_residual.specs.Unmentioned.{UnmentionedNamesAlike};

/// What is left behind a string matches exactly the rest.
#[tactic(auto, using(crate::proofs::Strings::derives_strings))]
pub fn derives_strings()
    ensures { DerivesStrings }
{}

/// What is left behind an attribute matches exactly the rest.
#[tactic(auto, using(crate::proofs::Attributes::derives_attributes))]
pub fn derives_attributes()
    ensures { DerivesAttributes }
{}

/// An element's name opens exactly what begins with an element of that name.
#[tactic(auto, using(crate::proofs::Openings::opens_exactly))]
pub fn opens_exactly()
    ensures { OpensExactly }
{}

/// A residual with one way more takes what it took, and what the way takes, whether the way is merged or not.
#[tactic(auto, using(crate::proofs::Standing::merged_take_the_same))]
pub fn merged_take_the_same()
    ensures { MergedTakeTheSame }
{}

/// A leaf of a sound grammar passes the test for strings that aren't blank exactly where it takes one.
pub fn tests_are_solid()
    ensures { TestsAreSolid }
{}

/// What a frame begins with stands for no moves.
#[tactic(auto, using(crate::proofs::Standing::frames_stand))]
pub fn frames_stand()
    ensures { FramesStand }
{}

/// The definitions that have a name begin a frame, where there is one.
pub fn known_frames_begin()
    ensures told { KnownIsTold }
    ensures begin { KnownFramesBegin }
{}

/// Where a residual stands for moves, each call of a matcher answers with one that stands for the moves and its own, and with
/// none exactly where no list that is kept behind them is viable.
#[tactic(auto, using(crate::proofs::MoveStands::moves_stand))]
pub fn moves_stand()
    ensures { MovesStand }
{}

/// The names that a residual requires are exactly those of which each list of attributes, behind which the tag may end, has one.
#[tactic(auto, using(crate::proofs::SoleNames::only_is_exact))]
pub fn required_is_exact()
    ensures only { OnlyIsExact }
    ensures required { RequiredIsExact }
{}

/// The names that a residual needs where content is skipped are exactly those of which each content that can stand there has an
/// element; where none can be skipped, no name is listed.
#[tactic(auto, using(crate::proofs::NameLists::sole_is_exact))]
pub fn needed_is_exact()
    ensures sole { SoleIsExact }
    ensures needed { NeededIsExact }
    ensures nothing { NothingIsListed }
{}

/// An answer that stands behind a move is given exactly where the move can be made.
#[tactic(auto, using(crate::proofs::Standing::answers_tell_moves))]
pub fn answers_tell_moves()
    ensures { AnswersTellMoves }
{}

/// Of the lists that can be written and that repeat no attribute in a tag, a residual takes exactly the rests of the lists for
/// which it stands, and such a rest repeats none.
pub fn rests_are_taken()
    ensures { RestsAreTaken }
{}

/// What stands for kept lists goes on by events that can be written.
#[tactic(auto, using(crate::proofs::Standing::standing_goes_on))]
pub fn standing_goes_on()
    ensures { StandingGoesOn }
{}

/// A residual tells whether a start tag is open, and what is missing can always be made up for: attributes where one is open,
/// content inside of an element.
pub fn missing_parts_go_on()
    ensures told { TagsAreTold }
    ensures go_on { MissingPartsGoOn }
{}

/// What text begins and text makes valid can also be made valid by what can be written.
pub fn fronts_are_viable()
    ensures { FrontsAreViable }
{}

/// A content that keeps the restrictions has its attributes apart, and no list in a list.
pub fn restricted_is_apart()
    ensures { RestrictedIsApart }
{}

/// Names that the schema doesn't mention, of one namespace or of namespaces that it doesn't mention, are admitted alike.
pub fn unmentioned_names_alike()
    ensures { UnmentionedNamesAlike }
{}
