//! Laws of datatypes. Nothing here runs.

ghost use Rattle.rng_types.specs.Types.{SameAreBlankAlike};
ghost use Rattle.rng_types.specs.Answers.{AcceptsIsDecided, SameValueIsDecided, TakesAwayIsDecided, LeftIsDecided};
ghost use Rattle.rng_types.specs.MemberTest.{MembersExist, TextsGiveMembers, NamedAreWellMade};
ghost use Rattle.rng_types.specs.MoreLaws.{AcceptsLiterals};
ghost use Rattle.rng_types.specs.Equality.{EqualityIsDecided};
ghost use Rattle.rng_types.specs.OneToken.{OneTokensExist};

/// Two accepted texts of the same value are both blank or both not.
pub fn same_are_blank_alike()
    ensures { SameAreBlankAlike }
{}

/// The answers about what a type accepts, which texts have the same value and what excepts take away are right.
pub fn answers_are_right()
    ensures accepts { AcceptsIsDecided }
    ensures same { SameValueIsDecided }
    ensures takes_away { TakesAwayIsDecided }
    ensures left { LeftIsDecided }
{}

/// The test whether a type has a member beside excepts is true exactly where some text of characters that XML allows is
/// one, and where some UTF-8 is. The types that can be named are such as it is told of.
pub fn members_exist()
    ensures members { MembersExist }
    ensures texts { TextsGiveMembers }
    ensures named { NamedAreWellMade }
{}

/// The text of one token that has a value is told rightly.
pub fn one_tokens_exist()
    ensures { OneTokensExist }
{}

/// Types of dates, times and octets accept their literals that meet the facets.
pub fn literals_are_accepted()
    ensures { AcceptsLiterals }
{}

/// The answers whether two types, or two lists of excepts, are the same are right.
pub fn equality_is_decided()
    ensures { EqualityIsDecided }
{}
