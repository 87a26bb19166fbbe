//! Laws of grammars. Nothing here runs.

ghost use Rattle.rng_core.specs.Equality.{EqualityIsDecided};
ghost use Rattle.rng_core.specs.Soundness.{SoundExceptsSuit};

/// The answers whether two classes, or two patterns, are the same are right.
pub fn equality_is_decided()
    ensures { EqualityIsDecided }
{}

/// The excepts of a sound pattern are such as `Datatype::has_member` asks for.
pub fn sound_excepts_suit()
    ensures { SoundExceptsSuit }
{}
