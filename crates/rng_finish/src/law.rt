//! Laws of what fills what is left. Nothing here runs.

ghost use Rattle.rng_finish.specs.Laws.{FilledAreRests, LivelyAreFit};

use rng_core::law::sound_excepts_suit;
use rng_fill::law::leaves_match;

/// What fills the patterns that are left of a way is a rest of it.
pub fn filled_are_rests()
    ensures { FilledAreRests }
{
    leaves_match();
}

/// What is left of a lively way can be filled.
pub fn lively_are_fit()
    ensures { LivelyAreFit }
{
    sound_excepts_suit();
}
