//! Laws of what the functions here ask for. Nothing here runs.

ghost use Rattle.deriv_pattern.specs.Leaves.{SoundAreInOrder, LeftInOrder};

use rng_core::law::sound_excepts_suit;

/// The patterns of a sound grammar are in order.
pub fn sound_are_in_order()
    ensures { SoundAreInOrder }
{
    sound_excepts_suit();
}

/// What is left of patterns that are in order is in order.
pub fn left_is_in_order()
    ensures { LeftInOrder }
{}
