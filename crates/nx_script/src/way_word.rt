//! The words of ways.

ghost use Rattle.std.specs.Prelude.{◌≡◌};
ghost use Rattle.nx_script.specs.Grammar.{way_word};

use nx_base::way::Way;

/// The word by which a script names a way.
pub(crate) fn way_word(way: Way) -> &'static str
    ensures { result.now ≡ way_word way }
{
    match way {
        Way::Forward => "forward",
        Way::Backward => "backward",
        Way::Up => "up",
        Way::BackUp => "back-up",
        Way::Down => "down",
    }
}
