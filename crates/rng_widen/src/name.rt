//! Names as they are written in attributes.

ghost use Rattle.std.specs.Prelude.{◌≡◌};
ghost use Rattle.rng_widen.specs.Naming.{trimmed};

/// A name without the white space around it.
pub(crate) fn trimmed(text: &[u8]) -> &[u8]
    ensures { result.now ≡ trimmed text.now }
{
    text.trim_ascii()
}
