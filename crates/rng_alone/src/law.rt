//! Laws of contents whose strings stand alone. Nothing here runs.

ghost use Rattle.rng_alone.specs.Alone.{AloneAreUnmixed, PruningKeepsAlone, TypedAreAlone};
ghost use Rattle.rng_alone.specs.Left.{FramesAreAlone, MovesKeepAlone};

/// In a content with a content type strings stand alone.
pub fn typed_are_alone()
    ensures { TypedAreAlone }
{}

/// Contents whose strings stand alone have no string beside a string or an element.
pub fn alone_are_unmixed()
    ensures { AloneAreUnmixed }
{}

/// What pruning leaves of a content whose strings stand alone is such a content.
pub fn pruning_keeps_alone()
    ensures { PruningKeepsAlone }
{}

/// Where strings stand alone in all contents and in what is left, they do in what is left behind each call of a matcher.
pub fn moves_keep_alone()
    ensures { MovesKeepAlone }
{}

/// They do where a frame begins.
pub fn frames_are_alone()
    ensures { FramesAreAlone }
{}
