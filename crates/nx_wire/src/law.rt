//! Laws of messages. Nothing here runs.

ghost use Rattle.nx_wire.specs.Frames.{FramesAreOne};

/// A text begins with one message at most.
pub fn frames_are_one()
    ensures { FramesAreOne }
{}
