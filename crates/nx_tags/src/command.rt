//! Commands on tags.

ghost use Rattle.std.specs.Prelude.{◌≡◌};
ghost use Rattle.nx_tags.specs.Answers.{place_of};

use nx_base::sequence::Bytes;

/// A command on the tags at a place, which is a byte offset.
#[derive(Drop)]
pub enum TagCommand {
    /// Ends the innermost open element.
    Finish(usize),
    /// Ends the innermost open element, and begins another of its name.
    Split(usize),
    /// Puts an element of this written name in, without content.
    Pair(usize, Bytes),
    /// Gives the element whose tag begins there this written name.
    Rename(usize, Bytes),
}

impl TagCommand {
    /// The place that the command speaks of, which is a byte offset.
    pub fn place(&self) -> usize
        ensures { result ≡ place_of self.now }
    {
        match self {
            TagCommand::Finish(at)
            | TagCommand::Split(at)
            | TagCommand::Pair(at, _)
            | TagCommand::Rename(at, _) => *at,
        }
    }
}
