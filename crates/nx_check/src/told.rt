//! What is told of a document.

ghost use Rattle.std.specs.Prelude.{◌≡◌};
ghost use Rattle.nx_check.specs.Codes.{is_faulty, is_unread, is_starved};

use nx_base::sequence::Bytes;

/// What became of a document.
#[derive(Clone, Copy, Debug, PartialEq, Eq)]
pub enum Verdict {
    /// It was checked, and has so many faults.
    Checked(usize),
    /// It can't be checked.
    Unread,
    /// There was no memory to check it.
    Starved,
}

/// What became of a document, and the lines that say it.
#[derive(Drop)]
pub struct Told {
    pub verdict: Verdict,
    pub text: Bytes,
}

impl Verdict {
    pub(crate) fn is_faulty(self) -> bool
        ensures { result ≡ is_faulty self }
    {
        match self {
            Verdict::Checked(count) => count > 0,
            Verdict::Unread | Verdict::Starved => false,
        }
    }

    pub(crate) fn is_unread(self) -> bool
        ensures { result ≡ is_unread self }
    {
        matches!(self, Verdict::Unread)
    }

    pub(crate) fn is_starved(self) -> bool
        ensures { result ≡ is_starved self }
    {
        matches!(self, Verdict::Starved)
    }
}
