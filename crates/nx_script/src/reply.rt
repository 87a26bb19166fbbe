//! What the editor answers a command.

use nx_base::cause::Cause;
use nx_base::fault::Faults;
use nx_base::locate_fault::LocateFault;
use nx_base::memory::NoMemory;
use nx_base::offer::Offers;
use nx_base::sequence::Bytes;
use nx_host::files::FileFault;
use nx_host::uri::UriFault;

/// The answer to a command.
#[derive(Drop)]
pub enum Reply {
    /// Done, and nothing to print.
    Silent,
    /// The text.
    Printed(Bytes),
    /// The faults of the text.
    Errors(Faults),
    /// The byte offset up to which the text is read, and how many bytes it has.
    Frontier { at: usize, len: usize },
    /// How many tokens were taken.
    Taken(u64),
    /// The URI of the schema that was located, where one was.
    Located(Option<Bytes>),
    /// What may stand at a place.
    Offered(Offers),
    /// The caret's new byte offset.
    Caret(usize),
    /// The caret stays, since there is no place to take it to.
    Stay,
    /// The caret's line, from 1, and its column, from 0, in the widths of characters.
    Position { line: usize, column: usize },
    /// The number of a view, and the faults that it shows.
    Shown(u64, Faults),
    /// Not done, and why.
    Refused(Refusal),
}

/// Why a command was refused.
#[derive(Drop)]
pub enum Refusal {
    /// The line is no command.
    BadCommand,
    /// The number `at` is no place of the text, whose length is `len`, or the first of two lies behind
    /// the second. Both are byte offsets.
    BadPosition { at: u64, len: usize },
    /// The text of a URI is none.
    BadUri,
    /// No file is under the URI.
    Absent(Bytes),
    /// The file under the URI is no text from this byte offset on.
    NotUtf8(Bytes, usize),
    /// The files of the schema make no grammar that can be used.
    Unreadable(Cause),
    /// What is wrong with a rules file: it is absent, no text, malformed, or includes itself. That a URI is bad, that
    /// files fail and that memory is wanting are refusals of their own.
    BadRules(LocateFault),
    /// No view has this number.
    NoView(u64),
    /// The files could not do it.
    Failed,
    NoMemory,
}

impl From<NoMemory> for Refusal {
    ghost use Rattle.std.specs.Prelude.{◌≡◌};
    ghost use Rattle.nx_script.specs.declared.reply.Refusal.TheVariants as refusals;

    ghost from_gives = { λ _ refusal. refusal ≡ refusals.NoMemory };

    fn from(_error: NoMemory) -> Refusal {
        Refusal::NoMemory
    }
}

impl From<UriFault> for Refusal {
    ghost use Rattle.std.specs.Prelude.{◌≡◌};
    ghost use Rattle.nx_script.specs.Replies.{refusal_of_uri};

    ghost from_gives = { λ fault refusal. refusal ≡ refusal_of_uri fault };

    fn from(fault: UriFault) -> Refusal {
        match fault {
            UriFault::Bad => Refusal::BadUri,
            UriFault::NoMemory => Refusal::NoMemory,
        }
    }
}

impl From<FileFault> for Refusal {
    ghost use Rattle.std.specs.Prelude.{◌≡◌};
    ghost use Rattle.nx_script.specs.Replies.{refusal_of_files};

    ghost from_gives = { λ fault refusal. refusal ≡ refusal_of_files fault };

    fn from(fault: FileFault) -> Refusal {
        match fault {
            FileFault::Failed => Refusal::Failed,
            FileFault::NoMemory => Refusal::NoMemory,
        }
    }
}

impl From<LocateFault> for Refusal {
    ghost use Rattle.std.specs.Prelude.{◌≡◌};
    ghost use Rattle.nx_script.specs.Replies.{refusal_of_rules};

    ghost from_gives = { λ fault refusal. refusal ≡ refusal_of_rules fault };

    fn from(fault: LocateFault) -> Refusal {
        match fault {
            LocateFault::BadUri(_) => Refusal::BadUri,
            LocateFault::Failed => Refusal::Failed,
            LocateFault::NoMemory => Refusal::NoMemory,
            fault => Refusal::BadRules(fault),
        }
    }
}
