//! How a run ends.

ghost use Rattle.std.specs.Prelude.{◌≡◌};
ghost use Rattle.nx_check.specs.Codes.{code_of};

use nx_host::out::OutFault;

/// How a run ended.
#[derive(Clone, Copy, Debug, PartialEq, Eq)]
pub enum Status {
    /// All documents were checked, and none has a fault.
    Right,
    /// All were checked, and some has one.
    Faulty,
    /// The words are out of form.
    Words,
    /// Some document can't be checked, or the schema that the words name can't be used.
    Unread,
    /// A write failed, and the run stopped there.
    Output,
    /// There was no memory for some document, before the first, or for writing.
    Memory,
}

impl Status {
    /// The exit status of the process.
    pub fn code(&self) -> u8
        ensures { result ≡ code_of self.now }
    {
        match self {
            Status::Right => 0,
            Status::Faulty => 1,
            Status::Words => 2,
            Status::Unread => 3,
            Status::Output => 4,
            Status::Memory => 5,
        }
    }
}

impl From<OutFault> for Status {
    ghost use Rattle.std.specs.Prelude.{◌≡◌};
    ghost use Rattle.nx_check.specs.Codes.{stop_status};

    ghost from_gives = { λ fault status. status ≡ stop_status fault };

    /// The status of a run that stops because the output refused a write.
    fn from(fault: OutFault) -> Status {
        match fault {
            OutFault::Failed => Status::Output,
            OutFault::NoMemory => Status::Memory,
        }
    }
}
