//! How a run ends.

ghost use Rattle.std.specs.Prelude.{◌≡◌, ℕ};
ghost use Rattle.nx_run.specs.Codes.{code_of};

use nx_host::out::OutFault;

/// How a run ended.
#[derive(Clone, Copy, Debug, PartialEq, Eq)]
pub enum Status {
    /// The script was read to its end, and no command was refused.
    Done,
    /// The script was read to its end, and some command was refused, none for want of memory.
    Refused,
    /// The words are out of form.
    Words,
    /// The script can't be read.
    Script,
    /// A write failed, and the run stopped there.
    Output,
    /// There was no memory for some command, before the first, or for writing.
    Memory,
}

impl Status {
    /// The exit status of the process.
    pub fn code(&self) -> u8
        ensures { result ≡ code_of self.now }
    {
        match self {
            Status::Done => 0,
            Status::Refused => 1,
            Status::Words => 2,
            Status::Script => 3,
            Status::Output => 4,
            Status::Memory => 5,
        }
    }
}

impl From<OutFault> for Status {
    ghost use Rattle.std.specs.Prelude.{◌≡◌};
    ghost use Rattle.nx_run.specs.Codes.{stop_status};

    ghost from_gives = { λ fault status. status ≡ stop_status fault };

    /// The status of a run that stops because the output refused a write.
    fn from(fault: OutFault) -> Status {
        match fault {
            OutFault::Failed => Status::Output,
            OutFault::NoMemory => Status::Memory,
        }
    }
}
