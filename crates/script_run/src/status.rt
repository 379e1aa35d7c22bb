// How a run ends.
ghost use Rattle.std.specs.Prelude.{◌≡◌};

use dm_store::SinkFault;
use std::alloc::AllocError;

/// How a run ended. Its number is the exit status of the program.
#[derive(Clone, Copy, Debug, PartialEq, Eq)]
pub enum Status {
    /// Every statement was accepted and printed.
    Done = 0,
    /// A statement was refused.
    Refused = 1,
    /// The words of the command line aren't of the form.
    BadWords = 2,
    /// The script isn't in the grammar, or is too long.
    BadScript = 3,
    /// A call of the store failed.
    StoreFailed = 4,
    /// A call of the sink failed.
    SinkFailed = 5,
    /// A call of the source failed.
    SourceFailed = 6,
    /// There was no memory.
    NoMemory = 7,
    /// A draw of a name failed.
    NamesFailed = 8,
}

impl Status {
    ghost use Rattle.script_run.specs.Ran.{code_of};

    /// The number of the status.
    pub fn code(self) -> u8
        ensures { result ≡ code_of self }
    {
        self as u8
    }
}

impl From<AllocError> for Status {
    ghost use Rattle.script_run.specs.declared.status.Status.TheVariants.{NoMemory};

    ghost from_gives = { λ _ e. e ≡ NoMemory };

    fn from(_: AllocError) -> Status {
        Status::NoMemory
    }
}

impl From<SinkFault> for Status {
    ghost use Rattle.script_run.specs.Reaching.{status_of_fault};

    ghost from_gives = { λ fault e. e ≡ status_of_fault fault };

    fn from(fault: SinkFault) -> Status {
        match fault {
            SinkFault::Failed => Status::SinkFailed,
            SinkFault::Memory => Status::NoMemory,
        }
    }
}
