// Why runs aren't read.
use std::alloc::AllocError;
use thiserror::Error;

/// Why runs aren't read.
#[derive(Clone, Copy, Debug, Error)]
pub enum RunFault {
    /// The bytes end or break before there are enough numbers, or the width is above 32.
    #[error("the bytes are no runs of so many numbers")]
    BadRuns,
    /// There was no memory.
    #[error("no memory for the numbers")]
    Memory,
}

impl From<AllocError> for RunFault {
    ghost use Rattle.std.specs.Prelude.{◌≡◌};
    ghost use Rattle.level_runs.specs.declared.fault.RunFault.TheVariants.{Memory};

    ghost from_gives = { λ _ e. e ≡ Memory };

    fn from(_: AllocError) -> RunFault {
        RunFault::Memory
    }
}
