// Why a commit isn't read.
use std::alloc::AllocError;
use thiserror::Error;

/// Why a commit isn't read.
#[derive(Debug, Drop, Error)]
pub enum ActionFault {
    /// A line is no action.
    #[error("line {line} is no action")]
    BadAction {
        /// The first such line, counted from 1 over all lines, blank ones too.
        line: u64,
    },
    /// There was no memory.
    #[error("no memory for the actions")]
    Memory,
}

impl From<AllocError> for ActionFault {
    ghost use Rattle.std.specs.Prelude.{◌≡◌};
    ghost use Rattle.delta_actions.specs.declared.fault.ActionFault.TheVariants.{Memory};

    ghost from_gives = { λ _ e. e ≡ Memory };

    fn from(_: AllocError) -> ActionFault {
        ActionFault::Memory
    }
}

/// Why a line isn't read.
#[derive(Drop)]
pub(crate) enum Fault {
    /// It is no action.
    Bad,
    /// There was no memory.
    Memory,
}

impl From<AllocError> for Fault {
    ghost use Rattle.std.specs.Prelude.{◌≡◌};
    ghost use Rattle.delta_actions.specs.declared.fault.Fault.TheVariants.{Memory};

    ghost from_gives = { λ _ e. e ≡ Memory };

    fn from(_: AllocError) -> Fault {
        Fault::Memory
    }
}
