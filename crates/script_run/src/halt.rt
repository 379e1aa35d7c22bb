// Why a run doesn't come to its statements.
ghost use Rattle.std.specs.Prelude.{◌≡◌};

use std::alloc::AllocError;

/// Why a run doesn't come to its statements.
#[derive(Clone, Copy, Debug, PartialEq, Eq)]
pub(crate) enum Halt {
    /// A call of the source failed.
    Source,
    /// There was no memory.
    Memory,
}

impl From<AllocError> for Halt {
    ghost use Rattle.script_run.specs.declared.halt.Halt.TheVariants.{Memory};

    ghost from_gives = { λ _ e. e ≡ Memory };

    fn from(_: AllocError) -> Halt {
        Halt::Memory
    }
}
