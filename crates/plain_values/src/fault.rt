// Why values aren't read.
use std::alloc::AllocError;
use thiserror::Error;

/// Why values aren't read.
#[derive(Clone, Copy, Debug, PartialEq, Error)]
pub enum PlainFault {
    /// The bytes end before there are enough values.
    #[error("the bytes end before the last value")]
    Short,
    /// Bytes are left behind the values.
    #[error("bytes are left behind the values")]
    Extra,
    /// There was no memory.
    #[error("no memory for the values")]
    Memory,
}

impl From<AllocError> for PlainFault {
    ghost use Rattle.std.specs.Prelude.{◌≡◌};
    ghost use Rattle.plain_values.specs.declared.fault.PlainFault.TheVariants.{Memory};

    ghost from_gives = { λ _ e. e ≡ Memory };

    fn from(_: AllocError) -> PlainFault {
        PlainFault::Memory
    }
}
