// Why bytes aren't read.
use std::alloc::AllocError;
use thiserror::Error;

/// Why no struct is read.
#[derive(Debug, Drop, Error)]
pub enum ThriftFault {
    /// No struct stands at the front of the bytes.
    #[error("no Thrift struct goes on at byte {at}")]
    BadThrift {
        /// The place of the first byte with which no struct goes on, counted from 0: the length,
        /// where the bytes end before.
        at: usize,
    },
    /// There was no memory.
    #[error("no memory for a Thrift struct")]
    Memory,
}

/// Why a value isn't read.
#[derive(Drop)]
pub(crate) enum Fault {
    /// No value goes on with the next byte, or there is none.
    Refused,
    /// There was no memory.
    Memory,
}

impl From<AllocError> for Fault {
    ghost use Rattle.std.specs.Prelude.{◌≡◌};
    ghost use Rattle.thrift_compact.specs.declared.fault.Fault.TheVariants.{Memory};

    ghost from_gives = { λ _ e. e ≡ Memory };

    fn from(_: AllocError) -> Fault {
        Fault::Memory
    }
}
