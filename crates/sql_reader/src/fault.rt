// Why nothing was read.

use std::alloc::AllocError;
use thiserror::Error;

// Why a production wasn't read.
#[derive(Drop)]
pub(crate) enum Fault {
    Memory,
    // The next token goes on with nothing, or there is none.
    Refused,
}

impl From<AllocError> for Fault {
    ghost use Rattle.std.specs.Prelude.{◌≡◌};
    ghost use Rattle.sql_reader.specs.declared.fault.Fault.TheVariants.{Memory};

    ghost from_gives = { λ _ e. e ≡ Memory };

    fn from(_: AllocError) -> Fault {
        Fault::Memory
    }
}

/// Why there is no script, or no expression.
#[derive(Debug, Drop, Error)]
pub enum ScriptFault {
    /// The bytes are in no way one. `at` is the byte at which the first token begins such that none
    /// begins with the tokens up to it, or the number of bytes.
    #[error("no script: byte {at}")]
    BadScript { at: u64 },
    /// There was no memory for its tokens or its trees.
    #[error("out of memory")]
    Memory,
}

impl From<AllocError> for ScriptFault {
    ghost use Rattle.std.specs.Prelude.{◌≡◌};
    ghost use Rattle.sql_reader.specs.declared.fault.ScriptFault.TheVariants.{Memory};

    ghost from_gives = { λ _ e. e ≡ Memory };

    fn from(_: AllocError) -> ScriptFault {
        ScriptFault::Memory
    }
}
