// Why the rules of a table can't be kept.
ghost use Rattle.std.specs.Prelude.{◌≡◌};

use dm_types::{Stop, TableRefusal, Text};
use std::alloc::AllocError;
use thiserror::Error;

/// Why the rules of a table can't be kept.
#[derive(Debug, Drop, Error)]
pub enum RuleFault {
    /// One can't be kept.
    #[error("a rule can't be kept")]
    Unsupported {
        /// The name of its column or constraint.
        name: Text,
    },
    /// There was no memory.
    #[error("no memory for rules")]
    Memory,
}

impl From<AllocError> for RuleFault {
    ghost use Rattle.row_rules.specs.declared.fault.RuleFault.TheVariants.{Memory};

    ghost from_gives = { λ _ e. e ≡ Memory };

    fn from(_: AllocError) -> RuleFault {
        RuleFault::Memory
    }
}

impl From<RuleFault> for Stop {
    ghost use Rattle.row_rules.specs.Answers.{stop_of};

    ghost from_gives = { λ fault stop. stop ≡ stop_of fault };

    fn from(fault: RuleFault) -> Stop {
        match fault {
            RuleFault::Unsupported { name } => TableRefusal::UnsupportedRule { name }.into(),
            RuleFault::Memory => Stop::Memory,
        }
    }
}
