// Why a schema isn't read.
use dm_types::Text;
use std::alloc::AllocError;
use thiserror::Error;

/// Why a schema isn't read.
#[derive(Debug, Drop, Error)]
pub enum SchemaFault {
    /// The text is no schema, or not one of a table with these partition columns.
    #[error("the text is no schema of the table")]
    BadSchema,
    /// A column is of a type that no column may have.
    #[error("a column is of a type that isn't supported")]
    UnsupportedType {
        /// The name of the first such column.
        column: Text,
    },
    /// There are more than [`MAX_COLUMNS`](crate::MAX_COLUMNS) columns.
    #[error("there are too many columns")]
    TooMany,
    /// There was no memory.
    #[error("no memory for the columns")]
    Memory,
}

impl From<AllocError> for SchemaFault {
    ghost use Rattle.std.specs.Prelude.{◌≡◌};
    ghost use Rattle.delta_schema.specs.declared.fault.SchemaFault.TheVariants.{Memory};

    ghost from_gives = { λ _ e. e ≡ Memory };

    fn from(_: AllocError) -> SchemaFault {
        SchemaFault::Memory
    }
}

/// Why a part of a schema isn't read.
#[derive(Drop)]
pub(crate) enum Fault {
    /// It hasn't its form.
    Bad,
    /// There was no memory.
    Memory,
}

impl From<AllocError> for Fault {
    ghost use Rattle.std.specs.Prelude.{◌≡◌};
    ghost use Rattle.delta_schema.specs.declared.fault.Fault.TheVariants.{Memory};

    ghost from_gives = { λ _ e. e ≡ Memory };

    fn from(_: AllocError) -> Fault {
        Fault::Memory
    }
}
