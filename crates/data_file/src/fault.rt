// Why the rows of a file aren't read.
ghost use Rattle.std.specs.Prelude.{◌≡◌};
ghost use Rattle.data_file.specs.Stored.{fault_in as fault_in_of};

use dm_types::Counted;
use parquet_pages::FileFault;
use std::alloc::AllocError;
use thiserror::Error;

/// A column that is read of a file.
#[derive(Clone, Copy, Debug, PartialEq, Eq)]
pub enum PartColumn {
    /// The table's column at this place of the schema, counted from 0.
    Table(usize),
    /// The materialized row ids.
    Ids,
    /// The materialized commit versions.
    Versions,
    /// The kinds of changes.
    ChangeType,
}

/// Why the rows of a file aren't read.
#[derive(Debug, Drop, Error)]
pub enum PartFault {
    /// The bytes are no good Parquet file.
    #[error("no good Parquet file")]
    BadParquet,
    /// A column chunk is compressed.
    #[error("a column chunk is compressed")]
    Compressed,
    /// A page is of a kind or an encoding that isn't read.
    #[error("a page of an encoding that isn't read")]
    Encoding,
    /// The file doesn't hold a column, or not with a type that it is read of.
    #[error("a column that the file doesn't hold")]
    Mismatch {
        /// The column.
        column: PartColumn,
    },
    /// A column has a value out of its range, or a null that it doesn't take.
    #[error("a value out of its range")]
    Range {
        /// The column.
        column: PartColumn,
    },
    /// The value of a partition column isn't read, or is a null that the column doesn't take.
    #[error("a bad value of partition column {column}")]
    Partition {
        /// The column's place in the schema, counted from 0.
        column: usize,
    },
    /// A limit of the table version is passed.
    #[error("too much for one version of a table")]
    TooLarge {
        /// Which one.
        counted: Counted,
    },
    /// There was no memory.
    #[error("no memory for the rows")]
    Memory,
}

impl From<AllocError> for PartFault {
    ghost use Rattle.std.specs.Prelude.{◌≡◌};
    ghost use Rattle.data_file.specs.declared.fault.PartFault.TheVariants.{Memory};

    ghost from_gives = { λ _ e. e ≡ Memory };

    fn from(_: AllocError) -> PartFault {
        PartFault::Memory
    }
}

/// What a fault in a column of a file comes to.
pub(crate) fn fault_in(column: PartColumn, fault: FileFault) -> PartFault
    ensures { result ≡ fault_in_of column fault }
{
    match fault {
        FileFault::BadParquet => PartFault::BadParquet,
        FileFault::Compressed => PartFault::Compressed,
        FileFault::Encoding => PartFault::Encoding,
        FileFault::Mismatch => PartFault::Mismatch { column },
        FileFault::Range => PartFault::Range { column },
        FileFault::TextLimit => PartFault::TooLarge {
            counted: Counted::TextBytes,
        },
        FileFault::Memory => PartFault::Memory,
    }
}
