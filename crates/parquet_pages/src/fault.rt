// Why a file or a column isn't read.
use level_runs::RunFault;
use parquet_meta::MetaFault;
use plain_values::PlainFault;
use std::alloc::AllocError;
use thiserror::Error;

/// Why a file or a column isn't read.
#[derive(Clone, Copy, Debug, PartialEq, Error)]
pub enum FileFault {
    /// The bytes are no good Parquet file.
    #[error("no good Parquet file")]
    BadParquet,
    /// A column chunk is compressed.
    #[error("a column chunk is compressed")]
    Compressed,
    /// A page is of a kind or an encoding that isn't read.
    #[error("a page of an encoding that isn't read")]
    Encoding,
    /// The leaf doesn't hold values of the column's type.
    #[error("a leaf of another type")]
    Mismatch,
    /// A value is out of the type's range, or null where the column takes none.
    #[error("a value out of its type's range")]
    Range,
    /// The texts or bytes of the column pass the limit.
    #[error("too much text in a column")]
    TextLimit,
    /// There was no memory.
    #[error("no memory for the column")]
    Memory,
}

impl From<AllocError> for FileFault {
    ghost use Rattle.std.specs.Prelude.{◌≡◌};
    ghost use Rattle.parquet_pages.specs.declared.fault.FileFault.TheVariants.{Memory};

    ghost from_gives = { λ _ e. e ≡ Memory };

    fn from(_: AllocError) -> FileFault {
        FileFault::Memory
    }
}

impl From<PlainFault> for FileFault {
    ghost use Rattle.std.specs.Prelude.{◌≡◌};
    ghost use Rattle.parquet_pages.specs.Answers.{of_plain};

    ghost from_gives = { λ fault e. e ≡ of_plain fault };

    fn from(fault: PlainFault) -> FileFault {
        match fault {
            PlainFault::Short | PlainFault::Extra => FileFault::BadParquet,
            PlainFault::Memory => FileFault::Memory,
        }
    }
}

impl From<RunFault> for FileFault {
    ghost use Rattle.std.specs.Prelude.{◌≡◌};
    ghost use Rattle.parquet_pages.specs.Answers.{of_runs};

    ghost from_gives = { λ fault e. e ≡ of_runs fault };

    fn from(fault: RunFault) -> FileFault {
        match fault {
            RunFault::BadRuns => FileFault::BadParquet,
            RunFault::Memory => FileFault::Memory,
        }
    }
}

impl From<MetaFault> for FileFault {
    ghost use Rattle.std.specs.Prelude.{◌≡◌};
    ghost use Rattle.parquet_pages.specs.Answers.{of_meta};

    ghost from_gives = { λ fault e. e ≡ of_meta fault };

    fn from(fault: MetaFault) -> FileFault {
        match fault {
            MetaFault::BadFooter => FileFault::BadParquet,
            MetaFault::Memory => FileFault::Memory,
        }
    }
}
