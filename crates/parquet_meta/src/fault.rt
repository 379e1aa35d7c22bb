// Why metadata isn't read or written.
use std::alloc::AllocError;
use thiserror::Error;

/// Why a footer or a page header isn't read.
#[derive(Debug, Drop, Error)]
pub enum MetaFault {
    /// The bytes aren't one footer, or none of their prefixes is a page header.
    #[error("no Parquet metadata")]
    BadFooter,
    /// There was no memory.
    #[error("no memory for Parquet metadata")]
    Memory,
}

impl From<AllocError> for MetaFault {
    ghost use Rattle.std.specs.Prelude.{◌≡◌};
    ghost use Rattle.parquet_meta.specs.declared.fault.MetaFault.TheVariants.{Memory};

    ghost from_gives = { λ _ e. e ≡ Memory };

    fn from(_: AllocError) -> MetaFault {
        MetaFault::Memory
    }
}
