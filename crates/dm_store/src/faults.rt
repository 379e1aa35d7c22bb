// The faults of the outside.
use dm_types::Stop;
use std::alloc::AllocError;
use thiserror::Error;

/// A call of the outside that failed.
#[derive(Clone, Copy, Debug, PartialEq, Eq, Error)]
#[error("a call of the outside failed")]
pub struct Failed;

/// Why a folder wasn't listed.
#[derive(Clone, Copy, Debug, PartialEq, Eq, Error)]
pub enum ListFault {
    /// The call failed.
    #[error("the listing failed")]
    Failed,
    /// There was no memory.
    #[error("no memory for the listing")]
    Memory,
}

impl From<AllocError> for ListFault {
    ghost use Rattle.std.specs.Prelude.{◌≡◌};
    ghost use Rattle.dm_store.specs.declared.faults.ListFault.TheVariants.{Memory};

    ghost from_gives = { λ _ e. e ≡ Memory };

    fn from(_: AllocError) -> ListFault {
        ListFault::Memory
    }
}

/// Why a file wasn't read.
#[derive(Clone, Copy, Debug, PartialEq, Eq, Error)]
pub enum ReadFault {
    /// No file has the path.
    #[error("no file has the path")]
    Absent,
    /// The call failed.
    #[error("the read failed")]
    Failed,
    /// There was no memory.
    #[error("no memory for the file")]
    Memory,
}

impl From<AllocError> for ReadFault {
    ghost use Rattle.std.specs.Prelude.{◌≡◌};
    ghost use Rattle.dm_store.specs.declared.faults.ReadFault.TheVariants.{Memory};

    ghost from_gives = { λ _ e. e ≡ Memory };

    fn from(_: AllocError) -> ReadFault {
        ReadFault::Memory
    }
}

/// Why a file wasn't put.
#[derive(Clone, Copy, Debug, PartialEq, Eq, Error)]
pub enum PutFault {
    /// A file has the path already.
    #[error("the path is taken")]
    Exists,
    /// The call failed.
    #[error("the put failed")]
    Failed,
    /// There was no memory.
    #[error("no memory for the put")]
    Memory,
}

impl From<AllocError> for PutFault {
    ghost use Rattle.std.specs.Prelude.{◌≡◌};
    ghost use Rattle.dm_store.specs.declared.faults.PutFault.TheVariants.{Memory};

    ghost from_gives = { λ _ e. e ≡ Memory };

    fn from(_: AllocError) -> PutFault {
        PutFault::Memory
    }
}

/// Why a piece wasn't written.
#[derive(Clone, Copy, Debug, PartialEq, Eq, Error)]
pub enum SinkFault {
    /// The call failed.
    #[error("the write failed")]
    Failed,
    /// There was no memory.
    #[error("no memory for the write")]
    Memory,
}

impl From<AllocError> for SinkFault {
    ghost use Rattle.std.specs.Prelude.{◌≡◌};
    ghost use Rattle.dm_store.specs.declared.faults.SinkFault.TheVariants.{Memory};

    ghost from_gives = { λ _ e. e ≡ Memory };

    fn from(_: AllocError) -> SinkFault {
        SinkFault::Memory
    }
}

impl From<ListFault> for Stop {
    ghost use Rattle.std.specs.Prelude.{◌≡◌};
    ghost use Rattle.dm_store.specs.Causes.{stop_from_list};

    ghost from_gives = { λ fault stop. stop ≡ stop_from_list fault };

    fn from(fault: ListFault) -> Stop {
        match fault {
            ListFault::Failed => Stop::Store,
            ListFault::Memory => Stop::Memory,
        }
    }
}
