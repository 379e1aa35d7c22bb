// Why a version isn't added.
ghost use Rattle.std.specs.Prelude.{◌≡◌};

use dm_types::{PutRefusal, Stop, Text};
use std::alloc::AllocError;
use thiserror::Error;

/// Why a version wasn't added.
#[derive(Debug, Drop, Error)]
pub enum CommitFault {
    /// A file has the path of a new one already. The new files before it are put.
    #[error("the path {} is taken", .path.as_str())]
    NameTaken {
        /// The first such path, the whole one in the store.
        path: Text,
    },
    /// The version's commit file is there already. The other new files are put.
    #[error("version {version} is taken")]
    VersionTaken {
        /// The new version.
        version: u64,
    },
    /// A put failed. The files before it are put, and its own is absent or whole.
    #[error("a put failed")]
    Failed,
    /// There was no memory. Some of the new files may be put, and the commit file isn't.
    #[error("no memory for the new version")]
    Memory,
}

impl From<AllocError> for CommitFault {
    ghost use Rattle.commit_log.specs.declared.fault.CommitFault.TheVariants.{Memory};

    ghost from_gives = { λ _ e. e ≡ Memory };

    fn from(_: AllocError) -> CommitFault {
        CommitFault::Memory
    }
}

impl From<CommitFault> for Stop {
    ghost use Rattle.commit_log.specs.Commits.{stop_of};

    ghost from_gives = { λ fault stop. stop ≡ stop_of fault };

    fn from(fault: CommitFault) -> Stop {
        match fault {
            CommitFault::NameTaken { path } => PutRefusal::NameTaken { path }.into(),
            CommitFault::VersionTaken { version } => PutRefusal::VersionTaken { version }.into(),
            CommitFault::Failed => Stop::Store,
            CommitFault::Memory => Stop::Memory,
        }
    }
}
