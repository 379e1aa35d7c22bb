// The state of a table, as its log says.
ghost use Rattle.log_replay.specs.Live.{AreNumbered};
ghost use Rattle.log_replay.specs.Replay.{Replays, snapshot_of};

use crate::commits::Commits;
use crate::force::{follow_marks, in_force};
use crate::live::live_files;
use delta_actions::{AddAction, MetadataAction, ProtocolAction};
use dm_types::Items;
use std::alloc::{AllocError, Global};
use thiserror::Error;

/// Live files, in log order.
pub type LiveFiles = Items<AddAction>;

/// A table at its newest version.
#[derive(Drop)]
pub struct Snapshot {
    /// The newest version.
    pub version: u64,
    /// The metadata in force.
    pub metadata: MetadataAction,
    /// The protocol in force.
    pub protocol: ProtocolAction,
    /// The live files.
    pub live: LiveFiles,
    /// The row id mark in force, at least -1: no row id that was given is above it.
    pub mark: i64,
    /// The first mark that fell from one commit to the next, if one did.
    pub fallen: Option<i64>,
}

/// Why a log says no state of a table.
#[derive(Debug, Drop, Error)]
pub enum ReplayFault {
    /// No metadata or no protocol is in force.
    #[error("the log has no metadata or no protocol")]
    NoMetadata,
    /// There was no memory.
    #[error("no memory for the state")]
    Memory,
}

impl From<AllocError> for ReplayFault {
    ghost use Rattle.std.specs.Prelude.{◌≡◌};
    ghost use Rattle.log_replay.specs.declared.snapshot.ReplayFault.TheVariants.{Memory};

    ghost from_gives = { λ _ e. e ≡ Memory };

    fn from(_: AllocError) -> ReplayFault {
        ReplayFault::Memory
    }
}

/// The state of a table at the newest of its commits, which are numbered from 0 (PROTOCOL.md,
/// "Action Reconciliation").
///
/// A domain `delta.rowTracking` that was read has a mark, unless it is removed. A removed one counts
/// as the mark -1, and so does none.
pub fn replay(alloc: Global, commits: &Commits) -> Result<Snapshot, ReplayFault>
    requires { AreNumbered 0 commits.now }
    ensures { Replays (snapshot_of commits.now) result }
{
    let all = commits.as_slice();
    let Some(metadata) = in_force::<MetadataAction>(all) else {
        return Err(ReplayFault::NoMetadata);
    };
    let Some(protocol) = in_force::<ProtocolAction>(all) else {
        return Err(ReplayFault::NoMetadata);
    };
    let marks = follow_marks(alloc, all)?;
    Ok(Snapshot {
        version: commits.len() as u64 - 1,
        metadata: metadata.clone()?,
        protocol: protocol.clone()?,
        live: live_files(alloc, commits)?,
        mark: marks.mark,
        fallen: marks.fallen,
    })
}
