// The state of a table that its log says, and its columns.
ghost use Rattle.std.specs.Prelude.{◌≡◌, ◌<◌, All, IfOk, length};
ghost use Rattle.dm_store.specs.Causes.{Counts, StopCause};
ghost use Rattle.dm_types.specs.Ranges.{IsWellFormed};
ghost use Rattle.log_replay.specs.Live.{AreNumbered};
ghost use Rattle.log_replay.specs.Replay.{snapshot_of as snapshot_behind};
ghost use Rattle.table_features.specs.Features.{named_fault};
ghost use Rattle.table_load.specs.Head as spec;
ghost use Rattle.table_load.specs.StepsLoading.{Gives, IsPlaced, unknown_at};
ghost use Rattle.table_load.specs.Tells.{Tells};
ghost use Rattle.table_log.specs.Log.{log_of};

use crate::columns::{columns, mode};
use crate::log::load_log;
use column_mapping::Mode;
use delta_actions::ProtocolAction;
use delta_schema::TableSchema;
use dm_store::Store;
use dm_types::{Stop, TableRefusal, Text, TextList};
use log_replay::{Commits, ReplayFault, Snapshot, replay};
use std::alloc::Global;
use table_features::{FeatureFault, check_read};

/// A table at a version, as its log says it.
#[derive(Drop)]
pub struct Head {
    /// The state that the log says.
    pub snapshot: Snapshot,
    /// The columns.
    pub schema: TableSchema,
    /// By what data files carry the columns.
    pub mode: Mode,
}

/// The head of a table at a version, or at the newest where none is asked for.
///
/// Beside what [`load_log`] refuses, the first of these is refused: a log without metadata or without
/// protocol (`NoMetadata`); a reader version other than 1, 2 and 3 (`ProtocolUnsupported`); at reader
/// version 3 a reader feature that isn't known (`UnknownFeature`, the least by bytes); a schema that
/// isn't read (`BadSchema`), has a column of another type (`UnsupportedType`) or too many columns
/// (`TooLarge`); a mapping mode that there isn't, or a column that can't be told by it (`BadMapping`).
pub fn load_head<S: Store>(
    alloc: Global,
    store: &mut S,
    table: &Text,
    version: Option<u64>,
) -> Result<Head, Stop>
    ensures head { Tells (S.files store.old) (λ files. spec.head_at version (log_of table.now files)) result }
    ensures kinds { IfOk result (λ head. All (λ column. IsWellFormed column.kind) head.schema) }
    ensures kept { S.files store.new ≡ S.files store.old }
    ensures cause { Counts StopCause (S.faults store.old) (S.faults store.new) result }
    ensures taken { S.taken store.new ≡ S.taken store.old }
{
    let commits = load_log(alloc, store, table, version)?;
    head_of(alloc, &commits)
}

// The head behind the commits.
fn head_of(alloc: Global, commits: &Commits) -> Result<Head, Stop>
    requires { AreNumbered 0 commits.now }
    ensures head { Gives (spec.head_of commits.now) result }
    ensures kinds { IfOk result (λ head. All (λ column. IsWellFormed column.kind) head.schema) }
{
    let snapshot = snapshot_of(alloc, commits)?;
    permit(alloc, &snapshot.protocol, check_read(&snapshot.protocol))?;
    with_columns(alloc, snapshot)
}

fn snapshot_of(alloc: Global, commits: &Commits) -> Result<Snapshot, Stop>
    requires { AreNumbered 0 commits.now }
    ensures { Gives (spec.state_of (snapshot_behind commits.now)) result }
{
    match replay(alloc, commits) {
        Ok(table) => Ok(table),
        Err(ReplayFault::NoMetadata) => Err(TableRefusal::NoMetadata.into()),
        Err(ReplayFault::Memory) => Err(Stop::Memory),
    }
}

fn with_columns(alloc: Global, snapshot: Snapshot) -> Result<Head, Stop>
    ensures head { Gives (spec.with_columns snapshot) result }
    ensures kinds { IfOk result (λ head. All (λ column. IsWellFormed column.kind) head.schema) }
{
    let schema = columns(alloc, &snapshot)?;
    let mode = mode(alloc, &snapshot, &schema)?;
    Ok(Head {
        snapshot,
        schema,
        mode,
    })
}

// The answer of a check on the protocol, as the refusal of the table.
pub(crate) fn permit(
    alloc: Global,
    protocol: &ProtocolAction,
    answer: Result<(), FeatureFault>,
) -> Result<(), Stop>
    requires { IsPlaced protocol.now answer }
    ensures { Gives (spec.unless_fault protocol.now (named_fault protocol.now answer)) result }
{
    match answer {
        Ok(()) => Ok(()),
        Err(FeatureFault::Numbers) => Err(TableRefusal::ProtocolUnsupported {
            reader: protocol.min_reader_version,
            writer: protocol.min_writer_version,
        }
        .into()),
        Err(FeatureFault::Reader { index }) => unknown(alloc, &protocol.reader_features, index),
        Err(FeatureFault::Writer { index }) => unknown(alloc, &protocol.writer_features, index),
    }
}

// The feature at this place isn't known.
fn unknown(alloc: Global, features: &TextList, index: usize) -> Result<(), Stop>
    requires { index < length features.now }
    ensures { Gives (unknown_at features.now index) result }
{
    let name = Text::from_str(alloc, features.get(index).as_str())?;
    Err(TableRefusal::UnknownFeature { name }.into())
}
