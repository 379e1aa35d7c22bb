// Opening a table.
ghost use Rattle.std.specs.Prelude.{◌≡◌, ◌+◌, ◌<◌, ◌^◌, IfOk, OnOk};
ghost use Rattle.std.specs.List.{list_any};
ghost use Rattle.dm_store.specs.Causes.{Counts, StopCause};
ghost use Rattle.row_tracking.specs.Ids.{lacks_base};
ghost use Rattle.table_load.specs.Held as held;
ghost use Rattle.table_load.specs.Loaded as spec;
ghost use Rattle.table_load.specs.StepsLoading.{Gives};
ghost use Rattle.table_load.specs.Tells.{TellsAs};

use crate::files::{FileRanges, live_files};
use crate::head::{Head, load_head};
use crate::opened_for_writing::check_writable;
use crate::properties::tracks_rows;
use column_vectors::Batch;
use delta_actions::AddAction;
use dm_store::Store;
use dm_types::{Stop, TableRefusal, Text};
use log_replay::Snapshot;
use row_tracking::{RowIds, check_ids};
use std::alloc::Global;

/// What a table is opened for.
#[derive(Clone, Copy, Debug, PartialEq, Eq)]
pub enum Purpose {
    /// Its rows are read.
    Read,
    /// A new version is written.
    Write,
}

/// A table at a version, with its rows in the order of the log: file after file, each in its order.
#[derive(Drop)]
pub struct Loaded {
    /// What the log says.
    pub head: Head,
    /// The values of the rows, in the order of the schema.
    pub batch: Batch,
    /// The id and commit version of each row; both are None where rows aren't tracked.
    pub ids: RowIds,
    /// Where the rows of each live file stand.
    pub files: FileRanges,
}

// No id is at fault.
fn unless_wrong(id: Option<i64>) -> Result<(), Stop>
    ensures { Gives (held.unless_wrong id) result }
{
    match id {
        Some(id) => Err(TableRefusal::RowIdsWrong { id }.into()),
        None => Ok(()),
    }
}

// Whether the add of a file lacks what row tracking wants of it.
fn lacks(add: &AddAction) -> bool
    ensures { result ≡ lacks_base add.now }
{
    add.base_row_id.is_none() || add.default_row_commit_version.is_none()
}

fn any_lacks(adds: &[AddAction]) -> bool
    ensures { result ≡ list_any lacks_base adds.now }
{
    adds.iter().any(lacks)
}

// The ids of the rows of a table that tracks them.
fn check_tracked(alloc: Global, table: &Snapshot, ids: &RowIds) -> Result<(), Stop>
    ensures { Gives (held.tracked_ids table.now ids.now) result }
{
    if any_lacks(table.live.as_slice()) {
        return unless_wrong(Some(-1));
    }
    unless_wrong(table.fallen)?;
    unless_wrong(check_ids(alloc, ids, table.mark, table.version)?)
}

fn check_row_ids(alloc: Global, table: &Snapshot, ids: &RowIds) -> Result<(), Stop>
    ensures { Gives (held.sound_ids table.now ids.now) result }
{
    if tracks_rows(table) {
        check_tracked(alloc, table, ids)
    } else {
        Ok(())
    }
}

fn check_purpose(alloc: Global, purpose: Purpose, table: &Snapshot) -> Result<(), Stop>
    ensures answer { Gives (spec.permitted purpose table.now) result }
    ensures room { OnOk result (purpose ≡ Purpose.Write → table.now.version + 1 < 2 ^ 63) }
{
    match purpose {
        Purpose::Read => Ok(()),
        Purpose::Write => check_writable(alloc, table),
    }
}

// A table with its rows.
fn read_table<S: Store>(
    alloc: Global,
    store: &mut S,
    folder: &Text,
    version: Option<u64>,
) -> Result<Loaded, Stop>
    ensures loaded { TellsAs spec.seen (S.files store.old) (held.opened_at folder.now version) result }
    ensures whole { IfOk result spec.IsLoaded }
    ensures kept { S.files store.new ≡ S.files store.old }
    ensures cause { Counts StopCause (S.faults store.old) (S.faults store.new) result }
    ensures taken { S.taken store.new ≡ S.taken store.old }
{
    let head = load_head(alloc, store, folder, version)?;
    let all = live_files(alloc, store, folder, &head)?;
    check_row_ids(alloc, &head.snapshot, &all.ids)?;
    Ok(Loaded {
        head,
        batch: all.batch,
        ids: all.ids,
        files: all.files,
    })
}

/// The table in a folder at a version, or at the newest where none is asked for, with all of its rows.
///
/// Beside what [`load_head`] refuses, the first of these is refused. For one live file after the other:
/// what [`load_part`](crate::load_part) refuses, and a path that an earlier live file has (`BadPath`),
/// the limits being those of the table version. Then, where rows are tracked, ids that aren't sound
/// (`RowIdsWrong`): -1 where a file doesn't say the ids of its rows; the first mark that fell; the least
/// id that is below 0 or above the mark, is held twice or has a commit version below 0 or above the
/// table's. To be written, the table also passes the checks on its writer version and features, its
/// room for one more version and its rules.
///
/// Each file is read once and gone through once; the bytes of one file at a time are kept.
pub fn load_table<S: Store>(
    alloc: Global,
    store: &mut S,
    folder: &Text,
    version: Option<u64>,
    purpose: Purpose,
) -> Result<Loaded, Stop>
    ensures loaded { TellsAs spec.seen (S.files store.old) (spec.opened_for purpose folder.now version) result }
    ensures whole { IfOk result spec.IsLoaded }
    ensures room { purpose ≡ Purpose.Write → IfOk result (λ loaded. loaded.head.snapshot.version + 1 < 2 ^ 63) }
    ensures kept { S.files store.new ≡ S.files store.old }
    ensures cause { Counts StopCause (S.faults store.old) (S.faults store.new) result }
    ensures taken { S.taken store.new ≡ S.taken store.old }
{
    let loaded = read_table(alloc, store, folder, version)?;
    check_purpose(alloc, purpose, &loaded.head.snapshot)?;
    Ok(loaded)
}
