// The rows of the live files of a table.
ghost use Rattle.std.specs.Prelude.{◌≡◌, ◌+◌, ◌++◌, ◌∷◌, ◌||◌, ℕ, List, [], All, IfOk, OnOk, None, map, replicate};
ghost use Rattle.std.specs.Str.{bytes_eq};
ghost use Rattle.data_file.specs.Rows.{seen};
ghost use Rattle.dm_store.specs.Causes.{Counts, StopCause};
ghost use Rattle.dm_store.specs.Files.{lookup};
ghost use Rattle.dm_store.specs.LoggedPath.{path_of};
ghost use Rattle.dm_types.specs.Ranges.{IsWellFormed};
ghost use Rattle.row_tracking.specs.Checked.{no_row};
ghost use Rattle.table_load.specs.Files as spec;
ghost use Rattle.table_load.specs.Loaded.{IsPart, come_to};
ghost use Rattle.table_load.specs.StepsFiles.{HasIds, IsReading, SaysIds, Views, column_or as column_or_of};
ghost use Rattle.table_load.specs.StepsLoading.{is_held};
ghost use Rattle.table_load.specs.Tells.{TellsAs};

use crate::head::Head;
use crate::part::{PartView, columns_of, part};
use crate::properties::tracks_rows;
use column_vectors::{AnyColumn, Batch};
use data_file::{PartRows, Room, repeated};
use delta_actions::AddAction;
use delta_schema::TableSchema;
use dm_store::Store;
use dm_types::{DataType, Items, PartitionValues, Stop, Text, Value};
use log_replay::Snapshot;
use row_tracking::{IdFault, RowId, RowIds, ids_of as row_ids_of};
use std::alloc::{AllocError, Global};
use std::collections::BTreeSet;

/// Where the rows of a file stand among all rows of a table.
#[derive(Clone, Copy, Debug)]
pub struct FileRange {
    /// The place of its first row, counted from 0.
    pub first: usize,
    /// How many rows it has.
    pub rows: usize,
}

/// Where the rows of each live file stand, in log order.
pub type FileRanges = Items<FileRange>;

/// What is read of some files.
#[derive(Drop)]
pub(crate) struct Reading {
    pub(crate) batch: Batch,
    pub(crate) ids: RowIds,
    pub(crate) files: FileRanges,
    pub(crate) room: Room,
}

// ---- columns one behind the other

// A column of each column's type, without rows.
fn empty_batch(alloc: Global, schema: &TableSchema) -> Result<Batch, AllocError>
    ensures rows { IfOk result (λ batch. batch.rows ≡ 0) }
    ensures columns { IfOk result (λ batch. batch.columns
        ≡ map (λ column. record { kind = column.kind; values = [] }) schema.now) }
{
    let mut batch = Batch::new(alloc, 0);
    for column in schema.as_slice() {
        batch.push(AnyColumn::new(alloc, column.kind))?;
    }
    Ok(batch)
}

// The rows of a batch, and behind them those of another with columns of the same types.
fn joined(alloc: Global, batch: Batch, more: &Batch) -> Result<Batch, AllocError>
    requires { map (λ column. column.kind) batch.columns ≡ map (λ column. column.kind) more.now.columns }
    ensures rows { IfOk result (λ all. all.rows ≡ batch.rows + more.now.rows) }
    ensures columns { IfOk result (λ all. all.columns ≡ spec.joined batch.columns more.now.columns) }
{
    let Some(rows) = batch.rows.checked_add(more.rows) else {
        return Err(AllocError);
    };
    let mut all = Batch::new(alloc, rows);
    for column in batch.columns.into_vec() {
        let at = all.columns.len();
        all.push(column.concat(more.columns.get(at))?)?;
    }
    Ok(all)
}

// ---- ids

// Rows without ids.
fn without_ids(alloc: Global, rows: usize) -> Result<RowIds, AllocError>
    ensures { IfOk result (λ ids. ids ≡ replicate rows no_row) }
{
    let mut ids = RowIds::new(alloc);
    for _ in 0..rows {
        ids.push(RowId {
            id: None,
            version: None,
        })?;
    }
    Ok(ids)
}

// A materialized column, or the other one where there is none.
fn column_or<'a>(column: &'a Option<AnyColumn>, nulls: &'a AnyColumn) -> &'a AnyColumn
    ensures { result.now ≡ column_or_of nulls.entry.now column.entry.now }
{
    match column {
        Some(column) => column,
        None => nulls,
    }
}

// The ids that a file's add and its materialized columns say.
fn said_ids(
    alloc: Global,
    add: &AddAction,
    part: &PartRows,
    nulls: &AnyColumn,
) -> Result<RowIds, IdFault>
    requires part { HasIds part.now }
    requires nulls { nulls.now ≡ spec.or_nulls part.now.batch.rows None }
    ensures { SaysIds add.now (seen part.now) result }
{
    let ids = column_or(&part.ids, nulls);
    let versions = column_or(&part.versions, nulls);
    row_ids_of(alloc, add, ids, versions)
}

// The ids and commit versions of a file's rows.
fn ids_of(
    alloc: Global,
    table: &Snapshot,
    add: &AddAction,
    part: &PartRows,
) -> Result<RowIds, AllocError>
    requires { HasIds part.now }
    ensures { IfOk result (λ ids. ids ≡ spec.ids_of table.now add.now (seen part.now)) }
{
    let rows = part.batch.rows;
    if !tracks_rows(table) {
        return without_ids(alloc, rows);
    }
    let nulls = repeated(alloc, DataType::Long, &Value::Null, rows as u64)?;
    match said_ids(alloc, add, part, &nulls) {
        Ok(ids) => Ok(ids),
        Err(IdFault::NoBase) => without_ids(alloc, rows),
        Err(IdFault::Memory) => Err(AllocError),
    }
}

// ---- one file more

// Rows of a file, which have these ids, behind those of others.
fn extended(
    alloc: Global,
    before: Reading,
    part: &PartRows,
    more: &RowIds,
) -> Result<Reading, AllocError>
    requires { map (λ column. column.kind) before.batch.columns ≡ map (λ column. column.kind) part.now.batch.columns }
    ensures { IfOk result (λ all. come_to all ≡ spec.extended (come_to before) (seen part.now) more.now) }
{
    let Reading {
        batch,
        ids,
        files,
        ..
    } = before;
    let range = FileRange {
        first: batch.rows,
        rows: part.batch.rows,
    };
    let files = with_range(files, range)?;
    let ids = joined_ids(ids, more)?;
    Ok(Reading {
        batch: joined(alloc, batch, &part.batch)?,
        ids,
        files,
        room: part.left,
    })
}

// Rows of a file behind those of others.
fn with_part(
    alloc: Global,
    head: &Head,
    add: &AddAction,
    before: Reading,
    part: &PartRows,
) -> Result<Reading, AllocError>
    requires before { IsReading head.now.schema before }
    requires part { IsPart head.now.schema part.now }
    ensures joined { IfOk result (λ all. come_to all
        ≡ spec.with_part head.now add.now (come_to before) (seen part.now)) }
    ensures reading { IfOk result (IsReading head.now.schema) }
{
    let more = ids_of(alloc, &head.snapshot, add, part)?;
    extended(alloc, before, part, &more)
}

// Ids, and behind them more.
fn joined_ids(ids: RowIds, more: &RowIds) -> Result<RowIds, AllocError>
    ensures { IfOk result (λ all. all ≡ ids ++ more.now) }
{
    let mut all = ids;
    all.extend_from_slice(more.as_slice())?;
    Ok(all)
}

fn with_range(files: FileRanges, range: FileRange) -> Result<FileRanges, AllocError>
    ensures { IfOk result (λ all. all ≡ files ++ range ∷ []) }
{
    let mut all = files;
    all.push(range)?;
    Ok(all)
}

// One file behind those that are read, whose paths below the table's folder are these.
fn with_file<S: Store>(
    alloc: Global,
    store: &mut S,
    folder: &Text,
    head: &Head,
    paths: &mut BTreeSet<Text>,
    before: Reading,
    add: &AddAction,
) -> Result<Reading, Stop>
    requires kinds { All (λ column. IsWellFormed column.kind) head.now.schema }
    requires before { IsReading head.now.schema before }
    ensures joined { TellsAs come_to (S.files store.old) (λ files. spec.with_file (λ at. lookup at files) folder.now
        head.now (is_held paths.old.keys) (come_to before) add.now) result }
    ensures reading { IfOk result (IsReading head.now.schema) }
    ensures paths { OnOk result ((path : List ℕ) → is_held paths.new.keys path
        ≡ (is_held paths.old.keys path || spec.is_same_path path (path_of add.now.path))) }
    ensures kept { S.files store.new ≡ S.files store.old }
    ensures cause { Counts StopCause (S.faults store.old) (S.faults store.new) result }
    ensures taken { S.taken store.new ≡ S.taken store.old }
{
    let none = PartitionValues::new(alloc);
    let view = view_of(add, &none);
    let columns = columns_of(head, false);
    let (path, part) = part(alloc, store, folder, &columns, paths, &view, &before.room)?;
    add_path(paths, path)?;
    Ok(with_part(alloc, head, add, before, &part)?)
}

// One path more.
fn add_path(paths: &mut BTreeSet<Text>, path: Text) -> Result<(), AllocError>
    ensures { OnOk result ((other : List ℕ) → is_held paths.new.keys other
        ≡ (is_held paths.old.keys other || bytes_eq path other)) }
{
    paths.insert(path)?;
    Ok(())
}

// What an add says of its file.
fn view_of<'a>(add: &'a AddAction, none: &'a PartitionValues) -> PartView<'a>
    requires { none.now ≡ [] }
    ensures { Views add.now result }
{
    PartView {
        path: &add.path,
        values: match &add.partition_values {
            Some(values) => values,
            None => none,
        },
        deletion_vector: add.deletion_vector,
        change: false,
    }
}

// ---- all files

fn begun(alloc: Global, head: &Head) -> Result<Reading, AllocError>
    ensures joined { IfOk result (λ none. come_to none ≡ spec.begun head.now) }
    ensures reading { IfOk result (IsReading head.now.schema) }
{
    Ok(Reading {
        batch: empty_batch(alloc, &head.schema)?,
        ids: RowIds::new(alloc),
        files: FileRanges::new(alloc),
        room: Room::whole(),
    })
}

/// The rows of the live files of a table, in log order.
pub(crate) fn live_files<S: Store>(
    alloc: Global,
    store: &mut S,
    folder: &Text,
    head: &Head,
) -> Result<Reading, Stop>
    requires { All (λ column. IsWellFormed column.kind) head.now.schema }
    ensures joined { TellsAs come_to (S.files store.old)
        (λ files. spec.live_files (λ at. lookup at files) folder.now head.now) result }
    ensures reading { IfOk result (IsReading head.now.schema) }
    ensures kept { S.files store.new ≡ S.files store.old }
    ensures cause { Counts StopCause (S.faults store.old) (S.faults store.new) result }
    ensures taken { S.taken store.new ≡ S.taken store.old }
{
    let mut paths = BTreeSet::new(alloc);
    let mut reading = begun(alloc, head)?;
    for add in head.snapshot.live.as_slice() {
        reading = with_file(alloc, store, folder, head, &mut paths, reading, add)?;
    }
    Ok(reading)
}
