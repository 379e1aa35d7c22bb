// The rows of one file of a table.
ghost use Rattle.std.specs.Prelude.{◌≡◌, false, All, Err, IfOk, Some};
ghost use Rattle.std.specs.Option.{option_copied};
ghost use Rattle.data_file.specs.Rows.{seen, rows_of as rows_in};
ghost use Rattle.data_file.specs.Wanted.{wanted};
ghost use Rattle.dm_store.specs.Causes.{Counts, StopCause};
ghost use Rattle.dm_store.specs.Files.{lookup};
ghost use Rattle.dm_store.specs.LoggedPath.{path_of};
ghost use Rattle.dm_types.specs.Ranges.{IsWellFormed};
ghost use Rattle.dm_types.specs.declared.refusal.TableRefusal.TheVariants as refusal;
ghost use Rattle.table_load.specs.Files as spec;
ghost use Rattle.table_load.specs.Loaded.{IsPart};
ghost use Rattle.table_load.specs.StepsLoading.{Gives, GivesAs, is_held};
ghost use Rattle.table_load.specs.Tells.{Tells, TellsAs};

use crate::columns::name_at;
use crate::head::Head;
use crate::properties::{property, tracks_rows};
use data_file::{CHANGE_TYPE, Columns, PartColumn, PartFault, PartRows, Room, read_rows};
use dm_store::{PathFault, ReadFault, Store, decode_path};
use dm_types::{Bytes, PartitionValues, Stop, TableRefusal, Text};
use log_replay::Snapshot;
use std::alloc::{AllocError, Global};
use std::collections::BTreeSet;
use table_log::path_below;

/// What an action says of its file.
#[derive(Clone, Copy)]
pub struct PartView<'a> {
    /// The path as logged.
    pub path: &'a Text,
    /// The values of the partition columns, as texts or nulls.
    pub values: &'a PartitionValues,
    /// Whether a deletion vector is there.
    pub deletion_vector: bool,
    /// Whether the file is a change file.
    pub change: bool,
}

// ---- what is read

// The name of a materialized column, where rows are tracked and the table names it.
fn materialized<'a>(table: &'a Snapshot, name: &str) -> Option<&'a Text>
    ensures { option_copied result ≡ spec.materialized table.entry.now name.now }
{
    if tracks_rows(table) {
        property(table, name)
    } else {
        None
    }
}

/// What is read of each file of a table: its columns, and the materialized columns that its rows' ids
/// and commit versions are in, where rows are tracked; of a change file the kinds of changes too.
pub fn columns_of(head: &Head, change: bool) -> Columns<'_>
    ensures { wanted result ≡ spec.columns_of change head.entry.now }
{
    let table = &head.snapshot;
    Columns {
        schema: &head.schema,
        mode: head.mode,
        ids: materialized(table, "delta.rowTracking.materializedRowIdColumnName"),
        versions: materialized(
            table,
            "delta.rowTracking.materializedRowCommitVersionColumnName",
        ),
        change,
    }
}

// ---- refusals

fn name_or_none(alloc: Global, name: Option<&Text>) -> Result<Text, AllocError>
    ensures { IfOk result (λ it. it ≡ spec.name_or_none (option_copied name.entry)) }
{
    match name {
        Some(name) => name.clone(),
        None => Ok(Text::new(alloc)),
    }
}

// The name of a column that is read.
fn column_name(alloc: Global, columns: &Columns<'_>, column: PartColumn) -> Result<Text, AllocError>
    ensures { IfOk result (λ name. name ≡ spec.column_name (wanted columns.now) column) }
{
    match column {
        PartColumn::Table(place) => name_at(alloc, columns.schema, place),
        PartColumn::Ids => name_or_none(alloc, columns.ids),
        PartColumn::Versions => name_or_none(alloc, columns.versions),
        PartColumn::ChangeType => Text::from_str(alloc, CHANGE_TYPE),
    }
}

// A fault of the file that is logged under a path, as the refusal of the table.
fn refusal_of(
    alloc: Global,
    columns: &Columns<'_>,
    logged: &Text,
    fault: PartFault,
) -> Result<TableRefusal, AllocError>
    ensures { IfOk result (λ why. why ≡ spec.refusal_of (wanted columns.now) logged.now fault) }
{
    let path = logged.clone()?;
    Ok(match fault {
        PartFault::BadParquet | PartFault::Memory => TableRefusal::BadParquet { path },
        PartFault::Compressed => TableRefusal::CompressedPage { path },
        PartFault::Encoding => TableRefusal::UnsupportedEncoding { path },
        PartFault::Mismatch { column } => {
            let column = column_name(alloc, columns, column)?;
            TableRefusal::ColumnMismatch { path, column }
        }
        PartFault::Range { column } => {
            let column = column_name(alloc, columns, column)?;
            TableRefusal::ValueRange { path, column }
        }
        PartFault::Partition { column } => {
            let column = name_at(alloc, columns.schema, column)?;
            TableRefusal::BadPartitionValue { path, column }
        }
        PartFault::TooLarge { counted } => TableRefusal::TooLarge { counted },
    })
}

// ---- one file

fn has_vector(logged: &Text) -> Result<Text, Stop>
    ensures { Gives (Err (refusal.DeletionVector logged.now)) result }
{
    let path = logged.clone()?;
    Err(TableRefusal::DeletionVector { path }.into())
}

fn has_bad_path(logged: &Text) -> Result<Text, Stop>
    ensures { Gives (Err (refusal.BadPath logged.now)) result }
{
    let path = logged.clone()?;
    Err(TableRefusal::BadPath { path }.into())
}

fn is_missing(logged: &Text) -> Result<Bytes, Stop>
    ensures { Gives (Err (refusal.MissingFile logged.now)) result }
{
    let path = logged.clone()?;
    Err(TableRefusal::MissingFile { path }.into())
}

// The path that a logged one means, where no earlier file has it.
fn new_path(earlier: &BTreeSet<Text>, logged: &Text, path: Text) -> Result<Text, Stop>
    ensures { Gives (spec.new_path (is_held earlier.now.keys) logged.now path) result }
{
    if earlier.contains(&path) {
        return has_bad_path(logged);
    }
    Ok(path)
}

// The path below the table's folder of a file without a deletion vector.
fn path_in(
    alloc: Global,
    earlier: &BTreeSet<Text>,
    vector: bool,
    logged: &Text,
) -> Result<Text, Stop>
    ensures { Gives (spec.path_in (is_held earlier.now.keys) vector logged.now) result }
{
    if vector {
        return has_vector(logged);
    }
    match decode_path(alloc, logged.as_str()) {
        Ok(path) => new_path(earlier, logged, path),
        Err(PathFault::BadPath) => has_bad_path(logged),
        Err(PathFault::Memory) => Err(Stop::Memory),
    }
}

// The bytes of the file of a path below the table's folder.
fn bytes_of<S: Store>(
    alloc: Global,
    store: &mut S,
    folder: &Text,
    logged: &Text,
    path: &Text,
) -> Result<Bytes, Stop>
    ensures bytes { Tells (S.files store.old)
        (λ files. spec.bytes_of (λ at. lookup at files) folder.now logged.now path.now) result }
    ensures kept { S.files store.new ≡ S.files store.old }
    ensures cause { Counts StopCause (S.faults store.old) (S.faults store.new) result }
    ensures taken { S.taken store.new ≡ S.taken store.old }
{
    let place = path_below(folder, path)?;
    match store.read(alloc, place.as_str()) {
        Ok(bytes) => Ok(bytes),
        Err(ReadFault::Absent) => is_missing(logged),
        Err(ReadFault::Failed) => Err(Stop::Store),
        Err(ReadFault::Memory) => Err(Stop::Memory),
    }
}

// The rows of a file of these bytes.
fn rows(
    alloc: Global,
    columns: &Columns<'_>,
    view: &PartView<'_>,
    bytes: &[u8],
    room: &Room,
) -> Result<PartRows, Stop>
    requires { All (λ column. IsWellFormed column.kind) columns.now.schema.now }
    ensures part { GivesAs seen (spec.told (wanted columns.now) view.now.path.now
        (rows_in (wanted columns.now) view.now.values.now bytes.now room.now)) result }
    ensures whole { IfOk result (IsPart columns.now.schema.now) }
{
    match read_rows(alloc, columns, view.values, bytes, room) {
        Ok(part) => Ok(part),
        Err(PartFault::Memory) => Err(Stop::Memory),
        Err(fault) => Err(refusal_of(alloc, columns, view.path, fault)?.into()),
    }
}

/// The rows of a file behind earlier ones, and its path below the table's folder.
pub(crate) fn part<S: Store>(
    alloc: Global,
    store: &mut S,
    folder: &Text,
    columns: &Columns<'_>,
    earlier: &BTreeSet<Text>,
    view: &PartView<'_>,
    room: &Room,
) -> Result<(Text, PartRows), Stop>
    requires { All (λ column. IsWellFormed column.kind) columns.now.schema.now }
    ensures part { TellsAs (λ found. seen found.1) (S.files store.old) (λ files. spec.part_in (λ at. lookup at files)
        folder.now (wanted columns.now) (is_held earlier.now.keys) view.now.path.now view.now.values.now
        view.now.deletion_vector room.now) result }
    ensures path { IfOk result (λ found. path_of view.now.path.now ≡ Some found.0) }
    ensures whole { IfOk result (λ found. IsPart columns.now.schema.now found.1) }
    ensures kept { S.files store.new ≡ S.files store.old }
    ensures cause { Counts StopCause (S.faults store.old) (S.faults store.new) result }
    ensures taken { S.taken store.new ≡ S.taken store.old }
{
    let path = path_in(alloc, earlier, view.deletion_vector, view.path)?;
    let bytes = bytes_of(alloc, store, folder, view.path, &path)?;
    let part = rows(alloc, columns, view, bytes.as_slice(), room)?;
    Ok((path, part))
}

/// The rows of the file of one action, with the columns of the head (PROTOCOL.md, "Data Files", "Change
/// Data Files"). `folder` is that of the table, and `room` is what is left of the limits of a table
/// version.
///
/// The first of these is refused: a deletion vector (`DeletionVector`), a path that leads out of the
/// folder (`BadPath`), a file that isn't there (`MissingFile`), and what [`read_rows`] finds, its
/// columns by their names: a schema's column by its name there, a materialized one by its own name,
/// and the kinds of changes as `_change_type`.
pub fn load_part<S: Store>(
    alloc: Global,
    store: &mut S,
    folder: &Text,
    head: &Head,
    view: &PartView<'_>,
    room: &Room,
) -> Result<PartRows, Stop>
    requires { All (λ column. IsWellFormed column.kind) head.now.schema }
    ensures part { TellsAs seen (S.files store.old) (λ files. spec.part_in (λ at. lookup at files) folder.now
        (spec.columns_of view.now.change head.now) (λ _. false) view.now.path.now view.now.values.now
        view.now.deletion_vector room.now) result }
    ensures whole { IfOk result (IsPart head.now.schema) }
    ensures kept { S.files store.new ≡ S.files store.old }
    ensures cause { Counts StopCause (S.faults store.old) (S.faults store.new) result }
    ensures taken { S.taken store.new ≡ S.taken store.old }
{
    let none = BTreeSet::new(alloc);
    let columns = columns_of(head, view.change);
    let (_, part) = part(alloc, store, folder, &columns, &none, view, room)?;
    Ok(part)
}
