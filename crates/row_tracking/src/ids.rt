// The ids and commit versions of a file's rows.
ghost use Rattle.std.specs.Prelude.{◌≡◌, ◌<◌, ◌↔◌, length, All, EachIndex, slice_get, Some, IfOk, IsTrue};
ghost use Rattle.dm_types.specs.declared.value.DataType.TheVariants.{Long};
ghost use Rattle.row_tracking.specs.Ids.{lacks_base, number_at, id_from, row_at, row_id_at, IsKnown};
ghost use Rattle.row_tracking.specs.StepsIds.{AreRows};

use crate::row_id::{RowId, RowIds};
use column_vectors::{AnyColumn, Column, LaneColumn};
use delta_actions::AddAction;
use dm_types::LaneLong;
use std::alloc::{AllocError, Global};
use thiserror::Error;

/// The id of a row whose id would pass 2^63 - 1: none that a row may have.
const NO_ID: i64 = -1;

/// Why a file gives its rows no ids.
#[derive(Debug, Drop, Error)]
pub enum IdFault {
    /// Its add has no `baseRowId` or no `defaultRowCommitVersion`.
    #[error("the file has no base row id or no default commit version")]
    NoBase,
    /// There was no memory.
    #[error("no memory for row ids")]
    Memory,
}

impl From<AllocError> for IdFault {
    ghost use Rattle.std.specs.Prelude.{◌≡◌};
    ghost use Rattle.row_tracking.specs.declared.ids.IdFault.TheVariants.{Memory};

    ghost from_gives = { λ _ e. e ≡ Memory };

    fn from(_: AllocError) -> IdFault {
        IdFault::Memory
    }
}

/// The ids and commit versions of the rows of a file, in their order (PROTOCOL.md, "Row Tracking").
///
/// `ids` and `versions` have what the file's materialized columns hold, null in a row without a
/// materialized value. A row without an id there has the file's base row id plus its position, or -1
/// where that passes 2^63 - 1; a row without a version there has the file's default. Each row has
/// both. A file without rows needs its two members too.
pub fn ids_of(
    alloc: Global,
    add: &AddAction,
    ids: &AnyColumn,
    versions: &AnyColumn,
) -> Result<RowIds, IdFault>
    requires ids { ids.now.kind ≡ Long }
    requires versions { versions.now.kind ≡ Long }
    requires even { length versions.now.values ≡ length ids.now.values }
    ensures base { (result ≡ Err IdFault.NoBase) ↔ IsTrue (lacks_base add.now) }
    ensures count { IfOk result (λ rows. length rows ≡ length ids.now.values) }
    ensures rows { IfOk result (λ rows. EachIndex rows
        (λ k. slice_get rows k ≡ Some (row_id_at add.now ids.now versions.now k))) }
    ensures known { IfOk result (All IsKnown) }
{
    let (Some(base), Some(version)) = (add.base_row_id, add.default_row_commit_version) else {
        return Err(IdFault::NoBase);
    };
    let file = FileIds { base, version };
    Ok(rows_of(alloc, file, longs(ids), longs(versions))?)
}

// What a file says of its rows' ids and commit versions.
#[derive(Clone, Copy)]
struct FileIds {
    // The id of the row at position 0.
    base: i64,
    // The version of rows without one of their own.
    version: i64,
}

impl FileIds {
    // The row at this position of the file.
    fn row(self, ids: &Column<LaneLong>, versions: &Column<LaneLong>, position: usize) -> RowId
        requires ids { ids.now.kind ≡ Long }
        requires versions { versions.now.kind ≡ Long }
        requires at { position < length ids.now.values }
        requires even { length versions.now.values ≡ length ids.now.values }
        ensures { result ≡ row_at (Some self.base) (Some self.version) ids.now versions.now position }
    {
        RowId {
            id: number(ids, position).or(Some(id_at(self.base, position))),
            version: number(versions, position).or(Some(self.version)),
        }
    }
}

// The id that the base gives the row at a position.
fn id_at(base: i64, position: usize) -> i64
    ensures { result ≡ id_from base position }
{
    base.checked_add_unsigned(position as u64).unwrap_or(NO_ID)
}

// The whole numbers of a column of them.
fn longs(column: &AnyColumn) -> &Column<LaneLong>
    requires { column.now.kind ≡ Long }
    ensures { result.now ≡ column.now }
{
    match column.lane() {
        LaneColumn::Long(column) => column,
        _ => unreachable!(),
    }
}

// The whole number in a row.
fn number(column: &Column<LaneLong>, row: usize) -> Option<i64>
    requires kind { column.now.kind ≡ Long }
    requires row { row < length column.now.values }
    ensures { result ≡ number_at column.now row }
{
    column.get(row).copied()
}

// All rows of the file.
fn rows_of(
    alloc: Global,
    file: FileIds,
    ids: &Column<LaneLong>,
    versions: &Column<LaneLong>,
) -> Result<RowIds, AllocError>
    requires ids { ids.now.kind ≡ Long }
    requires versions { versions.now.kind ≡ Long }
    requires even { length versions.now.values ≡ length ids.now.values }
    ensures { IfOk result (AreRows (row_at (Some file.base) (Some file.version) ids.now versions.now)
        (length ids.now.values)) }
{
    let mut rows = RowIds::new(alloc);
    for position in 0..ids.len() {
        rows.push(file.row(ids, versions, position))?;
    }
    Ok(rows)
}
