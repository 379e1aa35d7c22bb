// Whether the ids of rows are sound.
ghost use Rattle.std.specs.Prelude.{◌≡◌, length, Some, IfOk, filter_map};
ghost use Rattle.std.specs.List.Sorted.{IsPermutation, IsSorted};
ghost use Rattle.std.specs.Ordering.{int_cmp};
ghost use Rattle.row_tracking.specs.Checked.{Fails, IsLeast, is_outside as is_outside_of, least_failing};
ghost use Rattle.row_tracking.specs.StepsChecked.{FailsBelow, IsRepeated, failing_id, lesser as lesser_of};

use crate::row_id::{RowId, RowIds};
use std::alloc::{AllocError, Global};

/// The least id that fails, if one does (PROTOCOL.md, "Row Tracking").
///
/// Every id is to be from 0 to the mark and held by one row, whose commit version is to be from 0 to
/// the table's version. A row without an id, or without a version, fails nothing by what it lacks. The
/// order of the rows doesn't matter ([`order_is_free`](crate::laws::order_is_free)).
///
/// It takes the memory of the ids once more, and n log n steps.
pub fn check_ids(
    alloc: Global,
    all: &RowIds,
    mark: i64,
    version: u64,
) -> Result<Option<i64>, AllocError>
    ensures least { IfOk result (IsLeast (Fails all.now mark version)) }
    ensures same { IfOk result (λ id. id ≡ least_failing all.now mark version) }
{
    let rows = all.as_slice();
    let alone = least_alone(rows, mark, version);
    let repeated = least_repeated(&sorted_ids(alloc, rows)?);
    Ok(lesser(alone, repeated))
}

// The least id that fails by a row alone: by its own value, or by the row's version.
fn least_alone(rows: &[RowId], mark: i64, version: u64) -> Option<i64>
    ensures { IsLeast (FailsBelow rows.now mark version (length rows.now)) result }
{
    let mut least = None;
    for row in rows {
        least = lesser(least, failing(*row, mark, version));
    }
    least
}

// The id of a row, where it fails by this row alone.
fn failing(row: RowId, mark: i64, version: u64) -> Option<i64>
    ensures { result ≡ failing_id mark version row }
{
    let past = row.id.is_some_and(|id| is_outside(i128::from(mark), id));
    let misdated = row
        .version
        .is_some_and(|made| is_outside(i128::from(version), made));
    if past || misdated { row.id } else { None }
}

// Whether a number is below 0 or above the greatest.
fn is_outside(greatest: i128, number: i64) -> bool
    ensures { result ≡ is_outside_of greatest number }
{
    number < 0 || greatest < i128::from(number)
}

// The lesser of two that are there.
fn lesser(a: Option<i64>, b: Option<i64>) -> Option<i64>
    ensures { result ≡ lesser_of a b }
{
    match (a, b) {
        (Some(a), Some(b)) => Some(a.min(b)),
        (None, other) | (other, None) => other,
    }
}

// The ids of the rows that have one, in ascending order.
fn sorted_ids(alloc: Global, rows: &[RowId]) -> Result<Vec<i64>, AllocError>
    ensures sorted { IfOk result (λ ids. IsSorted int_cmp ids.items) }
    ensures permutation { IfOk result (λ ids. IsPermutation (filter_map (λ row. row.id) rows.now) ids.items) }
{
    let mut ids = ids_held(alloc, rows)?;
    ids.sort_unstable();
    Ok(ids)
}

// The ids of the rows that have one.
fn ids_held(alloc: Global, rows: &[RowId]) -> Result<Vec<i64>, AllocError>
    ensures { IfOk result (λ ids. ids.items ≡ filter_map (λ row. row.id) rows.now) }
{
    let mut ids = Vec::with_capacity(alloc, rows.len())?;
    for row in rows {
        if let Some(id) = row.id {
            ids.push(id)?;
        }
    }
    Ok(ids)
}

// The least number that stands twice among numbers in ascending order.
fn least_repeated(sorted: &[i64]) -> Option<i64>
    requires { IsSorted int_cmp sorted.now }
    ensures { IsLeast (IsRepeated Some sorted.now) result }
{
    for place in 1..sorted.len() {
        if sorted[place - 1] == sorted[place] {
            return Some(sorted[place]);
        }
    }
    None
}
