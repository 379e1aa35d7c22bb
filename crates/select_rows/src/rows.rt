// The rows on which a condition holds, and the values of items on them.
ghost use Rattle.std.specs.Prelude.{◌≡◌, ◌++◌, All, IfOk, OnOk, length, map};
ghost use Rattle.std.specs.List.{flat_map};
ghost use Rattle.select_rows.specs.Answers.{Decides, DecidesAs};
ghost use Rattle.select_rows.specs.Rows as spec;
ghost use Rattle.typed_expr.specs.Fits.{Fits};
ghost use Rattle.vector_eval.specs.Batches.{IsRanged, kinds_of};

use crate::query::QueryItem;
use column_vectors::{Batch, Selection};
use dm_types::{Refused, StatementRefusal, Stop};
use std::alloc::{AllocError, Global};
use typed_expr::TypedExprs;
use vector_eval::{ErrorKind, FaultList, eval, holds, least_kind};

/// The rows of a batch on which a condition holds.
///
/// Where it has an error on a row, the least kind of error over all rows is told (`EvalError`).
pub fn rows_where<'a>(
    alloc: Global,
    conjuncts: &'a TypedExprs,
    batch: &'a Batch,
) -> Result<Selection, Stop>
    ensures flags { Decides (spec.flags_where conjuncts.now (spec.rows_of batch.now.columns batch.now.rows)) result }
{
    let every = every_row(alloc, batch.rows)?;
    let held = holds(alloc, conjuncts, batch, &every)?;
    match unless_error(&held.faults) {
        Ok(()) => Ok(held.kept),
        Err(refusal) => Err(Stop::Refused(Refused::Statement(refusal))),
    }
}

fn every_row(alloc: Global, rows: usize) -> Result<Selection, AllocError>
    ensures { IfOk result (λ every. every ≡ spec.every rows) }
{
    let mut every = Selection::new(alloc);
    for _ in 0..rows {
        every.push(true)?;
    }
    Ok(every)
}

fn unless_error(faults: &FaultList) -> Result<(), StatementRefusal>
    ensures { result ≡ spec.unless_error (map (λ fault. fault.1) faults.now) tt }
{
    match least_kind(faults) {
        Some(kind) => Err(StatementRefusal::EvalError {
            kind: kind.number(),
        }),
        None => Ok(()),
    }
}

/// The values of items on the rows of a batch that are kept, a column for each item; the other rows
/// are null. There is a flag for each row.
///
/// Where an item has an error on a row that is kept, the least kind of error over all items and rows
/// is told (`EvalError`).
pub fn values_of<'a>(
    alloc: Global,
    items: &'a [QueryItem],
    batch: &'a Batch,
    kept: &Selection,
) -> Result<Batch, Stop>
    requires fits { All (λ item. Fits (kinds_of batch.now.columns) item.value) items.now }
    requires flags { length kept.now ≡ batch.now.rows }
    ensures columns { DecidesAs (λ found. found.columns) (spec.columns_of batch.now.columns kept.now
        (map (λ item. item.value) items.now)) result }
    ensures rows { IfOk result (λ found. found.rows ≡ batch.now.rows) }
    // Where each value of the batch is null or in the range of its type, so is each that comes out.
    ensures range { All IsRanged batch.now.columns → IfOk result (λ found. All IsRanged found.columns) }
{
    let mut found = Batch::new(alloc, batch.rows);
    let mut faults = FaultList::new(alloc);
    for item in items {
        let outcome = eval(alloc, &item.value, batch, kept)?;
        faults.extend_from_slice(outcome.faults.as_slice())?;
        found.push(outcome.column)?;
    }
    match unless_error(&faults) {
        Ok(()) => Ok(found),
        Err(refusal) => Err(Stop::Refused(Refused::Statement(refusal))),
    }
}
