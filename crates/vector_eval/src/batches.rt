// Expressions and conditions on the rows of a batch.
ghost use Rattle.std.specs.Prelude.{◌≡◌, ◌∷◌, ◌++◌, [], false, All, IfOk, OnOk, Result, map};
ghost use Rattle.std.specs.declared.alloc.AllocError.{AllocError as AnAllocError};
ghost use Rattle.dm_types.specs.Lanes.{IsNullOrOf};
ghost use Rattle.dm_types.specs.declared.value.Value.TheVariants.{Null};
ghost use Rattle.typed_expr.specs.Fits.{Fits};
ghost use Rattle.typed_expr.specs.Kinds.{kind_of};
ghost use Rattle.vector_eval.specs.Batches as spec;
ghost use Rattle.vector_eval.specs.Outcomes.{Answers};
ghost use Rattle.vector_eval.specs.Steps as steps;
ghost use Rattle.vector_eval.specs.Values.{value_of};

use crate::evaluation::evaluate;
use crate::fault::{ErrorKind, EvalFault};
use crate::found::Line;
use crate::truths::is_true;
use column_vectors::{AnyColumn, Batch, Selection};
use dm_text::what_reads_is_in_range;
use dm_types::{Items, Value};
use std::alloc::{AllocError, Global};
use typed_expr::{TypedExpr, TypedExprs};

/// Errors, each with the place of its row, counted from 0.
pub type FaultList = Items<(usize, ErrorKind)>;

/// What an expression comes to on the rows of a batch.
#[derive(Drop)]
pub struct Outcome {
    /// The value of each selected row; null of another row, and of one with an error.
    pub column: AnyColumn,
    /// The error of each selected row that has one, in the order of the rows.
    pub faults: FaultList,
}

/// On which rows of a batch a condition holds.
#[derive(Drop)]
pub struct Held {
    /// The selected rows on which all conjuncts are true.
    pub kept: Selection,
    /// The error of each selected row that has one, in the order of the rows.
    pub faults: FaultList,
}

// An answer apart from want of memory.
fn split<T: Drop>(answer: Result<T, EvalFault>) -> Result<Result<T, ErrorKind>, AllocError>
    ensures { result ≡ steps.split_of answer }
{
    match answer {
        Ok(value) => Ok(Ok(value)),
        Err(EvalFault::Kind(kind)) => Ok(Err(kind)),
        Err(EvalFault::Memory) => Err(AllocError),
    }
}

fn push_fault<T: Drop>(
    faults: &mut FaultList,
    row: usize,
    outcome: &Result<T, ErrorKind>,
) -> Result<(), AllocError>
    ensures { OnOk result (faults.new ≡ faults.old ++ spec.fault_at row outcome.now) }
{
    match outcome {
        Ok(_) => Ok(()),
        Err(kind) => faults.push((row, *kind)),
    }
}

// ---- expressions

// The value of a row, where it is selected.
fn value_at<'a>(
    alloc: Global,
    expr: &'a TypedExpr,
    columns: &'a [AnyColumn],
    row: usize,
    selected: bool,
) -> Result<Result<Value, ErrorKind>, AllocError>
    ensures { IfOk result (λ outcome. outcome ≡ spec.at_row Null (value_of expr.now) columns.now row selected) }
{
    if selected {
        split(evaluate(alloc, expr, Line::Cells { columns, row }))
    } else {
        Ok(Ok(Value::Null))
    }
}

fn push_value(column: &mut AnyColumn, outcome: Result<Value, ErrorKind>) -> Result<(), AllocError>
    requires { IfOk outcome (IsNullOrOf column.old.kind) }
    ensures kind { column.new.kind ≡ column.old.kind }
    ensures ok { OnOk result (column.new.values ≡ column.old.values ++ spec.found_or Null outcome ∷ []) }
{
    match outcome {
        Ok(value) => column.push(value),
        Err(_) => column.push(Value::Null),
    }
}

// Each column has values of its type.
fn are_typed(columns: &[AnyColumn])
    ensures { steps.AreTyped columns.now }
{
    for column in columns {
        let _ = column.kind();
    }
}

/// The values of an expression on the selected rows of a batch. The selection has a flag for each row
/// of the batch.
///
/// Each selected row has its value in the column or its error among the faults. A row that isn't
/// selected isn't looked at: it is null in the column and has no fault. A row is fetched only in the
/// columns that the expression looks at. It takes one step a node for each selected row.
pub fn eval<'a>(
    alloc: Global,
    expr: &'a TypedExpr,
    batch: &'a Batch,
    selection: &Selection,
) -> Result<Outcome, AllocError>
    requires { Fits (spec.kinds_of batch.now.columns) expr.now }
    ensures kind { IfOk result (λ outcome. outcome.column.kind ≡ kind_of expr.now) }
    ensures values { IfOk result (λ outcome. outcome.column.values
        ≡ map (spec.found_or Null) (spec.values_on expr.now batch.now.columns selection.now)) }
    ensures faults { IfOk result (λ outcome. outcome.faults
        ≡ spec.faults_from 0 (spec.values_on expr.now batch.now.columns selection.now)) }
    // Where each value of the batch is null or in the range of its type, so is each that comes out.
    ensures range { All spec.IsRanged batch.now.columns → IfOk result (λ outcome. spec.IsRanged outcome.column) }
{
    let columns = batch.columns.as_slice();
    what_reads_is_in_range();
    are_typed(columns);
    let mut column = AnyColumn::new(alloc, expr.kind());
    let mut faults = FaultList::new(alloc);
    for row in 0..selection.len() {
        let outcome = value_at(alloc, expr, columns, row, selection.test(row))?;
        push_fault(&mut faults, row, &outcome)?;
        push_value(&mut column, outcome)?;
    }
    Ok(Outcome { column, faults })
}

// ---- conditions

// Whether all conjuncts are true on a row, by the first that isn't.
fn all_true<'a>(alloc: Global, conjuncts: &'a [TypedExpr], row: Line<'a>) -> Result<bool, EvalFault>
    ensures { Answers (spec.all_true (map value_of conjuncts.now) (steps.line row.entry)) result }
{
    for conjunct in conjuncts {
        let value = evaluate(alloc, conjunct, row)?;
        if !is_true(&value) {
            return Ok(false);
        }
    }
    Ok(true)
}

// Whether the condition holds on a row, where it is selected.
fn truth_at<'a>(
    alloc: Global,
    conjuncts: &'a [TypedExpr],
    columns: &'a [AnyColumn],
    row: usize,
    selected: bool,
) -> Result<Result<bool, ErrorKind>, AllocError>
    ensures { IfOk result (λ outcome. outcome
        ≡ spec.at_row false (spec.all_true (map value_of conjuncts.now)) columns.now row selected) }
{
    if selected {
        split(all_true(alloc, conjuncts, Line::Cells { columns, row }))
    } else {
        Ok(Ok(false))
    }
}

fn push_truth(kept: &mut Selection, outcome: &Result<bool, ErrorKind>) -> Result<(), AllocError>
    ensures { OnOk result (kept.new ≡ kept.old ++ spec.found_or false outcome.now ∷ []) }
{
    match outcome {
        Ok(truth) => kept.push(*truth),
        Err(_) => kept.push(false),
    }
}

/// On which selected rows of a batch a condition holds: by its conjuncts from left to right, up to the
/// first that isn't true. The selection has a flag for each row of the batch.
///
/// A row that isn't selected isn't looked at: it isn't kept and has no fault. Each row has at most one
/// fault. Without conjuncts the condition holds on each selected row.
pub fn holds<'a>(
    alloc: Global,
    conjuncts: &'a TypedExprs,
    batch: &'a Batch,
    selection: &Selection,
) -> Result<Held, AllocError>
    ensures kept { IfOk result (λ held. held.kept
        ≡ map (spec.found_or false) (spec.truths_on conjuncts.now batch.now.columns selection.now)) }
    ensures faults { IfOk result (λ held. held.faults
        ≡ spec.faults_from 0 (spec.truths_on conjuncts.now batch.now.columns selection.now)) }
{
    let columns = batch.columns.as_slice();
    let mut kept = Selection::new(alloc);
    let mut faults = FaultList::new(alloc);
    for row in 0..selection.len() {
        let outcome = truth_at(
            alloc,
            conjuncts.as_slice(),
            columns,
            row,
            selection.test(row),
        )?;
        push_fault(&mut faults, row, &outcome)?;
        push_truth(&mut kept, &outcome)?;
    }
    Ok(Held { kept, faults })
}

// ---- errors

fn has_kind(faults: &[(usize, ErrorKind)], kind: ErrorKind) -> bool
    ensures { result ≡ spec.has_kind kind (map (λ fault. fault.1) faults.now) }
{
    for fault in faults {
        if fault.1.number() == kind.number() {
            return true;
        }
    }
    false
}

/// The kind of error that is told of many: the least, if there is one.
pub fn least_kind(faults: &FaultList) -> Option<ErrorKind>
    ensures { result ≡ spec.least_kind (map (λ fault. fault.1) faults.now) }
{
    let faults = faults.as_slice();
    if has_kind(faults, ErrorKind::Overflow) {
        Some(ErrorKind::Overflow)
    } else if has_kind(faults, ErrorKind::DivideByZero) {
        Some(ErrorKind::DivideByZero)
    } else if has_kind(faults, ErrorKind::BadCast) {
        Some(ErrorKind::BadCast)
    } else {
        None
    }
}
