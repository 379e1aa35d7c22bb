// Expressions and conditions on many rows, against the same on each row alone.
ghost use Rattle.std.specs.Prelude.{◌≡◌};
ghost use Rattle.typed_expr.specs.Fits.{AreWellFormed, Fits, kinds_in};
ghost use Rattle.vector_eval.specs.Batches.{kinds_of};

use super::fixture::{ROWS, batch, given_columns};
use super::tables::{CONDITIONS, FORMS};
use column_vectors::{AnyColumn, Batch, Selection};
use dm_types::{Row, Value, same};
use sql_reader::read_expr;
use std::alloc::{AllocError, Global};
use std::test::Fail;
use typed_expr::{Scope, TypedExpr, TypedExprs, type_condition, type_expr};
use vector_eval::{ErrorKind, EvalFault, FaultList, Held, Outcome, eval, eval_row, holds};

/// Two rows of three.
fn is_selected(row: usize) -> bool {
    row % 3 != 1
}

fn selection(alloc: Global) -> Result<Selection, AllocError> {
    let mut selection = Selection::new(alloc);
    for row in 0..ROWS {
        selection.push(is_selected(row))?;
    }
    Ok(selection)
}

/// The value of a column at a row, and null past its end.
fn cell(column: &AnyColumn, at: usize) -> Result<Value, AllocError> {
    if at < column.len() {
        column.get(at)
    } else {
        Ok(Value::Null)
    }
}

fn row(alloc: Global, batch: &Batch, at: usize) -> Result<Row, AllocError> {
    let mut row = Row::new(alloc);
    for column in batch.columns.as_slice() {
        row.push(cell(column, at)?)?;
    }
    Ok(row)
}

fn fault_of(faults: &FaultList, at: usize) -> Option<ErrorKind> {
    for (row, kind) in faults.as_slice() {
        if *row == at {
            return Some(*kind);
        }
    }
    None
}

/// Whether the value and the fault that are told of a row are what comes of it alone.
fn agrees(value: &Value, fault: Option<ErrorKind>, alone: &Result<Value, EvalFault>) -> bool {
    match alone {
        Ok(wanted) => fault.is_none() && same(value, wanted),
        Err(EvalFault::Kind(kind)) => matches!(value, Value::Null) && fault == Some(*kind),
        Err(EvalFault::Memory) => false,
    }
}

// ---- expressions

/// The value of a row alone; null where it isn't selected.
fn alone(
    alloc: Global,
    tree: &TypedExpr,
    batch: &Batch,
    at: usize,
) -> Result<Result<Value, EvalFault>, AllocError> {
    if is_selected(at) {
        let row = row(alloc, batch, at)?;
        Ok(eval_row(alloc, tree, &row))
    } else {
        Ok(Ok(Value::Null))
    }
}

/// How many rows agree before the first that doesn't.
fn agreeing(
    alloc: Global,
    tree: &TypedExpr,
    batch: &Batch,
    found: &Outcome,
) -> Result<usize, AllocError> {
    for at in 0..ROWS {
        let value = cell(&found.column, at)?;
        let alone = alone(alloc, tree, batch, at)?;
        if !agrees(&value, fault_of(&found.faults, at), &alone) {
            return Ok(at);
        }
    }
    Ok(ROWS)
}

fn evaluated(alloc: Global, tree: &TypedExpr, batch: &Batch) -> Result<usize, AllocError>
    requires { Fits (kinds_of batch.now.columns) tree.now }
{
    let selection = selection(alloc)?;
    let found = eval(alloc, tree, batch, &selection)?;
    if found.column.len() != ROWS {
        return Ok(0);
    }
    agreeing(alloc, tree, batch, &found)
}

/// The same of a text.
fn agreeing_of(
    alloc: Global,
    scope: &Scope,
    batch: &Batch,
    text: &[u8],
) -> Result<usize, AllocError>
    requires formed { AreWellFormed scope.now }
    requires kinds { kinds_of batch.now.columns ≡ kinds_in scope.now }
{
    let Ok(expr) = read_expr(alloc, text) else {
        return Ok(0);
    };
    match type_expr(alloc, scope, &expr) {
        Ok(tree) => evaluated(alloc, &tree, batch),
        Err(_) => Ok(0),
    }
}

#[test]
fn values_are_those_of_each_row(rt: HostRuntime) -> Result<(), Fail> {
    let alloc = rt.alloc();
    let given = given_columns(alloc)?;
    let batch = batch(alloc, &given.scope)?;
    for text in FORMS {
        let agreeing = agreeing_of(alloc, &given.scope, &batch, text)?;
        assert_eq!(rt; agreeing, ROWS, "{text:?}");
    }
    Ok(())
}

// ---- conditions

/// What a condition comes to on a row, by its conjuncts from the left.
fn all_true(alloc: Global, conjuncts: &TypedExprs, row: &Row) -> Result<Value, EvalFault> {
    for conjunct in conjuncts.as_slice() {
        let value = eval_row(alloc, conjunct, row)?;
        if !matches!(value, Value::Bool(true)) {
            return Ok(Value::Bool(false));
        }
    }
    Ok(Value::Bool(true))
}

/// The same, and false where the row isn't selected.
fn truth(
    alloc: Global,
    conjuncts: &TypedExprs,
    batch: &Batch,
    at: usize,
) -> Result<Result<Value, EvalFault>, AllocError> {
    if is_selected(at) {
        let row = row(alloc, batch, at)?;
        Ok(all_true(alloc, conjuncts, &row))
    } else {
        Ok(Ok(Value::Bool(false)))
    }
}

/// Whether a row is kept; null where it has a fault and isn't.
fn kept(held: &Held, at: usize) -> Value {
    let kept = at < held.kept.len() && held.kept.test(at);
    if !kept && fault_of(&held.faults, at).is_some() {
        Value::Null
    } else {
        Value::Bool(kept)
    }
}

/// How many rows agree before the first that doesn't.
fn holding(
    alloc: Global,
    conjuncts: &TypedExprs,
    batch: &Batch,
    held: &Held,
) -> Result<usize, AllocError> {
    for at in 0..ROWS {
        let truth = truth(alloc, conjuncts, batch, at)?;
        if !agrees(&kept(held, at), fault_of(&held.faults, at), &truth) {
            return Ok(at);
        }
    }
    Ok(ROWS)
}

fn holding_of(
    alloc: Global,
    scope: &Scope,
    batch: &Batch,
    text: &[u8],
) -> Result<usize, AllocError> {
    let Ok(expr) = read_expr(alloc, text) else {
        return Ok(0);
    };
    let Ok(conjuncts) = type_condition(alloc, scope, &expr) else {
        return Ok(0);
    };
    let selection = selection(alloc)?;
    let held = holds(alloc, &conjuncts, batch, &selection)?;
    holding(alloc, &conjuncts, batch, &held)
}

#[test]
fn conditions_hold_as_on_each_row(rt: HostRuntime) -> Result<(), Fail> {
    let alloc = rt.alloc();
    let given = given_columns(alloc)?;
    let batch = batch(alloc, &given.scope)?;
    for text in CONDITIONS {
        let holding = holding_of(alloc, &given.scope, &batch, text)?;
        assert_eq!(rt; holding, ROWS, "{text:?}");
    }
    Ok(())
}
