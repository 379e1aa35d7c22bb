// Values of whole expressions.
ghost use Rattle.std.specs.Prelude.{◌≡◌, List, map, option_map, false, IfOk};
ghost use Rattle.dm_types.specs.Ranges.{IsNullOrInRange};
ghost use Rattle.dm_types.specs.declared.value.DataType.{DataType as AType};
ghost use Rattle.typed_expr.specs.Fits.{Fits};
ghost use Rattle.typed_expr.specs.Kinds.{kind_of};
ghost use Rattle.vector_eval.specs.Rows.{IsRow};
ghost use Rattle.dm_types.specs.declared.value.Value.TheVariants.{Bool as ABool};
ghost use Rattle.vector_eval.specs.Outcomes.{Answers};
ghost use Rattle.vector_eval.specs.Steps as steps;
ghost use Rattle.vector_eval.specs.Steps.{Lends, branch_of, line};
ghost use Rattle.vector_eval.specs.Values as spec;

use crate::casts::cast;
use crate::fault::EvalFault;
use crate::found::{Found, Line, column};
use crate::functions::{date_part, joined, text_length};
use crate::numbers::negated;
use crate::operators::binary;
use crate::truths::{
    at_least, at_most, both, denied, either, equal, is, is_false, is_null, is_same, is_true,
};
use dm_text::what_reads_is_in_range;
use dm_types::{DataType, Row, Value};
use sql_tree::Truth;
use sqlite_items::Boxed;
use std::alloc::Global;
use typed_expr::{DatePart, Op, TypedExpr};

fn constant(value: &Value) -> Result<Value, EvalFault>
    ensures { Answers (Ok value.now) result }
{
    Ok(value.clone()?)
}

fn column_value(place: usize, row: Line<'_>) -> Result<Value, EvalFault>
    ensures { Answers (Ok (spec.column place (line row.entry))) result }
{
    Ok(column(place, row)?.into_value()?)
}

#[cycle(evaluate)]
fn negate_form<'a>(
    alloc: Global,
    kind: &DataType,
    operand: &'a TypedExpr,
    row: Line<'a>,
) -> Result<Value, EvalFault>
    ensures { Answers (steps.negate_of kind.now operand.now (line row.entry)) result }
{
    let operand = evaluate(alloc, operand, row)?;
    Ok(negated(kind, &operand)?)
}

#[cycle(evaluate)]
fn not_form<'a>(alloc: Global, operand: &'a TypedExpr, row: Line<'a>) -> Result<Value, EvalFault>
    ensures { Answers (steps.not_of operand.now (line row.entry)) result }
{
    let operand = evaluate(alloc, operand, row)?;
    Ok(denied(&operand))
}

#[cycle(evaluate)]
fn binary_form<'a>(
    alloc: Global,
    kind: &DataType,
    op: Op,
    left: &'a TypedExpr,
    right: &'a TypedExpr,
    row: Line<'a>,
) -> Result<Value, EvalFault>
    ensures { Answers (steps.binary_of kind.now op left.now right.now (line row.entry)) result }
{
    let left = lent(alloc, left, row)?;
    let right = lent(alloc, right, row)?;
    Ok(binary(op, kind, left.value(), right.value())?)
}

#[cycle(evaluate)]
fn same_form<'a>(
    alloc: Global,
    left: &'a TypedExpr,
    right: &'a TypedExpr,
    row: Line<'a>,
) -> Result<Value, EvalFault>
    ensures { Answers (steps.same_of left.now right.now (line row.entry)) result }
{
    let left = lent(alloc, left, row)?;
    let right = lent(alloc, right, row)?;
    Ok(Value::Bool(is_same(left.value(), right.value())))
}

#[cycle(evaluate)]
fn and_form<'a>(
    alloc: Global,
    left: &'a TypedExpr,
    right: &'a TypedExpr,
    row: Line<'a>,
) -> Result<Value, EvalFault>
    ensures { Answers (steps.and_of left.now right.now (line row.entry)) result }
{
    let left = evaluate(alloc, left, row)?;
    if is_false(&left) {
        return Ok(left);
    }
    let right = lent(alloc, right, row)?;
    Ok(both(&left, right.value()))
}

#[cycle(evaluate)]
fn or_form<'a>(
    alloc: Global,
    left: &'a TypedExpr,
    right: &'a TypedExpr,
    row: Line<'a>,
) -> Result<Value, EvalFault>
    ensures { Answers (steps.or_of left.now right.now (line row.entry)) result }
{
    let left = evaluate(alloc, left, row)?;
    if is_true(&left) {
        return Ok(left);
    }
    let right = lent(alloc, right, row)?;
    Ok(either(&left, right.value()))
}

#[cycle(evaluate)]
fn concat_form<'a>(
    alloc: Global,
    left: &'a TypedExpr,
    right: &'a TypedExpr,
    row: Line<'a>,
) -> Result<Value, EvalFault>
    ensures { Answers (steps.concat_of left.now right.now (line row.entry)) result }
{
    let left = lent(alloc, left, row)?;
    let right = lent(alloc, right, row)?;
    Ok(joined(left.value(), right.value())?)
}

#[cycle(evaluate)]
fn is_form<'a>(
    alloc: Global,
    truth: Truth,
    operand: &'a TypedExpr,
    row: Line<'a>,
) -> Result<Value, EvalFault>
    ensures { Answers (steps.is_of truth operand.now (line row.entry)) result }
{
    let operand = lent(alloc, operand, row)?;
    Ok(Value::Bool(is(truth, operand.value())))
}

// Whether a value is at most the value of an expression, behind a comparison that isn't false.
#[cycle(evaluate)]
fn upper_form<'a>(
    alloc: Global,
    first: Value,
    value: &Value,
    high: &'a TypedExpr,
    row: Line<'a>,
) -> Result<Value, EvalFault>
    ensures { Answers (steps.upper_of first value.now high.now (line row.entry)) result }
{
    if is_false(&first) {
        return Ok(first);
    }
    let high = lent(alloc, high, row)?;
    Ok(both(&first, &at_most(value, high.value())))
}

#[cycle(evaluate)]
fn between_form<'a>(
    alloc: Global,
    operand: &'a TypedExpr,
    low: &'a TypedExpr,
    high: &'a TypedExpr,
    row: Line<'a>,
) -> Result<Value, EvalFault>
    ensures { Answers (spec.between (spec.value_of operand.now) (spec.value_of low.now) (spec.value_of high.now)
        (line row.entry)) result }
{
    let operand = lent(alloc, operand, row)?;
    let low = lent(alloc, low, row)?;
    let first = at_least(operand.value(), low.value());
    upper_form(alloc, first, operand.value(), high, row)
}

// Whether an item equals a value. The items behind the first that does aren't evaluated.
#[cycle(evaluate)]
fn among<'a>(
    alloc: Global,
    value: &Value,
    items: &'a [TypedExpr],
    row: Line<'a>,
) -> Result<Value, EvalFault>
    ensures { Answers (spec.among value.now (ABool false) (map spec.value_of items.now) (line row.entry)) result }
{
    let mut found = Value::Bool(false);
    for item in items {
        if is_true(&found) {
            return Ok(found);
        }
        let item = lent(alloc, item, row)?;
        found = either(&found, &equal(value, item.value()));
    }
    Ok(found)
}

#[cycle(evaluate)]
fn in_form<'a>(
    alloc: Global,
    operand: &'a TypedExpr,
    items: &'a [TypedExpr],
    row: Line<'a>,
) -> Result<Value, EvalFault>
    ensures { Answers (spec.in_list (spec.value_of operand.now) (map spec.value_of items.now) (line row.entry)) result }
{
    let operand = lent(alloc, operand, row)?;
    if is_null(operand.value()) {
        return Ok(Value::Null);
    }
    among(alloc, operand.value(), items, row)
}

// The value of ELSE, or null.
#[cycle(evaluate)]
fn last<'a>(
    alloc: Global,
    otherwise: &'a Option<Boxed<TypedExpr>>,
    row: Line<'a>,
) -> Result<Value, EvalFault>
    ensures { Answers (spec.last (option_map spec.value_of otherwise.now) (line row.entry)) result }
{
    match otherwise {
        Some(otherwise) => evaluate(alloc, otherwise.get(), row),
        None => Ok(Value::Null),
    }
}

#[cycle(evaluate)]
fn case_form<'a>(
    alloc: Global,
    branches: &'a [(TypedExpr, TypedExpr)],
    otherwise: &'a Option<Boxed<TypedExpr>>,
    row: Line<'a>,
) -> Result<Value, EvalFault>
    ensures { Answers (spec.chosen (map branch_of branches.now) (option_map spec.value_of otherwise.now)
        (line row.entry)) result }
{
    for branch in branches {
        let condition = lent(alloc, &branch.0, row)?;
        if is_true(condition.value()) {
            return evaluate(alloc, &branch.1, row);
        }
    }
    last(alloc, otherwise, row)
}

#[cycle(evaluate)]
fn coalesce_form<'a>(
    alloc: Global,
    arguments: &'a [TypedExpr],
    row: Line<'a>,
) -> Result<Value, EvalFault>
    ensures { Answers (spec.first_known (map spec.value_of arguments.now) (line row.entry)) result }
{
    for argument in arguments {
        let value = evaluate(alloc, argument, row)?;
        if !is_null(&value) {
            return Ok(value);
        }
    }
    Ok(Value::Null)
}

#[cycle(evaluate)]
fn cast_form<'a>(
    alloc: Global,
    kind: &DataType,
    operand: &'a TypedExpr,
    row: Line<'a>,
) -> Result<Value, EvalFault>
    ensures { Answers (steps.cast_of kind.now operand.now (line row.entry)) result }
{
    let operand = lent(alloc, operand, row)?;
    cast(alloc, kind, operand.value())
}

#[cycle(evaluate)]
fn part_form<'a>(
    alloc: Global,
    part: DatePart,
    operand: &'a TypedExpr,
    row: Line<'a>,
) -> Result<Value, EvalFault>
    ensures { Answers (steps.part_of part operand.now (line row.entry)) result }
{
    let operand = lent(alloc, operand, row)?;
    Ok(date_part(part, operand.value())?)
}

#[cycle(evaluate)]
fn length_form<'a>(alloc: Global, operand: &'a TypedExpr, row: Line<'a>) -> Result<Value, EvalFault>
    ensures { Answers (steps.length_of operand.now (line row.entry)) result }
{
    let operand = lent(alloc, operand, row)?;
    Ok(text_length(operand.value())?)
}

// The value of an expression, lent where it stands in the row or the expression.
#[cycle(evaluate)]
fn lent<'a>(alloc: Global, expr: &'a TypedExpr, row: Line<'a>) -> Result<Found<'a>, EvalFault>
    ensures { Lends (spec.value_of expr.entry.now (line row.entry)) result }
{
    match expr {
        TypedExpr::Constant { value, .. } => Ok(Found::Lent(value)),
        TypedExpr::Column { place, .. } => Ok(column(*place, row)?),
        _ => Ok(Found::Made(evaluate(alloc, expr, row)?)),
    }
}

// The value of an expression on a row.
#[cycle(evaluate)]
pub(crate) fn evaluate<'a>(
    alloc: Global,
    expr: &'a TypedExpr,
    row: Line<'a>,
) -> Result<Value, EvalFault>
    ensures { Answers (spec.value_of expr.now (line row.entry)) result }
{
    match expr {
        TypedExpr::Constant { value, .. } => constant(value),
        TypedExpr::Column { place, .. } => column_value(*place, row),
        TypedExpr::Negate { kind, operand } => negate_form(alloc, kind, operand.get(), row),
        TypedExpr::Not { operand } => not_form(alloc, operand.get(), row),
        TypedExpr::Binary {
            kind,
            op,
            left,
            right,
        } => binary_form(alloc, kind, *op, left.get(), right.get(), row),
        TypedExpr::SameAs { left, right } => same_form(alloc, left.get(), right.get(), row),
        TypedExpr::And { left, right } => and_form(alloc, left.get(), right.get(), row),
        TypedExpr::Or { left, right } => or_form(alloc, left.get(), right.get(), row),
        TypedExpr::Concat { left, right } => concat_form(alloc, left.get(), right.get(), row),
        TypedExpr::Is { truth, operand } => is_form(alloc, *truth, operand.get(), row),
        TypedExpr::Between { operand, low, high } => {
            between_form(alloc, operand.get(), low.get(), high.get(), row)
        }
        TypedExpr::In { operand, items } => { in_form(alloc, operand.get(), items.as_slice(), row) }
        TypedExpr::Case {
            branches,
            otherwise,
            ..
        } => case_form(alloc, branches.as_slice(), otherwise, row),
        TypedExpr::Coalesce { arguments, .. } => coalesce_form(alloc, arguments.as_slice(), row),
        TypedExpr::Cast { kind, operand } => cast_form(alloc, kind, operand.get(), row),
        TypedExpr::Part { part, operand } => part_form(alloc, *part, operand.get(), row),
        TypedExpr::Length { operand } => length_form(alloc, operand.get(), row),
    }
}

/// The value of an expression on one row: the values of the columns that the expression was typed
/// over, in order.
///
/// An error is the first from left to right of what is evaluated: AND stops behind false, OR behind
/// true, CASE, IF, COALESCE and IN as soon as the value is decided, BETWEEN where the first comparison
/// is false. It takes one step a node.
pub fn eval_row<'a>(alloc: Global, expr: &'a TypedExpr, row: &'a Row) -> Result<Value, EvalFault>
    ensures value { Answers (spec.value_of expr.now row.now) result }
    // Where the expression fits the columns, and each value of the row its column.
    ensures range { (kinds : List AType) → Fits kinds expr.now → IsRow kinds row.now
        → IfOk result (IsNullOrInRange (kind_of expr.now)) }
{
    what_reads_is_in_range();
    evaluate(alloc, expr, Line::Values(row.as_slice()))
}
