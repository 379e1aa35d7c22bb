// Forms of one and of more operands that have types.
ghost use Rattle.std.specs.Prelude.{◌≡◌, IfOk, map};
ghost use Rattle.std.specs.List.{list_all};
ghost use Rattle.typed_expr.specs.Forms as form;
ghost use Rattle.typed_expr.specs.Rules.{Answers};
ghost use Rattle.typed_expr.specs.declared.tree.TypedExpr.TheVariants as e;
ghost use Rattle.sql_tree.specs.declared.tree.Prefix.TheVariants as p;

use crate::broken::refuse;
use crate::casts::unless_null;
use crate::fault::TypeFault;
use crate::kinds::{is_boolean, is_number, is_void, meets};
use crate::tree::{TypedExpr, TypedExprs};
use dm_types::DataType;
use sql_tree::{Prefix, Span, Truth};
use sqlite_items::Boxed;
use std::alloc::{AllocError, Global};

// BOOLEAN or NULL.
pub(crate) fn is_truth(operand: &TypedExpr) -> bool
    ensures { result ≡ form.is_truth operand.now }
{
    let kind = operand.kind();
    is_boolean(kind) || is_void(kind)
}

fn not(alloc: Global, operand: TypedExpr) -> Result<TypedExpr, AllocError>
    ensures { IfOk result (λ tree. tree ≡ e.Not operand) }
{
    let operand = Boxed::new(alloc, operand)?;
    Ok(TypedExpr::Not { operand })
}

fn negated(alloc: Global, negative: bool, test: TypedExpr) -> Result<TypedExpr, AllocError>
    ensures { IfOk result (λ tree. tree ≡ form.negated negative test) }
{
    if negative { not(alloc, test) } else { Ok(test) }
}

fn denied(alloc: Global, place: Span, operand: TypedExpr) -> Result<TypedExpr, TypeFault>
    ensures { Answers (form.unary p.Not place operand) result }
{
    if !is_truth(&operand) {
        return refuse(3, place.start);
    }
    let operand = unless_null(alloc, DataType::Boolean, operand)?;
    Ok(not(alloc, operand)?)
}

fn minus(alloc: Global, place: Span, operand: TypedExpr) -> Result<TypedExpr, TypeFault>
    ensures { Answers (form.unary p.Minus place operand) result }
{
    let kind = operand.kind();
    if !is_number(kind) {
        return refuse(3, place.start);
    }
    let operand = Boxed::new(alloc, operand)?;
    Ok(TypedExpr::Negate { kind, operand })
}

// A sign or NOT before an operand.
pub(crate) fn unary(
    alloc: Global,
    prefix: Prefix,
    place: Span,
    operand: TypedExpr,
) -> Result<TypedExpr, TypeFault>
    ensures { Answers (form.unary prefix place operand) result }
{
    match prefix {
        Prefix::Not => denied(alloc, place, operand),
        Prefix::Minus => minus(alloc, place, operand),
        Prefix::Plus => {
            if is_number(operand.kind()) {
                Ok(operand)
            } else {
                refuse(3, place.start)
            }
        }
    }
}

fn tested(
    alloc: Global,
    truth: Truth,
    negative: bool,
    operand: TypedExpr,
) -> Result<TypedExpr, AllocError>
    ensures { IfOk result (λ tree. tree ≡ form.negated negative (e.Is truth operand)) }
{
    let operand = Boxed::new(alloc, operand)?;
    negated(alloc, negative, TypedExpr::Is { truth, operand })
}

// `IS [NOT] ..`
pub(crate) fn is_test(
    alloc: Global,
    truth: Truth,
    negative: bool,
    place: Span,
    operand: TypedExpr,
) -> Result<TypedExpr, TypeFault>
    ensures { Answers (form.is_test truth negative place operand) result }
{
    if let Truth::Null = truth {
        return Ok(tested(alloc, truth, negative, operand)?);
    }
    if !is_truth(&operand) {
        return refuse(3, place.start);
    }
    let operand = unless_null(alloc, DataType::Boolean, operand)?;
    Ok(tested(alloc, truth, negative, operand)?)
}

fn compares_with(operand: &TypedExpr, other: &TypedExpr) -> bool
    ensures { result ≡ form.compares_with operand.now other.now }
{
    meets(operand.kind(), other.kind())
}

fn within(
    alloc: Global,
    operand: TypedExpr,
    low: TypedExpr,
    high: TypedExpr,
) -> Result<TypedExpr, AllocError>
    ensures { IfOk result (λ tree. tree ≡ e.Between operand low high) }
{
    let operand = Boxed::new(alloc, operand)?;
    let low = Boxed::new(alloc, low)?;
    let high = Boxed::new(alloc, high)?;
    Ok(TypedExpr::Between { operand, low, high })
}

// `[NOT] BETWEEN`.
pub(crate) fn between(
    alloc: Global,
    negative: bool,
    place: Span,
    operand: TypedExpr,
    low: TypedExpr,
    high: TypedExpr,
) -> Result<TypedExpr, TypeFault>
    ensures { Answers (form.between negative place operand low high) result }
{
    if !compares_with(&operand, &low) || !compares_with(&operand, &high) {
        return refuse(3, place.start);
    }
    let kind = operand.kind();
    let low = unless_null(alloc, kind, low)?;
    let high = unless_null(alloc, kind, high)?;
    let test = within(alloc, operand, low, high)?;
    Ok(negated(alloc, negative, test)?)
}

fn compare_with(operand: &TypedExpr, items: &[TypedExpr]) -> bool
    ensures { result ≡ list_all (form.compares_with operand.now) items.now }
{
    items.iter().all(|item| compares_with(operand, item))
}

// Each NULL of a list as a value of a type.
fn all_unless_null(
    alloc: Global,
    kind: DataType,
    operands: TypedExprs,
) -> Result<TypedExprs, AllocError>
    ensures { IfOk result (λ trees. trees ≡ map (form.unless_null kind) operands) }
{
    let mut rest = operands;
    let mut trees = Vec::new(alloc);
    while let Some(last) = rest.pop() {
        trees.push(unless_null(alloc, kind, last)?)?;
    }
    trees.reverse();
    Ok(TypedExprs::from_vec(trees))
}

// `[NOT] IN`.
pub(crate) fn in_list(
    alloc: Global,
    negative: bool,
    place: Span,
    operand: TypedExpr,
    items: TypedExprs,
) -> Result<TypedExpr, TypeFault>
    ensures { Answers (form.in_list negative place operand items) result }
{
    if !compare_with(&operand, items.as_slice()) {
        return refuse(3, place.start);
    }
    let items = all_unless_null(alloc, operand.kind(), items)?;
    let operand = Boxed::new(alloc, operand)?;
    Ok(negated(alloc, negative, TypedExpr::In { operand, items })?)
}
