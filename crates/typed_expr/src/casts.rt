// Casts, and where they stand.
ghost use Rattle.std.specs.Prelude.{◌≡◌, IfOk};
ghost use Rattle.typed_expr.specs.Tables as spec;
ghost use Rattle.typed_expr.specs.Forms as form;
ghost use Rattle.typed_expr.specs.Rules.{Answers};

use crate::broken::refuse;
use crate::fault::TypeFault;
use crate::kinds::{is_binary, is_dated, is_number, is_same, is_string, is_type, is_void};
use crate::operators::stands_for;
use crate::tree::TypedExpr;
use dm_types::DataType;
use sql_tree::{Span, WrittenKind, WrittenType};
use sqlite_items::Boxed;
use std::alloc::{AllocError, Global};

// The value as one of a type: a cast, where it is of another.
pub(crate) fn as_kind(
    alloc: Global,
    kind: DataType,
    operand: TypedExpr,
) -> Result<TypedExpr, AllocError>
    ensures { IfOk result (λ tree. tree ≡ form.as_kind kind operand) }
{
    if is_same(kind, operand.kind()) {
        return Ok(operand);
    }
    let operand = Boxed::new(alloc, operand)?;
    Ok(TypedExpr::Cast { kind, operand })
}

// NULL as a value of a type; another value as it is.
pub(crate) fn unless_null(
    alloc: Global,
    kind: DataType,
    operand: TypedExpr,
) -> Result<TypedExpr, AllocError>
    ensures { IfOk result (λ tree. tree ≡ form.unless_null kind operand) }
{
    as_kind(alloc, stands_for(kind, operand.kind()), operand)
}

fn castable(from: DataType, to: DataType) -> bool
    ensures { result ≡ spec.castable from to }
{
    is_same(from, to)
        || is_void(from)
        || is_number(from) && is_number(to)
        || (is_string(from) || is_string(to))
        || is_dated(from) && is_dated(to)
}

fn assignable(from: DataType, to: DataType) -> bool
    ensures { result ≡ spec.assignable from to }
{
    is_same(from, to) || castable(from, to) && !is_string(from) && !is_binary(from)
}

// CAST to a type that there is.
fn cast_as(
    alloc: Global,
    place: Span,
    kind: DataType,
    operand: TypedExpr,
) -> Result<TypedExpr, TypeFault>
    ensures { Answers (form.cast_as place kind operand) result }
{
    if castable(operand.kind(), kind) {
        Ok(as_kind(alloc, kind, operand)?)
    } else {
        refuse(11, place.start)
    }
}

// CAST of an operand that has a type.
pub(crate) fn cast(
    alloc: Global,
    place: Span,
    written: WrittenType,
    operand: TypedExpr,
) -> Result<TypedExpr, TypeFault>
    ensures { Answers (form.cast place written operand) result }
{
    match written.kind {
        WrittenKind::BadDecimal { .. } => refuse(11, written.span.start),
        WrittenKind::Type(kind) => {
            if is_type(kind) {
                cast_as(alloc, place, kind, operand)
            } else {
                refuse(11, written.span.start)
            }
        }
    }
}

// A value that is assigned to a column of a type.
pub(crate) fn assignment(
    alloc: Global,
    at: usize,
    kind: DataType,
    operand: TypedExpr,
) -> Result<TypedExpr, TypeFault>
    ensures { Answers (form.assignment at kind operand) result }
{
    if assignable(operand.kind(), kind) {
        Ok(as_kind(alloc, kind, operand)?)
    } else {
        refuse(6, at)
    }
}
