// Operators on two operands: which types they take, and what they give.
ghost use Rattle.std.specs.Prelude.{◌≡◌, IfOk, Ok, Err, ◌&&◌, if◌then◌else◌};
ghost use Rattle.typed_expr.specs.Tables as spec;
ghost use Rattle.typed_expr.specs.Forms as form;
ghost use Rattle.typed_expr.specs.Rules.{Answers};
ghost use Rattle.typed_expr.specs.declared.tree.TypedExpr.TheVariants as e;

use crate::broken::{Typing, breaks};
use crate::casts::unless_null;
use crate::fault::TypeFault;
use crate::kinds::{
    are_comparable, is_boolean, is_decimal, is_integer, is_number, is_string, is_void,
    product_type, sum_type, wider,
};
use crate::tree::{Op, TypedExpr};
use dm_types::DataType;
use sql_tree::{Operator, Span};
use sqlite_items::Boxed;
use std::alloc::{AllocError, Global};

// What an operand that is NULL stands for beside the other.
fn wanted(operator: Operator, other: DataType) -> DataType
    ensures { result ≡ spec.wanted operator other }
{
    match operator {
        Operator::Or | Operator::And => DataType::Boolean,
        Operator::Concat => DataType::Str,
        _ => other,
    }
}

pub(crate) fn stands_for(place: DataType, kind: DataType) -> DataType
    ensures { result ≡ spec.stands_for place kind }
{
    if is_void(kind) { place } else { kind }
}

fn are_integers(a: DataType, b: DataType) -> bool
    ensures { result ≡ spec.are_integers a b }
{
    is_integer(a) && is_integer(b)
}

fn have_decimal(a: DataType, b: DataType) -> bool
    ensures { result ≡ spec.have_decimal a b }
{
    is_number(a) && is_number(b) && (is_decimal(a) || is_decimal(b))
}

fn kept(kind: Option<DataType>) -> Result<DataType, u8>
    ensures { result ≡ spec.kept kind }
{
    kind.ok_or(4)
}

// A type for operands that are taken, else rule 3.
fn taken(takes: bool, kind: DataType) -> Result<DataType, u8>
    ensures { result ≡ (if takes then Ok kind else Err 3) }
{
    if takes { Ok(kind) } else { Err(3) }
}

// Of two integer types the wider, of a decimal and a number this type, else rule 3.
fn number_type(a: DataType, b: DataType, exact: Option<DataType>) -> Result<DataType, u8>
    ensures { result ≡ (if spec.are_integers a b then Ok (spec.wider a b)
        else if spec.have_decimal a b then spec.kept exact else Err 3) }
{
    if are_integers(a, b) {
        Ok(wider(a, b))
    } else if have_decimal(a, b) {
        kept(exact)
    } else {
        Err(3)
    }
}

// The type by the table.
fn by_lines(operator: Operator, a: DataType, b: DataType) -> Result<DataType, u8>
    ensures { result ≡ spec.by_lines (spec.lines_of operator) a b }
{
    match operator {
        Operator::Plus | Operator::Minus => number_type(a, b, sum_type(a, b)),
        Operator::Times => number_type(a, b, product_type(a, b)),
        Operator::Divide => taken(are_integers(a, b), DataType::Long),
        Operator::Remainder => taken(are_integers(a, b), wider(a, b)),
        Operator::Concat => taken(is_string(a) && is_string(b), DataType::Str),
        Operator::Or | Operator::And => { taken(is_boolean(a) && is_boolean(b), DataType::Boolean) }
        Operator::Equal
        | Operator::NotEqual
        | Operator::Less
        | Operator::LessOrEqual
        | Operator::Greater
        | Operator::GreaterOrEqual
        | Operator::SameAs => taken(are_comparable(a, b), DataType::Boolean),
    }
}

fn binary_kind(operator: Operator, a: DataType, b: DataType) -> Result<DataType, u8>
    ensures { result ≡ form.binary_kind operator a b }
{
    by_lines(
        operator,
        stands_for(wanted(operator, b), a),
        stands_for(wanted(operator, a), b),
    )
}

fn with_op(kind: DataType, op: Op, left: Boxed<TypedExpr>, right: Boxed<TypedExpr>) -> TypedExpr
    ensures { result ≡ e.Binary kind op left right }
{
    TypedExpr::Binary {
        kind,
        op,
        left,
        right,
    }
}

fn binary_tree(
    alloc: Global,
    operator: Operator,
    kind: DataType,
    left: TypedExpr,
    right: TypedExpr,
) -> Result<TypedExpr, AllocError>
    ensures { IfOk result (λ tree. tree ≡ form.binary_tree operator kind left right) }
{
    let left = Boxed::new(alloc, left)?;
    let right = Boxed::new(alloc, right)?;
    Ok(boxed_tree(operator, kind, left, right))
}

fn boxed_tree(
    operator: Operator,
    kind: DataType,
    left: Boxed<TypedExpr>,
    right: Boxed<TypedExpr>,
) -> TypedExpr
    ensures { result ≡ form.binary_tree operator kind left right }
{
    match operator {
        Operator::Or => TypedExpr::Or { left, right },
        Operator::And => TypedExpr::And { left, right },
        Operator::Concat => TypedExpr::Concat { left, right },
        Operator::SameAs => TypedExpr::SameAs { left, right },
        Operator::Equal => with_op(kind, Op::Equal, left, right),
        Operator::NotEqual => with_op(kind, Op::Unequal, left, right),
        Operator::Less => with_op(kind, Op::Less, left, right),
        Operator::LessOrEqual => with_op(kind, Op::LessEqual, left, right),
        Operator::Greater => with_op(kind, Op::Greater, left, right),
        Operator::GreaterOrEqual => with_op(kind, Op::GreaterEqual, left, right),
        Operator::Plus => with_op(kind, Op::Add, left, right),
        Operator::Minus => with_op(kind, Op::Subtract, left, right),
        Operator::Times => with_op(kind, Op::Multiply, left, right),
        Operator::Remainder => with_op(kind, Op::Remainder, left, right),
        Operator::Divide => with_op(kind, Op::Quotient, left, right),
    }
}

// A rule that is broken stands at the operator.
fn of_rule(place: Span, kind: Result<DataType, u8>) -> Typing<DataType>
    ensures { result ≡ form.of_rule place.start kind }
{
    match kind {
        Ok(kind) => Ok(kind),
        Err(rule) => breaks(rule, place.start),
    }
}

// The operator on operands that have types.
pub(crate) fn binary(
    alloc: Global,
    operator: Operator,
    place: Span,
    left: TypedExpr,
    right: TypedExpr,
) -> Result<TypedExpr, TypeFault>
    ensures { Answers (form.binary operator place left right) result }
{
    let (a, b) = (left.kind(), right.kind());
    let kind = of_rule(place, binary_kind(operator, a, b))?;
    let left = unless_null(alloc, wanted(operator, b), left)?;
    let right = unless_null(alloc, wanted(operator, a), right)?;
    Ok(binary_tree(alloc, operator, kind, left, right)?)
}
