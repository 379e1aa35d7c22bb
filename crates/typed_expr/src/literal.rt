// Literals and their types.
ghost use Rattle.std.specs.Prelude.{◌≡◌, ◌<◌, ◌^◌, IsSome};
ghost use Rattle.typed_expr.specs.Literals as spec;
ghost use Rattle.typed_expr.specs.Rules.{Answers};
ghost use Rattle.dm_types.specs.Ranges.{IsWellFormed};
ghost use Rattle.dm_types.specs.declared.value.Value.TheVariants as value;
ghost use Rattle.typed_expr.specs.declared.tree.TypedExpr.TheVariants as e;

use crate::broken::{Typing, breaks, refuse};
use crate::fault::TypeFault;
use crate::kinds::decimal;
use crate::tree::TypedExpr;
use dm_text::{TextFault, read_value};
use dm_types::{DataType, Decimal, MAX_PRECISION, Text, Value, ten_to};
use sql_tree::{Literal, Number, Span};
use std::alloc::Global;

// The type of a number of at most 38 digits, which has no more than it says.
fn decimal_kind(number: Number) -> Option<DataType>
    ensures value { result ≡ spec.decimal_kind number }
    ensures small { IsSome result → (number.unscaled < 2 ^ 127) × (number.scale < 2 ^ 8) }
{
    if number.precision > usize::from(MAX_PRECISION) {
        return None;
    }
    let precision = number.precision as u8;
    if number.unscaled >= ten_to(precision) || number.scale > number.precision {
        return None;
    }
    decimal(u16::from(precision), number.scale as u16)
}

// A number of more than 38 digits breaks rule 4.
fn decimal_literal(at: usize, number: Number) -> Typing<TypedExpr>
    ensures { result ≡ spec.decimal_literal at number }
{
    match decimal_kind(number) {
        Some(kind) => {
            let value = Value::Dec(Decimal {
                unscaled: number.unscaled as i128,
                scale: number.scale as u8,
            });
            Ok(TypedExpr::Constant { kind, value })
        }
        None => breaks(4, at),
    }
}

fn whole(kind: DataType, number: i64) -> TypedExpr
    ensures { result ≡ e.Constant kind (value.Int number) }
{
    TypedExpr::Constant {
        kind,
        value: Value::Int(number),
    }
}

// INT, BIGINT or a DECIMAL, by how great the number is.
fn whole_literal(at: usize, number: Number) -> Typing<TypedExpr>
    ensures { result ≡ spec.whole_literal at number }
{
    if number.unscaled < 1 << 31 {
        Ok(whole(DataType::Integer, number.unscaled as i64))
    } else if number.unscaled < 1 << 63 {
        Ok(whole(DataType::Long, number.unscaled as i64))
    } else {
        decimal_literal(at, number)
    }
}

// A day or a moment; a text of none breaks rule 14.
fn dated_literal(
    alloc: Global,
    place: Span,
    kind: DataType,
    text: &Text,
) -> Result<TypedExpr, TypeFault>
    requires { IsWellFormed kind }
    ensures { Answers (spec.dated_literal place kind text.now) result }
{
    match read_value(alloc, text.as_bytes(), &kind) {
        Ok(value) => Ok(TypedExpr::Constant { kind, value }),
        Err(TextFault::BadText) => refuse(14, place.start),
        Err(TextFault::Memory) => Err(TypeFault::Memory),
    }
}

fn constant(kind: DataType, value: Value) -> TypedExpr
    ensures { result ≡ e.Constant kind value }
{
    TypedExpr::Constant { kind, value }
}

// A literal that stands at a place.
pub(crate) fn literal(alloc: Global, span: Span, literal: &Literal) -> Result<TypedExpr, TypeFault>
    ensures { Answers (spec.literal span literal.now) result }
{
    match literal {
        Literal::Null => Ok(constant(DataType::Void, Value::Null)),
        Literal::True => Ok(constant(DataType::Boolean, Value::Bool(true))),
        Literal::False => Ok(constant(DataType::Boolean, Value::Bool(false))),
        Literal::Whole(number) => Ok(whole_literal(span.start, *number)?),
        Literal::Decimal(number) => Ok(decimal_literal(span.start, *number)?),
        Literal::Text(text) => Ok(constant(DataType::Str, Value::Text(text.clone()?))),
        Literal::Bytes(bytes) => Ok(constant(DataType::Binary, Value::Bytes(bytes.clone()?))),
        Literal::Date { place, text } => dated_literal(alloc, *place, DataType::Date, text),
        Literal::Timestamp { place, text } => {
            dated_literal(alloc, *place, DataType::Timestamp, text)
        }
    }
}
