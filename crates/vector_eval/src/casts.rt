// Casts.
ghost use Rattle.std.specs.Prelude.{◌≡◌, ◌≤◌, ◌≢◌, true};
ghost use Rattle.dm_types.specs.Ranges as ranges;
ghost use Rattle.dm_types.specs.declared.value.Value.TheVariants.{Null};
ghost use Rattle.dm_text.specs.Printing.{printed};
ghost use Rattle.dm_text.specs.Reading.{text_value};
ghost use Rattle.typed_expr.specs.Tables as tables;
ghost use Rattle.vector_eval.specs.Casts as spec;
ghost use Rattle.vector_eval.specs.Numbers as numbers;
ghost use Rattle.vector_eval.specs.Outcomes.{Answers};
ghost use Rattle.vector_eval.specs.Steps as steps;

use crate::fault::{ErrorKind, EvalFault};
use crate::numbers::{at_scale, decimal, fixed, in_type};
use dm_text::{TextFault, print_value, read_value};
use dm_types::{
    Bytes, DAY_MICROS, DataType, Decimal, FIRST_DAY, LAST_DAY, MAX_PRECISION, Text, Value, ten_to,
};
use std::alloc::Global;
use typed_expr::is_type;

// ---- what never comes

/// Whether the calendar has a day.
pub fn is_day(day: i64) -> bool
    ensures { result ≡ ranges.is_day day }
{
    i64::from(FIRST_DAY) <= day && day <= i64::from(LAST_DAY)
}

/// The day of a moment.
pub fn day_part(moment: i64) -> i64
    ensures { result ≡ ranges.day_part moment }
{
    moment.div_euclid(DAY_MICROS)
}

// Whether a value is in the range of some type.
fn is_ranged(value: &Value) -> bool
    ensures { result ≡ spec.is_ranged value.now }
{
    match value {
        Value::Dec(number) => {
            number.unscaled.unsigned_abs() < ten_to(MAX_PRECISION) && number.scale <= MAX_PRECISION
        }
        Value::Day(day) => is_day(i64::from(*day)),
        Value::Micros(moment) => is_day(day_part(*moment)),
        _ => true,
    }
}

// A type that a value is in the range of.
fn widest(value: &Value) -> DataType
    requires ranged { spec.is_ranged value.now ≡ true }
    requires known { value.now ≢ Null }
    ensures { ranges.IsInRange result value.now }
{
    match value {
        Value::Null => unreachable!(),
        Value::Bool(_) => DataType::Boolean,
        Value::Int(number) => {
            let _number = *number;
            DataType::Long
        }
        Value::Dec(number) => DataType::Decimal {
            precision: MAX_PRECISION,
            scale: number.scale,
        },
        Value::Text(_) => DataType::Str,
        Value::Bytes(_) => DataType::Binary,
        Value::Day(day) => {
            let _day = *day;
            DataType::Date
        }
        Value::Micros(moment) => {
            let _moment = *moment;
            DataType::Timestamp
        }
    }
}

// ---- numbers

// A number cut towards zero.
fn truncated(number: &Decimal) -> i128
    requires { number.now.scale ≤ MAX_PRECISION }
    ensures { result ≡ steps.truncated number.now }
{
    number.unscaled / (ten_to(number.scale) as i128)
}

// A number as a decimal, half rounded away from zero.
fn decimal_as(number: &Decimal, precision: u8, scale: u8) -> Result<Value, ErrorKind>
    ensures { result ≡ numbers.fixed precision scale (numbers.at_scale scale number.now) }
{
    match at_scale(number, scale) {
        Some(unscaled) => fixed(unscaled, precision, scale),
        None => Err(ErrorKind::Overflow),
    }
}

fn number_as(kind: &DataType, number: &Decimal) -> Result<Value, ErrorKind>
    requires { number.now.scale ≤ MAX_PRECISION }
    ensures { result ≡ spec.number_as kind.now number.now }
{
    match kind {
        DataType::Decimal { precision, scale } => decimal_as(number, *precision, *scale),
        _ => in_type(truncated(number), kind),
    }
}

// ---- texts

// What a text reads as.
fn read(alloc: Global, kind: &DataType, text: &[u8]) -> Result<Value, EvalFault>
    requires { tables.is_type kind.now ≡ true }
    ensures { Answers (spec.read (text_value kind.now text.now)) result }
{
    match read_value(alloc, text, kind) {
        Ok(value) => Ok(value),
        Err(TextFault::BadText) => Err(EvalFault::Kind(ErrorKind::BadCast)),
        Err(TextFault::Memory) => Err(EvalFault::Memory),
    }
}

fn text_as(alloc: Global, kind: &DataType, text: &Text) -> Result<Value, EvalFault>
    ensures { Answers (spec.text_as kind.now text.now) result }
{
    if let DataType::Binary = kind {
        return Ok(Value::Bytes(Bytes::from_slice(alloc, text.as_bytes())?));
    }
    if is_type(*kind) {
        read(alloc, kind, text.as_bytes())
    } else {
        Ok(Value::Null)
    }
}

// The text that bytes spell.
fn spelled(bytes: Bytes) -> Result<Value, ErrorKind>
    ensures { result ≡ spec.spelled bytes }
{
    match Text::from_utf8(bytes) {
        Some(text) => Ok(Value::Text(text)),
        None => Err(ErrorKind::BadCast),
    }
}

// A value as it is printed.
fn print(alloc: Global, value: &Value) -> Result<Value, EvalFault>
    requires ranged { spec.is_ranged value.now ≡ true }
    requires known { value.now ≢ Null }
    ensures { Answers (spec.spelled (printed value.now)) result }
{
    let mut bytes = Bytes::new(alloc);
    print_value(value, &widest(value), &mut bytes)?;
    Ok(spelled(bytes)?)
}

fn as_text(alloc: Global, value: &Value) -> Result<Value, EvalFault>
    requires { spec.is_ranged value.now ≡ true }
    ensures { Answers (spec.as_text value.now) result }
{
    match value {
        Value::Null => Ok(Value::Null),
        Value::Text(text) => Ok(Value::Text(text.clone()?)),
        Value::Bytes(bytes) => Ok(spelled(bytes.clone()?)?),
        _ => print(alloc, value),
    }
}

// ---- all casts

// The midnight of a day.
fn midnight(day: i32) -> i64
    requires { ranges.is_day day ≡ true }
    ensures { result ≡ steps.midnight day }
{
    i64::from(day) * DAY_MICROS
}

fn converted(alloc: Global, kind: &DataType, value: &Value) -> Result<Value, EvalFault>
    requires { spec.is_ranged value.now ≡ true }
    ensures { Answers (spec.converted kind.now value.now) result }
{
    match (kind, value) {
        (DataType::Str, _) => as_text(alloc, value),
        (_, Value::Text(text)) => text_as(alloc, kind, text),
        (_, Value::Int(number)) => Ok(number_as(kind, &decimal(i128::from(*number), 0))?),
        (_, Value::Dec(number)) => Ok(number_as(kind, number)?),
        (DataType::Timestamp, Value::Day(day)) => Ok(Value::Micros(midnight(*day))),
        (DataType::Date, Value::Micros(moment)) => Ok(Value::Day(day_part(*moment) as i32)),
        _ => Ok(Value::Null),
    }
}

/// A value as one of a type. Null stays null.
pub fn cast(alloc: Global, kind: &DataType, value: &Value) -> Result<Value, EvalFault>
    ensures { Answers (spec.cast kind.now value.now) result }
{
    if is_ranged(value) {
        converted(alloc, kind, value)
    } else {
        Ok(Value::Null)
    }
}
