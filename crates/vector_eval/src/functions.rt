// Functions of values, and texts one behind the other.
ghost use Rattle.std.specs.Prelude.{◌≡◌, IfOk, length, pos};
ghost use Rattle.std.specs.Str.{chars};
ghost use Rattle.vector_eval.specs.Casts as spec;

use crate::casts::{day_part, is_day};
use crate::fault::ErrorKind;
use crate::numbers::in_type;
use dm_text::date_of;
use dm_types::{DataType, Text, Value};
use std::alloc::AllocError;
use typed_expr::DatePart;

// A part of a day of the calendar.
fn day_number(part: DatePart, day: i64) -> Result<Value, ErrorKind>
    ensures { result ≡ spec.day_number part day }
{
    if !is_day(day) {
        return Ok(Value::Null);
    }
    let date = date_of(day);
    let number = match part {
        DatePart::Year => date.year.unsigned_abs(),
        DatePart::Month => u16::from(date.month),
        DatePart::Day => u16::from(date.day),
    };
    in_type(i128::from(number), &DataType::Integer)
}

/// YEAR, MONTH, DAY.
pub fn date_part(part: DatePart, value: &Value) -> Result<Value, ErrorKind>
    ensures { result ≡ spec.date_part part value.now }
{
    match value {
        Value::Day(day) => day_number(part, i64::from(*day)),
        Value::Micros(moment) => day_number(part, day_part(*moment)),
        _ => Ok(Value::Null),
    }
}

fn count(text: &str) -> usize
    ensures { result ≡ length (chars text.now) }
{
    text.chars().count()
}

/// LENGTH: the number of characters.
pub fn text_length(value: &Value) -> Result<Value, ErrorKind>
    ensures { result ≡ spec.text_length value.now }
{
    match value {
        Value::Text(text) => in_type(count(text.as_str()) as i128, &DataType::Integer),
        _ => Ok(Value::Null),
    }
}

fn joined_text(a: &Text, b: &Text) -> Result<Value, AllocError>
    ensures { IfOk result (λ v. v ≡ spec.joined_text a.now b.now) }
{
    let mut text = a.clone()?;
    text.push_str(b.as_str())?;
    Ok(Value::Text(text))
}

/// One text behind the other.
pub fn joined(a: &Value, b: &Value) -> Result<Value, AllocError>
    ensures { IfOk result (λ v. v ≡ spec.joined a.now b.now) }
{
    match (a, b) {
        (Value::Text(a), Value::Text(b)) => joined_text(a, b),
        _ => Ok(Value::Null),
    }
}
