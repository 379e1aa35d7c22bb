// Values of columns, as tables of tests have them.
use column_vectors::AnyColumn;
use dm_types::{Bytes, DataType, Decimal, Text, Value};
use std::alloc::{AllocError, Global};

/// A value that is wanted of a column.
#[derive(Clone, Copy)]
pub(crate) enum Wanted {
    Null,
    Flag(bool),
    Whole(i64),
    Unscaled(i128),
    Text(&'static str),
    Raw(&'static [u8]),
    Day(i32),
    Micros(i64),
}

impl Wanted {
    /// Whether a value is this one; of a decimal its number is compared.
    pub(crate) fn is(self, value: &Value) -> bool {
        match (self, value) {
            (Wanted::Null, Value::Null) => true,
            (Wanted::Flag(wanted), Value::Bool(flag)) => *flag == wanted,
            (Wanted::Whole(wanted), Value::Int(number)) => *number == wanted,
            (Wanted::Unscaled(wanted), Value::Dec(number)) => number.unscaled == wanted,
            (Wanted::Text(wanted), Value::Text(text)) => text.is(wanted),
            (Wanted::Raw(wanted), Value::Bytes(bytes)) => bytes.as_slice() == wanted,
            (Wanted::Day(wanted), Value::Day(day)) => *day == wanted,
            (Wanted::Micros(wanted), Value::Micros(micros)) => *micros == wanted,
            _ => false,
        }
    }

    /// The value, in a column of a type.
    pub(crate) fn value(self, alloc: Global, kind: &DataType) -> Result<Value, AllocError> {
        let scale = match kind {
            DataType::Decimal { scale, .. } => *scale,
            _ => 0,
        };
        Ok(match self {
            Wanted::Null => Value::Null,
            Wanted::Flag(flag) => Value::Bool(flag),
            Wanted::Whole(number) => Value::Int(number),
            Wanted::Unscaled(unscaled) => Value::Dec(Decimal { unscaled, scale }),
            Wanted::Text(text) => Value::Text(Text::from_str(alloc, text)?),
            Wanted::Raw(bytes) => Value::Bytes(Bytes::from_slice(alloc, bytes)?),
            Wanted::Day(day) => Value::Day(day),
            Wanted::Micros(micros) => Value::Micros(micros),
        })
    }
}

// Whether a column has just these values.
pub(crate) fn holds(column: &AnyColumn, wanted: &[Wanted]) -> Result<bool, AllocError> {
    if column.len() != wanted.len() {
        return Ok(false);
    }
    for (row, wanted) in wanted.iter().enumerate() {
        if !wanted.is(&column.get(row)?) || column.is_null(row) != matches!(wanted, Wanted::Null) {
            return Ok(false);
        }
    }
    Ok(true)
}
