// Types of columns, and the values in them.
use crate::exact::Exact;
use crate::{Bytes, Text};
use std::alloc::AllocError;

/// The greatest precision of a decimal, in digits.
pub const MAX_PRECISION: u8 = 38;

/// The first day of dates and moments, 0001-01-01, counted from 1970-01-01.
pub const FIRST_DAY: i32 = -719_162;

/// The last day of dates and moments, 9999-12-31, counted from 1970-01-01.
pub const LAST_DAY: i32 = 2_932_896;

/// The microseconds of a day.
pub const DAY_MICROS: i64 = 86_400_000_000;

/// The type of a column (Delta's "Primitive Types"), or of an expression that is always null.
#[derive(Clone, Copy, PartialEq, Eq, Debug)]
pub enum DataType {
    /// The type of NULL alone. No table has a column of it.
    Void,
    /// `boolean`: true or false.
    Boolean,
    /// `byte`: a whole number of 8 bits.
    Byte,
    /// `short`: a whole number of 16 bits.
    Short,
    /// `integer`: a whole number of 32 bits.
    Integer,
    /// `long`: a whole number of 64 bits.
    Long,
    /// `decimal(p,s)`: a number of at most `precision` digits, `scale` of them behind the point.
    Decimal {
        /// The greatest number of digits, from 1 to [`MAX_PRECISION`].
        precision: u8,
        /// The digits behind the point, from 0 to the precision.
        scale: u8,
    },
    /// `string`: a text in UTF-8.
    Str,
    /// `binary`: bytes.
    Binary,
    /// `date`: a day.
    Date,
    /// `timestamp`: a moment, in microseconds.
    Timestamp,
}

impl Exact for DataType {
    ghost use Rattle.std.proofs.Common.{rules};

    ghost exact = { Prim.search rules };
}

/// A decimal number: `unscaled` divided by ten to the power of `scale`.
///
/// One number has many of these, as 1.5 and 1.50: `compare` tells numbers apart, and not these.
#[derive(Clone, Copy, Debug)]
pub struct Decimal {
    /// The number without its point.
    pub unscaled: i128,
    /// How many of its digits stand behind the point.
    pub scale: u8,
}

impl Exact for Decimal {
    ghost use Rattle.std.proofs.Common.{rules};

    ghost exact = { Prim.search rules };
}

/// A value of a row.
#[derive(Debug, Drop)]
pub enum Value {
    /// No value.
    Null,
    /// A truth value.
    Bool(bool),
    /// A whole number, of a column of 8, 16, 32 or 64 bits.
    Int(i64),
    /// A decimal number.
    Dec(Decimal),
    /// A text.
    Text(Text),
    /// Bytes.
    Bytes(Bytes),
    /// A day, counted from 1970-01-01.
    Day(i32),
    /// A moment, in microseconds from 1970-01-01 00:00 UTC.
    Micros(i64),
}

impl Clone for Value {
    ghost use Rattle.std.specs.Prelude.{◌≡◌};

    ghost is_clone = { λ x y. y ≡ x };

    fn clone(&self) -> Result<Value, AllocError> {
        match self {
            Value::Null => Ok(Value::Null),
            Value::Bool(truth) => Ok(Value::Bool(*truth)),
            Value::Int(number) => Ok(Value::Int(*number)),
            Value::Dec(decimal) => Ok(Value::Dec(*decimal)),
            Value::Text(text) => Ok(Value::Text(text.clone()?)),
            Value::Bytes(bytes) => Ok(Value::Bytes(bytes.clone()?)),
            Value::Day(day) => Ok(Value::Day(*day)),
            Value::Micros(moment) => Ok(Value::Micros(*moment)),
        }
    }
}

impl Exact for Value {
    ghost exact = { λ x y same. same };
}
