// The value that a physical one is in a column of a type.
ghost use Rattle.std.specs.Prelude.{◌≡◌, ◌^◌, ◌≤◌, pos, unsigned_abs, MatchOption, Some, None};
ghost use Rattle.dm_types.specs.declared.value.TheConstants.{MAX_PRECISION};
ghost use Rattle.dm_types.specs.Ranges.{IsWellFormed};
ghost use Rattle.parquet_pages.specs.Numbers as numbers;
ghost use Rattle.parquet_pages.specs.Numbers.{IsSignedNumber, appended};
ghost use Rattle.parquet_pages.specs.Types as spec;
ghost use Rattle.parquet_pages.specs.Views.{seen};

use crate::physical::PlainValue;
use crate::types::micros_of;
use byteorder::{ByteOrder, LittleEndian};
use dm_types::{DAY_MICROS, DataType, Decimal, FIRST_DAY, LAST_DAY, Value, ten_to};
use parquet_meta::Annotation;

/// Microseconds of a day.
const DAY: i128 = DAY_MICROS as i128;

/// The first and the last day of the years 1 to 9999.
const FIRST: i128 = FIRST_DAY as i128;

const LAST: i128 = LAST_DAY as i128;

// A moment of the years 1 to 9999.
fn moment(micros: i128) -> Option<Value>
    ensures { result ≡ spec.moment micros }
{
    let day = micros.div_euclid(DAY);
    if (FIRST..=LAST).contains(&day) {
        Some(Value::Micros(micros as i64))
    } else {
        None
    }
}

// A moment in units of so many microseconds.
fn scaled_moment(unit: Option<u32>, number: i64) -> Option<Value>
    ensures { result ≡ spec.scaled_moment unit number }
{
    let unit = unit?;
    moment(i128::from(number) * i128::from(unit))
}

// A moment as nanoseconds of a day and a Julian day.
fn julian_moment(nanos: u64, day: u32) -> Option<Value>
    ensures { result ≡ spec.julian_moment nanos day }
{
    if nanos >= 86_400_000_000_000 {
        return None;
    }
    let days = i128::from(day) - 2_440_588;
    moment(days * DAY + i128::from(nanos / 1000))
}

// A moment in INT96.
fn int96_moment(bytes: &[u8]) -> Option<Value>
    ensures { result ≡ spec.int96_moment bytes.now }
{
    if bytes.len() != 12 {
        return None;
    }
    julian_moment(
        LittleEndian::read_u64(bytes),
        LittleEndian::read_u32(&bytes[8..]),
    )
}

// A decimal of at most `precision` digits.
fn decimal(precision: u8, scale: u8, unscaled: i128) -> Option<Value>
    requires { precision ≤ MAX_PRECISION }
    ensures { result ≡ spec.decimal precision scale unscaled }
{
    if unscaled.unsigned_abs() < ten_to(precision) {
        Some(Value::Dec(Decimal { unscaled, scale }))
    } else {
        None
    }
}

// The number of a byte in two's complement.
fn first_number(byte: u8) -> i128
    ensures { result ≡ numbers.first_number byte }
{
    if byte < 128 {
        i128::from(byte)
    } else {
        i128::from(byte) - 256
    }
}

// A number with one more byte behind it; None where it has more than 38 digits.
fn with_byte(number: i128, byte: u8) -> Option<i128>
    ensures { MatchOption result
        (10 ^ 38 ≤ unsigned_abs (appended number byte))
        (λ n. n ≡ appended number byte) }
{
    number.checked_mul(256)?.checked_add(i128::from(byte))
}

// The number that bytes are in two's complement, the highest first; None where it has more than 38
// digits.
fn signed_number(bytes: &[u8]) -> Option<i128>
    ensures { IsSignedNumber bytes.now result }
{
    let Some((first, rest)) = bytes.split_first() else {
        return Some(0);
    };
    let mut number = first_number(*first);
    for byte in rest {
        number = with_byte(number, *byte)?;
    }
    Some(number)
}

// A decimal whose number is spelled by bytes.
fn raw_decimal(precision: u8, scale: u8, bytes: &[u8]) -> Option<Value>
    requires { precision ≤ MAX_PRECISION }
    ensures { result ≡ spec.decimal precision scale (spec.signed_number bytes.now) }
{
    let unscaled = signed_number(bytes)?;
    decimal(precision, scale, unscaled)
}

// A whole number of so many bits beside its sign.
fn whole(number: i64, bits: u32) -> Option<Value>
    requires { bits ≤ 31 }
    ensures { result ≡ spec.whole_of bits number }
{
    let limit = 1i64 << bits;
    if -limit <= number && number < limit {
        Some(Value::Int(number))
    } else {
        None
    }
}

// A whole number of 63 bits beside its sign, as each is.
#[tactic(auto, using(crate::proofs::Typed::long_is))]
fn long(number: i64) -> Option<Value>
    ensures { result ≡ spec.whole_of 63 number }
{
    Some(Value::Int(number))
}

// A day of the years 1 to 9999.
fn day(number: i64) -> Option<Value>
    ensures { result ≡ spec.day_of number }
{
    if (i64::from(FIRST_DAY)..=i64::from(LAST_DAY)).contains(&number) {
        Some(Value::Day(number as i32))
    } else {
        None
    }
}

/// The value of a type that is no text and no bytes, or None where there is none in the type's range.
pub(crate) fn plain_value(
    kind: &DataType,
    annotation: &Annotation,
    value: PlainValue<'_>,
) -> Option<Value>
    requires { IsWellFormed kind.now }
    ensures { result ≡ spec.plain_value kind.now annotation.now (seen value.entry) }
{
    match (*kind, value) {
        (DataType::Boolean, PlainValue::Flag(flag)) => Some(Value::Bool(flag)),
        (DataType::Byte, PlainValue::Whole(number)) => whole(number, 7),
        (DataType::Short, PlainValue::Whole(number)) => whole(number, 15),
        (DataType::Integer, PlainValue::Whole(number)) => whole(number, 31),
        (DataType::Long, PlainValue::Whole(number)) => long(number),
        (DataType::Date, PlainValue::Whole(number)) => day(number),
        (DataType::Timestamp, PlainValue::Whole(number)) => {
            scaled_moment(micros_of(annotation), number)
        }
        (DataType::Timestamp, PlainValue::Raw(bytes)) => int96_moment(bytes),
        (DataType::Decimal { precision, scale }, PlainValue::Whole(number)) => {
            decimal(precision, scale, i128::from(number))
        }
        (DataType::Decimal { precision, scale }, PlainValue::Raw(bytes)) => {
            raw_decimal(precision, scale, bytes)
        }
        _ => None,
    }
}
