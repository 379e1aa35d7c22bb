// Columns that may be written, made of tables.
ghost use Rattle.std.specs.Prelude.{◌≡◌, ◌≢◌, ◌≤◌, length, FitsSigned, IfOk, IfSome};
ghost use Rattle.std.specs.Int.{w8, w16, w32, w64};
ghost use Rattle.std.specs.Bool.{OnTrue};
ghost use Rattle.dm_types.specs.Ranges.{IsDay, IsInRange, IsNullOrInRange, IsWellFormed, day_part};
ghost use Rattle.dm_types.specs.declared.value.DataType.TheVariants.{Decimal as ADecimal, Void};
ghost use Rattle.dm_types.specs.declared.value.Value.TheVariants.{Dec};
ghost use Rattle.parquet_pages.specs.Kept.{text_bytes};
ghost use Rattle.parquet_pages.specs.Writing.{IsWritableColumn};
ghost use Rattle.parquet_tests.specs.Growing.{Adds};

use super::wanted::Wanted;
use column_vectors::AnyColumn;
use dm_types::{
    DAY_MICROS, DataType, Decimal, FIRST_DAY, LAST_DAY, MAX_PRECISION, Value, same, ten_to,
};
use std::alloc::{AllocError, Global};

/// The most rows of a column of a table, and the most bytes of text of a value.
const MOST: usize = 1000;

// Whether a type is well formed.
fn is_well_formed(precision: u8, scale: u8) -> bool
    ensures { OnTrue result (IsWellFormed (ADecimal precision scale)) }
{
    if precision < 1 || precision > MAX_PRECISION || scale > precision {
        return false;
    }
    true
}

// Whether a type is well formed, and not that of NULL.
fn is_real(kind: &DataType) -> bool
    ensures formed { OnTrue result (IsWellFormed kind.now) }
    ensures real { OnTrue result (kind.now ≢ Void) }
{
    match *kind {
        DataType::Void => false,
        DataType::Decimal { precision, scale } => is_well_formed(precision, scale),
        _ => true,
    }
}

fn is_byte(number: i64) -> bool
    ensures { OnTrue result (FitsSigned w8 number) }
{
    match i8::try_from(number) {
        Ok(_) => true,
        Err(_) => false,
    }
}

fn is_short(number: i64) -> bool
    ensures { OnTrue result (FitsSigned w16 number) }
{
    match i16::try_from(number) {
        Ok(_) => true,
        Err(_) => false,
    }
}

fn is_integer(number: i64) -> bool
    ensures { OnTrue result (FitsSigned w32 number) }
{
    match i32::try_from(number) {
        Ok(_) => true,
        Err(_) => false,
    }
}

// Each number of 64 bits is one.
fn is_long(_number: i64) -> bool
    ensures { OnTrue result (FitsSigned w64 _number) }
{
    true
}

fn is_day(day: i32) -> bool
    ensures { OnTrue result (IsDay day) }
{
    if day < FIRST_DAY || day > LAST_DAY {
        return false;
    }
    true
}

fn is_moment(micros: i64) -> bool
    ensures { OnTrue result (IsDay (day_part micros)) }
{
    let day = micros.div_euclid(DAY_MICROS);
    if day < i64::from(FIRST_DAY) || day > i64::from(LAST_DAY) {
        return false;
    }
    true
}

fn is_decimal(precision: u8, scale: u8, decimal: Decimal) -> bool
    ensures { OnTrue result (IsInRange (ADecimal precision scale) (Dec decimal)) }
{
    if !is_well_formed(precision, scale) || decimal.scale != scale {
        return false;
    }
    if decimal.unscaled.unsigned_abs() >= ten_to(precision) {
        return false;
    }
    true
}

// Whether a value is of a type and in its range, or null.
fn is_in_range(kind: &DataType, value: &Value) -> bool
    ensures { OnTrue result (IsNullOrInRange kind.now value.now) }
{
    match (*kind, value) {
        (_, Value::Null) => true,
        (DataType::Boolean, Value::Bool(_)) => true,
        (DataType::Byte, Value::Int(number)) => is_byte(*number),
        (DataType::Short, Value::Int(number)) => is_short(*number),
        (DataType::Integer, Value::Int(number)) => is_integer(*number),
        (DataType::Long, Value::Int(number)) => is_long(*number),
        (DataType::Str, Value::Text(_)) => true,
        (DataType::Binary, Value::Bytes(_)) => true,
        (DataType::Date, Value::Day(day)) => is_day(*day),
        (DataType::Timestamp, Value::Micros(micros)) => is_moment(*micros),
        (DataType::Decimal { precision, scale }, Value::Dec(decimal)) => {
            is_decimal(precision, scale, *decimal)
        }
        _ => false,
    }
}

// Whether a value has not too much text.
fn is_short_text(value: &Value) -> bool
    ensures { OnTrue result (text_bytes value.now ≤ MOST) }
{
    let size = match value {
        Value::Text(text) => text.len(),
        Value::Bytes(bytes) => bytes.len(),
        _ => 0,
    };
    if size > MOST {
        return false;
    }
    true
}

// Adds a value that may stand in the column; None where it may not.
fn add(
    alloc: Global,
    column: &mut AnyColumn,
    kind: &DataType,
    wanted: Wanted,
) -> Result<bool, AllocError>
    requires { column.old.kind ≡ kind.now }
    ensures { IfOk result (λ added. OnTrue added (Adds kind.now MOST column.old column.new)) }
{
    let value = wanted.value(alloc, kind)?;
    if !is_in_range(kind, &value) || !is_short_text(&value) {
        return Ok(false);
    }
    column.push(value)?;
    Ok(true)
}

/// The column of values; None where they aren't of the type and in its range, or too many.
pub(crate) fn column_of(
    alloc: Global,
    kind: DataType,
    values: &[Wanted],
) -> Result<Option<AnyColumn>, AllocError>
    ensures writable { IfOk result (λ found. IfSome found IsWritableColumn) }
    ensures kind { IfOk result (λ found. IfSome found (λ column. column.kind ≡ kind)) }
    ensures rows { IfOk result (λ found. IfSome found (λ column. length column.values ≡ length values.now)) }
{
    if !is_real(&kind) || values.len() > MOST {
        return Ok(None);
    }
    let mut column = AnyColumn::new(alloc, kind);
    for wanted in values {
        if !add(alloc, &mut column, &kind, *wanted)? {
            return Ok(None);
        }
    }
    Ok(Some(column))
}

/// Whether two columns have the same values.
pub(crate) fn are_same(a: &AnyColumn, b: &AnyColumn) -> Result<bool, AllocError> {
    for row in 0..a.len() {
        if row >= b.len() || !same(&a.get(row)?, &b.get(row)?) {
            return Ok(false);
        }
    }
    Ok(a.len() == b.len())
}
