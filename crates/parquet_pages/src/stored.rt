// The values of a column as they stand in a page.
ghost use Rattle.std.specs.Prelude.{◌≡◌, ◌≢◌, ◌++◌, ◌∷◌, ◌<◌, ◌≤◌, ◌^◌, [], length, unsigned_abs, option_map, All, IfOk, IfSome, OnOk};
ghost use Rattle.dm_types.specs.declared.value.TheConstants.{MAX_PRECISION};
ghost use Rattle.dm_types.specs.Ranges.{IsNullOrInRange, IsText};
ghost use Rattle.parquet_meta.specs.declared.numbers.TheConstants as number;
ghost use Rattle.parquet_pages.specs.Stored.{decimal_stored, decimal_type, type_of};
ghost use Rattle.parquet_pages.specs.Storing.{IsOfType, IsStored, IsStoredAt, level, listed, physical_of, told, type_in, values_in};

use crate::leaf::{decimal_size, type_of};
use byteorder::{BigEndian, ByteOrder};
use column_vectors::{AnyColumn, Column, LaneColumn};
use dm_types::{Bytes, DataType, Flags, Items, LaneBytes, LaneText, NumberList, Value, WholeList};
use parquet_meta::numbers::{BOOLEAN, BYTE_ARRAY, INT32, INT64};
use std::alloc::{AllocError, Global};

/// A value as it stands in a page.
#[derive(Drop)]
pub(crate) enum StoredValue<'a> {
    Flag(bool),
    Whole(i64),
    /// A decimal of too many digits for a number.
    Fixed(Bytes),
    /// A text or a binary value, which stays where the column keeps it.
    Lent(&'a [u8]),
}

/// The values of a page, by their physical type.
#[derive(Drop)]
pub(crate) enum StoredValues<'a> {
    Flags(Flags),
    Whole32(Items<i32>),
    Whole64(WholeList),
    Fixed(Items<Bytes>),
    Lent(Items<&'a [u8]>),
}

/// The values of a column that are no nulls, and for each row whether it has one.
#[derive(Drop)]
pub(crate) struct StoredColumn<'a> {
    /// 0 for a null and 1 for a value.
    pub(crate) levels: NumberList,
    pub(crate) values: StoredValues<'a>,
}

/// A decimal: a number where the physical type is one, else in big endian, two's complement.
fn stored_decimal<'a>(
    alloc: Global,
    precision: u8,
    unscaled: i128,
) -> Result<StoredValue<'a>, AllocError>
    requires few { precision ≤ MAX_PRECISION }
    requires within { unsigned_abs unscaled < 10 ^ precision }
    ensures is { IfOk result (λ found. physical_of found ≡ decimal_stored precision unscaled) }
    ensures goes { IfOk result (λ found. IsOfType (decimal_type precision) found) }
{
    if precision <= 18 {
        return Ok(StoredValue::Whole(unscaled as i64));
    }
    let size = decimal_size(precision);
    let mut bytes = [0u8; 16];
    BigEndian::write_int128(&mut bytes, unscaled, size);
    Ok(StoredValue::Fixed(Bytes::from_slice(alloc, &bytes[..size])?))
}

/// How a value of the type stands in a page, which isn't one of texts or binary values; None for a
/// null.
fn stored_number<'a>(
    alloc: Global,
    kind: &DataType,
    value: Value,
) -> Result<Option<StoredValue<'a>>, AllocError>
    requires range { IsNullOrInRange kind.now value }
    requires number { type_of kind.now ≢ number.BYTE_ARRAY }
    ensures told { IfOk result (λ found. option_map physical_of found ≡ told kind.now value) }
    ensures goes { IfOk result (λ found. IfSome found (IsOfType (type_of kind.now))) }
    ensures text { IfOk result (λ found. IsText value) }
{
    let stored = match value {
        Value::Null => return Ok(None),
        Value::Bool(flag) => StoredValue::Flag(flag),
        Value::Int(number) => StoredValue::Whole(number),
        Value::Micros(moment) => StoredValue::Whole(moment),
        Value::Day(day) => StoredValue::Whole(i64::from(day)),
        Value::Dec(decimal) => match *kind {
            DataType::Decimal { precision, .. } => {
                stored_decimal(alloc, precision, decimal.unscaled)?
            }
            _ => unreachable!(),
        },
        Value::Text(_) | Value::Bytes(_) => unreachable!(),
    };
    Ok(Some(stored))
}

/// The text of a row, and None for a null.
fn lent_text<'a>(texts: &'a Column<LaneText>, row: usize) -> Option<StoredValue<'a>>
    requires { row < length texts.now.values }
    ensures { IsStoredAt texts.now row result }
{
    match texts.get(row) {
        Some(text) => Some(StoredValue::Lent(text.as_bytes())),
        None => None,
    }
}

/// The binary value of a row, and None for a null.
fn lent_bytes<'a>(arrays: &'a Column<LaneBytes>, row: usize) -> Option<StoredValue<'a>>
    requires { row < length arrays.now.values }
    ensures { IsStoredAt arrays.now row result }
{
    match arrays.get(row) {
        Some(bytes) => Some(StoredValue::Lent(bytes.as_slice())),
        None => None,
    }
}

/// How the value of a row stands in a page; None for a null.
fn stored_at<'a>(
    alloc: Global,
    column: &'a AnyColumn,
    row: usize,
) -> Result<Option<StoredValue<'a>>, AllocError>
    requires row { row < length column.now.values }
    requires range { All (IsNullOrInRange column.now.kind) column.now.values }
    ensures { IfOk result (IsStoredAt column.now row) }
{
    match column.lane() {
        LaneColumn::Text(texts) => Ok(lent_text(texts, row)),
        LaneColumn::Bytes(arrays) => Ok(lent_bytes(arrays, row)),
        _ => stored_number(alloc, column.kind(), column.get(row)?),
    }
}

/// An empty list for the values of a column of the type.
fn empty_list<'a>(alloc: Global, kind: &DataType) -> StoredValues<'a>
    ensures values { values_in result ≡ [] }
    ensures kept { type_in result ≡ type_of kind.now }
{
    match type_of(kind) {
        BOOLEAN => StoredValues::Flags(Items::new(alloc)),
        INT32 => StoredValues::Whole32(Items::new(alloc)),
        INT64 => StoredValues::Whole64(Items::new(alloc)),
        BYTE_ARRAY => StoredValues::Lent(Items::new(alloc)),
        _ => StoredValues::Fixed(Items::new(alloc)),
    }
}

/// Adds a value to a list for values of its physical type.
fn add_value<'a>(list: &mut StoredValues<'a>, value: StoredValue<'a>) -> Result<(), AllocError>
    requires { IsOfType (type_in list.old) value }
    ensures added { OnOk result (values_in list.new ≡ values_in list.old ++ physical_of value.entry ∷ []) }
    ensures kept { type_in list.new ≡ type_in list.old }
{
    match (list, value) {
        (StoredValues::Flags(flags), StoredValue::Flag(flag)) => flags.push(flag),
        (StoredValues::Whole32(numbers), StoredValue::Whole(number)) => numbers.push(number as i32),
        (StoredValues::Whole64(numbers), StoredValue::Whole(number)) => numbers.push(number),
        (StoredValues::Fixed(arrays), StoredValue::Fixed(bytes)) => arrays.push(bytes),
        (StoredValues::Lent(arrays), StoredValue::Lent(bytes)) => arrays.push(bytes),
        _ => unreachable!(),
    }
}

impl<'a> StoredColumn<'a> {
    /// Adds a row with a value, or a null.
    fn add(&mut self, value: Option<StoredValue<'a>>) -> Result<(), AllocError>
        requires { IfSome value (IsOfType (type_in self.old.values)) }
        ensures levels { OnOk result (self.new.levels
            ≡ self.old.levels ++ level (option_map physical_of value.entry) ∷ []) }
        ensures values { OnOk result (values_in self.new.values
            ≡ values_in self.old.values ++ listed (option_map physical_of value.entry)) }
        ensures kept { type_in self.new.values ≡ type_in self.old.values }
    {
        match value {
            None => self.levels.push(0),
            Some(value) => {
                self.levels.push(1)?;
                add_value(&mut self.values, value)
            }
        }
    }
}

/// The values of a column, in their order.
pub(crate) fn stored_column(
    alloc: Global,
    column: &AnyColumn,
) -> Result<StoredColumn<'_>, AllocError>
    requires { All (IsNullOrInRange column.now.kind) column.now.values }
    ensures { IfOk result (IsStored column.now.kind column.now.values) }
{
    let mut stored = StoredColumn {
        levels: Items::new(alloc),
        values: empty_list(alloc, column.kind()),
    };
    for row in 0..column.len() {
        let value = stored_at(alloc, column, row)?;
        stored.add(value)?;
    }
    Ok(stored)
}
