// The eight lanes.
ghost use Rattle.std.specs.Prelude.{◌≡◌, ⊤, FitsSigned};
ghost use Rattle.std.specs.Int.{w8, w16, w32, w64, w128};
ghost use Rattle.std.specs.Bool.{beq};
ghost use Rattle.std.specs.Cmp.Lexicographic.{slice_cmp};
ghost use Rattle.std.specs.Ordering.{nat_cmp, int_cmp, int_eq, bool_cmp};
ghost use Rattle.std.specs.Str.{bytes_eq};
ghost use Rattle.dm_types.specs.Lanes.{is_bool, is_byte, is_short, is_int, is_long, is_decimal, is_text, is_bytes};
ghost use Rattle.dm_types.specs.Lanes.{int_value, long_value, decimal_value};
ghost use Rattle.dm_types.specs.Lanes.{kept_bool, kept_byte, kept_short, kept_int, kept_long, kept_decimal, kept_text, kept_bytes};
ghost use Rattle.dm_types.specs.LaneLaws.{bool_held, byte_held, short_held, int_held, long_held, decimal_held, text_held, bytes_held, decimal_equals, decimal_orders, int_holds, long_holds, decimal_holds};
ghost use Rattle.dm_types.specs.declared.value.Value.TheVariants as value;
ghost use Rattle.std.proofs.Common.{rules};
ghost use Rattle.std.proofs.lemmas.Map.Text.{is_eq-slice_cmp};

use crate::lane::Lane;
use crate::value::{DataType, Decimal, Value};
use crate::{Bytes, Text};
use std::alloc::AllocError;
use std::cmp::Ordering;

/// Truth values: BOOLEAN, and the type of NULL.
#[derive(Clone, Copy, Debug)]
pub struct LaneBool;

impl Lane for LaneBool {
    type Kept = bool;

    ghost serves = { is_bool };

    ghost is_kept = { λ _. ⊤ };

    ghost value_of = { λ b _. value.Bool b };

    ghost kept_of = { kept_bool };

    ghost eq = { beq };

    ghost cmp = { bool_cmp };

    ghost null = { Prim.search rules };

    ghost no_null = { Prim.search rules };

    ghost back = { Prim.search rules };

    ghost typed = { Prim.search rules };

    ghost holds = { Prim.search rules };

    ghost held = { bool_held };

    ghost equals = { Prim.search rules };

    ghost orders = { Prim.search rules };

    fn to_value(kept: &bool, _kind: &DataType) -> Result<Value, AllocError> {
        Ok(Value::Bool(*kept))
    }

    fn from_value(value: &Value) -> Result<Option<bool>, AllocError> {
        match value {
            Value::Bool(b) => Ok(Some(*b)),
            _ => Ok(None),
        }
    }

    fn equal(a: &bool, b: &bool) -> bool {
        a == b
    }

    fn order(a: &bool, b: &bool) -> Ordering {
        a.cmp(b)
    }
}

/// Whole numbers of 8 bits.
#[derive(Clone, Copy, Debug)]
pub struct LaneByte;

impl Lane for LaneByte {
    type Kept = i8;

    ghost serves = { is_byte };

    ghost is_kept = { FitsSigned w8 };

    ghost value_of = { λ n _. value.Int n };

    ghost kept_of = { kept_byte };

    ghost eq = { int_eq };

    ghost cmp = { int_cmp };

    ghost null = { Prim.search rules };

    ghost no_null = { Prim.search rules };

    ghost back = { Prim.search rules };

    ghost typed = { Prim.search rules };

    ghost holds = { Prim.search rules };

    ghost held = { byte_held };

    ghost equals = { Prim.search rules };

    ghost orders = { Prim.search rules };

    fn to_value(kept: &i8, _kind: &DataType) -> Result<Value, AllocError> {
        Ok(Value::Int(i64::from(*kept)))
    }

    fn from_value(value: &Value) -> Result<Option<i8>, AllocError> {
        match value {
            Value::Int(n) => Ok(i8::try_from(*n).ok()),
            _ => Ok(None),
        }
    }

    fn equal(a: &i8, b: &i8) -> bool {
        a == b
    }

    fn order(a: &i8, b: &i8) -> Ordering {
        a.cmp(b)
    }
}

/// Whole numbers of 16 bits.
#[derive(Clone, Copy, Debug)]
pub struct LaneShort;

impl Lane for LaneShort {
    type Kept = i16;

    ghost serves = { is_short };

    ghost is_kept = { FitsSigned w16 };

    ghost value_of = { λ n _. value.Int n };

    ghost kept_of = { kept_short };

    ghost eq = { int_eq };

    ghost cmp = { int_cmp };

    ghost null = { Prim.search rules };

    ghost no_null = { Prim.search rules };

    ghost back = { Prim.search rules };

    ghost typed = { Prim.search rules };

    ghost holds = { Prim.search rules };

    ghost held = { short_held };

    ghost equals = { Prim.search rules };

    ghost orders = { Prim.search rules };

    fn to_value(kept: &i16, _kind: &DataType) -> Result<Value, AllocError> {
        Ok(Value::Int(i64::from(*kept)))
    }

    fn from_value(value: &Value) -> Result<Option<i16>, AllocError> {
        match value {
            Value::Int(n) => Ok(i16::try_from(*n).ok()),
            _ => Ok(None),
        }
    }

    fn equal(a: &i16, b: &i16) -> bool {
        a == b
    }

    fn order(a: &i16, b: &i16) -> Ordering {
        a.cmp(b)
    }
}

/// Whole numbers of 32 bits, and days.
#[derive(Clone, Copy, Debug)]
pub struct LaneInt;

impl Lane for LaneInt {
    type Kept = i32;

    ghost serves = { is_int };

    ghost is_kept = { FitsSigned w32 };

    ghost value_of = { int_value };

    ghost kept_of = { kept_int };

    ghost eq = { int_eq };

    ghost cmp = { int_cmp };

    ghost null = { Prim.search rules };

    ghost no_null = { Prim.search rules };

    ghost back = { Prim.search rules };

    ghost typed = { Prim.search rules };

    ghost holds = { int_holds };

    ghost held = { int_held };

    ghost equals = { Prim.search rules };

    ghost orders = { Prim.search rules };

    fn to_value(kept: &i32, kind: &DataType) -> Result<Value, AllocError> {
        match kind {
            DataType::Date => Ok(Value::Day(*kept)),
            _ => Ok(Value::Int(i64::from(*kept))),
        }
    }

    fn from_value(value: &Value) -> Result<Option<i32>, AllocError> {
        match value {
            Value::Int(n) => Ok(i32::try_from(*n).ok()),
            Value::Day(day) => Ok(Some(*day)),
            _ => Ok(None),
        }
    }

    fn equal(a: &i32, b: &i32) -> bool {
        a == b
    }

    fn order(a: &i32, b: &i32) -> Ordering {
        a.cmp(b)
    }
}

/// Whole numbers of 64 bits, and moments.
#[derive(Clone, Copy, Debug)]
pub struct LaneLong;

impl Lane for LaneLong {
    type Kept = i64;

    ghost serves = { is_long };

    ghost is_kept = { FitsSigned w64 };

    ghost value_of = { long_value };

    ghost kept_of = { kept_long };

    ghost eq = { int_eq };

    ghost cmp = { int_cmp };

    ghost null = { Prim.search rules };

    ghost no_null = { Prim.search rules };

    ghost back = { Prim.search rules };

    ghost typed = { Prim.search rules };

    ghost holds = { long_holds };

    ghost held = { long_held };

    ghost equals = { Prim.search rules };

    ghost orders = { Prim.search rules };

    fn to_value(kept: &i64, kind: &DataType) -> Result<Value, AllocError> {
        match kind {
            DataType::Timestamp => Ok(Value::Micros(*kept)),
            _ => Ok(Value::Int(*kept)),
        }
    }

    fn from_value(value: &Value) -> Result<Option<i64>, AllocError> {
        match value {
            Value::Int(n) | Value::Micros(n) => Ok(Some(*n)),
            _ => Ok(None),
        }
    }

    fn equal(a: &i64, b: &i64) -> bool {
        a == b
    }

    fn order(a: &i64, b: &i64) -> Ordering {
        a.cmp(b)
    }
}

/// Decimals of one scale: their unscaled numbers.
#[derive(Clone, Copy, Debug)]
pub struct LaneDecimal;

impl Lane for LaneDecimal {
    type Kept = i128;

    ghost serves = { is_decimal };

    ghost is_kept = { FitsSigned w128 };

    ghost value_of = { decimal_value };

    ghost kept_of = { kept_decimal };

    ghost eq = { int_eq };

    ghost cmp = { int_cmp };

    ghost null = { Prim.search rules };

    ghost no_null = { Prim.search rules };

    ghost back = { Prim.search rules };

    ghost typed = { Prim.search rules };

    ghost holds = { decimal_holds };

    ghost held = { decimal_held };

    ghost equals = { decimal_equals };

    ghost orders = { decimal_orders };

    fn to_value(kept: &i128, kind: &DataType) -> Result<Value, AllocError> {
        let scale = match kind {
            DataType::Decimal { scale, .. } => *scale,
            _ => 0,
        };
        Ok(Value::Dec(Decimal {
            unscaled: *kept,
            scale,
        }))
    }

    fn from_value(value: &Value) -> Result<Option<i128>, AllocError> {
        match value {
            Value::Dec(decimal) => Ok(Some(decimal.unscaled)),
            _ => Ok(None),
        }
    }

    fn equal(a: &i128, b: &i128) -> bool {
        a == b
    }

    fn order(a: &i128, b: &i128) -> Ordering {
        a.cmp(b)
    }
}

/// Texts.
#[derive(Clone, Copy, Debug)]
pub struct LaneText;

impl Lane for LaneText {
    type Kept = Text;

    ghost serves = { is_text };

    ghost is_kept = { λ _. ⊤ };

    ghost value_of = { λ t _. value.Text t };

    ghost kept_of = { kept_text };

    ghost eq = { bytes_eq };

    ghost cmp = { slice_cmp nat_cmp };

    ghost null = { Prim.search rules };

    ghost no_null = { Prim.search rules };

    ghost back = { Prim.search rules };

    ghost typed = { Prim.search rules };

    ghost holds = { Prim.search rules };

    ghost held = { text_held };

    ghost equals = { λ _ a b _. is_eq-slice_cmp a b };

    ghost orders = { Prim.search rules };

    fn to_value(kept: &Text, _kind: &DataType) -> Result<Value, AllocError> {
        Ok(Value::Text(kept.clone()?))
    }

    fn from_value(value: &Value) -> Result<Option<Text>, AllocError> {
        match value {
            Value::Text(text) => Ok(Some(text.clone()?)),
            _ => Ok(None),
        }
    }

    fn equal(a: &Text, b: &Text) -> bool {
        a == b
    }

    fn order(a: &Text, b: &Text) -> Ordering {
        a.cmp(b)
    }
}

/// Bytes.
#[derive(Clone, Copy, Debug)]
pub struct LaneBytes;

impl Lane for LaneBytes {
    type Kept = Bytes;

    ghost serves = { is_bytes };

    ghost is_kept = { λ _. ⊤ };

    ghost value_of = { λ b _. value.Bytes b };

    ghost kept_of = { kept_bytes };

    ghost eq = { bytes_eq };

    ghost cmp = { slice_cmp nat_cmp };

    ghost null = { Prim.search rules };

    ghost no_null = { Prim.search rules };

    ghost back = { Prim.search rules };

    ghost typed = { Prim.search rules };

    ghost holds = { Prim.search rules };

    ghost held = { bytes_held };

    ghost equals = { λ _ a b _. is_eq-slice_cmp a b };

    ghost orders = { Prim.search rules };

    fn to_value(kept: &Bytes, _kind: &DataType) -> Result<Value, AllocError> {
        Ok(Value::Bytes(kept.clone()?))
    }

    fn from_value(value: &Value) -> Result<Option<Bytes>, AllocError> {
        match value {
            Value::Bytes(bytes) => Ok(Some(bytes.clone()?)),
            _ => Ok(None),
        }
    }

    fn equal(a: &Bytes, b: &Bytes) -> bool {
        a == b
    }

    fn order(a: &Bytes, b: &Bytes) -> Ordering {
        a.as_slice().cmp(b.as_slice())
    }
}
