// Values from their texts.
ghost use Rattle.std.specs.Prelude.{◌≡◌, IfOk};
ghost use Rattle.dm_text.specs.Answers.{ReadsText};
ghost use Rattle.dm_types.specs.Ranges.{IsInRange, IsWellFormed};
ghost use Rattle.dm_text.specs.Reading as spec;
ghost use Rattle.dm_types.specs.declared.value.Value.{Value};
ghost use Rattle.dm_types.specs.declared.value.DataType.TheVariants as kind;

use crate::calendar::read_date;
use crate::decimals::read_decimal;
use crate::digits::read_whole;
use crate::fault::TextFault;
use crate::moments::read_timestamp;
use dm_types::{Bytes, DataType, Text, Value};
use std::alloc::Global;

/// The value of a text, by its type.
///
/// BadText comes exactly where the text isn't of the type's form: `true` or `false` in ASCII letters
/// of either case; an optional sign and digits of a number in the type's range; an optional sign,
/// digits, and where there is a point 1 to `scale` digits behind it, with at most `precision - scale`
/// significant digits before it; a text in UTF-8 as it is; `yyyy-MM-dd`; `yyyy-MM-dd HH:mm:ss` with at
/// most 6 digits behind a point, or the same with `T` for the space and `Z` at the end. Dates are from
/// 0001-01-01 to 9999-12-31 and times in UTC. No text is of type binary or void.
pub fn read_value(alloc: Global, text: &[u8], kind: &DataType) -> Result<Value, TextFault>
    requires { IsWellFormed kind.now }
    ensures value { ReadsText (spec.text_value kind.now text.now) result }
    ensures range { IfOk result (λ value. IsInRange kind.now value) }
{
    read_form(alloc, text, kind)
}

fn read_form(alloc: Global, text: &[u8], kind: &DataType) -> Result<Value, TextFault>
    requires { IsWellFormed kind.now }
    ensures { ReadsText (spec.text_value kind.now text.now) result }
{
    match kind {
        DataType::Boolean => answer(read_truth(text).map(Value::Bool)),
        DataType::Byte => answer(read_whole(text, 7).map(Value::Int)),
        DataType::Short => answer(read_whole(text, 15).map(Value::Int)),
        DataType::Integer => answer(read_whole(text, 31).map(Value::Int)),
        DataType::Long => answer(read_whole(text, 63).map(Value::Int)),
        DataType::Decimal { precision, scale } => {
            answer(read_decimal(text, *precision, *scale).map(Value::Dec))
        }
        DataType::Str => read_text(alloc, text),
        DataType::Date => answer(read_date(text).map(Value::Day)),
        DataType::Timestamp => answer(read_timestamp(text).map(Value::Micros)),
        DataType::Void | DataType::Binary => Err(TextFault::BadText),
    }
}

fn answer(value: Option<Value>) -> Result<Value, TextFault>
    ensures { ReadsText value result }
{
    value.ok_or(TextFault::BadText)
}

fn read_truth(text: &[u8]) -> Option<bool>
    ensures { result ≡ spec.truth text.now }
{
    if text.eq_ignore_ascii_case(b"true") {
        Some(true)
    } else if text.eq_ignore_ascii_case(b"false") {
        Some(false)
    } else {
        None
    }
}

fn read_text(alloc: Global, text: &[u8]) -> Result<Value, TextFault>
    ensures { ReadsText (spec.text_value kind.Str text.now) result }
{
    match Text::from_utf8(Bytes::from_slice(alloc, text)?) {
        Some(text) => Ok(Value::Text(text)),
        None => Err(TextFault::BadText),
    }
}
