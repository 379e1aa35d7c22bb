// The types of columns, from their names.
ghost use Rattle.std.specs.Prelude.{◌≡◌, ◌==◌, ◌<◌, length, option_map, IfOk, IfSome, string_bytes};
ghost use Rattle.std.specs.List.{position};
ghost use Rattle.serde_json.specs.View.{view};
ghost use Rattle.dm_types.specs.declared.value.DataType.TheVariants as type;
ghost use Rattle.delta_schema.specs.StepsReading.{Gives};
ghost use Rattle.delta_schema.specs.Types.{small_number as small_number_of, decimal_type as decimal_type_of, parameters as parameters_of, halves as halves_of, decimal_of, kind_of, type_name as name_of, type_of};

use crate::fault::Fault;
use crate::members::Form;
use dm_types::{DataType, MAX_PRECISION};
use serde_json::Value;
use std::alloc::{AllocError, Global};

// A number of one or two digits, with no zero before them.
fn small_number(digits: &[u8]) -> Option<u8>
    ensures { result ≡ small_number_of digits.now }
{
    match digits {
        [one] if one.is_ascii_digit() => Some(*one - b'0'),
        [ten, one] if ten.is_ascii_digit() && *ten != b'0' && one.is_ascii_digit() => {
            Some(10 * (*ten - b'0') + (*one - b'0'))
        }
        _ => None,
    }
}

fn decimal_type(precision: u8, scale: u8) -> Option<DataType>
    ensures { result ≡ decimal_type_of precision scale }
{
    if precision >= 1 && precision <= MAX_PRECISION && scale <= precision {
        Some(DataType::Decimal { precision, scale })
    } else {
        None
    }
}

// What stands between the brackets of `decimal(..)`.
fn parameters(name: &[u8]) -> Option<&[u8]>
    ensures { option_map (λ inner. inner.now) result ≡ parameters_of name.now }
{
    name.strip_prefix(b"decimal(")?.strip_suffix(b")")
}

// The place of the first comma.
fn comma(text: &[u8]) -> Option<usize>
    ensures place { result ≡ position (λ b. b == 44) text.now }
    ensures within { IfSome result (λ at. at < length text.now) }
{
    text.iter().position(|byte| *byte == b',')
}

// What stands before the first comma, and what behind it.
fn halves(text: &[u8]) -> Option<(&[u8], &[u8])>
    ensures { option_map (λ parts. (parts.0.now, parts.1.now)) result ≡ halves_of text.now }
{
    let comma = comma(text)?;
    Some((&text[..comma], &text[comma + 1..]))
}

// `decimal(p,s)`, in exactly this spelling.
fn decimal(name: &[u8]) -> Option<DataType>
    ensures { result ≡ decimal_of name.now }
{
    let (precision, scale) = halves(parameters(name)?)?;
    decimal_type(small_number(precision)?, small_number(scale)?)
}

/// The type of this name, where a column may have it.
#[tactic(auto, unfolding(crate::specs::Types::kind_of))]
pub(crate) fn kind(name: &str) -> Option<DataType>
    ensures { result ≡ kind_of name.now }
{
    match name {
        "string" => Some(DataType::Str),
        "long" => Some(DataType::Long),
        "integer" => Some(DataType::Integer),
        "short" => Some(DataType::Short),
        "byte" => Some(DataType::Byte),
        "boolean" => Some(DataType::Boolean),
        "binary" => Some(DataType::Binary),
        "date" => Some(DataType::Date),
        "timestamp" => Some(DataType::Timestamp),
        _ => decimal(name.as_bytes()),
    }
}

fn decimal_name(alloc: Global, precision: u8, scale: u8) -> Result<String, AllocError>
    ensures { IfOk result (λ name. string_bytes name ≡ name_of (type.Decimal precision scale)) }
{
    let name = format!(in alloc; "decimal({precision},{scale})")?;
    Ok(name)
}

/// The name of this type.
pub(crate) fn type_name(alloc: Global, kind: DataType) -> Result<String, AllocError>
    ensures { IfOk result (λ name. string_bytes name ≡ name_of kind) }
{
    let name = match kind {
        DataType::Decimal { precision, scale } => return decimal_name(alloc, precision, scale),
        DataType::Void => "void",
        DataType::Boolean => "boolean",
        DataType::Byte => "byte",
        DataType::Short => "short",
        DataType::Integer => "integer",
        DataType::Long => "long",
        DataType::Str => "string",
        DataType::Binary => "binary",
        DataType::Date => "date",
        DataType::Timestamp => "timestamp",
    };
    String::from_str(alloc, name)
}

/// None is a type that no column may have.
impl Form for Option<DataType> {
    ghost form = { type_of };

    fn read(_alloc: Global, value: &Value) -> Result<Option<DataType>, Fault> {
        match value.as_str() {
            Some(name) => Ok(kind(name)),
            None if value.is_object() => Ok(None),
            None => Err(Fault::Bad),
        }
    }
}
