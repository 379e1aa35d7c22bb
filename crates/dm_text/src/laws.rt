// What is printed of a value, and what is read of it.
ghost use Rattle.std.specs.Prelude.{◌≡◌, ◌≢◌, ℕ, List, Some};
ghost use Rattle.dm_text.specs.Printing.{printed};
ghost use Rattle.dm_types.specs.Ranges.{IsDay, IsInRange, IsText, IsWellFormed, day_part, the_day};
ghost use Rattle.dm_text.specs.Reading.{text_value};
ghost use Rattle.dm_types.specs.declared.value.DataType.{DataType as AType};
ghost use Rattle.dm_types.specs.declared.value.DataType.TheVariants.{Binary};
ghost use Rattle.dm_types.specs.declared.value.Value.{Value as AValue};

use crate::calendar::date_of;
use dm_types::{DAY_MICROS, DataType, Value};

/// A law: what is printed of a value is read as it, for the types that are read: all but binary.
pub fn printed_is_read(value: &Value, kind: &DataType)
    requires { IsInRange kind.now value.now }
    ensures { kind.now ≢ Binary → text_value kind.now (printed value.now) ≡ Some value.now }
{
    text_is_utf8(value);
    let _ = date_of(day_of(value, kind));
}

/// A law: what a text reads as is in the range of its type.
pub fn what_reads_is_in_range()
    ensures { (kind : AType) (text : List ℕ) (value : AValue) → IsWellFormed kind
        → text_value kind text ≡ Some value → IsInRange kind value }
{}

fn text_is_utf8(value: &Value)
    ensures { IsText value.now }
{
    if let Value::Text(text) = value {
        let _ = text.as_bytes();
    }
}

fn day_of(value: &Value, kind: &DataType) -> i64
    requires { IsInRange kind.now value.now }
    ensures value { result ≡ the_day value.now }
    ensures range { IsDay result }
{
    match value {
        Value::Day(day) => i64::from(*day),
        Value::Micros(moment) => moment.div_euclid(DAY_MICROS),
        _ => 0,
    }
}
