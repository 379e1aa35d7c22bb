// The members of a field and of its metadata, by their forms.
ghost use Rattle.std.specs.Prelude.{◌≡◌, Option, option_map};
ghost use Rattle.serde_json.specs.Data.{Data};
ghost use Rattle.serde_json.specs.Find.{as_str, as_bool};
ghost use Rattle.serde_json.specs.View.{view};
ghost use Rattle.delta_actions.specs.Forms.{present, needed as needed_of, whole};
ghost use Rattle.delta_schema.specs.Metadata.{kept as kept_of, id_of};
ghost use Rattle.delta_schema.specs.StepsReading.{Gives};

use crate::fault::Fault;
use dm_types::Text;
use serde_json::Value;
use std::alloc::Global;

/// What a member is read as.
pub(crate) trait Form: Drop {
    ghost form: { Data → Option Self };

    fn read(alloc: Global, value: &Value) -> Result<Self, Fault>
        ensures { Gives (form (view value.now)) result };
}

/// The member of this name, where there is one that isn't null.
pub(crate) fn member<'a>(value: &'a Value, name: &str) -> Option<&'a Value>
    ensures { option_map (λ v. view v.now) result ≡ present name.now (view value.now) }
{
    match value.get(name) {
        Some(found) if !found.is_null() => Some(found),
        _ => None,
    }
}

/// A member that must be there.
pub(crate) fn needed<T: Form>(alloc: Global, value: &Value, name: &str) -> Result<T, Fault>
    ensures { Gives (needed_of T.form name.now (view value.now)) result }
{
    match member(value, name) {
        Some(found) => T::read(alloc, found),
        None => Err(Fault::Bad),
    }
}

/// A member of metadata, where it is there.
pub(crate) fn kept<T: Form>(alloc: Global, metadata: &Value, name: &str) -> Result<Option<T>, Fault>
    ensures { Gives (kept_of T.form name.now (view metadata.now)) result }
{
    match metadata.get(name) {
        Some(found) => Ok(Some(T::read(alloc, found)?)),
        None => Ok(None),
    }
}

impl Form for Text {
    ghost form = { as_str };

    fn read(alloc: Global, value: &Value) -> Result<Text, Fault> {
        match value.as_str() {
            Some(text) => Ok(Text::from_str(alloc, text)?),
            None => Err(Fault::Bad),
        }
    }
}

impl Form for bool {
    ghost form = { as_bool };

    fn read(_alloc: Global, value: &Value) -> Result<bool, Fault> {
        value.as_bool().ok_or(Fault::Bad)
    }
}

impl Form for i64 {
    ghost form = { whole };

    fn read(_alloc: Global, value: &Value) -> Result<i64, Fault> {
        value.as_i64().ok_or(Fault::Bad)
    }
}

/// An id of a column (PROTOCOL.md, "Column Mapping").
impl Form for i32 {
    ghost form = { id_of };

    fn read(_alloc: Global, value: &Value) -> Result<i32, Fault> {
        match value.as_i64() {
            Some(id) if id >= -2147483648 && id <= 2147483647 => Ok(id as i32),
            _ => Err(Fault::Bad),
        }
    }
}
