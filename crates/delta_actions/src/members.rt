// The members of an action, by their forms.
ghost use Rattle.std.specs.Prelude.{◌≡◌, ◌∷◌, [], ◌++◌, Option, option_map};
ghost use Rattle.serde_json.specs.Data.{Data};
ghost use Rattle.serde_json.specs.Find.{as_str, as_bool};
ghost use Rattle.serde_json.specs.View.{view, items_view, members_view};
ghost use Rattle.delta_actions.specs.Forms.{present, needed as needed_of, optional as optional_of, whole, version, texts, pairs, text_or_null};
ghost use Rattle.delta_actions.specs.StepsReading.{Gives};

use crate::fault::Fault;
use dm_types::{Items, Text, TextList};
use serde_json::{Map, Value};
use std::alloc::Global;

/// What a member of an action is read as.
pub(crate) trait Form: Drop {
    ghost form: { Data → Option Self };

    fn read(alloc: Global, value: &Value) -> Result<Self, Fault>
        ensures { Gives (form (view value.now)) result };
}

/// The member of this name, where there is one that isn't null.
pub(crate) fn member<'a>(value: &'a Value, name: &str) -> Option<&'a Value>
    ensures { option_map (λ v. view v.now) result ≡ present name.now (view value.now) }
{
    match value.get(name) {
        Some(found) if !found.is_null() => Some(found),
        _ => None,
    }
}

/// A member that must be there.
pub(crate) fn needed<T: Form>(alloc: Global, value: &Value, name: &str) -> Result<T, Fault>
    ensures { Gives (needed_of T.form name.now (view value.now)) result }
{
    match member(value, name) {
        Some(found) => T::read(alloc, found),
        None => Err(Fault::Bad),
    }
}

/// A member that may be absent or null.
pub(crate) fn optional<T: Form>(
    alloc: Global,
    value: &Value,
    name: &str,
) -> Result<Option<T>, Fault>
    ensures { Gives (optional_of T.form name.now (view value.now)) result }
{
    match member(value, name) {
        Some(found) => Ok(Some(T::read(alloc, found)?)),
        None => Ok(None),
    }
}

impl Form for Text {
    ghost form = { as_str };

    fn read(alloc: Global, value: &Value) -> Result<Text, Fault> {
        match value.as_str() {
            Some(text) => Ok(Text::from_str(alloc, text)?),
            None => Err(Fault::Bad),
        }
    }
}

impl Form for Option<Text> {
    ghost form = { text_or_null };

    fn read(alloc: Global, value: &Value) -> Result<Option<Text>, Fault> {
        if value.is_null() {
            return Ok(None);
        }
        Ok(Some(<Text as Form>::read(alloc, value)?))
    }
}

impl Form for i64 {
    ghost form = { whole };

    fn read(_alloc: Global, value: &Value) -> Result<i64, Fault> {
        value.as_i64().ok_or(Fault::Bad)
    }
}

impl Form for bool {
    ghost form = { as_bool };

    fn read(_alloc: Global, value: &Value) -> Result<bool, Fault> {
        value.as_bool().ok_or(Fault::Bad)
    }
}

impl Form for u32 {
    ghost form = { version };

    fn read(_alloc: Global, value: &Value) -> Result<u32, Fault> {
        match value.as_u64() {
            Some(number) if number <= 2147483647 => Ok(number as u32),
            _ => Err(Fault::Bad),
        }
    }
}

impl Form for TextList {
    ghost form = { texts };

    fn read(alloc: Global, value: &Value) -> Result<TextList, Fault> {
        let Some(items) = value.as_array() else {
            return Err(Fault::Bad);
        };
        let mut texts = Items::new(alloc);
        for item in items {
            texts.push(<Text as Form>::read(alloc, item)?)?;
        }
        Ok(texts)
    }
}

impl<T: Form> Form for Items<(Text, T)> {
    ghost form = { pairs T.form };

    fn read(alloc: Global, value: &Value) -> Result<Items<(Text, T)>, Fault> {
        let Some(members) = value.as_object() else {
            return Err(Fault::Bad);
        };
        let mut pairs = Items::new(alloc);
        for (key, member) in members.iter() {
            let name = Text::from_str(alloc, key.as_str())?;
            pairs.push((name, T::read(alloc, member)?))?;
        }
        Ok(pairs)
    }
}
