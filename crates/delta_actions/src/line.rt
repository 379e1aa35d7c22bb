// One line of a commit.
ghost use Rattle.std.specs.Prelude.{◌≡◌, option_map};
ghost use Rattle.std.specs.List.{list_all};
ghost use Rattle.serde_json.specs.View.{view};
ghost use Rattle.delta_actions.specs.StepsReading.{Gives};
ghost use Rattle.delta_actions.specs.Meaning.{only_member as only_member_of, object_action as object_action_of, line_of, is_space};

use crate::action::Action;
use crate::fault::Fault;
use crate::reading::action;
use serde_json::Value;
use std::alloc::Global;

/// The one member that isn't null.
fn only_member(value: &Value) -> Option<(&str, &Value)>
    ensures { option_map (λ m. (m.0.now, view m.1.now)) result ≡ only_member_of (view value.now) }
{
    let Some(members) = value.as_object() else {
        return None;
    };
    let mut found: Option<(&str, &Value)> = None;
    for (key, member) in members.iter() {
        if !member.is_null() {
            if found.is_some() {
                return None;
            }
            found = Some((key.as_str(), member));
        }
    }
    found
}

fn object_action(alloc: Global, value: &Value) -> Result<Action, Fault>
    ensures { Gives (object_action_of (view value.now)) result }
{
    match only_member(value) {
        Some((name, member)) => action(alloc, name, member),
        None => Err(Fault::Bad),
    }
}

/// The action of a line that isn't blank.
pub(crate) fn read_line(alloc: Global, line: &[u8]) -> Result<Action, Fault>
    ensures { Gives (line_of line.now) result }
{
    match Value::from_slice(alloc, line) {
        Ok(value) => object_action(alloc, &value),
        Err(error) if error.is_memory() => Err(Fault::Memory),
        Err(_) => Err(Fault::Bad),
    }
}

/// Whether a line has spaces, tabs and carriage returns alone.
pub(crate) fn is_blank(line: &[u8]) -> bool
    ensures { result ≡ list_all is_space line.now }
{
    line.iter()
        .all(|byte| matches!(*byte, b' ' | b'\t' | b'\r'))
}
