// Writing a commit.
ghost use Rattle.std.specs.Prelude.{◌≡◌, ◌++◌, IfOk, OnOk, IfSome, IsUtf8, Ok};
ghost use Rattle.serde_json.specs.Written.{compact_text};
ghost use Rattle.delta_actions.specs.Meaning.{commit_of};
ghost use Rattle.delta_actions.specs.StepsWriting.{HasWholes};
ghost use Rattle.delta_actions.specs.Writable.{AreWritable};
ghost use Rattle.delta_actions.specs.Written.{line_data, line_text, commit_text};

use crate::action::{Action, Actions};
use crate::building::line_value;
use dm_types::{Bytes, Items};
use std::alloc::{AllocError, Global};

fn add_line(alloc: Global, action: &Action, bytes: &mut Bytes) -> Result<(), AllocError>
    ensures text { OnOk result (bytes.new ≡ bytes.old ++ line_text (line_data action.now)) }
    ensures utf8 { OnOk result (IfSome (line_data action.now) (λ d. IsUtf8 (compact_text d))) }
    ensures wholes { OnOk result (HasWholes action.now) }
{
    if let Some(value) = line_value(alloc, action)? {
        let text = value.to_vec(alloc)?;
        bytes.extend_from_slice(text.as_slice())?;
        bytes.push(b'\n')?;
    }
    Ok(())
}

/// The text of a commit file: a line for each action, in order (PROTOCOL.md, "Actions").
///
/// Each line is compact JSON with members in byte order of their names, and ends with a line feed.
/// Members that aren't there are left out, and so are an empty list of reader features beside a
/// reader that isn't 3 and an empty list of writer features beside a writer that isn't 7. Deletion
/// vectors aren't written, and `Other` has no line. Of equal names in a list of pairs the last
/// counts.
pub fn write_commit(alloc: Global, actions: &Actions) -> Result<Bytes, AllocError>
    ensures text { IfOk result (λ bytes. bytes ≡ commit_text actions.now) }
    ensures reads_back { IfOk result
        (λ bytes. AreWritable actions.now → commit_of bytes ≡ Ok actions.now) }
{
    let mut bytes = Items::new(alloc);
    for action in actions.as_slice() {
        add_line(alloc, action, &mut bytes)?;
    }
    Ok(bytes)
}
