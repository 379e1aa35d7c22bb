// The lines of a commit.
ghost use Rattle.delta_actions.specs.Answers.{ReadsCommit};
ghost use Rattle.delta_actions.specs.StepsReading.{AddsLine};
ghost use Rattle.delta_actions.specs.Meaning.{actions_of, commit_of};

use crate::action::Actions;
use crate::fault::{ActionFault, Fault};
use crate::line::{is_blank, read_line};
use dm_types::Items;
use std::alloc::Global;

fn add_line(
    alloc: Global,
    line: &[u8],
    number: u64,
    actions: &mut Actions,
) -> Result<(), ActionFault>
    ensures { AddsLine number (actions_of line.now) actions.old actions.new result }
{
    if is_blank(line) {
        return Ok(());
    }
    match read_line(alloc, line) {
        Ok(action) => Ok(actions.push(action)?),
        Err(Fault::Bad) => Err(ActionFault::BadAction { line: number }),
        Err(Fault::Memory) => Err(ActionFault::Memory),
    }
}

/// The actions of a commit file in the order of its lines, or its first line that is no action.
///
/// The lines are parted by line feeds. Lines of spaces, tabs and carriage returns are passed by.
/// Every other line is a JSON object with one member that isn't null, whose name is the action's
/// (PROTOCOL.md, "Actions"). Members of an action that aren't named in its type are ignored; of
/// those that are, each must have its form, also where it may be absent or null.
pub fn read_commit(alloc: Global, bytes: &[u8]) -> Result<Actions, ActionFault>
    ensures { ReadsCommit (commit_of bytes.now) result }
{
    let mut actions = Items::new(alloc);
    let mut number = 1;
    for line in bytes.split(|byte| *byte == b'\n') {
        add_line(alloc, line, number, &mut actions)?;
        number += 1;
    }
    Ok(actions)
}
