// The answer of DELETE FROM.
ghost use Rattle.std.specs.Prelude.{◌≡◌, ◌+◌, ◌<◌, ◌^◌, ◌++◌, Ok, IfOk, OnOk, map};
ghost use Rattle.dm_store.specs.Causes.{Counts, StopCause, DrawCause};
ghost use Rattle.dm_store.specs.Files.{WhereTold};
ghost use Rattle.delta_actions.specs.Removal.{removal_of};
ghost use Rattle.delta_actions.specs.declared.action.Action.TheVariants as action;
ghost use Rattle.table_write.specs.Delete as spec;
ghost use Rattle.table_write.specs.Outside.{outside};
ghost use Rattle.table_write.specs.StepsWriting.{Passes, TellsPlan};
ghost use Rattle.table_write.specs.Writing.{CarriesOut};

use crate::writing::put_version;
use commit_log::NewFiles;
use delta_actions::{Action, Actions, AddAction, InfoAction, remove_file};
use dm_store::{Clock, NameSource, Store};
use dm_types::{Bytes, PathBytes, StatementRefusal, Stop, Text};
use file_names::draw;
use log_replay::Snapshot;
use row_rules::read_rules;
use std::alloc::{AllocError, Global};
use table_load::{Head, Purpose, is_on, load_table, tracks_rows};

/// The text of DELETE FROM: the number of the new version, which removes each live file.
///
/// After the checks one name is drawn, and then the clock is read once.
pub fn delete_from<S: Store, C: Clock, N: NameSource>(
    alloc: Global,
    store: &mut S,
    clock: &mut C,
    names: &mut N,
    table: &Text,
) -> Result<Bytes, Stop>
    ensures answer { CarriesOut (spec.delete_from table.now)
        (outside (S.files store.old) (S.taken store.old) (N.given names.old) (C.given clock.old))
        result
        (outside (S.files store.new) (S.taken store.new) (N.given names.new) (C.given clock.new)) }
    ensures cause { Counts StopCause (S.faults store.old) (S.faults store.new) result }
    ensures draws { Counts DrawCause (N.faults names.old) (N.faults names.new) result }
{
    let found = load_deletable(alloc, store, table)?;
    write_deletion(alloc, store, clock, names, table, &found)
}

// Writes the new version of a table whose rows may be deleted.
fn write_deletion<S: Store, C: Clock, N: NameSource>(
    alloc: Global,
    store: &mut S,
    clock: &mut C,
    names: &mut N,
    folder: &Text,
    table: &Snapshot,
) -> Result<Bytes, Stop>
    requires { table.now.version + 1 < 2 ^ 63 }
    ensures answer { WhereTold (S.files store.old) (λ files. spec.deletable folder.now files ≡ Ok table.now)
        → CarriesOut (spec.delete_from folder.now)
        (outside (S.files store.old) (S.taken store.old) (N.given names.old) (C.given clock.old))
        result
        (outside (S.files store.new) (S.taken store.new) (N.given names.new) (C.given clock.new)) }
    ensures cause { Counts StopCause (S.faults store.old) (S.faults store.new) result }
    ensures draws { Counts DrawCause (N.faults names.old) (N.faults names.new) result }
{
    draw(names)?;
    let time = clock.now_ms();
    let fresh = deletion(alloc, folder, table, time)?;
    put_version(alloc, store, &fresh)
}

// The table's newest state, if its rows may be deleted.
fn load_deletable<S: Store>(alloc: Global, store: &mut S, table: &Text) -> Result<Snapshot, Stop>
    ensures found { TellsPlan (S.files store.old) (spec.deletable table.now) result }
    ensures room { IfOk result (λ found. found.version + 1 < 2 ^ 63) }
    ensures kept { S.files store.new ≡ S.files store.old }
    ensures cause { Counts StopCause (S.faults store.old) (S.faults store.new) result }
    ensures taken { S.taken store.new ≡ S.taken store.old }
{
    let loaded = load_table(alloc, store, table, None, Purpose::Write)?;
    check_head(alloc, &loaded.head)?;
    Ok(loaded.head.snapshot)
}

// Each rule can be kept, and rows may be taken away.
fn check_head(alloc: Global, head: &Head) -> Result<(), Stop>
    ensures { Passes (spec.head_check head.now) result }
{
    read_rules(alloc, head)?;
    check_changeable(&head.snapshot)?;
    Ok(())
}

// Rows may be taken away, and they have ids.
fn check_changeable(table: &Snapshot) -> Result<(), StatementRefusal>
    ensures { result ≡ spec.changeable table.now }
{
    if is_on(table, "delta.appendOnly") {
        return Err(StatementRefusal::AppendOnly);
    }
    if !tracks_rows(table) {
        return Err(StatementRefusal::RowTrackingOff);
    }
    Ok(())
}

// The new version.
fn deletion(
    alloc: Global,
    folder: &Text,
    table: &Snapshot,
    time: i64,
) -> Result<NewFiles, AllocError>
    requires { table.now.version + 1 < 2 ^ 63 }
    ensures { IfOk result (λ fresh. fresh ≡ spec.deletion folder.now table.now time) }
{
    Ok(NewFiles {
        version: table.version + 1,
        table: Text::from_str(alloc, folder.as_str())?,
        files: PathBytes::new(alloc),
        actions: delete_actions(alloc, table, time)?,
    })
}

// Where the commit comes from, and a remove for each live file.
fn delete_actions(alloc: Global, table: &Snapshot, time: i64) -> Result<Actions, AllocError>
    ensures { IfOk result (λ actions. actions ≡ spec.delete_actions table.now time) }
{
    let mut actions = Actions::new(alloc);
    actions.push(Action::Info(InfoAction {
        operation: Text::from_str(alloc, "DELETE")?,
        timestamp: time,
    }))?;
    push_removes(alloc, &mut actions, table.live.as_slice(), time)?;
    Ok(actions)
}

fn push_removes(
    alloc: Global,
    actions: &mut Actions,
    live: &[AddAction],
    time: i64,
) -> Result<(), AllocError>
    ensures { OnOk result
        (actions.new ≡ actions.old ++ map (λ add. action.Remove (removal_of time add)) live.now) }
{
    for add in live {
        actions.push(Action::Remove(remove_file(alloc, add, time)?))?;
    }
    Ok(())
}
