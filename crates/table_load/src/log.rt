// Loading the log of a table.
ghost use Rattle.std.specs.Prelude.{◌≡◌, ◌+◌, IfOk};
ghost use Rattle.std.specs.List.{All};
ghost use Rattle.std.specs.List.Sorted.{IsStrictlySortedBy};
ghost use Rattle.std.specs.Ordering.{nat_cmp};
ghost use Rattle.dm_store.specs.Causes.{Counts, StopCause};
ghost use Rattle.log_replay.specs.Live.{AreNumbered};
ghost use Rattle.table_log.specs.Listed.{IsVersion};
ghost use Rattle.table_log.specs.Log.{log_of};
ghost use Rattle.table_log.specs.Versions.{of_numbers, commits_at, commits_below, commit_at};
ghost use Rattle.log_replay.specs.Numbers.{newest_of};
ghost use Rattle.table_load.specs.StepsLoading.{Gives, version_among as among};
ghost use Rattle.table_load.specs.Tells.{Tells};

use delta_actions::{ActionFault, Actions, read_commit};
use dm_store::{ReadFault, Store};
use dm_types::{CountList, Counted, Stop, TableRefusal, Text};
use log_replay::{Commits, NumberFault, check_numbers, laws, push_commit};
use std::alloc::{AllocError, Global};
use std::collections::BTreeSet;
use table_log::{list_versions, read_version};

/// The commits of a table up to a version, or up to the newest where none is asked for (PROTOCOL.md,
/// "Delta Log Entries").
///
/// The first of these is refused: a log folder without a commit file (`NoTable`), or with more of
/// them than a log may have (`TooLarge`), a version below the newest that is missing (`LogGap`), a
/// version that isn't there (`NoSuchVersion`), a commit file with a line that is no action
/// (`BadAction`).
pub fn load_log<S: Store>(
    alloc: Global,
    store: &mut S,
    table: &Text,
    version: Option<u64>,
) -> Result<Commits, Stop>
    ensures commits { Tells (S.files store.old) (λ files. commits_at version (log_of table.now files)) result }
    ensures numbered { IfOk result (AreNumbered 0) }
    ensures kept { S.files store.new ≡ S.files store.old }
    ensures cause { Counts StopCause (S.faults store.old) (S.faults store.new) result }
    ensures taken { S.taken store.new ≡ S.taken store.old }
{
    let versions = list_versions(alloc, store, table)?;
    laws::members_decide();
    let last = version_among(alloc, &versions, version)?;
    read_commits(alloc, store, table, last)
}

// The version that is asked for, or else the newest.
fn version_among(alloc: Global, versions: &BTreeSet<u64>, asked: Option<u64>) -> Result<u64, Stop>
    requires { All IsVersion versions.now.keys }
    ensures version { Gives (among asked versions.now.keys) result }
    ensures small { IfOk result IsVersion }
{
    let newest = newest_version(alloc, versions)?;
    match asked {
        None => Ok(newest),
        Some(version) if version > newest => Err(TableRefusal::NoSuchVersion { version }.into()),
        Some(version) => Ok(version),
    }
}

// The newest version, if there aren't too many and no older one is missing.
fn newest_version(alloc: Global, versions: &BTreeSet<u64>) -> Result<u64, Stop>
    requires { All IsVersion versions.now.keys }
    ensures newest { Gives (of_numbers (newest_of versions.now.keys)) result }
    ensures small { IfOk result IsVersion }
{
    let sorted = ascending(alloc, versions)?;
    match check_numbers(sorted.as_slice()) {
        Ok(newest) => Ok(newest),
        Err(NumberFault::Nothing) => Err(TableRefusal::NoTable.into()),
        Err(NumberFault::TooMany) => {
            let counted = Counted::Commits;
            Err(TableRefusal::TooLarge { counted }.into())
        }
        Err(NumberFault::Gap { version }) => Err(TableRefusal::LogGap { version }.into()),
    }
}

fn ascending(alloc: Global, versions: &BTreeSet<u64>) -> Result<CountList, AllocError>
    ensures same { IfOk result (λ sorted. sorted ≡ versions.now.keys) }
    ensures ascending { IfOk result (λ sorted. IsStrictlySortedBy nat_cmp sorted) }
{
    let sorted = versions.iter().copied().collect(alloc)?;
    Ok(CountList::from_vec(sorted))
}

// The commits from version 0 to this one.
fn read_commits<S: Store>(
    alloc: Global,
    store: &mut S,
    table: &Text,
    last: u64,
) -> Result<Commits, Stop>
    requires { IsVersion last }
    ensures commits { Tells (S.files store.old) (λ files. commits_below (log_of table.now files) (last + 1)) result }
    ensures numbered { IfOk result (AreNumbered 0) }
    ensures kept { S.files store.new ≡ S.files store.old }
    ensures cause { Counts StopCause (S.faults store.old) (S.faults store.new) result }
    ensures taken { S.taken store.new ≡ S.taken store.old }
{
    let mut commits = Commits::new(alloc);
    for version in 0..last + 1 {
        let actions = load_commit(alloc, store, table, version)?;
        push_commit(&mut commits, actions)?;
    }
    Ok(commits)
}

// The actions of a version.
fn load_commit<S: Store>(
    alloc: Global,
    store: &mut S,
    table: &Text,
    version: u64,
) -> Result<Actions, Stop>
    requires { IsVersion version }
    ensures commit { Tells (S.files store.old) (λ files. commit_at (log_of table.now files) version) result }
    ensures kept { S.files store.new ≡ S.files store.old }
    ensures cause { Counts StopCause (S.faults store.old) (S.faults store.new) result }
    ensures taken { S.taken store.new ≡ S.taken store.old }
{
    match read_version(alloc, store, table, version) {
        Ok(bytes) => match read_commit(alloc, bytes.as_slice()) {
            Ok(actions) => Ok(actions),
            Err(ActionFault::BadAction { line }) => {
                Err(TableRefusal::BadAction { version, line }.into())
            }
            Err(ActionFault::Memory) => Err(Stop::Memory),
        },
        Err(ReadFault::Absent) => Err(TableRefusal::LogGap { version }.into()),
        Err(ReadFault::Failed) => Err(Stop::Store),
        Err(ReadFault::Memory) => Err(Stop::Memory),
    }
}
