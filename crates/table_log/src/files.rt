// Looking into the log of a table.
ghost use Rattle.std.specs.Prelude.{◌≡◌, ℕ, IfOk, OnOk};
ghost use Rattle.std.specs.List.{All, cons_option};
ghost use Rattle.dm_store.specs.Causes.{Counts, ListCause, ReadCause};
ghost use Rattle.log_replay.specs.Numbers.{is_in};
ghost use Rattle.table_log.specs.Listed.{IsVersion, ListsVersions, ReadsVersion};
ghost use Rattle.table_log.specs.Log as spec;

use crate::paths::{commit_path, log_folder, version_of};
use dm_store::{ListFault, ReadFault, Store};
use dm_types::{Bytes, Text};
use std::alloc::{AllocError, Global};
use std::collections::BTreeSet;

/// The versions of a table that have a commit file. Other files of the log folder are passed by.
pub fn list_versions<S: Store>(
    alloc: Global,
    store: &mut S,
    table: &Text,
) -> Result<BTreeSet<u64>, ListFault>
    ensures versions { ListsVersions table.now (S.files store.old) result }
    ensures small { IfOk result (λ versions. All IsVersion versions.keys) }
    ensures kept { S.files store.new ≡ S.files store.old }
    ensures cause { Counts ListCause (S.faults store.old) (S.faults store.new) result }
    ensures taken { S.taken store.new ≡ S.taken store.old }
{
    let folder = log_folder(alloc, table)?;
    let names = store.list(alloc, folder.as_str())?;
    let mut versions = BTreeSet::new(alloc);
    for name in names.as_slice() {
        add_version(&mut versions, name.as_str())?;
    }
    Ok(versions)
}

// Adds the version that a name spells; other names are passed by.
fn add_version(versions: &mut BTreeSet<u64>, name: &str) -> Result<(), AllocError>
    ensures added { OnOk result ((n : ℕ) → is_in n versions.new.keys
        ≡ is_in n (cons_option (spec.version_of name.now) versions.old.keys)) }
    ensures small { OnOk result (All IsVersion versions.old.keys → All IsVersion versions.new.keys) }
{
    if let Some(version) = version_of(name) {
        versions.insert(version)?;
    }
    Ok(())
}

/// The bytes of a version's commit file.
pub fn read_version<S: Store>(
    alloc: Global,
    store: &mut S,
    table: &Text,
    version: u64,
) -> Result<Bytes, ReadFault>
    requires { IsVersion version }
    ensures bytes { ReadsVersion table.now version (S.files store.old) result }
    ensures kept { S.files store.new ≡ S.files store.old }
    ensures cause { Counts ReadCause (S.faults store.old) (S.faults store.new) result }
    ensures taken { S.taken store.new ≡ S.taken store.old }
{
    let path = commit_path(alloc, table, version)?;
    store.read(alloc, path.as_str())
}
