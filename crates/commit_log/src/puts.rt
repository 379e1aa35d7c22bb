// Putting the files of a new version.
ghost use Rattle.std.specs.Prelude.{◌≡◌, ◌<◌, [], length, get_or, IfOk};
ghost use Rattle.std.specs.List.{IsDistinct};
ghost use Rattle.std.specs.Str.{bytes_eq};
ghost use Rattle.dm_store.specs.Causes.{Counts};
ghost use Rattle.commit_log.specs.Block.{AreApart, whole_paths};
ghost use Rattle.commit_log.specs.Commits.{Commits, IsBuilt, CommitCause, CommitTaken};
ghost use Rattle.commit_log.specs.StepsPutting.{PutsFile, PutsFiles, PutCause, PutTaken, PutsCommit, with_paths};
ghost use Rattle.commit_log.specs.declared.fault.CommitFault.TheVariants.{NameTaken};

use crate::fault::CommitFault;
use crate::new_files::NewFiles;
use delta_actions::write_commit;
use dm_store::{PutFault, Store};
use dm_types::{Bytes, Text, TextList};
use std::alloc::{AllocError, Global};
use table_log::{commit_path, path_below};

// Why a file before the commit file wasn't put.
#[derive(Drop)]
pub(crate) enum FileFault {
    // The path at this place is taken.
    Exists { index: usize },
    Failed,
    Memory,
}

/// Adds a version to a table, and gives its number: the files are put in their order, and the commit
/// file last (PROTOCOL.md, "Delta Log Entries").
///
/// The paths differ, and none is that of the commit file. All that is put is built before the first
/// put. After `NameTaken` and `Memory` the version isn't there; after `VersionTaken` another writer's
/// commit file stands at its path; after `Failed` the version is absent or whole.
pub fn commit<S: Store>(alloc: Global, store: &mut S, fresh: &NewFiles) -> Result<u64, CommitFault>
    requires { AreApart fresh.now }
    ensures files { Commits fresh.now (S.files store.old) (S.files store.new) result }
    ensures built { IsBuilt fresh.now result }
    ensures cause { Counts CommitCause (S.faults store.old) (S.faults store.new) result }
    ensures taken { Counts CommitTaken (S.taken store.old) (S.taken store.new) result }
{
    let path = commit_path(alloc, &fresh.table, fresh.version)?;
    let bytes = write_commit(alloc, &fresh.actions)?;
    let paths = paths_of(alloc, fresh)?;
    match put_files(store, paths.as_slice(), fresh.files.as_slice()) {
        Ok(()) => put_commit(store, path.as_str(), &bytes, fresh.version),
        Err(FileFault::Exists { index }) => Err(taken(paths, index)),
        Err(FileFault::Failed) => Err(CommitFault::Failed),
        Err(FileFault::Memory) => Err(CommitFault::Memory),
    }
}

// The whole paths of the files.
fn paths_of(alloc: Global, fresh: &NewFiles) -> Result<TextList, AllocError>
    ensures { IfOk result (λ paths. paths ≡ whole_paths fresh.now) }
{
    let mut paths = TextList::new(alloc);
    for file in fresh.files.as_slice() {
        paths.push(path_below(&fresh.table, &file.0)?)?;
    }
    Ok(paths)
}

// Puts the files in their order under these paths.
fn put_files<S: Store>(
    store: &mut S,
    paths: &[Text],
    files: &[(Text, Bytes)],
) -> Result<(), FileFault>
    requires pairs { length paths.now ≡ length files.now }
    requires distinct { IsDistinct bytes_eq paths.now }
    ensures files { PutsFiles (with_paths paths.now files.now) (S.files store.old) (S.files store.new) result }
    ensures cause { Counts PutCause (S.faults store.old) (S.faults store.new) result }
    ensures taken { Counts PutTaken (S.taken store.old) (S.taken store.new) result }
{
    for index in 0..files.len() {
        put_file(store, index, paths[index].as_str(), &files[index].1)?;
    }
    Ok(())
}

// Puts the file at a place of the list.
fn put_file<S: Store>(
    store: &mut S,
    index: usize,
    path: &str,
    bytes: &Bytes,
) -> Result<(), FileFault>
    ensures files { PutsFile index path.now bytes.now (S.files store.old) (S.files store.new) result }
    ensures cause { Counts PutCause (S.faults store.old) (S.faults store.new) result }
    ensures taken { Counts PutTaken (S.taken store.old) (S.taken store.new) result }
{
    match store.put_new(path, bytes.as_slice()) {
        Ok(()) => Ok(()),
        Err(PutFault::Exists) => Err(FileFault::Exists { index }),
        Err(PutFault::Failed) => Err(FileFault::Failed),
        Err(PutFault::Memory) => Err(FileFault::Memory),
    }
}

// The path at this place was taken.
fn taken(paths: TextList, index: usize) -> CommitFault
    requires { index < length paths }
    ensures { result ≡ NameTaken (get_or paths index []) }
{
    let mut paths = paths.into_vec();
    CommitFault::NameTaken {
        path: paths.swap_remove(index),
    }
}

// Puts the commit file.
fn put_commit<S: Store>(
    store: &mut S,
    path: &str,
    bytes: &Bytes,
    version: u64,
) -> Result<u64, CommitFault>
    ensures files { PutsCommit version path.now bytes.now (S.files store.old) (S.files store.new) result }
    ensures cause { Counts CommitCause (S.faults store.old) (S.faults store.new) result }
    ensures taken { Counts CommitTaken (S.taken store.old) (S.taken store.new) result }
{
    match store.put_new(path, bytes.as_slice()) {
        Ok(()) => Ok(version),
        Err(PutFault::Exists) => Err(CommitFault::VersionTaken { version }),
        Err(PutFault::Failed) => Err(CommitFault::Failed),
        Err(PutFault::Memory) => Err(CommitFault::Memory),
    }
}
