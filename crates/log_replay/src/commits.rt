// The commits of a log.
ghost use Rattle.std.specs.Prelude.{◌≡◌, [], ◌∷◌, ◌++◌, length, OnOk, OnErr};
ghost use Rattle.log_replay.specs.Live.{AreNumbered, numbered};

use delta_actions::Actions;
use dm_types::Items;
use std::alloc::AllocError;

/// A version of a table, and the actions of its commit file in the order of its lines.
#[derive(Drop)]
pub struct Commit {
    /// The version's number.
    pub version: u64,
    /// Its actions.
    pub actions: Actions,
}

/// The commits of a log, from version 0 on.
pub type Commits = Items<Commit>;

/// Adds the next commit to commits that are numbered from 0. Its version is how many there were
/// (PROTOCOL.md, "Delta Log Entries").
pub fn push_commit(commits: &mut Commits, actions: Actions) -> Result<(), AllocError>
    requires { AreNumbered 0 commits.old }
    ensures pushed { OnOk result (commits.new ≡ commits.old ++ numbered (length commits.old) actions ∷ []) }
    ensures kept { OnErr result (commits.new ≡ commits.old) }
    ensures numbers { AreNumbered 0 commits.new }
{
    let version = commits.len() as u64;
    commits.push(Commit { version, actions })?;
    Ok(())
}
