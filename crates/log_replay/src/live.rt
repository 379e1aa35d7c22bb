// The live files of a log.
ghost use Rattle.std.specs.Prelude.{◌≡◌, ◌++◌, ◌||◌, ℕ, List, Some, None, IfOk, OnOk, map, reverse, option_copied};
ghost use Rattle.delta_actions.specs.declared.action.AddAction.{AddAction as AnAdd};
ghost use Rattle.log_replay.specs.Changes.{adds, removes, mentions, last_adds};
ghost use Rattle.log_replay.specs.Live.{AreNumbered, live_adds, paths_of, added as added_of};
ghost use Rattle.log_replay.specs.StepsLive.{is_decided, undecided, Decides, DecidesAdd, DecidesRemove, removed as removed_of};

use crate::commits::{Commit, Commits};
use delta_actions::{Action, AddAction};
use dm_types::{Items, Text, TextList};
use std::alloc::{AllocError, Global};
use std::collections::BTreeSet;

/// What is kept of a live file.
pub(crate) trait Kept: Drop {
    /// What is kept of this file.
    ghost kept: { AnAdd → Self };

    fn keep(add: &AddAction) -> Result<Self, AllocError>
        ensures { IfOk result (λ it. it ≡ kept add.now) };
}

/// The path alone.
impl Kept for Text {
    ghost kept = { λ add. add.path };

    fn keep(add: &AddAction) -> Result<Text, AllocError> {
        add.path.clone()
    }
}

/// The whole action.
impl Kept for AddAction {
    ghost kept = { λ add. add };

    fn keep(add: &AddAction) -> Result<AddAction, AllocError> {
        add.clone()
    }
}

// What the newest actions decide: their paths, and what is kept of each file that is live. The set is
// ordered, so that no choice of paths makes a look-up slow.
#[derive(Drop)]
struct Newest<T> {
    decided: BTreeSet<Text>,
    // The file that stands last in the log first.
    kept: Items<T>,
}

/// The paths of the live files in log order: by version, then by line (PROTOCOL.md, "Action
/// Reconciliation").
///
/// The commits are numbered from 0.
pub fn live_paths(alloc: Global, commits: &Commits) -> Result<TextList, AllocError>
    requires { AreNumbered 0 commits.now }
    ensures { IfOk result (λ paths. paths ≡ paths_of (live_adds commits.now)) }
{
    live_files::<Text>(alloc, commits)
}

/// What is kept of the live files, in log order.
///
/// The log is gone through from its end, so the first action that is met of a path is its newest.
pub(crate) fn live_files<T: Kept>(alloc: Global, commits: &Commits) -> Result<Items<T>, AllocError>
    requires { AreNumbered 0 commits.now }
    ensures { IfOk result (λ files. files ≡ map T.kept (live_adds commits.now)) }
{
    let newest = decide_all::<T>(alloc, commits.as_slice())?;
    Ok(in_log_order(newest))
}

// What is kept of the live files, the one that was decided last first: that is log order.
fn in_log_order<T: Kept>(newest: Newest<T>) -> Items<T>
    ensures { result ≡ reverse newest.kept }
{
    let mut files = newest.kept.into_vec();
    files.reverse();
    Items::from_vec(files)
}

// What the newest actions of the log decide.
fn decide_all<T: Kept>(alloc: Global, commits: &[Commit]) -> Result<Newest<T>, AllocError>
    requires { AreNumbered 0 commits.now }
    ensures { IfOk result (λ newest. reverse newest.kept ≡ map T.kept (live_adds commits.now)) }
{
    let mut newest = Newest {
        decided: BTreeSet::new(alloc),
        kept: Items::new(alloc),
    };
    let mut rest = commits;
    while let Some((commit, earlier)) = rest.split_last() {
        decide_commit(&mut newest, commit.actions.as_slice())?;
        rest = earlier;
    }
    Ok(newest)
}

// What a commit decides: its adds stand behind its removes, whatever the order of its lines.
fn decide_commit<T: Kept>(newest: &mut Newest<T>, commit: &[Action]) -> Result<(), AllocError>
    ensures seen { OnOk result ((path : List ℕ) → is_decided newest.new.decided.keys path
        ≡ (is_decided newest.old.decided.keys path || mentions commit.now path)) }
    ensures live { OnOk result (reverse newest.new.kept
        ≡ map T.kept (undecided newest.old.decided.keys (last_adds commit.now)) ++ reverse newest.old.kept) }
{
    decide_adds(newest, commit)?;
    decide_removes(newest, commit)?;
    Ok(())
}

// The adds of a commit, the last first.
fn decide_adds<T: Kept>(newest: &mut Newest<T>, commit: &[Action]) -> Result<(), AllocError>
    ensures seen { OnOk result ((path : List ℕ) → is_decided newest.new.decided.keys path
        ≡ (is_decided newest.old.decided.keys path || adds commit.now path)) }
    ensures live { OnOk result (reverse newest.new.kept
        ≡ map T.kept (undecided newest.old.decided.keys (last_adds commit.now)) ++ reverse newest.old.kept) }
{
    let mut rest = commit;
    while let Some((action, earlier)) = rest.split_last() {
        decide_add(newest, action)?;
        rest = earlier;
    }
    Ok(())
}

// Decides the path of an add; other actions decide nothing here.
fn decide_add<T: Kept>(newest: &mut Newest<T>, action: &Action) -> Result<(), AllocError>
    ensures { OnOk result (DecidesAdd T.kept newest.old.decided.keys newest.new.decided.keys
        newest.old.kept newest.new.kept (added_of action.now)) }
{
    match added(action) {
        Some(add) => decide_added(newest, add),
        None => Ok(()),
    }
}

// The path of a file that is added, if no newer action has decided it; only then it is kept.
fn decide_added<T: Kept>(newest: &mut Newest<T>, add: &AddAction) -> Result<(), AllocError>
    ensures { OnOk result (Decides newest.old.decided.keys newest.new.decided.keys
        newest.old.kept newest.new.kept add.now.path (Some (T.kept add.now))) }
{
    if !newest.decided.contains(&add.path) {
        newest.decided.insert(add.path.clone()?)?;
        newest.kept.push(T::keep(add)?)?;
    }
    Ok(())
}

// The removes of a commit.
fn decide_removes<T: Kept>(newest: &mut Newest<T>, commit: &[Action]) -> Result<(), AllocError>
    ensures seen { OnOk result ((path : List ℕ) → is_decided newest.new.decided.keys path
        ≡ (is_decided newest.old.decided.keys path || removes commit.now path)) }
    ensures live { OnOk result (newest.new.kept ≡ newest.old.kept) }
{
    for action in commit {
        decide_remove(newest, action)?;
    }
    Ok(())
}

// Decides the path of a remove; other actions decide nothing here.
fn decide_remove<T: Kept>(newest: &mut Newest<T>, action: &Action) -> Result<(), AllocError>
    ensures { OnOk result (DecidesRemove newest.old.decided.keys newest.new.decided.keys
        newest.old.kept newest.new.kept (removed_of action.now)) }
{
    match removed(action) {
        Some(path) => decide_removed(newest, path),
        None => Ok(()),
    }
}

// A path that is removed, if no newer action has decided it.
fn decide_removed<T: Kept>(newest: &mut Newest<T>, path: &Text) -> Result<(), AllocError>
    ensures { OnOk result (Decides newest.old.decided.keys newest.new.decided.keys
        newest.old.kept newest.new.kept path.now None) }
{
    if !newest.decided.contains(path) {
        newest.decided.insert(path.clone()?)?;
    }
    Ok(())
}

// The file that an action adds.
fn added(action: &Action) -> Option<&AddAction>
    ensures { option_copied result ≡ added_of action.now }
{
    match action {
        Action::Add(add) => Some(add),
        _ => None,
    }
}

// The path that an action removes.
fn removed(action: &Action) -> Option<&Text>
    ensures { option_copied result ≡ removed_of action.now }
{
    match action {
        Action::Remove(remove) => Some(&remove.path),
        _ => None,
    }
}
