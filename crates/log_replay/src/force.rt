// What is in force in a log.
ghost use Rattle.std.specs.Prelude.{◌≡◌, List, Option, Some, None, IfOk, option_copied, int_lt, if◌then◌else◌};
ghost use Rattle.std.specs.Option.{option_or};
ghost use Rattle.delta_actions.specs.declared.action.Action.{Action as AnAction};
ghost use Rattle.log_replay.specs.Force as spec;
ghost use Rattle.log_replay.specs.StepsForce.{mark_behind as mark_behind_of};

use crate::commits::Commit;
use delta_actions::{Action, DomainAction, MetadataAction, ProtocolAction, row_id_mark};
use std::alloc::{AllocError, Global};

/// The name of the domain of row tracking (PROTOCOL.md, "Row Tracking").
const ROW_TRACKING: &str = "delta.rowTracking";

/// The mark where no row id is given.
const NO_MARK: i64 = -1;

/// What an action says, of which the last in log order is in force.
pub(crate) trait Said {
    /// What this action says of it.
    ghost says: { AnAction → Option Self };

    fn said(action: &Action) -> Option<&Self>
        ensures { option_copied result ≡ says action.now };
}

impl Said for MetadataAction {
    ghost says = { spec.metadata_in };

    fn said(action: &Action) -> Option<&MetadataAction> {
        match action {
            Action::Metadata(metadata) => Some(metadata),
            _ => None,
        }
    }
}

impl Said for ProtocolAction {
    ghost says = { spec.protocol_in };

    fn said(action: &Action) -> Option<&ProtocolAction> {
        match action {
            Action::Protocol(protocol) => Some(protocol),
            _ => None,
        }
    }
}

/// The domain of row tracking alone.
impl Said for DomainAction {
    ghost says = { spec.tracking_in };

    fn said(action: &Action) -> Option<&DomainAction> {
        match action {
            Action::Domain(domain) if domain.domain.is(ROW_TRACKING) => Some(domain),
            _ => None,
        }
    }
}

/// What is in force of this kind, if any of it stands in the log.
pub(crate) fn in_force<T: Said>(commits: &[Commit]) -> Option<&T>
    ensures { option_copied result ≡ spec.in_force T.says commits.now }
{
    let mut rest = commits;
    while let Some((commit, earlier)) = rest.split_last() {
        if let Some(found) = last_said(commit.actions.as_slice()) {
            return Some(found);
        }
        rest = earlier;
    }
    None
}

// The last of what actions say of this kind.
fn last_said<T: Said>(actions: &[Action]) -> Option<&T>
    ensures { option_copied result ≡ spec.last_said T.says actions.now }
{
    let mut rest = actions;
    while let Some((action, earlier)) = rest.split_last() {
        if let Some(found) = T::said(action) {
            return Some(found);
        }
        rest = earlier;
    }
    None
}

/// The row id mark of a log, and whether it fell on the way.
#[derive(Drop)]
pub(crate) struct Marks {
    /// The mark in force.
    pub(crate) mark: i64,
    /// The first mark that is below the one before it.
    pub(crate) fallen: Option<i64>,
}

/// The marks of a log, commit by commit.
pub(crate) fn follow_marks(alloc: Global, commits: &[Commit]) -> Result<Marks, AllocError>
    ensures mark { IfOk result (λ marks. marks.mark ≡ spec.mark_in_force commits.now) }
    ensures fallen { IfOk result (λ marks. marks.fallen ≡ spec.fallen commits.now) }
{
    let mut mark = NO_MARK;
    let mut fallen = None;
    for commit in commits {
        let before = mark;
        mark = mark_behind(alloc, before, commit)?;
        fallen = first_fall(fallen, before, mark);
    }
    Ok(Marks { mark, fallen })
}

// The first mark that fell, with one more step.
fn first_fall(fallen: Option<i64>, before: i64, mark: i64) -> Option<i64>
    ensures { result ≡ option_or fallen (if int_lt mark before then Some mark else None) }
{
    match fallen {
        Some(_) => fallen,
        None if mark < before => Some(mark),
        None => None,
    }
}

// The mark behind a commit, from the one before it.
fn mark_behind(alloc: Global, before: i64, commit: &Commit) -> Result<i64, AllocError>
    ensures { IfOk result
        (λ mark. mark ≡ mark_behind_of before (spec.last_said spec.tracking_in commit.now.actions)) }
{
    match last_said::<DomainAction>(commit.actions.as_slice()) {
        Some(domain) => domain_mark(alloc, domain),
        None => Ok(before),
    }
}

// The mark of a domain.
fn domain_mark(alloc: Global, domain: &DomainAction) -> Result<i64, AllocError>
    ensures { IfOk result (λ mark. mark ≡ spec.domain_mark domain.now) }
{
    if domain.removed.unwrap_or(false) {
        return Ok(NO_MARK);
    }
    Ok(row_id_mark(alloc, domain)?.unwrap_or(NO_MARK))
}
