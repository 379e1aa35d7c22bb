// What the members of a log decide, what one more commit does to the live files, and where these
// come from.
ghost use Rattle.std.specs.Prelude.{◌≡◌, [], ◌∷◌, ◌++◌, List, true, false, length, filter, not};
ghost use Rattle.std.specs.List.{All};
ghost use Rattle.delta_actions.specs.Writable.{HasForm};
ghost use Rattle.delta_actions.specs.declared.action.Action.TheVariants as action;
ghost use Rattle.log_replay.specs.declared.commits.Commit.{Commit as ACommit};
ghost use Rattle.log_replay.specs.Numbers.{MembersDecide};
ghost use Rattle.log_replay.specs.Live.{AreNumbered, live_adds, paths_of, is_add};
ghost use Rattle.log_replay.specs.Changes.{mentions, removes, last_adds};

/// A law: the newest version, or the fault, is told by the members of a list alone, whatever their
/// order and how often they stand there.
pub fn members_decide()
    ensures { MembersDecide }
{}

/// A law: one more commit takes away the live files whose paths it mentions, and then adds the files
/// that it adds, each path where it is added last (PROTOCOL.md, "Action Reconciliation"). The commits
/// stay numbered.
pub fn live_after_commit()
    ensures numbers { (commits : List ACommit) → (commit : ACommit) → AreNumbered 0 commits
        → commit.version ≡ length commits → AreNumbered 0 (commits ++ commit ∷ []) }
    ensures live { (commits : List ACommit) → (commit : ACommit) → AreNumbered 0 commits
        → commit.version ≡ length commits → live_adds (commits ++ commit ∷ [])
        ≡ filter (λ add. not (mentions commit.actions add.path)) (live_adds commits) ++ last_adds commit.actions }
{}

/// A law: no file is live behind a commit that adds none and removes the path of each that was live.
pub fn removal_of_all()
    ensures { (commits : List ACommit) → (commit : ACommit) → AreNumbered 0 commits → commit.version ≡ length commits
        → All (λ a. is_add a ≡ false) commit.actions
        → All (λ path. removes commit.actions path ≡ true) (paths_of (live_adds commits))
        → live_adds (commits ++ commit ∷ []) ≡ [] }
{}

/// A law: what is live was added by the log, so it has the form of an add where every action of the
/// log has the form of its kind.
pub fn forms_of_live()
    ensures { (commits : List ACommit) → All (λ commit. All HasForm commit.actions) commits
        → All (λ add. HasForm (action.Add add)) (live_adds commits) }
{}
