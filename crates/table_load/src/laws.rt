// What is known of opened tables by their definition alone, and what stays of them when files are
// added.
ghost use Rattle.std.specs.Prelude.{◌≡◌, ℕ, List, Option, All, false, Ok};
ghost use Rattle.dm_store.specs.Files.{Files};
ghost use Rattle.table_load.specs.Agree.{HeldBesideFirst, HeldBesideNext, HeldByUnseen, HeldElsewhere};
ghost use Rattle.table_load.specs.Held.{Opened, opened_at};

use table_log::{
    first_version_stands_alone, next_version_stands_alone, unseen_files_change_nothing,
};

/// A law: no live file of a table that is opened has a deletion vector.
pub fn opened_files_are_plain()
    ensures { (folder : List ℕ) (asked : Option ℕ) (files : Files) (it : Opened) → opened_at folder asked files ≡ Ok it
        → All (λ add. add.deletion_vector ≡ false) it.head.snapshot.live }
{}

/// A law: files that no log lists change no version of any table, but that a file that was missing may
/// be there.
pub fn unseen_files_keep_states()
    ensures { HeldByUnseen }
{
    unseen_files_change_nothing();
}

/// A law: unseen files, and behind them the commit file of the version behind a table's newest, change
/// that version alone, but that a file that was missing may be there.
pub fn next_version_keeps_states()
    ensures beside { HeldBesideNext }
    ensures elsewhere { HeldElsewhere }
{
    next_version_stands_alone();
}

/// A law: unseen files, and behind them the commit file of a table's first version, change no version of
/// another table, but that a file that was missing may be there.
pub fn first_version_keeps_states()
    ensures { HeldBesideFirst }
{
    first_version_stands_alone();
}
