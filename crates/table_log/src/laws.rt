// What stays of tables when files are added.
ghost use Rattle.table_log.specs.Agree.{FrameUnseen, FrameNext, SaysNext, NextIsAbsent, FrameFirst, SaysFirst, FirstIsAbsent};

/// A law: files that no table has as commit files change no version.
pub fn unseen_files_change_nothing()
    ensures { FrameUnseen }
{}

/// A law: the commit file of a table's next version, behind files that are no commit files, changes
/// that version alone.
pub fn next_version_stands_alone()
    ensures { FrameNext }
{}

/// A law: what the next version then says.
pub fn says_next()
    ensures { SaysNext }
{}

/// A law: a table's next version has no commit file yet.
pub fn next_is_absent()
    ensures { NextIsAbsent }
{}

/// A law: the commit file of a table's first version, behind files that are no commit files, changes no
/// other table.
pub fn first_version_stands_alone()
    ensures { FrameFirst }
{}

/// A law: what the first version of a table without commit files then says.
pub fn says_first()
    ensures { SaysFirst }
{}

/// A law: a table without commit files has no first version yet.
pub fn first_is_absent()
    ensures { FirstIsAbsent }
{}
