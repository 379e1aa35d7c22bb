// The answer of CREATE TABLE.
ghost use Rattle.std.specs.Prelude.{◌≡◌};
ghost use Rattle.dm_store.specs.Causes.{Counts, StopCause, DrawCause};
ghost use Rattle.table_write.specs.Create as spec;
ghost use Rattle.table_write.specs.Outside.{outside};
ghost use Rattle.table_write.specs.StepsWriting.{TellsPlan};
ghost use Rattle.table_write.specs.Writing.{CarriesOut};

use crate::writing::put_version;
use dm_store::{Clock, NameSource, Store};
use dm_types::{Bytes, StatementRefusal, Stop, Text};
use sql_statements::CreateStmt;
use std::alloc::Global;
use table_log::list_versions;
use table_make::make;

/// The text of CREATE TABLE, in this folder: the number of the table's first version.
///
/// A table that has a commit file is refused (`TableExists`), then a definition with faults
/// (`BadDefinition`). After these checks one name is drawn, and then the clock is read once.
pub fn create_table<S: Store, C: Clock, N: NameSource>(
    alloc: Global,
    store: &mut S,
    clock: &mut C,
    names: &mut N,
    folder: &Text,
    stmt: &CreateStmt,
) -> Result<Bytes, Stop>
    ensures answer { CarriesOut (spec.create_table folder.now stmt.now)
        (outside (S.files store.old) (S.taken store.old) (N.given names.old) (C.given clock.old))
        result
        (outside (S.files store.new) (S.taken store.new) (N.given names.new) (C.given clock.new)) }
    ensures cause { Counts StopCause (S.faults store.old) (S.faults store.new) result }
    ensures draws { Counts DrawCause (N.faults names.old) (N.faults names.new) result }
{
    check_absent(alloc, store, folder)?;
    write_table(alloc, store, clock, names, folder, stmt)
}

// The table has no commit file.
fn check_absent<S: Store>(alloc: Global, store: &mut S, folder: &Text) -> Result<(), Stop>
    ensures absent { TellsPlan (S.files store.old) (spec.absent folder.now) result }
    ensures kept { S.files store.new ≡ S.files store.old }
    ensures cause { Counts StopCause (S.faults store.old) (S.faults store.new) result }
    ensures taken { S.taken store.new ≡ S.taken store.old }
{
    let versions = list_versions(alloc, store, folder)?;
    if versions.is_empty() {
        return Ok(());
    }
    Err(StatementRefusal::TableExists.into())
}

// Writes the first version of a table that isn't there.
fn write_table<S: Store, C: Clock, N: NameSource>(
    alloc: Global,
    store: &mut S,
    clock: &mut C,
    names: &mut N,
    folder: &Text,
    stmt: &CreateStmt,
) -> Result<Bytes, Stop>
    ensures answer { TellsPlan (S.files store.old) (spec.absent folder.now) (Ok tt)
        → CarriesOut (spec.create_table folder.now stmt.now)
        (outside (S.files store.old) (S.taken store.old) (N.given names.old) (C.given clock.old))
        result
        (outside (S.files store.new) (S.taken store.new) (N.given names.new) (C.given clock.new)) }
    ensures cause { Counts StopCause (S.faults store.old) (S.faults store.new) result }
    ensures draws { Counts DrawCause (N.faults names.old) (N.faults names.new) result }
{
    let fresh = make(alloc, stmt, folder, clock, names)?;
    put_version(alloc, store, &fresh)
}
