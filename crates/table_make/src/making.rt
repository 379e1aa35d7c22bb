// Making a table.
ghost use Rattle.std.specs.Prelude.{◌≡◌, [], IfOk};
ghost use Rattle.dm_store.specs.Causes.{Counts, DrawCause};
ghost use Rattle.table_make.specs.Making.{Judges, MakesTable};

use crate::creation::created;
use crate::faults::first_fault;
use commit_log::NewFiles;
use dm_store::{Clock, NameSource};
use dm_types::{StatementRefusal, Stop, Text};
use file_names::draw;
use sql_statements::CreateStmt;
use std::alloc::Global;

/// The first version of a table in this folder, which is its commit file alone.
///
/// A definition with faults is refused with the least place of all its faults (`BadDefinition`), in
/// bytes from the script's first. Else one name is drawn, and then the clock is read once.
pub fn make<C: Clock, N: NameSource>(
    alloc: Global,
    stmt: &CreateStmt,
    table: &Text,
    clock: &mut C,
    names: &mut N,
) -> Result<NewFiles, Stop>
    ensures made { MakesTable stmt.now table.now (N.given names.old, C.given clock.old)
        (N.given names.new, C.given clock.new) result }
    ensures alone { IfOk result (λ fresh. fresh.files ≡ []) }
    ensures draws { Counts DrawCause (N.faults names.old) (N.faults names.new) result }
{
    check_definition(alloc, stmt)?;
    let drawn = draw(names)?;
    let time = clock.now_ms();
    Ok(created(alloc, stmt, table, &drawn, time)?)
}

// The definition has no fault.
fn check_definition(alloc: Global, stmt: &CreateStmt) -> Result<(), Stop>
    ensures { Judges stmt.now result }
{
    match first_fault(alloc, stmt)? {
        None => Ok(()),
        Some(at) => {
            let at = at as u64;
            Err(StatementRefusal::BadDefinition { at }.into())
        }
    }
}
