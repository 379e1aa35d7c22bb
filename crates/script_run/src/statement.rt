// The answer of one statement.
ghost use Rattle.std.specs.Prelude.{◌≡◌, IfOk};
ghost use Rattle.dm_store.specs.Causes.{Counts, DrawCause, StopCause};
ghost use Rattle.script_run.specs.Running as spec;
ghost use Rattle.table_write.specs.Outside.{outside};

use crate::selected::select;
use crate::shown::show_files;
use crate::shown_rows::show_rows;
use dm_store::{Clock, NameSource, Store};
use dm_types::{Bytes, Stop, Text};
use sql_reader::Stmt;
use std::alloc::{AllocError, Global};
use std::sync::ledger::Ledger;
use step_count::Steps;
use table_log::path_below;
use table_write::{create_table, delete_from};

/// Runs a statement on the tables below a root, and returns its text.
///
/// The folder of table `t` is `ROOT/t`, or `t` where the root is the empty text. A statement that only
/// reads leaves everything as it was. A write statement draws one name and then reads the clock once,
/// if its checks pass.
///
/// No statement takes steps yet, so the counter stays.
///
/// # Errors
///
/// `Refused` with the first refusal of the statement; `Store` and `Names` only where a call of theirs
/// failed, which raised their count; `Memory`. At each other answer the counts are as before.
pub fn run_statement<S: Store, C: Clock, N: NameSource, L: Ledger>(
    alloc: Global,
    statement: &Stmt,
    root: &Text,
    store: &mut S,
    clock: &mut C,
    names: &mut N,
    steps: &mut Steps<L>,
) -> Result<Bytes, Stop>
    ensures answer { let old = outside
        (S.files store.old) (S.taken store.old) (N.given names.old) (C.given clock.old) in
        let new = outside (S.files store.new) (S.taken store.new) (N.given names.new) (C.given clock.new) in
        spec.Answers root.now statement.now old result new }
    ensures cause { Counts StopCause (S.faults store.old) (S.faults store.new) result }
    ensures draws { Counts DrawCause (N.faults names.old) (N.faults names.new) result }
    ensures steps { steps.new ≡ steps.old }
{
    match statement {
        Stmt::ShowFiles { table } => show_files(alloc, store, &folder_of(root, &table.text)?),
        Stmt::ShowRows { table, version } => {
            show_rows(alloc, store, &folder_of(root, &table.text)?, *version)
        }
        Stmt::Select {
            items,
            table,
            version,
            condition,
        } => select(
            alloc,
            store,
            &folder_of(root, &table.text)?,
            &table.text,
            *version,
            items,
            condition.as_ref(),
        ),
        Stmt::Create(create) => {
            let folder = folder_of(root, &create.table.text)?;
            create_table(alloc, store, clock, names, &folder, create)
        }
        Stmt::Delete { table } => {
            delete_from(alloc, store, clock, names, &folder_of(root, &table.text)?)
        }
    }
}

// The folder of a table below a root.
fn folder_of(root: &Text, table: &Text) -> Result<Text, AllocError>
    ensures { IfOk result (λ folder. folder ≡ spec.folder_of root.now table.now) }
{
    if root.len() == 0 {
        return table.clone();
    }
    path_below(root, table)
}
