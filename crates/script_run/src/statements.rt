// Running the statements of a script in turn.
ghost use Rattle.std.specs.Prelude.{◌≡◌, ◌<◌};
ghost use Rattle.table_write.specs.Outside.{outside};
ghost use Rattle.script_run.specs.Ran.{counters, Blames};
ghost use Rattle.script_run.specs.Reaching.{RunsOne, RunsAll, BlamesOne};

use crate::outcome::refusal_line;
use crate::statement::run_statement;
use crate::status::Status;
use dm_store::{Clock, NameSource, Sink, Store};
use dm_types::{Stop, Text};
use sql_reader::{Stmt, Stmts};
use std::alloc::Global;
use std::sync::ledger::{Blank, Ledger};
use step_count::Steps;

/// Runs statement after statement on the tables below a root. The text of each is written in one
/// piece after it; the first refusal ends the run with a line.
pub(crate) fn run_statements<S: Store, K: Sink, C: Clock, N: NameSource, L: Ledger>(
    alloc: Global,
    statements: &Stmts,
    root: &Text,
    store: &mut S,
    out: &mut K,
    clock: &mut C,
    names: &mut N,
    blank: Blank,
) -> Status
    requires name { blank.name ≡ L.name }
    requires parts { blank.parts ≡ L.parts }
    requires some { 0 < blank.parts }
    ensures runs { let old = outside (S.files store.old) (S.taken store.old) (N.given names.old) (C.given clock.old) in
        let new = outside (S.files store.new) (S.taken store.new) (N.given names.new) (C.given clock.new) in
        RunsAll root.now statements.now old new (K.written out.old) (K.written out.new) result }
    ensures blame { let before = counters (S.faults store.old) (K.faults out.old) 0 (N.faults names.old) in
        let now = counters (S.faults store.new) (K.faults out.new) 0 (N.faults names.new) in
        Blames result before now }
{
    let mut steps = Steps::<L>::open(blank);
    let mut number = 0;
    for statement in statements.as_slice() {
        number += 1;
        if let Err(status) = run_numbered(
            alloc, number, statement, root, store, out, clock, names, &mut steps,
        ) {
            return status;
        }
    }
    Status::Done
}

// Runs the statement of this number, and writes its text or the line of its refusal.
fn run_numbered<S: Store, K: Sink, C: Clock, N: NameSource, L: Ledger>(
    alloc: Global,
    number: u64,
    statement: &Stmt,
    root: &Text,
    store: &mut S,
    out: &mut K,
    clock: &mut C,
    names: &mut N,
    steps: &mut Steps<L>,
) -> Result<(), Status>
    ensures runs { let old = outside (S.files store.old) (S.taken store.old) (N.given names.old) (C.given clock.old) in
        let new = outside (S.files store.new) (S.taken store.new) (N.given names.new) (C.given clock.new) in
        RunsOne root.now number statement.now old new (K.written out.old) (K.written out.new) result }
    ensures blame { let before = counters (S.faults store.old) (K.faults out.old) 0 (N.faults names.old) in
        let now = counters (S.faults store.new) (K.faults out.new) 0 (N.faults names.new) in
        BlamesOne before now result }
{
    match run_statement(alloc, statement, root, store, clock, names, steps) {
        Ok(text) => Ok(out.put(text.as_slice())?),
        Err(Stop::Refused(why)) => {
            let line = refusal_line(alloc, number, &why)?;
            out.put(line.as_slice())?;
            Err(Status::Refused)
        }
        Err(Stop::Store) => Err(Status::StoreFailed),
        Err(Stop::Names) => Err(Status::NamesFailed),
        Err(Stop::Memory) => Err(Status::NoMemory),
    }
}
