// The top call.
ghost use Rattle.std.specs.Prelude.{◌≡◌, ◌≤◌, length, IfOk};
ghost use Rattle.dm_store.specs.Causes.{Counts};
ghost use Rattle.script_run.specs.Outcome.{IsDueOf};
ghost use Rattle.table_write.specs.Outside.{outside};
ghost use Rattle.script_run.specs.Reaching.{Reaches, ReadsBefore, SourceCause, IsLineStatus, EndsByLine, EndsRun};
ghost use Rattle.script_run.specs.Ran.{counters, Blames, Ran, ReadsSource, IsBeforeStatements, status_of};

use crate::halt::Halt;
use crate::outcome::{Due, Outcome};
use crate::script::statements_of;
use crate::statements::run_statements;
use crate::status::Status;
use dm_store::{Clock, NameSource, Sink, Source, Store, TakeFault, take_all};
use dm_types::Text;
use sql_reader::ScriptFault;
use std::alloc::{AllocError, Global};
use std::marker::Brand;
use std::sync::ledger::Blank;

/// The longest script, in bytes.
pub(crate) const MAX_SCRIPT: usize = 1_048_576;

/// Runs a script on the tables of a store, and returns the exit status: the number of a [`Status`].
///
/// `words` are the words after the program's name; none is accepted yet. The script is read from its
/// source to the end, at most 1,048,576 bytes of it, and then its statements are run in turn. The
/// text of each goes to `out` in one piece. The first refusal ends the run, its line written in the
/// same way, as does the usage line. A failed call, or want of memory, ends the run with nothing
/// more written; a failed write may leave a front of its text. A write statement draws one name and
/// then reads the clock once, if its checks pass; nothing else asks for either.
pub fn run<I: Source, S: Store, K: Sink, C: Clock, N: NameSource>(
    alloc: Global,
    words: &[String],
    script: &mut I,
    store: &mut S,
    out: &mut K,
    clock: &mut C,
    names: &mut N,
) -> u8
    ensures range { result ≤ 8 }
    ensures blame { let before = counters
        (S.faults store.old) (K.faults out.old) (I.faults script.old) (N.faults names.old) in
        let now = counters (S.faults store.new) (K.faults out.new) (I.faults script.new) (N.faults names.new) in
        Blames (status_of result) before now }
    ensures ran { let old = outside (S.files store.old) (S.taken store.old) (N.given names.old) (C.given clock.old) in
        let new = outside (S.files store.new) (S.taken store.new) (N.given names.new) (C.given clock.new) in
        Ran words.now (I.left script.old) old new (K.written out.old) (K.written out.new) (status_of result) }
    ensures reads { ReadsSource (status_of result) (I.left script.old) (I.left script.new) }
    ensures apart { IsBeforeStatements (status_of result) → (store.new ≡ store.old) × (clock.new ≡ clock.old)
        × (names.new ≡ names.old) }
{
    run_words(alloc, words, script, store, out, clock, names).code()
}

// The run, up to its status.
fn run_words<I: Source, S: Store, K: Sink, C: Clock, N: NameSource>(
    alloc: Global,
    words: &[String],
    script: &mut I,
    store: &mut S,
    out: &mut K,
    clock: &mut C,
    names: &mut N,
) -> Status
    ensures blame { let before = counters
        (S.faults store.old) (K.faults out.old) (I.faults script.old) (N.faults names.old) in
        let now = counters (S.faults store.new) (K.faults out.new) (I.faults script.new) (N.faults names.new) in
        Blames result before now }
    ensures ran { let old = outside (S.files store.old) (S.taken store.old) (N.given names.old) (C.given clock.old) in
        let new = outside (S.files store.new) (S.taken store.new) (N.given names.new) (C.given clock.new) in
        Ran words.now (I.left script.old) old new (K.written out.old) (K.written out.new) result }
    ensures reads { ReadsSource result (I.left script.old) (I.left script.new) }
    ensures apart { IsBeforeStatements result → (store.new ≡ store.old) × (clock.new ≡ clock.old)
        × (names.new ≡ names.old) }
{
    match what_is_due(alloc, words, script) {
        Ok(Due::Ends(outcome)) => end(out, &outcome),
        Ok(Due::Runs(statements)) => {
            let root = Text::new(alloc);
            let steps = Blank::new(1);
            run_statements::<S, K, C, N, Brand>(
                alloc,
                &statements,
                &root,
                store,
                out,
                clock,
                names,
                steps,
            )
        }
        Err(Halt::Source) => Status::SourceFailed,
        Err(Halt::Memory) => Status::NoMemory,
    }
}

// What the words and the script make due.
fn what_is_due<I: Source>(alloc: Global, words: &[String], script: &mut I) -> Result<Due, Halt>
    ensures due { Reaches words.now (I.left script.old) result }
    ensures line { IfOk result EndsByLine }
    ensures reads { ReadsBefore result (I.left script.old) (I.left script.new) }
    ensures cause { Counts SourceCause (I.faults script.old) (I.faults script.new) result }
{
    if !words.is_empty() {
        return Ok(Due::Ends(Outcome::usage(alloc)?));
    }
    match take_all(alloc, script, MAX_SCRIPT) {
        Ok(text) => Ok(due_of_script(alloc, text.as_slice())?),
        Err(TakeFault::TooLong) => Ok(Due::Ends(Outcome::too_long(alloc)?)),
        Err(TakeFault::Failed) => Err(Halt::Source),
        Err(TakeFault::Memory) => Err(Halt::Memory),
    }
}

// What a script that isn't too long makes due.
fn due_of_script(alloc: Global, script: &[u8]) -> Result<Due, AllocError>
    requires { length script.now ≤ MAX_SCRIPT }
    ensures due { IfOk result (λ what. IsDueOf script.now what) }
    ensures line { IfOk result EndsByLine }
{
    match statements_of(alloc, script) {
        Ok(statements) => Ok(Due::Runs(statements)),
        Err(ScriptFault::BadScript { at }) => Ok(Due::Ends(Outcome::bad_script(alloc, at)?)),
        Err(ScriptFault::Memory) => Err(AllocError),
    }
}

// Writes the line that ends the run.
fn end<K: Sink>(out: &mut K, outcome: &Outcome) -> Status
    requires { IsLineStatus outcome.now.status }
    ensures ends { EndsRun outcome.now (K.written out.old) (K.written out.new) result }
    ensures blame { let before = counters 0 (K.faults out.old) 0 0 in
        let now = counters 0 (K.faults out.new) 0 0 in
        Blames result before now }
{
    match out.put(outcome.text.as_slice()) {
        Ok(()) => outcome.status,
        Err(fault) => Status::from(fault),
    }
}
