// Reading the statements of a script.
ghost use Rattle.script_run.specs.Reaching.{ReadsScript};

use sql_reader::{ScriptFault, Stmts, read_script};
use std::alloc::Global;

/// The statements of a script, or the place where it goes wrong.
pub(crate) fn statements_of(alloc: Global, script: &[u8]) -> Result<Stmts, ScriptFault>
    ensures { ReadsScript script.now result }
{
    read_script(alloc, script)
}
