// What a run has to do: a line that ends it, or statements.
ghost use Rattle.std.specs.Prelude.{◌≡◌, IfOk};
ghost use Rattle.script_run.specs.Outcome as spec;
ghost use Rattle.script_run.specs.Refusals.{refused_cause};

use crate::cause::cause_of;
use crate::status::Status;
use dm_types::{Bytes, Refused};
use sql_reader::Stmts;
use std::alloc::{AllocError, Global};

/// A line, and the status with which it ends the run.
#[derive(Drop)]
pub struct Outcome {
    /// How the run ends, once the line is written.
    pub status: Status,
    /// The line.
    pub text: Bytes,
}

/// What a run has to do, by its words and its script.
#[derive(Drop)]
pub enum Due {
    /// To end with a line.
    Ends(Outcome),
    /// To run statements.
    Runs(Stmts),
}

impl Outcome {
    ghost use Rattle.std.specs.Prelude.{◌≡◌, ◌++◌, IfOk, codes};
    ghost use Rattle.std.specs.Fmt.{decimal};
    ghost use Rattle.script_run.specs.Outcome as spec;
    ghost use Rattle.script_run.specs.declared.status.Status.TheVariants as status;

    /// The words of the command line aren't of the form.
    pub(crate) fn usage(alloc: Global) -> Result<Outcome, AllocError>
        ensures { IfOk result (λ it. it ≡ spec.ending status.BadWords spec.usage_line) }
    {
        let line = Bytes::from_slice(alloc, b"usage: deltamerge [--root DIR] [--workload N]\n")?;
        Ok(Outcome {
            status: Status::BadWords,
            text: line,
        })
    }

    /// The script is longer than the limit.
    pub(crate) fn too_long(alloc: Global) -> Result<Outcome, AllocError>
        ensures { IfOk result (λ it. it ≡ spec.ending status.BadScript (spec.refused_line 0 (codes "P2"))) }
    {
        Ok(Outcome {
            status: Status::BadScript,
            text: refused_line(alloc, 0, b"P2")?,
        })
    }

    /// The script isn't in the grammar, and goes wrong at this byte.
    pub(crate) fn bad_script(alloc: Global, at: u64) -> Result<Outcome, AllocError>
        ensures { IfOk result (λ it. it ≡ spec.ending status.BadScript (spec.refused_line 0 (codes "P1 "
            ++ decimal at))) }
    {
        let cause = format!(in alloc; "P1 {at}")?;
        Ok(Outcome {
            status: Status::BadScript,
            text: refused_line(alloc, 0, cause.as_bytes())?,
        })
    }
}

/// The line of a refused statement, which has this number from 1.
pub(crate) fn refusal_line(alloc: Global, number: u64, why: &Refused) -> Result<Bytes, AllocError>
    ensures { IfOk result (λ line. line ≡ spec.refused_line number (refused_cause why.now)) }
{
    let cause = cause_of(alloc, why)?;
    refused_line(alloc, number, cause.as_slice())
}

// The line of a refusal: the statement's number from 1, or 0 for the script, and the cause.
fn refused_line(alloc: Global, number: u64, cause: &[u8]) -> Result<Bytes, AllocError>
    ensures { IfOk result (λ line. line ≡ spec.refused_line number cause.now) }
{
    let head = format!(in alloc; "refused {number}: ")?;
    let mut line = Bytes::from_vec(head.into_bytes());
    line.extend_from_slice(cause)?;
    line.push(b'\n')?;
    Ok(line)
}
