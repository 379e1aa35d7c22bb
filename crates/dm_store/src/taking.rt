// Taking all that a source has left, in a bounded number of turns.
ghost use Rattle.std.specs.Prelude.{◌≡◌, ◌≤◌, length, IfOk};
ghost use Rattle.dm_store.specs.Causes.{Counts};
ghost use Rattle.dm_store.specs.Taking.{TakeCause, TakesAll, Empties};

use crate::faults::Failed;
use crate::traits::Source;
use dm_types::Bytes;
use std::alloc::{AllocError, Global};
use thiserror::Error;

/// Why a source wasn't taken to its end.
#[derive(Clone, Copy, Debug, PartialEq, Eq, Error)]
pub enum TakeFault {
    /// A call failed.
    #[error("the read failed")]
    Failed,
    /// There are more bytes than the limit allows.
    #[error("there are too many bytes")]
    TooLong,
    /// There was no memory.
    #[error("no memory for the bytes")]
    Memory,
}

impl From<Failed> for TakeFault {
    ghost use Rattle.std.specs.Prelude.{◌≡◌};
    ghost use Rattle.dm_store.specs.declared.taking.TakeFault.TheVariants as fault;

    ghost from_gives = { λ _ e. e ≡ fault.Failed };

    fn from(_: Failed) -> TakeFault {
        TakeFault::Failed
    }
}

impl From<AllocError> for TakeFault {
    ghost use Rattle.std.specs.Prelude.{◌≡◌};
    ghost use Rattle.dm_store.specs.declared.taking.TakeFault.TheVariants.{Memory};

    ghost from_gives = { λ _ e. e ≡ Memory };

    fn from(_: AllocError) -> TakeFault {
        TakeFault::Memory
    }
}

/// Takes all that is left, if that is at most `limit` bytes, in at most `limit + 1` calls.
pub fn take_all<S: Source>(alloc: Global, source: &mut S, limit: usize) -> Result<Bytes, TakeFault>
    ensures short { IfOk result (λ taken. length taken ≤ limit) }
    ensures bytes { TakesAll limit (S.left source.old) result }
    ensures end { Empties (S.left source.old) (S.left source.new) result }
    ensures cause { Counts TakeCause (S.faults source.old) (S.faults source.new) result }
{
    let mut taken = Bytes::new(alloc);
    let mut buf = [0; 4096];
    for _turn in 0..=limit {
        let count = source.take(&mut buf)?;
        if count == 0 {
            return Ok(taken);
        }
        taken.extend_from_slice(&buf[..count])?;
        if taken.len() > limit {
            return Err(TakeFault::TooLong);
        }
    }
    Err(TakeFault::TooLong)
}
