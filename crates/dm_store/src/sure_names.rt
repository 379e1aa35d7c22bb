// A source of names in memory that never fails.
ghost use Rattle.std.specs.Prelude.{◌≡◌, ◌<◌, IfOk};
ghost use Rattle.dm_store.specs.Answers as spec;

use crate::faults::Failed;
use crate::traits::NameSource;
use dm_types::NameList;
use std::alloc::AllocError;

/// A source that answers its names in order and then the number of the draw, with the highest byte
/// first. It never fails, and tells its answers until it had 2^64 - 1 draws.
#[derive(Drop)]
pub struct SureNames {
    names: NameList,
    draws: u64,
}

impl SureNames {
    ghost use Rattle.dm_store.specs.MemoryAnswers.{sure_names, sure_draws};

    /// A source of the names.
    pub fn new(names: NameList) -> Result<SureNames, AllocError>
        ensures names { IfOk result (λ source. sure_names source ≡ names) }
        ensures draws { IfOk result (λ source. sure_draws source ≡ 0) }
    {
        Ok(SureNames { names, draws: 0 })
    }
}

impl NameSource for SureNames {
    ghost use Rattle.std.specs.Prelude.{◌+◌, ◌-◌, ◌^◌, min};
    ghost use Rattle.dm_store.specs.MemoryAnswers.{sure_names, sure_draws, sure_given};
    ghost use Rattle.dm_store.specs.Causes.{Counts, FailedCause};
    ghost use Rattle.dm_store.specs.Given.{Draws};

    ghost given = { sure_given };

    ghost faults = { λ s. 0 };

    fn draw(&mut self) -> Result<[u8; 16], Failed>
        ensures given { Draws (sure_given self.old) (sure_given self.new) result }
        ensures cause { Counts FailedCause 0 0 result }
        ensures name { IfOk result (λ name. name ≡ spec.name_at (sure_names self.old) (sure_draws self.new)) }
        ensures draws { sure_draws self.new ≡ min (sure_draws self.old + 1) (2 ^ 64 - 1) }
        ensures names { sure_names self.new ≡ sure_names self.old }
    {
        self.draws = self.draws.saturating_add(1);
        Ok(name_at(self.names.as_slice(), self.draws))
    }
}

/// The name at the draw of this number, from 1: the number itself past the end of the list.
pub fn name_at(names: &[[u8; 16]], number: u64) -> [u8; 16]
    requires { 0 < number }
    ensures { result ≡ spec.name_at names.now number }
{
    if number - 1 < names.len() as u64 {
        names[(number - 1) as usize]
    } else {
        (number as u128).to_be_bytes()
    }
}
