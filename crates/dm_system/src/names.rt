// Names of random bytes.
ghost use Rattle.std.specs.Prelude.{◌≡◌, None};

use dm_store::{Failed, NameSource};
use std::random::RandomSource;

/// Names drawn from the random bytes of a runtime. It doesn't tell them.
#[derive(Drop)]
pub struct RandomNames<R> {
    rt: R,
    /// How often a call failed.
    pub faults: u64,
}

impl<R> RandomNames<R> {
    /// Names of this runtime, of whose draws none has failed.
    pub fn new(rt: R) -> RandomNames<R>
        ensures { result.faults ≡ 0 }
    {
        RandomNames { rt, faults: 0 }
    }
}

impl<R: RandomSource> NameSource for RandomNames<R> {
    ghost given = { λ s. None };

    ghost faults = { λ s. s.faults };

    fn draw(&mut self) -> Result<[u8; 16], Failed> {
        let mut name = [0; 16];
        match self.rt.fill_bytes(&mut name) {
            Ok(()) => Ok(name),
            Err(_) => {
                self.faults = self.faults.saturating_add(1);
                Err(Failed)
            }
        }
    }
}
