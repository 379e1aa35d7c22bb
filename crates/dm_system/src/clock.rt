// The system's clock.
ghost use Rattle.std.specs.Prelude.{None};

use dm_store::Clock;
use std::time;

/// The clock of a runtime. It doesn't tell its answers.
#[derive(Drop)]
pub struct SystemClock<R> {
    rt: R,
}

impl<R> SystemClock<R> {
    /// The clock of this runtime.
    pub fn new(rt: R) -> SystemClock<R> {
        SystemClock { rt }
    }
}

impl<R: time::Clock> Clock for SystemClock<R> {
    ghost given = { λ c. None };

    /// The last `i64` at a time past it, and 0 where the clock can't be read or stands before 1970.
    fn now_ms(&mut self) -> i64 {
        match self.rt.since_1970() {
            Ok(time) => i64::try_from(time.as_millis()).unwrap_or(i64::MAX),
            Err(_) => 0,
        }
    }
}
