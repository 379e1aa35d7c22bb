// A clock in memory.
ghost use Rattle.std.specs.Prelude.{◌≡◌, IfOk};
ghost use Rattle.dm_store.specs.Answers as spec;

use crate::traits::Clock;
use dm_types::WholeList;
use std::alloc::AllocError;

/// A clock that answers its list in order and then the last answer again, and 0 where the list is
/// empty. It tells its answers until it had 2^64 - 1 calls.
#[derive(Drop)]
pub struct MemoryClock {
    answers: WholeList,
    calls: u64,
}

impl MemoryClock {
    ghost use Rattle.dm_store.specs.MemoryAnswers.{clock_answers, clock_calls};

    /// A clock with these answers, in milliseconds since 1970-01-01 00:00 UTC.
    pub fn new(answers: WholeList) -> Result<MemoryClock, AllocError>
        ensures answers { IfOk result (λ clock. clock_answers clock ≡ answers) }
        ensures calls { IfOk result (λ clock. clock_calls clock ≡ 0) }
    {
        Ok(MemoryClock { answers, calls: 0 })
    }
}

impl Clock for MemoryClock {
    ghost use Rattle.std.specs.Prelude.{◌+◌, ◌-◌, ◌^◌, min};
    ghost use Rattle.dm_store.specs.Given.{Gave};
    ghost use Rattle.dm_store.specs.MemoryAnswers.{clock_answers, clock_calls, clock_given};

    ghost given = { clock_given };

    fn now_ms(&mut self) -> i64
        ensures given { Gave (clock_given self.old) (clock_given self.new) result }
        ensures time { result ≡ spec.time_at (clock_answers self.old) (clock_calls self.old) }
        ensures answers { clock_answers self.new ≡ clock_answers self.old }
        ensures calls { clock_calls self.new ≡ min (clock_calls self.old + 1) (2 ^ 64 - 1) }
    {
        let before = self.calls;
        self.calls = before.saturating_add(1);
        time_at(self.answers.as_slice(), before)
    }
}

// The answer after this many calls.
fn time_at(answers: &[i64], calls: u64) -> i64
    ensures { result ≡ spec.time_at answers.now calls }
{
    if calls < answers.len() as u64 {
        answers[calls as usize]
    } else if answers.is_empty() {
        0
    } else {
        answers[answers.len() - 1]
    }
}
