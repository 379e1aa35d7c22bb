// The versions of a log.
ghost use Rattle.std.specs.Prelude.{◌≡◌, IfOk, IsTrue};
ghost use Rattle.std.specs.List.Sorted.{IsStrictlySortedBy};
ghost use Rattle.std.specs.Ordering.{nat_cmp};
ghost use Rattle.log_replay.specs.Numbers.{is_in, gapless, newest_of};

use thiserror::Error;

/// The greatest number of commits of a log.
pub const MAX_COMMITS: u64 = 100_000;

/// Why versions are no log.
#[derive(Clone, Copy, Debug, PartialEq, Eq, Error)]
pub enum NumberFault {
    /// There is none.
    #[error("there is no version")]
    Nothing,
    /// There are more than `MAX_COMMITS`.
    #[error("there are more versions than a log may have")]
    TooMany,
    /// One below the newest is missing.
    #[error("version {version} is missing")]
    Gap {
        /// The least version that is missing.
        version: u64,
    },
}

/// The newest of some versions, which ascend, each once: they must be no more than `MAX_COMMITS`, and
/// be 0, 1, 2 and so on (PROTOCOL.md, "Delta Log Entries").
pub fn check_numbers(sorted: &[u64]) -> Result<u64, NumberFault>
    requires { IsStrictlySortedBy nat_cmp sorted.now }
    ensures newest { result ≡ newest_of sorted.now }
    ensures member { IfOk result (λ newest. IsTrue (is_in newest sorted.now)) }
{
    if sorted.len() as u64 > MAX_COMMITS {
        return Err(NumberFault::TooMany);
    }
    check_gaps(sorted)
}

// The newest, unless a version below it is missing.
fn check_gaps(sorted: &[u64]) -> Result<u64, NumberFault>
    requires { IsStrictlySortedBy nat_cmp sorted.now }
    ensures newest { result ≡ gapless sorted.now }
    ensures member { IfOk result (λ newest. IsTrue (is_in newest sorted.now)) }
{
    let mut next = 0;
    let mut rest = sorted;
    while let Some((number, more)) = rest.split_first() {
        if *number != next {
            return Err(NumberFault::Gap { version: next });
        }
        next += 1;
        rest = more;
    }
    match next {
        0 => Err(NumberFault::Nothing),
        _ => Ok(next - 1),
    }
}
