// Numbers in ULEB128.
ghost use Rattle.std.specs.Prelude.{◌≡◌, option_map, option_and_then, OnOk};
ghost use Rattle.level_runs.specs.Steps.{AppendsChain};
ghost use Rattle.level_runs.specs.Reading.{chain_at, unless_large, varint_at};

use dm_types::Bytes;
use std::alloc::AllocError;

/// The most bytes of a varint.
const MOST_BYTES: u8 = 10;

/// The number in a chain of at most so many bytes, below 2^64, and the bytes behind it.
fn read_chain(bytes: &[u8], places: u8) -> Option<(u64, &[u8])>
    ensures { option_map (λ x. (x.0, x.1.now)) result
        ≡ option_and_then unless_large (chain_at places bytes.now) }
{
    if places == 0 {
        return None;
    }
    let (first, rest) = bytes.split_first()?;
    if *first < 128 {
        return Some((u64::from(*first), rest));
    }
    let (high, rest) = read_chain(rest, places - 1)?;
    let high = high.checked_mul(128)?;
    Some((high + u64::from(*first % 128), rest))
}

/// The number of the varint at the front, and the bytes behind it.
#[tactic(auto, unfolding(crate::specs::Reading::varint_at))]
pub(crate) fn read_varint(bytes: &[u8]) -> Option<(u64, &[u8])>
    ensures { option_map (λ x. (x.0, x.1.now)) result ≡ varint_at bytes.now }
{
    read_chain(bytes, MOST_BYTES)
}

/// Adds the number's varint: seven bits a byte, the lowest first.
pub(crate) fn push_varint(number: u64, out: &mut Bytes) -> Result<(), AllocError>
    ensures { OnOk result (AppendsChain out.old out.new number) }
{
    if number < 128 {
        return out.push(number as u8);
    }
    out.push((number % 128) as u8 + 128)?;
    push_varint(number / 128, out)
}
