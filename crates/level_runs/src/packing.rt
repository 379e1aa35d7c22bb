// Numbers that are packed into bits.
ghost use Rattle.std.specs.Prelude.{◌+◌, ◌*◌, ◌^◌, ◌<◌, ◌≤◌, ◌++◌, length, OnOk, All};
ghost use Rattle.level_runs.specs.Steps.{PacksBits, AppendsPacked, filled_up};
ghost use Rattle.level_runs.specs.Bits.{bits};

use dm_types::Bytes;
use std::alloc::AllocError;

/// Bits that don't fill a byte yet, the least first.
#[derive(Drop)]
struct BitsHeld {
    pending: u64,
    have: u32,
    ghost few: { have < 8 },
    ghost at_hand: { pending < 2 ^ have },
}

impl BitsHeld {
    /// Adds a number of `width` bits behind those that are held, and writes the bytes that are full.
    fn put(&mut self, number: u32, width: u32, out: &mut Bytes) -> Result<(), AllocError>
        requires narrow { width ≤ 32 }
        requires fits { number < 2 ^ width }
        ensures { OnOk result (PacksBits out.old out.new
            (bits self.old.have self.old.pending ++ bits width number)
            (bits self.new.have self.new.pending)) }
    {
        let mut pending = self.pending + (u64::from(number) << self.have);
        let mut have = self.have + width;
        while have >= 8 {
            out.push((pending % 256) as u8)?;
            pending >>= 8;
            have -= 8;
        }
        self.pending = pending;
        self.have = have;
        Ok(())
    }
}

/// Adds groups of eight numbers of `width` bits, with zeros where there are no numbers any more.
pub(crate) fn pack(
    numbers: &[u32],
    groups: usize,
    width: u32,
    out: &mut Bytes,
) -> Result<(), AllocError>
    requires narrow { width ≤ 32 }
    requires fits { All (λ number. number < 2 ^ width) numbers.now }
    requires within { 8 * groups < length numbers.now + 8 }
    ensures { OnOk result (AppendsPacked width (filled_up numbers.now groups) out.old out.new) }
{
    let mut held = BitsHeld {
        pending: 0,
        have: 0,
    };
    for place in 0..8 * groups {
        let number = numbers.get(place).copied().unwrap_or(0);
        held.put(number, width, out)?;
    }
    Ok(())
}
