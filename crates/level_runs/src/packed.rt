// Numbers that are read from packed bits.
ghost use Rattle.std.specs.Prelude.{◌≡◌, ◌+◌, ◌*◌, ◌^◌, ◌<◌, ◌≤◌, ◌++◌, length, OnOk};
ghost use Rattle.level_runs.specs.Bits.{bits, byte_bits, packed_numbers};

use dm_types::NumberList;
use std::alloc::AllocError;

/// The bits that are left of packed numbers, the least first: those at hand, then those of bytes.
#[derive(Drop)]
struct BitsLeft<'a> {
    pending: u64,
    have: u32,
    bytes: &'a [u8],
    ghost at_hand: { pending < 2 ^ have },
}

impl<'a> BitsLeft<'a> {
    /// Takes the next byte at hand.
    fn fill(&mut self)
        requires room { self.old.have < 32 }
        requires some { 0 < length self.old.bytes.now }
        ensures same { bits self.new.have self.new.pending ++ byte_bits self.new.bytes.now
            ≡ bits self.old.have self.old.pending ++ byte_bits self.old.bytes.now }
        ensures have { self.new.have ≡ self.old.have + 8 }
        ensures rest { length self.new.bytes.now + 1 ≡ length self.old.bytes.now }
    {
        let bytes = self.bytes;
        let byte = bytes[0];
        self.pending += u64::from(byte) << self.have;
        self.have += 8;
        self.bytes = &bytes[1..];
    }

    /// Takes the number in the next `width` bits.
    fn take(&mut self, width: u32) -> u32
        requires narrow { width ≤ 32 }
        requires enough { width ≤ self.old.have + 8 * length self.old.bytes.now }
        ensures taken { bits self.old.have self.old.pending ++ byte_bits self.old.bytes.now
            ≡ bits width result ++ (bits self.new.have self.new.pending ++ byte_bits self.new.bytes.now) }
        ensures fits { result < 2 ^ width }
        ensures left { self.new.have + 8 * length self.new.bytes.now + width
            ≡ self.old.have + 8 * length self.old.bytes.now }
    {
        while self.have < width {
            self.fill();
        }
        let number = (self.pending & ((1u64 << width) - 1)) as u32;
        self.pending >>= width;
        self.have -= width;
        number
    }
}

/// Adds the first `count` numbers of `width` bits.
pub(crate) fn unpack(
    packed: &[u8],
    width: u32,
    count: usize,
    numbers: &mut NumberList,
) -> Result<(), AllocError>
    requires narrow { width ≤ 32 }
    requires enough { count * width ≤ 8 * length packed.now }
    ensures { OnOk result (numbers.new ≡ numbers.old ++ packed_numbers width packed.now count) }
{
    let mut left = BitsLeft {
        pending: 0,
        have: 0,
        bytes: packed,
    };
    for _ in 0..count {
        numbers.push(left.take(width))?;
    }
    Ok(())
}
