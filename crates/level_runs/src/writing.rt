// Runs that are written.
ghost use Rattle.std.specs.Prelude.{◌≡◌, ◌+◌, ◌*◌, ◌^◌, ◌<◌, ◌≤◌, length, take, replicate, slice_index, IfOk, OnOk, OnErr, All};
ghost use Rattle.level_runs.specs.Answers.{AppendsRuns};
ghost use Rattle.level_runs.specs.Steps.{AppendsRun, WritesRun, filled_up};
ghost use Rattle.level_runs.specs.Runs.{value_size};

use crate::packing::pack;
use crate::varint::push_varint;
use byteorder::{ByteOrder, LittleEndian};
use dm_types::{Bytes, Items, NumberList};
use std::alloc::{AllocError, Global};

/// The greatest width of numbers that are packed.
const MOST_BITS: u32 = 32;

/// The numbers of a group. So many equal numbers are worth a repeated run.
const GROUP: usize = 8;

/// How many numbers at the front are equal.
fn front_repeats(numbers: &[u32]) -> usize
    requires { 0 < length numbers.now }
    ensures some { 0 < result }
    ensures within { result ≤ length numbers.now }
    ensures equal { take result numbers.now ≡ replicate result (slice_index numbers.now 0) }
{
    let first = numbers[0];
    for (place, number) in numbers.iter().enumerate() {
        if *number != first {
            return place;
        }
    }
    numbers.len()
}

/// Whether a whole group at the front is one number repeated.
fn is_repeat(numbers: &[u32]) -> bool {
    numbers.len() >= GROUP && numbers[..GROUP].iter().all(|number| *number == numbers[0])
}

/// How many groups of numbers are packed: up to one that is a number repeated.
fn packed_groups(numbers: &[u32]) -> usize
    requires { 0 < length numbers.now }
    ensures some { 0 < result }
    ensures within { 8 * result < length numbers.now + 8 }
{
    let mut groups = 1;
    while GROUP * groups < numbers.len() && !is_repeat(&numbers[GROUP * groups..]) {
        groups += 1;
    }
    groups
}

/// Adds a run of a repeated number. Bytes of the width that a number doesn't reach are zeros.
fn push_repeated(number: u32, times: usize, width: u32, out: &mut Bytes) -> Result<(), AllocError>
    requires width { width < 256 }
    requires fits { number < 2 ^ width }
    requires few { times < 2 ^ 62 }
    ensures { OnOk result (AppendsRun width (value_size width + 10) (replicate times number) out.old
        out.new) }
{
    push_varint(2 * times as u64, out)?;
    let size = (width as usize + 7) / 8;
    let mut value = [0u8; 32];
    LittleEndian::write_u32(&mut value, number);
    out.extend_from_slice(&value[..size])
}

/// Adds a run of packed groups, with zeros where there are no numbers any more.
fn push_packed(
    numbers: &[u32],
    groups: usize,
    width: u32,
    out: &mut Bytes,
) -> Result<(), AllocError>
    requires narrow { width ≤ 32 }
    requires fits { All (λ number. number < 2 ^ width) numbers.now }
    requires within { 8 * groups < length numbers.now + 8 }
    ensures { OnOk result (AppendsRun width (groups * width + 10) (filled_up numbers.now groups)
        out.old out.new) }
{
    push_varint(2 * groups as u64 + 1, out)?;
    pack(numbers, groups, width, out)
}

/// Adds a run of the first numbers, and gives those that are left.
fn push_run<'a>(numbers: &'a [u32], width: u32, out: &mut Bytes) -> Result<&'a [u32], AllocError>
    requires width { width < 256 }
    requires fits { All (λ number. number < 2 ^ width) numbers.now }
    requires some { 0 < length numbers.now }
    ensures { IfOk result (λ rest. WritesRun width numbers.now rest.now out.old out.new) }
{
    let repeats = front_repeats(numbers);
    if repeats >= GROUP || width > MOST_BITS {
        push_repeated(numbers[0], repeats, width, out)?;
        return Ok(&numbers[repeats..]);
    }
    let groups = packed_groups(numbers);
    push_packed(numbers, groups, width, out)?;
    let taken = numbers.len().min(GROUP * groups);
    Ok(&numbers[taken..])
}

/// Adds numbers of `width` bits as runs: a repeated run where eight or more numbers are equal, and
/// packed groups between. Of more than 32 bits, which `read_runs` doesn't read, each run is a
/// repeated one.
///
/// The runs mean the numbers (Encodings.md, "Run Length Encoding / Bit-Packing Hybrid"), and take at
/// most `width` + 10 bytes for each number. For no numbers nothing is added. After want of memory
/// `out` is as before.
pub fn write_runs(
    alloc: Global,
    numbers: &NumberList,
    width: u8,
    out: &mut Bytes,
) -> Result<(), AllocError>
    requires { All (λ number. number < 2 ^ width) numbers.now }
    ensures ok { OnOk result (AppendsRuns width numbers.now out.old out.new) }
    ensures err { OnErr result (out.new ≡ out.old) }
{
    let mut written = Items::new(alloc);
    let mut rest = numbers.as_slice();
    while !rest.is_empty() {
        rest = push_run(rest, u32::from(width), &mut written)?;
    }
    out.extend_from_slice(written.as_slice())
}
