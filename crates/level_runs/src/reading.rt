// Runs that are read.
ghost use Rattle.std.specs.Prelude.{◌≡◌, ◌+◌, ◌^◌, ◌<◌, ◌≤◌, length};
ghost use Rattle.byteorder.specs.Endian.{little_number};
ghost use Rattle.level_runs.specs.Answers.{ReadsRuns};
ghost use Rattle.level_runs.specs.Steps.{TakesRun};
ghost use Rattle.level_runs.specs.Reading.{packed_at, repeated_at, run_at, runs_of};

use crate::fault::RunFault;
use crate::packed::unpack;
use crate::varint::read_varint;
use byteorder::{ByteOrder, LittleEndian};
use dm_types::{Items, NumberList};
use std::alloc::Global;

/// The greatest width of a number in bits.
const MOST_BITS: u8 = 32;

/// The number of at most eight bytes, in little endian.
fn little(bytes: &[u8]) -> u64
    requires { length bytes.now ≤ 8 }
    ensures { result ≡ little_number (length bytes.now) bytes.now }
{
    if bytes.is_empty() {
        return 0;
    }
    LittleEndian::read_uint(bytes, bytes.len())
}

/// Adds numbers of packed groups, as far as there is room, and gives the bytes behind the groups.
#[tactic(auto, unfolding(crate::specs::Reading::packed_at))]
fn read_packed<'a>(
    bytes: &'a [u8],
    groups: u64,
    width: u32,
    room: usize,
    numbers: &mut NumberList,
) -> Result<&'a [u8], RunFault>
    requires { width ≤ 32 }
    ensures { TakesRun (λ rest. rest.now) (packed_at width groups bytes.now) room numbers.old
        numbers.new result }
{
    let Some(size) = groups.checked_mul(u64::from(width)) else {
        return Err(RunFault::BadRuns);
    };
    if (bytes.len() as u64) < size {
        return Err(RunFault::BadRuns);
    }
    let (packed, rest) = bytes.split_at(size as usize);
    let count = groups.saturating_mul(8).min(room as u64) as usize;
    unpack(packed, width, count, numbers)?;
    Ok(rest)
}

/// Adds a repeated number, as far as there is room, and gives the bytes behind it.
#[tactic(auto, unfolding(crate::specs::Reading::repeated_at))]
fn read_repeated<'a>(
    bytes: &'a [u8],
    times: u64,
    width: u32,
    room: usize,
    numbers: &mut NumberList,
) -> Result<&'a [u8], RunFault>
    requires { width ≤ 32 }
    ensures { TakesRun (λ rest. rest.now) (repeated_at width times bytes.now) room numbers.old
        numbers.new result }
{
    let size = (width as usize + 7) / 8;
    if bytes.len() < size {
        return Err(RunFault::BadRuns);
    }
    let (value, rest) = bytes.split_at(size);
    let number = little(value);
    if number >= 1u64 << width {
        return Err(RunFault::BadRuns);
    }
    for _ in 0..times.min(room as u64) {
        numbers.push(number as u32)?;
    }
    Ok(rest)
}

/// Adds the numbers of the run at the front, as far as there is room, and gives the bytes behind it.
#[tactic(auto, unfolding(crate::specs::Reading::run_at))]
fn read_run<'a>(
    bytes: &'a [u8],
    width: u32,
    room: usize,
    numbers: &mut NumberList,
) -> Result<&'a [u8], RunFault>
    requires { width ≤ 32 }
    ensures { TakesRun (λ rest. rest.now) (run_at width bytes.now) room numbers.old numbers.new
        result }
{
    let Some((header, body)) = read_varint(bytes) else {
        return Err(RunFault::BadRuns);
    };
    if header % 2 == 1 {
        read_packed(body, header / 2, width, room, numbers)
    } else {
        read_repeated(body, header / 2, width, room, numbers)
    }
}

/// The first `count` numbers of `width` bits in the runs at the front, and how many bytes the runs
/// are.
///
/// Runs are Parquet's RLE and bit-packing hybrid (Encodings.md, "Run Length Encoding / Bit-Packing
/// Hybrid"). Numbers of the last run past the count are passed by, and bytes behind it aren't
/// looked at. `BadRuns` comes exactly where no front of the bytes is runs of so many numbers, or
/// the width is above 32. Memory grows with the numbers that the runs hold: a run of few bytes may
/// hold as many as `count`, so a caller bounds `count` by its rows.
pub fn read_runs(
    alloc: Global,
    bytes: &[u8],
    width: u8,
    count: usize,
) -> Result<(NumberList, usize), RunFault>
    ensures reads { ReadsRuns (runs_of width count bytes.now) result }
{
    if width > MOST_BITS {
        return Err(RunFault::BadRuns);
    }
    let mut numbers = Items::new(alloc);
    let mut rest = bytes;
    while numbers.len() < count {
        let room = count - numbers.len();
        rest = read_run(rest, u32::from(width), room, &mut numbers)?;
    }
    Ok((numbers, bytes.len() - rest.len()))
}
