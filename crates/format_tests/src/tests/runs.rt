// Runs from outside, of every width, and cut.
ghost use Rattle.std.specs.Prelude.{◌^◌, ◌<◌, ◌≤◌, IfOk, All};

use dm_types::{Items, NumberList};
use level_runs::{RunFault, read_runs, write_runs};
use std::alloc::{AllocError, Global};
use std::test::Fail;

/// Bytes, a width, and the numbers that they are runs of; all of the bytes are used. The first two
/// are vectors of the format's documentation and its users, the others are worked out by hand.
const READ: [(&[u8], u8, &[u32]); 12] = [
    (&[0x03, 0x88, 0xC6, 0xFA], 3, &[0, 1, 2, 3, 4, 5, 6, 7]),
    (&[0x14, 0x01], 1, &[1, 1, 1, 1, 1, 1, 1, 1, 1, 1]),
    // A repeated run, and packed bits of which the last five are filled up.
    (&[0x06, 0x01, 0x03, 0x05], 1, &[1, 1, 1, 1, 0, 1]),
    // A repeated run that passes the count.
    (&[0x14, 0x01], 1, &[1, 1, 1]),
    // Runs of no numbers, and two groups under one header.
    (
        &[0x00, 0x02, 0x01, 0x05, 0x1B, 0xE4, 0, 0],
        2,
        &[3, 2, 1, 0, 0, 1, 2, 3],
    ),
    // A header with zeros above it.
    (&[0x84, 0x80, 0x00, 0x07], 3, &[7, 7]),
    // Two bytes of a number of nine bits, the lowest first.
    (&[0x02, 0x00, 0x01], 9, &[256]),
    (&[0x02, 0x78, 0x56, 0x34, 0x12], 32, &[0x1234_5678]),
    // No bits.
    (&[0x06, 0x03], 0, &[0, 0, 0, 0, 0]),
    // Packed numbers that lie across bytes.
    (
        &[0x03, 0xFF, 0x03, 0, 0, 0, 0, 0, 0, 0, 0xFF],
        10,
        &[0x3FF, 0, 0, 0, 0, 0, 0, 0x3FC],
    ),
    (&[0xAC, 0x02, 0x02], 2, &[2, 2, 2, 2]),
    (&[], 5, &[]),
];

/// Bytes, a width and a count that they aren't runs of.
const BAD: [(&[u8], u8, usize); 14] = [
    (&[], 1, 1),
    (&[0x80], 1, 1),
    // The last group's missing bytes.
    (&[0x03, 0x88, 0xC6], 3, 8),
    (&[0x03, 0x88, 0xC6], 3, 1),
    (&[0x05, 0x1B], 2, 8),
    // Too few numbers.
    (&[0x06, 0x01], 1, 4),
    (&[0x06, 0x01], 1, 1 << 31),
    (&[0x03, 0xFF, 0xFF], 1, 1 << 31),
    // Numbers that don't fit.
    (&[0x14, 0x02], 1, 3),
    (&[0x02, 0x00, 0x02], 9, 1),
    // Nothing behind a header.
    (&[0x02, 0x00], 9, 1),
    // A header of 2^64.
    (
        &[
            0x80, 0x80, 0x80, 0x80, 0x80, 0x80, 0x80, 0x80, 0x80, 0x02, 0x01,
        ],
        1,
        1,
    ),
    (
        &[
            0x80, 0x80, 0x80, 0x80, 0x80, 0x80, 0x80, 0x80, 0x80, 0x80, 0x00, 0x01,
        ],
        1,
        1,
    ),
    // A width above 32.
    (&[0x02, 0, 0, 0, 0, 0], 33, 1),
];

#[test]
fn runs_are_read(rt: HostRuntime) -> Result<(), Fail> {
    let alloc = rt.alloc();
    for (bytes, width, numbers) in READ {
        let mut longer = Items::from_slice(alloc, bytes)?;
        longer.push(0xFF)?;
        let (found, used) = read_runs(alloc, longer.as_slice(), width, numbers.len())?;
        assert_eq!(rt; found.as_slice(), numbers, "{bytes:?}");
        assert_eq!(rt; used, bytes.len(), "{bytes:?}");
    }
    for (bytes, width, count) in BAD {
        let bad = matches!(
            read_runs(alloc, bytes, width, count),
            Err(RunFault::BadRuns)
        );
        assert!(rt; bad, "{bytes:?}");
    }
    Ok(())
}

/// Numbers of `width` bits: some as often as their place, modulo 20.
fn sample(alloc: Global, width: u8) -> Result<NumberList, AllocError>
    requires { width ≤ 32 }
    ensures { IfOk result (λ it. All (λ number. number < 2 ^ width) it) }
{
    let mut numbers = Items::new(alloc);
    let mut state = 1u32;
    for place in 0..60u32 {
        state = state.wrapping_mul(69069).wrapping_add(1);
        let number = (u64::from(state) % (1u64 << width)) as u32;
        for _ in 0..place % 20 {
            numbers.push(number)?;
        }
    }
    Ok(numbers)
}

#[test]
fn every_width_is_read_back(rt: HostRuntime) -> Result<(), Fail> {
    let alloc = rt.alloc();
    for width in 0..=32 {
        let numbers = sample(alloc, width)?;
        let mut bytes = Items::new(alloc);
        bytes.push(0x2A)?;
        write_runs(alloc, &numbers, width, &mut bytes)?;
        let runs = &bytes.as_slice()[1..];
        let (found, used) = read_runs(alloc, runs, width, numbers.len())?;
        assert_eq!(rt; found.as_slice(), numbers.as_slice(), "width {width}");
        assert_eq!(rt; used, runs.len(), "width {width}");
        for cut in 0..runs.len() {
            let bad = matches!(
                read_runs(alloc, &runs[..cut], width, numbers.len()),
                Err(RunFault::BadRuns)
            );
            assert!(rt; bad, "width {width} cut at {cut}");
        }
    }
    Ok(())
}

#[test]
fn wide_numbers_have_zeros_above_them(rt: HostRuntime) -> Result<(), Fail> {
    let alloc = rt.alloc();
    let numbers = Items::from_slice(alloc, &[7, 7, 300])?;
    let mut bytes = Items::new(alloc);
    write_runs(alloc, &numbers, 40, &mut bytes)?;
    let wanted: &[u8] = &[4, 7, 0, 0, 0, 0, 2, 0x2C, 1, 0, 0, 0];
    assert_eq!(rt; bytes.as_slice(), wanted);
    Ok(())
}
