// Values of each physical type, both ways, and bytes that are too few or too many.
use dm_types::Items;
use plain_values::{
    Plain, PlainBoolean, PlainByteArray, PlainDouble, PlainFault, PlainFixed, PlainFloat,
    PlainInt32, PlainInt64, PlainInt96, read_plain, write_plain,
};
use std::alloc::Global;
use std::test::Fail;

const INT32_BYTES: &[u8] = &[
    0x02, 0x01, 0x00, 0x00, 0xFF, 0xFF, 0xFF, 0xFF, 0x00, 0x00, 0x00, 0x80, 0xFF, 0xFF, 0xFF, 0x7F,
];

const INT32S: &[i32] = &[258, -1, i32::MIN, i32::MAX];

const INT64_BYTES: &[u8] = &[
    0x08, 0x07, 0x06, 0x05, 0x04, 0x03, 0x02, 0x01, 0xFE, 0xFF, 0xFF, 0xFF, 0xFF, 0xFF, 0xFF, 0xFF,
];

const INT64S: &[i64] = &[0x0102_0304_0506_0708, -2];
/// The start of 1970 as INT96.
const INT96_BYTES: &[u8] = &[0, 0, 0, 0, 0, 0, 0, 0, 0x8C, 0x3D, 0x25, 0x00];
/// The number 1 as FLOAT, and as DOUBLE.
const FLOAT_BYTES: &[u8] = &[0x00, 0x00, 0x80, 0x3F];

const DOUBLE_BYTES: &[u8] = &[0, 0, 0, 0, 0, 0, 0xF0, 0x3F];
/// The texts `a`, none and `bc`.
const ARRAY_BYTES: &[u8] = &[1, 0, 0, 0, b'a', 0, 0, 0, 0, 2, 0, 0, 0, b'b', b'c'];
/// Eleven truth values, with zeros behind them.
const FLAG_BYTES: &[u8] = &[0b1000_1101, 0b0000_0110];

const FLAGS: &[bool] = &[
    true, false, true, true, false, false, false, true, false, true, true,
];

/// Whether values that are read are written as the same bytes.
fn same<T: Plain>(alloc: Global, bytes: &[u8], length: usize, count: usize) -> Result<bool, Fail>
    requires { (values : T.Values) → T.can_write values }
{
    let values = read_plain::<T>(alloc, bytes, length, count)?;
    let mut out = Items::new(alloc);
    write_plain::<T>(alloc, &values, &mut out)?;
    Ok(out.as_slice() == bytes)
}

#[test]
fn values_are_read(rt: HostRuntime) -> Result<(), Fail> {
    let alloc = rt.alloc();
    let small = read_plain::<PlainInt32>(alloc, INT32_BYTES, 0, INT32S.len())?;
    assert_eq!(rt; small.as_slice(), INT32S);
    let large = read_plain::<PlainInt64>(alloc, INT64_BYTES, 0, INT64S.len())?;
    assert_eq!(rt; large.as_slice(), INT64S);
    let flags = read_plain::<PlainBoolean>(alloc, FLAG_BYTES, 0, FLAGS.len())?;
    assert_eq!(rt; flags.as_slice(), FLAGS);
    Ok(())
}

#[test]
fn values_are_written_again(rt: HostRuntime) -> Result<(), Fail> {
    let alloc = rt.alloc();
    assert!(rt; same::<PlainInt32>(alloc, INT32_BYTES, 0, 4)?);
    assert!(rt; same::<PlainInt64>(alloc, INT64_BYTES, 0, 2)?);
    assert!(rt; same::<PlainInt96>(alloc, INT96_BYTES, 0, 1)?);
    assert!(rt; same::<PlainFloat>(alloc, FLOAT_BYTES, 0, 1)?);
    assert!(rt; same::<PlainDouble>(alloc, DOUBLE_BYTES, 0, 1)?);
    assert!(rt; same::<PlainFixed>(alloc, ARRAY_BYTES, 5, 3)?);
    assert!(rt; same::<PlainBoolean>(alloc, FLAG_BYTES, 0, 11)?);
    Ok(())
}

#[test]
fn byte_arrays_are_read_and_written(rt: HostRuntime) -> Result<(), Fail> {
    let alloc = rt.alloc();
    let mut texts = Items::new(alloc);
    texts.push(Items::from_slice(alloc, b"a")?)?;
    texts.push(Items::new(alloc))?;
    texts.push(Items::from_slice(alloc, b"bc")?)?;
    let mut out = Items::new(alloc);
    write_plain::<PlainByteArray>(alloc, &texts, &mut out)?;
    assert_eq!(rt; out.as_slice(), ARRAY_BYTES);
    let found = read_plain::<PlainByteArray>(alloc, out.as_slice(), 0, 3)?;
    assert!(rt; found == texts);
    Ok(())
}

/// Which fault reading gives, or none.
fn fault<T: Plain>(alloc: Global, bytes: &[u8], length: usize, count: usize) -> Option<PlainFault> {
    read_plain::<T>(alloc, bytes, length, count).err()
}

/// Whether bytes of zeros give this fault, or none, as values of four bytes each.
fn four_each(
    alloc: Global,
    size: usize,
    count: usize,
    wanted: Option<PlainFault>,
) -> Result<bool, Fail> {
    let zeros = vec![in alloc; 0u8; size]?;
    let bytes = zeros.as_slice();
    Ok(
        fault::<PlainInt32>(alloc, bytes, 0, count) == wanted
            && fault::<PlainFloat>(alloc, bytes, 0, count) == wanted
            && fault::<PlainFixed>(alloc, bytes, 4, count) == wanted
            && fault::<PlainByteArray>(alloc, bytes, 0, count) == wanted,
    )
}

const SHORT: Option<PlainFault> = Some(PlainFault::Short);

const EXTRA: Option<PlainFault> = Some(PlainFault::Extra);

/// Numbers of bytes, and of values of four bytes each.
const FOURS: [(usize, usize, Option<PlainFault>); 7] = [
    (0, 0, None),
    (8, 2, None),
    (7, 2, SHORT),
    (8, 3, SHORT),
    (3, 1 << 31, SHORT),
    (9, 2, EXTRA),
    (1, 0, EXTRA),
];

/// Bytes, and how many truth values or byte arrays they are to be.
const FLAG_FAULTS: [(&[u8], usize, Option<PlainFault>); 7] = [
    (&[], 0, None),
    (&[0xFF], 1, None),
    (&[0xFF], 9, SHORT),
    (&[0xFF, 0xFF], 9, None),
    (&[0xFF, 0xFF], 8, EXTRA),
    (&[0xFF], 0, EXTRA),
    (&[0xFF, 0xFF, 0xFF], 1 << 31, SHORT),
];

const ARRAY_FAULTS: [(&[u8], usize, Option<PlainFault>); 4] = [
    (&[2, 0, 0, 0, b'a'], 1, SHORT),
    (&[5, 0, 0, 0, b'a'], 1, SHORT),
    (&[0xFF, 0xFF, 0xFF, 0xFF, b'a'], 1, SHORT),
    (&[1, 0, 0, 0, b'a', 0], 1, EXTRA),
];

#[test]
fn too_few_and_too_many_bytes_are_told(rt: HostRuntime) -> Result<(), Fail> {
    let alloc = rt.alloc();
    for (size, count, wanted) in FOURS {
        assert!(rt; four_each(alloc, size, count, wanted)?, "{size} {count}");
    }
    for (bytes, count, wanted) in FLAG_FAULTS {
        assert!(rt;
            fault::<PlainBoolean>(alloc, bytes, 0, count) == wanted,
            "{bytes:?} {count}"
        );
    }
    for (bytes, count, wanted) in ARRAY_FAULTS {
        assert!(rt;
            fault::<PlainByteArray>(alloc, bytes, 0, count) == wanted,
            "{bytes:?}"
        );
    }
    Ok(())
}
