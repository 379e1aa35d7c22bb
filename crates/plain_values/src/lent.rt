// Bytes that are lent.
ghost use Rattle.std.specs.Prelude.{◌≡◌, ◌++◌, OnOk, OnErr, All};
ghost use Rattle.std.specs.List.{flat_map};
ghost use Rattle.plain_values.specs.Answers.{BeginsWith, ReadsLent};
ghost use Rattle.plain_values.specs.Steps.{GivesFront};
ghost use Rattle.plain_values.specs.Forms.{IsArray, array_at, array_bytes};
ghost use Rattle.plain_values.specs.Meaning.{bytes_at, values_at, whole};

use crate::fault::PlainFault;
use crate::plain::cut_back;
use byteorder::{ByteOrder, LittleEndian};
use dm_types::{Bytes, Items};
use std::alloc::{AllocError, Global};

/// So many bytes at the front, and those behind them.
pub(crate) fn split(bytes: &[u8], size: usize) -> Result<(&[u8], &[u8]), PlainFault>
    ensures { GivesFront (λ found. (found.0.now, found.1.now)) (bytes_at size bytes.now) result }
{
    match bytes.split_at_checked(size) {
        Some(parts) => Ok(parts),
        None => Err(PlainFault::Short),
    }
}

/// The byte array at the front, and the bytes behind it.
pub(crate) fn split_array(bytes: &[u8]) -> Result<(&[u8], &[u8]), PlainFault>
    ensures { GivesFront (λ found. (found.0.now, found.1.now)) (array_at bytes.now) result }
{
    let (head, behind) = split(bytes, 4)?;
    split(behind, LittleEndian::read_u32(head) as usize)
}

/// The `count` byte arrays that the bytes are, as `read_plain::<PlainByteArray>` gives them, but lent:
/// each is a part of the bytes, and nothing is copied.
pub fn read_arrays(alloc: Global, bytes: &[u8], count: usize) -> Result<Items<&[u8]>, PlainFault>
    ensures reads { ReadsLent (whole (values_at array_at count bytes.now)) result }
{
    let mut arrays = Items::new(alloc);
    let mut rest = bytes;
    for _ in 0..count {
        let (array, behind) = split_array(rest)?;
        arrays.push(array)?;
        rest = behind;
    }
    if !rest.is_empty() {
        return Err(PlainFault::Extra);
    }
    Ok(arrays)
}

/// Adds a byte array behind its length.
pub(crate) fn push_array(array: &[u8], out: &mut Bytes) -> Result<(), AllocError>
    requires { IsArray array.now }
    ensures ok { OnOk result (out.new ≡ out.old ++ array_bytes array.now) }
    ensures err { OnErr result (BeginsWith out.old out.new) }
{
    let mut head = [0u8; 4];
    LittleEndian::write_u32(&mut head, array.len() as u32);
    out.extend_from_slice(&head)?;
    out.extend_from_slice(array)
}

fn push_arrays(arrays: &[&[u8]], out: &mut Bytes) -> Result<(), AllocError>
    requires { All (λ array. IsArray array.now) arrays.now }
    ensures ok { OnOk result (out.new ≡ out.old ++ flat_map (λ array. array_bytes array.now) arrays.now) }
    ensures err { OnErr result (BeginsWith out.old out.new) }
{
    for array in arrays {
        push_array(array, out)?;
    }
    Ok(())
}

/// Adds byte arrays that are lent, as `write_plain::<PlainByteArray>` adds them: each has fewer than
/// 2^32 bytes, which are copied once. After want of memory `out` is as before.
pub fn write_arrays(alloc: Global, arrays: &Items<&[u8]>, out: &mut Bytes) -> Result<(), AllocError>
    requires { All (λ array. IsArray array.now) arrays.now }
    ensures ok { OnOk result (out.new ≡ out.old ++ flat_map (λ array. array_bytes array.now) arrays.now) }
    ensures err { OnErr result (out.new ≡ out.old) }
{
    let size = out.len();
    let written = push_arrays(arrays.as_slice(), out);
    if written.is_err() {
        cut_back(alloc, out, size);
    }
    written
}
