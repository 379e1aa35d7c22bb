// The physical types whose values stand one after the other.
ghost use Rattle.std.specs.Prelude.{◌≡◌, ◌<◌, ◌^◌, ⊤, List, length};
ghost use Rattle.plain_values.specs.Forms.{IsInt32, IsInt64, IsArray, HasSize, int32_bytes, int64_bytes, array_bytes, own_bytes, int32_at, int64_at, array_at};
ghost use Rattle.plain_values.specs.FormsRead.{int32_read, int64_read, array_read, own_read};
ghost use Rattle.plain_values.specs.Meaning.{bytes_at};
ghost use Rattle.plain_values.specs.Steps.{GivesFront};

use crate::fault::PlainFault;
use crate::in_turn::InTurn;
use crate::lent::{push_array, split, split_array};
use byteorder::{ByteOrder, LittleEndian};
use dm_types::{Bytes, Items};
use std::alloc::{AllocError, Global};

/// INT32: four bytes, little endian, two's complement.
pub struct PlainInt32;

/// INT64: eight bytes, little endian, two's complement.
pub struct PlainInt64;

/// INT96: twelve bytes.
pub struct PlainInt96;

/// FLOAT: the four bytes of an IEEE number, kept as bytes.
pub struct PlainFloat;

/// DOUBLE: the eight bytes of an IEEE number, kept as bytes.
pub struct PlainDouble;

/// BYTE_ARRAY: a length in four bytes, little endian, and so many bytes.
pub struct PlainByteArray;

/// FIXED_LEN_BYTE_ARRAY: as many bytes as the length that is given.
pub struct PlainFixed;

impl InTurn for PlainInt32 {
    type Value = i32;

    ghost is = { λ size value. IsInt32 value };

    ghost has_length = { λ size value. ⊤ };

    ghost spelled = { λ value. int32_bytes value };

    ghost value_at = { λ size bytes. int32_at bytes };

    ghost can_push = { λ value. ⊤ };

    ghost is_reader = { λ size. int32_read };

    fn take<'a>(
        _alloc: Global,
        bytes: &'a [u8],
        _length: usize,
    ) -> Result<(i32, &'a [u8]), PlainFault> {
        let (front, rest) = split(bytes, 4)?;
        Ok((LittleEndian::read_i32(front), rest))
    }

    fn push(value: &i32, out: &mut Bytes) -> Result<(), AllocError> {
        let mut bytes = [0u8; 4];
        LittleEndian::write_i32(&mut bytes, *value);
        out.extend_from_slice(&bytes)
    }
}

impl InTurn for PlainInt64 {
    type Value = i64;

    ghost is = { λ size value. IsInt64 value };

    ghost has_length = { λ size value. ⊤ };

    ghost spelled = { λ value. int64_bytes value };

    ghost value_at = { λ size bytes. int64_at bytes };

    ghost can_push = { λ value. ⊤ };

    ghost is_reader = { λ size. int64_read };

    fn take<'a>(
        _alloc: Global,
        bytes: &'a [u8],
        _length: usize,
    ) -> Result<(i64, &'a [u8]), PlainFault> {
        let (front, rest) = split(bytes, 8)?;
        Ok((LittleEndian::read_i64(front), rest))
    }

    fn push(value: &i64, out: &mut Bytes) -> Result<(), AllocError> {
        let mut bytes = [0u8; 8];
        LittleEndian::write_i64(&mut bytes, *value);
        out.extend_from_slice(&bytes)
    }
}

impl InTurn for PlainInt96 {
    type Value = [u8; 12];

    ghost is = { λ size value. HasSize 12 value };

    ghost has_length = { λ size value. ⊤ };

    ghost spelled = { λ value. own_bytes value };

    ghost value_at = { λ size bytes. bytes_at 12 bytes };

    ghost can_push = { λ value. ⊤ };

    ghost is_reader = { λ size. own_read 12 };

    fn take<'a>(
        _alloc: Global,
        bytes: &'a [u8],
        _length: usize,
    ) -> Result<([u8; 12], &'a [u8]), PlainFault> {
        let (front, rest) = split(bytes, 12)?;
        let mut value = [0u8; 12];
        value.copy_from_slice(front);
        Ok((value, rest))
    }

    fn push(value: &[u8; 12], out: &mut Bytes) -> Result<(), AllocError> {
        out.extend_from_slice(value)
    }
}

impl InTurn for PlainFloat {
    type Value = [u8; 4];

    ghost is = { λ size value. HasSize 4 value };

    ghost has_length = { λ size value. ⊤ };

    ghost spelled = { λ value. own_bytes value };

    ghost value_at = { λ size bytes. bytes_at 4 bytes };

    ghost can_push = { λ value. ⊤ };

    ghost is_reader = { λ size. own_read 4 };

    fn take<'a>(
        _alloc: Global,
        bytes: &'a [u8],
        _length: usize,
    ) -> Result<([u8; 4], &'a [u8]), PlainFault> {
        let (front, rest) = split(bytes, 4)?;
        let mut value = [0u8; 4];
        value.copy_from_slice(front);
        Ok((value, rest))
    }

    fn push(value: &[u8; 4], out: &mut Bytes) -> Result<(), AllocError> {
        out.extend_from_slice(value)
    }
}

impl InTurn for PlainDouble {
    type Value = [u8; 8];

    ghost is = { λ size value. HasSize 8 value };

    ghost has_length = { λ size value. ⊤ };

    ghost spelled = { λ value. own_bytes value };

    ghost value_at = { λ size bytes. bytes_at 8 bytes };

    ghost can_push = { λ value. ⊤ };

    ghost is_reader = { λ size. own_read 8 };

    fn take<'a>(
        _alloc: Global,
        bytes: &'a [u8],
        _length: usize,
    ) -> Result<([u8; 8], &'a [u8]), PlainFault> {
        let (front, rest) = split(bytes, 8)?;
        let mut value = [0u8; 8];
        value.copy_from_slice(front);
        Ok((value, rest))
    }

    fn push(value: &[u8; 8], out: &mut Bytes) -> Result<(), AllocError> {
        out.extend_from_slice(value)
    }
}

impl InTurn for PlainByteArray {
    type Value = Bytes;

    ghost is = { λ size value. IsArray value };

    ghost has_length = { λ size value. ⊤ };

    ghost spelled = { λ value. array_bytes value };

    ghost value_at = { λ size bytes. array_at bytes };

    ghost can_push = { λ value. IsArray value };

    ghost is_reader = { λ size. array_read };

    fn take<'a>(
        alloc: Global,
        bytes: &'a [u8],
        _length: usize,
    ) -> Result<(Bytes, &'a [u8]), PlainFault> {
        let (front, rest) = split_array(bytes)?;
        Ok((Items::from_slice(alloc, front)?, rest))
    }

    fn push(value: &Bytes, out: &mut Bytes) -> Result<(), AllocError> {
        push_array(value.as_slice(), out)
    }
}

impl InTurn for PlainFixed {
    type Value = Bytes;

    ghost is = { λ size value. HasSize size value };

    ghost has_length = { λ size value. HasSize size value };

    ghost spelled = { λ value. own_bytes value };

    ghost value_at = { λ size bytes. bytes_at size bytes };

    ghost can_push = { λ value. ⊤ };

    ghost is_reader = { λ size. own_read size };

    fn take<'a>(
        alloc: Global,
        bytes: &'a [u8],
        length: usize,
    ) -> Result<(Bytes, &'a [u8]), PlainFault> {
        let (front, rest) = split(bytes, length)?;
        Ok((Items::from_slice(alloc, front)?, rest))
    }

    fn push(value: &Bytes, out: &mut Bytes) -> Result<(), AllocError> {
        out.extend_from_slice(value.as_slice())
    }
}
