// Fixed arrays that are lent.
ghost use Rattle.std.specs.Prelude.{◌≡◌, length, option_map, slice_get};
ghost use Rattle.plain_values.specs.Answers.{ReadsPlain};
ghost use Rattle.plain_values.specs.Meaning.{bytes_at, values_at, whole};

use crate::fault::PlainFault;
use std::marker::Model;

/// Arrays of one size that stand one after the other, and are parts of bytes.
#[derive(Drop)]
pub struct FixedArrays<'a> {
    bytes: &'a [u8],
    size: usize,
    count: usize,
}

impl<'a> Model for FixedArrays<'a> {
    ghost use Rattle.std.specs.Prelude.{◌≡◌, ◌*◌, ℕ, List, length};
    ghost use Rattle.plain_values.specs.Fixed.{arrays_in};

    ghost Value = { List (List ℕ) };

    ghost view = { λ arrays. arrays_in arrays.size arrays.count arrays.bytes.now };

    ghost invariant = { λ arrays. length arrays.bytes.now ≡ arrays.count * arrays.size };
}

impl FixedArrays<'_> {
    /// How many arrays there are.
    pub fn len(&self) -> usize
        ensures { result ≡ length self.now }
    {
        self.count
    }

    /// The array at a place, counted from 0.
    pub fn get(&self, at: usize) -> Option<&[u8]>
        ensures { option_map (λ array. array.now) result ≡ slice_get self.now at }
    {
        if at >= self.count {
            return None;
        }
        Some(&self.bytes[at * self.size..(at + 1) * self.size])
    }
}

/// The `count` arrays of `size` bytes that the bytes are, as `read_plain::<PlainFixed>` gives them, but
/// lent: each is a part of the bytes, and no memory is taken.
pub fn read_fixed(bytes: &[u8], size: usize, count: usize) -> Result<FixedArrays<'_>, PlainFault>
    ensures reads { ReadsPlain (whole (values_at (bytes_at size) count bytes.now)) result }
{
    let all = count.saturating_mul(size);
    if bytes.len() < all {
        return Err(PlainFault::Short);
    }
    if bytes.len() > all {
        return Err(PlainFault::Extra);
    }
    Ok(FixedArrays { bytes, size, count })
}
