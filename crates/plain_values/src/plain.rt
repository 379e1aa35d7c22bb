// Reading and writing over the physical types.
ghost use Rattle.std.specs.Prelude.{◌≡◌, ◌++◌, ℕ, List, Result, OnOk, OnErr, take};
ghost use Rattle.plain_values.specs.Answers.{BeginsWith, ReadsPlain};
ghost use Rattle.plain_values.specs.Meaning.{AreBytes, Judges, Wrong, whole_at};

use crate::fault::PlainFault;
use dm_types::{Bytes, Items};
use std::alloc::{AllocError, Global};
use std::mem;

/// A physical type, in its encoding PLAIN (Encodings.md, "Plain: (PLAIN = 0)").
pub trait Plain {
    /// A list of its values.
    type Values: Drop;

    // How many values there are.
    ghost count_of: { Self.Values → ℕ };

    // Fixed arrays are of this length.
    ghost has_length: { ℕ → Self.Values → Type 0 };

    // The bytes are these values, where fixed arrays are of this length.
    ghost means: { ℕ → Self.Values → List ℕ → Type 0 };

    // What is read of bytes that are to be so many values, by the length of fixed arrays and the count.
    ghost plain_of: { ℕ → ℕ → List ℕ → Result Self.Values Wrong };

    // The values can be written.
    ghost can_write: { Self.Values → Type 0 };

    // The bytes that are written.
    ghost spelling: { Self.Values → List ℕ };

    /// The values, where the bytes are `count` of them and no more.
    fn read(
        alloc: Global,
        bytes: &[u8],
        length: usize,
        count: usize,
    ) -> Result<Self::Values, PlainFault>
        ensures { ReadsPlain (plain_of length count bytes.now) result };

    /// Adds the values. After want of memory a front of their bytes may stand behind `out`.
    fn write(values: &Self::Values, out: &mut Bytes) -> Result<(), AllocError>
        requires { can_write values.now }
        ensures ok { OnOk result (out.new ≡ out.old ++ spelling values.now) }
        ensures means { OnOk result ((length : ℕ) → has_length length values.now
            → means length values.now (spelling values.now)) }
        ensures err { OnErr result (BeginsWith out.old out.new) };

    // A law: what an answer says of the bytes.
    ghost judges: { (length count : ℕ) (bytes : List ℕ) → AreBytes bytes
        → Judges count_of (means length) count bytes (plain_of length count bytes) };

    // A law: bytes that mean values are read as these, and whatever follows is left.
    ghost again: { (length : ℕ) (values : Self.Values) (bytes rest : List ℕ) → means length values bytes
        → plain_of length (count_of values) (bytes ++ rest) ≡ whole_at values rest };
}

/// The `count` values that the bytes are.
///
/// `Short` comes exactly where the bytes end before `count` values, `Extra` exactly where they are
/// `count` values and bytes are left. `length` is the number of bytes of a fixed array, which is above
/// 0; the other physical types don't look at it. Nothing is reserved by the count: memory grows with the
/// values that the bytes hold.
pub fn read_plain<T: Plain>(
    alloc: Global,
    bytes: &[u8],
    length: usize,
    count: usize,
) -> Result<T::Values, PlainFault>
    ensures reads { ReadsPlain (T.plain_of length count bytes.now) result }
{
    T::read(alloc, bytes, length, count)
}

/// Takes away what is behind a front of so many bytes.
pub(crate) fn cut_back(alloc: Global, out: &mut Bytes, size: usize)
    ensures { out.new ≡ take size out.old }
{
    let mut bytes = mem::replace(out, Items::new(alloc)).into_vec();
    bytes.truncate(size);
    *out = Items::from_vec(bytes);
}

/// Adds the bytes of the values. A byte array has fewer than 2^32 bytes. Fixed arrays are read back
/// where they are of one length. After want of memory `out` is as before.
pub fn write_plain<T: Plain>(
    alloc: Global,
    values: &T::Values,
    out: &mut Bytes,
) -> Result<(), AllocError>
    requires { T.can_write values.now }
    ensures ok { OnOk result (out.new ≡ out.old ++ T.spelling values.now) }
    ensures means { OnOk result ((length : ℕ) → T.has_length length values.now
        → T.means length values.now (T.spelling values.now)) }
    ensures err { OnErr result (out.new ≡ out.old) }
{
    let size = out.len();
    let written = T::write(values, out);
    if written.is_err() {
        cut_back(alloc, out, size);
    }
    written
}
