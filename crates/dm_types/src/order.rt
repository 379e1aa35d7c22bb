// Texts in byte order.
ghost use Rattle.std.specs.Prelude.{◌≡◌};
ghost use Rattle.std.specs.Cmp.Lexicographic.{slice_cmp};
ghost use Rattle.std.specs.List.Sorted.{IsPermutation, IsSorted};
ghost use Rattle.std.specs.Ordering.{nat_cmp};
ghost use Rattle.dm_types.specs.Order.{in_byte_order};

use crate::TextList;

/// Sorts texts by their bytes. The first clause computes the answer; the other two say that it is a
/// sorted list of the same texts.
pub fn sort_texts(texts: &mut TextList)
    ensures order { texts.new ≡ in_byte_order texts.old }
    ensures permutation { IsPermutation texts.old texts.new }
    ensures sorted { IsSorted (slice_cmp nat_cmp) texts.new }
{
    texts.sort();
}
