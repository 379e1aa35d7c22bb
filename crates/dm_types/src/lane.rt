// How the values of a column are kept.
ghost use Rattle.std.specs.Prelude.{◌≡◌, ◌≢◌, Bool, true, Option, Some, None, IsTrue, IfOk, IfSome};
ghost use Rattle.std.specs.declared.cmp.Ordering.{Ordering};
ghost use Rattle.dm_types.specs.Lanes.{IsOf};
ghost use Rattle.dm_types.specs.Value.{comparison, is_same};
ghost use Rattle.dm_types.specs.declared.value.DataType.{DataType};
ghost use Rattle.dm_types.specs.declared.value.DataType.TheVariants.{Void};
ghost use Rattle.dm_types.specs.declared.value.Value.{Value};
ghost use Rattle.dm_types.specs.declared.value.Value.TheVariants.{Null};

use crate::exact::Exact;
use crate::value::{DataType, Value};
use std::alloc::AllocError;
use std::cmp::Ordering;

/// A way to keep the values of a column: without nulls, and without what the column's type says of
/// all of them. A lane serves one type or more.
///
/// Code over lanes is written and proved once, from the laws below.
pub trait Lane {
    /// What is kept of a value.
    type Kept: Exact + Drop;

    /// Whether the lane serves a type.
    ghost serves: { DataType → Bool };

    /// What every kept value meets: its range.
    ghost is_kept: { Self.Kept → Type 0 };

    /// The value of what is kept, in a column of a type.
    ghost value_of: { Self.Kept → DataType → Value };

    /// What is kept of a value. None for null, and for a value that the lane doesn't hold.
    ghost kept_of: { Value → Option Self.Kept };

    /// Whether two are equal.
    ghost eq: { Self.Kept → Self.Kept → Bool };

    /// How two stand to one another.
    ghost cmp: { Self.Kept → Self.Kept → Ordering };

    /// The value of what is kept, in a column of a type that the lane serves.
    fn to_value(kept: &Self::Kept, kind: &DataType) -> Result<Value, AllocError>
        requires { IsTrue (serves kind.now) }
        ensures value { IfOk result (λ value. value ≡ value_of kept.now kind.now) }
        ensures within { is_kept kept.now };

    /// What is kept of a value. None for null, and for a value that the lane doesn't hold.
    fn from_value(value: &Value) -> Result<Option<Self::Kept>, AllocError>
        ensures kept { IfOk result (λ kept. kept ≡ kept_of value.now) }
        ensures within { IfOk result (λ kept. IfSome kept is_kept) };

    /// Whether two are equal. It takes no memory.
    fn equal(a: &Self::Kept, b: &Self::Kept) -> bool
        ensures { result ≡ eq a.now b.now };

    /// How two stand to one another. It takes no memory.
    fn order(a: &Self::Kept, b: &Self::Kept) -> Ordering
        ensures { result ≡ cmp a.now b.now };

    /// Nothing is kept of null.
    ghost null: { kept_of Null ≡ None };

    /// What is kept is no null.
    ghost no_null: { (kind : DataType) (k : Self.Kept) → value_of k kind ≢ Null };

    /// The value of what is kept gives it back.
    ghost back: { (kind : DataType) (k : Self.Kept) → IsTrue (serves kind) → is_kept k → kept_of (value_of k kind)
        ≡ Some k };

    /// The value of what is kept is of the type.
    ghost typed: { (kind : DataType) (k : Self.Kept) → IsTrue (serves kind) → is_kept k → kind ≢ Void
        → IsOf kind (value_of k kind) };

    /// What is kept of a value gives the value back, in a column of its type.
    ghost holds: { (kind : DataType) (v : Value) → IsTrue (serves kind) → IsOf kind v → (k : Self.Kept)
        × (kept_of v ≡ Some k) × (value_of k kind ≡ v) };

    /// What is kept is of a value that the lane holds: one of a type that it serves.
    ghost held: { (v : Value) (k : Self.Kept) → kept_of v ≡ Some k → (kind : DataType) × IsTrue (serves kind)
        × (value_of k kind ≡ v) };

    /// `equal` agrees with `same`.
    ghost equals: { (kind : DataType) (a b : Self.Kept) → IsTrue (serves kind)
        → is_same (value_of a kind) (value_of b kind) ≡ eq a b };

    /// `order` agrees with `compare`.
    ghost orders: { (kind : DataType) (a b : Self.Kept) → IsTrue (serves kind)
        → comparison (value_of a kind) (value_of b kind) ≡ Some (cmp a b) };
}
