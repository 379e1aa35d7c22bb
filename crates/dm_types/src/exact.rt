// Types whose clone is the value that it was made from.
ghost use Rattle.std.specs.Prelude.{◌≡◌};
ghost use Rattle.std.proofs.Common.{rules};

/// A type whose clone is the same value.
///
/// `Clone` alone promises a relation of the type's own; this law turns it into equality, so that a
/// caller of `clone` knows what it holds.
pub trait Exact: Clone {
    /// A clone equals what it was made from.
    ghost exact: { (x y : Self) → Self.is_clone x y → y ≡ x };
}

impl Exact for bool {
    ghost exact = { λ x y same. same };
}

impl Exact for u8 {
    ghost exact = { λ x y same. same };
}

impl Exact for u32 {
    ghost exact = { λ x y same. same };
}

impl Exact for u64 {
    ghost exact = { λ x y same. same };
}

impl Exact for i8 {
    ghost exact = { λ x y same. same };
}

impl Exact for i16 {
    ghost exact = { λ x y same. same };
}

impl Exact for i32 {
    ghost exact = { λ x y same. same };
}

impl Exact for i64 {
    ghost exact = { λ x y same. same };
}

impl Exact for i128 {
    ghost exact = { λ x y same. same };
}

impl Exact for usize {
    ghost exact = { λ x y same. same };
}

impl<A: Exact, B: Exact> Exact for (A, B) {
    ghost exact = { λ x y same. Prim.search rules };
}

impl<T: Exact> Exact for Option<T> {
    ghost exact = { λ x y same. Prim.search rules };
}
