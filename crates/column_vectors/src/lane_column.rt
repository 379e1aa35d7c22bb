// A column in one of the eight lanes.
use crate::column::Column;
use dm_types::{
    Exact, LaneBool, LaneByte, LaneBytes, LaneDecimal, LaneInt, LaneLong, LaneShort, LaneText,
};

/// A column in one of the eight lanes.
///
/// An `AnyColumn` is one of these whose lane serves its type. Callers see that as a type and a list
/// of values, whichever lane they are kept in, and call its methods. Who works lane by lane, as an
/// evaluator of expressions does, takes it apart by matching on `AnyColumn::lane`, and puts what was
/// computed together by `AnyColumn::from_lane`: a match needs variants, which a value that is seen
/// as a list has none of.
#[derive(Clone, Drop)]
pub enum LaneColumn {
    /// Truth values, or nulls alone where the type is that of NULL.
    Bool(Column<LaneBool>),
    /// Whole numbers of 8 bits.
    Byte(Column<LaneByte>),
    /// Whole numbers of 16 bits.
    Short(Column<LaneShort>),
    /// Whole numbers of 32 bits, or days.
    Int(Column<LaneInt>),
    /// Whole numbers of 64 bits, or moments.
    Long(Column<LaneLong>),
    /// Decimals.
    Decimal(Column<LaneDecimal>),
    /// Texts.
    Text(Column<LaneText>),
    /// Bytes.
    Bytes(Column<LaneBytes>),
}

impl Exact for LaneColumn {
    ghost use Rattle.std.proofs.Common.{rules};

    ghost exact = { Prim.search rules };
}
