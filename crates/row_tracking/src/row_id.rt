// The id and the commit version of a row.
use dm_types::{Exact, Items};

/// What row tracking knows of a row (PROTOCOL.md, "Row Tracking").
#[derive(Clone, Copy, Debug)]
pub struct RowId {
    /// The row's id, which stays with it for as long as it is in the table; None without row
    /// tracking. A sound one is from 0 to the table's mark.
    pub id: Option<i64>,
    /// The version that made the row or last changed it; None without row tracking.
    pub version: Option<i64>,
}

impl Exact for RowId {
    ghost use Rattle.std.proofs.Common.{rules};

    ghost exact = { Prim.search rules };
}

/// The ids and commit versions of rows, one for each.
pub type RowIds = Items<RowId>;
