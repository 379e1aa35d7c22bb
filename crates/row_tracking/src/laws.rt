// The least id that fails, and the order of rows by their ids.
ghost use Rattle.std.specs.Prelude.{◌≡◌, ℕ, ℤ, List, length, All, None};
ghost use Rattle.std.specs.List.{range_with_len};
ghost use Rattle.std.specs.List.Sorted.{IsPermutation};
ghost use Rattle.row_tracking.specs.Checked.{Fails, IsLeast, least_failing};
ghost use Rattle.row_tracking.specs.Order.{HasDistinctIds, in_id_order, rows_by_id};
ghost use Rattle.row_tracking.specs.declared.row_id.RowId.{RowId as ARow};

/// A law: the least of the ids of unsound rows is the least id that fails.
pub fn least_of_unsound()
    ensures { (rows : List ARow) (mark : ℤ) (version : ℕ)
        → IsLeast (Fails rows mark version) (least_failing rows mark version) }
{}

/// A law: the least id that fails is the same in whatever order the rows stand.
pub fn order_is_free()
    ensures { (rows others : List ARow) (mark : ℤ) (version : ℕ) → IsPermutation rows others
        → least_failing others mark version ≡ least_failing rows mark version }
{}

/// A law: rows with distinct ids are put in the same order, in whatever order they stand.
pub fn ids_decide()
    ensures { (rows others : List ARow) → IsPermutation rows others → HasDistinctIds rows → HasDistinctIds others
        → rows_by_id others ≡ rows_by_id rows }
{}

/// A law: rows without ids stay as they are.
pub fn unnumbered_stay()
    ensures { (rows : List ARow) → All (λ row. row.id ≡ None) rows
        → in_id_order rows ≡ range_with_len 0 (length rows) }
{}
