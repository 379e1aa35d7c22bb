// What is known of the values of a column.
ghost use Rattle.std.specs.Prelude.{◌≡◌, ℕ, true, false, List, All, Ok};
ghost use Rattle.dm_types.specs.Ranges.{IsNullOrInRange, IsWellFormed};
ghost use Rattle.dm_types.specs.declared.value.Value.{Value as AValue};
ghost use Rattle.parquet_file.specs.File.{Opened, column_of};
ghost use Rattle.parquet_pages.specs.Pages.{Wanted};
ghost use Rattle.parquet_pages.specs.Stored.{is_full};

/// A law: the values of a column are null or in the range of its type, and none is null where the
/// column takes no null.
pub fn columns_are_ranged()
    ensures ranges { (file : Opened) (at : ℕ) (wanted : Wanted) (text_left : ℕ) (values : List AValue)
        → IsWellFormed wanted.kind → column_of file at wanted text_left ≡ Ok values
        → All (IsNullOrInRange wanted.kind) values }
    ensures full { (file : Opened) (at : ℕ) (wanted : Wanted) (text_left : ℕ) (values : List AValue)
        → IsWellFormed wanted.kind → wanted.nullable ≡ false → column_of file at wanted text_left ≡ Ok values
        → All (λ value. is_full value ≡ true) values }
{
    parquet_pages::laws::values_are_ranged();
}
