// A column of one lane.
ghost use Rattle.std.specs.Prelude.{◌≡◌, ℕ, ◌<◌, ◌++◌, ◌∷◌, ◌↔◌, [], length, take, All, slice_get, slice_index_or, Some, OnOk, OnErr, IfOk, IfSome, IsTrue};
ghost use Rattle.std.specs.Option.{option_copied};
ghost use Rattle.column_vectors.specs.Cells.{gathered, value_or_null};
ghost use Rattle.dm_types.specs.Lanes.{IsOf, IsNullOrOf};
ghost use Rattle.dm_types.specs.declared.value.Value.TheVariants.{Null};

use crate::selection::Selection;
use dm_types::{DataType, Exact, Lane, PlaceList, Row, Value};
use std::alloc::{AllocError, Global};
use std::marker::Model;

/// A column in one lane: a type, and for each row a value of the type or null. Values are kept
/// packed, and nulls apart.
#[derive(Drop)]
pub struct Column<T: Lane> {
    kind: DataType,
    valid: Selection,
    kept: Vec<T::Kept>,
}

impl<T: Lane> Model for Column<T> {
    ghost use Rattle.column_vectors.specs.Cells.{Cells, shown, IsColumn};

    ghost Value = { Cells };

    ghost view = { λ column. record {
      kind = column.kind;
      values = shown (λ k. T.value_of k column.kind) column.valid column.kept.items;
    } };

    ghost invariant = { λ column. IsColumn T.serves T.value_of column.kind column.valid column.kept.items };
}

impl<T: Lane> Column<T> {
    /// A column of a type, without rows.
    pub fn new(alloc: Global, kind: DataType) -> Column<T>
        requires { IsTrue (T.serves kind) }
        ensures { result ≡ record { kind = kind; values = [] } }
    {
        Column {
            kind,
            valid: Selection::new(alloc),
            kept: Vec::new(alloc),
        }
    }

    /// How many rows there are.
    pub fn len(&self) -> usize
        ensures { result ≡ length self.now.values }
    {
        self.valid.len()
    }

    /// The type of the column.
    pub fn kind(&self) -> &DataType
        ensures kind { result.now ≡ self.now.kind }
        ensures lane { IsTrue (T.serves self.now.kind) }
        ensures typed { All (IsNullOrOf self.now.kind) self.now.values }
    {
        &self.kind
    }

    /// Whether a row is null. It takes no memory.
    pub fn is_null(&self, row: usize) -> bool
        requires { row < length self.now.values }
        ensures { IsTrue result ↔ (slice_get self.now.values row ≡ Some Null) }
    {
        !self.valid.test(row)
    }

    /// What is kept of a row's value, and None where it is null. It takes no memory.
    pub fn get(&self, row: usize) -> Option<&T::Kept>
        requires { row < length self.now.values }
        ensures typed { IfSome (option_copied result) (λ k. IsOf self.now.kind (T.value_of k self.now.kind)) }
        ensures value { slice_get self.now.values row
            ≡ Some (value_or_null (λ k. T.value_of k self.now.kind) (option_copied result)) }
    {
        if self.valid.test(row) {
            Some(&self.kept[self.valid.count_before(row)])
        } else {
            None
        }
    }

    /// A row's value.
    pub fn value(&self, row: usize) -> Result<Value, AllocError>
        requires { row < length self.now.values }
        ensures { IfOk result (λ value. slice_get self.now.values row ≡ Some value) }
    {
        match self.get(row) {
            Some(kept) => T::to_value(kept, &self.kind),
            None => Ok(Value::Null),
        }
    }

    /// Adds a row with a value at the end.
    pub fn push(&mut self, kept: T::Kept) -> Result<(), AllocError>
        requires { IsOf self.old.kind (T.value_of kept self.old.kind) }
        ensures kind { self.new.kind ≡ self.old.kind }
        ensures ok { OnOk result (self.new.values ≡ self.old.values ++ T.value_of kept self.old.kind ∷ []) }
        ensures err { OnErr result (self.new.values ≡ self.old.values) }
    {
        let count = self.kept.len();
        self.kept.push(kept)?;
        match self.valid.push(true) {
            Ok(()) => Ok(()),
            Err(error) => {
                self.kept.truncate(count);
                Err(error)
            }
        }
    }

    /// Adds a row that is null at the end.
    pub fn push_null(&mut self) -> Result<(), AllocError>
        ensures kind { self.new.kind ≡ self.old.kind }
        ensures ok { OnOk result (self.new.values ≡ self.old.values ++ Null ∷ []) }
        ensures err { OnErr result (self.new.values ≡ self.old.values) }
    {
        self.valid.push(false)?;
        Ok(())
    }

    /// Adds a row with a value of the column's type, or null, at the end.
    pub fn push_value(&mut self, value: &Value) -> Result<(), AllocError>
        requires { IsNullOrOf self.old.kind value.now }
        ensures kind { self.new.kind ≡ self.old.kind }
        ensures ok { OnOk result (self.new.values ≡ self.old.values ++ value.now ∷ []) }
        ensures err { OnErr result (self.new.values ≡ self.old.values) }
    {
        // The lane serves the column's type.
        let _ = &self.kind;
        match T::from_value(value)? {
            Some(kept) => self.push(kept),
            None => self.push_null(),
        }
    }

    /// Adds a copy of a row of another column of the same type at the end.
    pub fn push_copy(&mut self, from: &Column<T>, row: usize) -> Result<(), AllocError>
        requires kind { self.old.kind ≡ from.now.kind }
        requires row { row < length from.now.values }
        ensures kind { self.new.kind ≡ self.old.kind }
        ensures ok { OnOk result (self.new.values ≡ self.old.values ++ slice_index_or from.now.values row Null ∷ []) }
        ensures err { OnErr result (self.new.values ≡ self.old.values) }
    {
        match from.get(row) {
            Some(kept) => self.push(kept.clone()?),
            None => self.push_null(),
        }
    }

    /// Adds copies of the rows of another column of the same type at the end. After an error some
    /// of them, from the first one on, may be there.
    pub fn append(&mut self, more: &Column<T>) -> Result<(), AllocError>
        requires { self.old.kind ≡ more.now.kind }
        ensures kind { self.new.kind ≡ self.old.kind }
        ensures ok { OnOk result (self.new.values ≡ self.old.values ++ more.now.values) }
        ensures err { OnErr result ((rows : ℕ) × (self.new.values ≡ self.old.values ++ take rows more.now.values)) }
    {
        for row in 0..more.len() {
            self.push_copy(more, row)?;
        }
        Ok(())
    }

    /// The column of these values, which are null or of the type.
    pub fn from_values(
        alloc: Global,
        kind: &DataType,
        values: &Row,
    ) -> Result<Column<T>, AllocError>
        requires lane { IsTrue (T.serves kind.now) }
        requires typed { All (IsNullOrOf kind.now) values.now }
        ensures { IfOk result (λ column. column ≡ record { kind = kind.now; values = values.now }) }
    {
        let mut column = Column::new(alloc, *kind);
        for value in values.as_slice() {
            column.push_value(value)?;
        }
        Ok(column)
    }

    /// The rows at these places, in their order.
    pub fn gather(&self, alloc: Global, places: &PlaceList) -> Result<Column<T>, AllocError>
        requires { All (λ place. place < length self.now.values) places.now }
        ensures { IfOk result (λ column. column
            ≡ record { kind = self.now.kind; values = gathered self.now.values places.now }) }
    {
        let mut column = Column::new(alloc, self.kind);
        for place in places.as_slice() {
            column.push_copy(self, *place)?;
        }
        Ok(column)
    }

    /// The rows of this column, and then copies of those of another of the same type. The rows of this
    /// one stay where they are.
    pub fn concat(mut self, other: &Column<T>) -> Result<Column<T>, AllocError>
        requires { self.kind ≡ other.now.kind }
        ensures { IfOk result (λ column. column ≡ record { kind = self.kind; values = self.values ++ other.now.values }) }
    {
        self.append(other)?;
        Ok(self)
    }
}

impl<T: Lane> Clone for Column<T> {
    ghost is_clone = { λ x y. y ≡ x };

    fn clone(&self) -> Result<Column<T>, AllocError> {
        Ok(Column {
            kind: self.kind,
            valid: self.valid.clone()?,
            kept: self.kept.clone()?,
        })
    }
}

impl<T: Lane> Exact for Column<T> {
    ghost exact = { λ x y same. same };
}
