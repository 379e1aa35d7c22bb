// A column of any type.
ghost use Rattle.std.specs.Prelude.{◌≡◌, ◌<◌, ◌++◌, ◌∷◌, [], ◌↔◌, length, All, slice_get, Some, IfOk, OnOk, OnErr, IsTrue};
ghost use Rattle.column_vectors.specs.Cells.{gathered};
ghost use Rattle.dm_types.specs.Lanes.{IsNullOrOf};
ghost use Rattle.dm_types.specs.declared.value.Value.TheVariants.{Null};

use crate::column::Column;
use crate::lane_column::LaneColumn;
use dm_types::{
    DataType, Exact, LaneBool, LaneByte, LaneBytes, LaneDecimal, LaneInt, LaneLong, LaneShort,
    LaneText, PlaceList, Row, Value,
};
use std::alloc::{AllocError, Global};
use std::marker::Model;

/// A column of any type: the type, and the list of its values. It is kept in the lane that serves
/// the type, which `lane` lends to who works lane by lane.
#[derive(Drop)]
pub struct AnyColumn {
    column: LaneColumn,
}

impl Model for AnyColumn {
    ghost use Rattle.column_vectors.specs.Cells.{Cells};
    ghost use Rattle.column_vectors.specs.Lanes.{cells_of, IsServed};

    ghost Value = { Cells };

    ghost view = { λ any. cells_of any.column };

    ghost invariant = { λ any. IsServed any.column };
}

// What is done with the column of each lane.
macro_rules! with_lane {
    ($lane:expr, $column:ident => $done:expr) => {
        match $lane {
            LaneColumn::Bool($column) => $done,
            LaneColumn::Byte($column) => $done,
            LaneColumn::Short($column) => $done,
            LaneColumn::Int($column) => $done,
            LaneColumn::Long($column) => $done,
            LaneColumn::Decimal($column) => $done,
            LaneColumn::Text($column) => $done,
            LaneColumn::Bytes($column) => $done,
        }
    };
}

impl AnyColumn {
    ghost use Rattle.column_vectors.specs.Lanes.{cells_of, IsServed};

    /// A column in the lane that serves its type.
    pub fn from_lane(column: LaneColumn) -> AnyColumn
        requires { IsServed column }
        ensures { result ≡ cells_of column }
    {
        AnyColumn { column }
    }

    /// The column in its lane. It takes no memory.
    pub fn lane(&self) -> &LaneColumn
        ensures cells { cells_of result.now ≡ self.now }
        ensures served { IsServed result.now }
    {
        &self.column
    }

    /// How many rows there are. It takes no memory.
    pub fn len(&self) -> usize
        ensures { result ≡ length self.now.values }
    {
        with_lane!(&self.column, column => column.len())
    }

    /// The type of the column. It takes no memory.
    pub fn kind(&self) -> &DataType
        ensures kind { result.now ≡ self.now.kind }
        ensures typed { All (IsNullOrOf self.now.kind) self.now.values }
    {
        with_lane!(&self.column, column => column.kind())
    }

    /// Whether a row is null. It takes no memory.
    pub fn is_null(&self, row: usize) -> bool
        requires { row < length self.now.values }
        ensures { IsTrue result ↔ (slice_get self.now.values row ≡ Some Null) }
    {
        with_lane!(&self.column, column => column.is_null(row))
    }

    /// A row's value.
    pub fn get(&self, row: usize) -> Result<Value, AllocError>
        requires { row < length self.now.values }
        ensures { IfOk result (λ value. slice_get self.now.values row ≡ Some value) }
    {
        with_lane!(&self.column, column => column.value(row))
    }

    /// A column of a type, without rows. It takes no memory.
    pub fn new(alloc: Global, kind: DataType) -> AnyColumn
        ensures { result ≡ record { kind = kind; values = [] } }
    {
        let column = match kind {
            DataType::Void | DataType::Boolean => LaneColumn::Bool(Column::new(alloc, kind)),
            DataType::Byte => LaneColumn::Byte(Column::new(alloc, kind)),
            DataType::Short => LaneColumn::Short(Column::new(alloc, kind)),
            DataType::Integer | DataType::Date => LaneColumn::Int(Column::new(alloc, kind)),
            DataType::Long | DataType::Timestamp => LaneColumn::Long(Column::new(alloc, kind)),
            DataType::Decimal { .. } => LaneColumn::Decimal(Column::new(alloc, kind)),
            DataType::Str => LaneColumn::Text(Column::new(alloc, kind)),
            DataType::Binary => LaneColumn::Bytes(Column::new(alloc, kind)),
        };
        AnyColumn { column }
    }

    /// Adds a row with a value of the column's type, or null, at the end. A text and bytes are moved.
    pub fn push(&mut self, value: Value) -> Result<(), AllocError>
        requires { IsNullOrOf self.old.kind value }
        ensures kind { self.new.kind ≡ self.old.kind }
        ensures ok { OnOk result (self.new.values ≡ self.old.values ++ value ∷ []) }
        ensures err { OnErr result (self.new.values ≡ self.old.values) }
    {
        match (&mut self.column, value) {
            (LaneColumn::Text(column), Value::Text(text)) => column.push(text),
            (LaneColumn::Bytes(column), Value::Bytes(bytes)) => column.push(bytes),
            (column, value) => with_lane!(column, column => column.push_value(&value)),
        }
    }

    /// The column of these values, which are null or of the type.
    pub fn from_values(
        alloc: Global,
        kind: &DataType,
        values: &Row,
    ) -> Result<AnyColumn, AllocError>
        requires { All (IsNullOrOf kind.now) values.now }
        ensures { IfOk result (λ column. column ≡ record { kind = kind.now; values = values.now }) }
    {
        let column = match kind {
            DataType::Void | DataType::Boolean => {
                LaneColumn::Bool(Column::from_values(alloc, kind, values)?)
            }
            DataType::Byte => LaneColumn::Byte(Column::from_values(alloc, kind, values)?),
            DataType::Short => LaneColumn::Short(Column::from_values(alloc, kind, values)?),
            DataType::Integer | DataType::Date => {
                LaneColumn::Int(Column::from_values(alloc, kind, values)?)
            }
            DataType::Long | DataType::Timestamp => {
                LaneColumn::Long(Column::from_values(alloc, kind, values)?)
            }
            DataType::Decimal { .. } => {
                LaneColumn::Decimal(Column::from_values(alloc, kind, values)?)
            }
            DataType::Str => LaneColumn::Text(Column::from_values(alloc, kind, values)?),
            DataType::Binary => LaneColumn::Bytes(Column::from_values(alloc, kind, values)?),
        };
        Ok(AnyColumn { column })
    }

    /// The rows at these places, in their order.
    pub fn gather(&self, alloc: Global, places: &PlaceList) -> Result<AnyColumn, AllocError>
        requires { All (λ place. place < length self.now.values) places.now }
        ensures { IfOk result (λ column. column
            ≡ record { kind = self.now.kind; values = gathered self.now.values places.now }) }
    {
        let column = match &self.column {
            LaneColumn::Bool(column) => LaneColumn::Bool(column.gather(alloc, places)?),
            LaneColumn::Byte(column) => LaneColumn::Byte(column.gather(alloc, places)?),
            LaneColumn::Short(column) => LaneColumn::Short(column.gather(alloc, places)?),
            LaneColumn::Int(column) => LaneColumn::Int(column.gather(alloc, places)?),
            LaneColumn::Long(column) => LaneColumn::Long(column.gather(alloc, places)?),
            LaneColumn::Decimal(column) => LaneColumn::Decimal(column.gather(alloc, places)?),
            LaneColumn::Text(column) => LaneColumn::Text(column.gather(alloc, places)?),
            LaneColumn::Bytes(column) => LaneColumn::Bytes(column.gather(alloc, places)?),
        };
        Ok(AnyColumn { column })
    }

    /// The rows of this column, and then copies of those of another of the same type. The rows of this
    /// one stay where they are.
    pub fn concat(self, other: &AnyColumn) -> Result<AnyColumn, AllocError>
        requires { self.kind ≡ other.now.kind }
        ensures { IfOk result (λ column. column ≡ record { kind = self.kind; values = self.values ++ other.now.values }) }
    {
        let column = match (self.column, &other.column) {
            (LaneColumn::Bool(a), LaneColumn::Bool(b)) => LaneColumn::Bool(a.concat(b)?),
            (LaneColumn::Byte(a), LaneColumn::Byte(b)) => LaneColumn::Byte(a.concat(b)?),
            (LaneColumn::Short(a), LaneColumn::Short(b)) => LaneColumn::Short(a.concat(b)?),
            (LaneColumn::Int(a), LaneColumn::Int(b)) => LaneColumn::Int(a.concat(b)?),
            (LaneColumn::Long(a), LaneColumn::Long(b)) => LaneColumn::Long(a.concat(b)?),
            (LaneColumn::Decimal(a), LaneColumn::Decimal(b)) => LaneColumn::Decimal(a.concat(b)?),
            (LaneColumn::Text(a), LaneColumn::Text(b)) => LaneColumn::Text(a.concat(b)?),
            (LaneColumn::Bytes(a), LaneColumn::Bytes(b)) => LaneColumn::Bytes(a.concat(b)?),
            _ => unreachable!(),
        };
        Ok(AnyColumn { column })
    }
}

impl Clone for AnyColumn {
    ghost use Rattle.std.specs.Prelude.{◌≡◌};

    ghost is_clone = { λ x y. y ≡ x };

    fn clone(&self) -> Result<AnyColumn, AllocError> {
        Ok(AnyColumn {
            column: self.column.clone()?,
        })
    }
}

impl Exact for AnyColumn {
    ghost exact = { λ x y same. same };
}
