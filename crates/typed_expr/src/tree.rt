// Expressions that have a type.
ghost use Rattle.std.specs.Prelude.{◌≡◌};
ghost use Rattle.typed_expr.specs.Kinds.{kind_of};

use dm_types::{DataType, Value};
use sql_tree::Truth;
use sqlite_items::{Boxed, Items};

/// Typed expressions, in order.
pub type TypedExprs = Items<TypedExpr>;

/// Conditions, each with the value where it is the first that is true.
pub type TypedBranches = Items<(TypedExpr, TypedExpr)>;

/// An operator on two numbers, or a comparison that is null where a side is null.
#[derive(Clone, Copy)]
pub enum Op {
    Add,
    Subtract,
    Multiply,
    /// DIV: the quotient of whole numbers, cut towards zero.
    Quotient,
    /// `%`: what is left of that division, with the sign of the dividend.
    Remainder,
    Equal,
    Unequal,
    Less,
    LessEqual,
    Greater,
    GreaterEqual,
}

/// A part of a day, as YEAR, MONTH and DAY take it.
#[derive(Clone, Copy)]
pub enum DatePart {
    Year,
    Month,
    Day,
}

/// An expression that has a type.
///
/// Columns are places in the scope that it was typed over, counted from 0. Brackets are gone, and
/// casts stand where a value changes its type.
#[derive(Drop)]
pub enum TypedExpr {
    /// A literal.
    Constant {
        kind: DataType,
        value: Value,
    },
    /// The column at a place.
    Column {
        kind: DataType,
        place: usize,
    },
    /// A number with the other sign.
    Negate {
        kind: DataType,
        operand: Boxed<TypedExpr>,
    },
    /// NOT, in three values.
    Not {
        operand: Boxed<TypedExpr>,
    },
    /// Numbers of any two types, or a comparison.
    Binary {
        kind: DataType,
        op: Op,
        left: Boxed<TypedExpr>,
        right: Boxed<TypedExpr>,
    },
    /// `<=>`: whether both are null, or neither and they are equal.
    SameAs {
        left: Boxed<TypedExpr>,
        right: Boxed<TypedExpr>,
    },
    /// AND, in three values.
    And {
        left: Boxed<TypedExpr>,
        right: Boxed<TypedExpr>,
    },
    /// OR, in three values.
    Or {
        left: Boxed<TypedExpr>,
        right: Boxed<TypedExpr>,
    },
    /// Two texts, one behind the other.
    Concat {
        left: Boxed<TypedExpr>,
        right: Boxed<TypedExpr>,
    },
    /// IS NULL, IS TRUE, IS FALSE.
    Is {
        truth: Truth,
        operand: Boxed<TypedExpr>,
    },
    /// Whether the first is at least the second and at most the third.
    Between {
        operand: Boxed<TypedExpr>,
        low: Boxed<TypedExpr>,
        high: Boxed<TypedExpr>,
    },
    /// Whether the operand equals one of the items.
    In {
        operand: Boxed<TypedExpr>,
        items: TypedExprs,
    },
    /// The value of the first branch whose condition is true, else the last value, else null.
    Case {
        kind: DataType,
        branches: TypedBranches,
        otherwise: Option<Boxed<TypedExpr>>,
    },
    /// The first that isn't null.
    Coalesce {
        kind: DataType,
        arguments: TypedExprs,
    },
    /// The value as one of another type.
    Cast {
        kind: DataType,
        operand: Boxed<TypedExpr>,
    },
    /// A part of a day or moment.
    Part {
        part: DatePart,
        operand: Boxed<TypedExpr>,
    },
    /// The number of characters of a text.
    Length {
        operand: Boxed<TypedExpr>,
    },
}

impl TypedExpr {
    /// The type of the values.
    pub fn kind(&self) -> DataType
        ensures { result ≡ kind_of self.now }
    {
        match self {
            TypedExpr::Constant { kind, .. }
            | TypedExpr::Column { kind, .. }
            | TypedExpr::Negate { kind, .. }
            | TypedExpr::Binary { kind, .. }
            | TypedExpr::Case { kind, .. }
            | TypedExpr::Coalesce { kind, .. }
            | TypedExpr::Cast { kind, .. } => *kind,
            TypedExpr::Not { .. }
            | TypedExpr::SameAs { .. }
            | TypedExpr::And { .. }
            | TypedExpr::Or { .. }
            | TypedExpr::Is { .. }
            | TypedExpr::Between { .. }
            | TypedExpr::In { .. } => DataType::Boolean,
            TypedExpr::Concat { .. } => DataType::Str,
            TypedExpr::Part { .. } | TypedExpr::Length { .. } => DataType::Integer,
        }
    }
}
